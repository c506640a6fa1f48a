//! Which action lines are heads, and how far their tails go, line by line.
ghost use Rattle.std.specs.Prelude.{◌≡◌, [], MatchOption};
ghost use Rattle.scott_turn.specs.Heads.{groups_for, is_head_of, ComesNext, TailGoesOn};
ghost use Rattle.scott_turn.specs.Positions.{is_automatic};

use scott_types::action_lines::verb_of;
use scott_types::{Action, Db};

// Whether a line is a head of a verb.
fn is_head_of(action: &Action, verb: u16) -> bool
    ensures { result ≡ is_head_of verb action.now }
{
    action.vocab != 0 && verb_of(action.vocab) == u32::from(verb)
}

/// Whether a line is a head of verb 0, which is tried by itself in each round.
pub fn is_automatic(db: &Db, line: u16) -> bool
    ensures { result ≡ is_automatic db.now line }
{
    let actions = db.actions();
    (line as usize) < actions.len() && is_head_of(&actions[line as usize], 0)
}

// The next head of a verb, at a line or after it.
pub fn next_head(db: &Db, verb: u16, from: u16) -> Option<u16>
    ensures { MatchOption result (groups_for db.now verb from ≡ [])
        (λ head. ComesNext db.now verb from head) }
{
    let actions = db.actions();
    for line in from as usize..actions.len() {
        let action = &actions[line];
        if is_head_of(action, verb) {
            return Some(line as u16);
        }
    }
    None
}

// Whether a tail goes on with a line.
pub fn tail_goes_on(db: &Db, line: u16) -> bool
    ensures { TailGoesOn db.now line result }
{
    let actions = db.actions();
    if (line as usize) < actions.len() {
        let action = &actions[line as usize];
        action.vocab == 0
    } else {
        false
    }
}
