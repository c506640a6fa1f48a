//! What an opcode does.
ghost use Rattle.std.specs.Prelude.{◌≡◌, IfOk, List, ℕ};
ghost use Rattle.adv_io.specs.History.{says};
ghost use Rattle.adv_io.specs.Console.{Speaks};
ghost use Rattle.scott_types.specs.declared.opcodes.Opcode.TheVariants.{Get};
ghost use Rattle.scott_types.specs.State.{Fits};
ghost use Rattle.scott_types.specs.Style.{in_style};
ghost use Rattle.scott_rules.specs.Opcodes.{is_full, changed, opcode_text, ending, opcode_effect, takes};
ghost use Rattle.scott_types.specs.declared.states.State.{State as AnyState};
ghost use Rattle.scott_types.specs.declared.styles.Style.{Style as AnyStyle};

use crate::counters::change_counter;
use crate::flags::change_flag;
use crate::items::{is_full, move_item, move_items, refill};
use crate::messages::say_opcode_text;
use crate::rooms::{change_room, wake};
use adv_io::{Console, ConsoleFault};
use scott_light::are_all_stored;
use scott_rules::laws::opcode_fits;
use scott_types::places::CARRIED;
use scott_types::{Db, Opcode, State, Style};

// An item is carried, unless the hands are full.
fn get(db: &Db, state: &mut State, item: u32)
    ensures { state.new ≡ changed db.now Get item 0 state.old }
{
    if !is_full(db, state) {
        move_item(state, item, CARRIED);
    }
}

// What an opcode changes, with its two parameters.
fn change(db: &Db, state: &mut State, opcode: Opcode, p: u32, q: u32)
    requires { Fits db.now state.old }
    ensures { state.new ≡ changed db.now opcode p q state.old }
{
    match opcode {
        Opcode::Get => get(db, state, p),
        Opcode::Items(op) => move_items(state, op, p, q),
        Opcode::Rooms(op) => change_room(db, state, op, p),
        Opcode::Flags(op) => change_flag(state, op, p),
        Opcode::Counters(op) => change_counter(state, op, p),
        Opcode::Refill => refill(db, state),
        Opcode::Die => wake(db, state),
        _ => {}
    }
}

// The same, of which the state still fits.
fn change_fitting(db: &Db, state: &mut State, opcode: Opcode, p: u32, q: u32)
    requires { Fits db.now state.old }
    ensures state { state.new ≡ changed db.now opcode p q state.old }
    ensures fits { Fits db.now state.new }
{
    opcode_fits();
    let _limits = db.parts();
    change(db, state, opcode, p, q);
}

// How an opcode ends the game, if it does.
fn ending(db: &Db, state: &State, opcode: Opcode) -> Option<u8>
    requires { Fits db.now state.now }
    ensures { result ≡ ending db.now opcode state.now }
{
    match opcode {
        Opcode::Score => {
            if are_all_stored(db, state) {
                Some(3)
            } else {
                None
            }
        }
        Opcode::Finish => Some(1),
        _ => None,
    }
}

// Whether the hands are full, where that matters to what an opcode says: they are counted for a get
// alone.
fn are_hands_full(db: &Db, state: &State, opcode: Opcode) -> bool
    ensures { (style : AnyStyle) (noun : List ℕ) (after : AnyState)
        → opcode_text (in_style style db.now) noun opcode result after
        ≡ opcode_text (in_style style db.now) noun opcode (is_full db.now state.now) after }
{
    match opcode {
        Opcode::Get => is_full(db, state),
        Opcode::Nothing
        | Opcode::Say(_)
        | Opcode::Items(_)
        | Opcode::Rooms(_)
        | Opcode::Flags(_)
        | Opcode::Counters(_)
        | Opcode::Talk(_)
        | Opcode::Refill
        | Opcode::Score
        | Opcode::Die
        | Opcode::Finish
        | Opcode::Screen
        | Opcode::Picture
        | Opcode::More => false,
    }
}

/// Does an opcode with its two parameters, and answers how it ended the game, if it did.
///
/// The console's fault alone is a refusal. docs/TURN.md has the table.
pub fn do_opcode<C: Console>(
    db: &Db,
    style: Style,
    state: &mut State,
    noun: &[u8],
    opcode: Opcode,
    p: u32,
    q: u32,
    console: &mut C,
) -> Result<Option<u8>, ConsoleFault>
    requires { Fits db.now state.old }
    ensures spoken { Speaks (C.seen console.old) (C.seen console.new) result
        (says (opcode_effect (in_style style db.now) noun.now opcode p q state.old).events) }
    ensures state { state.new
        ≡ (opcode_effect (in_style style db.now) noun.now opcode p q state.old).value.state }
    ensures over { IfOk result
        (λ over. over
        ≡ (opcode_effect (in_style style db.now) noun.now opcode p q state.old).value.over) }
    ensures fits { Fits db.now state.new }
{
    let full = are_hands_full(db, state, opcode);
    change_fitting(db, state, opcode, p, q);
    say_opcode_text(db, style, state, noun, opcode, full, console)?;
    Ok(ending(db, state, opcode))
}

/// How many parameters an opcode takes: a get that is refused leaves its own.
pub fn takes(db: &Db, state: &State, opcode: Opcode) -> usize
    ensures { result ≡ takes db.now state.now opcode }
{
    match opcode {
        Opcode::Get => { if is_full(db, state) { 0 } else { 1 } }
        _ => opcode.uses(),
    }
}
