//! When a condition holds, and when a line passes.
ghost use Rattle.std.specs.Prelude.{◌≡◌, ◌<◌, ◌==◌};
ghost use Rattle.scott_types.specs.Condition.{condition_of};
ghost use Rattle.scott_types.specs.State.{Fits, place_of};
ghost use Rattle.scott_rules.specs.Conditions.{start_place, holds};
ghost use Rattle.scott_rules.specs.Actions.{condition_holds, passes};

use scott_types::action_lines::{argument_of, condition_code};
use scott_types::{Action, Condition, Db, State};

// Where an item was when the game began: 0 for one that isn't there.
fn start_place(db: &Db, item: u32) -> u8
    ensures { result ≡ start_place db.now item }
{
    let items = db.items();
    if (item as usize) < items.len() {
        items[item as usize].place
    } else {
        0
    }
}

// Whether an item is where it was when the game began.
fn is_at_start(db: &Db, state: &State, item: u32) -> bool
    ensures { result ≡ (place_of state.now item == start_place db.now item) }
{
    state.place(item) == start_place(db, item)
}

fn test(db: &Db, state: &State, argument: u32, condition: Condition) -> bool
    ensures { result ≡ holds db.now state.now argument condition }
{
    match condition {
        Condition::Parameter => true,
        Condition::Carried => state.is_carried(argument),
        Condition::Here => state.is_here(argument),
        Condition::Near => state.is_near(argument),
        Condition::At => u32::from(state.room) == argument,
        Condition::NotHere => !state.is_here(argument),
        Condition::NotCarried => !state.is_carried(argument),
        Condition::NotAt => u32::from(state.room) != argument,
        Condition::FlagSet => state.flag(argument),
        Condition::FlagClear => !state.flag(argument),
        Condition::SomeCarried => 0 < state.carried_count(),
        Condition::NoneCarried => state.carried_count() == 0,
        Condition::NotNear => !state.is_near(argument),
        Condition::InGame => state.place(argument) != 0,
        Condition::OutOfGame => state.place(argument) == 0,
        Condition::CounterAtMost => i64::from(state.counter) <= i64::from(argument),
        Condition::CounterOver => i64::from(argument) < i64::from(state.counter),
        Condition::AtStart => is_at_start(db, state, argument),
        Condition::NotAtStart => !is_at_start(db, state, argument),
        Condition::CounterIs => i64::from(state.counter) == i64::from(argument),
    }
}

/// Whether a condition holds; its code is 0..19. docs/TURN.md has the twenty of them.
pub fn holds(db: &Db, state: &State, argument: u32, code: u8) -> bool
    requires fits { Fits db.now state.now }
    requires code { code < 20 }
    ensures { result ≡ holds db.now state.now argument (condition_of code) }
{
    test(db, state, argument, Condition::of(code))
}

// Whether a packed condition holds.
fn condition_holds(db: &Db, state: &State, packed: u32) -> bool
    ensures { result ≡ condition_holds db.now state.now packed }
{
    test(
        db,
        state,
        argument_of(packed),
        Condition::of(condition_code(packed)),
    )
}

/// Whether all conditions of a line hold.
pub fn passes(db: &Db, state: &State, action: &Action) -> bool
    ensures { result ≡ passes db.now state.now action.now }
{
    action
        .conds
        .iter()
        .all(|packed| condition_holds(db, state, *packed))
}
