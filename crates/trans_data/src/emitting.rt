//! All tables of a translated game, and the routines of its texts.
ghost use Rattle.std.specs.Prelude.{◌≡◌, ◌<◌, ◌^◌, IfOk, None, map, length};
ghost use Rattle.inform_tree.specs.Programs.{directive_of};
ghost use Rattle.scott_types.specs.State.{Fits};
ghost use Rattle.trans_specs.specs.Directives.{global_directives as the_globals, array_directives as the_arrays, data_directives as the_data};
ghost use Rattle.trans_specs.specs.Wide.{wide_at};
ghost use Rattle.trans_data.specs.Texts.{item_texts as the_item_texts, room_texts as the_room_texts, spoken_directives as the_spoken, text_directives as the_texts};
ghost use Rattle.trans_data.specs.Tables.{table_directives};

use crate::choices::text_routine;
use crate::descriptions::{item_texts, room_texts};
use crate::fixed_tables::{buffers, fixed_arrays};
use crate::messages::messages;
use crate::routines::fixed_directives;
use crate::state_tables::{state_arrays, state_globals, turn_globals};
use adv_io::Memory;
use inform_codes::joined;
use inform_tree::{Directive, Width};
use scott_types::{Db, State, Style};
use std::alloc::Global;

fn globals(alloc: Global, state: &State) -> Result<Vec<Directive>, Memory>
    ensures { IfOk result (λ directives. map directive_of directives.items
        ≡ the_globals state.now) }
{
    joined(state_globals(alloc, state)?, turn_globals(alloc)?)
}

fn arrays(alloc: Global, db: &Db, state: &State) -> Result<Vec<Directive>, Memory>
    ensures { IfOk result (λ directives. map directive_of directives.items
        ≡ the_arrays db.now state.now) }
{
    let fixed = joined(fixed_arrays(alloc, db)?, buffers(alloc)?)?;
    joined(state_arrays(alloc, state)?, fixed)
}

// The globals and then the arrays.
fn data(alloc: Global, db: &Db, state: &State) -> Result<Vec<Directive>, Memory>
    ensures { IfOk result (λ directives. map directive_of directives.items
        ≡ the_data db.now state.now) }
{
    joined(globals(alloc, state)?, arrays(alloc, db, state)?)
}

// The routines that say the texts of the database.
fn spoken(alloc: Global, db: &Db, style: Style) -> Result<Vec<Directive>, Memory>
    ensures { IfOk result (λ directives. map directive_of directives.items
        ≡ the_spoken style db.now) }
{
    let items = item_texts(alloc, db.items())?;
    let rooms = room_texts(alloc, style, db.rooms())?;
    let mut directives = Vec::new(alloc);
    directives.push(text_routine(alloc, b"say_item", items.as_slice())?)?;
    directives.push(text_routine(alloc, b"say_room", rooms.as_slice())?)?;
    joined(directives, messages(alloc, 0, db.messages())?)
}

/// The tables of a game that opens in a state, and the routines that say its texts, count its light
/// and tell about its items.
///
/// The globals and arrays come first, and then the routines. No number is too wide for words of the
/// width.
pub fn tables(
    alloc: Global,
    db: &Db,
    style: Style,
    width: Width,
    state: &State,
) -> Result<Vec<Directive>, Memory>
    requires fits { Fits db.now state.now }
    requires narrow { wide_at width db.now ≡ None }
    ensures { IfOk result (λ directives. map directive_of directives.items
        ≡ table_directives style db.now state.now) }
{
    let routines = joined(
        fixed_directives(alloc, db, style)?,
        spoken(alloc, db, style)?,
    )?;
    joined(data(alloc, db, state)?, routines)
}
