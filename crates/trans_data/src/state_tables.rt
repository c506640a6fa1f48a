//! The globals and arrays of a state, and the globals with which a turn works.
ghost use Rattle.std.specs.Prelude.{◌≡◌, IfOk, map};
ghost use Rattle.inform_tree.specs.Programs.{directive_of};
ghost use Rattle.trans_specs.specs.Tables.{bit as the_bit, guarded};
ghost use Rattle.trans_specs.specs.Directives.{state_globals as the_globals, turn_globals as the_turn, state_arrays as the_arrays};

use crate::entries::{global, integers, with_guard, words};
use adv_io::Memory;
use inform_tree::Directive;
use scott_types::State;
use std::alloc::Global;

fn bit(holds: bool) -> u32
    ensures { result ≡ the_bit holds }
{
    if holds { 1 } else { 0 }
}

/// The room, the saved room, the counter, the light and the mark.
pub fn state_globals(alloc: Global, state: &State) -> Result<Vec<Directive>, Memory>
    ensures { IfOk result (λ directives. map directive_of directives.items
        ≡ the_globals state.now) }
{
    let mut globals = Vec::new(alloc);
    globals.push(global(alloc, b"here", state.room as i32)?)?;
    globals.push(global(alloc, b"saved", state.saved as i32)?)?;
    globals.push(global(alloc, b"cur", state.counter as i32)?)?;
    globals.push(global(alloc, b"light", state.light)?)?;
    globals.push(global(alloc, b"redraw", bit(state.redraw) as i32)?)?;
    Ok(globals)
}

/// The globals of a turn, each 0.
pub fn turn_globals(alloc: Global) -> Result<Vec<Directive>, Memory>
    ensures { IfOk result (λ directives. map directive_of directives.items ≡ the_turn) }
{
    let mut globals = Vec::new(alloc);
    globals.push(global(alloc, b"over", 0)?)?;
    globals.push(global(alloc, b"vnum", 0)?)?;
    globals.push(global(alloc, b"nnum", 0)?)?;
    globals.push(global(alloc, b"wa", 0)?)?;
    globals.push(global(alloc, b"na", 0)?)?;
    globals.push(global(alloc, b"wb", 0)?)?;
    globals.push(global(alloc, b"nb", 0)?)?;
    Ok(globals)
}

// Where each item is.
fn places(alloc: Global, places: &[u8]) -> Result<Vec<u32>, Memory>
    ensures { IfOk result (λ numbers. numbers.items ≡ places.now) }
{
    let mut numbers = Vec::with_capacity(alloc, places.len())?;
    for place in places {
        numbers.push(*place as u32)?;
    }
    Ok(numbers)
}

// Whether each flag is set.
fn flags(alloc: Global, flags: &[bool]) -> Result<Vec<u32>, Memory>
    ensures { IfOk result (λ numbers. numbers.items ≡ map the_bit flags.now) }
{
    let mut numbers = Vec::with_capacity(alloc, flags.len())?;
    for flag in flags {
        numbers.push(bit(*flag))?;
    }
    Ok(numbers)
}

/// The places, flags, backup counters and backup rooms.
pub fn state_arrays(alloc: Global, state: &State) -> Result<Vec<Directive>, Memory>
    ensures { IfOk result (λ directives. map directive_of directives.items
        ≡ the_arrays state.now) }
{
    let items = with_guard(places(alloc, state.places.as_slice())?)?;
    let set = flags(alloc, &state.flags)?;
    let rooms = places(alloc, &state.rooms)?;
    let mut arrays = Vec::new(alloc);
    arrays.push(words(alloc, b"item", items.as_slice())?)?;
    arrays.push(words(alloc, b"flag", set.as_slice())?)?;
    arrays.push(integers(alloc, b"ctr", &state.counters)?)?;
    arrays.push(words(alloc, b"rsave", rooms.as_slice())?)?;
    Ok(arrays)
}
