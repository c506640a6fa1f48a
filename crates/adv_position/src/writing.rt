//! The text of a position is written.
ghost use Rattle.std.specs.Prelude.{◌≡◌, ◌≤◌, ◌∷◌, ◌++◌, [], OnOk, IfOk, length, pos, map, codes};
ghost use Rattle.std.specs.List.{flat_map};
ghost use Rattle.adv_io.specs.Text.{newline, space};
ghost use Rattle.scott_types.specs.State.{Fits};
ghost use Rattle.adv_position.specs.Numbers.{bit};
ghost use Rattle.adv_position.specs.declared.saved.TheConstants.{TAKEN_LIMIT};
ghost use Rattle.adv_position.specs.Text.{Waits, at_line, room_line, numbers_line, position_text};

use adv_io::Memory;
use adv_text::put_integer;
use itoa::Integer;
use scott_types::{Db, Position, State};
use std::alloc::Global;

// Writes a label, and a number after a space.
fn put_labelled<I: Integer>(
    alloc: Global,
    out: &mut Vec<u8>,
    label: &[u8],
    number: I,
) -> Result<(), Memory>
    ensures { OnOk result
        (out.new.items ≡ out.old.items ++ (label.now ++ space ∷ I.text number)) }
{
    out.extend_from_slice(label)?;
    out.push(b' ')?;
    put_integer(alloc, out, number)
}

// Writes a line: a label, and numbers, each after a space.
fn put_line<I: Integer>(
    alloc: Global,
    out: &mut Vec<u8>,
    label: &[u8],
    numbers: &[I],
) -> Result<(), Memory>
    ensures { OnOk result (out.new.items ≡ out.old.items
        ++ (label.now ++ (flat_map (λ n. space ∷ I.text n) numbers.now ++ newline ∷ []))) }
{
    out.extend_from_slice(label)?;
    for number in numbers {
        put_labelled(alloc, out, b"", *number)?;
    }
    out.push(b'\n')?;
    Ok(())
}

// Writes where a play stands.
fn put_position(alloc: Global, out: &mut Vec<u8>, position: Position) -> Result<(), Memory>
    ensures { OnOk result (out.new.items ≡ out.old.items ++ at_line position) }
{
    match position {
        Position::Draw(head) => put_line(alloc, out, b"at draw", &[head]),
        _ => {
            out.extend_from_slice(b"at line\n")?;
            Ok(())
        }
    }
}

// 1 for true, and 0 for false.
fn bit(flag: bool) -> u8
    ensures { pos result ≡ bit flag }
{
    u8::from(flag)
}

// Writes the rooms, the light, the counter and the redraw mark.
fn put_room_line(alloc: Global, out: &mut Vec<u8>, state: &State) -> Result<(), Memory>
    ensures { OnOk result (out.new.items ≡ out.old.items ++ room_line state.now) }
{
    put_labelled(alloc, out, b"room", state.room)?;
    put_labelled(alloc, out, b" saved", state.saved)?;
    put_labelled(alloc, out, b" light", state.light)?;
    put_labelled(alloc, out, b" counter", state.counter)?;
    put_labelled(alloc, out, b" redraw", bit(state.redraw))?;
    out.push(b'\n')?;
    Ok(())
}

// Writes the flags: 1 for one that is set, and 0 for one that is clear.
fn put_flags(alloc: Global, out: &mut Vec<u8>, flags: &[bool; 32]) -> Result<(), Memory>
    ensures { OnOk result
        (out.new.items ≡ out.old.items ++ numbers_line (codes "flags") (map bit flags.now)) }
{
    out.extend_from_slice(b"flags")?;
    for flag in flags {
        put_labelled(alloc, out, b"", bit(*flag))?;
    }
    out.push(b'\n')?;
    Ok(())
}

/// The text of a play that stopped: eight lines, which docs/FORMAT.md, "Positions", has.
///
/// The play waits for a line, or for the draw of a head of verb 0, and at most 1,000,000 draws were
/// taken.
pub fn position_text(
    alloc: Global,
    db: &Db,
    state: &State,
    position: Position,
    taken: u32,
) -> Result<Vec<u8>, Memory>
    requires fits { Fits db.now state.now }
    requires waits { Waits db.now position }
    requires taken { taken ≤ TAKEN_LIMIT }
    ensures { IfOk result (λ text. text.items
        ≡ position_text (record { state = state.now; position = position; taken = taken })) }
{
    let mut out = Vec::new(alloc);
    out.extend_from_slice(b"position 1\n")?;
    put_position(alloc, &mut out, position)?;
    put_line(alloc, &mut out, b"taken", &[taken])?;
    put_room_line(alloc, &mut out, state)?;
    put_line(alloc, &mut out, b"rooms", &state.rooms)?;
    put_line(alloc, &mut out, b"counters", &state.counters)?;
    put_flags(alloc, &mut out, &state.flags)?;
    put_line(alloc, &mut out, b"places", state.places.as_slice())?;
    Ok(out)
}
