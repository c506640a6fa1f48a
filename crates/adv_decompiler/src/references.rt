//! Writing names and numbers of rooms, messages and items.
ghost use Rattle.std.specs.Prelude.{◌≡◌, ◌++◌, ◌∷◌, OnOk};
ghost use Rattle.std.specs.Fmt.{decimal};
ghost use Rattle.adv_decompiler.specs.Layout.{token_text};
ghost use Rattle.adv_decompiler.specs.References.{room_token, exit_token, message_token, item_token, place_token, thing_token};

use crate::sizes::Sizes;
use adv_io::Memory;
use adv_text::{put_integer, put_number};
use scott_types::Parameter;
use scott_types::places::CARRIED;
use std::alloc::Global;

/// Writes the name of an entry: a letter and its number.
pub fn put_name(alloc: Global, out: &mut Vec<u8>, letter: u8, number: u32) -> Result<(), Memory>
    ensures { OnOk result (out.new.items ≡ out.old.items ++ (letter ∷ decimal number)) }
{
    out.push(letter)?;
    put_integer(alloc, out, number)?;
    Ok(())
}

/// Writes a room.
pub fn put_room(alloc: Global, out: &mut Vec<u8>, sizes: &Sizes, room: u32) -> Result<(), Memory>
    ensures { OnOk result
        (out.new.items ≡ out.old.items ++ token_text (room_token sizes.now room)) }
{
    if 1 <= room && room < sizes.rooms {
        return put_name(alloc, out, b'r', room);
    }
    put_integer(alloc, out, room)
}

/// Writes where an exit leads.
pub fn put_exit(alloc: Global, out: &mut Vec<u8>, sizes: &Sizes, exit: i32) -> Result<(), Memory>
    ensures { OnOk result
        (out.new.items ≡ out.old.items ++ token_text (exit_token sizes.now exit)) }
{
    if exit < 0 {
        return put_number(alloc, out, exit);
    }
    put_room(alloc, out, sizes, exit as u32)
}

/// Writes a message.
pub fn put_message(
    alloc: Global,
    out: &mut Vec<u8>,
    sizes: &Sizes,
    message: u32,
) -> Result<(), Memory>
    ensures { OnOk result
        (out.new.items ≡ out.old.items ++ token_text (message_token sizes.now message)) }
{
    if message < sizes.messages {
        return put_name(alloc, out, b'm', message);
    }
    put_integer(alloc, out, message)
}

// Writes an item.
fn put_item(alloc: Global, out: &mut Vec<u8>, sizes: &Sizes, item: u32) -> Result<(), Memory>
    ensures { OnOk result
        (out.new.items ≡ out.old.items ++ token_text (item_token sizes.now item)) }
{
    if item < sizes.items {
        return put_name(alloc, out, b'i', item);
    }
    put_integer(alloc, out, item)
}

/// Writes the place where an item is when a game begins.
pub fn put_place(alloc: Global, out: &mut Vec<u8>, sizes: &Sizes, place: u8) -> Result<(), Memory>
    ensures { OnOk result
        (out.new.items ≡ out.old.items ++ token_text (place_token sizes.now place)) }
{
    if place == CARRIED {
        out.extend_from_slice(b"carried")?;
        return Ok(());
    }
    if place == 0 {
        out.extend_from_slice(b"nowhere")?;
        return Ok(());
    }
    put_room(alloc, out, sizes, u32::from(place))
}

/// Writes what an argument or a parameter names.
pub fn put_thing(
    alloc: Global,
    out: &mut Vec<u8>,
    sizes: &Sizes,
    kind: Parameter,
    number: u32,
) -> Result<(), Memory>
    ensures { OnOk result
        (out.new.items ≡ out.old.items ++ token_text (thing_token sizes.now kind number)) }
{
    match kind {
        Parameter::Item => put_item(alloc, out, sizes, number),
        Parameter::Room | Parameter::Place => put_room(alloc, out, sizes, number),
        Parameter::Flag | Parameter::Backup | Parameter::Number => put_integer(alloc, out, number),
    }
}
