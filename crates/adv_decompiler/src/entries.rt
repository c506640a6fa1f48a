//! Writing the lines of words, rooms, messages and items.
ghost use Rattle.std.specs.Prelude.{◌≡◌, ◌++◌, ◌∷◌, [], OnOk, IsTrue, map};
ghost use Rattle.scott_types.specs.Limits.{is_file_text, is_word, is_room, is_item};
ghost use Rattle.adv_decompiler.specs.Layout.{text_of, spaced, listed, more_listed};
ghost use Rattle.adv_decompiler.specs.References.{exit_token};
ghost use Rattle.adv_decompiler.specs.Plain.{word_line, room_line, message_line, item_line};

use crate::lists::{Line, put_text};
use crate::references::{put_exit, put_name, put_place};
use crate::sizes::Sizes;
use adv_io::Memory;
use scott_types::{Item, Room, Text, Word};
use std::alloc::Global;

impl Line for Word {
    ghost line = { word_line };

    ghost fits = { is_word };

    #[tactic(auto, using(crate::proofs::Texts::layout))]
    fn put(
        &self,
        alloc: Global,
        out: &mut Vec<u8>,
        _sizes: &Sizes,
        _number: u32,
    ) -> Result<(), Memory> {
        out.push(b'\n')?;
        put_text(alloc, out, &self.verb)?;
        out.push(b' ')?;
        put_text(alloc, out, &self.noun)?;
        out.push(b';')?;
        Ok(())
    }
}

// Writes exits, each after `, `.
#[tactic(auto, using(crate::proofs::Texts::layout, crate::proofs::Texts::steps))]
fn put_more_exits(
    alloc: Global,
    out: &mut Vec<u8>,
    sizes: &Sizes,
    exits: &[i32],
) -> Result<(), Memory>
    ensures { OnOk result (out.new.items ≡ out.old.items
        ++ text_of (more_listed (map (exit_token sizes.now) exits.now))) }
{
    for exit in exits {
        out.extend_from_slice(b", ")?;
        put_exit(alloc, out, sizes, *exit)?;
    }
    Ok(())
}

// Writes the exits of a room.
#[tactic(auto, using(crate::proofs::Texts::layout))]
fn put_exits(alloc: Global, out: &mut Vec<u8>, sizes: &Sizes, exits: &[i32]) -> Result<(), Memory>
    ensures { OnOk result (out.new.items ≡ out.old.items
        ++ text_of (listed spaced (map (exit_token sizes.now) exits.now))) }
{
    match exits {
        [first, rest @ ..] => {
            out.push(b' ')?;
            put_exit(alloc, out, sizes, *first)?;
            put_more_exits(alloc, out, sizes, rest)
        }
        [] => Ok(()),
    }
}

impl Line for Room {
    ghost line = { room_line };

    ghost fits = { is_room };

    #[tactic(auto, using(crate::proofs::Texts::layout))]
    fn put(
        &self,
        alloc: Global,
        out: &mut Vec<u8>,
        sizes: &Sizes,
        number: u32,
    ) -> Result<(), Memory> {
        out.extend_from_slice(b"\nroom ")?;
        put_name(alloc, out, b'r', number)?;
        out.push(b' ')?;
        put_text(alloc, out, &self.text)?;
        out.push(b':')?;
        put_exits(alloc, out, sizes, &self.exits)?;
        out.push(b';')?;
        Ok(())
    }
}

impl Line for Text {
    ghost line = { message_line };

    ghost fits = { is_file_text };

    #[tactic(auto, using(crate::proofs::Texts::layout))]
    fn put(
        &self,
        alloc: Global,
        out: &mut Vec<u8>,
        _sizes: &Sizes,
        number: u32,
    ) -> Result<(), Memory> {
        out.extend_from_slice(b"\nmessage ")?;
        put_name(alloc, out, b'm', number)?;
        out.push(b' ')?;
        put_text(alloc, out, self)?;
        out.push(b';')?;
        Ok(())
    }
}

impl Line for Item {
    ghost line = { item_line };

    ghost fits = { is_item };

    #[tactic(auto, using(crate::proofs::Texts::layout))]
    fn put(
        &self,
        alloc: Global,
        out: &mut Vec<u8>,
        sizes: &Sizes,
        number: u32,
    ) -> Result<(), Memory> {
        out.extend_from_slice(b"\nitem ")?;
        put_name(alloc, out, b'i', number)?;
        out.push(b' ')?;
        put_text(alloc, out, &self.text)?;
        out.extend_from_slice(b": ")?;
        put_place(alloc, out, sizes, self.place)?;
        out.push(b';')?;
        Ok(())
    }
}
