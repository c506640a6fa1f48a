//! The lines of the text that is written, one for each entry of a list.
ghost use Rattle.std.specs.Prelude.{◌≡◌, ◌++◌, ◌∷◌, [], Bool, List, ℤ, ℕ, pos, map, IsTrue, OnOk};
ghost use Rattle.std.specs.List.{flat_map, list_all};
ghost use Rattle.adv_text.specs.Writing.{number_text, quoted_text};
ghost use Rattle.scott_types.specs.Limits.{is_file_text, is_natural, is_action, is_word, is_room, is_item};
ghost use Rattle.scott_format.specs.Canon.{Token, line_text, lines_text, number_and_space, action_line, word_line, room_line, string_line, item_line};

use adv_io::Memory;
use adv_text::{put_number, put_quoted};
use scott_types::{Action, Item, Room, Text, Word};
use std::alloc::Global;

/// What has a line of its own in the text.
pub trait Line {
    // What the line is made of.
    ghost line: { Self → List Token };

    // Whether the entry is within the limits.
    ghost fits: { Self → Bool };

    /// Writes the line at the end.
    fn put(&self, alloc: Global, out: &mut Vec<u8>) -> Result<(), Memory>
        requires { IsTrue (fits self.now) }
        ensures { OnOk result (out.new.items ≡ out.old.items ++ line_text (line self.now)) };
}

/// Writes a number and the byte after it.
pub fn put_number_and(alloc: Global, out: &mut Vec<u8>, number: i32, end: u8) -> Result<(), Memory>
    ensures { OnOk result (out.new.items ≡ out.old.items ++ (number_text number ++ end ∷ [])) }
{
    put_number(alloc, out, number)?;
    out.push(end)?;
    Ok(())
}

// Writes a number that isn't negative, and the byte after it.
fn put_natural_and(alloc: Global, out: &mut Vec<u8>, number: u32, end: u8) -> Result<(), Memory>
    requires { IsTrue (is_natural number) }
    ensures { OnOk result
        (out.new.items ≡ out.old.items ++ (number_text (pos number) ++ end ∷ [])) }
{
    put_number_and(alloc, out, number as i32, end)
}

// Writes a string and the byte after it.
fn put_text_and(alloc: Global, out: &mut Vec<u8>, text: &Text, end: u8) -> Result<(), Memory>
    requires { IsTrue (is_file_text text.now) }
    ensures { OnOk result (out.new.items ≡ out.old.items ++ (quoted_text text.now ++ end ∷ [])) }
{
    put_quoted(alloc, out, text.bytes())?;
    out.push(end)?;
    Ok(())
}

/// Writes numbers, each with a space after it.
pub fn put_numbers(alloc: Global, out: &mut Vec<u8>, numbers: &[i32]) -> Result<(), Memory>
    ensures { OnOk result (out.new.items ≡ out.old.items ++ flat_map number_and_space numbers.now) }
{
    for number in numbers {
        put_number_and(alloc, out, *number, b' ')?;
    }
    Ok(())
}

// Writes numbers that aren't negative, each with a space after it.
fn put_naturals(alloc: Global, out: &mut Vec<u8>, numbers: &[u32]) -> Result<(), Memory>
    requires { IsTrue (list_all is_natural numbers.now) }
    ensures { OnOk result (out.new.items ≡ out.old.items ++ flat_map
        (λ n. number_and_space (pos n)) numbers.now) }
{
    for number in numbers {
        put_natural_and(alloc, out, *number, b' ')?;
    }
    Ok(())
}

impl Line for Action {
    ghost line = { action_line };

    ghost fits = { is_action };

    fn put(&self, alloc: Global, out: &mut Vec<u8>) -> Result<(), Memory> {
        let [first, second] = self.pairs;
        put_natural_and(alloc, out, self.vocab, b' ')?;
        put_naturals(alloc, out, &self.conds)?;
        put_natural_and(alloc, out, first, b' ')?;
        put_natural_and(alloc, out, second, b'\n')
    }
}

impl Line for Word {
    ghost line = { word_line };

    ghost fits = { is_word };

    fn put(&self, alloc: Global, out: &mut Vec<u8>) -> Result<(), Memory> {
        put_text_and(alloc, out, &self.verb, b' ')?;
        put_text_and(alloc, out, &self.noun, b'\n')
    }
}

impl Line for Room {
    ghost line = { room_line };

    ghost fits = { is_room };

    fn put(&self, alloc: Global, out: &mut Vec<u8>) -> Result<(), Memory> {
        put_numbers(alloc, out, &self.exits)?;
        put_text_and(alloc, out, &self.text, b'\n')
    }
}

impl Line for Text {
    ghost line = { string_line };

    ghost fits = { is_file_text };

    fn put(&self, alloc: Global, out: &mut Vec<u8>) -> Result<(), Memory> {
        put_text_and(alloc, out, self, b'\n')
    }
}

impl Line for Item {
    ghost line = { item_line };

    ghost fits = { is_item };

    fn put(&self, alloc: Global, out: &mut Vec<u8>) -> Result<(), Memory> {
        put_text_and(alloc, out, &self.text, b' ')?;
        put_number_and(alloc, out, i32::from(self.place), b'\n')
    }
}

/// Writes a line for each entry of a list.
pub fn put_lines<L: Line>(alloc: Global, out: &mut Vec<u8>, entries: &[L]) -> Result<(), Memory>
    requires { IsTrue (list_all L.fits entries.now) }
    ensures { OnOk result (out.new.items ≡ out.old.items ++ lines_text L.line entries.now) }
{
    for entry in entries {
        entry.put(alloc, out)?;
    }
    Ok(())
}
