//! What is shown of each item, and how each room is described.
ghost use Rattle.std.specs.Prelude.{◌≡◌, ◌++◌, IfOk, map};
ghost use Rattle.scott_types.specs.ItemText.{shown as the_shown};
ghost use Rattle.scott_rules.specs.Looking.{described as the_description};

use adv_io::Memory;
use scott_types::{Item, Phrase, Room, Style, shown, starts_with_star};
use std::alloc::Global;

/// What is shown of each item.
pub fn item_texts(alloc: Global, items: &[Item]) -> Result<Vec<Vec<u8>>, Memory>
    ensures { IfOk result (λ texts. map (λ text. text.items) texts.items
        ≡ map (λ item. the_shown item.text) items.now) }
{
    let mut texts = Vec::with_capacity(alloc, items.len())?;
    for item in items {
        texts.push(Vec::from_slice(alloc, shown(&item.text))?)?;
    }
    Ok(texts)
}

// A room's text, with `I'm in a` before it unless it begins with `*`.
fn described(alloc: Global, style: Style, text: &[u8]) -> Result<Vec<u8>, Memory>
    ensures { IfOk result (λ bytes. bytes.items ≡ the_description style text.now) }
{
    if starts_with_star(text) {
        return Ok(Vec::from_slice(alloc, &text[1..])?);
    }
    let mut bytes = Vec::from_slice(alloc, Phrase::InA.text_in(style))?;
    bytes.extend_from_slice(text)?;
    Ok(bytes)
}

/// How each room is described.
pub fn room_texts(alloc: Global, style: Style, rooms: &[Room]) -> Result<Vec<Vec<u8>>, Memory>
    ensures { IfOk result (λ texts. map (λ text. text.items) texts.items
        ≡ map (λ room. the_description style room.text) rooms.now) }
{
    let mut texts = Vec::with_capacity(alloc, rooms.len())?;
    for room in rooms {
        texts.push(described(alloc, style, room.text.bytes())?)?;
    }
    Ok(texts)
}
