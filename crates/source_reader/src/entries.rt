//! Words, rooms, messages and items, each read on from its first token.
ghost use Rattle.source_reader.specs.Plan.{Follows};
ghost use Rattle.source_reader.specs.Entries.{word_part, next_reference, exits, room_rest, room_part, message_rest, message_part, item_rest, item_part};

use crate::faults::SourceFault;
use crate::lists::Piece;
use crate::singles::{is_word, item_place, reference, string, symbol};
use crate::titles::titled;
use crate::tokens::Token;
use crate::tree::{At, ItemPart, MessagePart, Ref, RoomPart, WordPart};
use adv_text::Scan;
use std::alloc::Global;

impl Piece for WordPart {
    ghost plan = { word_part };

    #[tactic(auto, using(crate::proofs::Plans::sections))]
    fn read(
        alloc: Global,
        scan: &mut Scan,
        at: usize,
        first: Token,
    ) -> Result<WordPart, SourceFault> {
        match first {
            Token::Quoted(verb) => {
                let noun = string(alloc, scan)?;
                symbol(alloc, scan, b';')?;
                Ok(WordPart { verb, noun })
            }
            _ => Err(SourceFault::Unexpected(at)),
        }
    }
}

/// Reads a comma, and a number or a name.
#[tactic(auto, using(crate::proofs::Plans::sections), unfolding(crate::specs::Entries::next_reference))]
pub fn next_reference(alloc: Global, scan: &mut Scan) -> Result<At<Ref>, SourceFault>
    ensures { Follows next_reference scan.old result scan.new }
{
    symbol(alloc, scan, b',')?;
    reference(alloc, scan)
}

// Reads the six exits, and what ends them.
#[tactic(auto, using(crate::proofs::Plans::sections), unfolding(crate::specs::Entries::exits))]
fn exits(alloc: Global, scan: &mut Scan) -> Result<[At<Ref>; 6], SourceFault>
    ensures { Follows exits scan.old result scan.new }
{
    let north = reference(alloc, scan)?;
    let south = next_reference(alloc, scan)?;
    let east = next_reference(alloc, scan)?;
    let west = next_reference(alloc, scan)?;
    let up = next_reference(alloc, scan)?;
    let down = next_reference(alloc, scan)?;
    symbol(alloc, scan, b';')?;
    Ok([north, south, east, west, up, down])
}

// Reads a room on from its word.
#[tactic(auto, using(crate::proofs::Plans::sections), unfolding(crate::specs::Entries::room_rest))]
fn room_rest(alloc: Global, scan: &mut Scan) -> Result<RoomPart, SourceFault>
    ensures { Follows room_rest scan.old result scan.new }
{
    let title = titled(alloc, scan)?;
    symbol(alloc, scan, b':')?;
    let exits = exits(alloc, scan)?;
    Ok(RoomPart {
        name: title.name,
        text: title.text,
        exits,
    })
}

impl Piece for RoomPart {
    ghost plan = { room_part };

    fn read(
        alloc: Global,
        scan: &mut Scan,
        at: usize,
        first: Token,
    ) -> Result<RoomPart, SourceFault> {
        if !is_word(b"room", &first) {
            return Err(SourceFault::Unexpected(at));
        }
        room_rest(alloc, scan)
    }
}

// Reads a message on from its word.
#[tactic(auto, using(crate::proofs::Plans::sections), unfolding(crate::specs::Entries::message_rest))]
fn message_rest(alloc: Global, scan: &mut Scan) -> Result<MessagePart, SourceFault>
    ensures { Follows message_rest scan.old result scan.new }
{
    let title = titled(alloc, scan)?;
    symbol(alloc, scan, b';')?;
    Ok(MessagePart {
        name: title.name,
        text: title.text,
    })
}

impl Piece for MessagePart {
    ghost plan = { message_part };

    fn read(
        alloc: Global,
        scan: &mut Scan,
        at: usize,
        first: Token,
    ) -> Result<MessagePart, SourceFault> {
        if !is_word(b"message", &first) {
            return Err(SourceFault::Unexpected(at));
        }
        message_rest(alloc, scan)
    }
}

// Reads an item on from its word.
#[tactic(auto, using(crate::proofs::Plans::sections), unfolding(crate::specs::Entries::item_rest))]
fn item_rest(alloc: Global, scan: &mut Scan) -> Result<ItemPart, SourceFault>
    ensures { Follows item_rest scan.old result scan.new }
{
    let title = titled(alloc, scan)?;
    symbol(alloc, scan, b':')?;
    let place = item_place(alloc, scan)?;
    symbol(alloc, scan, b';')?;
    Ok(ItemPart {
        name: title.name,
        text: title.text,
        place,
    })
}

impl Piece for ItemPart {
    ghost plan = { item_part };

    fn read(
        alloc: Global,
        scan: &mut Scan,
        at: usize,
        first: Token,
    ) -> Result<ItemPart, SourceFault> {
        if !is_word(b"item", &first) {
            return Err(SourceFault::Unexpected(at));
        }
        item_rest(alloc, scan)
    }
}
