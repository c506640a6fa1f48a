//! What words, rooms, messages and items mean.
ghost use Rattle.std.specs.Prelude.{◌≤◌, ◌≡◌, [], IfOk, length, IsTrue};
ghost use Rattle.std.specs.List.{list_all};
ghost use Rattle.scott_types.specs.Limits.{is_word, is_room, is_item, is_file_text, is_number};
ghost use Rattle.source_reader.specs.WellFormed.{is_word_part, is_room_part, is_message_part, is_item_part};
ghost use Rattle.adv_compiler.specs.Faults.{Meets};
ghost use Rattle.adv_compiler.specs.Index.{found_in, known_in};
ghost use Rattle.adv_compiler.specs.Values.{value_of};
ghost use Rattle.adv_compiler.specs.Entries.{named_once, word, exits, room, message, place, item};

use crate::faults::CompileFault;
use crate::lists::Entry;
use crate::names::Names;
use crate::tables::Tables;
use crate::texts::text_of;
use crate::values::{in_range, number_fits, value_of};
use scott_types::{Item, Room, Text, Word};
use source_reader::{At, ItemPart, MessagePart, Ref, RoomPart, Spot, WordPart};
use std::alloc::Global;

// That no entry before this one has its name.
fn named_once(names: &Names, number: u16, name: &Option<At<Text>>) -> Result<(), CompileFault>
    ensures { Meets (named_once (found_in names.now) number name.now) result }
{
    if let Some(name) = name {
        if let Some(first) = names.find(name.what.bytes()) {
            if first < i32::from(number) {
                return Err(CompileFault::Twice(name.at));
            }
        }
    }
    Ok(())
}

impl Entry<Word> for WordPart {
    ghost meaning = { word };

    ghost ready = { is_word_part };

    ghost kept = { is_word };

    fn compile(
        alloc: Global,
        _tables: &Tables,
        _number: u16,
        entry: &At<WordPart>,
    ) -> Result<Word, CompileFault> {
        let verb = text_of(alloc, &entry.what.verb)?;
        let noun = text_of(alloc, &entry.what.noun)?;
        Ok(Word { verb, noun })
    }
}

// The numbers of an array fit, each by its type.
fn numbers_fit(numbers: &[i32; 6])
    ensures six { length numbers.now ≡ 6 }
    ensures fit { IsTrue (list_all is_number numbers.now) }
{
    for number in numbers {
        number_fits(*number);
    }
}

// The number of an exit.
fn exit(tables: &Tables, room: &At<Ref>) -> Result<i32, CompileFault>
    ensures { Meets (value_of (known_in tables.now).rooms room.now.at room.now.what) result }
{
    value_of(&tables.rooms, room.at, &room.what)
}

// The numbers of the six exits.
fn exits(tables: &Tables, refs: &[At<Ref>; 6]) -> Result<[i32; 6], CompileFault>
    ensures { Meets (exits (known_in tables.now) [] refs.now) result }
{
    let mut ways = [0; 6];
    for k in 0..6 {
        ways[k] = exit(tables, &refs[k])?;
    }
    Ok(ways)
}

impl Entry<Room> for RoomPart {
    ghost meaning = { room };

    ghost ready = { is_room_part };

    ghost kept = { is_room };

    #[tactic(auto, using(crate::proofs::Binds::stands_then))]
    fn compile(
        alloc: Global,
        tables: &Tables,
        number: u16,
        entry: &At<RoomPart>,
    ) -> Result<Room, CompileFault> {
        named_once(&tables.rooms, number, &entry.what.name)?;
        let exits = exits(tables, &entry.what.exits)?;
        numbers_fit(&exits);
        let text = text_of(alloc, &entry.what.text)?;
        Ok(Room { exits, text })
    }
}

impl Entry<Text> for MessagePart {
    ghost meaning = { message };

    ghost ready = { is_message_part };

    ghost kept = { is_file_text };

    #[tactic(auto, using(crate::proofs::Binds::stands_then))]
    fn compile(
        alloc: Global,
        tables: &Tables,
        number: u16,
        entry: &At<MessagePart>,
    ) -> Result<Text, CompileFault> {
        named_once(&tables.messages, number, &entry.what.name)?;
        text_of(alloc, &entry.what.text)
    }
}

// The number of a place at which an item can be.
#[tactic(auto, using(crate::proofs::Binds::stands_then))]
fn place(tables: &Tables, at: usize, what: &Spot) -> Result<u8, CompileFault>
    ensures { Meets (place (known_in tables.now) at what.now) result }
{
    match what {
        Spot::Carried => Ok(255),
        Spot::Nowhere => Ok(0),
        Spot::Room(room) => {
            let number = value_of(&tables.rooms, at, room)?;
            let number = in_range(at, 0, 255, number)?;
            Ok(number as u8)
        }
    }
}

impl Entry<Item> for ItemPart {
    ghost meaning = { item };

    ghost ready = { is_item_part };

    ghost kept = { is_item };

    #[tactic(auto, using(crate::proofs::Binds::stands_then))]
    fn compile(
        alloc: Global,
        tables: &Tables,
        number: u16,
        entry: &At<ItemPart>,
    ) -> Result<Item, CompileFault> {
        named_once(&tables.items, number, &entry.what.name)?;
        let place = place(tables, entry.what.place.at, &entry.what.place.what)?;
        let text = text_of(alloc, &entry.what.text)?;
        Ok(Item { text, place })
    }
}
