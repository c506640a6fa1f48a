//! Whether parts keep the limits of a database.
ghost use Rattle.std.specs.Prelude.{◌≡◌, ◌&&◌, ◌↔◌, IsTrue, length, nat_le};
ghost use Rattle.std.specs.List.{list_all};
ghost use Rattle.scott_types.specs.Database.{database_of};
ghost use Rattle.scott_types.specs.Limits.{is_file_byte, is_file_text, is_number, is_natural, is_action, is_word, is_room, is_item, are_header_numbers, is_trailer, KeepsHeaderLimits, KeepsSizes, KeepsEntryLimits, KeepsLimits};

use crate::parts::{Action, Header, Item, Parts, Room, Trailer, Word};
use crate::texts::Text;

/// The most bytes that a text of a database has.
pub const TEXT_LIMIT: usize = 4096;

/// The greatest number of an action line.
pub const ACTION_LIMIT: u32 = 2147483647;

// Any byte but a return and a grave accent, which no string of a file can give.
fn byte_fits(byte: u8) -> bool
    ensures { result ≡ is_file_byte byte }
{
    byte != b'\r' && byte != b'`'
}

fn bytes_fit(bytes: &[u8]) -> bool
    ensures { result ≡ list_all is_file_byte bytes.now }
{
    bytes.iter().all(|byte| byte_fits(*byte))
}

fn text_fits(text: &Text) -> bool
    ensures { result ≡ is_file_text text.now }
{
    let bytes = text.bytes();
    bytes.len() <= TEXT_LIMIT && bytes_fit(bytes)
}

fn all_natural(numbers: &[u32]) -> bool
    ensures { result ≡ list_all is_natural numbers.now }
{
    numbers.iter().all(|n| *n <= ACTION_LIMIT)
}

fn action_fits(action: &Action) -> bool
    ensures { result ≡ is_action action.now }
{
    action.vocab <= ACTION_LIMIT && all_natural(&action.conds) && all_natural(&action.pairs)
}

fn word_fits(word: &Word) -> bool
    ensures { result ≡ is_word word.now }
{
    text_fits(&word.verb) && text_fits(&word.noun)
}

// Each `i32` is a number of a file: its type says so, and the proof learns it here.
fn number_fits(_number: i32) -> bool
    ensures { result ≡ is_number _number }
{
    true
}

fn all_numbers(numbers: &[i32]) -> bool
    ensures { result ≡ list_all is_number numbers.now }
{
    numbers.iter().all(|number| number_fits(*number))
}

fn room_fits(room: &Room) -> bool
    ensures { result ≡ is_room room.now }
{
    all_numbers(&room.exits) && text_fits(&room.text)
}

// A place is a byte: its type says so, and the proof learns it here.
fn item_fits(item: &Item) -> bool
    ensures { result ≡ is_item item.now }
{
    let _place = item.place;
    text_fits(&item.text)
}

fn header_numbers_fit(header: &Header) -> bool
    ensures { result ≡ are_header_numbers header.now }
{
    all_numbers(&[
        header.unused,
        header.carry,
        header.treasures,
        header.light,
        header.home,
    ])
}

fn header_fits(header: &Header, rooms: usize) -> bool
    ensures { IsTrue result ↔ KeepsHeaderLimits rooms header.now }
{
    1 <= header.length
        && header.length <= 20
        && header.light >= -1
        && (header.start as usize) < rooms
        && header_numbers_fit(header)
}

// A list has an entry, and no more than so many.
fn length_fits(length: usize, most: usize) -> bool
    ensures { result ≡ (nat_le 1 length && nat_le length most) }
{
    1 <= length && length <= most
}

fn sizes_fit(parts: &Parts) -> bool
    ensures { IsTrue result ↔ KeepsSizes (database_of parts.now) }
{
    length_fits(parts.actions.len(), 5000)
        && length_fits(parts.words.len(), 1000)
        && length_fits(parts.rooms.len(), 255)
        && length_fits(parts.messages.len(), 1000)
        && length_fits(parts.items.len(), 255)
}

fn actions_fit(actions: &[Action]) -> bool
    ensures { result ≡ list_all is_action actions.now }
{
    actions.iter().all(|action| action_fits(action))
}

fn words_fit(words: &[Word]) -> bool
    ensures { result ≡ list_all is_word words.now }
{
    words.iter().all(|word| word_fits(word))
}

fn rooms_fit(rooms: &[Room]) -> bool
    ensures { result ≡ list_all is_room rooms.now }
{
    rooms.iter().all(|room| room_fits(room))
}

fn items_fit(items: &[Item]) -> bool
    ensures { result ≡ list_all is_item items.now }
{
    items.iter().all(|item| item_fits(item))
}

fn texts_fit(texts: &[Text]) -> bool
    ensures { result ≡ list_all is_file_text texts.now }
{
    texts.iter().all(|text| text_fits(text))
}

fn entries_fit(parts: &Parts) -> bool
    ensures { IsTrue result ↔ KeepsEntryLimits (database_of parts.now) }
{
    actions_fit(&parts.actions)
        && words_fit(&parts.words)
        && rooms_fit(&parts.rooms)
        && items_fit(&parts.items)
        && texts_fit(&parts.messages)
        && texts_fit(&parts.comments)
}

// Each line of actions has its comment.
fn comments_fit(parts: &Parts) -> bool
    ensures { IsTrue result ↔ (length parts.now.comments.items ≡ length parts.now.actions.items) }
{
    parts.comments.len() == parts.actions.len()
}

fn trailer_fits(trailer: &Trailer) -> bool
    ensures { result ≡ is_trailer trailer.now }
{
    all_numbers(&[trailer.version, trailer.adventure, trailer.third])
}

/// Whether the parts keep the limits of a database: those of docs/FORMAT.md, and a comment for each
/// line.
pub fn keeps_limits(parts: &Parts) -> bool
    ensures { IsTrue result ↔ KeepsLimits (database_of parts.now) }
{
    header_fits(&parts.header, parts.rooms.len())
        && sizes_fit(parts)
        && entries_fit(parts)
        && comments_fit(parts)
        && trailer_fits(&parts.trailer)
}
