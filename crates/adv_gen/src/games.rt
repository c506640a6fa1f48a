//! The game of a number.
ghost use Rattle.std.specs.Prelude.{◌≡◌, ◌≤◌, ◌*◌, [], IfOk, OnOk, length, replicate};
ghost use Rattle.scott_types.specs.Database.{database_of};
ghost use Rattle.adv_gen.specs.Picks.{generator_of};
ghost use Rattle.adv_gen.specs.Made.{treasures_in, header, at_lines, database, lines};

use crate::parts::each;
use crate::picks::Picks;
use adv_io::{Line, Memory};
use scott_types::{Action, Db, Header, Item, Parts, Room, Text, Trailer, Word, is_treasure};
use std::alloc::Global;

// Comments of no bytes.
fn comments(alloc: Global, count: u16) -> Result<Vec<Text>, Memory>
    ensures { IfOk result (λ comments. comments.items ≡ replicate count []) }
{
    let mut comments = Vec::new(alloc);
    for _ in 0..count {
        comments.push(Text::of(Vec::new(alloc)))?;
    }
    Ok(comments)
}

// How many of the items are treasures.
fn treasures(items: &[Item]) -> usize
    ensures value { result ≡ treasures_in items.now }
    ensures few { result ≤ length items.now }
{
    items.iter().filter(|item| is_treasure(&item.text)).count()
}

fn header(items: &[Item]) -> Header
    requires { length items.now ≤ 255 }
    ensures { result ≡ header items.now }
{
    Header {
        unused: 0,
        carry: 6,
        start: 1,
        treasures: treasures(items) as i32,
        length: 4,
        light: 125,
        home: 1,
    }
}

// The parts of the database.
fn parts(alloc: Global, size: u16, picks: &mut Picks) -> Result<Parts, Memory>
    requires some { 8 ≤ size }
    requires small { size ≤ 120 }
    requires first { picks.old ≡ generator_of size }
    ensures made { IfOk result (λ parts. database_of parts ≡ database size) }
    ensures next { OnOk result (picks.new ≡ at_lines size) }
{
    let words: Vec<Word> = each(alloc, size, size + 37, picks)?;
    let messages: Vec<Text> = each(alloc, size, 2 * size + 11, picks)?;
    let rooms: Vec<Room> = each(alloc, size, size + 1, picks)?;
    let items: Vec<Item> = each(alloc, size, 2 * size, picks)?;
    let actions: Vec<Action> = each(alloc, size, 5 * size + 5, picks)?;
    let comments = comments(alloc, 5 * size + 5)?;
    let header = header(items.as_slice());
    Ok(Parts {
        header,
        actions,
        words,
        rooms,
        messages,
        items,
        comments,
        trailer: Trailer {
            version: 416,
            adventure: i32::from(size),
            third: 0,
        },
    })
}

/// The game of a number n, 8 to 120: its database, and the lines of a play of it.
///
/// There are n + 1 rooms, 2n items, 5n + 5 action lines, n + 37 words, 2n + 11 messages and 10n
/// lines. The exits of the rooms, the places of the items, the numbers of the action lines and the
/// words of the lines are picked, in this order: each is the next 32-bit word of
/// [`rand_pcg::Lcg64Xsh32`] on stream 2, from the state n, modulo its bound. `specs/Made.antt` and
/// the files that it names state the rules. The one refusal is for want of memory.
pub fn make(alloc: Global, n: u32) -> Result<(Db, Vec<Line>), Memory>
    requires some { 8 ≤ n }
    requires small { n ≤ 120 }
    ensures database { IfOk result (λ game. game.0 ≡ database n) }
    ensures lines { IfOk result (λ game. game.1.items ≡ lines n) }
{
    let size = n as u16;
    let mut picks = Picks::seeded(size);
    let parts = parts(alloc, size, &mut picks)?;
    let lines: Vec<Line> = each(alloc, size, 10 * size, &mut picks)?;
    Ok((Db::of(parts), lines))
}
