//! The numbers of a database that its routines compare with.
ghost use Rattle.std.specs.Prelude.{◌≡◌};
ghost use Rattle.trans_data.specs.Numbers.{byte_or_more, divisor as the_divisor, goal as the_goal, numbers as the_numbers};

use scott_types::Db;

// Places in the numbers.
pub const ITEMS: usize = 0;

pub const CARRY: usize = 1;

pub const HOME: usize = 2;

pub const DIVISOR: usize = 3;

pub const GOAL: usize = 4;

// A number that a place or a count of items may be, and 256 for any other.
fn byte_or_more(number: i32) -> u32
    ensures { result ≡ byte_or_more number }
{
    if 0 <= number && number <= 255 {
        number as u32
    } else {
        256
    }
}

// By what the hundredths of the stored treasures are divided, sign aside.
fn divisor(treasures: i32) -> u32
    ensures { result ≡ the_divisor treasures }
{
    let size = treasures.unsigned_abs();
    if 0 < size && size < 32768 {
        size
    } else {
        32767
    }
}

// How many treasures are all of them.
fn goal(treasures: i32) -> u32
    ensures { result ≡ the_goal treasures }
{
    if treasures == 0 {
        256
    } else {
        byte_or_more(treasures)
    }
}

/// All of them, by their places.
#[tactic(auto, unfolding(crate::specs::Numbers::numbers))]
pub fn numbers(db: &Db) -> [u32; 5]
    ensures { result ≡ the_numbers db.now }
{
    let header = db.header();
    [
        db.items().len() as u32,
        byte_or_more(header.carry),
        byte_or_more(header.home),
        divisor(header.treasures),
        goal(header.treasures),
    ]
}
