//! The words that numbers stand for.
ghost use Rattle.std.specs.Prelude.{◌≡◌, ◌<◌, ◌≤◌};
ghost use Rattle.inform_names.specs.Words.{word_count, signed, word, minus_word};

use inform_tree::Width;

// How many words there are.
fn word_count(width: Width) -> u64
    ensures value { result ≡ word_count width }
    ensures some { 0 < result }
    ensures fits { result ≤ 4294967296 }
{
    match width {
        Width::W16 => 65_536,
        Width::W32 => 4_294_967_296,
    }
}

// Of so many words the upper half is below 0.
fn signed(count: u64, number: u64) -> i32
    requires below { number < count }
    requires fits { count ≤ 4294967296 }
    ensures { result ≡ signed count number }
{
    if number * 2 < count {
        number as i32
    } else {
        (number as i64 - count as i64) as i32
    }
}

/// The word that a number stands for: that of its lowest bits.
pub fn word(width: Width, number: u32) -> i32
    ensures { result ≡ word width number }
{
    let count = word_count(width);
    signed(count, u64::from(number) % count)
}

/// The word that a number with a minus sign before it stands for.
pub fn minus_word(width: Width, number: u32) -> i32
    ensures { result ≡ minus_word width number }
{
    let count = word_count(width);
    signed(count, (count - u64::from(number) % count) % count)
}
