//! The arithmetic of words, at each width, and how they are compared.
ghost use Rattle.std.specs.Prelude.{◌≡◌, ℤ, Some, IsSome, IsNone, MatchOption, ◌≢◌, pos, option_map};
ghost use Rattle.std.specs.Int.{int_wrap, w16, w32};
ghost use Rattle.inform_meaning.specs.Words.{wrapped, word_sum, word_difference, word_product, word_negation, word_quotient, word_remainder, number_word, compares};

use inform_names::word;
use inform_tree::{Relation, Width};

/// The word that a number of a program stands for. A small one is itself at each width.
pub fn number(width: Width, n: u32) -> i32
    ensures { result ≡ number_word width n }
{
    if n < 32_768 {
        return n as i32;
    }
    word(width, n)
}

fn word_of_16_bits(z: i64) -> i32
    ensures { result ≡ int_wrap w16 z }
{
    i32::from((z.rem_euclid(65_536) as u16).cast_signed())
}

fn word_of_32_bits(z: i64) -> i32
    ensures { result ≡ int_wrap w32 z }
{
    (z.rem_euclid(4_294_967_296) as u32).cast_signed()
}

/// The word with the lowest bits of a whole number.
pub fn wrap(width: Width, z: i64) -> i32
    ensures { result ≡ wrapped width z }
{
    match width {
        Width::W16 => word_of_16_bits(z),
        Width::W32 => word_of_32_bits(z),
    }
}

/// The sum of two words, which wraps.
pub fn add(width: Width, a: i32, b: i32) -> i32
    ensures { result ≡ word_sum width a b }
{
    wrap(width, i64::from(a) + i64::from(b))
}

/// The difference of two words, which wraps.
pub fn sub(width: Width, a: i32, b: i32) -> i32
    ensures { result ≡ word_difference width a b }
{
    wrap(width, i64::from(a) - i64::from(b))
}

/// The product of two words, which wraps.
pub fn mul(width: Width, a: i32, b: i32) -> i32
    ensures { result ≡ word_product width a b }
{
    wrap(width, i64::from(a) * i64::from(b))
}

/// The quotient of two words, toward zero, or `None` where the divisor is 0. The least word divided
/// by -1 is itself.
pub fn div(width: Width, a: i32, b: i32) -> Option<i32>
    ensures { result ≡ word_quotient width a b }
{
    if b == 0 {
        return None;
    }
    Some(wrap(width, i64::from(a) / i64::from(b)))
}

/// The remainder of two words, with the sign of the dividend, or `None` where the divisor is 0.
pub fn rem(width: Width, a: i32, b: i32) -> Option<i32>
    ensures { result ≡ word_remainder width a b }
{
    if b == 0 {
        return None;
    }
    Some((i64::from(a) % i64::from(b)) as i32)
}

/// A word with the other sign, which wraps: the least word is its own.
pub fn neg(width: Width, a: i32) -> i32
    ensures { result ≡ word_negation width a }
{
    wrap(width, -i64::from(a))
}

/// Whether two words are so related.
pub fn compares(relation: Relation, a: i32, b: i32) -> bool
    ensures { result ≡ compares relation a b }
{
    match relation {
        Relation::Eq => a == b,
        Relation::Ne => a != b,
        Relation::Lt => a < b,
        Relation::Gt => a > b,
        Relation::Le => a <= b,
        Relation::Ge => a >= b,
    }
}
