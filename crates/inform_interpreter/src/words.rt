//! What is computed with words.
ghost use Rattle.std.specs.Prelude.{◌≡◌};
ghost use Rattle.inform_meaning.specs.Words.{number_word, summed, multiplied, low_byte};

use inform_meaning::{add, div, mul, rem, sub};
use inform_names::Names;
use inform_tree::{ProdOp, SumOp, Width};

/// The word that a number stands for.
pub fn number(names: &Names, n: u32) -> i32
    ensures { result ≡ number_word names.now.accepted.now.width n }
{
    inform_meaning::number(names.accepted().width(), n)
}

/// One more part of a sum.
pub fn summed(width: Width, op: SumOp, a: i32, b: i32) -> i32
    ensures { result ≡ summed width op a b }
{
    match op {
        SumOp::Add => add(width, a, b),
        SumOp::Sub => sub(width, a, b),
    }
}

/// One more part of a product, if it isn't a division by 0.
pub fn multiplied(width: Width, op: ProdOp, a: i32, b: i32) -> Option<i32>
    ensures { result ≡ multiplied width op a b }
{
    match op {
        ProdOp::Mul => Some(mul(width, a, b)),
        ProdOp::Div => div(width, a, b),
        ProdOp::Rem => rem(width, a, b),
    }
}

/// The lowest 8 bits.
pub fn low_byte(a: i32) -> u8
    ensures { result ≡ low_byte a }
{
    a.rem_euclid(256) as u8
}
