//! An action line unpacked.
ghost use Rattle.std.specs.Prelude.{◌≡◌, ◌<◌, slice_index};
ghost use Rattle.scott_types.specs.Action.{verb_of, noun_of, argument_of, condition_code, opcode_numbers, parameters};

use crate::parts::Action;
use arrayvec::ArrayVec;

/// The number of the verb of a vocabulary.
#[inline(always)]
pub fn verb_of(vocab: u32) -> u32
    ensures { result ≡ verb_of vocab }
{
    vocab / 150
}

/// The number of the noun of a vocabulary.
#[inline(always)]
pub fn noun_of(vocab: u32) -> u32
    ensures { result ≡ noun_of vocab }
{
    vocab % 150
}

/// The argument of a condition, packed as in the file.
#[inline(always)]
pub fn argument_of(condition: u32) -> u32
    ensures { result ≡ argument_of condition }
{
    condition / 20
}

/// The code of a condition, 0..19.
#[inline(always)]
pub fn condition_code(condition: u32) -> u8
    ensures value { result ≡ condition_code condition }
    ensures few { result < 20 }
{
    (condition % 20) as u8
}

/// The argument and the code, 0..19, of one of the five conditions.
pub fn condition(action: &Action, i: usize) -> (u32, u8)
    requires { i < 5 }
    ensures argument { result.0 ≡ argument_of (slice_index action.now.conds i) }
    ensures code { result.1 ≡ condition_code (slice_index action.now.conds i) }
{
    let packed = action.conds[i];
    (argument_of(packed), condition_code(packed))
}

/// The number of one of the four opcodes.
pub fn opcode(action: &Action, i: usize) -> u32
    requires { i < 4 }
    ensures { result ≡ slice_index (opcode_numbers action.now) i }
{
    match i {
        0 => action.pairs[0] / 150,
        1 => action.pairs[0] % 150,
        2 => action.pairs[1] / 150,
        _ => action.pairs[1] % 150,
    }
}

/// The numbers of the four opcodes.
pub fn opcode_numbers(action: &Action) -> [u32; 4]
    ensures { result ≡ opcode_numbers action.now }
{
    let [first, second] = action.pairs;
    [first / 150, first % 150, second / 150, second % 150]
}

/// The parameters of the line's opcodes, in order: the arguments of its conditions of code 0.
pub fn parameters(action: &Action) -> ArrayVec<u32, 5>
    ensures { result.items ≡ parameters action.now }
{
    let mut arguments = ArrayVec::new();
    for packed in &action.conds {
        if condition_code(*packed) == 0 {
            arguments.push(argument_of(*packed));
        }
    }
    arguments
}
