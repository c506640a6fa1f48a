//! How an action is written: with parameters in brackets or without.
ghost use Rattle.std.specs.Prelude.{◌≡◌, ◌≤◌, length, map};
ghost use Rattle.std.specs.List.{list_all};
ghost use Rattle.scott_types.specs.Action.{argument_of, is_zero};
ghost use Rattle.scott_types.specs.Opcode.{opcode_of, uses};
ghost use Rattle.adv_decompiler.specs.Written.{is_parameter, tests_first, takes, has_brackets, without_zeros};

use scott_types::Opcode;
use scott_types::action_lines::{argument_of, condition_code};

/// How many conditions stand before the first parameter.
pub fn tests_first(conds: &[u32]) -> usize
    ensures value { result ≡ tests_first conds.now }
    ensures within { result ≤ length conds.now }
{
    conds
        .iter()
        .take_while(|c| !(condition_code(**c) == 0))
        .count()
}

// How many parameters the opcode of a number takes.
fn uses(number: u32) -> usize
    ensures value { result ≡ uses (opcode_of number) }
    ensures few { result ≤ 2 }
{
    Opcode::of(number).uses()
}

// How many parameters the four opcodes take together.
fn takes(numbers: &[u32; 4]) -> usize
    ensures value { result ≡ takes numbers.now }
    ensures few { result ≤ 8 }
{
    let [first, second, third, fourth] = *numbers;
    uses(first) + uses(second) + uses(third) + uses(fourth)
}

fn are_parameters(conds: &[u32]) -> bool
    ensures { result ≡ list_all is_parameter conds.now }
{
    conds.iter().all(|c| condition_code(*c) == 0)
}

fn are_zeros(numbers: &[u32]) -> bool
    ensures { result ≡ list_all is_zero numbers.now }
{
    numbers.iter().all(|n| *n == 0)
}

/// Whether an action is written with brackets: its parameters stand last, are enough for its
/// opcodes, and those that no opcode takes are zeros.
pub fn has_brackets(conds: &[u32; 5], numbers: &[u32; 4]) -> bool
    ensures { result ≡ has_brackets conds.now numbers.now }
{
    let first = tests_first(conds);
    let used = first + takes(numbers);
    are_parameters(&conds[first..]) && used <= 5 && are_zeros(&conds[used..])
}

/// The numbers up to the last one that isn't 0.
pub fn without_zeros(numbers: &[u32]) -> &[u32]
    ensures { result.now ≡ without_zeros numbers.now }
{
    let mut end = numbers.len();
    while 0 < end && numbers[end - 1] == 0 {
        end -= 1;
    }
    &numbers[..end]
}

/// The arguments of the five conditions.
pub fn arguments(conds: &[u32; 5]) -> [u32; 5]
    ensures { result ≡ map argument_of conds.now }
{
    let [first, second, third, fourth, fifth] = *conds;
    [
        argument_of(first),
        argument_of(second),
        argument_of(third),
        argument_of(fourth),
        argument_of(fifth),
    ]
}
