//! Calls of the routines whose names end in a number.
ghost use Rattle.std.specs.Prelude.{◌≡◌, ◌++◌, IfOk, drop, decimal};
ghost use Rattle.inform_tree.specs.Values.{arguments_of};
ghost use Rattle.trans_specs.specs.Lines.{number_arguments, next_parameters};

use adv_io::Memory;
use inform_codes::numbered;
use inform_tree::{Expr, Name};
use std::alloc::Global;

/// A name that begins so and ends in a number.
pub fn name(alloc: Global, prefix: &[u8], number: usize) -> Result<Name, Memory>
    ensures { IfOk result (λ name. name ≡ prefix.now ++ decimal number) }
{
    Ok(Name::of(numbered(alloc, prefix, number)?))
}

/// What is left of parameters, so many of which were taken.
pub fn left(params: &[u32], taken: usize) -> &[u32]
    ensures { result.now ≡ drop taken params.now }
{
    match params.get(taken..) {
        Some(others) => others,
        None => &[],
    }
}

/// The next parameters, each 0 where none is left.
pub fn next(alloc: Global, count: usize, params: &[u32]) -> Result<Vec<Expr>, Memory>
    ensures { IfOk result (λ xs. arguments_of xs.items
        ≡ number_arguments (next_parameters count params.now)) }
{
    if count == 0 {
        return Ok(Vec::new(alloc));
    }
    let mut values = next(alloc, count - 1, left(params, 1))?;
    values.insert(0, Expr::Number(params.first().copied().unwrap_or(0)))?;
    Ok(values)
}
