//! Bodies, grown from their codes.
ghost use Rattle.std.specs.Prelude.{◌≡◌, IfOk, map};
ghost use Rattle.inform_tree.specs.Statements.{statements_of};
ghost use Rattle.inform_codes.specs.Growths.{waiting};
ghost use Rattle.inform_codes.specs.Grown.{parts_of, body_of, before_of, fork_of};

use crate::codes::Code;
use crate::growths::Growth;
use adv_io::Memory;
use inform_tree::Stmt;
use std::alloc::Global;
use std::collections::VecDeque;

impl Growth {
    // Takes these codes, the last one first.
    fn take_all(&mut self, names: &[&[u8]], given: &[u32], codes: &[Code]) -> Result<(), Memory>
        ensures { IfOk result (λ _. waiting self.new
            ≡ parts_of (map (λ n. n.now) names.now) given.now codes.now (waiting self.old)) }
    {
        for at in (0..codes.len()).rev() {
            self.take(names, given, codes[at])?;
        }
        Ok(())
    }
}

/// The body that these codes are. Names are places in the list of names, and numbers that are
/// handed in places in the other list.
#[tactic(auto, unfolding(crate::specs::Grown::body_of))]
pub fn body(
    alloc: Global,
    names: &[&[u8]],
    given: &[u32],
    codes: &[Code],
) -> Result<Vec<Stmt>, Memory>
    ensures { IfOk result (λ body. statements_of body.items
        ≡ body_of (map (λ n. n.now) names.now) given.now codes.now) }
{
    let mut growth = Growth::new(alloc);
    growth.take_all(names, given, codes)?;
    Ok(growth.pop_block().into_vec())
}

/// The statements that these codes are, and then the ones of a body. The codes have no end of the
/// block.
#[tactic(auto, unfolding(crate::specs::Grown::before_of))]
pub fn before(
    alloc: Global,
    names: &[&[u8]],
    given: &[u32],
    codes: &[Code],
    after: Vec<Stmt>,
) -> Result<Vec<Stmt>, Memory>
    ensures { IfOk result (λ body. statements_of body.items
        ≡ before_of (map (λ n. n.now) names.now) given.now codes.now
        (statements_of after.items)) }
{
    let mut growth = Growth::new(alloc);
    growth.push_block(VecDeque::from_vec(after))?;
    growth.take_all(names, given, codes)?;
    Ok(growth.pop_block().into_vec())
}

/// The statements that these codes are, the last of which has the two blocks, and then the ones of
/// a body. The codes have no end of a block.
#[tactic(auto, unfolding(crate::specs::Grown::fork_of))]
pub fn fork(
    alloc: Global,
    names: &[&[u8]],
    given: &[u32],
    codes: &[Code],
    blocks: (Vec<Stmt>, Vec<Stmt>),
    after: Vec<Stmt>,
) -> Result<Vec<Stmt>, Memory>
    ensures { IfOk result (λ body. statements_of body.items
        ≡ fork_of (map (λ n. n.now) names.now) given.now codes.now
        (statements_of blocks.0.items) (statements_of blocks.1.items) (statements_of after.items)) }
{
    let (body, other) = blocks;
    let mut growth = Growth::new(alloc);
    growth.push_block(VecDeque::from_vec(after))?;
    growth.push_block(VecDeque::from_vec(other))?;
    growth.push_block(VecDeque::from_vec(body))?;
    growth.take_all(names, given, codes)?;
    Ok(growth.pop_block().into_vec())
}
