//! `demo N`: a play of the game of a number, and a run of its translation, are told side by side.
ghost use Rattle.std.specs.Prelude.{◌≤◌};
ghost use Rattle.scott_requests.specs.Request.{demo};
ghost use Rattle.scott_tool.specs.Obeying.{Makes};
ghost use Rattle.scott_tool.specs.Plan.{work};
ghost use Rattle.scott_tool.specs.Loading.{Texts};

use crate::refusals::Refusal;
use adv_demo::demonstration;
use std::alloc::Global;

/// What is told of the game of this number.
pub fn told_of<'a>(alloc: Global, n: u32) -> Result<Vec<u8>, Refusal<'a>>
    requires some { 8 ≤ n }
    requires small { n ≤ 120 }
    ensures { (texts : Texts) → Makes result (work (demo n) texts) }
{
    match demonstration(alloc, n) {
        Ok(text) => Ok(text),
        Err(_) => Err(Refusal::Memory),
    }
}
