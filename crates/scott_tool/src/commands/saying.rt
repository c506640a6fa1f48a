//! Saying what a command has made.
ghost use Rattle.scott_tool.specs.Refusal.{Unfit, refusing};
ghost use Rattle.scott_tool.specs.Views.{number_of};
ghost use Rattle.scott_tool.specs.Work.{Task};
ghost use Rattle.scott_tool.specs.Obeying.{Makes, ObeysAlone};
ghost use Rattle.std.specs.Prelude.{Result};

use crate::refusals::{Refusal, concluded};
use crate::status::Status;
use adv_io::Console;

/// Says the bytes that were made, or why there are none.
pub fn say_made<C: Console>(made: Result<Vec<u8>, Refusal<'_>>, console: &mut C) -> Status
    ensures { (expected : Result Task Unfit) → Makes made.entry expected
        → ObeysAlone (C.seen console.old) (C.seen console.new) (refusing expected)
        (number_of result) }
{
    match made {
        Ok(bytes) => concluded(console.say(&bytes), Status::Done),
        Err(refusal) => refusal.end(console),
    }
}
