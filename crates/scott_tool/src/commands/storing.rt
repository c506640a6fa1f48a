//! Storing what a command has made.
ghost use Rattle.std.specs.Prelude.{◌≡◌, ◌≤◌, IfErr, OnOk, Some, Result};
ghost use Rattle.adv_io.specs.Shelf.{with_file};
ghost use Rattle.scott_tool.specs.Refusal.{Unfit, refusing};
ghost use Rattle.scott_tool.specs.Work.{Task};
ghost use Rattle.scott_tool.specs.Views.{refusal_of, number_of};
ghost use Rattle.scott_tool.specs.Obeying.{MakesFile, FailsToStore, KeepsAfter, Obeys};

use crate::refusals::Refusal;
use crate::status::Status;
use adv_io::{Console, Shelf, ShelfFault};
use std::alloc::Global;

// Stores bytes as the file of this name.
fn store_file<'a, S: Shelf>(
    alloc: Global,
    name: &'a str,
    bytes: &[u8],
    shelf: &mut S,
) -> Result<(), Refusal<'a>>
    ensures stored { OnOk result ((S.seen shelf.new).files
        ≡ with_file (S.seen shelf.old).files name.now bytes.now) }
    ensures failed { IfErr result (λ refusal.
        FailsToStore (S.seen shelf.old) (S.seen shelf.new) name.now (refusal_of refusal)) }
    ensures later { (S.seen shelf.old).faults ≤ (S.seen shelf.new).faults }
    ensures steady { OnOk result ((S.seen shelf.new).faults ≡ (S.seen shelf.old).faults) }
{
    match shelf.store(alloc, name, bytes) {
        Ok(()) => Ok(()),
        Err(ShelfFault::Absent) => Err(Refusal::Unwritten(name)),
        Err(ShelfFault::Failed) => Err(Refusal::Unwritten(name)),
        Err(ShelfFault::TooLong(_)) => Err(Refusal::Unwritten(name)),
        Err(ShelfFault::Memory) => Err(Refusal::Memory),
    }
}

/// Stores the bytes that were made as the file of this name, or says why there are none.
pub fn store_made<S: Shelf, C: Console>(
    alloc: Global,
    name: &str,
    made: Result<Vec<u8>, Refusal<'_>>,
    shelf: &mut S,
    console: &mut C,
) -> Status
    ensures { (expected : Result Task Unfit) → MakesFile name.now made.entry expected
        → Obeys (S.seen shelf.old) (S.seen shelf.new) (C.seen console.old) (C.seen console.new)
        (refusing expected) (number_of result) }
{
    match made {
        Ok(bytes) => match store_file(alloc, name, &bytes, shelf) {
            Ok(()) => Status::Done,
            Err(refusal) => refusal.end(console),
        },
        Err(refusal) => refusal.end(console),
    }
}

/// Stores bytes as the file of this name after the console's work, or says why it wasn't done.
pub fn store_after<S: Shelf, C: Console>(
    alloc: Global,
    name: &str,
    bytes: &[u8],
    shelf: &mut S,
    console: &mut C,
) -> Status
    ensures { KeepsAfter (S.seen shelf.old) (S.seen shelf.new) (C.seen console.old)
        (C.seen console.new) (Some (record { name = name.now; bytes = bytes.now }))
        (number_of result) }
{
    match store_file(alloc, name, bytes, shelf) {
        Ok(()) => Status::Done,
        Err(refusal) => refusal.end(console),
    }
}
