//! Why a call to the outside can fail.
use std::alloc::{AllocError, AllocFailed};

/// Memory ran out: the fault of calls that can only find no memory.
#[derive(Clone, Copy, Debug, PartialEq, Eq)]
pub struct Memory;

impl From<AllocError> for Memory {
    fn from(_fault: AllocError) -> Memory {
        Memory
    }
}

impl<T: Drop> From<AllocFailed<T>> for Memory {
    fn from(_fault: AllocFailed<T>) -> Memory {
        Memory
    }
}

/// Why a file could not be loaded or stored.
///
/// - `Absent`: a shelf that knows its names has no file of that name.
/// - `Failed`: the outside failed, and the shelf has counted it.
/// - `TooLong`: the file has more bytes than the limit; at least this many.
/// - `Memory`: memory ran out.
#[derive(Clone, Copy, Debug, PartialEq, Eq)]
pub enum ShelfFault {
    Absent,
    Failed,
    TooLong(u64),
    Memory,
}

/// Why nothing more could be said or taken: the outside failed, and the console has counted it.
#[derive(Clone, Copy, Debug, PartialEq, Eq)]
pub enum ConsoleFault {
    Failed,
}
