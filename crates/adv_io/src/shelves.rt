//! A shelf: files by their names.
ghost use Rattle.std.specs.Prelude.{◌<◌, length};
ghost use Rattle.adv_io.specs.Shelf.{ShelfView, Loads, LoadsPart, Stores};

use crate::faults::ShelfFault;
use std::alloc::Global;

/// Files by their names. docs/ARCHITECTURE.md says which shelves there are.
///
/// A clause sees one view of it, `seen`. Of some shelves the `files` are known: the map from the
/// bytes of each name to the bytes of its file. `faults` counts what failed outside, and never
/// falls.
pub trait Shelf {
    ghost seen: { Self → ShelfView };

    /// The bytes of the file `name`, of which there are at most `limit`.
    ///
    /// Faults: `Failed` before all others; then `Absent`, which comes only from a shelf whose files
    /// are known; then `TooLong`; `Memory` at any time.
    fn load(&mut self, alloc: Global, name: &str, limit: usize) -> Result<Vec<u8>, ShelfFault>
        ensures { Loads (seen self.old) (seen self.new) name.now limit result };

    /// Fills `out` with the bytes of the file `name` from the place `at` on, and answers how many
    /// they are: as many as `out` has, or fewer where the file ends before that. Behind the file's
    /// end they are none. The others of `out` stay. This takes no memory.
    ///
    /// Parts that are loaded one after another are of one file only as far as the file stays the
    /// same between the calls.
    ///
    /// Faults: `Failed` before all others; then `Absent`, which comes only from a shelf whose files
    /// are known. After a fault `out` may hold anything.
    fn load_part(&mut self, name: &str, at: usize, out: &mut [u8]) -> Result<usize, ShelfFault>
        requires { 0 < length out.old }
        ensures { LoadsPart (seen self.old) (seen self.new) name.now at out.old out.new result };

    /// Makes `bytes` the file `name`, and leaves every other file.
    ///
    /// Faults: `Failed`, after which the files are as they were, or as they were without `name`;
    /// `Memory`, after which they are as they were.
    fn store(&mut self, alloc: Global, name: &str, bytes: &[u8]) -> Result<(), ShelfFault>
        ensures { Stores (seen self.old) (seen self.new) name.now bytes.now result };
}
