//! A shelf in memory: its files are known, and it fails at the calls that are given.
ghost use Rattle.std.specs.Prelude.{◌≡◌, ◌↔◌, ◌<◌, ◌++◌, IsTrue, OnOk, IsErrOf, OnErr, bytes_eq, string_bytes, length, drop};
ghost use Rattle.std.specs.Option.{option_copied};
ghost use Rattle.std.specs.List.{position};
ghost use Rattle.std.specs.FinMap as map;
ghost use Rattle.adv_io.specs.Shelf.{Loads, LoadsPart, Stores, part_at};
ghost use Rattle.adv_io.specs.CallCount.{fails_next};
ghost use Rattle.adv_io.specs.Shelved.{stock_of, shelved, names_differ, called, loaded, part_loaded, AnswersLoad, AnswersPart, LeavesStored};

use crate::calls::Calls;
use crate::faults::ShelfFault;
use crate::shelves::Shelf;
use std::alloc::{AllocError, Global};
use std::marker::Model;

/// A shelf in memory, for tests and for programs that need no disk.
///
/// A clause sees the map of its files and its calls. `load`, `load_part` and `store` are numbered
/// together, from 1.
pub struct MemoryShelf {
    files: Vec<(String, Vec<u8>)>,
    calls: Calls,
}

impl Drop for MemoryShelf {
    fn drop(self) {
        let MemoryShelf { files: _, calls: _ } = self;
    }
}

impl Model for MemoryShelf {
    ghost use Rattle.adv_io.specs.Shelved.{Shelved, coded_shelved, files_of};

    ghost Value = { Shelved };

    ghost coded = { coded_shelved };

    ghost view = { λ s. record {
      files = files_of s.files.items;
      calls = s.calls;
    } };
}

impl MemoryShelf {
    /// A shelf with these files, of different names, which fails at the calls whose numbers are in
    /// `failing`.
    pub fn new(files: Vec<(String, Vec<u8>)>, failing: Vec<u64>) -> MemoryShelf
        requires { IsTrue (names_differ files.items) }
        ensures { result ≡ shelved files.items failing.items }
    {
        MemoryShelf {
            files,
            calls: Calls::new(failing),
        }
    }

    /// The bytes of a file, if there is one of that name. This is no numbered call.
    pub fn file(&self, name: &str) -> Option<&[u8]>
        ensures { option_copied result ≡ map.get self.now.files name.now }
    {
        let at = place_of(&self.files, name)?;
        Some(self.files[at].1.as_slice())
    }

    // Makes the bytes the file of that name, in its old place or in a new one.
    fn put(&mut self, alloc: Global, name: &str, bytes: &[u8]) -> Result<(), AllocError>
        ensures ok { OnOk result
            (self.new ≡ record self.old { files = map.insert self.old.files name.now bytes.now }) }
        ensures err { OnErr result (self.new ≡ self.old) }
    {
        let kept = Vec::from_slice(alloc, bytes)?;
        match place_of(&self.files, name) {
            Some(at) => {
                let file = &mut self.files[at];
                file.1 = kept;
            }
            None => self.files.push((String::from_str(alloc, name)?, kept))?,
        }
        Ok(())
    }
}

// Where the first file of that name stands.
fn place_of(files: &[(String, Vec<u8>)], name: &str) -> Option<usize>
    ensures { result ≡ position (λ file. bytes_eq (string_bytes file.0) name.now) files.now }
{
    files.iter().position(|file| file.0.as_str() == name)
}

// Copies the part of the bytes from a place on for which there is room, and answers its length.
fn copy_part(bytes: &[u8], at: usize, out: &mut [u8]) -> usize
    ensures count { result ≡ length (part_at bytes.now at (length out.old)) }
    ensures part { out.new ≡ part_at bytes.now at (length out.old) ++ drop result out.old }
{
    if bytes.len() <= at {
        return 0;
    }
    let count = out.len().min(bytes.len() - at);
    out[..count].copy_from_slice(&bytes[at..at + count]);
    count
}

impl Shelf for MemoryShelf {
    ghost use Rattle.adv_io.specs.Shelved.{stock_of};

    ghost seen = { stock_of };

    fn load(&mut self, alloc: Global, name: &str, limit: usize) -> Result<Vec<u8>, ShelfFault>
        // It fails at the calls that are to fail, and counts each call.
        ensures failing { IsErrOf result ShelfFault.Failed ↔ IsTrue (fails_next self.old.calls) }
        ensures exact { AnswersLoad (loaded self.old name.now limit) result }
        ensures counted { self.new ≡ called self.old }

        // As every shelf.
        ensures every { Loads (stock_of self.old) (stock_of self.new) name.now limit result }
    {
        if self.calls.next_fails() {
            return Err(ShelfFault::Failed);
        }
        let Some(bytes) = self.file(name) else {
            return Err(ShelfFault::Absent);
        };
        if bytes.len() > limit {
            return Err(ShelfFault::TooLong(bytes.len() as u64));
        }
        match Vec::from_slice(alloc, bytes) {
            Ok(copy) => Ok(copy),
            Err(_) => Err(ShelfFault::Memory),
        }
    }

    fn load_part(&mut self, name: &str, at: usize, out: &mut [u8]) -> Result<usize, ShelfFault>
        // It fails at the calls that are to fail, and counts each call.
        ensures failing { IsErrOf result ShelfFault.Failed ↔ IsTrue (fails_next self.old.calls) }
        ensures exact { AnswersPart (part_loaded self.old name.now at (length out.old))
            out.old out.new result }
        ensures counted { self.new ≡ called self.old }

        // As every shelf.
        ensures every { LoadsPart (stock_of self.old)
            (stock_of self.new) name.now at out.old out.new result }
    {
        if self.calls.next_fails() {
            return Err(ShelfFault::Failed);
        }
        match self.file(name) {
            Some(bytes) => Ok(copy_part(bytes, at, out)),
            None => Err(ShelfFault::Absent),
        }
    }

    fn store(&mut self, alloc: Global, name: &str, bytes: &[u8]) -> Result<(), ShelfFault>
        // It fails at the calls that are to fail, counts each call, and changes nothing else.
        ensures failing { IsErrOf result ShelfFault.Failed ↔ IsTrue (fails_next self.old.calls) }
        ensures exact { LeavesStored self.old name.now bytes.now result self.new }

        // As every shelf.
        ensures every { Stores (stock_of self.old) (stock_of self.new) name.now bytes.now result }
    {
        if self.calls.next_fails() {
            return Err(ShelfFault::Failed);
        }
        match self.put(alloc, name, bytes) {
            Ok(()) => Ok(()),
            Err(_) => Err(ShelfFault::Memory),
        }
    }
}
