//! A shelf of real files, as thin as can be.
//!
//! Trusted here and only tested: that a path names one file, that a file has the bytes that were
//! written last, and that the runtime's calls do what they say. No clause speaks of a file's bytes.
ghost use Rattle.std.specs.Prelude.{◌≡◌, ◌≤◌, ◌+◌, ◌⊎◌, ◌↔◌, IfOk, IfErr, length, drop};
ghost use Rattle.std.specs.IoError.{error_kind};
ghost use Rattle.adv_io.specs.declared.faults.ShelfFault.TheVariants.{Memory, Failed};
ghost use Rattle.adv_io.specs.Faults.{raised};
ghost use Rattle.adv_io.specs.Shelf.{Loads, LoadsPart, Stores, TellsLength, count_after, disk_stock};

use crate::faults::ShelfFault;
use crate::reading::{OpenPart, fill_part, open_at};
use crate::shelves::Shelf;
use crate::writing::{fill, open_target};
use std::alloc::Global;
use std::io::{ErrorKind, Read};
use std::marker::Model;
use std::rt::Files;
use std::{fs, io};

/// The files of the system. They are not known, so a missing file counts as a fault.
///
/// A clause sees the count of faults, which stays at 18446744073709551615 once it is there.
pub struct DiskShelf<'a, R: Files> {
    rt: &'a R,
    faults: u64,
    // The file of the last part, where the next one may go on.
    open: Option<OpenPart<R::File>>,
}

impl<'a, R: Files> Model for DiskShelf<'a, R> {
    ghost use Rattle.std.specs.Prelude.{ℕ};

    ghost Value = { ℕ };

    ghost view = { λ s. s.faults };
}

impl<'a, R: Files> Drop for DiskShelf<'a, R> {
    fn drop(self) {
        let DiskShelf {
            rt: _,
            faults: _,
            open: _,
        } = self;
    }
}

impl<'a, R: Files> DiskShelf<'a, R> {
    /// The files that the runtime reaches.
    pub fn new(rt: &'a R) -> DiskShelf<'a, R>
        ensures { result ≡ 0 }
    {
        DiskShelf {
            rt,
            faults: 0,
            open: None,
        }
    }

    // What a failure of the system is for a shelf: it counts as a fault, but for want of memory.
    fn failed(&mut self, fault: &io::Error) -> ShelfFault
        ensures memory { (result ≡ Memory) ↔ (error_kind fault.now ≡ ErrorKind.OutOfMemory) }
        ensures counted { ((result ≡ Memory) × (self.new ≡ self.old))
            ⊎ ((result ≡ Failed) × (self.new ≡ raised self.old)) }
        ensures never_falls { self.old ≤ self.new }
    {
        if fault.kind() == ErrorKind::OutOfMemory {
            return ShelfFault::Memory;
        }
        self.count_fault()
    }

    fn count_fault(&mut self) -> ShelfFault
        ensures answer { result ≡ Failed }
        ensures counted { self.new ≡ raised self.old }
        ensures never_falls { self.old ≤ self.new }
    {
        self.faults = self.faults.saturating_add(1);
        ShelfFault::Failed
    }

    // The file of this name at this place: the one that is open, or else opened anew.
    fn file_at(&mut self, name: &str, at: usize) -> io::Result<R::File>
        ensures uncounted { self.new ≡ self.old }
    {
        if let Some(open) = self.open.take() {
            if open.goes_on(name, at) {
                return Ok(open.into_file());
            }
        }
        open_at(self.rt, name, at)
    }

    // Fills `out` from this place on of the file, and keeps the file open where it may go on.
    fn read_part(&mut self, name: &str, at: usize, out: &mut [u8]) -> io::Result<usize>
        ensures within { IfOk result (λ n. n ≤ length out.old) }
        ensures others_stay { IfOk result (λ n. drop n out.new ≡ drop n out.old) }
        ensures uncounted { self.new ≡ self.old }
    {
        let mut file = self.file_at(name, at)?;
        let count = fill_part(&mut file, out)?;
        if count == out.len() {
            self.open = OpenPart::of(name, at.saturating_add(count), file);
        }
        Ok(count)
    }
}

impl<'a, R: Files> Shelf for DiskShelf<'a, R> {
    ghost use Rattle.adv_io.specs.Shelf.{disk_stock};

    ghost seen = { disk_stock };

    /// `TooLong` has one more than the limit, since no more bytes are read.
    fn load(&mut self, alloc: Global, name: &str, limit: usize) -> Result<Vec<u8>, ShelfFault>
        ensures too_long { IfErr result (TellsLength (limit + 1)) }
        ensures counted { self.new ≡ count_after result self.old }

        // As every shelf.
        ensures every { Loads (disk_stock self.old) (disk_stock self.new) name.now limit result }
    {
        match read_file(self.rt, alloc, name, limit) {
            Ok(bytes) => {
                if bytes.len() > limit {
                    Err(ShelfFault::TooLong(limit as u64 + 1))
                } else {
                    Ok(bytes)
                }
            }
            Err(fault) => Err(self.failed(&fault)),
        }
    }

    /// The file stays open while each part fills `out` and the next one goes on where it ended, so
    /// that a file is opened once, a pipe can be read, and one that is replaced meanwhile is read
    /// as it was. A name of more than 255 bytes is the exception: its file is opened for each part.
    /// Each failure counts as a fault, want of memory too.
    fn load_part(&mut self, name: &str, at: usize, out: &mut [u8]) -> Result<usize, ShelfFault>
        ensures counted { self.new ≡ count_after result self.old }

        // As every shelf.
        ensures every { LoadsPart (disk_stock self.old)
            (disk_stock self.new) name.now at out.old out.new result }
    {
        match self.read_part(name, at, out) {
            Ok(count) => Ok(count),
            Err(_) => Err(self.count_fault()),
        }
    }

    /// The old file stays where the new one can't be written, but for one that can't be replaced:
    /// crate::writing has the rule. Want of memory is answered only where nothing was touched; each
    /// failure after that counts as a fault.
    fn store(&mut self, alloc: Global, name: &str, bytes: &[u8]) -> Result<(), ShelfFault>
        ensures counted { self.new ≡ count_after result self.old }

        // As every shelf.
        ensures every { Stores (disk_stock self.old)
            (disk_stock self.new) name.now bytes.now result }
    {
        self.open = None;
        let target = match open_target(self.rt, alloc, name) {
            Ok(target) => target,
            Err(fault) => return Err(self.failed(&fault)),
        };
        match fill(self.rt, name, target, bytes) {
            Ok(()) => Ok(()),
            Err(_) => Err(self.count_fault()),
        }
    }
}

// The bytes of a file, and of a longer one its first `limit + 1`.
fn read_file<R: Files>(rt: &R, alloc: Global, name: &str, limit: usize) -> io::Result<Vec<u8>> {
    let file = fs::open(rt, name)?;
    let mut bytes = Vec::new(alloc);
    let most = (limit as u64).saturating_add(1);
    let _ = file.take(most).read_to_end(&mut bytes)?;
    Ok(bytes)
}
