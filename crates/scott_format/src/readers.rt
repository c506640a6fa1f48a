//! A reader of a database's text that comes in pieces.
use crate::bodies::{Body, read_on};
use crate::faults::FormatFault;
use crate::stops::Stop;
use crate::text_laws::text_laws;
use adv_io::Memory;
use adv_text::Scan;
use scott_types::Db;
use std::alloc::Global;
use std::mem;

/// The most bytes of a text that is read.
pub const DATABASE_LIMIT: usize = 1_048_576;

/// Reads a database's text piece by piece.
///
/// It keeps the entries that were read, and the bytes of the one that the pieces end in. After the
/// first fault the pieces are counted and dropped.
pub struct DbReader {
    // The place of the first byte that is kept.
    at: usize,
    // The bytes from there on, of which nothing was taken yet.
    kept: Vec<u8>,
    body: Option<Body>,
    // Whether all lists were read, or else why not.
    so_far: Result<(), Stop>,
}

impl Drop for DbReader {
    fn drop(self) {
        let DbReader {
            at: _,
            kept: _,
            body: _,
            so_far: _,
        } = self;
    }
}

impl DbReader {
    ghost use Rattle.std.specs.Prelude.{◌≡◌, ◌≤◌, ◌+◌, ◌++◌, ◌↔◌, List, ℕ, [], length, Ok, Err, IsErr, IfOk, MatchResult};
    ghost use Rattle.scott_format.specs.File.{database_in};
    ghost use Rattle.scott_format.specs.Bodies.{AllInOrder};
    ghost use Rattle.scott_format.specs.Readers.{HasRead, IsFailed, Reads, Keeps, bytes_fed};
    ghost use Rattle.scott_format.specs.Reading.{Stands};

    /// A reader that was fed nothing.
    pub fn new(alloc: Global) -> Result<DbReader, Memory>
        ensures read { IfOk result (λ reader. HasRead reader []) }
        ensures room { IfOk result (λ reader. bytes_fed reader ≡ 0) }
        ensures failed { IfOk result (λ reader. ¬ (IsFailed reader)) }
    {
        Ok(DbReader {
            at: 0,
            kept: Vec::new(alloc),
            body: None,
            so_far: Err(Stop::Cut(FormatFault::NoNumber(0))),
        })
    }

    /// Reads on as far as this piece goes.
    ///
    /// After `Memory` the reader has failed: each later call answers it too.
    pub fn feed(&mut self, alloc: Global, piece: &[u8]) -> Result<(), Memory>
        requires read { (fed : List ℕ) × HasRead self.old fed }
        requires room { bytes_fed self.old + length piece.now ≤ DATABASE_LIMIT }
        ensures read { (fed : List ℕ) → HasRead self.old fed → HasRead self.new (fed ++ piece.now) }
        ensures failed { IsErr result ↔ IsFailed self.new }
        ensures stays { IsFailed self.old → IsFailed self.new }
    {
        self.take(alloc, piece);
        match self.so_far {
            Err(Stop::Fault(FormatFault::Memory)) => Err(Memory),
            _ => Ok(()),
        }
    }

    /// The database of all the pieces, or their first fault.
    ///
    /// `Memory` is answered where a `feed` answered it.
    pub fn finish(self) -> Result<Db, FormatFault>
        requires { (fed : List ℕ) × HasRead self fed }
        ensures failed { IsFailed self → result ≡ Err FormatFault.Memory }
        ensures read { (fed : List ℕ) → HasRead self fed → MatchResult result
            (λ db. database_in fed ≡ Ok db) (λ fault. Stands fault (database_in fed)) }
    {
        text_laws();
        let DbReader {
            at,
            kept,
            body,
            so_far,
        } = self;
        if let Err(stop) = so_far {
            return Err(stop.fault());
        }
        let Some(body) = body else {
            return Err(FormatFault::Memory);
        };
        let mut scan = Scan::on(at, &kept);
        let parts = body.close(&mut scan)?;
        Ok(Db::of(parts))
    }

    // Reads on, or keeps the piece, or drops it.
    fn take(&mut self, alloc: Global, piece: &[u8])
        requires read { (fed : List ℕ) × HasRead self.old fed }
        requires room { bytes_fed self.old + length piece.now ≤ DATABASE_LIMIT }
        ensures read { (fed : List ℕ) → HasRead self.old fed → HasRead self.new (fed ++ piece.now) }
        ensures stays { IsFailed self.old → IsFailed self.new }
    {
        match self.so_far {
            Ok(()) => self.keep(piece),
            Err(stop) => self.go_on(alloc, piece, stop),
        }
    }

    // The same where reading had stopped so.
    fn go_on(&mut self, alloc: Global, piece: &[u8], stop: Stop)
        requires read { (fed : List ℕ) × HasRead self.old fed }
        requires room { bytes_fed self.old + length piece.now ≤ DATABASE_LIMIT }
        requires stopped { self.old.so_far ≡ Err stop }
        ensures read { (fed : List ℕ) → HasRead self.old fed → HasRead self.new (fed ++ piece.now) }
        ensures stays { IsFailed self.old → IsFailed self.new }
    {
        match stop {
            Stop::Cut(_) => self.read_more(alloc, piece),
            Stop::Fault(_) => self.pass(piece.len()),
        }
    }

    // Drops the bytes that are kept and so many more.
    fn pass(&mut self, more: usize)
        requires { bytes_fed self.old + more ≤ DATABASE_LIMIT }
        ensures so_far { self.new.so_far ≡ self.old.so_far }
        ensures all { bytes_fed self.new ≡ bytes_fed self.old + more }
        ensures body { self.new.body ≡ self.old.body }
    {
        self.at += self.kept.len() + more;
        self.kept.clear();
    }

    // This is the fault, whatever follows. So many bytes more were fed.
    fn stop(&mut self, fault: FormatFault, more: usize)
        requires { bytes_fed self.old + more ≤ DATABASE_LIMIT }
        ensures fault { self.new.so_far ≡ Err (Stop.Fault fault) }
        ensures all { bytes_fed self.new ≡ bytes_fed self.old + more }
        ensures body { self.new.body ≡ self.old.body }
    {
        self.pass(more);
        self.so_far = Err(Stop::Fault(fault));
    }

    // Keeps the piece, where the trailer is to be read yet.
    fn keep(&mut self, piece: &[u8])
        requires { bytes_fed self.old + length piece.now ≤ DATABASE_LIMIT }
        ensures { Keeps self.old piece.now self.new }
    {
        if self.kept.extend_from_slice(piece).is_err() {
            self.stop(FormatFault::Memory, piece.len());
        }
    }

    // Reads on in the bytes that are kept and the piece.
    fn read_more(&mut self, alloc: Global, piece: &[u8])
        requires room { bytes_fed self.old + length piece.now ≤ DATABASE_LIMIT }
        requires order { AllInOrder self.old.body }
        ensures { Reads self.old piece.now self.new }
    {
        if self.kept.is_empty() {
            self.read_bytes(alloc, piece);
            return;
        }
        let mut bytes = mem::replace(&mut self.kept, Vec::new(alloc));
        if bytes.extend_from_slice(piece).is_err() {
            self.stop(FormatFault::Memory, bytes.len() + piece.len());
            return;
        }
        self.read_bytes(alloc, &bytes);
    }

    // Reads on in these bytes, where none are kept.
    fn read_bytes(&mut self, alloc: Global, bytes: &[u8])
        requires none { self.old.kept.items ≡ [] }
        requires room { self.old.at + length bytes.now ≤ DATABASE_LIMIT }
        requires order { AllInOrder self.old.body }
        ensures { Reads self.old bytes.now self.new }
    {
        text_laws();
        let mut scan = Scan::on(self.at, bytes);
        let so_far = read_on(alloc, &mut scan, &mut self.body);
        if let Err(Stop::Fault(fault)) = so_far {
            self.stop(fault, bytes.len());
            return;
        }
        match Vec::from_slice(alloc, scan.rest()) {
            Ok(kept) => {
                self.at = scan.at();
                self.kept = kept;
                self.so_far = so_far;
            }
            Err(_) => self.stop(FormatFault::Memory, bytes.len()),
        }
    }
}
