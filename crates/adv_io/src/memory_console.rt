//! A console in memory: its history and its lines are known, and it fails at the calls that are
//! given.
ghost use Rattle.std.specs.Prelude.{◌≡◌, ◌≤◌, ◌<◌, ◌⊎◌, ◌↔◌, length, IsErr, IsTrue, IfOk, slice_get, List};
ghost use Rattle.adv_io.specs.History.{says, transcript, marks};
ghost use Rattle.adv_io.specs.Console.{Speaks, Takes};
ghost use Rattle.adv_io.specs.CallCount.{fails_next};
ghost use Rattle.adv_io.specs.Recorded.{seen_of, untouched, with_said, with_taken, after_saying, after_taking};

use crate::calls::Calls;
use crate::consoles::{Console, Taken};
use crate::faults::{ConsoleFault, Memory};
use crate::lines::Line;
use std::alloc::Global;
use std::marker::Model;

/// A console in memory, for tests and for programs that play by themselves.
///
/// A clause sees its history, the lines that are left, the bytes that there is still room for, and
/// its calls. `say` and `take` are numbered together, from 1. After `new` it takes no memory.
pub struct MemoryConsole {
    lines: Vec<Line>,
    // For each taken line the number of bytes said before it.
    marks: Vec<usize>,
    said: Vec<u8>,
    room: usize,
    calls: Calls,
}

impl Drop for MemoryConsole {
    fn drop(self) {
        let MemoryConsole {
            lines: _,
            marks: _,
            said: _,
            room: _,
            calls: _,
        } = self;
    }
}

impl Model for MemoryConsole {
    ghost use Rattle.std.specs.Prelude.{length, drop, vec_capacity};
    ghost use Rattle.adv_io.specs.Recorded.{Recorded, retold, IsKept};

    ghost Value = { Recorded };

    ghost view = { λ c. record {
      history = retold 0 c.said.items c.marks.items c.lines.items;
      left = drop (length c.marks.items) c.lines.items;
      room = c.room;
      calls = c.calls;
    } };

    ghost invariant = { λ c. IsKept c.said.items c.marks.items c.lines.items c.room
        (vec_capacity c.said) (vec_capacity c.marks) };
}

impl MemoryConsole {
    /// A console that gives `lines`, has room for `room` said bytes, and fails at the calls whose
    /// numbers are in `failing`.
    pub fn new(
        alloc: Global,
        lines: Vec<Line>,
        failing: Vec<u64>,
        room: usize,
    ) -> Result<MemoryConsole, Memory>
        ensures { IfOk result (λ console. console ≡ untouched lines.items failing.items room) }
    {
        let said = Vec::with_capacity(alloc, room)?;
        let marks = Vec::with_capacity(alloc, lines.len())?;
        Ok(MemoryConsole {
            lines,
            marks,
            said,
            room,
            calls: Calls::new(failing),
        })
    }

    /// The bytes that were said.
    pub fn said(&self) -> &[u8]
        ensures { result.now ≡ transcript self.now.history }
    {
        self.said.as_slice()
    }

    /// How many bytes were said before the taken line `i`, counted from 0, if so many were taken.
    pub fn mark(&self, i: usize) -> Option<usize>
        ensures { result ≡ slice_get (marks self.now.history) i }
    {
        self.marks.get(i).copied()
    }

    // Keeps bytes that were said.
    fn keep_said(&mut self, bytes: &[u8])
        requires { length bytes.now ≤ self.old.room }
        ensures { self.new ≡ with_said self.old bytes.now }
    {
        self.said.extend_from_slice(bytes).unwrap();
        self.room -= bytes.len();
    }

    // The next line, if there is one, which is then taken.
    fn next_line(&mut self) -> Option<Line>
        ensures value { result ≡ slice_get self.old.left 0 }
        ensures taken { self.new ≡ with_taken self.old self.old.left }
    {
        let at = self.marks.len();
        if at == self.lines.len() {
            return None;
        }
        self.marks.push_reserved(self.said.len());
        Some(self.lines[at].copied())
    }
}

impl Console for MemoryConsole {
    ghost use Rattle.adv_io.specs.Recorded.{seen_of};

    ghost seen = { seen_of };

    fn say(&mut self, bytes: &[u8]) -> Result<(), ConsoleFault>
        // It fails at the calls that are to fail, and where there is too little room.
        ensures refused { IsErr result ↔
            (IsTrue (fails_next self.old.calls) ⊎ (self.old.room < length bytes.now)) }
        ensures exact { self.new ≡ after_saying self.old bytes.now }

        // As every console.
        ensures every { Speaks (seen_of self.old) (seen_of self.new) result (says bytes.now) }
    {
        if self.calls.next_fails() {
            return Err(ConsoleFault::Failed);
        }
        if bytes.len() <= self.room {
            self.keep_said(bytes);
            return Ok(());
        }
        let fits = self.room;
        self.keep_said(&bytes[..fits]);
        self.calls.count_fault();
        Err(ConsoleFault::Failed)
    }

    fn take(&mut self, line: &mut Line) -> Result<Taken, ConsoleFault>
        // It fails at the calls that are to fail.
        ensures refused { IsErr result ↔ IsTrue (fails_next self.old.calls) }
        ensures exact { self.new ≡ after_taking self.old }

        // As every console.
        ensures every { Takes (seen_of self.old) (seen_of self.new) result line.old line.new }
    {
        if self.calls.next_fails() {
            return Err(ConsoleFault::Failed);
        }
        match self.next_line() {
            Some(next) => {
                *line = next;
                Ok(Taken::Got)
            }
            None => Ok(Taken::End),
        }
    }
}
