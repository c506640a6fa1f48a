//! The console of the process: standard output and input, as thin as can be.
//!
//! Trusted here and only tested: that the runtime writes the bytes that it is given and reads those
//! that were typed. No clause speaks of them. The runtime keeps no bytes back, and reads ahead only
//! from what it can seek, so a take waits for no more than the line's end.
ghost use Rattle.std.specs.Prelude.{◌≡◌, IsErr};
ghost use Rattle.adv_io.specs.History.{says};
ghost use Rattle.adv_io.specs.Console.{Speaks, Takes};
ghost use Rattle.adv_io.specs.Terminal.{takes_left, terminal_seen, after_saying, after_taking};

use crate::consoles::{Console, Taken};
use crate::faults::ConsoleFault;
use crate::lines::{LINE_LIMIT, Line};
use arrayvec::ArrayVec;
use std::io;
use std::io::{BufRead, ErrorKind, Write};
use std::marker::Model;

/// The most bytes of a line that is read, its ending byte not counted.
pub const RAW_LIMIT: u32 = 65_536;

/// Standard output and input. Neither what was said nor which lines are left is known.
///
/// A clause sees how many lines were taken, at most 18446744073709551615, and the count of faults,
/// which stays at that number once it is there.
pub struct StdConsole<'a, R: Input + Print> {
    rt: &'a R,
    input: R::Reader,
    taken: u64,
    faults: u64,
}

impl<'a, R: Input + Print> Model for StdConsole<'a, R> {
    ghost use Rattle.adv_io.specs.Terminal.{Terminal};

    ghost Value = { Terminal };

    ghost view = { λ c. record { taken = c.taken; faults = c.faults } };
}

impl<'a, R: Input + Print> Drop for StdConsole<'a, R> {
    fn drop(self) {
        let StdConsole {
            rt: _,
            input: _,
            taken: _,
            faults: _,
        } = self;
    }
}

impl<'a, R: Input + Print> StdConsole<'a, R> {
    /// The standard output and input of the runtime.
    pub fn new(rt: &'a R) -> StdConsole<'a, R>
        ensures { result ≡ record { taken = 0; faults = 0 } }
    {
        StdConsole {
            rt,
            input: rt.reader(),
            taken: 0,
            faults: 0,
        }
    }
}

impl<'a, R: Input + Print> Console for StdConsole<'a, R> {
    ghost use Rattle.adv_io.specs.Terminal.{terminal_seen};

    ghost seen = { terminal_seen };

    fn say(&mut self, bytes: &[u8]) -> Result<(), ConsoleFault>
        ensures counted { self.new ≡ after_saying result self.old }

        // As every console.
        ensures every { Speaks (terminal_seen self.old) (terminal_seen self.new) result
            (says bytes.now) }
    {
        match write_out(self.rt, bytes) {
            Ok(()) => Ok(()),
            Err(_) => {
                self.faults = self.faults.saturating_add(1);
                Err(ConsoleFault::Failed)
            }
        }
    }

    /// It fails where the input fails, a line is longer than `RAW_LIMIT`, or no more lines can be
    /// counted. After a line that is too long the next take goes on after the bytes that were read.
    fn take(&mut self, line: &mut Line) -> Result<Taken, ConsoleFault>
        ensures spent { takes_left self.old ≡ 0 → IsErr result }
        ensures counted { self.new ≡ after_taking result self.old }

        // As every console.
        ensures every { Takes (terminal_seen self.old)
            (terminal_seen self.new) result line.old line.new }
    {
        if self.taken < u64::MAX {
            match next_line(&mut self.input) {
                Ok(Some(next)) => {
                    *line = next;
                    self.taken += 1;
                    return Ok(Taken::Got);
                }
                Ok(None) => return Ok(Taken::End),
                Err(_) => {}
            }
        }
        self.faults = self.faults.saturating_add(1);
        Err(ConsoleFault::Failed)
    }
}

fn write_out<R: Print>(rt: &R, bytes: &[u8]) -> io::Result<()> {
    let mut output = io::writer(&rt);
    output.write_all(bytes)?;
    output.flush()
}

// The next line, up to byte 10 or the end of the input, if there is one.
fn next_line<I: BufRead>(input: &mut I) -> io::Result<Option<Line>> {
    let mut raw = ArrayVec::<u8, LINE_LIMIT>::new();
    for count in 0..=RAW_LIMIT {
        match next_byte(input)? {
            Some(b'\n') => return Ok(Some(Line::of(raw.as_slice()))),
            Some(byte) => {
                if !raw.is_full() {
                    raw.push(byte);
                }
            }
            None => {
                return Ok(if count == 0 {
                    None
                } else {
                    Some(Line::of(raw.as_slice()))
                });
            }
        }
    }
    Err(io::Error::new(ErrorKind::InvalidData, "a line is too long"))
}

// The next byte, if the input has one. A read that a signal interrupts is tried again.
fn next_byte<I: BufRead>(input: &mut I) -> io::Result<Option<u8>> {
    for _ in 0..u64::MAX {
        match input.fill_buf() {
            Ok(ahead) => {
                let byte = ahead.first().copied();
                if byte.is_some() {
                    input.consume(1);
                }
                return Ok(byte);
            }
            Err(fault) => {
                if fault.kind() != ErrorKind::Interrupted {
                    return Err(fault);
                }
            }
        }
    }
    Err(io::Error::from(ErrorKind::Interrupted))
}
