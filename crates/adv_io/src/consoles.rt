//! A console: bytes are said to it, and lines are taken from it.
ghost use Rattle.adv_io.specs.History.{says};
ghost use Rattle.adv_io.specs.Console.{ConsoleView, Speaks, Takes};

use crate::faults::ConsoleFault;
use crate::lines::Line;

/// What a take found: a line, or the end of the lines.
#[derive(Clone, Copy, PartialEq, Eq)]
pub enum Taken {
    Got,
    End,
}

/// Bytes are said to a console, and lines are taken from it. docs/ARCHITECTURE.md says which
/// consoles there are.
///
/// A clause sees one view of it, `seen`. Of some consoles the `history` is known, the events so
/// far, and the lines that are `left`. The `bound` is at least the number of lines that can still
/// be got, so a loop that takes lines ends by it. `faults` counts what failed outside, and never
/// falls.
pub trait Console {
    ghost seen: { Self → ConsoleView };

    /// Says the bytes. After a failure a prefix of them was said.
    fn say(&mut self, bytes: &[u8]) -> Result<(), ConsoleFault>
        ensures { Speaks (seen self.old) (seen self.new) result (says bytes.now) };

    /// Takes the next line into `line`, or finds that none is left. Then nothing changes.
    fn take(&mut self, line: &mut Line) -> Result<Taken, ConsoleFault>
        ensures { Takes (seen self.old) (seen self.new) result line.old line.new };
}
