//! A console that reads from a list of lines, and keeps nothing of what is said.
ghost use Rattle.std.specs.Prelude.{◌≡◌, length, IsOk};
ghost use Rattle.adv_io.specs.History.{says};
ghost use Rattle.adv_io.specs.Console.{Speaks, Takes};
ghost use Rattle.adv_io.specs.Terminal.{script_seen};

use crate::consoles::{Console, Taken};
use crate::faults::ConsoleFault;
use crate::lines::Line;
use std::marker::Model;

/// A console that gives the lines of a list, never fails, and takes no memory.
///
/// A clause sees the lines that are left. What is said is not kept.
#[derive(Drop)]
pub struct ScriptConsole<'a> {
    lines: &'a [Line],
    taken: usize,
}

impl<'a> Model for ScriptConsole<'a> {
    ghost use Rattle.std.specs.Prelude.{List, ℕ, drop, length, ◌≤◌};

    ghost Value = { List (List ℕ) };

    ghost view = { λ c. drop c.taken c.lines.now };

    ghost invariant = { λ c. c.taken ≤ length c.lines.now };
}

impl<'a> ScriptConsole<'a> {
    /// A console that gives `lines`.
    pub fn new(lines: &'a [Line]) -> ScriptConsole<'a>
        ensures { result ≡ lines.now }
    {
        ScriptConsole { lines, taken: 0 }
    }

    /// How many lines are left. The lines taken are those given less these.
    pub fn left(&self) -> usize
        ensures { result ≡ length self.now }
    {
        self.lines.len() - self.taken
    }
}

impl<'a> Console for ScriptConsole<'a> {
    ghost use Rattle.adv_io.specs.Terminal.{script_seen};

    ghost seen = { script_seen };

    fn say(&mut self, bytes: &[u8]) -> Result<(), ConsoleFault>
        ensures succeeds { IsOk result }
        ensures unchanged { self.new ≡ self.old }

        // As every console.
        ensures every { Speaks (script_seen self.old) (script_seen self.new) result
            (says bytes.now) }
    {
        let _ = bytes;
        Ok(())
    }

    fn take(&mut self, line: &mut Line) -> Result<Taken, ConsoleFault>
        ensures succeeds { IsOk result }

        // As every console.
        ensures every { Takes (script_seen self.old)
            (script_seen self.new) result line.old line.new }
    {
        if self.taken == self.lines.len() {
            return Ok(Taken::End);
        }
        *line = self.lines[self.taken].copied();
        self.taken += 1;
        Ok(Taken::Got)
    }
}
