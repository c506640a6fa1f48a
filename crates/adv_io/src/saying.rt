//! Saying several texts, one after the other, in as few calls as may be.
ghost use Rattle.std.specs.Prelude.{◌≡◌, ◌≤◌, ◌+◌, ◌⊎◌, ◌++◌, OnOk, [], length};
ghost use Rattle.adv_io.specs.History.{says};
ghost use Rattle.adv_io.specs.Console.{Speaks, Buffers, pieces_text};

use crate::consoles::Console;
use crate::faults::ConsoleFault;
use arrayvec::ArrayVec;
use std::marker::Model;

/// How many bytes are buffered before they are said.
pub const BUFFER_LIMIT: usize = 1024;

/// Bytes that are buffered and not said yet, for texts that are said one after the other: each is
/// given to `buffer_text`, and `say` ends it. Texts of 1,024 bytes together are said in one call.
///
/// A clause sees the bytes that wait. After a failure a prefix of the whole was said.
#[derive(Drop)]
pub struct SayBuffer {
    bytes: ArrayVec<u8, 1024>,
}

impl Model for SayBuffer {
    ghost use Rattle.std.specs.Prelude.{List, ℕ};

    ghost Value = { List ℕ };

    ghost view = { λ g. g.bytes.items };
}

impl SayBuffer {
    /// Nothing is buffered yet.
    pub fn new() -> SayBuffer
        ensures { result ≡ [] }
    {
        SayBuffer {
            bytes: ArrayVec::new(),
        }
    }

    // Says what was buffered, where so many more bytes have no room after it.
    fn make_room<C: Console>(&mut self, more: usize, console: &mut C) -> Result<(), ConsoleFault>
        ensures buffers { Buffers (C.seen console.old) (C.seen console.new) result
            self.old self.new [] }
        ensures room { OnOk result ((length self.new + more ≤ 1024) ⊎ (self.new ≡ [])) }
    {
        if more <= BUFFER_LIMIT - self.bytes.len() {
            return Ok(());
        }
        self.say(console)?;
        self.bytes = ArrayVec::new();
        Ok(())
    }

    /// Buffers one more text. Where it has no room, what was buffered is said first, and a text
    /// that has none by itself is said after it.
    pub fn buffer_text<C: Console>(
        &mut self,
        text: &[u8],
        console: &mut C,
    ) -> Result<(), ConsoleFault>
        ensures { Buffers (C.seen console.old) (C.seen console.new) result
            self.old self.new text.now }
    {
        self.make_room(text.len(), console)?;
        match self.bytes.try_extend_from_slice(text) {
            Ok(()) => Ok(()),
            Err(_) => console.say(text),
        }
    }

    /// Says what was buffered, and makes no call where that is nothing.
    pub fn say<C: Console>(&self, console: &mut C) -> Result<(), ConsoleFault>
        ensures { Speaks (C.seen console.old) (C.seen console.new) result
            (says self.now) }
    {
        say_unless_empty(self.bytes.as_slice(), console)
    }
}

/// Says a text, and makes no call where it is empty.
pub fn say_unless_empty<C: Console>(text: &[u8], console: &mut C) -> Result<(), ConsoleFault>
    ensures { Speaks (C.seen console.old) (C.seen console.new) result (says text.now) }
{
    if text.is_empty() {
        Ok(())
    } else {
        console.say(text)
    }
}

/// Says the pieces, one after the other. After a failure a prefix of the whole was said.
///
/// They are buffered first, so that pieces of 1,024 bytes together are said in one call.
#[inline(never)]
pub fn say_all<C: Console>(console: &mut C, pieces: &[&[u8]]) -> Result<(), ConsoleFault>
    ensures { Speaks (C.seen console.old) (C.seen console.new) result
        (says (pieces_text pieces.now)) }
{
    let mut buffer = SayBuffer::new();
    for piece in pieces {
        buffer.buffer_text(piece, console)?;
    }
    buffer.say(console)
}

/// Says two texts, one after the other, as `say_all` does.
pub fn say_both<'a, C: Console>(
    first: &'a [u8],
    second: &'a [u8],
    console: &mut C,
) -> Result<(), ConsoleFault>
    ensures { Speaks (C.seen console.old) (C.seen console.new) result
        (says (first.now ++ second.now)) }
{
    say_all(console, &[first, second])
}
