//! A worked play, from the program's clauses alone.
ghost use Rattle.std.specs.Prelude.{◌≡◌, ◌++◌, map, string_bytes};
ghost use Rattle.scott_tool.specs.Worked.{hill_words, hill_lines, HasHill, hill_history};

use crate::program::scott;
use adv_io::{MemoryConsole, MemoryShelf};
use scott_format::laws::{one_database, written_text_is_text};
use scott_rules::worked::hill_keeps_limits;
use std::alloc::Global;

/// From the hall to the hill and back: with status 0 the console has seen just this, each prompt
/// before its line.
pub fn hall_and_hill(
    alloc: Global,
    words: &[String],
    shelf: &mut MemoryShelf,
    console: &mut MemoryConsole,
) -> u8
    requires words { map string_bytes words.now ≡ hill_words }
    requires game { HasHill shelf.old.files }
    requires lines { console.old.left ≡ hill_lines }
    ensures { result ≡ 0 → console.new.history ≡ console.old.history ++ hill_history }
{
    one_database();
    written_text_is_text();
    hill_keeps_limits();
    scott(alloc, words, shelf, console)
}
