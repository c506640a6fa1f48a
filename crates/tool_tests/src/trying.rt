//! Giving a command, and expecting what becomes of it.
use crate::expect;
use crate::games::Game;
use adv_io::{Line, MemoryConsole, MemoryShelf, Shelf};
use scott_tool::scott;
use std::fmt::Write;
use std::process::Abort;

/// A file: none, these bytes, these pieces, or the text of a game.
#[derive(Clone, Copy)]
pub enum File<'a> {
    Absent,
    Bytes(&'a [u8]),
    Pieces(&'a [&'a str]),
    Of(Game<'a>),
}

/// A command, the files `t.dat`, `t.adv`, `g.inf`, `d.txt` and `p.pos` before it, and what is
/// expected: its status, what is said, piece by piece, and files after it.
#[derive(Clone, Copy)]
pub struct Case<'a> {
    pub command: &'a str,
    pub game: File<'a>,
    pub source: File<'a>,
    pub program: File<'a>,
    pub draws: Option<&'a [u8]>,
    pub position: Option<&'a [u8]>,
    pub lines: &'a [&'a [u8]],
    pub failing_loads: &'a [u64],
    pub failing_calls: &'a [u64],
    pub status: u8,
    pub said: &'a [&'a str],
    pub after: &'a [(&'a str, File<'a>)],
}

/// Nothing is there, and nothing is expected.
pub const NOTHING: Case<'static> = Case {
    command: "",
    game: File::Absent,
    source: File::Absent,
    program: File::Absent,
    draws: None,
    position: None,
    lines: &[],
    failing_loads: &[],
    failing_calls: &[],
    status: 0,
    said: &[],
    after: &[],
};

/// The words of a command, which blanks part.
pub fn words_of<R: Abort + AllocGlobal>(rt: &R, command: &str) -> Vec<String> {
    let mut words = Vec::new(rt.alloc());
    for word in command.split(' ') {
        let word = String::from_str(rt.alloc(), word).expect(rt, "memory");
        words.push(word).expect(rt, "memory");
    }
    words
}

/// The bytes of a file, if there is one.
pub fn bytes_of<R: Abort + AllocGlobal>(rt: &R, file: &File<'_>) -> Option<Vec<u8>> {
    match file {
        File::Absent => None,
        File::Bytes(bytes) => Some(bytes.to_vec(rt.alloc()).expect(rt, "memory")),
        File::Pieces(pieces) => Some(joined(rt, pieces)),
        File::Of(game) => Some(game.text(rt.alloc()).expect(rt, "memory").into_bytes()),
    }
}

/// Pieces, one after another.
pub fn joined<R: Abort + AllocGlobal>(rt: &R, pieces: &[&str]) -> Vec<u8> {
    let mut bytes = Vec::new(rt.alloc());
    for piece in pieces {
        bytes
            .extend_from_slice(piece.as_bytes())
            .expect(rt, "memory");
    }
    bytes
}

// Stores a file under a name, if there is one.
fn put<R: Abort + AllocGlobal>(rt: &R, shelf: &mut MemoryShelf, name: &str, file: &File<'_>) {
    if let Some(bytes) = bytes_of(rt, file) {
        let _ = shelf.store(rt.alloc(), name, &bytes);
    }
}

// A shelf with the files of a case, stored in their order.
fn shelf_of<R: Abort + AllocGlobal>(rt: &R, case: &Case<'_>) -> MemoryShelf {
    let failing = case.failing_loads.to_vec(rt.alloc()).expect(rt, "memory");
    let mut shelf = MemoryShelf::new(Vec::new(rt.alloc()), failing);
    put(rt, &mut shelf, "t.dat", &case.game);
    put(rt, &mut shelf, "t.adv", &case.source);
    put(rt, &mut shelf, "g.inf", &case.program);
    if let Some(draws) = case.draws {
        let _ = shelf.store(rt.alloc(), "d.txt", draws);
    }
    if let Some(position) = case.position {
        let _ = shelf.store(rt.alloc(), "p.pos", position);
    }
    shelf
}

/// A console that gives the lines of a case.
pub fn console_of<R: Abort + AllocGlobal>(rt: &R, case: &Case<'_>) -> MemoryConsole {
    let mut lines = Vec::new(rt.alloc());
    for line in case.lines {
        lines.push(Line::of(line)).expect(rt, "memory");
    }
    let failing = case.failing_calls.to_vec(rt.alloc()).expect(rt, "memory");
    MemoryConsole::new(rt.alloc(), lines, failing, 65_536).expect(rt, "memory")
}

// Gives a command to a shelf, with the lines of a case: its status, and the console after it.
fn given<R: Abort + AllocGlobal>(
    rt: &R,
    command: &str,
    case: &Case<'_>,
    shelf: &mut MemoryShelf,
) -> (u8, MemoryConsole) {
    let words = words_of(rt, command);
    let mut console = console_of(rt, case);
    let status = scott(rt.alloc(), &words, shelf, &mut console);
    (status, console)
}

/// Gives a command: its status, and the console and the shelf after it.
pub fn answer_of<R: Abort + AllocGlobal>(
    rt: &R,
    case: &Case<'_>,
) -> (u8, MemoryConsole, MemoryShelf) {
    let mut shelf = shelf_of(rt, case);
    let (status, console) = given(rt, case.command, case, &mut shelf);
    (status, console, shelf)
}

/// Expects a file after a command.
pub fn expect_file<R: Abort + AllocGlobal>(
    rt: &R,
    shelf: &MemoryShelf,
    name: &str,
    file: &File<'_>,
) {
    match bytes_of(rt, file) {
        Some(bytes) => expect!(rt; shelf.file(name) == Some(bytes.as_slice()), name),
        None => expect!(rt; shelf.file(name) == None, name),
    }
}

/// A play, and the two commands that translate its game and run what is stored.
#[derive(Clone, Copy)]
pub struct Translated<'a> {
    pub translate: &'a str,
    pub run: &'a str,
    pub play: Case<'a>,
}

/// A play whose game is translated as it is.
pub fn plain_of<'a>(play: &Case<'a>) -> Translated<'a> {
    let run = match play.draws {
        Some(_) => "run g.inf draws=d.txt",
        None => "run g.inf",
    };
    Translated {
        translate: "translate t.dat g.inf",
        run,
        play: *play,
    }
}

// Gives a command to a shelf, with the lines of a case, and expects that it succeeds and says this.
fn expect_given<R: Abort + AllocGlobal>(
    rt: &R,
    command: &str,
    case: &Case<'_>,
    shelf: &mut MemoryShelf,
    said: &[u8],
) -> MemoryConsole {
    let (status, console) = given(rt, command, case, shelf);
    expect!(rt; status == 0, command);
    expect!(rt; console.said() == said, command);
    console
}

// Expects that each of so many lines was taken on both consoles, after as many bytes, or on none.
fn expect_marks(rt: &impl Abort, lines: usize, one: &MemoryConsole, other: &MemoryConsole) {
    for i in 0..lines {
        expect!(rt; one.mark(i) == other.mark(i), "a line is taken in another place");
    }
}

/// Plays a game, translates it without a word, and expects that the run of what is stored has the
/// history of the play: the same lines, each after the same bytes. Gives the shelf with it.
pub fn expect_translated<R: Abort + AllocGlobal>(rt: &R, case: &Translated<'_>) -> MemoryShelf {
    let played = expect(rt, &case.play);
    let mut shelf = shelf_of(rt, &case.play);
    expect_given(rt, case.translate, &NOTHING, &mut shelf, b"");
    let ran = expect_given(rt, case.run, &case.play, &mut shelf, played.said());
    expect_marks(rt, case.play.lines.len(), &played, &ran);
    shelf
}

// Whether so many steps are enough for a stored program to use up its lines.
fn is_enough<R: Abort + AllocGlobal>(
    rt: &R,
    case: &Case<'_>,
    shelf: &mut MemoryShelf,
    steps: u32,
) -> bool {
    let mut command = String::from_str(rt.alloc(), "run g.inf steps=").expect(rt, "memory");
    write!(command, "{steps}").expect(rt, "memory");
    let (status, _) = given(rt, &command, case, shelf);
    status == 0
}

// The steps that are tried, each half of the one before it.
const HALVES: [u32; 16] = [
    32_768, 16_384, 8_192, 4_096, 2_048, 1_024, 512, 256, 128, 64, 32, 16, 8, 4, 2, 1,
];

/// The most steps, below 65,536, that the run of a translation needs more than.
pub fn steps_needed<R: Abort + AllocGlobal>(rt: &R, case: &Translated<'_>) -> u32 {
    let mut shelf = expect_translated(rt, case);
    let mut few: u32 = 0;
    for half in HALVES.iter().copied() {
        let more = few.saturating_add(half);
        if !is_enough(rt, &case.play, &mut shelf, more) {
            few = more;
        }
    }
    few
}

/// Gives a command, and expects its status, what is said, and the files after it.
pub fn expect<R: Abort + AllocGlobal>(rt: &R, case: &Case<'_>) -> MemoryConsole {
    let said = joined(rt, case.said);
    let (status, console, shelf) = answer_of(rt, case);
    expect!(rt; status == case.status, case.command);
    expect!(rt; console.said() == said.as_slice(), case.command);
    for (name, file) in case.after {
        expect_file(rt, &shelf, name, file);
    }
    console
}
