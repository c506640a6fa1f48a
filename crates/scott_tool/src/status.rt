//! How a request ended.
ghost use Rattle.std.specs.Prelude.{◌≡◌};

/// How a request ended. docs/GUIDE.md says what each status means.
///
/// - `Done`: it was done; a play or a run may have wanted a line or a draw that wasn't there.
/// - `NoRequest`: the words ask for nothing.
/// - `ShelfFailed`, `ConsoleFailed`: a file can't be read or written; nothing more could be said.
/// - `NoDatabase`, `NoText`, `NoProgram`: a content is none. A text is a source, or draws.
/// - `TooWide`: a number of a database is no word of a program.
/// - `Trapped`, `StepsSpent`: a run ended so.
/// - `NoMemory`: memory ran out.
/// - `TooLong`: a file has more bytes than are loaded.
#[derive(Clone, Copy)]
pub enum Status {
    Done,
    NoRequest,
    ShelfFailed,
    ConsoleFailed,
    NoDatabase,
    NoText,
    NoProgram,
    TooWide,
    Trapped,
    NoMemory,
    StepsSpent,
    TooLong,
}

impl Status {
    ghost use Rattle.scott_tool.specs.Views.{number_of};

    /// The number with which the program ends.
    pub fn number(self) -> u8
        ensures { result ≡ number_of self }
    {
        match self {
            Status::Done => 0,
            Status::NoRequest => 1,
            Status::ShelfFailed => 2,
            Status::ConsoleFailed => 3,
            Status::NoDatabase => 4,
            Status::NoText => 5,
            Status::NoProgram => 6,
            Status::TooWide => 7,
            Status::Trapped => 8,
            Status::NoMemory => 9,
            Status::StepsSpent => 10,
            Status::TooLong => 11,
        }
    }
}
