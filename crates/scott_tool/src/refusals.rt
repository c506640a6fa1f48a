//! Why a request isn't done: its status, and the line that is said of it.
ghost use Rattle.std.specs.Prelude.{◌≡◌, ◌≤◌, [], ◌∷◌, ◌++◌, map, MatchResult};
ghost use Rattle.adv_io.specs.History.{says};
ghost use Rattle.adv_io.specs.Console.{Speaks};
ghost use Rattle.scott_tool.specs.declared.refusals.ContentFault.TheVariants.{NoDatabase, NoSource, NoMeaning, NoDraws, NoPosition, NotAtPrompt, NoProgram, NoRoutine, NoTranslation};
ghost use Rattle.scott_tool.specs.Views.{number_of};
ghost use Rattle.scott_tool.specs.Refusal.{no_request, unread, too_long, unfit, unfit_by, unwritten, whole, after_name, line_end, line_of};

use crate::refusal_texts::{
    after_name, bytes_end, cannot_read, cannot_write, line_end, longer_than, no_position,
    no_routine, usage, waits_for_draw,
};
use crate::status::Status;
use adv_compiler::CompileFault;
use adv_draws::DrawFault;
use adv_io::{Console, ConsoleFault, say_all};
use adv_position::PositionFault;
use inform_reader::ProgramFault;
use itoa::Buffer;
use scott_format::FormatFault;
use source_reader::SourceFault;
use translator::TransFault;

/// What is wrong with the content of a file: it is no database, no source or one that means none,
/// no list of draws, no position or one that waits for a draw, no accepted Inform program or one
/// without the routine of this name, or it isn't translated. `Memory` is no fault of it.
#[derive(Drop)]
pub enum ContentFault<'a> {
    NoDatabase(FormatFault),
    NoSource(SourceFault),
    NoMeaning(CompileFault),
    NoDraws(DrawFault),
    NoPosition(PositionFault),
    NotAtPrompt,
    NoProgram(ProgramFault),
    NoRoutine(&'a str),
    NoTranslation(TransFault),
}

/// Why a request isn't done.
///
/// - `NoRequest`: the words ask for nothing.
/// - `Unread`: the file of this name isn't there, or the shelf failed.
/// - `TooLong`: the file of this name has more bytes than this limit.
/// - `Unfit`: the content of the file of this name has a fault.
/// - `Unwritten`: the shelf failed as it stored the file of this name.
/// - `Memory`: memory ran out. Nothing is said of it.
#[derive(Drop)]
pub enum Refusal<'a> {
    NoRequest,
    Unread(&'a str),
    TooLong(&'a str, usize),
    Unfit(&'a str, ContentFault<'a>),
    Unwritten(&'a str),
    Memory,
}

fn say_usage<C: Console>(console: &mut C) -> Result<(), ConsoleFault>
    ensures { Speaks (C.seen console.old) (C.seen console.new) result (says (line_of no_request)) }
{
    console.say(usage())
}

fn say_unread<C: Console>(name: &str, console: &mut C) -> Result<(), ConsoleFault>
    ensures { Speaks (C.seen console.old) (C.seen console.new) result
        (says (line_of (unread name.now))) }
{
    say_all(console, &[cannot_read(), name.as_bytes(), line_end()])
}

fn say_too_long<C: Console>(name: &str, limit: usize, console: &mut C) -> Result<(), ConsoleFault>
    ensures { Speaks (C.seen console.old) (C.seen console.new) result
        (says (line_of (too_long name.now limit))) }
{
    let mut digits = Buffer::new();
    let number = digits.format(limit).as_bytes();
    say_all(
        console,
        &[name.as_bytes(), longer_than(), number, bytes_end()],
    )
}

fn say_no_database<C: Console>(
    name: &str,
    fault: FormatFault,
    console: &mut C,
) -> Result<(), ConsoleFault>
    ensures { Speaks (C.seen console.old) (C.seen console.new) result
        (says (line_of (unfit (unfit_by name.now (NoDatabase fault))))) }
{
    let mut digits = Buffer::new();
    let [opening, number, closing] = fault.pieces(&mut digits);
    say_all(
        console,
        &[
            name.as_bytes(),
            after_name(),
            opening,
            number,
            closing,
            line_end(),
        ],
    )
}

fn say_no_source<C: Console>(
    name: &str,
    fault: SourceFault,
    console: &mut C,
) -> Result<(), ConsoleFault>
    ensures { Speaks (C.seen console.old) (C.seen console.new) result
        (says (line_of (unfit (unfit_by name.now (NoSource fault))))) }
{
    let mut digits = Buffer::new();
    let [opening, place] = fault.pieces(&mut digits);
    say_all(
        console,
        &[name.as_bytes(), after_name(), opening, place, line_end()],
    )
}

fn say_no_meaning<C: Console>(
    name: &str,
    fault: CompileFault,
    console: &mut C,
) -> Result<(), ConsoleFault>
    ensures { Speaks (C.seen console.old) (C.seen console.new) result
        (says (line_of (unfit (unfit_by name.now (NoMeaning fault))))) }
{
    let mut number_digits = Buffer::new();
    let mut place_digits = Buffer::new();
    let number = fault.number(&mut number_digits);
    let place = fault.place(&mut place_digits);
    say_all(
        console,
        &[
            name.as_bytes(),
            after_name(),
            number,
            fault.opening(),
            place,
            line_end(),
        ],
    )
}

fn say_unwritten<C: Console>(name: &str, console: &mut C) -> Result<(), ConsoleFault>
    ensures { Speaks (C.seen console.old) (C.seen console.new) result
        (says (line_of (unwritten name.now))) }
{
    say_all(console, &[cannot_write(), name.as_bytes(), line_end()])
}

fn say_no_draws<C: Console>(
    name: &str,
    fault: DrawFault,
    console: &mut C,
) -> Result<(), ConsoleFault>
    ensures { Speaks (C.seen console.old) (C.seen console.new) result
        (says (line_of (unfit (unfit_by name.now (NoDraws fault))))) }
{
    let mut digits = Buffer::new();
    let [opening, number] = fault.pieces(&mut digits);
    say_all(
        console,
        &[name.as_bytes(), after_name(), opening, number, line_end()],
    )
}

fn say_no_position<C: Console>(
    name: &str,
    fault: PositionFault,
    console: &mut C,
) -> Result<(), ConsoleFault>
    ensures { Speaks (C.seen console.old) (C.seen console.new) result
        (says (line_of (unfit (unfit_by name.now (NoPosition fault))))) }
{
    let mut digits = Buffer::new();
    let number = digits.format(fault.0).as_bytes();
    say_all(
        console,
        &[
            name.as_bytes(),
            after_name(),
            no_position(),
            number,
            line_end(),
        ],
    )
}

fn say_not_at_prompt<C: Console>(name: &str, console: &mut C) -> Result<(), ConsoleFault>
    ensures { Speaks (C.seen console.old) (C.seen console.new) result
        (says (line_of (unfit (unfit_by name.now NotAtPrompt)))) }
{
    say_all(
        console,
        &[name.as_bytes(), after_name(), waits_for_draw(), line_end()],
    )
}

// Says a file's name, and what is wrong with its program in these pieces.
fn say_pieces<C: Console>(
    name: &str,
    pieces: [&[u8]; 3],
    console: &mut C,
) -> Result<(), ConsoleFault>
    ensures { Speaks (C.seen console.old) (C.seen console.new) result
        (says (whole (name.now ∷ after_name ∷ (map (λ piece. piece.now) pieces.entry
        ++ (line_end ∷ []))))) }
{
    let [opening, subject, ending] = pieces;
    say_all(
        console,
        &[
            name.as_bytes(),
            after_name(),
            opening,
            subject,
            ending,
            line_end(),
        ],
    )
}

fn say_no_program<C: Console>(
    name: &str,
    fault: &ProgramFault,
    console: &mut C,
) -> Result<(), ConsoleFault>
    ensures { Speaks (C.seen console.old) (C.seen console.new) result
        (says (line_of (unfit (unfit_by name.now (NoProgram fault.now))))) }
{
    let mut digits = Buffer::new();
    say_pieces(name, fault.pieces(&mut digits), console)
}

fn say_no_routine<C: Console>(
    name: &str,
    routine: &str,
    console: &mut C,
) -> Result<(), ConsoleFault>
    ensures { Speaks (C.seen console.old) (C.seen console.new) result
        (says (line_of (unfit (unfit_by name.now (NoRoutine routine.entry))))) }
{
    say_all(
        console,
        &[
            name.as_bytes(),
            after_name(),
            no_routine(),
            routine.as_bytes(),
            line_end(),
        ],
    )
}

fn say_no_translation<C: Console>(
    name: &str,
    fault: TransFault,
    console: &mut C,
) -> Result<(), ConsoleFault>
    ensures { Speaks (C.seen console.old) (C.seen console.new) result
        (says (line_of (unfit (unfit_by name.now (NoTranslation fault))))) }
{
    let mut line_digits = Buffer::new();
    let mut part_digits = Buffer::new();
    let mut value_digits = Buffer::new();
    let line = fault.line(&mut line_digits);
    let number = fault.number(&mut part_digits);
    let value = fault.value(&mut value_digits);
    say_all(
        console,
        &[
            name.as_bytes(),
            after_name(),
            fault.opening(),
            line,
            fault.part(),
            number,
            fault.before_value(),
            value,
            fault.ending(),
            line_end(),
        ],
    )
}

/// The status after something that was said: this one, or 3 where the console failed.
pub fn concluded(said: Result<(), ConsoleFault>, status: Status) -> Status
    ensures { MatchResult said (λ _. number_of result ≡ number_of status)
        (λ _. number_of result ≡ 3) }
{
    match said {
        Ok(()) => status,
        Err(_) => Status::ConsoleFailed,
    }
}

impl<'a> ContentFault<'a> {
    ghost use Rattle.scott_tool.specs.Views.{number_of};
    ghost use Rattle.scott_tool.specs.Refusal.{flaw_of, flaw_status, unfit, unfit_by, line_of};

    // The status of a request that reads such a content.
    fn status(&self) -> Status
        ensures { number_of result ≡ flaw_status (flaw_of self.now) }
    {
        match self {
            ContentFault::NoDatabase(_) => Status::NoDatabase,
            ContentFault::NoSource(_) => Status::NoText,
            ContentFault::NoMeaning(_) => Status::NoText,
            ContentFault::NoDraws(_) => Status::NoText,
            ContentFault::NoPosition(_) => Status::NoText,
            ContentFault::NotAtPrompt => Status::NoText,
            ContentFault::NoProgram(_) => Status::NoProgram,
            ContentFault::NoRoutine(_) => Status::NoProgram,
            ContentFault::NoTranslation(_) => Status::TooWide,
        }
    }

    // Says it of the file of this name.
    fn say<C: Console>(&self, name: &str, console: &mut C) -> Result<(), ConsoleFault>
        ensures { Speaks (C.seen console.old) (C.seen console.new) result
            (says (line_of (unfit (unfit_by name.now self.now)))) }
    {
        match self {
            ContentFault::NoDatabase(fault) => say_no_database(name, *fault, console),
            ContentFault::NoSource(fault) => say_no_source(name, *fault, console),
            ContentFault::NoMeaning(fault) => say_no_meaning(name, *fault, console),
            ContentFault::NoDraws(fault) => say_no_draws(name, *fault, console),
            ContentFault::NoPosition(fault) => say_no_position(name, *fault, console),
            ContentFault::NotAtPrompt => say_not_at_prompt(name, console),
            ContentFault::NoProgram(fault) => say_no_program(name, fault, console),
            ContentFault::NoRoutine(routine) => say_no_routine(name, *routine, console),
            ContentFault::NoTranslation(fault) => say_no_translation(name, *fault, console),
        }
    }
}

impl<'a> Refusal<'a> {
    ghost use Rattle.scott_tool.specs.Views.{refusal_of, number_of};
    ghost use Rattle.scott_tool.specs.Obeying.{Refuses};

    /// Says why, if there is something to say, and answers the status.
    pub fn end<C: Console>(self, console: &mut C) -> Status
        ensures { Refuses (C.seen console.old) (C.seen console.new) (refusal_of self.entry)
            (number_of result) }
    {
        match self {
            Refusal::NoRequest => concluded(say_usage(console), Status::NoRequest),
            Refusal::Unread(name) => concluded(say_unread(name, console), Status::ShelfFailed),
            Refusal::TooLong(name, limit) => concluded(
                say_too_long(name, limit, console),
                Status::TooLong,
            ),
            Refusal::Unfit(name, fault) => concluded(fault.say(name, console), fault.status()),
            Refusal::Unwritten(name) => concluded(
                say_unwritten(name, console),
                Status::ShelfFailed,
            ),
            Refusal::Memory => Status::NoMemory,
        }
    }
}
