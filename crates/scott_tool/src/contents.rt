//! What the bytes of a file hold, or why they are refused.
ghost use Rattle.std.specs.Prelude.{◌≡◌, ◌≤◌, ◌+◌, ◌*◌, ℕ, List, true, IfOk, IfSome, length, map, option_map};
ghost use Rattle.std.specs.Option.{is_some, option_copied};
ghost use Rattle.std.specs.Char.{to_ascii_lowercase};
ghost use Rattle.scott_files.specs.Loading.{Reads};
ghost use Rattle.scott_requests.specs.Settings.{PauseFits};
ghost use Rattle.scott_requests.specs.Views.{source_of, pause_of};
ghost use Rattle.adv_compiler.specs.Meaning.{meant};
ghost use Rattle.adv_draws.specs.Listed.{listed_draws};
ghost use Rattle.source_reader.specs.Text.{source_in};
ghost use Rattle.source_reader.specs.WellFormed.{WellFormed};
ghost use Rattle.scott_tool.specs.Check.{database_of_file};
ghost use Rattle.scott_tool.specs.Compile.{source_or_unfit, meaning_or_unfit, compiled_from};
ghost use Rattle.scott_tool.specs.Draws.{draws_or_unfit, draws_from};
ghost use Rattle.scott_types.specs.State.{Fits};
ghost use Rattle.scott_turn.specs.Positions.{CanStand};
ghost use Rattle.scott_tool.specs.Loading.{draws_load};
ghost use Rattle.adv_position.specs.declared.saved.TheConstants.{TAKEN_LIMIT};
ghost use Rattle.scott_tool.specs.Position.{position_of_file, at_prompt_of_file};
ghost use Rattle.scott_tool.specs.Plan.{opening_of};
ghost use Rattle.scott_tool.specs.Translate.{translatable};
ghost use Rattle.scott_tool.specs.Run.{program_of_file};
ghost use Rattle.translator.specs.Faithful.{Faithful};
ghost use Rattle.inform_names.specs.Views.{names_of, directives_of};
ghost use Rattle.inform_stepper.specs.Repeats.{InRange};
ghost use Rattle.scott_tool.specs.Step.{routine_meant, pausing_of_program};
ghost use Rattle.scott_tool.specs.Views.{refusal_of, ForMain};
ghost use Rattle.scott_tool.specs.Obeying.{Gives, IsWithin, database_refusal};

use crate::loads::Texts;
use crate::refusals::{ContentFault, Refusal};
use adv_compiler::{CompileFault, compile};
use adv_draws::{DrawFault, Draws};
use adv_io::Memory;
use adv_position::{Saved, read_position};
use inform_names::{Accepted, Kind, Meaning, Names};
use inform_reader::{ProgramFault, read_program};
use inform_stepper::Pausing;
use inform_tree::{Name, Width};
use scott_format::FormatFault;
use scott_requests::{DrawSource, Pause};
use scott_types::laws::start_fits;
use scott_types::{Db, Position, State, Style};
use source_reader::{Source, SourceFault, read_source};
use std::alloc::Global;
use std::mem::forget;
use translator::{TransFault, translate};

// Why a file with this fault is refused. Want of memory is no fault of a file.
fn refusal_for(name: &str, fault: FormatFault) -> Refusal<'_>
    ensures { refusal_of result ≡ database_refusal name.now fault }
{
    match fault {
        FormatFault::Memory => Refusal::Memory,
        _ => Refusal::Unfit(name, ContentFault::NoDatabase(fault)),
    }
}

// The database that bytes of the file of this name read as.
fn database_read<'a, 't>(
    name: &'a str,
    read: &'t Result<Db, FormatFault>,
) -> Result<&'t Db, Refusal<'a>>
    ensures { (bytes : List ℕ) → Reads read.now bytes
        → Gives (λ db. db.now) result (database_of_file name.now bytes) }
{
    match read {
        Ok(db) => Ok(db),
        Err(fault) => Err(refusal_for(name, *fault)),
    }
}

/// The database that was read from the main file, which has this name.
pub fn database<'a, 't>(name: &'a str, texts: &'t Texts) -> Result<&'t Db, Refusal<'a>>
    requires { is_some texts.now.game ≡ true }
    ensures { ForMain texts.now
        (λ texts. Gives (λ db. db.now) result (database_of_file name.now texts.main)) }
{
    match &texts.game {
        Some(read) => database_read(name, read),
        None => unreachable!(),
    }
}

// The source of a file's bytes.
fn source<'a>(alloc: Global, name: &'a str, bytes: &[u8]) -> Result<Source, Refusal<'a>>
    ensures given { Gives (λ tree. tree) result (source_or_unfit name.now (source_in bytes.now)) }
    ensures well_formed { IfOk result (λ tree. WellFormed tree) }
{
    match read_source(alloc, bytes) {
        Ok(tree) => Ok(tree),
        Err(SourceFault::Memory) => Err(Refusal::Memory),
        Err(fault) => Err(Refusal::Unfit(name, ContentFault::NoSource(fault))),
    }
}

// The database that a source means.
fn meaning<'a>(alloc: Global, name: &'a str, tree: &Source) -> Result<Db, Refusal<'a>>
    requires { WellFormed tree.now }
    ensures { Gives (λ db. db) result (meaning_or_unfit name.now (meant tree.now)) }
{
    match compile(alloc, tree) {
        Ok(db) => Ok(db),
        Err(CompileFault::Memory) => Err(Refusal::Memory),
        Err(fault) => Err(Refusal::Unfit(name, ContentFault::NoMeaning(fault))),
    }
}

/// The database that a file's bytes are a source of.
pub fn compiled<'a>(alloc: Global, name: &'a str, bytes: &[u8]) -> Result<Db, Refusal<'a>>
    ensures { Gives (λ db. db) result (compiled_from name.now bytes.now) }
{
    let tree = source(alloc, name, bytes)?;
    let made = meaning(alloc, name, &tree);
    // The system takes the tree's memory back at once when the program ends.
    forget(tree);
    made
}

// The draws that a file's bytes list.
fn listed<'a>(alloc: Global, name: &'a str, bytes: &[u8]) -> Result<Draws, Refusal<'a>>
    ensures given { Gives (λ draws. draws.left) result
        (draws_or_unfit name.now (listed_draws bytes.now)) }
    ensures fresh { IfOk result (λ draws. draws.taken ≡ 0) }
    ensures short { IfOk result (λ draws. 2 * length draws.left ≤ length bytes.now + 1) }
{
    match Draws::listed(alloc, bytes) {
        Ok(draws) => Ok(draws),
        Err(DrawFault::NotADraw(at)) => {
            Err(Refusal::Unfit(name, ContentFault::NoDraws(DrawFault::NotADraw(at))))
        }
        Err(DrawFault::Memory) => Err(Refusal::Memory),
    }
}

/// The text of a program that is faithful to a database, in this style and for words of this width,
/// from its beginning or from a state after a prompt. The file of this name has the database.
pub fn translated<'a>(
    alloc: Global,
    name: &'a str,
    db: &Db,
    style: Style,
    width: Width,
    from: Option<&State>,
) -> Result<Vec<u8>, Refusal<'a>>
    requires fits { IfSome from (λ s. Fits db.now s.now) }
    ensures given { Gives (λ _. db.now) result (translatable name.now width db.now) }
    ensures faithful { IfOk result (λ text. Faithful style width db.now
        (option_map (λ s. s.now) from.entry) text.items) }
{
    match translate(alloc, db, style, width, from) {
        Ok(text) => Ok(text),
        Err(TransFault::Memory) => Err(Refusal::Memory),
        Err(fault) => Err(Refusal::Unfit(name, ContentFault::NoTranslation(fault))),
    }
}

/// The draws of a play, by the bytes of their file. Where these are within their limit there are no
/// more than a position can say were taken.
pub fn draws_from<'a>(
    alloc: Global,
    source: DrawSource<'a>,
    bytes: &[u8],
) -> Result<Draws, Refusal<'a>>
    ensures given { Gives (λ draws. draws.left) result
        (draws_from (source_of source.entry) bytes.now) }
    ensures fresh { IfOk result (λ draws. draws.taken ≡ 0) }
    ensures few { IfOk result (λ draws. IsWithin (draws_load (source_of source.entry)) bytes.now
        → length draws.left ≤ TAKEN_LIMIT) }
{
    match source {
        DrawSource::Listed(name) => listed(alloc, name, bytes),
        DrawSource::Seeded(seed) => Ok(Draws::seeded(seed)),
    }
}

/// The program of a file's bytes, if it is accepted where words have this width.
#[tactic(auto, using(crate::proofs::Programs::declined))]
pub fn program<'a>(
    alloc: Global,
    name: &'a str,
    width: Width,
    bytes: &[u8],
) -> Result<Accepted, Refusal<'a>>
    ensures width { IfOk result (λ accepted. accepted.width ≡ width) }
    ensures given { Gives directives_of result (program_of_file width name.now bytes.now) }
{
    match read_program(alloc, bytes, width) {
        Ok(accepted) => Ok(accepted),
        Err(ProgramFault::Memory) => Err(Refusal::Memory),
        Err(fault) => Err(Refusal::Unfit(name, ContentFault::NoProgram(fault))),
    }
}

// The number of the directive that is the routine with this meaning, if it is one.
fn routine_meant(meaning: Option<Meaning>) -> Option<usize>
    ensures { result ≡ routine_meant meaning }
{
    match meaning {
        None => None,
        Some(meaning) => match meaning.kind {
            Kind::Routine(_) => Some(meaning.at),
            Kind::Constant(_) => None,
            Kind::Global => None,
            Kind::Array(_) => None,
        },
    }
}

// The number of the directive that is the routine of this name, in lower case, if there is one.
fn routine_at(alloc: Global, accepted: &Accepted, name: &str) -> Result<Option<usize>, Memory>
    ensures { IfOk result (λ at. at
        ≡ routine_meant (names_of accepted.now (map to_ascii_lowercase name.now))) }
{
    let name = Name::lower_of(alloc, name.as_bytes())?;
    let names = Names::of(alloc, accepted)?;
    Ok(routine_meant(names.find(name.bytes())))
}

/// At what a run of a program pauses, if it has the routine that is named. The file of this name
/// has the program.
pub fn pausing<'a>(
    alloc: Global,
    file: &'a str,
    accepted: &Accepted,
    pause: Pause<'a>,
) -> Result<Pausing, Refusal<'a>>
    requires { PauseFits (pause_of pause) }
    ensures given { Gives (λ p. p) result (pausing_of_program accepted.now.width file.now
        (directives_of accepted.now) (pause_of pause.entry)) }
    ensures range { IfOk result (λ p. InRange p) }
{
    match pause {
        Pause::Every(number) => Ok(Pausing::Every(number)),
        Pause::At(name) => match routine_at(alloc, accepted, name) {
            Ok(Some(at)) => Ok(Pausing::At(at)),
            Ok(None) => Err(Refusal::Unfit(file, ContentFault::NoRoutine(name))),
            Err(_) => Err(Refusal::Memory),
        },
    }
}

/// The position of a play of the database that a file's bytes have.
pub fn position<'a>(name: &'a str, db: &Db, bytes: &[u8]) -> Result<Saved, Refusal<'a>>
    ensures given { Gives (λ from. from) result (position_of_file name.now db.now bytes.now) }
    ensures fits { IfOk result (λ from. Fits db.now from.state) }
    ensures stands { IfOk result (λ from. CanStand db.now from.position) }
{
    match read_position(db, bytes) {
        Ok(from) => Ok(from),
        Err(fault) => Err(Refusal::Unfit(name, ContentFault::NoPosition(fault))),
    }
}

/// Where a play of the database opens: at its beginning, or at the position that the bytes of the
/// file of this name have.
pub fn opening<'a>(from: Option<&'a str>, db: &Db, bytes: &[u8]) -> Result<Saved, Refusal<'a>>
    ensures given { Gives (λ from. from) result
        (opening_of (option_copied from.entry) db.now bytes.now) }
    ensures fits { IfOk result (λ from. Fits db.now from.state) }
    ensures stands { IfOk result (λ from. CanStand db.now from.position) }
{
    match from {
        Some(name) => position(name, db, bytes),
        None => {
            start_fits();
            let _ = db.parts();
            Ok(Saved {
                state: State::start(db),
                position: Position::Fresh,
                taken: 0,
            })
        }
    }
}

/// Whether a position stands at its prompt. The file of this name has it.
pub fn test_prompt<'a>(name: &'a str, from: &Saved) -> Result<(), Refusal<'a>>
    ensures { Gives (λ _. from.now) result (at_prompt_of_file name.now from.now) }
{
    match from.position {
        Position::Line => Ok(()),
        _ => Err(Refusal::Unfit(name, ContentFault::NotAtPrompt)),
    }
}
