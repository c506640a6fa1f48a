//! The files that a request loads, before any of them is read.
ghost use Rattle.std.specs.Prelude.{◌≡◌, ◌≤◌, length, None, Some, option_map, IfOk, IfSome};
ghost use Rattle.std.specs.Option.{is_some, option_copied};
ghost use Rattle.scott_files.specs.Loading.{Reads};
ghost use Rattle.scott_requests.specs.Views.{request_of, source_of};
ghost use Rattle.scott_tool.specs.Loading.{database_load, source_load, program_load, main_load, main_of, draws_of, position_of, draws_load, position_load, has_game, IsLoad, loaded, later_texts_of, texts_of};
ghost use Rattle.scott_tool.specs.Views.{load_of, texts_with, IsMain, HasMain};
ghost use Rattle.scott_tool.specs.Obeying.{Fetches, FetchesAs, TextsFit};

use crate::refusals::Refusal;
use adv_io::{Shelf, ShelfFault};
use inform_reader::PROGRAM_LIMIT;
use scott_files::load_db;
use scott_format::{DATABASE_LIMIT, FormatFault};
use scott_requests::{DrawSource, Request};
use scott_types::Db;
use std::alloc::Global;

/// The most bytes of a source.
pub const SOURCE_LIMIT: usize = 8_388_608;

/// The most bytes of a file of draws.
pub const DRAWS_LIMIT: usize = 1_048_576;

/// The most bytes of a file that has a position.
pub const POSITION_LIMIT: usize = 65_536;

/// A file that is to be loaded: its name, and the most bytes that it may have.
#[derive(Clone, Copy)]
pub struct Load<'a> {
    pub name: &'a str,
    pub limit: usize,
}

/// What a request loads. Where a file isn't loaded there are no bytes.
#[derive(Drop)]
pub struct Texts {
    /// What the main file reads as, where it is to be a database. Its bytes aren't kept then.
    pub game: Option<Result<Db, FormatFault>>,
    pub main: Vec<u8>,
    pub draws: Vec<u8>,
    pub position: Vec<u8>,
}

fn source_load(name: &str) -> Load<'_>
    ensures { load_of result ≡ source_load name.now }
{
    Load {
        name,
        limit: SOURCE_LIMIT,
    }
}

fn program_load(name: &str) -> Load<'_>
    ensures { load_of result ≡ program_load name.now }
{
    Load {
        name,
        limit: PROGRAM_LIMIT,
    }
}

fn draws_load(source: DrawSource<'_>) -> Option<Load<'_>>
    ensures { option_map load_of result ≡ draws_load (source_of source.entry) }
{
    match source {
        DrawSource::Listed(name) => Some(Load {
            name,
            limit: DRAWS_LIMIT,
        }),
        DrawSource::Seeded(_) => None,
    }
}

fn position_load(name: &str) -> Load<'_>
    ensures { load_of result ≡ position_load name.now }
{
    Load {
        name,
        limit: POSITION_LIMIT,
    }
}

// The position that a play goes on from, if there is one.
fn opening_load(from: Option<&str>) -> Option<Load<'_>>
    ensures { option_map load_of result ≡ option_map position_load (option_copied from.entry) }
{
    match from {
        Some(name) => Some(position_load(name)),
        None => None,
    }
}

// What a request loads: its main file, which is the database of this name or another file, then its
// draws, and then the position that it goes on from.
#[derive(Clone, Copy)]
struct Loads<'a> {
    game: Option<&'a str>,
    main: Option<Load<'a>>,
    draws: Option<Load<'a>>,
    position: Option<Load<'a>>,
}

// No file but a database.
fn only_game(name: &str) -> Loads<'_>
    ensures game { option_copied result.game ≡ Some name.now }
    ensures draws { option_map load_of result.draws ≡ None }
    ensures position { option_map load_of result.position ≡ None }
{
    Loads {
        game: Some(name),
        main: None,
        draws: None,
        position: None,
    }
}

// No file but a main one that is no database.
fn only(load: Load<'_>) -> Loads<'_>
    ensures game { option_copied result.game ≡ None }
    ensures main { option_map load_of result.main ≡ Some (load_of load.entry) }
    ensures draws { option_map load_of result.draws ≡ None }
    ensures position { option_map load_of result.position ≡ None }
{
    Loads {
        game: None,
        main: Some(load),
        draws: None,
        position: None,
    }
}

// What a request loads.
fn loads_of(request: Request<'_>) -> Loads<'_>
    ensures game { is_some (option_copied result.game) ≡ has_game (request_of request.entry) }
    ensures main { main_load (option_copied result.game) (option_map load_of result.main)
        ≡ main_of (request_of request.entry) }
    ensures draws { option_map load_of result.draws ≡ draws_of (request_of request.entry) }
    ensures position { option_map load_of result.position ≡ position_of (request_of request.entry) }
{
    match request {
        Request::Check(game) => only_game(game),
        Request::Compile(source, _) => only(source_load(source)),
        Request::Decompile(game, _) => only_game(game),
        Request::Play(play) => Loads {
            game: Some(play.game),
            main: None,
            draws: draws_load(play.source),
            position: opening_load(play.from),
        },
        Request::Translate(translation) => only_game(translation.game),
        Request::Run(run) => Loads {
            game: None,
            main: Some(program_load(run.program)),
            draws: draws_load(run.source),
            position: None,
        },
        Request::Step(asked) => Loads {
            game: None,
            main: Some(program_load(asked.run.program)),
            draws: draws_load(asked.run.source),
            position: None,
        },
        Request::Calls(run) => Loads {
            game: None,
            main: Some(program_load(run.program)),
            draws: draws_load(run.source),
            position: None,
        },
        Request::Demo(_) => Loads {
            game: None,
            main: None,
            draws: None,
            position: None,
        },
        Request::Hall(game, _) => only_game(game),
        Request::Cover(cover) => Loads {
            game: Some(cover.game),
            main: None,
            draws: draws_load(cover.source),
            position: None,
        },
        Request::Transfer(transfer) => Loads {
            game: Some(transfer.translation.game),
            main: None,
            draws: None,
            position: Some(position_load(transfer.from)),
        },
        Request::Simplify(asked) => only(program_load(asked.program)),
    }
}

// The bytes of a file.
fn load_file<'a, S: Shelf>(
    alloc: Global,
    load: Load<'a>,
    shelf: &mut S,
) -> Result<Vec<u8>, Refusal<'a>>
    ensures fetched { Fetches (λ bytes. bytes.items) (S.seen shelf.old) (S.seen shelf.new)
        (λ other. load_of load.entry ≡ other)
        (λ files. loaded files (Some (load_of load.entry))) result }
    ensures within { IfOk result (λ bytes. length bytes.items ≤ load.entry.limit) }
{
    match shelf.load(alloc, load.name, load.limit) {
        Ok(bytes) => Ok(bytes),
        Err(ShelfFault::Absent) => Err(Refusal::Unread(load.name)),
        Err(ShelfFault::Failed) => Err(Refusal::Unread(load.name)),
        Err(ShelfFault::TooLong(_)) => Err(Refusal::TooLong(load.name, load.limit)),
        Err(ShelfFault::Memory) => Err(Refusal::Memory),
    }
}

// The bytes of a file; where none is to be loaded, none.
fn load_any<'a, S: Shelf>(
    alloc: Global,
    asked: Option<Load<'a>>,
    shelf: &mut S,
) -> Result<Vec<u8>, Refusal<'a>>
    ensures fetched { Fetches (λ bytes. bytes.items) (S.seen shelf.old) (S.seen shelf.new)
        (λ load. option_map load_of asked.entry ≡ Some load)
        (λ files. loaded files (option_map load_of asked.entry)) result }
    ensures within { IfOk result (λ bytes. IfSome (option_map load_of asked.entry)
        (λ load. length bytes.items ≤ load.limit)) }
{
    match asked {
        Some(load) => load_file(alloc, load, shelf),
        None => Ok(Vec::new(alloc)),
    }
}

// What a database's file reads as.
fn load_game<'a, S: Shelf>(
    alloc: Global,
    name: &'a str,
    shelf: &mut S,
) -> Result<Result<Db, FormatFault>, Refusal<'a>>
    ensures { FetchesAs Reads (λ _ bytes. bytes) (S.seen shelf.old) (S.seen shelf.new)
        (λ load. database_load name.now ≡ load)
        (λ files. loaded files (Some (database_load name.now))) result }
{
    match load_db(alloc, name, shelf) {
        Ok(read) => Ok(read),
        Err(ShelfFault::Absent) => Err(Refusal::Unread(name)),
        Err(ShelfFault::Failed) => Err(Refusal::Unread(name)),
        Err(ShelfFault::TooLong(_)) => Err(Refusal::TooLong(name, DATABASE_LIMIT)),
        Err(ShelfFault::Memory) => Err(Refusal::Memory),
    }
}

// What the database reads as, if there is one, and else the bytes of the main file.
fn load_main<'a, S: Shelf>(
    alloc: Global,
    game: Option<&'a str>,
    main: Option<Load<'a>>,
    shelf: &mut S,
) -> Result<(Option<Result<Db, FormatFault>>, Vec<u8>), Refusal<'a>>
    ensures fetched { FetchesAs (λ p. IsMain p.0 p.1.items) (λ _ bytes. bytes)
        (S.seen shelf.old) (S.seen shelf.new)
        (λ load. main_load (option_copied game.entry) (option_map load_of main.entry) ≡ Some load)
        (λ files. loaded files
        (main_load (option_copied game.entry) (option_map load_of main.entry))) result }
    ensures game { IfOk result (λ p. is_some p.0 ≡ is_some (option_copied game.entry)) }
{
    match game {
        Some(name) => {
            let read = load_game(alloc, name, shelf)?;
            Ok((Some(read), Vec::new(alloc)))
        }
        None => {
            let bytes = load_any(alloc, main, shelf)?;
            Ok((None, bytes))
        }
    }
}

// Loads the draws and the position of a request.
fn load_later<'a, S: Shelf>(
    alloc: Global,
    request: Request<'a>,
    loads: Loads<'a>,
    shelf: &mut S,
) -> Result<(Vec<u8>, Vec<u8>), Refusal<'a>>
    requires draws { option_map load_of loads.draws ≡ draws_of (request_of request) }
    requires position { option_map load_of loads.position ≡ position_of (request_of request) }
    ensures fetched { Fetches (λ p. (p.0.items, p.1.items)) (S.seen shelf.old) (S.seen shelf.new)
        (IsLoad (request_of request.entry))
        (λ files. later_texts_of files (request_of request.entry)) result }
    ensures within { IfOk result (λ p. IfSome (draws_of (request_of request.entry))
        (λ load. length p.0.items ≤ load.limit)) }
{
    let draws = load_any(alloc, loads.draws, shelf)?;
    let position = load_any(alloc, loads.position, shelf)?;
    Ok((draws, position))
}

/// Loads all files of a request.
pub fn load_texts<'a, S: Shelf>(
    alloc: Global,
    request: Request<'a>,
    shelf: &mut S,
) -> Result<Texts, Refusal<'a>>
    ensures fetched { FetchesAs HasMain texts_with (S.seen shelf.old) (S.seen shelf.new)
        (IsLoad (request_of request.entry))
        (λ files. texts_of files (request_of request.entry)) result }
    ensures fits { IfOk result (λ texts. TextsFit (request_of request.entry) texts) }
{
    let loads = loads_of(request);
    let (game, main) = load_main(alloc, loads.game, loads.main, shelf)?;
    let (draws, position) = load_later(alloc, request, loads, shelf)?;
    Ok(Texts {
        game,
        main,
        draws,
        position,
    })
}
