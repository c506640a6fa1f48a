//! `play F`: a database is played on the console, and the position is kept where it stops.
ghost use Rattle.std.specs.Prelude.{◌≡◌, ◌≤◌, true, Some, Ok, drop, length};
ghost use Rattle.std.specs.Option.{is_some, option_copied, option_and_then};
ghost use Rattle.adv_draws.specs.Supply.{supplied};
ghost use Rattle.adv_position.specs.Text.{Waits, position_text as text_of};
ghost use Rattle.adv_position.specs.declared.saved.TheConstants.{TAKEN_LIMIT};
ghost use Rattle.scott_requests.specs.Request.{play};
ghost use Rattle.scott_requests.specs.Views.{asked_play, source_of};
ghost use Rattle.scott_turn.specs.Positions.{CanStand};
ghost use Rattle.scott_types.specs.State.{Fits};
ghost use Rattle.scott_tool.specs.Loading.{draws_load};
ghost use Rattle.scott_tool.specs.Draws.{draws_from};
ghost use Rattle.scott_tool.specs.Position.{kept_text};
ghost use Rattle.scott_tool.specs.Refusal.{refusing};
ghost use Rattle.scott_tool.specs.Work.{kept_as, play_task};
ghost use Rattle.scott_tool.specs.Plan.{playing_with, playing_from, work};
ghost use Rattle.scott_tool.specs.Views.{texts_in, ForMain, number_of};
ghost use Rattle.scott_tool.specs.Obeying.{IsWithin, KeepsAfter, Obeys};

use crate::commands::storing::store_after;
use crate::contents::{database, draws_from, opening};
use crate::loads::Texts;
use crate::status::Status;
use adv_draws::Draws;
use adv_io::{Console, Shelf};
use adv_position::{Saved, position_text};
use scott_requests::PlayRequest;
use scott_turn::Session;
use scott_types::{Db, Position, State, Style};
use std::alloc::Global;

// Drops so many draws, or all where there are fewer.
fn drop_draws(draws: &mut Draws, count: u32)
    ensures left { draws.new.left ≡ drop count draws.old.left }
    ensures supplied { supplied draws.new ≡ supplied draws.old }
{
    let mut more = count;
    while more > 0 {
        if draws.next().is_none() {
            return;
        }
        more -= 1;
    }
}

// Stores the position of a play that waits as the file of this name.
fn store_position<S: Shelf, C: Console>(
    alloc: Global,
    db: &Db,
    state: &State,
    position: Position,
    taken: u64,
    name: &str,
    shelf: &mut S,
    console: &mut C,
) -> Status
    requires fits { Fits db.now state.now }
    requires waits { Waits db.now position }
    requires few { taken ≤ TAKEN_LIMIT }
    ensures { KeepsAfter (S.seen shelf.old) (S.seen shelf.new) (C.seen console.old)
        (C.seen console.new) (Some (record {
          name = name.now;
          bytes = text_of
              (record { state = state.now; position = position; taken = taken });
        })) (number_of result) }
{
    match position_text(alloc, db, state, position, taken as u32) {
        Ok(text) => store_after(alloc, name, &text, shelf, console),
        Err(_) => Status::NoMemory,
    }
}

// The same of a play that stopped. It has no position where the game is over.
fn keep_position<S: Shelf, C: Console>(
    alloc: Global,
    db: &Db,
    state: &State,
    position: Position,
    taken: u64,
    name: &str,
    shelf: &mut S,
    console: &mut C,
) -> Status
    requires fits { Fits db.now state.now }
    requires stands { CanStand db.now position }
    requires few { taken ≤ TAKEN_LIMIT }
    ensures { KeepsAfter (S.seen shelf.old) (S.seen shelf.new) (C.seen console.old)
        (C.seen console.new) (kept_as name.now (kept_text position state.now taken))
        (number_of result) }
{
    match position {
        Position::Fresh => Status::Done,
        Position::Over(_) => Status::Done,
        Position::Draw(_) => {
            store_position(alloc, db, state, position, taken, name, shelf, console)
        }
        Position::Line => store_position(alloc, db, state, position, taken, name, shelf, console),
    }
}

// The same, if there is such a file.
fn keep_any<S: Shelf, C: Console>(
    alloc: Global,
    db: &Db,
    session: &Session<'_>,
    draws: &Draws,
    save: Option<&str>,
    shelf: &mut S,
    console: &mut C,
) -> Status
    requires game { session.now.game.db ≡ db.now }
    requires few { supplied draws.now ≤ TAKEN_LIMIT }
    ensures { KeepsAfter (S.seen shelf.old) (S.seen shelf.new) (C.seen console.old)
        (C.seen console.new)
        (option_and_then (λ name. kept_as name
        (kept_text session.now.position session.now.state draws.now.taken))
        (option_copied save.entry)) (number_of result) }
{
    match save {
        None => Status::Done,
        Some(name) => {
            let (state, position) = (session.state(), session.position());
            let taken = draws.taken();
            keep_position(alloc, db, state, position, taken, name, shelf, console)
        }
    }
}

// Plays a database in a style from where it opens, with these draws, and keeps the position where
// it stops.
fn play_at<S: Shelf, C: Console>(
    alloc: Global,
    db: &Db,
    style: Style,
    from: Saved,
    mut draws: Draws,
    save: Option<&str>,
    shelf: &mut S,
    console: &mut C,
) -> Status
    requires fits { Fits db.now from.state }
    requires stands { CanStand db.now from.position }
    requires fresh { draws.taken ≡ 0 }
    requires few { length draws.left ≤ TAKEN_LIMIT }
    ensures { Obeys (S.seen shelf.old) (S.seen shelf.new) (C.seen console.old) (C.seen console.new)
        (Ok (play_task style db.now from draws.left (option_copied save.entry)))
        (number_of result) }
{
    drop_draws(&mut draws, from.taken);
    match Session::at(alloc, db, style, from.state, from.position) {
        Ok(mut session) => match session.play(&mut draws, console) {
            Ok(_) => keep_any(alloc, db, &session, &draws, save, shelf, console),
            Err(_) => Status::ConsoleFailed,
        },
        Err(_) => Status::NoMemory,
    }
}

// Plays a database with these draws.
fn play_with<S: Shelf, C: Console>(
    alloc: Global,
    db: &Db,
    asked: PlayRequest<'_>,
    draws: Draws,
    texts: &Texts,
    shelf: &mut S,
    console: &mut C,
) -> Status
    requires fresh { draws.taken ≡ 0 }
    requires few { length draws.left ≤ TAKEN_LIMIT }
    ensures { Obeys (S.seen shelf.old) (S.seen shelf.new) (C.seen console.old) (C.seen console.new)
        (refusing (playing_with (asked_play asked.entry) db.now (texts_in texts.now)
        draws.left)) (number_of result) }
{
    match opening(asked.from, db, &texts.position) {
        Ok(from) => play_at(
            alloc,
            db,
            asked.style,
            from,
            draws,
            asked.save,
            shelf,
            console,
        ),
        Err(refusal) => refusal.end(console),
    }
}

// Plays a database with the draws of what is asked.
fn play_from<S: Shelf, C: Console>(
    alloc: Global,
    db: &Db,
    asked: PlayRequest<'_>,
    texts: &Texts,
    shelf: &mut S,
    console: &mut C,
) -> Status
    requires { IsWithin (draws_load (source_of asked.source)) texts.now.draws.items }
    ensures { Obeys (S.seen shelf.old) (S.seen shelf.new) (C.seen console.old) (C.seen console.new)
        (refusing (playing_from (asked_play asked.entry) db.now (texts_in texts.now)
        (draws_from (source_of asked.entry.source) texts.now.draws.items))) (number_of result) }
{
    match draws_from(alloc, asked.source, &texts.draws) {
        Ok(draws) => play_with(alloc, db, asked, draws, texts, shelf, console),
        Err(refusal) => refusal.end(console),
    }
}

/// Plays a database, and keeps the position where it stops, if a file is named for it.
pub fn play<S: Shelf, C: Console>(
    alloc: Global,
    asked: PlayRequest<'_>,
    texts: &Texts,
    shelf: &mut S,
    console: &mut C,
) -> Status
    requires game { is_some texts.now.game ≡ true }
    requires draws { IsWithin (draws_load (source_of asked.source)) texts.now.draws.items }
    ensures { ForMain texts.now
        (λ texts. Obeys (S.seen shelf.old) (S.seen shelf.new)
        (C.seen console.old) (C.seen console.new)
        (refusing (work (play (asked_play asked.entry)) texts)) (number_of result)) }
{
    match database(asked.game, texts) {
        Ok(db) => play_from(alloc, db, asked, texts, shelf, console),
        Err(refusal) => refusal.end(console),
    }
}
