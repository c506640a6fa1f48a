//! `hall F N`: many sessions of a database are played from one list of lines.
ghost use Rattle.std.specs.Prelude.{◌≡◌, ◌≤◌, ℕ, true, false, List, Ok, OnOk, length};
ghost use Rattle.std.specs.Option.{is_some};
ghost use Rattle.adv_hall.specs.Alone.{no_session};
ghost use Rattle.adv_hall.specs.Laws.{all_alone};
ghost use Rattle.scott_requests.specs.Request.{hall};
ghost use Rattle.scott_types.specs.Database.{Database};
ghost use Rattle.scott_tool.specs.Refusal.{refusing};
ghost use Rattle.scott_tool.specs.Hall.{AnswersLine, HearsNext};
ghost use Rattle.scott_tool.specs.Work.{hall_task};
ghost use Rattle.scott_tool.specs.Plan.{work};
ghost use Rattle.scott_tool.specs.Views.{ForMain, number_of};
ghost use Rattle.scott_tool.specs.Obeying.{ObeysAlone};

use crate::contents::database;
use crate::loads::Texts;
use crate::status::Status;
use adv_hall::laws::{each_hears_alone, hall_begins_alone, hall_goes_on_alone};
use adv_hall::{HALL_LIMIT, Hall, address_in};
use adv_io::{Console, ConsoleFault, Line, Taken};
use scott_types::Db;
use std::alloc::Global;

fn no_session<'a>() -> &'a [u8]
    ensures { result.now ≡ no_session }
{
    b"No such session.\n"
}

// Gives a line to its session, or says that there is none.
fn answer<C: Console>(
    count: u8,
    hall: &mut Hall<'_>,
    line: &Line,
    console: &mut C,
) -> Result<(), ConsoleFault>
    requires seats { length hall.old.seats ≡ count }
    requires whole { hall.old.broken ≡ false }
    ensures answers { (db : Database) (before : List (List ℕ))
        → hall.old.seats ≡ all_alone db count before
        → AnswersLine (C.seen console.old) (C.seen console.new) db count before line.now result
        hall.new.seats }
    ensures seats { length hall.new.seats ≡ count }
    ensures whole { OnOk result (hall.new.broken ≡ false) }
{
    each_hears_alone();
    hall_goes_on_alone();
    match address_in(count, line) {
        Some(address) => match hall.line(address.session, &address.line, console) {
            Ok(_) => Ok(()),
            Err(fault) => Err(fault),
        },
        None => console.say(no_session()),
    }
}

// Takes the next line and answers it, or finds that no line is left.
fn hear_next<C: Console>(
    count: u8,
    hall: &mut Hall<'_>,
    line: &mut Line,
    console: &mut C,
) -> Result<Taken, ConsoleFault>
    requires seats { length hall.old.seats ≡ count }
    requires whole { hall.old.broken ≡ false }
    ensures hears { (db : Database) (before : List (List ℕ))
        → hall.old.seats ≡ all_alone db count before
        → HearsNext (C.seen console.old) (C.seen console.new) db count before result
        hall.new.seats }
    ensures seats { length hall.new.seats ≡ count }
    ensures whole { OnOk result (hall.new.broken ≡ false) }
{
    match console.take(line) {
        Ok(Taken::End) => Ok(Taken::End),
        Ok(Taken::Got) => match answer(count, hall, line, console) {
            Ok(()) => Ok(Taken::Got),
            Err(fault) => Err(fault),
        },
        Err(fault) => Err(fault),
    }
}

// Plays so many sessions of a database until no line is left.
fn play_sessions<C: Console>(alloc: Global, db: &Db, count: u8, console: &mut C) -> Status
    requires some { 1 ≤ count }
    requires few { count ≤ HALL_LIMIT }
    ensures { ObeysAlone (C.seen console.old) (C.seen console.new) (Ok (hall_task db.now count))
        (number_of result) }
{
    hall_begins_alone();
    let mut hall = match Hall::open(alloc, db, count) {
        Ok(hall) => hall,
        Err(_) => return Status::NoMemory,
    };
    let mut line = Line::of(&[]);
    loop {
        match hear_next(count, &mut hall, &mut line, console) {
            Ok(Taken::Got) => {}
            Ok(Taken::End) => return Status::Done,
            Err(_) => return Status::ConsoleFailed,
        }
    }
}

/// Plays so many sessions of a database, 1 to 64.
pub fn play_hall<C: Console>(
    alloc: Global,
    game: &str,
    count: u8,
    texts: &Texts,
    console: &mut C,
) -> Status
    requires game { is_some texts.now.game ≡ true }
    requires some { 1 ≤ count }
    requires few { count ≤ HALL_LIMIT }
    ensures { ForMain texts.now (λ texts. ObeysAlone (C.seen console.old) (C.seen console.new)
        (refusing (work (hall game.now count) texts)) (number_of result)) }
{
    match database(game, texts) {
        Ok(db) => play_sessions(alloc, db, count, console),
        Err(refusal) => refusal.end(console),
    }
}
