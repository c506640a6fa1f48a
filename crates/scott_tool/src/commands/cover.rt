//! `cover F`: a database is played on the console, and then it is said which lines were tried.
ghost use Rattle.std.specs.Prelude.{◌≡◌, ◌≤◌, ◌<◌, true, Ok, IfOk, length};
ghost use Rattle.std.specs.Option.{is_some};
ghost use Rattle.adv_coverage.specs.Report.{report_text};
ghost use Rattle.scott_requests.specs.Request.{cover};
ghost use Rattle.scott_requests.specs.Views.{asked_cover, source_of};
ghost use Rattle.scott_tool.specs.Cover.{first_counts};
ghost use Rattle.scott_tool.specs.Draws.{draws_from};
ghost use Rattle.scott_tool.specs.Obeying.{ObeysAlone, SaysReport};
ghost use Rattle.scott_tool.specs.Plan.{covering_from, work};
ghost use Rattle.scott_tool.specs.Refusal.{refusing};
ghost use Rattle.scott_tool.specs.Views.{ForMain, number_of};
ghost use Rattle.scott_tool.specs.Work.{cover_task};

use crate::contents::{database, draws_from};
use crate::loads::Texts;
use crate::refusals::concluded;
use crate::status::Status;
use adv_coverage::report;
use adv_draws::Draws;
use adv_io::{Console, Memory};
use scott_requests::{CoverRequest, DrawSource};
use scott_turn::Session;
use scott_types::{Db, Style};
use std::alloc::Global;

// How often each of the first lines was tried.
fn counts_of(alloc: Global, session: &Session<'_>, lines: u16) -> Result<Vec<u64>, Memory>
    requires { lines ≤ length session.now.game.db.actions }
    ensures counts { IfOk result (λ counts. counts.items ≡ first_counts lines session.now.tried) }
    ensures count { IfOk result (λ counts. length counts.items ≡ lines) }
{
    let mut counts = Vec::new(alloc);
    for line in 0..lines {
        counts.push(session.tried(line))?;
    }
    Ok(counts)
}

// The report on a session of a game of so many lines.
fn report_on(alloc: Global, session: &Session<'_>, lines: u16) -> Result<Vec<u8>, Memory>
    requires there { lines ≤ length session.now.game.db.actions }
    requires few { lines ≤ 5000 }
    ensures { IfOk result (λ text.
        text.items ≡ report_text (first_counts lines session.now.tried)) }
{
    let counts = counts_of(alloc, session, lines)?;
    report(alloc, &counts)
}

// Says the report on a session.
fn say_report<C: Console>(
    alloc: Global,
    session: &Session<'_>,
    lines: u16,
    console: &mut C,
) -> Status
    requires there { lines ≤ length session.now.game.db.actions }
    requires few { lines ≤ 5000 }
    ensures { SaysReport (C.seen console.old) (C.seen console.new)
        (report_text (first_counts lines session.now.tried)) 0 (number_of result) }
{
    match report_on(alloc, session, lines) {
        Ok(text) => concluded(console.say(&text), Status::Done),
        Err(_) => Status::NoMemory,
    }
}

// Plays a database in a style with these draws, and says which lines were tried.
fn cover_with<C: Console>(
    alloc: Global,
    db: &Db,
    style: Style,
    mut draws: Draws,
    console: &mut C,
) -> Status
    ensures { ObeysAlone (C.seen console.old) (C.seen console.new)
        (Ok (cover_task style db.now draws.left)) (number_of result) }
{
    let lines = db.actions().len() as u16;
    match Session::open(alloc, db, style) {
        Ok(mut session) => match session.play(&mut draws, console) {
            Ok(_) => say_report(alloc, &session, lines, console),
            Err(_) => Status::ConsoleFailed,
        },
        Err(_) => Status::NoMemory,
    }
}

// The same with the draws of this source.
fn cover_from<C: Console>(
    alloc: Global,
    db: &Db,
    source: DrawSource<'_>,
    style: Style,
    texts: &Texts,
    console: &mut C,
) -> Status
    ensures { ObeysAlone (C.seen console.old) (C.seen console.new)
        (refusing (covering_from style db.now
        (draws_from (source_of source.entry) texts.now.draws.items))) (number_of result) }
{
    match draws_from(alloc, source, &texts.draws) {
        Ok(draws) => cover_with(alloc, db, style, draws, console),
        Err(refusal) => refusal.end(console),
    }
}

/// Plays a database, and says which of its lines were tried.
pub fn cover<C: Console>(
    alloc: Global,
    asked: CoverRequest<'_>,
    texts: &Texts,
    console: &mut C,
) -> Status
    requires { is_some texts.now.game ≡ true }
    ensures { ForMain texts.now (λ texts. ObeysAlone (C.seen console.old) (C.seen console.new)
        (refusing (work (cover (asked_cover asked.entry)) texts)) (number_of result)) }
{
    match database(asked.game, texts) {
        Ok(db) => cover_from(alloc, db, asked.source, asked.style, texts, console),
        Err(refusal) => refusal.end(console),
    }
}
