//! Sessions that are handed their lines.
use crate::expect;
use crate::games::T;
use crate::trying::{NOTHING, console_of};
use adv_draws::Draws;
use adv_io::Line;
use scott_format::{DATABASE_LIMIT, read_db};
use scott_turn::Session;
use scott_types::{Db, Ending, Position, Style};
use std::process::Abort;

// The database of a game.
fn database<R: Abort + AllocGlobal>(rt: &R) -> Db {
    let text = T.text(rt.alloc()).expect(rt, "memory");
    expect!(rt; text.len() <= DATABASE_LIMIT);
    read_db(rt.alloc(), text.as_bytes()).expect(rt, "a database")
}

// A session that is handed its lines says what a play of them says, and takes none from its
// console.
#[test]
fn lines_are_handed_in(rt: HostRuntime) {
    let db = database(&rt);
    let mut console = console_of(&rt, &NOTHING);
    let mut draws = Draws::seeded(1);
    let mut session = Session::open(rt.alloc(), &db, Style::plain()).expect(&rt, "memory");
    let first = session
        .hear(&mut draws, None, &mut console)
        .expect(&rt, "the console");
    expect!(rt; first == Ending::NeedsLine);
    expect!(rt; console.said().len() == 79);
    let line = Line::of(b"GO NORTH");
    let second = session.hear(&mut draws, Some(&line), &mut console);
    expect!(rt; second == Ok(Ending::NeedsLine));
    expect!(rt; console.said().len() == 142);
    expect!(rt; session.state().room == 2);
    expect!(rt; session.position() == Position::Line);
    expect!(rt; draws.taken() == 0);
}
