//! Positions: their texts, what a session does that goes on from one, and which line is bad.
use crate::databases::{DRAWN, HILL, database};
use crate::expect;
use adv_draws::Draws;
use adv_io::{Line, MemoryConsole};
use adv_position::{PositionFault, Saved, position_text, read_position};
use scott_turn::Session;
use scott_types::{Db, Ending, Position, Style};
use std::process::Abort;

// The game of the hall and the hill, from the hall to the hill.
const ON_THE_HILL: &[u8] = b"position 1
at line
taken 0
room 2 saved 0 light -1 counter 0 redraw 0
rooms 0 0 0 0 0 0 0 0 0 0 0 0 0 0 0 0
counters 0 0 0 0 0 0 0 0 0 0 0 0 0 0 0 0
flags 0 0 0 0 0 0 0 0 0 0 0 0 0 0 0 0 0 0 0 0 0 0 0 0 0 0 0 0 0 0 0 0
places 1
";

// The game with automatic heads, which waits for the draw of its last one.
const AT_A_DRAW: &[u8] = b"position 1
at draw 4
taken 2
room 1 saved 0 light -1 counter 0 redraw 0
rooms 0 0 0 0 0 0 0 0 0 0 0 0 0 0 0 0
counters 0 0 0 0 0 0 0 0 0 0 0 0 0 0 0 0
flags 0 0 0 0 0 0 0 0 0 0 0 0 0 0 0 0 0 0 0 0 0 0 0 0 0 0 0 0 0 0 0 0
places 1
";

fn console<R: Abort + AllocGlobal>(rt: &R) -> MemoryConsole {
    let alloc = rt.alloc();
    MemoryConsole::new(alloc, Vec::new(alloc), Vec::new(alloc), 4096).expect(rt, "memory")
}

// The position of a session is this text.
fn expect_text<R: Abort + AllocGlobal>(
    rt: &R,
    db: &Db,
    session: &Session,
    taken: u64,
    text: &[u8],
) {
    expect!(rt; session.state().fits(db));
    expect!(rt; taken <= 1_000_000);
    let written = match session.position() {
        Position::Line => {
            position_text(
                rt.alloc(),
                db,
                session.state(),
                Position::Line,
                taken as u32,
            )
        }
        Position::Draw(head) if scott_turn::is_automatic(db, head) => {
            let position = Position::Draw(head);
            position_text(rt.alloc(), db, session.state(), position, taken as u32)
        }
        _ => return expect!(rt; false, "a play that waits"),
    };
    let written = written.expect(rt, "memory");
    expect!(rt; written.as_slice() == text);
}

// A session that goes on from a text, after as many draws as it says were taken and with a line or
// none, says this.
fn expect_going_on<R: Abort + AllocGlobal>(
    rt: &R,
    db: &Db,
    text: &[u8],
    draws: &mut Draws,
    line: Option<&Line>,
    said: &[u8],
) {
    let Ok(saved) = read_position(db, text) else {
        return expect!(rt; false, "a position");
    };
    for _ in 0..saved.taken {
        let _dropped = draws.next();
    }
    let Saved {
        state,
        position,
        ..
    } = saved;
    let opened = Session::at(rt.alloc(), db, Style::plain(), state, position);
    let mut session = opened.expect(rt, "memory");
    let mut console = console(rt);
    let ending = session.hear(draws, line, &mut console);
    expect!(rt; ending == Ok(Ending::NeedsLine));
    expect!(rt; console.said() == said);
}

#[test]
fn a_line_is_waited_for(rt: HostRuntime) {
    let db = database(&rt, HILL);
    let mut console = console(&rt);
    let mut draws = Draws::seeded(1);
    let mut session = Session::open(rt.alloc(), &db, Style::plain()).expect(&rt, "memory");
    let line = Line::of(b"n");
    let ending = session.hear(&mut draws, Some(&line), &mut console);
    expect!(&rt; ending == Ok(Ending::NeedsLine));
    expect_text(&rt, &db, &session, draws.taken(), ON_THE_HILL);
    let line = Line::of(b"go south");
    expect_going_on(
        &rt,
        &db,
        ON_THE_HILL,
        &mut Draws::seeded(1),
        Some(&line),
        b"O.K.
I'm in a hall
Obvious exits: North.

I can also see: Rug

Tell me what to do ? ",
    );
}

#[test]
fn a_draw_is_waited_for(rt: HostRuntime) {
    let db = database(&rt, DRAWN);
    let mut console = console(&rt);
    let mut draws = Draws::listed(rt.alloc(), b"1 100").expect(&rt, "draws");
    let mut session = Session::open(rt.alloc(), &db, Style::plain()).expect(&rt, "memory");
    let ending = session.hear(&mut draws, None, &mut console);
    expect!(&rt; ending == Ok(Ending::NeedsDraw));
    expect_text(&rt, &db, &session, draws.taken(), AT_A_DRAW);
    let mut more = Draws::listed(rt.alloc(), b"1 100 100").expect(&rt, "draws");
    let said = b"three\n\nTell me what to do ? ";
    expect_going_on(&rt, &db, AT_A_DRAW, &mut more, None, said);
}

// ---- bad lines

// The line of the first text in whose place others stand, what stands there, and the line that is
// bad then.
type Broken = (usize, &'static [u8], u8);

const BROKEN: [Broken; 26] = [
    (1, b"position 2", 1),
    (1, b"Position 1", 1),
    (1, b"position 1 ", 1),
    (1, b"position 1\r", 1),
    (1, b"", 1),
    (2, b"at  line", 2),
    (2, b"at draw 0", 2),
    (2, b"at draw 65536", 2),
    (2, b"at the line", 2),
    (3, b"taken 00", 3),
    (3, b"taken +0", 3),
    (3, b"taken 1000001", 3),
    (3, b"taken", 3),
    (4, b"room 3 saved 0 light -1 counter 0 redraw 0", 4),
    (4, b"room 2 saved 0 light 0 counter 0 redraw 0", 4),
    (4, b"room 2 saved 0 light -1 counter 32768 redraw 0", 4),
    (4, b"room 2 saved 0 light -1 counter 0 redraw 2", 4),
    (5, b"rooms 0 0 0 0 0 0 0 0 0 0 0 0 0 0 0", 5),
    (5, b"rooms 0 0 0 0 0 0 0 0 0 0 0 0 0 0 0 0 0", 5),
    (6, b"counters 0 0 0 0 0 0 0 0 0 0 0 0 0 0 0 -2", 6),
    (
        7,
        b"flags 0 0 0 0 0 0 0 0 0 0 0 0 0 0 0 0 0 0 0 0 0 0 0 0 0 0 0 0 0 0 0 2",
        7,
    ),
    (8, b"places 256", 8),
    (8, b"places -1", 8),
    (8, b"places 1 1", 8),
    (8, b"places", 8),
    (8, b"places 1\n", 9),
];

// The first text with other bytes in the place of a line.
fn with_line<R: Abort + AllocGlobal>(rt: &R, line: usize, bytes: &[u8]) -> Vec<u8> {
    let mut text = Vec::new(rt.alloc());
    let mut old_lines = ON_THE_HILL.split(|byte| *byte == b'\n');
    for number in 1..9 {
        let old = old_lines.next().unwrap_or(b"");
        let new = if number == line { bytes } else { old };
        expect!(rt; text.extend_from_slice(new).is_ok());
        expect!(rt; text.push(b'\n').is_ok());
    }
    text
}

// The line of a text that is bad, or 0 for none.
fn bad_line(db: &Db, text: &[u8]) -> u8 {
    match read_position(db, text) {
        Ok(_) => 0,
        Err(PositionFault(line)) => line,
    }
}

#[test]
fn bad_lines_are_named(rt: HostRuntime) {
    let db = database(&rt, HILL);
    for (line, bytes, bad) in BROKEN {
        let text = with_line(&rt, line, bytes);
        expect!(&rt; bad_line(&db, text.as_slice()) == bad);
    }
    expect!(&rt; bad_line(&db, with_line(&rt, 9, b"").as_slice()) == 0);
}

// How many lines are whole where a text is cut.
#[test]
fn lines_that_are_cut_are_named(rt: HostRuntime) {
    let db = database(&rt, HILL);
    let mut line = 1;
    for (size, byte) in ON_THE_HILL.iter().enumerate() {
        expect!(&rt; bad_line(&db, &ON_THE_HILL[..size]) == line);
        if *byte == b'\n' && line < 9 {
            line += 1;
        }
    }
    expect!(&rt; bad_line(&db, ON_THE_HILL) == 0);
}
