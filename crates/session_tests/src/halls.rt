//! Halls of sessions: what is said on lines for one session or another, and for none.
use crate::databases::{HILL, SHORT, database};
use crate::expect;
use adv_hall::{Hall, address_in};
use adv_io::{Line, MemoryConsole, say_unless_empty};
use scott_types::Db;
use std::process::Abort;

// A hall of two on a database, the lines that it is given, what is said, and in which room the
// first session stands then.
#[derive(Clone, Copy)]
struct Case {
    database: &'static [u8],
    lines: [&'static [u8]; 4],
    said: &'static [u8],
    room: u8,
}

const TWO: u8 = 2;

const CASES: [Case; 3] = [
    Case {
        database: HILL,
        lines: [b"1 n", b"2 go south", b"1 xyzzy", b"3 n"],
        said: b"[1]
I'm in a hall
Obvious exits: North.

I can also see: Rug

Tell me what to do ? O.K.
I'm on a hill
Obvious exits: South.

Tell me what to do ? 
[2]
I'm in a hall
Obvious exits: North.

I can also see: Rug

Tell me what to do ? I can't go in that direction. 
Tell me what to do ? 
[1]
\"xyzzy\" is a word I don't know. 
Tell me what to do ? 
No such session.
",
        room: 2,
    },
    Case {
        database: SHORT,
        lines: [b"1 look", b"1 n", b"2", b""],
        said: b"[1]
I'm in a hall
Obvious exits: North.

I can also see: Rug

Tell me what to do ? The game is now over.

[1]

[2]
I'm in a hall
Obvious exits: North.

I can also see: Rug

Tell me what to do ? 
Tell me what to do ? 
No such session.
",
        room: 1,
    },
    Case {
        database: HILL,
        lines: [b"01 n", b"  1  n", b"1n", b"0 n"],
        said: b"No such session.
[1]
I'm in a hall
Obvious exits: North.

I can also see: Rug

Tell me what to do ? O.K.
I'm on a hill
Obvious exits: South.

Tell me what to do ? 
No such session.
No such session.
",
        room: 2,
    },
];

// Gives a line to the session that it names.
fn tell<R: Abort>(rt: &R, hall: &mut Hall, line: &[u8], console: &mut MemoryConsole) {
    let Some(address) = address_in(TWO, &Line::of(line)) else {
        let said = say_unless_empty(b"No such session.\n", console);
        expect!(rt; said.is_ok());
        return;
    };
    expect!(rt; !hall.broken());
    expect!(rt; address.session as usize <= hall.count());
    let ending = hall.line(address.session, &address.line, console);
    expect!(rt; ending.is_ok());
}

fn expect_case<R: Abort + AllocGlobal>(rt: &R, db: &Db, case: &Case) {
    let alloc = rt.alloc();
    let mut hall = Hall::open(alloc, db, TWO).expect(rt, "memory");
    let mut console = MemoryConsole::new(alloc, Vec::new(alloc), Vec::new(alloc), 4096).expect(
        rt, "memory",
    );
    for line in &case.lines {
        tell(rt, &mut hall, line, &mut console);
    }
    expect!(rt; console.said() == case.said);
    expect!(rt; hall.count() == 2);
    expect!(rt; hall.state(1).room == case.room);
}

#[test]
fn sessions_play_apart(rt: HostRuntime) {
    expect_case(&rt, &database(&rt, CASES[0].database), &CASES[0]);
}

#[test]
fn lines_after_the_end_are_dropped(rt: HostRuntime) {
    expect_case(&rt, &database(&rt, CASES[1].database), &CASES[1]);
}

#[test]
fn first_words_name_sessions(rt: HostRuntime) {
    expect_case(&rt, &database(&rt, CASES[2].database), &CASES[2]);
}
