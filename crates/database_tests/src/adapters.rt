//! Standard input and output, over terminals that are made here.
use crate::consoles::expect_taken;
use crate::expect;
use adv_io::{Console, ConsoleFault, Line, StdConsole, Taken};
use std::alloc::Allocator;
use std::cell::RefCell;
use std::fmt::Display;
use std::io;
use std::io::{BufRead, ErrorKind, Lines, Read};
use std::process::Abort;

// What was typed at a terminal, after which reading ends or fails.
#[derive(Drop)]
struct Keys<'a> {
    bytes: &'a [u8],
    is_broken: bool,
}

impl<'a> Read for Keys<'a> {
    fn read(&mut self, _buf: &mut [u8]) -> io::Result<usize> {
        Err(io::Error::from(ErrorKind::BrokenPipe))
    }
}

impl<'a> BufRead for Keys<'a> {
    fn fill_buf(&mut self) -> io::Result<&[u8]> {
        if self.bytes.is_empty() && self.is_broken {
            return Err(io::Error::from(ErrorKind::BrokenPipe));
        }
        Ok(self.bytes)
    }

    fn consume(&mut self, amount: usize) {
        self.bytes = &self.bytes[amount.min(self.bytes.len())..];
    }
}

// What is typed at a terminal, and whether its input or output is broken.
#[derive(Clone, Copy)]
struct Session<'a> {
    bytes: &'a [u8],
    is_broken: bool,
    is_closed: bool,
}

// A terminal, which keeps what is written to it.
#[derive(Drop)]
struct Terminal<'a> {
    session: Session<'a>,
    written: RefCell<Vec<u8>>,
}

impl<'a> Terminal<'a> {
    fn keep(&self, bytes: &[u8]) -> io::Result<()> {
        match self.written.try_borrow_mut() {
            Ok(mut written) => Ok(written.extend_from_slice(bytes)?),
            Err(_) => Err(io::Error::from(ErrorKind::ResourceBusy)),
        }
    }
}

impl<'a> Input for Terminal<'a> {
    type Reader = Keys<'a>;

    fn read_line<A: Allocator + Clone>(&self, buf: &mut String<A>) -> io::Result<usize> {
        self.reader().read_line(buf)
    }

    fn lines<A: Allocator>(&self, alloc: A) -> Lines<Keys<'a>, A> {
        self.reader().lines(alloc)
    }

    fn reader(&self) -> Keys<'a> {
        Keys {
            bytes: self.session.bytes,
            is_broken: self.session.is_broken,
        }
    }
}

impl<'a> Print for Terminal<'a> {
    fn print<D: Display + Drop>(&self, _value: D) -> io::Result<()> {
        Ok(())
    }

    fn println<D: Display + Drop>(&self, _value: D) -> io::Result<()> {
        Ok(())
    }

    fn write_all(&self, bytes: &[u8]) -> io::Result<()> {
        if self.session.is_closed {
            Err(io::Error::from(ErrorKind::BrokenPipe))
        } else {
            self.keep(bytes)
        }
    }
}

// What taking a line answers, and the line that is then lent.
type Take = (Result<Taken, ConsoleFault>, &'static [u8]);

// A session, what saying answers there, and its takes.
const SESSIONS: &[(Session<'static>, Result<(), ConsoleFault>, &[Take])] = &[
    (
        Session {
            bytes: b"Take LAMP\n\n look",
            is_broken: false,
            is_closed: true,
        },
        Err(ConsoleFault::Failed),
        &[
            (Ok(Taken::Got), b"take lamp"),
            (Ok(Taken::Got), b""),
            (Ok(Taken::Got), b" look"),
            (Ok(Taken::End), b" look"),
            (Ok(Taken::End), b" look"),
        ],
    ),
    (
        Session {
            bytes: b"ended\n",
            is_broken: false,
            is_closed: false,
        },
        Ok(()),
        &[(Ok(Taken::Got), b"ended"), (Ok(Taken::End), b"ended")],
    ),
    // A read that fails in mid-line is a failure, and neither a line nor the end of the lines.
    (
        Session {
            bytes: b"look\nget la",
            is_broken: true,
            is_closed: false,
        },
        Ok(()),
        &[
            (Ok(Taken::Got), b"look"),
            (Err(ConsoleFault::Failed), b"look"),
            (Err(ConsoleFault::Failed), b"look"),
        ],
    ),
];

// Says something at a terminal, whose lines are then taken. What was said is written there, and
// nothing else.
fn expect_session<R: Abort + AllocGlobal>(
    rt: &R,
    session: Session<'_>,
    said: Result<(), ConsoleFault>,
    takes: &[Take],
) {
    let terminal = Terminal {
        session,
        written: RefCell::new(Vec::new(rt.alloc())),
    };
    let mut console = StdConsole::new(&terminal);
    let mut line = Line::of(b"before");
    expect!(rt; console.say(b"said") == said);
    for (answer, bytes) in takes {
        expect_taken(rt, &mut console, &mut line, *answer, bytes);
    }
    drop(console);
    let written = terminal.written.into_inner();
    let wanted = if said.is_ok() {
        b"said".as_slice()
    } else {
        b"".as_slice()
    };
    expect!(rt; written.as_slice() == wanted);
}

#[test]
fn standard_input_is_taken_by_lines_until_it_ends_or_fails(rt: HostRuntime) {
    for (session, said, takes) in SESSIONS {
        expect_session(&rt, *session, *said, takes);
    }
}

fn long_line<R: Abort + AllocGlobal>(rt: &R, length: usize) -> Vec<u8> {
    let mut bytes = vec![in rt.alloc(); b'A'; length].expect(rt, "memory");
    bytes.push(b'\n').expect(rt, "memory");
    bytes
}

const KEPT: &[u8] = &[b'a'; 120];

// How many bytes a line has, and the takes of it. After a line that is too long the next take goes
// on after the bytes that were read.
const LONG_LINES: &[(usize, &[Take])] = &[
    (65_536, &[(Ok(Taken::Got), KEPT), (Ok(Taken::End), KEPT)]),
    (
        65_537,
        &[
            (Err(ConsoleFault::Failed), b"before"),
            (Ok(Taken::Got), b""),
        ],
    ),
];

#[test]
fn a_line_of_standard_input_has_a_limit(rt: HostRuntime) {
    for (length, takes) in LONG_LINES {
        let bytes = long_line(&rt, *length);
        let session = Session {
            bytes: &bytes,
            is_broken: false,
            is_closed: false,
        };
        expect_session(&rt, session, Ok(()), takes);
    }
}
