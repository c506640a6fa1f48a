//! Small games.
use scott_types::{Action, Db, Header, Item, Parts, Room, Text, Trailer, Word};
use std::alloc::Global;
use std::process::Abort;

const HEADER: Header = Header {
    unused: 0,
    carry: 0,
    start: 0,
    treasures: 0,
    length: 3,
    light: 0,
    home: 0,
};

// A line of zeros.
const EMPTY: Action = Action {
    vocab: 0,
    conds: [0; 5],
    pairs: [0; 2],
};

const TRAILER: Trailer = Trailer {
    version: 0,
    adventure: 0,
    third: 0,
};

fn empty_text(alloc: Global) -> Text {
    Text::of(Vec::new(alloc))
}

// An empty comment for each line.
fn comments<R: Abort + AllocGlobal>(rt: &R, actions: &[Action]) -> Vec<Text> {
    let mut comments = Vec::new(rt.alloc());
    for _ in actions {
        comments.push(empty_text(rt.alloc())).expect(rt, "memory");
    }
    comments
}

// These lines, one entry in each other list, and each text empty.
fn parts<R: Abort + AllocGlobal>(rt: &R, actions: &[Action]) -> Parts {
    let alloc = rt.alloc();
    let word = Word {
        verb: empty_text(alloc),
        noun: empty_text(alloc),
    };
    let room = Room {
        exits: [0; 6],
        text: empty_text(alloc),
    };
    let item = Item {
        text: empty_text(alloc),
        place: 0,
    };
    Parts {
        header: HEADER,
        actions: Vec::from_slice(alloc, actions).expect(rt, "memory"),
        words: vec![in alloc; word].expect(rt, "memory"),
        rooms: vec![in alloc; room].expect(rt, "memory"),
        messages: vec![in alloc; empty_text(alloc)].expect(rt, "memory"),
        items: vec![in alloc; item].expect(rt, "memory"),
        comments: comments(rt, actions),
        trailer: TRAILER,
    }
}

/// A database with these lines, a comment each, and one entry in each other list.
pub fn with_lines<R: Abort + AllocGlobal>(rt: &R, actions: &[Action]) -> Db {
    Db::new(parts(rt, actions)).ok().expect(rt, "a game")
}

/// A database with one entry in each list, and a line of zeros.
pub fn smallest<R: Abort + AllocGlobal>(rt: &R) -> Db {
    with_lines(rt, &[EMPTY])
}
