//! Databases whose files are loaded in several pieces, since blanks follow the text of the game.
use crate::games::T;
use crate::plays::WALK;
use crate::trying::{Case, File, NOTHING, expect};
use std::process::Abort;

// The bytes of a file, and blanks after them, so many in all.
fn filled<R: Abort + AllocGlobal>(rt: &R, mut bytes: Vec<u8>, size: usize) -> Vec<u8> {
    bytes.resize(size, b' ').expect(rt, "memory");
    bytes
}

// Expects what is expected of a case, with these bytes as its game, where the call of the shelf
// with this number fails. The first one stores the game.
fn expect_failing<R: Abort + AllocGlobal>(rt: &R, bytes: &[u8], call: u64, case: &Case<'_>) {
    let calls = [call];
    let failing = Case {
        game: File::Bytes(bytes),
        failing_loads: &calls,
        ..*case
    };
    expect(rt, &failing);
}

const UNREAD: Case<'static> = Case {
    status: 2,
    said: &["cannot read t.dat\n"],
    ..WALK
};

const NO_NUMBER: Case<'static> = Case {
    command: "check t.dat",
    status: 4,
    said: &["t.dat: no number at 0\n"],
    ..NOTHING
};

// The sizes of files, and the calls of the shelf by which each is stored and then loaded.
const CALLS: [(usize, u64); 5] = [
    (8_191, 2),
    (8_192, 3),
    (16_383, 3),
    (16_384, 4),
    (1_048_576, 130),
];

#[test]
fn filled_games_are_played(rt: HostRuntime) {
    for (size, calls) in CALLS {
        let text = T.text(rt.alloc()).expect(&rt, "memory").into_bytes();
        let bytes = filled(&rt, text, size);
        expect_failing(&rt, &bytes, calls + 1, &WALK);
        expect_failing(&rt, &bytes, calls, &UNREAD);
        expect_failing(&rt, &bytes, 2, &UNREAD);
    }
}

#[test]
fn files_with_a_fault_are_loaded_to_their_end(rt: HostRuntime) {
    for (size, calls) in CALLS {
        let fault = vec![in rt.alloc(); b'x'; 1].expect(&rt, "memory");
        let bytes = filled(&rt, fault, size);
        expect_failing(&rt, &bytes, calls + 1, &NO_NUMBER);
        expect_failing(&rt, &bytes, calls, &UNREAD);
    }
}
