//! What no clause says: outside vectors, and that the calls succeed with ample memory.
use crate::expect;
use adv_draws::{DrawFault, Draws};
use std::process::Abort;

// Takes all that is expected, in order.
fn expect_draws(rt: &impl Abort, draws: &mut Draws, wanted: &[u8]) {
    for draw in wanted {
        expect!(rt; draws.next() == Some(*draw));
    }
    expect!(rt; draws.taken() == wanted.len() as u64);
}

// Texts, and the draws that they list.
const LISTED: &[(&[u8], &[u8])] = &[
    (b"2 100 100", &[2, 100, 100]),
    (b"", &[]),
    (b" \t\n\x0b\x0c\r", &[]),
    (b" 007\n1", &[7, 1]),
    (b"0000100\r\n50 ", &[100, 50]),
    (b"9", &[9]),
    (b"9 1\t10", &[9, 1, 10]),
    (b"99\n 8  12 ", &[99, 8, 12]),
    (b"100 99 010 07", &[100, 99, 10, 7]),
];

#[test]
fn texts_list_draws(rt: HostRuntime) {
    for (text, wanted) in LISTED {
        let mut draws = Draws::listed(rt.alloc(), text).expect(&rt, "draws");
        expect_draws(&rt, &mut draws, wanted);
        expect!(rt; (draws.next(), draws.taken()) == (None, wanted.len() as u64));
    }
}

// Texts that list no draws, and where the first run of bytes begins that is none.
const REFUSED: &[(&[u8], usize)] = &[
    (b"0", 0),
    (b"5 101", 2),
    (b"1 x", 2),
    (b"+1", 0),
    (b"1000", 0),
    (b"  000 5", 2),
    (b"7 1x 0", 2),
    (b"10\n99999999999999999999", 3),
    (b"8 9\x08", 2),
    (b"12 345 6", 3),
    (b"1 0 2", 2),
    (b"1a 2", 0),
    (b"77 8-9 3", 3),
];

#[test]
fn runs_that_are_no_draws_are_refused(rt: HostRuntime) {
    for (text, offset) in REFUSED {
        let answer = Draws::listed(rt.alloc(), text).err();
        expect!(rt; answer == Some(DrawFault::NotADraw(*offset)));
    }
}

#[test]
fn seeds_give_the_words_of_the_generator(rt: HostRuntime) {
    let first = [50, 65, 56, 28, 39, 98, 7, 100, 75, 44];
    expect_draws(&rt, &mut Draws::seeded(1), &first);
    expect_draws(&rt, &mut Draws::seeded(33), &[25, 44, 32, 52, 74]);
}
