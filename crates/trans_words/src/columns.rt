//! The routines that find the entry that a word names: the same for verbs and for nouns, but for
//! the names.
//!
//! What is handed in is how many bytes of a word count, how many entries there are, and the entry
//! that each of the whole words of the seven letters names, or 0.
use inform_codes::{Code, Row, inform};

/// The names for verbs: the routines, the arrays that they use, and their locals.
pub const VERB_NAMES: [&[u8]; 10] = [
    b"find_verb",
    b"first_verb",
    b"vword",
    b"vroot",
    b"buf",
    b"a",
    b"n",
    b"k",
    b"i",
    b"m",
];

/// The names for nouns, at the same places.
pub const NOUN_NAMES: [&[u8]; 10] = [
    b"find_noun",
    b"first_noun",
    b"nword",
    b"nroot",
    b"buf",
    b"a",
    b"n",
    b"k",
    b"i",
    b"m",
];

// Places in the names.
const FIND_NAME: usize = 0;

const FIRST_NAME: usize = 1;

const WORD: usize = 2;

const ROOT: usize = 3;

const BUF: usize = 4;

const A: usize = 5;

const N: usize = 6;

const K: usize = 7;

const I: usize = 8;

const M: usize = 9;

// Places in the numbers that are handed in; the numbers of the seven words follow.
const LENGTH: usize = 0;

const ENTRIES: usize = 1;

/// The base entry that the n bytes from entry a on name, or 0. For each entry k that has a base, i
/// counts the letters that are the same, up to the end of the entry or of the bytes.
pub const FIND: [Code; 66] = inform! {
    if (N == 0) { return 0; }
    for (K = 1; K < [ENTRIES]) {
        for (I = 0;
            ((ROOT-->K) != 0) && ((I < [LENGTH]) && ((I < N)
            && ((BUF->(A + I)) == (WORD->(([LENGTH] * K) + I)))))) { }
        if ((I == [LENGTH]) || ((I == N) && ((WORD->(([LENGTH] * K) + I)) == 0))) {
            return (ROOT-->K);
        }
    }
    return 0;
};

/// The same for a first word, which may be the letter of a whole word where the second one has no
/// bytes.
pub const FIRST: [Code; 57] = inform! {
    if ((N == 1) && (M == 0)) {
        // The letters n, s, e, w, u, d and i.
        switch ((BUF->A)) {
            110: { return [2]; }
            115: { return [3]; }
            101: { return [4]; }
            119: { return [5]; }
            117: { return [6]; }
            100: { return [7]; }
            105: { return [8]; }
        }
    }
    return (FIND_NAME(A, N));
};

/// All of them, each with its arguments and locals.
pub const ROUTINES: [Row<'static>; 2] = [
    (FIND_NAME, &[A, N, K, I], &FIND),
    (FIRST_NAME, &[A, N, M], &FIRST),
];
