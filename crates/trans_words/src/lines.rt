//! The routines that find the words of a line, and what the line means by its words.
//!
//! A line stands in `buf` from entry 2 on, with its length in entry 1.
use inform_codes::{Code, Row, inform};
use scott_types::verbs::{GO, LAST_DIRECTION};

// A byte of a line.
const SPACE: u8 = b' ';

/// The names of these routines, of their locals, and of the globals, arrays and routines that they
/// use.
pub const NAMES: [&[u8]; 22] = [
    b"after_spaces",
    b"after_word",
    b"heard_verb",
    b"heard_noun",
    b"hear",
    b"buf",
    b"wa",
    b"na",
    b"wb",
    b"nb",
    b"vnum",
    b"nnum",
    b"first_verb",
    b"first_noun",
    b"find_noun",
    b"i",
    b"e",
    b"a",
    b"n",
    b"m",
    b"x",
    b"v",
];

// Places in the names.
const AFTER_SPACES_NAME: usize = 0;

const AFTER_WORD_NAME: usize = 1;

const HEARD_VERB_NAME: usize = 2;

const HEARD_NOUN_NAME: usize = 3;

const HEAR_NAME: usize = 4;

const BUF: usize = 5;

const WA: usize = 6;

const NA: usize = 7;

const WB: usize = 8;

const NB: usize = 9;

const VNUM: usize = 10;

const NNUM: usize = 11;

const FIRST_VERB: usize = 12;

const FIRST_NOUN: usize = 13;

const FIND_NOUN: usize = 14;

const I: usize = 15;

const E: usize = 16;

const A: usize = 17;

const N: usize = 18;

const M: usize = 19;

const X: usize = 20;

const V: usize = 21;

/// The first entry from i on that is no space, or e where there is none before it.
pub const AFTER_SPACES: [Code; 14] = inform! {
    while ((I < E) && ((BUF->I) == { SPACE })) { I++; }
    return I;
};

/// The first entry from i on that is a space, or e where there is none before it.
pub const AFTER_WORD: [Code; 14] = inform! {
    while ((I < E) && ((BUF->I) != { SPACE })) { I++; }
    return I;
};

/// The verb of a command whose first word, n bytes from entry a on, is the noun x; the second word
/// has m bytes.
pub const HEARD_VERB: [Code; 22] = inform! {
    if ((0 < X) && (X <= { LAST_DIRECTION })) { return { GO }; }
    return (FIRST_VERB(A, N, M));
};

/// The noun of a command with the verb v whose first word is the noun x; the second word is n bytes
/// from entry a on.
pub const HEARD_NOUN: [Code; 28] = inform! {
    if (V == 0) { return 0; }
    if ((0 < X) && (X <= { LAST_DIRECTION })) { return X; }
    return (FIND_NOUN(A, N));
};

/// Where the words of the line stand, and what it means.
pub const HEAR: [Code; 71] = inform! {
    E = ((BUF->1) + 2);
    WA = (AFTER_SPACES_NAME(2, E));
    I = (AFTER_WORD_NAME(WA, E));
    NA = (I - WA);
    WB = (AFTER_SPACES_NAME(I, E));
    NB = ((AFTER_WORD_NAME(WB, E)) - WB);
    X = (FIRST_NOUN(WA, NA, NB));
    VNUM = (HEARD_VERB_NAME(X, WA, NA, NB));
    NNUM = (HEARD_NOUN_NAME(X, VNUM, WB, NB));
};

/// All of them, each with its arguments and locals.
pub const ROUTINES: [Row<'static>; 5] = [
    (AFTER_SPACES_NAME, &[I, E], &AFTER_SPACES),
    (AFTER_WORD_NAME, &[I, E], &AFTER_WORD),
    (HEARD_VERB_NAME, &[X, A, N, M], &HEARD_VERB),
    (HEARD_NOUN_NAME, &[X, V, A, N], &HEARD_NOUN),
    (HEAR_NAME, &[E, I, X], &HEAR),
];
