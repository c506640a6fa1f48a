//! Each public call on words, with a vocabulary made by hand.
use crate::expect;
use crate::games::game;
use adv_io::Line;
use scott_index::WordIndex;
use scott_types::Db;
use scott_vocab::{
    Column, Entry, Heard, Vocabulary, command, entry_at, is_direction, is_typed, letters, root,
    split, typed_noun, which, word_at,
};
use std::process::Abort;

// The verbs and the nouns, in the order of their numbers. Three bytes of a word count.
const WORDS: &[u8] = b"
\"AUTO\" \"ANY\"
\"*RUN\" \"NORTH\"
\"GO\" \"SOUTH\"
\"*WALK\" \"EAST\"
\"*\" \"WEST\"
\"LOOK\" \"UP\"
\"\" \"DOWN\"
\"*PEER\" \"LAMP\"
\"GET\" \"*LANT\"
\"LOOKUP\" \"\"
\"\" \"*NOTHING\"
\"ANY\" \"GO\"
";

// A game with these words, and one entry in each other list.
fn worded<R: Abort + AllocGlobal>(rt: &R) -> Db {
    let header = b"0 0 0 11 0 5 0 0 3 -1 0 0 0 0 0 0 0 0 0 0".as_slice();
    let rest = b"0 0 0 0 0 0 \"cell\" \"\" \"Lamp/LAMP/\" 0 \"\" 1 1 1".as_slice();
    game(rt, &[header, WORDS, rest])
}

// A column, a word, and the base entry that it names.
const NAMED: &[(Column, &str, Option<u16>)] = &[
    (Column::Verbs, "go", Some(2)),
    (Column::Verbs, "WALKING", Some(2)),
    (Column::Verbs, "auto", None),
    (Column::Verbs, "run", None),
    (Column::Verbs, "", None),
    (Column::Verbs, "loo", Some(5)),
    (Column::Verbs, "lo", None),
    (Column::Verbs, "peer", Some(6)),
    (Column::Verbs, "any", Some(11)),
    (Column::Nouns, "any", None),
    (Column::Nouns, "lantern", Some(7)),
    (Column::Nouns, "nothing", Some(9)),
    (Column::Nouns, "NORTHWARD", Some(1)),
    (Column::Nouns, "lant", Some(7)),
    (Column::Verbs, "walk", Some(2)),
];

fn expect_number(rt: &impl Abort, found: Option<u16>, want: Option<u16>, word: &str) {
    expect!(rt; found == want, word);
}

// A database finds the entry of a word, as a vocabulary too, and so does an index of the column.
#[test]
fn words_name_base_entries(rt: HostRuntime) {
    let db = worded(&rt);
    for (column, name, entry) in NAMED {
        let word = name.as_bytes();
        let index = WordIndex::of(rt.alloc(), &db, *column).expect(&rt, "memory");
        expect_number(&rt, which(&db, *column, word), *entry, name);
        expect_number(&rt, db.named(*column, word), *entry, name);
        expect_number(&rt, index.find(word), *entry, name);
    }
}

// Four letters of a word count.
#[test]
fn first_number_of_a_word_stays(rt: HostRuntime) {
    let alloc = rt.alloc();
    let mut index = WordIndex::empty(alloc, 4, 2).expect(&rt, "memory");
    index.add(alloc, b"Lamp", 7).expect(&rt, "memory");
    index.add(alloc, b"lamps", 8).expect(&rt, "memory");
    index.add(alloc, b"", 9).expect(&rt, "memory");
    expect_number(&rt, index.find(b"LAMPS"), Some(7), "LAMPS");
    expect_number(&rt, index.find(b"lam"), None, "lam");
    expect_number(&rt, index.find(b""), None, "no letter");
}

fn expect_text(rt: &impl Abort, text: &[u8], want: &str) {
    expect!(rt; text == want.as_bytes(), want);
}

fn expect_entry(rt: &impl Abort, entry: Entry<'_>, word: &str, base: Option<u16>) {
    expect_text(rt, entry.word, word);
    expect_number(rt, entry.base, base, word);
}

#[test]
fn entries_stand_for_base_ones_and_have_texts(rt: HostRuntime) {
    let db = worded(&rt);
    expect!(rt; db.words().len() == 12);
    expect_entry(&rt, entry_at(&db, Column::Verbs, 1, None), "RUN", None);
    expect_entry(
        &rt,
        entry_at(&db, Column::Verbs, 3, Some(2)),
        "WALK",
        Some(2),
    );
    expect_entry(
        &rt,
        entry_at(&db, Column::Nouns, 7, Some(6)),
        "LAMP",
        Some(7),
    );
    expect_text(&rt, root(&db, 7), "LAMP");
    expect_text(&rt, root(&db, 8), "*LANT");
}

// A line, where its two words begin and how long they are, and the text of the noun.
const LINES: &[(&str, (Option<(u8, u8)>, Option<(u8, u8)>), &str)] = &[
    ("", (None, None), ""),
    ("  ", (None, None), ""),
    ("n", (Some((0, 1)), None), ""),
    (" look  ", (Some((1, 4)), None), ""),
    (" Get LAMP now", (Some((1, 3)), Some((5, 4))), "lamp"),
];

// The second word is the noun.
#[test]
fn lines_split_into_words(rt: HostRuntime) {
    for (typed, spans, noun) in LINES {
        let line = Line::of(typed.as_bytes());
        let words = split(&line);
        expect!(rt; (words.first, words.second) == *spans, typed);
        expect!(rt; typed_noun(&line) == noun.as_bytes(), typed);
        if let Some((start, length)) = words.second {
            expect!(rt; word_at(&line, start, length) == noun.as_bytes(), typed);
        }
    }
}

// A line, and the command that it is.
const COMMANDS: &[(&str, Heard)] = &[
    ("  ", Heard::Blank),
    ("  w ", Heard::Command(1, Some(4))),
    ("North lamp", Heard::Command(1, Some(1))),
    ("n lamp", Heard::Unknown(0, 1)),
    ("i", Heard::Unknown(0, 1)),
    ("walk north", Heard::Command(2, Some(1))),
    (" peer lant up", Heard::Command(6, Some(7))),
    ("look xyzzy", Heard::Command(5, None)),
    ("go", Heard::Command(2, None)),
    ("lamp get", Heard::Unknown(0, 4)),
    (" xyzzy rug", Heard::Unknown(1, 5)),
];

#[test]
fn lines_are_commands(rt: HostRuntime) {
    let db = worded(&rt);
    for (typed, heard) in COMMANDS {
        let line = Line::of(typed.as_bytes());
        expect!(rt; command(&db, &line) == *heard, typed);
    }
}

#[test]
fn six_nouns_are_directions(rt: HostRuntime) {
    expect!(rt; !is_direction(0));
    expect!(rt; is_direction(1));
    expect!(rt; is_direction(6));
    expect!(rt; !is_direction(7));
}

#[test]
fn letters_are_lower_case_and_few(rt: HostRuntime) {
    expect_text(&rt, letters(3, b"LAMP").as_slice(), "lam");
    expect_text(&rt, letters(20, b"Lamp").as_slice(), "lamp");
    expect_text(&rt, letters(0, b"lamp").as_slice(), "");
}

#[test]
fn letters_that_count_match(rt: HostRuntime) {
    expect!(rt; is_typed(3, b"LAMP", b"lamb"));
    expect!(rt; !is_typed(4, b"LAMP", b"lamb"));
    expect!(rt; is_typed(20, b"LAMP", b"lamp"));
    expect!(rt; !is_typed(20, b"LAMP", b"lamps"));
    expect!(rt; !is_typed(3, b"", b""));
}
