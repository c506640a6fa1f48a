//! Files that are cut at each length, programs that are deep, and files that are large.
use crate::expect;
use crate::games::{Game, T};
use crate::positions::IN_THE_HALL;
use crate::sources::PLAIN;
use crate::trying::{Case, File, NOTHING, answer_of, bytes_of, expect};
use std::process::Abort;

// ---- files that are cut

// Which file is cut.
#[derive(Clone, Copy)]
enum Part {
    Game,
    Source,
    Program,
    Draws,
    Position,
}

// Files, good or bad, each with the lengths of its beginnings that are good; the commands that read
// it; the status of the others, and how what is said of them begins.
struct Cut<'a> {
    part: Part,
    wholes: &'a [(File<'a>, &'a [usize])],
    commands: &'a [&'a str],
    status: u8,
    faults: &'a [&'a str],
}

const GAMES: Cut<'static> = Cut {
    part: Part::Game,
    wholes: &[(File::Of(T), &[206, 207, 208])],
    commands: &[
        "check t.dat",
        "decompile t.dat out",
        "play t.dat save=out",
        "hall t.dat 2",
        "cover t.dat",
        "translate t.dat out",
        "transfer t.dat p.pos out",
    ],
    status: 4,
    faults: &[
        "t.dat: no number at ",
        "t.dat: no quote at ",
        "t.dat: string not closed at ",
    ],
};

const CUTS: &[Cut<'static>] = &[
    Cut {
        part: Part::Source,
        wholes: &[(PLAIN, &[404])],
        commands: &["compile t.adv out"],
        status: 5,
        faults: &["t.adv: "],
    },
    Cut {
        part: Part::Program,
        wholes: PROGRAMS,
        commands: &[
            "run g.inf",
            "step g.inf every=1",
            "calls g.inf",
            "simplify g.inf out",
        ],
        status: 6,
        faults: &["g.inf: "],
    },
    Cut {
        part: Part::Draws,
        wholes: &[(
            File::Bytes(b"7 100 042 0001\n"),
            &[0, 1, 2, 3, 4, 5, 6, 8, 9, 10, 14],
        )],
        commands: &[
            "play t.dat draws=d.txt save=out",
            "cover t.dat draws=d.txt",
            "run g.inf draws=d.txt",
            "calls g.inf draws=d.txt",
        ],
        status: 5,
        faults: &["d.txt: not a draw at "],
    },
    Cut {
        part: Part::Position,
        wholes: &[(File::Bytes(IN_THE_HALL), &[])],
        commands: &["play t.dat from=p.pos save=out", "transfer t.dat p.pos out"],
        status: 5,
        faults: &["p.pos: not a position in line "],
    },
];

const PROGRAMS: &[(File<'static>, &[usize])] = &[
    (
        File::Bytes(b"[ Main; ]; [ F a b c d e f g h i j k l m n o; ];"),
        &[10, 11],
    ),
    (
        File::Bytes(b"[ G a b c d e f g h i j k l m n o p; ]; [ Main; ];"),
        &[],
    ),
    (File::Bytes(b"[ Main a; ];"), &[]),
    (File::Bytes(b"[ F a b; if (a && b || a) rtrue; ];"), &[]),
    (File::Bytes(b"Include \"x\";"), &[]),
    (File::Bytes(br#"[ Main; print "a~b^@@200"; ];"#), &[]),
];

// What the commands need beside it is good.
fn with_part<'a>(command: &'a str, part: Part, bytes: &'a [u8]) -> Case<'a> {
    let mut case = Case {
        command,
        program: File::Bytes(b"[ Main; ];"),
        position: Some(IN_THE_HALL),
        ..NOTHING
    };
    match part {
        Part::Game => case.game = File::Bytes(bytes),
        Part::Source => case.source = File::Bytes(bytes),
        Part::Program => case.program = File::Bytes(bytes),
        Part::Draws => {
            case.game = File::Of(T);
            case.draws = Some(bytes);
        }
        Part::Position => {
            case.game = File::Of(T);
            case.position = Some(bytes);
        }
    }
    case
}

// Whether a text begins with one of these.
fn begins_with_one(text: &[u8], beginnings: &[&str]) -> bool {
    beginnings
        .iter()
        .any(|beginning| text.starts_with(beginning.as_bytes()))
}

// Gives a file, and expects that it is refused and nothing stored, or that it is accepted.
fn expect_judged<R: Abort + AllocGlobal>(rt: &R, case: &Case<'_>, cut: &Cut<'_>, fits: bool) {
    let (status, console, shelf) = answer_of(rt, case);
    if fits {
        expect!(rt; status == 0, case.command);
    } else {
        expect!(rt; status == cut.status, case.command);
        expect!(rt; begins_with_one(console.said(), cut.faults), case.command);
        expect!(rt; shelf.file("out").is_none(), case.command);
    }
}

// Gives a file to a command, cut at each length.
fn expect_cut<R: Abort + AllocGlobal>(
    rt: &R,
    command: &str,
    cut: &Cut<'_>,
    whole: &[u8],
    accepted: &[usize],
) {
    for size in 0..whole.len() {
        let case = with_part(command, cut.part, &whole[..size]);
        expect_judged(rt, &case, cut, accepted.contains(&size));
    }
}

// Gives each file of a table to each of its commands.
fn expect_all_cut<R: Abort + AllocGlobal>(rt: &R, cut: &Cut<'_>) {
    for (whole, accepted) in cut.wholes {
        let bytes = bytes_of(rt, whole).expect(rt, "a file");
        for command in cut.commands {
            expect_cut(rt, command, cut, &bytes, accepted);
        }
    }
}

#[test]
fn games_are_cut_at_each_length(rt: HostRuntime) {
    expect_all_cut(&rt, &GAMES);
}

#[test]
fn other_files_are_cut_at_each_length(rt: HostRuntime) {
    for cut in CUTS {
        expect_all_cut(&rt, cut);
    }
}

// ---- programs that are deep

// What opens, what stands in the middle and what closes; how many fit in one another in a program,
// and in a text; and what is said of more.
type Nest<'a> = ([&'a str; 3], u32, u32, &'a str);

const NESTS: &[Nest<'static>] = &[
    (["{", "", "}"], 64, 200, "g.inf: nested too deeply at 208\n"),
    (
        ["if(1)", ";", ""],
        62,
        199,
        "g.inf: nested too deeply at 1005\n",
    ),
];

// Puts a text so many times after another one.
fn put_many(rt: &impl Abort, whole: &mut String, text: &str, count: usize) {
    for _ in 0..count {
        whole.push_str(text).expect(rt, "memory");
    }
}

// A program of so many openers, one in another.
fn nested<R: Abort + AllocGlobal>(rt: &R, parts: [&str; 3], count: u32) -> String {
    let [opens, middle, closes] = parts;
    let mut text = String::from_str(rt.alloc(), "[ Main; ").expect(rt, "memory");
    put_many(rt, &mut text, opens, count as usize);
    text.push_str(middle).expect(rt, "memory");
    put_many(rt, &mut text, closes, count as usize);
    text.push_str("];").expect(rt, "memory");
    text
}

// Expects of so many openers that they are a program, are too many for one, or for a text.
fn expect_nested<R: Abort + AllocGlobal>(rt: &R, nest: &Nest<'_>, count: u32) {
    let (parts, program, text, deeper) = nest;
    let nested = nested(rt, *parts, count);
    let (status, said) = if count <= *program {
        (0, "")
    } else if count <= *text {
        (6, "g.inf: main is nested too deeply\n")
    } else {
        (6, *deeper)
    };
    let case = Case {
        command: "run g.inf",
        program: File::Bytes(nested.as_bytes()),
        ..NOTHING
    };
    let (answer, console, _) = answer_of(rt, &case);
    expect!(rt; (answer, console.said()) == (status, said.as_bytes()), said);
}

#[test]
fn programs_may_be_so_deep(rt: HostRuntime) {
    for nest in NESTS {
        for count in 1..202 {
            expect_nested(&rt, nest, count);
        }
    }
}

// ---- files that are large

// A database of 5,000 actions and 1,000 messages, with blanks up to the most bytes.
fn large_game<R: Abort + AllocGlobal>(rt: &R) -> String {
    let actions = vec![in rt.alloc(); "0 0 0 0 0 0 0 0"; 5_000].expect(rt, "memory");
    let messages = vec![in rt.alloc(); "\"\""; 1_000].expect(rt, "memory");
    let game = Game {
        actions: &actions,
        messages: &messages,
        ..T
    };
    let mut text = game.text(rt.alloc()).expect(rt, "memory");
    let rest = 1_048_576usize.saturating_sub(text.len());
    put_many(rt, &mut text, " ", rest);
    text
}

#[test]
fn games_may_be_so_large(rt: HostRuntime) {
    let text = large_game(&rt);
    expect!(rt; text.len() == 1_048_576);
    let case = Case {
        command: "check t.dat",
        game: File::Bytes(text.as_bytes()),
        said: &["rooms 3, items 1, lines 5000, words 7, messages 1000\nwarnings 0\n"],
        ..NOTHING
    };
    expect(&rt, &case);
}

// A program after a comment.
#[test]
fn programs_may_be_so_large(rt: HostRuntime) {
    let mut bytes = vec![in rt.alloc(); b'!'; 33_554_421].expect(&rt, "memory");
    bytes
        .extend_from_slice(b"\n[ Main; ];")
        .expect(&rt, "memory");
    expect!(&rt; bytes.len() == 33_554_432);
    let case = Case {
        command: "run g.inf",
        program: File::Bytes(&bytes),
        ..NOTHING
    };
    expect(&rt, &case);
}
