//! What no clause says: each form of words once.
use crate::expect;
use inform_tree::Width;
use scott_requests::{
    CoverRequest, DrawSource, PlayRequest, Request, RunRequest, SimplifyRequest, TransferRequest,
    TranslationRequest, request_in,
};
use scott_types::Style;
use std::process::Abort;

const PLAIN: Style = Style {
    you: false,
    counted: false,
    vanish: false,
};

const SEEDED: PlayRequest<'static> = PlayRequest {
    game: "t.dat",
    source: DrawSource::Seeded(1),
    style: PLAIN,
    from: None,
    save: None,
};

const MOST_SEED: PlayRequest<'static> = PlayRequest {
    source: DrawSource::Seeded(u64::MAX),
    ..SEEDED
};

const LISTED: PlayRequest<'static> = PlayRequest {
    source: DrawSource::Listed("d.txt"),
    ..SEEDED
};

const FROM: PlayRequest<'static> = PlayRequest {
    from: Some("p"),
    ..SEEDED
};

const FROM_AND_SAVE: PlayRequest<'static> = PlayRequest {
    from: Some("p"),
    save: Some("q"),
    ..SEEDED
};

const TRANSFERRED: Request<'static> = Request::Transfer(TransferRequest {
    from: "p",
    translation: TranslationRequest {
        game: "t.dat",
        program: "g.inf",
        style: PLAIN,
        width: Width::W32,
    },
});

const COVERED: Request<'static> = Request::Cover(CoverRequest {
    game: "t.dat",
    source: DrawSource::Listed("d.txt"),
    style: PLAIN,
});

const SIMPLIFIED: Request<'static> = Request::Simplify(SimplifyRequest {
    program: "g.inf",
    simpler: "h.inf",
    width: Width::W32,
});

const CALLED: Request<'static> = Request::Calls(RunRequest {
    program: "g.inf",
    source: DrawSource::Listed("d.txt"),
    steps: 7,
    width: Width::W32,
});

// A play in a style: whether the player is spoken to, the light counted, and a spent one gone.
macro_rules! played {
    ($you:literal, $counted:literal, $vanish:literal) => {
        Some(Request::Play(PlayRequest {
            style: Style {
                you: $you,
                counted: $counted,
                vanish: $vanish,
            },
            ..SEEDED
        }))
    };
}

// Words, and the request that they are.
const WORDS: &[(&str, Option<Request<'static>>)] = &[
    ("check t.dat", Some(Request::Check("t.dat"))),
    ("play t.dat", Some(Request::Play(SEEDED))),
    ("play t.dat seed=0001", Some(Request::Play(SEEDED))),
    (
        "play t.dat seed=18446744073709551615",
        Some(Request::Play(MOST_SEED)),
    ),
    ("play t.dat draws=d.txt", Some(Request::Play(LISTED))),
    ("hall t.dat 1", Some(Request::Hall("t.dat", 1))),
    ("hall t.dat 064", Some(Request::Hall("t.dat", 64))),
    ("hall t.dat 0", None),
    ("hall t.dat 65", None),
    ("hall t.dat 257", None),
    ("hall t.dat +2", None),
    ("hall t.dat", None),
    ("hall t.dat 2 seed=1", None),
    ("", None),
    ("play", None),
    ("check ", None),
    ("demo 7", None),
    ("check t.dat seed=1", None),
    // A form refuses the kinds of settings that it doesn't name.
    ("play t.dat steps=1", None),
    ("play t.dat words=16", None),
    ("translate t.dat g.inf seed=1", None),
    ("translate t.dat g.inf draws=d.txt", None),
    ("translate t.dat g.inf steps=1", None),
    ("run g.inf style=y", None),
    ("play t.dat seed=1 seed=2", None),
    ("play t.dat seed=1 draws=d.txt", None),
    ("play t.dat seed=", None),
    ("play t.dat seed=+1", None),
    ("play t.dat seed=18446744073709551616", None),
    ("play t.dat draws=", None),
    ("play t.dat Seed=1", None),
    // Styles are named by their letters.
    ("play t.dat style=y", played!(true, false, false)),
    ("play t.dat style=c", played!(false, true, false)),
    ("play t.dat style=v", played!(false, false, true)),
    ("play t.dat style=yc", played!(true, true, false)),
    ("play t.dat style=yv", played!(true, false, true)),
    ("play t.dat style=cv", played!(false, true, true)),
    ("play t.dat style=ycv", played!(true, true, true)),
    ("play t.dat seed=1 style=yc", played!(true, true, false)),
    ("play t.dat style=yc seed=1", played!(true, true, false)),
    ("play t.dat style=", None),
    ("play t.dat style=vy", None),
    ("play t.dat style=yy", None),
    ("play t.dat style=ycvy", None),
    ("play t.dat style=Y", None),
    ("play t.dat style=x", None),
    ("play t.dat style=y style=y", None),
    ("play t.dat style=y seed=1 style=c", None),
    // Files of positions.
    ("play t.dat from=p", Some(Request::Play(FROM))),
    (
        "play t.dat save=q from=p",
        Some(Request::Play(FROM_AND_SAVE)),
    ),
    ("play t.dat from=p from=p", None),
    ("play t.dat from=", None),
    ("play t.dat save=", None),
    ("hall t.dat 2 save=p", None),
    ("run g.inf from=p", None),
    ("transfer t.dat p g.inf words=32", Some(TRANSFERRED)),
    ("transfer t.dat p", None),
    ("transfer t.dat p g.inf seed=1", None),
    ("transfer t.dat p g.inf h.inf", None),
    // What is told of a play, and a simpler program.
    ("cover t.dat draws=d.txt", Some(COVERED)),
    ("cover t.dat from=p", None),
    ("cover t.dat steps=1", None),
    ("simplify g.inf h.inf words=32", Some(SIMPLIFIED)),
    ("simplify g.inf", None),
    ("simplify g.inf h.inf style=y", None),
    ("calls g.inf words=32 steps=7 draws=d.txt", Some(CALLED)),
    ("calls g.inf style=y", None),
    ("calls g.inf h.inf", None),
];

// The words of a command, which blanks part.
fn words_of<R: Abort + AllocGlobal>(rt: &R, command: &str) -> Vec<String> {
    let mut words = Vec::new(rt.alloc());
    for word in command.split(' ') {
        let word = String::from_str(rt.alloc(), word).expect(rt, "memory");
        words.push(word).expect(rt, "memory");
    }
    words
}

// Whether words ask for this.
fn is_asked(words: &[String], wanted: &Option<Request<'_>>) -> bool {
    request_in(words) == *wanted
}

#[test]
fn words_are_requests(rt: HostRuntime) {
    expect!(rt; is_asked(&[], &None));
    for (command, wanted) in WORDS {
        expect!(rt; is_asked(&words_of(&rt, command), wanted), command);
    }
}
