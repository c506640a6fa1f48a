//! Requests: a command, the names of its files, and its settings.
ghost use Rattle.std.specs.Prelude.{◌≡◌, ◌≤◌, map, string_bytes, option_map, IfSome};
ghost use Rattle.scott_requests.specs.Request.{check_form, two_names, compile_form, decompile_form, file_and_settings, source_in, style_in, width_in, steps_in, play_form, cover_form, files_and_settings, three_and_settings, translation_kinds, translation_of, translate_form, transfer_form, run_kinds, run_of, run_form, step_form, calls_form, sessions_of, hall_form, game_number, demo_form, further_form, IsSized, asked_by, simplify_form};
ghost use Rattle.scott_requests.specs.Views.{source_of, settings_of, asked_translation, asked_run, request_of};

use crate::parts::{file_name, number_of};
use crate::settings::{
    DrawSource, FIRST_SEED, Kinds, Pause, Settings, USUAL_STEPS, no_kinds, settings_in,
};
use inform_tree::Width;
use scott_types::Style;

/// The most sessions that a hall may be asked for.
pub const MOST_SESSIONS: u64 = 64;

/// The first and the last number of which a game is made.
pub const FIRST_GAME: u64 = 8;

pub const LAST_GAME: u64 = 120;

/// What is to be played: the database of this name, with these draws, in this style; from its
/// beginning or from the position in the file `from`; and the position where the play stops is kept
/// in the file `save`, if there is one.
#[derive(Clone, Copy, PartialEq, Eq)]
pub struct PlayRequest<'a> {
    pub game: &'a str,
    pub source: DrawSource<'a>,
    pub style: Style,
    pub from: Option<&'a str>,
    pub save: Option<&'a str>,
}

/// What is to be translated: the database of the first name, into an Inform program that is stored
/// under the second one, in this style and for words of this width.
#[derive(Clone, Copy, PartialEq, Eq)]
pub struct TranslationRequest<'a> {
    pub game: &'a str,
    pub program: &'a str,
    pub style: Style,
    pub width: Width,
}

/// What is to be translated so that it opens at the position in the file `from`.
#[derive(Clone, Copy, PartialEq, Eq)]
pub struct TransferRequest<'a> {
    pub from: &'a str,
    pub translation: TranslationRequest<'a>,
}

/// What is to be played, and then told which of its lines were tried: the database of this name,
/// with these draws, in this style.
#[derive(Clone, Copy, PartialEq, Eq)]
pub struct CoverRequest<'a> {
    pub game: &'a str,
    pub source: DrawSource<'a>,
    pub style: Style,
}

/// What is to be run: the Inform program of this name, with these draws, for so many steps at most
/// (1 to `MOST_STEPS`), with words of this width.
#[derive(Clone, Copy, PartialEq, Eq)]
pub struct RunRequest<'a> {
    pub program: &'a str,
    pub source: DrawSource<'a>,
    pub steps: u64,
    pub width: Width,
}

/// What is to be run step by step: it pauses there.
#[derive(Clone, Copy, PartialEq, Eq)]
pub struct StepRequest<'a> {
    pub run: RunRequest<'a>,
    pub pause: Pause<'a>,
}

/// What is to be simplified: the Inform program of the first name, for words of this width. The
/// simpler one is stored under the second name.
#[derive(Clone, Copy, PartialEq, Eq)]
pub struct SimplifyRequest<'a> {
    pub program: &'a str,
    pub simpler: &'a str,
    pub width: Width,
}

/// What is asked for.
///
/// - `Check`: the database of this name is to be reported on.
/// - `Compile`: the source of the first name is to be stored as a database under the second one.
/// - `Decompile`: the database of the first name is to be stored as a source under the second one.
/// - `Play`, `Translate`, `Run`: a database is to be played or translated, a program to be run.
/// - `Hall`: so many sessions of the database of this name are to be played from one list of lines,
///   1 to `MOST_SESSIONS`.
/// - `Transfer`: a database is to be translated as it stands at a position.
/// - `Simplify`: a program is to be simplified.
/// - `Step`: a program is to be run, with a line at each pause.
/// - `Cover`: a database is to be played, and then told which of its lines were tried.
/// - `Calls`: a program is to be run, and then told which of a game's lines it entered.
/// - `Demo`: the game of this number is to be shown, `FIRST_GAME` to `LAST_GAME`.
#[derive(Clone, Copy, PartialEq, Eq)]
pub enum Request<'a> {
    Check(&'a str),
    Compile(&'a str, &'a str),
    Decompile(&'a str, &'a str),
    Play(PlayRequest<'a>),
    Translate(TranslationRequest<'a>),
    Run(RunRequest<'a>),
    Hall(&'a str, u8),
    Transfer(TransferRequest<'a>),
    Simplify(SimplifyRequest<'a>),
    Step(StepRequest<'a>),
    Cover(CoverRequest<'a>),
    Calls(RunRequest<'a>),
    Demo(u32),
}

// `check` with the words after it.
fn check_form(words: &[String]) -> Option<Request<'_>>
    ensures value { option_map request_of result ≡ check_form (map string_bytes words.now) }
    ensures sized { IfSome result (λ r. IsSized (request_of r)) }
{
    let [game] = words else {
        return None;
    };
    Some(Request::Check(file_name(game.as_str())?))
}

// The names of two files.
fn two_names(words: &[String]) -> Option<(&str, &str)>
    ensures { option_map (λ names. (names.0.now, names.1.now)) result
        ≡ two_names (map string_bytes words.now) }
{
    let [from, to] = words else {
        return None;
    };
    file_name(from.as_str()).zip(file_name(to.as_str()))
}

// `compile` with the words after it.
fn compile_form(words: &[String]) -> Option<Request<'_>>
    ensures value { option_map request_of result ≡ compile_form (map string_bytes words.now) }
    ensures sized { IfSome result (λ r. IsSized (request_of r)) }
{
    match two_names(words) {
        Some((source, game)) => Some(Request::Compile(source, game)),
        None => None,
    }
}

// `decompile` with the words after it.
fn decompile_form(words: &[String]) -> Option<Request<'_>>
    ensures value { option_map request_of result ≡ decompile_form (map string_bytes words.now) }
    ensures sized { IfSome result (λ r. IsSized (request_of r)) }
{
    match two_names(words) {
        Some((game, source)) => Some(Request::Decompile(game, source)),
        None => None,
    }
}

// The name of a file, and the settings after it, if all are of these kinds.
fn file_and_settings(words: &[String], kinds: Kinds) -> Option<(&str, Settings<'_>)>
    ensures { option_map (λ p. (p.0.now, settings_of p.1)) result
        ≡ file_and_settings kinds (map string_bytes words.now) }
{
    let (file, rest) = words.split_first()?;
    file_name(file.as_str()).zip(settings_in(rest, kinds))
}

// Where the draws come from.
fn source_in(settings: Settings<'_>) -> DrawSource<'_>
    ensures { source_of result ≡ source_in (settings_of settings.entry) }
{
    settings.draws.unwrap_or(DrawSource::Seeded(FIRST_SEED))
}

// In which style.
fn style_in(settings: Settings<'_>) -> Style
    ensures { result ≡ style_in (settings_of settings.entry) }
{
    settings.style.unwrap_or(Style::plain())
}

// How wide words are.
fn width_in(settings: Settings<'_>) -> Width
    ensures { result ≡ width_in (settings_of settings.entry) }
{
    settings.width.unwrap_or(Width::W16)
}

// For how many steps at most.
fn steps_in(settings: Settings<'_>) -> u64
    ensures { result ≡ steps_in (settings_of settings.entry) }
{
    settings.steps.unwrap_or(USUAL_STEPS)
}

// `play` with the words after it.
fn play_form(words: &[String]) -> Option<Request<'_>>
    ensures value { option_map request_of result ≡ play_form (map string_bytes words.now) }
    ensures sized { IfSome result (λ r. IsSized (request_of r)) }
{
    let kinds = Kinds {
        draws: true,
        style: true,
        opening: true,
        saving: true,
        ..no_kinds()
    };
    let (game, settings) = file_and_settings(words, kinds)?;
    Some(Request::Play(PlayRequest {
        game,
        source: source_in(settings),
        style: style_in(settings),
        from: settings.from,
        save: settings.save,
    }))
}

// `cover` with the words after it.
fn cover_form(words: &[String]) -> Option<Request<'_>>
    ensures value { option_map request_of result ≡ cover_form (map string_bytes words.now) }
    ensures sized { IfSome result (λ r. IsSized (request_of r)) }
{
    let kinds = Kinds {
        draws: true,
        style: true,
        ..no_kinds()
    };
    let (game, settings) = file_and_settings(words, kinds)?;
    Some(Request::Cover(CoverRequest {
        game,
        source: source_in(settings),
        style: style_in(settings),
    }))
}

// The name of a file, and after it one more with its settings.
fn files_and_settings(words: &[String], kinds: Kinds) -> Option<(&str, (&str, Settings<'_>))>
    ensures { option_map (λ p. (p.0.now, p.1.0.now, settings_of p.1.1)) result
        ≡ files_and_settings kinds (map string_bytes words.now) }
{
    let (file, rest) = words.split_first()?;
    file_name(file.as_str()).zip(file_and_settings(rest, kinds))
}

// The kinds of settings that a translation is given.
fn translation_kinds() -> Kinds
    ensures { result ≡ translation_kinds }
{
    Kinds {
        style: true,
        words: true,
        ..no_kinds()
    }
}

// What is to be translated, with these settings.
fn translation_of<'a>(
    game: &'a str,
    program: &'a str,
    settings: Settings<'a>,
) -> TranslationRequest<'a>
    ensures { asked_translation result ≡ translation_of game.now program.now
        (settings_of settings.entry) }
{
    TranslationRequest {
        game,
        program,
        style: style_in(settings),
        width: width_in(settings),
    }
}

// `translate` with the words after it.
fn translate_form(words: &[String]) -> Option<Request<'_>>
    ensures value { option_map request_of result ≡ translate_form (map string_bytes words.now) }
    ensures sized { IfSome result (λ r. IsSized (request_of r)) }
{
    let (game, (program, settings)) = files_and_settings(words, translation_kinds())?;
    Some(Request::Translate(translation_of(game, program, settings)))
}

// The names of three files, and the settings after them, if all are of these kinds.
fn three_and_settings(
    words: &[String],
    kinds: Kinds,
) -> Option<(&str, (&str, (&str, Settings<'_>)))>
    ensures { option_map (λ p. (p.0.now, p.1.0.now, p.1.1.0.now, settings_of p.1.1.1)) result
        ≡ three_and_settings kinds (map string_bytes words.now) }
{
    let (file, rest) = words.split_first()?;
    file_name(file.as_str()).zip(files_and_settings(rest, kinds))
}

// `transfer` with the words after it.
fn transfer_form(words: &[String]) -> Option<Request<'_>>
    ensures value { option_map request_of result ≡ transfer_form (map string_bytes words.now) }
    ensures sized { IfSome result (λ r. IsSized (request_of r)) }
{
    let (game, (from, (program, settings))) = three_and_settings(words, translation_kinds())?;
    Some(Request::Transfer(TransferRequest {
        from,
        translation: translation_of(game, program, settings),
    }))
}

// The kinds of settings that a run is given.
fn run_kinds() -> Kinds
    ensures { result ≡ run_kinds }
{
    Kinds {
        draws: true,
        steps: true,
        words: true,
        ..no_kinds()
    }
}

// What is to be run, with these settings.
fn run_of<'a>(program: &'a str, settings: Settings<'a>) -> RunRequest<'a>
    ensures { asked_run result ≡ run_of program.now (settings_of settings.entry) }
{
    RunRequest {
        program,
        source: source_in(settings),
        steps: steps_in(settings),
        width: width_in(settings),
    }
}

// `run` with the words after it.
fn run_form(words: &[String]) -> Option<Request<'_>>
    ensures value { option_map request_of result ≡ run_form (map string_bytes words.now) }
    ensures sized { IfSome result (λ r. IsSized (request_of r)) }
{
    let (program, settings) = file_and_settings(words, run_kinds())?;
    Some(Request::Run(run_of(program, settings)))
}

// `step` with the words after it.
fn step_form(words: &[String]) -> Option<Request<'_>>
    ensures value { option_map request_of result ≡ step_form (map string_bytes words.now) }
    ensures sized { IfSome result (λ r. IsSized (request_of r)) }
{
    let kinds = Kinds {
        pauses: true,
        ..run_kinds()
    };
    let (program, settings) = file_and_settings(words, kinds)?;
    let pause = settings.pause?;
    Some(Request::Step(StepRequest {
        run: run_of(program, settings),
        pause,
    }))
}

// `calls` with the words after it.
fn calls_form(words: &[String]) -> Option<Request<'_>>
    ensures value { option_map request_of result ≡ calls_form (map string_bytes words.now) }
    ensures sized { IfSome result (λ r. IsSized (request_of r)) }
{
    let (program, settings) = file_and_settings(words, run_kinds())?;
    Some(Request::Calls(run_of(program, settings)))
}

// `simplify` with the words after it.
fn simplify_form(words: &[String]) -> Option<Request<'_>>
    ensures value { option_map request_of result ≡ simplify_form (map string_bytes words.now) }
    ensures sized { IfSome result (λ r. IsSized (request_of r)) }
{
    let kinds = Kinds {
        words: true,
        ..no_kinds()
    };
    let (program, (simpler, settings)) = files_and_settings(words, kinds)?;
    Some(Request::Simplify(SimplifyRequest {
        program,
        simpler,
        width: width_in(settings),
    }))
}

// How many sessions digits ask for.
fn sessions_of(digits: &str) -> Option<u8>
    ensures value { result ≡ sessions_of digits.now }
    ensures range { IfSome result (λ n. (1 ≤ n) × (n ≤ MOST_SESSIONS)) }
{
    match number_of(digits) {
        Some(count) if 1 <= count && count <= MOST_SESSIONS => Some(count as u8),
        _ => None,
    }
}

// `hall` with the words after it.
fn hall_form(words: &[String]) -> Option<Request<'_>>
    ensures value { option_map request_of result ≡ hall_form (map string_bytes words.now) }
    ensures sized { IfSome result (λ r. IsSized (request_of r)) }
{
    let [game, count] = words else {
        return None;
    };
    let game = file_name(game.as_str())?;
    let count = sessions_of(count.as_str())?;
    Some(Request::Hall(game, count))
}

// The number of a game that digits ask for.
fn game_number(digits: &str) -> Option<u32>
    ensures value { result ≡ game_number digits.now }
    ensures range { IfSome result (λ n. (FIRST_GAME ≤ n) × (n ≤ LAST_GAME)) }
{
    match number_of(digits) {
        Some(number) if FIRST_GAME <= number && number <= LAST_GAME => Some(number as u32),
        _ => None,
    }
}

// `demo` with the words after it.
fn demo_form(words: &[String]) -> Option<Request<'_>>
    ensures value { option_map request_of result ≡ demo_form (map string_bytes words.now) }
    ensures sized { IfSome result (λ r. IsSized (request_of r)) }
{
    let [number] = words else {
        return None;
    };
    Some(Request::Demo(game_number(number.as_str())?))
}

// The further commands with the words after them.
fn further_form<'a>(command: &str, rest: &'a [String]) -> Option<Request<'a>>
    ensures value { option_map request_of result
        ≡ further_form command.now (map string_bytes rest.now) }
    ensures sized { IfSome result (λ r. IsSized (request_of r)) }
{
    match command {
        "hall" => hall_form(rest),
        "transfer" => transfer_form(rest),
        "simplify" => simplify_form(rest),
        "step" => step_form(rest),
        "cover" => cover_form(rest),
        "calls" => calls_form(rest),
        "demo" => demo_form(rest),
        _ => None,
    }
}

/// What the words ask for, if they are a request. docs/GUIDE.md has the words of each.
pub fn request_in(words: &[String]) -> Option<Request<'_>>
    ensures value { option_map request_of result ≡ asked_by words.now }
    ensures sized { IfSome result (λ r. IsSized (request_of r)) }
{
    let (command, rest) = words.split_first()?;
    match command.as_str() {
        "check" => check_form(rest),
        "compile" => compile_form(rest),
        "decompile" => decompile_form(rest),
        "play" => play_form(rest),
        "translate" => translate_form(rest),
        "run" => run_form(rest),
        command => further_form(command, rest),
    }
}
