//! Settings: what stands after a command's files, in any order, each at most once.
ghost use Rattle.std.specs.Prelude.{◌≡◌, Some, map, string_bytes, option_map};
ghost use Rattle.std.specs.Option.{option_and_then};
ghost use Rattle.scott_requests.specs.Parts.{file_name, number_of};
ghost use Rattle.scott_requests.specs.Settings.{draws, listed, seeded, style, some_style, style_named, most_steps, word_width, steps_of, width_of, opening, saving, pausing, entering, each, play_setting_in, position_setting_in, pause_setting_in, run_setting_in, setting_in, no_kinds, allows, allowed_in, no_settings, with_setting, settings_from};
ghost use Rattle.scott_requests.specs.Views.{source_of, pause_of, setting_of, settings_of};

use crate::parts::{file_name, number_of};
use inform_tree::Width;
use scott_types::Style;

/// The seed of a play that is given neither draws nor a seed.
pub const FIRST_SEED: u64 = 1;

/// How many steps a run may take that is given no number of them.
pub const USUAL_STEPS: u64 = 1_000_000_000;

/// The most steps that a run may be given.
pub const MOST_STEPS: u64 = 1_000_000_000_000_000_000;

/// Where the draws of a play or a run come from: a file lists them, or a seed gives them.
#[derive(Clone, Copy, PartialEq, Eq)]
pub enum DrawSource<'a> {
    Listed(&'a str),
    Seeded(u64),
}

/// Where a run pauses: at each entering of the routine of this name, which isn't empty, or each
/// time that so many steps more were used, 1 to `MOST_STEPS`.
#[derive(Clone, Copy, PartialEq, Eq)]
pub enum Pause<'a> {
    At(&'a str),
    Every(u64),
}

/// A setting. Two of one variant are for one place.
#[derive(Clone, Copy)]
pub enum Setting<'a> {
    Draws(DrawSource<'a>),
    Style(Style),
    From(&'a str),
    Save(&'a str),
    Pauses(Pause<'a>),
    Steps(u64),
    Words(Width),
}

/// A place for each kind of setting.
#[derive(Clone, Copy)]
pub struct Settings<'a> {
    pub draws: Option<DrawSource<'a>>,
    pub style: Option<Style>,
    pub from: Option<&'a str>,
    pub save: Option<&'a str>,
    pub pause: Option<Pause<'a>>,
    pub steps: Option<u64>,
    pub width: Option<Width>,
}

// The setting that names a file of draws.
fn listed(name: &str) -> Option<Setting<'_>>
    ensures { option_map setting_of result ≡ option_map
        (λ n. draws (listed n)) (file_name name.now) }
{
    match file_name(name) {
        Some(name) => Some(Setting::Draws(DrawSource::Listed(name))),
        None => None,
    }
}

// The setting that gives a seed.
fn seeded(digits: &str) -> Option<Setting<'_>>
    ensures { option_map setting_of result ≡ option_map
        (λ n. draws (seeded n)) (number_of digits.now) }
{
    match number_of(digits) {
        Some(seed) => Some(Setting::Draws(DrawSource::Seeded(seed))),
        None => None,
    }
}

fn some_style(you: bool, counted: bool, vanish: bool) -> Option<Style>
    ensures { result ≡ some_style you counted vanish }
{
    Some(Style {
        you,
        counted,
        vanish,
    })
}

// The style of these letters.
fn style_named(letters: &str) -> Option<Style>
    ensures { result ≡ style_named letters.now }
{
    match letters {
        "y" => some_style(true, false, false),
        "c" => some_style(false, true, false),
        "v" => some_style(false, false, true),
        "yc" => some_style(true, true, false),
        "yv" => some_style(true, false, true),
        "cv" => some_style(false, true, true),
        "ycv" => some_style(true, true, true),
        _ => None,
    }
}

// The setting that gives a style.
fn styled(letters: &str) -> Option<Setting<'_>>
    ensures { option_map setting_of result ≡ option_map style (style_named letters.now) }
{
    match style_named(letters) {
        Some(style) => Some(Setting::Style(style)),
        None => None,
    }
}

// The setting that names the file of the position from which a play goes on.
fn opened(name: &str) -> Option<Setting<'_>>
    ensures { option_map setting_of result ≡ option_map opening (file_name name.now) }
{
    match file_name(name) {
        Some(name) => Some(Setting::From(name)),
        None => None,
    }
}

// The setting that names the file in which a position is kept.
fn saved(name: &str) -> Option<Setting<'_>>
    ensures { option_map setting_of result ≡ option_map saving (file_name name.now) }
{
    match file_name(name) {
        Some(name) => Some(Setting::Save(name)),
        None => None,
    }
}

// The number of steps that digits give.
fn steps_of(digits: &str) -> Option<u64>
    ensures { result ≡ steps_of digits.now }
{
    match number_of(digits) {
        Some(steps) if 1 <= steps && steps <= MOST_STEPS => Some(steps),
        _ => None,
    }
}

// The setting that gives the most steps.
fn steps<'a>(digits: &str) -> Option<Setting<'a>>
    ensures { option_map setting_of result ≡ option_map most_steps (steps_of digits.now) }
{
    match steps_of(digits) {
        Some(steps) => Some(Setting::Steps(steps)),
        None => None,
    }
}

// The setting that names the routine at which a run pauses.
fn entering(name: &str) -> Option<Setting<'_>>
    ensures { option_map setting_of result ≡ option_map
        (λ n. pausing (entering n)) (file_name name.now) }
{
    match file_name(name) {
        Some(name) => Some(Setting::Pauses(Pause::At(name))),
        None => None,
    }
}

// The setting that says after how many steps a run pauses.
fn each<'a>(digits: &str) -> Option<Setting<'a>>
    ensures { option_map setting_of result ≡ option_map
        (λ n. pausing (each n)) (steps_of digits.now) }
{
    match steps_of(digits) {
        Some(steps) => Some(Setting::Pauses(Pause::Every(steps))),
        None => None,
    }
}

// The setting that gives the width of words.
fn width<'a>(text: &str) -> Option<Setting<'a>>
    ensures { option_map setting_of result ≡ option_map word_width (width_of text.now) }
{
    match text {
        "16" => Some(Setting::Words(Width::W16)),
        "32" => Some(Setting::Words(Width::W32)),
        _ => None,
    }
}

// The setting of a run alone that a word is.
fn run_setting_in(word: &str) -> Option<Setting<'_>>
    ensures { option_map setting_of result ≡ run_setting_in word.now }
{
    if let Some(digits) = word.strip_prefix("steps=") {
        return steps(digits);
    }
    if let Some(text) = word.strip_prefix("words=") {
        return width(text);
    }
    None
}

// The setting of a play that a word is.
fn play_setting_in(word: &str) -> Option<Setting<'_>>
    ensures { option_map setting_of result ≡ play_setting_in word.now }
{
    if let Some(name) = word.strip_prefix("draws=") {
        return listed(name);
    }
    if let Some(digits) = word.strip_prefix("seed=") {
        return seeded(digits);
    }
    if let Some(letters) = word.strip_prefix("style=") {
        return styled(letters);
    }
    None
}

// The setting of a position's file that a word is.
fn position_setting_in(word: &str) -> Option<Setting<'_>>
    ensures { option_map setting_of result ≡ position_setting_in word.now }
{
    if let Some(name) = word.strip_prefix("from=") {
        return opened(name);
    }
    if let Some(name) = word.strip_prefix("save=") {
        return saved(name);
    }
    None
}

// The setting of a pause that a word is.
fn pause_setting_in(word: &str) -> Option<Setting<'_>>
    ensures { option_map setting_of result ≡ pause_setting_in word.now }
{
    if let Some(name) = word.strip_prefix("at=") {
        return entering(name);
    }
    if let Some(digits) = word.strip_prefix("every=") {
        return each(digits);
    }
    None
}

// The setting that a word is.
fn setting_in(word: &str) -> Option<Setting<'_>>
    ensures { option_map setting_of result ≡ setting_in word.now }
{
    if let Some(setting) = play_setting_in(word) {
        return Some(setting);
    }
    if let Some(setting) = position_setting_in(word) {
        return Some(setting);
    }
    match pause_setting_in(word) {
        Some(setting) => Some(setting),
        None => run_setting_in(word),
    }
}

/// The kinds of settings that a form allows.
#[derive(Clone, Copy)]
pub struct Kinds {
    pub draws: bool,
    pub style: bool,
    pub opening: bool,
    pub saving: bool,
    pub pauses: bool,
    pub steps: bool,
    pub words: bool,
}

/// No kind: a form names those that it allows.
pub fn no_kinds() -> Kinds
    ensures { result ≡ no_kinds }
{
    Kinds {
        draws: false,
        style: false,
        opening: false,
        saving: false,
        pauses: false,
        steps: false,
        words: false,
    }
}

// Whether the kind of a setting is one of these.
fn allows(kinds: Kinds, setting: Setting<'_>) -> bool
    ensures { result ≡ allows kinds (setting_of setting.entry) }
{
    match setting {
        Setting::Draws(_) => kinds.draws,
        Setting::Style(_) => kinds.style,
        Setting::From(_) => kinds.opening,
        Setting::Save(_) => kinds.saving,
        Setting::Pauses(_) => kinds.pauses,
        Setting::Steps(_) => kinds.steps,
        Setting::Words(_) => kinds.words,
    }
}

// The setting that a word is, where its kind is allowed.
fn allowed_in(word: &str, kinds: Kinds) -> Option<Setting<'_>>
    ensures { option_map setting_of result ≡ allowed_in kinds word.now }
{
    match setting_in(word) {
        Some(setting) if allows(kinds, setting) => Some(setting),
        _ => None,
    }
}

impl<'a> Settings<'a> {
    // Draws, where none are there.
    fn with_draws(self, source: DrawSource<'a>) -> Option<Settings<'a>>
        ensures { option_map settings_of result ≡ with_setting (settings_of self.entry)
            (draws (source_of source.entry)) }
    {
        match self.draws {
            None => Some(Settings {
                draws: Some(source),
                ..self
            }),
            Some(_) => None,
        }
    }

    // A style, where none is there.
    fn with_style(self, value: Style) -> Option<Settings<'a>>
        ensures { option_map settings_of result ≡ with_setting (settings_of self.entry)
            (style value) }
    {
        match self.style {
            None => Some(Settings {
                style: Some(value),
                ..self
            }),
            Some(_) => None,
        }
    }

    // The file of the position to go on from, where none is there.
    fn with_from(self, name: &'a str) -> Option<Settings<'a>>
        ensures { option_map settings_of result ≡ with_setting (settings_of self.entry)
            (opening name.now) }
    {
        match self.from {
            None => Some(Settings {
                from: Some(name),
                ..self
            }),
            Some(_) => None,
        }
    }

    // The file in which a position is kept, where none is there.
    fn with_save(self, name: &'a str) -> Option<Settings<'a>>
        ensures { option_map settings_of result ≡ with_setting (settings_of self.entry)
            (saving name.now) }
    {
        match self.save {
            None => Some(Settings {
                save: Some(name),
                ..self
            }),
            Some(_) => None,
        }
    }

    // Where a run pauses, where that isn't there.
    fn with_pause(self, value: Pause<'a>) -> Option<Settings<'a>>
        ensures { option_map settings_of result ≡ with_setting (settings_of self.entry)
            (pausing (pause_of value.entry)) }
    {
        match self.pause {
            None => Some(Settings {
                pause: Some(value),
                ..self
            }),
            Some(_) => None,
        }
    }

    // The most steps, where they aren't there.
    fn with_steps(self, most: u64) -> Option<Settings<'a>>
        ensures { option_map settings_of result ≡ with_setting (settings_of self.entry)
            (most_steps most) }
    {
        match self.steps {
            None => Some(Settings {
                steps: Some(most),
                ..self
            }),
            Some(_) => None,
        }
    }

    // A width of words, where none is there.
    fn with_width(self, value: Width) -> Option<Settings<'a>>
        ensures { option_map settings_of result ≡ with_setting (settings_of self.entry)
            (word_width value) }
    {
        match self.width {
            None => Some(Settings {
                width: Some(value),
                ..self
            }),
            Some(_) => None,
        }
    }

    // One setting more, where its place is free.
    fn with(self, setting: Setting<'a>) -> Option<Settings<'a>>
        ensures { option_map settings_of result ≡ with_setting (settings_of self.entry)
            (setting_of setting.entry) }
    {
        match setting {
            Setting::Draws(source) => self.with_draws(source),
            Setting::Style(style) => self.with_style(style),
            Setting::From(name) => self.with_from(name),
            Setting::Save(name) => self.with_save(name),
            Setting::Pauses(pause) => self.with_pause(pause),
            Setting::Steps(steps) => self.with_steps(steps),
            Setting::Words(width) => self.with_width(width),
        }
    }
}

/// The settings that words are, if each is one of these kinds and no place is taken twice.
pub fn settings_in(words: &[String], kinds: Kinds) -> Option<Settings<'_>>
    ensures { option_map settings_of result ≡ settings_from kinds no_settings
        (map string_bytes words.now) }
{
    let mut settings = Settings {
        draws: None,
        style: None,
        from: None,
        save: None,
        pause: None,
        steps: None,
        width: None,
    };
    for word in words {
        settings = settings.with(allowed_in(word.as_str(), kinds)?)?;
    }
    Some(settings)
}
