//! The score.
ghost use Rattle.std.specs.Prelude.{◌≡◌, ◌≤◌, ◌++◌, IfOk, length, pos};
ghost use Rattle.adv_io.specs.History.{says};
ghost use Rattle.adv_io.specs.Console.{Speaks};
ghost use Rattle.scott_types.specs.State.{Fits};
ghost use Rattle.scott_types.specs.Style.{in_style};
ghost use Rattle.scott_rules.specs.Looking.{is_stored, count_stored, stored_count, rate, is_full_score, all_stored, praise, score_around, score_text, scored};

use crate::pages::Page;
use adv_io::{Console, ConsoleFault};
use itoa::Buffer;
use scott_types::{Db, Item, Phrase, State, Style, is_treasure};

fn is_stored(home: i32, item: &Item, place: u8) -> bool
    ensures { result ≡ is_stored home item.now place }
{
    is_treasure(&item.text) && i32::from(place) == home
}

// How many of the items are treasures in the treasure room.
fn count_stored(home: i32, items: &[Item], places: &[u8]) -> usize
    requires few { length items.now ≤ 255 }
    ensures count { result ≡ count_stored home items.now places.now }
    ensures few { result ≤ 255 }
{
    items
        .iter()
        .zip(places)
        .filter(|pair| is_stored(home, pair.0, *pair.1))
        .count()
}

// How many hundredths of all treasures are stored.
fn rate_of(treasures: i32, stored: usize) -> i32
    requires { stored ≤ 255 }
    ensures { result ≡ rate treasures stored }
{
    if treasures == 0 {
        0
    } else {
        stored as i32 * 100 / treasures
    }
}

// Whether all treasures are stored.
fn is_full(treasures: i32, stored: usize) -> bool
    requires { stored ≤ 255 }
    ensures { result ≡ is_full_score treasures stored }
{
    treasures != 0 && stored as i32 == treasures
}

// The praise, where the score is full.
fn add_praise(page: &mut Page, full: bool)
    requires { page.old.pieces ≤ 10 }
    ensures { page.new.text ≡ page.old.text ++ praise full }
{
    if full {
        page.add(Phrase::WellDone.text());
        page.add(Phrase::GameOver.text());
    }
}

// The texts of a score, around its two numbers.
fn add_score<'a>(
    page: &mut Page<'a>,
    style: Style,
    stored: &'a [u8],
    hundredths: &'a [u8],
    full: bool,
)
    requires { page.old.pieces ≤ 5 }
    ensures { page.new.text ≡ page.old.text ++ score_around style stored.now hundredths.now full }
{
    page.add(Phrase::Stored.text_in(style));
    page.add(stored);
    page.add(Phrase::Rating.text());
    page.add(hundredths);
    page.add(Phrase::ListEnd.text());
    add_praise(page, full);
}

#[inline(never)]
fn say_score<C: Console>(
    style: Style,
    treasures: i32,
    stored: usize,
    console: &mut C,
) -> Result<(), ConsoleFault>
    requires { stored ≤ 255 }
    ensures { Speaks (C.seen console.old) (C.seen console.new) result
        (says (score_text style treasures stored)) }
{
    let mut count = Buffer::new();
    let mut hundredths = Buffer::new();
    let mut page = Page::new();
    add_score(
        &mut page,
        style,
        count.format(stored).as_bytes(),
        hundredths.format(rate_of(treasures, stored)).as_bytes(),
        is_full(treasures, stored),
    );
    page.say(console)
}

// The treasure room.
fn home_of(db: &Db) -> i32
    ensures { result ≡ db.now.header.home }
{
    db.header().home
}

// How many treasures are stored.
fn stored_in(db: &Db, state: &State) -> usize
    requires { Fits db.now state.now }
    ensures count { result ≡ stored_count db.now state.now }
    ensures few { result ≤ 255 }
{
    count_stored(home_of(db), db.items(), state.places.as_slice())
}

// How many treasures there are to store.
fn treasures_of(db: &Db) -> i32
    ensures { result ≡ db.now.header.treasures }
{
    db.header().treasures
}

fn say_scored<C: Console>(
    db: &Db,
    style: Style,
    state: &State,
    console: &mut C,
) -> Result<(), ConsoleFault>
    requires { Fits db.now state.now }
    ensures { Speaks (C.seen console.old) (C.seen console.new) result
        (says (scored (in_style style db.now) state.now)) }
{
    say_score(style, treasures_of(db), stored_in(db, state), console)
}

/// Whether all treasures are stored.
pub fn are_all_stored(db: &Db, state: &State) -> bool
    requires { Fits db.now state.now }
    ensures { result ≡ all_stored db.now state.now }
{
    is_full(treasures_of(db), stored_in(db, state))
}

/// Says the score, and answers whether all treasures are stored.
///
/// The console's fault alone is a refusal. docs/TURN.md has the texts.
pub fn score<C: Console>(
    db: &Db,
    style: Style,
    state: &State,
    console: &mut C,
) -> Result<bool, ConsoleFault>
    requires { Fits db.now state.now }
    ensures spoken { Speaks (C.seen console.old) (C.seen console.new) result
        (says (scored (in_style style db.now) state.now)) }
    ensures all { IfOk result (λ all. all ≡ all_stored db.now state.now) }
{
    say_scored(db, style, state, console)?;
    Ok(are_all_stored(db, state))
}
