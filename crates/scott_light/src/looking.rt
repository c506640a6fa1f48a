//! The look and the inventory.
ghost use Rattle.std.specs.Prelude.{◌≡◌, ◌≤◌, ◌<◌, ◌+◌, ◌++◌, length, map};
ghost use Rattle.adv_io.specs.Text.{joined_or};
ghost use Rattle.std.specs.List.{All};
ghost use Rattle.adv_io.specs.History.{says};
ghost use Rattle.adv_io.specs.Console.{Speaks};
ghost use Rattle.scott_types.specs.declared.phrases.Phrase.TheVariants.{BetweenItems, NothingCarried};
ghost use Rattle.scott_types.specs.Phrase.{text_of};
ghost use Rattle.scott_types.specs.State.{Fits};
ghost use Rattle.scott_types.specs.Style.{in_style};
ghost use Rattle.scott_rules.specs.Looking.{described, exits_listed, items_at, items_seen, seen_in_light, looked, inventory};
ghost use Rattle.scott_light.specs.ItemTexts.{texts_of};

use crate::listing::{exit_names, numbers_at};
use crate::pages::Page;
use adv_io::{Console, ConsoleFault, say_all};
use arrayvec::ArrayVec;
use scott_types::places::CARRIED;
use scott_types::{Db, Item, Phrase, State, Style, starts_with_star};

// A room's text, with `I'm in a` unless it begins with `*`.
fn add_room<'a>(page: &mut Page<'a>, style: Style, text: &'a [u8])
    requires { page.old.pieces ≤ 10 }
    ensures text { page.new.text ≡ page.old.text ++ described style text.now }
    ensures pieces { page.new.pieces ≤ page.old.pieces + 2 }
{
    if starts_with_star(text) {
        page.add(&text[1..]);
    } else {
        page.add(Phrase::InA.text_in(style));
        page.add(text);
    }
}

fn add_exits<'a>(page: &mut Page<'a>, names: &[&'a [u8]])
    requires room { page.old.pieces ≤ 10 }
    requires few { length names.now ≤ 6 }
    ensures text { page.new.text ≡ page.old.text ++ exits_listed (map
        (λ name. name.now) names.now) }
    ensures pieces { page.new.pieces ≤ page.old.pieces + 20 }
{
    page.add(Phrase::ObviousExits.text());
    page.join_or(names, Phrase::BetweenExits.text(), Phrase::NoExits.text());
    page.add(Phrase::ListEnd.text());
}

// The numbers of the items at a place.
fn numbers_in(db: &Db, state: &State, place: u8) -> ArrayVec<u8, 255>
    requires { Fits db.now state.now }
    ensures texts { texts_of db.now.items result.items ≡ items_at db.now state.now place }
    ensures there { All (λ number. number < length db.now.items) result.items }
{
    let _limits = db.parts();
    numbers_at(state.places.as_slice(), place)
}

// The items in the room, or nothing where there are none.
fn add_items<'a>(page: &mut Page<'a>, style: Style, items: &'a [Item], numbers: &'a [u8])
    requires room { page.old.pieces ≤ 30 }
    requires there { All (λ number. number < length items.now) numbers.now }
    ensures { page.new.text ≡ page.old.text ++ items_seen style (texts_of items.now numbers.now) }
{
    if !numbers.is_empty() {
        page.add(Phrase::AlsoSee.text_in(style));
        page.add_items(items, numbers);
        page.add(Phrase::Newline.text());
    }
}

// Says a text, and after it what is seen in the light.
#[inline(never)]
fn look_in_light<C: Console>(
    text: &[u8],
    db: &Db,
    style: Style,
    state: &State,
    console: &mut C,
) -> Result<(), ConsoleFault>
    requires { Fits db.now state.now }
    ensures { Speaks (C.seen console.old) (C.seen console.new) result
        (says (text.now ++ seen_in_light (in_style style db.now) state.now)) }
{
    let numbers = numbers_in(db, state, state.room);
    let mut page = Page::new();
    page.add(text);
    add_room(
        &mut page,
        style,
        db.rooms()[state.room as usize].text.bytes(),
    );
    add_exits(&mut page, exit_names(db, state.room).as_slice());
    add_items(&mut page, style, db.items(), numbers.as_slice());
    page.say(console)
}

/// Says a text, and after it what a look says, as one text.
///
/// The console's fault alone is a refusal.
#[inline(never)]
pub fn look_after<'a, C: Console>(
    text: &'a [u8],
    db: &Db,
    style: Style,
    state: &State,
    console: &mut C,
) -> Result<(), ConsoleFault>
    requires { Fits db.now state.now }
    ensures { Speaks (C.seen console.old) (C.seen console.new) result
        (says (text.now ++ looked (in_style style db.now) state.now)) }
{
    if state.is_dark() {
        let too_dark: &'a [u8] = Phrase::TooDark.text_in(style);
        say_all(console, &[text, too_dark])
    } else {
        look_in_light(text, db, style, state, console)
    }
}

/// Says what is seen: the room, its exits and the items in it; or that it is too dark.
///
/// The console's fault alone is a refusal. docs/TURN.md has the texts.
pub fn look<C: Console>(
    db: &Db,
    style: Style,
    state: &State,
    console: &mut C,
) -> Result<(), ConsoleFault>
    requires { Fits db.now state.now }
    ensures { Speaks (C.seen console.old) (C.seen console.new) result
        (says (looked (in_style style db.now) state.now)) }
{
    look_after(&[], db, style, state, console)
}

// What is carried, or that it is nothing.
fn add_carried<'a>(page: &mut Page<'a>, items: &'a [Item], numbers: &'a [u8])
    requires room { page.old.pieces ≤ 30 }
    requires there { All (λ number. number < length items.now) numbers.now }
    ensures text { page.new.text ≡ page.old.text
        ++ joined_or (text_of NothingCarried) (text_of BetweenItems)
        (texts_of items.now numbers.now) }
    ensures pieces { page.new.pieces ≡ page.old.pieces + 1 }
{
    if numbers.is_empty() {
        page.add(Phrase::NothingCarried.text());
    } else {
        page.add_items(items, numbers);
    }
}

/// Says what is carried. The console's fault alone is a refusal.
#[inline(never)]
pub fn inventory<C: Console>(
    db: &Db,
    style: Style,
    state: &State,
    console: &mut C,
) -> Result<(), ConsoleFault>
    requires { Fits db.now state.now }
    ensures { Speaks (C.seen console.old) (C.seen console.new) result
        (says (inventory (in_style style db.now) state.now)) }
{
    let numbers = numbers_in(db, state, CARRIED);
    let mut page = Page::new();
    page.add(Phrase::CarryingList.text_in(style));
    add_carried(&mut page, db.items(), numbers.as_slice());
    page.add(Phrase::ListEnd.text());
    page.say(console)
}
