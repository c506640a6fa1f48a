//! How a turn burns the light.
ghost use Rattle.std.specs.Prelude.{◌≡◌, ◌++◌, ◌-ℤ◌, IsTrue, if◌then◌else◌, [], true, length, pos, negsuc, ◌≤ℤ◌};
ghost use Rattle.adv_io.specs.History.{says};
ghost use Rattle.adv_io.specs.Console.{Speaks};
ghost use Rattle.scott_types.specs.declared.phrases.Phrase.TheVariants.{LightLasts, LightTurns};
ghost use Rattle.scott_types.specs.Phrase.{text_of};
ghost use Rattle.scott_types.specs.State.{Fits, has_item, lamp};
ghost use Rattle.scott_rules.specs.Light.{is_burning, turns_text, dim_text, light_text, put_out, light_seen, light_counted};

use adv_io::{Console, ConsoleFault, say_all, say_unless_empty};
use itoa::Buffer;
use scott_rules::laws::light_fits;
use scott_types::places::{LAMP, OUT_FLAG};
use scott_types::{Db, Phrase, State, Style};

fn is_burning(state: &State) -> bool
    ensures value { result ≡ is_burning state.now }
    ensures there { result ≡ true → IsTrue (has_item state.now lamp) }
{
    state.place(LAMP) != 0 && state.light != -1
}

// A number of turns, between the two parts of its text.
fn say_between<'a, C: Console>(turns: &'a [u8], console: &mut C) -> Result<(), ConsoleFault>
    ensures { Speaks (C.seen console.old) (C.seen console.new) result
        (says (text_of LightLasts ++ (turns.now ++ text_of LightTurns))) }
{
    let opening: &'a [u8] = Phrase::LightLasts.text();
    let back: &'a [u8] = Phrase::LightTurns.text();
    say_all(console, &[opening, turns, back])
}

// For how many turns the light lasts.
fn say_turns<C: Console>(light: i32, console: &mut C) -> Result<(), ConsoleFault>
    ensures { Speaks (C.seen console.old) (C.seen console.new) result (says (turns_text light)) }
{
    let mut turns = Buffer::new();
    say_between(turns.format(light).as_bytes(), console)
}

// Each fifth turn that the light is dim.
fn dim_text(light: i32) -> &'static [u8]
    ensures { result.now ≡ dim_text light }
{
    if light % 5 == 0 {
        Phrase::LightDim.text()
    } else {
        &[]
    }
}

// What is said of a light that has fallen.
fn say_light<C: Console>(style: Style, light: i32, console: &mut C) -> Result<(), ConsoleFault>
    ensures { Speaks (C.seen console.old) (C.seen console.new) result
        (says (light_text style light)) }
{
    if light < 1 {
        console.say(Phrase::LightOut.text())
    } else if light >= 25 {
        say_unless_empty(&[], console)
    } else if style.counted {
        say_turns(light, console)
    } else {
        say_unless_empty(dim_text(light), console)
    }
}

// The same, to who is near the lamp.
fn say_if_near<C: Console>(
    near: bool,
    style: Style,
    light: i32,
    console: &mut C,
) -> Result<(), ConsoleFault>
    ensures { Speaks (C.seen console.old) (C.seen console.new) result
        (says (if near then light_text style light else [])) }
{
    if near {
        say_light(style, light, console)
    } else {
        say_unless_empty(&[], console)
    }
}

// The light is out: its flag is set, and where it vanishes the lamp goes out of the game.
fn put_out(style: Style, state: &mut State)
    requires flags { length state.old.flags ≡ 32 }
    requires there { IsTrue (has_item state.old lamp) }
    ensures { state.new ≡ put_out style state.old }
{
    state.flags[OUT_FLAG as usize] = true;
    if style.vanish {
        state.places.as_mut_slice()[LAMP as usize] = 0;
    }
}

// What comes of a light that has fallen.
fn burn<C: Console>(style: Style, state: &mut State, console: &mut C) -> Result<(), ConsoleFault>
    requires flags { length state.old.flags ≡ 32 }
    requires there { IsTrue (has_item state.old lamp) }
    ensures spoken { Speaks (C.seen console.old) (C.seen console.new) result
        (says (light_seen style state.old).events) }
    ensures state { state.new ≡ (light_seen style state.old).value }
{
    let near = state.is_near(LAMP);
    let light = state.light;
    if light < 1 {
        put_out(style, state);
    }
    say_if_near(near, style, light, console)
}

// The light falls by one.
fn fall(state: &mut State)
    requires { negsuc 0 ≤ℤ state.old.light }
    ensures { state.new ≡ record state.old { light = state.old.light -ℤ pos 1 } }
{
    state.light = state.light - 1;
}

// One turn of the light, where it burns.
fn count_turn<C: Console>(
    style: Style,
    state: &mut State,
    console: &mut C,
) -> Result<(), ConsoleFault>
    requires flags { length state.old.flags ≡ 32 }
    requires light { negsuc 0 ≤ℤ state.old.light }
    ensures spoken { Speaks (C.seen console.old) (C.seen console.new) result
        (says (light_counted style state.old).events) }
    ensures state { state.new ≡ (light_counted style state.old).value }
{
    if is_burning(state) {
        fall(state);
        burn(style, state, console)
    } else {
        say_unless_empty(&[], console)
    }
}

/// Counts one turn of the light, and says what is seen of it.
///
/// The console's fault alone is a refusal; the light is counted then too. docs/TURN.md has the
/// rule.
pub fn count_light<C: Console>(
    db: &Db,
    style: Style,
    state: &mut State,
    console: &mut C,
) -> Result<(), ConsoleFault>
    requires { Fits db.now state.old }
    ensures spoken { Speaks (C.seen console.old) (C.seen console.new) result
        (says (light_counted style state.old).events) }
    ensures state { state.new ≡ (light_counted style state.old).value }
    ensures fits { Fits db.now state.new }
{
    light_fits();
    let _limits = db.parts();
    count_turn(style, state, console)
}
