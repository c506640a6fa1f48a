//! Moving from room to room.
ghost use Rattle.std.specs.Prelude.{◌≡◌, ◌-◌, IsTrue, length, [], if◌then◌else◌};
ghost use Rattle.scott_types.specs.declared.phrases.Phrase.TheVariants.{DarkMove};
ghost use Rattle.scott_types.specs.Database.{room_at};
ghost use Rattle.scott_types.specs.Phrase.{text_of};
ghost use Rattle.scott_types.specs.Room.{exit_of};
ghost use Rattle.scott_types.specs.State.{Fits, is_dark};
ghost use Rattle.scott_rules.specs.Commands.{is_direction};
ghost use Rattle.scott_rules.specs.Rounds.{way, walk_result};
ghost use Rattle.scott_turn.specs.Done.{Shows};
ghost use Rattle.scott_turn.specs.Ways.{way_text, way_over};
ghost use Rattle.scott_types.specs.declared.styles.Style.{Style as AnyStyle};

use crate::games::Game;
use adv_io::{Console, ConsoleFault, say_both};
use scott_rules::laws::walk_fits;
use scott_types::{Phrase, State, Style, exit};

// The warning of a move in the dark.
fn warning(dark: bool) -> &'static [u8]
    ensures { result.now ≡ (if dark then text_of DarkMove else []) }
{
    if dark { Phrase::DarkMove.text() } else { &[] }
}

// What is said of a way: that it was gone, or why not.
fn way_text(style: Style, dark: bool, room: u8) -> &'static [u8]
    ensures { result.now ≡ way_text style dark room }
{
    if room != 0 {
        Phrase::Moved.text()
    } else if dark {
        Phrase::BrokenNeck.text_in(style)
    } else {
        Phrase::NoExitThere.text_in(style)
    }
}

// A fall in the dark ends the game.
fn way_over(dark: bool, room: u8) -> Option<u8>
    ensures { result ≡ way_over dark room }
{
    if room == 0 && dark { Some(2) } else { None }
}

// The room becomes the one beyond an exit, where there is one.
fn go(state: &mut State, room: u8)
    ensures { (style : AnyStyle) → state.new ≡ (way style room state.old).value.state }
{
    if room != 0 {
        state.room = room;
        state.redraw = true;
    }
}

/// Goes in a direction, which is a noun from 1 to 6. In the dark a warning comes first, and where
/// there is no exit the game ends with a fall.
///
/// The console's fault alone is a refusal; the state fits then too. docs/TURN.md, "Commands", has
/// the rule.
pub fn walk<C: Console>(
    game: &Game,
    state: &mut State,
    noun: u16,
    console: &mut C,
) -> Result<Option<u8>, ConsoleFault>
    requires fits { Fits game.now.db state.old }
    requires direction { IsTrue (is_direction noun) }
    ensures does { Shows (C.seen console.old) (C.seen console.new) result
        (walk_result game.now noun state.old)
        (λ over. record { state = state.new; over = over }) }
    ensures fits { Fits game.now.db state.new }
{
    walk_fits();
    let db = game.db();
    let _limits = db.parts();
    let dark = state.is_dark();
    let room = exit(db, state.room, noun as usize - 1);
    go(state, room);
    say_both(warning(dark), way_text(game.style(), dark, room), console)?;
    Ok(way_over(dark, room))
}
