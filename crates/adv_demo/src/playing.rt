//! The play of a game on a list of lines.
ghost use Rattle.std.specs.Prelude.{◌≡◌, IfOk, pos};
ghost use Rattle.scott_types.specs.Style.{plain};
ghost use Rattle.scott_rules.specs.Play.{play};
ghost use Rattle.adv_demo.specs.Summaries.{end_of_play, play_summary};

use crate::summaries::{Summary, end_of_play};
use adv_draws::Draws;
use adv_io::{Line, Memory, ScriptConsole};
use scott_rules::laws::play_spends;
use scott_turn::{Ending, Session};
use scott_types::{Db, Style};
use std::alloc::Global;

// How a play ended that took so many lines and draws and stopped for this.
fn summary(session: &Session<'_>, ending: Ending, lines: usize, draws: u64) -> Summary
    ensures { result ≡ record {
      lines = lines;
      draws = draws;
      end = end_of_play ending;
      room = pos session.now.state.room;
      light = session.now.state.light;
    } }
{
    let state = session.state();
    Summary {
        lines,
        draws,
        end: end_of_play(ending),
        room: i32::from(state.room),
        light: state.light,
    }
}

/// Plays a game in the plain style on these lines and draws, of which none was taken.
pub fn play_lines(
    alloc: Global,
    db: &Db,
    lines: &[Line],
    mut draws: Draws,
) -> Result<Summary, Memory>
    requires { draws.taken ≡ 0 }
    ensures { IfOk result (λ summary.
        summary ≡ play_summary (play (plain db.now) lines.now draws.left)) }
{
    play_spends();
    let mut session = Session::open(alloc, db, Style::plain())?;
    let mut console = ScriptConsole::new(lines);
    match session.play(&mut draws, &mut console) {
        Ok(ending) => {
            let taken = lines.len() - console.left();
            Ok(summary(&session, ending, taken, draws.taken()))
        }
        Err(_) => unreachable!(),
    }
}
