//! The demonstration of a made game.
ghost use Rattle.std.specs.Prelude.{◌≡◌, ◌≤◌, None, IfOk, length};
ghost use Rattle.adv_draws.specs.Seeded.{seeded_draws};
ghost use Rattle.inform_tree.specs.declared.widths.Width.TheVariants.{W16};
ghost use Rattle.trans_specs.specs.Wide.{wide_at};
ghost use Rattle.adv_demo.specs.declared.steps.TheConstants.{LINE_LIMIT};
ghost use Rattle.adv_demo.specs.Demonstrations.{Demonstrates, IsDemonstration};

use crate::laws::made_games_are_narrow;
use crate::playing::play_lines;
use crate::programs::{program_of, translation};
use crate::running::run_lines;
use crate::steps::enough_steps;
use crate::texts::{put_play_line, put_run_line, put_size_line};
use adv_draws::Draws;
use adv_gen::make;
use adv_io::{Line, Memory};
use inform_reader::laws::program_in;
use scott_types::Db;
use std::alloc::Global;

// Plays a game, of this number, and runs its translation, on these lines and the draws of the seed.
fn demonstrate(alloc: Global, n: u32, db: &Db, lines: &[Line]) -> Result<Vec<u8>, Memory>
    requires narrow { wide_at W16 db.now ≡ None }
    requires few { length lines.now ≤ LINE_LIMIT }
    ensures { IfOk result (λ text.
        Demonstrates n db.now lines.now (seeded_draws n) text.items) }
{
    program_in();
    let seed = u64::from(n);
    let played = play_lines(alloc, db, lines, Draws::seeded(seed))?;
    let out = translation(alloc, db)?;
    let program = program_of(alloc, &out)?;
    let steps = enough_steps(db, lines.len());
    let (ran, used) = run_lines(alloc, &program, lines, Draws::seeded(seed), steps)?;
    let mut text = Vec::new(alloc);
    put_size_line(alloc, &mut text, n, db)?;
    put_play_line(alloc, &mut text, &played)?;
    put_run_line(alloc, &mut text, &ran, used)?;
    Ok(text)
}

/// The demonstration of the game of a number n, 8 to 120: how many rooms, items and action lines it
/// has; how its play ended on its lines and the draws of the seed n; and how the run of its
/// translation ended on the same, with steps that are enough. [`adv_gen::make`] says what the game
/// is. The one refusal is for want of memory.
pub fn demonstration(alloc: Global, n: u32) -> Result<Vec<u8>, Memory>
    requires some { 8 ≤ n }
    requires small { n ≤ 120 }
    ensures { IfOk result (λ text. IsDemonstration n text.items) }
{
    made_games_are_narrow();
    let (db, lines) = make(alloc, n)?;
    demonstrate(alloc, n, &db, &lines)
}
