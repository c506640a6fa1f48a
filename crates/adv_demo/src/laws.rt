//! The laws of demonstrations. Each is the contract of a function that does nothing else.
ghost use Rattle.adv_demo.specs.Laws.{MadeGamesAreNarrow, MadeLinesAreTyped, RunTellsThePlay, DemonstrationsAgree};

use inform_reader::laws::program_in;

/// No number of a made game is too wide for words of 16 bits.
#[tactic(auto, using(crate::proofs::Narrow::made_games_are_narrow))]
pub fn made_games_are_narrow()
    ensures { MadeGamesAreNarrow }
{}

/// The lines of a made game are typed lines.
#[tactic(auto, using(crate::proofs::Typing::made_lines_are_typed))]
pub fn made_lines_are_typed()
    ensures { MadeLinesAreTyped }
{}

/// By a text that is faithful to a game the line of the run says just what the line of the play
/// says, and then the number of steps.
pub fn run_tells_the_play()
    ensures { RunTellsThePlay }
{
    program_in();
}

/// So do the lines of every made game.
pub fn demonstrations_agree()
    ensures { DemonstrationsAgree }
{
    made_lines_are_typed();
    run_tells_the_play();
}
