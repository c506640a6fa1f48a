//! The laws of counts. Each is the contract of a function that does nothing else.
ghost use Rattle.adv_coverage.specs.Alike.{LinesCountAlike};
ghost use Rattle.adv_coverage.specs.Calls.{EnteredFromOpening};

use adv_counts::laws::{counts_rise, counts_stay};
use inform_names::laws::{meanings_are_of_directives, names_mean_their_directives};
use inform_steps::laws::entered_from_the_beginning;
use trans_specs::laws::lines_are_numbered;

/// What a runner enters that stands at the opening of a program is what the program enters.
pub fn entered_from_opening()
    ensures { EnteredFromOpening }
{
    entered_from_the_beginning();
}

/// In a program that has the shape of a game, the report on the routines that were entered is the
/// report on the lines whose routines they are.
pub fn lines_count_alike()
    ensures { LinesCountAlike }
{
    meanings_are_of_directives();
    names_mean_their_directives();
    lines_are_numbered();
    counts_rise();
    counts_stay();
}
