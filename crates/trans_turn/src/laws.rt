//! The routines of a round meet their specifications. Each law is the contract of a function that
//! does nothing else.
ghost use Rattle.trans_turn.specs.RoundSpecs.{RoundsMeetSpecs, TurnMeetsSpecs};

use scott_rules::laws::{play_spends, play_stops, word_names_least_match};
use trans_commands::laws::commands_meet_specs;
use trans_data::laws::{data_meets_specs, helpers_meet_specs, parts_are_served};
use trans_groups::laws::trying_meets_specs;
use trans_specs::laws::plays_are_rounds;

/// Where the routines that a round calls meet their specifications, so do a round, the rest of one
/// after its prompt, and all rounds.
pub fn rounds_meet_specs()
    ensures { RoundsMeetSpecs }
{
    word_names_least_match();
    play_spends();
    play_stops();
    plays_are_rounds();
}

/// All routines of a turn meet their specifications.
pub fn turn_meets_specs()
    ensures { TurnMeetsSpecs }
{
    rounds_meet_specs();
    trying_meets_specs();
    data_meets_specs();
    helpers_meet_specs();
    commands_meet_specs();
    parts_are_served();
}
