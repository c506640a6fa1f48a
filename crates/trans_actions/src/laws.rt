//! The routines of lines meet their specifications, and what a program needs to know of them. Each
//! law is the contract of a function that does nothing else.
ghost use Rattle.trans_actions.specs.Laws.{LinesMeetSpecs, ActionsFormed};
ghost use Rattle.trans_actions.specs.Parts.{ActionsAreNamed, ActionsAreDistinct, LinesAreThere, LinesAlone, ActionsCallNone, ActionsAreFaultless};

use inform_signature::laws::sound_routines_are_faultless;
use scott_rules::laws::opcode_fits;
use trans_specs::laws::{
    entries_written, globals_written, lines_are_numbered, lines_have_words, none_wide_at_32,
    numbers_are_their_words,
};

/// Where a program has these routines and those of the messages, and the texts and helpers do what
/// they owe, each line meets its specification.
pub fn lines_meet_specs()
    ensures { LinesMeetSpecs }
{
    opcode_fits();
    globals_written();
    entries_written();
    numbers_are_their_words();
    lines_have_words();
    lines_are_numbered();
}

/// The routines of lines are well formed for a database that keeps its limits.
pub fn actions_are_formed()
    ensures { ActionsFormed }
{}

/// Each has a name that is given to these routines alone.
pub fn actions_are_named()
    ensures { ActionsAreNamed }
{}

/// No two have the same name.
pub fn actions_are_distinct()
    ensures { ActionsAreDistinct }
{}

/// Each line that isn't all zeros has its routine.
pub fn lines_are_there()
    ensures { LinesAreThere }
{}

/// A routine that has the name of a line is the routine of a line.
pub fn lines_alone()
    ensures { LinesAlone }
{}

/// None of them calls a line or a group.
pub fn actions_call_none()
    ensures { ActionsCallNone }
{
    lines_have_words();
    none_wide_at_32();
}

/// Where the names that they take for granted are known, none of them has a fault.
pub fn actions_are_faultless()
    ensures { ActionsAreFaultless }
{
    lines_have_words();
    sound_routines_are_faultless();
}
