//! The routines meet their specifications. Each law is the contract of a function that does nothing
//! else.
ghost use Rattle.trans_commands.specs.Laws.{CommandsMeetSpecs, CommandsFormed};

use scott_rules::laws::{transfer_fits, walk_fits, word_names_least_match};
use trans_specs::laws::{classes_tell, entries_written, exits_stand, globals_written};

/// Where a program has these routines, and its helpers and its search meet their specifications, a
/// command meets its specification.
pub fn commands_meet_specs()
    ensures { CommandsMeetSpecs }
{
    walk_fits();
    transfer_fits();
    word_names_least_match();
    globals_written();
    entries_written();
    exits_stand();
    classes_tell();
}

/// The routines of commands are well formed.
pub fn commands_are_formed()
    ensures { CommandsFormed }
{}
