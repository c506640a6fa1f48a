//! The law of entered routines: the contract of a function that does nothing else.
ghost use Rattle.inform_entered.specs.Laws.{EnteredAreNoted};

use inform_logic::laws::notes_count_for_nothing;
use inform_names::laws::meanings_are_of_directives;

/// The routines that a run enters, told by those that are open after each step, are those that it
/// notes where each is noted by its name.
pub fn entered_are_noted()
    ensures { EnteredAreNoted }
{
    meanings_are_of_directives();
    notes_count_for_nothing();
}
