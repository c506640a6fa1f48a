//! The law of translated games. It is the contract of a function that does nothing else.
ghost use Rattle.translator.specs.Laws.{ProgramsAreFaithful};

use inform_entered::laws::entered_are_noted;
use inform_logic::laws::{notes_count_for_nothing, program_holds};
use trans_actions::laws::lines_meet_specs;
use trans_data::laws::{data_meets_specs, helpers_meet_specs};
use trans_programs::laws::{programs_are_accepted, programs_are_distinct, programs_are_shaped};
use trans_specs::laws::main_is_enough;
use trans_turn::laws::turn_meets_specs;
use trans_words::laws::words_meet_spec;

/// The program of a game is faithful to it.
pub fn programs_are_faithful()
    ensures { ProgramsAreFaithful }
{
    program_holds();
    notes_count_for_nothing();
    entered_are_noted();
    main_is_enough();
    data_meets_specs();
    helpers_meet_specs();
    lines_meet_specs();
    turn_meets_specs();
    words_meet_spec();
    programs_are_distinct();
    programs_are_accepted();
    programs_are_shaped();
}
