//! The laws of the program of a game. Each is the contract of a function that does nothing else.
ghost use Rattle.trans_programs.specs.Laws.{ProgramsAreDistinct, ProgramsAreFormed, ProgramsAreAccepted, ProgramsAreShaped};

use inform_signature::laws::{
    signature_is_known, sound_programs_are_accepted, sound_routines_are_faultless,
};
use trans_actions::laws::{
    actions_are_distinct, actions_are_faultless, actions_are_formed, actions_are_named,
    actions_call_none, lines_alone, lines_are_there,
};
use trans_commands::laws::commands_are_formed;
use trans_data::laws::{data_formed, texts_formed};
use trans_groups::laws::{
    groups_alone, groups_are_called_once, groups_are_distinct, groups_are_there, groups_call_lines,
    trying_is_faultless, trying_is_formed,
};
use trans_words::laws::{words_call_themselves, words_formed};

/// No two of its directives have one name.
pub fn programs_are_distinct()
    ensures { ProgramsAreDistinct }
{
    actions_are_named();
    actions_are_distinct();
    groups_are_distinct();
}

/// It has a text.
pub fn programs_are_formed()
    ensures { ProgramsAreFormed }
{
    data_formed();
    texts_formed();
    words_formed();
    actions_are_formed();
    trying_is_formed();
    commands_are_formed();
}

/// It is accepted at the width.
pub fn programs_are_accepted()
    ensures { ProgramsAreAccepted }
{
    programs_are_distinct();
    signature_is_known();
    sound_routines_are_faultless();
    sound_programs_are_accepted();
    lines_are_there();
    actions_are_faultless();
    trying_is_faultless();
}

/// It has the shape of the game.
pub fn programs_are_shaped()
    ensures { ProgramsAreShaped }
{
    words_call_themselves();
    actions_are_named();
    lines_are_there();
    lines_alone();
    actions_call_none();
    groups_are_there();
    groups_alone();
    groups_are_called_once();
    groups_call_lines();
}
