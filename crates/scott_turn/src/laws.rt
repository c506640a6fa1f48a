//! The laws of where a play stands. Each is the contract of a function that does nothing.
ghost use Rattle.scott_turn.specs.Positions.{AdvanceStands, AnswerStands, PlayStands};

use scott_rules::laws::{advance_ends_well, answer_ends_well};

/// What is done up to the prompt ends at it, at the draw of a head of verb 0, or at an ending that
/// there is.
pub fn advance_stands()
    ensures { AdvanceStands }
{
    advance_ends_well();
}

/// The answer to a line ends where a round begins, at the prompt, or at an ending that there is.
pub fn answer_stands()
    ensures { AnswerStands }
{
    answer_ends_well();
}

/// A play stops at the prompt, at the draw of a head of verb 0, or at an ending that there is.
pub fn play_stands()
    ensures { PlayStands }
{
    advance_stands();
    answer_stands();
}
