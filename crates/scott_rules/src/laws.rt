//! The laws of the rules. Each is the contract of a function that does nothing.
ghost use Rattle.scott_rules.specs.Laws.{WordNamesLeastMatch, FailedActionDoesNothing, PlaySplits, PlaySpends, LightFits, OpcodeFits, ActionFits, TransferFits, WalkFits, PlayFits, PlayStops, EndingStays, AdvanceEndsWell, AnswerEndsWell, EndingsAreThree};

/// A word names the base entry of the least entry that matches it, which is the nearest base entry
/// at or before it; and no entry where none matches.
pub fn word_names_least_match()
    ensures { WordNamesLeastMatch }
{}

/// A line that doesn't pass says nothing and changes nothing.
pub fn failed_action_does_nothing()
    ensures { FailedActionDoesNothing }
{}

/// A play that stopped, gone on with more lines and draws from where it stopped, is the play on the
/// joined lists.
pub fn play_splits()
    ensures { PlaySplits }
{}

/// What a play takes and draws, followed by what is left, is what there was.
pub fn play_spends()
    ensures { PlaySpends }
{}

/// A turn of the light leaves a state that fits its database.
pub fn light_fits()
    ensures { LightFits }
{}

/// An opcode leaves a state that fits its database.
pub fn opcode_fits()
    ensures { OpcodeFits }
{}

/// An action line leaves a state that fits its database.
pub fn action_fits()
    ensures { ActionFits }
{}

/// An item that is got or dropped leaves a state that fits its database.
pub fn transfer_fits()
    ensures { TransferFits }
{}

/// A walk in a direction leaves a state that fits its database.
pub fn walk_fits()
    ensures { WalkFits }
{}

/// Every state that a play leaves fits its database.
pub fn play_fits()
    ensures { PlayFits }
{}

/// A play stops at a prompt, at a draw or at the game's end.
pub fn play_stops()
    ensures { PlayStops }
{}

/// A game that is over stays over, and more lines and draws are left untouched.
pub fn ending_stays()
    ensures { EndingStays }
{}

/// What is done up to the prompt ends a game with 1, 2 or 3, or not at all.
pub fn advance_ends_well()
    ensures { AdvanceEndsWell }
{}

/// The answer to a line ends a game with 1, 2 or 3, or not at all.
pub fn answer_ends_well()
    ensures { AnswerEndsWell }
{}

/// A play ends a game with 1 by an opcode, 2 by a fall in the dark or 3 by a full score, and with
/// no other number.
pub fn endings_are_three()
    ensures { EndingsAreThree }
{}
