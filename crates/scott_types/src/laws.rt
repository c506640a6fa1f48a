//! The laws of the numbers in the file, and of the first state. Each is the contract of a function
//! that does nothing.
ghost use Rattle.scott_types.specs.Codes.{CodeOfCondition, ConditionOfCode, FirstNumberIsKept, NumbersShareMeanings};
ghost use Rattle.scott_types.specs.State.{StartFits};

/// A condition that is decoded and encoded again has the code that it had.
pub fn code_of_condition()
    ensures { CodeOfCondition }
{}

/// A condition that is encoded and decoded again is the condition that it was.
pub fn condition_of_code()
    ensures { ConditionOfCode }
{}

/// An opcode that is decoded and encoded again has the least number that shares its meaning.
pub fn first_number_is_kept()
    ensures { FirstNumberIsKept }
{}

/// Numbers that share a meaning are decoded alike.
pub fn numbers_share_meanings()
    ensures { NumbersShareMeanings }
{}

/// The first state fits its database.
pub fn start_fits()
    ensures { StartFits }
{}
