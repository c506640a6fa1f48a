//! The laws of reading. Each is the contract of a function that does nothing else.
ghost use Rattle.inform_reader.specs.Laws.{ProgramIn, FaultIn, ProgramsAreWellFormed, LimitListed};

use inform_lexer::laws::tokens_are_writable;
use inform_names::laws::routines_are_shallow;
use inform_texts::laws as texts;

/// A text is read as a program exactly where it is one of it, and accepted.
pub fn program_in()
    ensures { ProgramIn }
{
    texts::program_in();
    texts::fault_in();
}

/// A fault is found exactly where it is the first thing that is wrong with the text.
pub fn fault_in()
    ensures { FaultIn }
{
    texts::program_in();
    texts::fault_in();
}

/// What is read and accepted is well formed.
pub fn programs_are_well_formed()
    ensures { ProgramsAreWellFormed }
{
    tokens_are_writable();
    routines_are_shallow();
}

/// The limit of a source is 33,554,432 bytes.
pub fn limit_listed()
    ensures { LimitListed }
{}
