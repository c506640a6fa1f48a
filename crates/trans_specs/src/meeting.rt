//! Worked examples: routines that meet their specifications, in every program that has them. Each
//! is the contract of a function that does nothing.
ghost use Rattle.trans_specs.specs.WorkedSpecs.{PastCountsForNothing, MessagesAreSaid, ChanceLineIsDone};

/// What a stage stands for doesn't depend on what happened before it.
pub fn past_counts_for_nothing()
    ensures { PastCountsForNothing }
{}

/// A routine that prints a text and a newline meets the specification of a message.
pub fn messages_are_said()
    ensures { MessagesAreSaid }
{}

/// A line that says a message and goes on meets the specification of a line.
pub fn chance_line_is_done()
    ensures { ChanceLineIsDone }
{}
