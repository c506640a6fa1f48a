//! Worked examples of simplified programs: what small programs shorten to, and how both run.
ghost use Rattle.inform_simplify.specs.Worked.{CallsStay, ClosedLoopsGo, KnownTestsGo};

/// An `if` whose test is known becomes one block, and what stands after `quit` goes.
pub fn known_tests_go()
    ensures { KnownTestsGo }
{}

/// A `while` that is never entered goes.
pub fn closed_loops_go()
    ensures { ClosedLoopsGo }
{}

/// A test with a call in it stays.
pub fn calls_stay()
    ensures { CallsStay }
{}
