//! Worked examples of entered routines: small programs on which the definitions compute.
ghost use Rattle.inform_entered.specs.Worked.{CallsEnter, EmptyBodiesAreNotEntered, EndsAreKept};

/// The step of a call enters its routine, each time.
pub fn calls_enter()
    ensures { CallsEnter }
{}

/// A routine whose body is empty isn't entered, for it is never open after a step.
pub fn empty_bodies_are_not_entered()
    ensures { EmptyBodiesAreNotEntered }
{}

/// What stands after the end of a run isn't entered.
pub fn ends_are_kept()
    ensures { EndsAreKept }
{}
