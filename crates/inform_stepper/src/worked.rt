//! Worked examples of pauses: a small program on which the definitions compute.
ghost use Rattle.inform_stepper.specs.Worked.{CallsPause, ThirdsPause};

/// A run pauses at the step of each call, and what the routine says comes after the line.
pub fn calls_pause()
    ensures { CallsPause }
{}

/// A run pauses at each third step, after what the step says, and not after it stopped.
pub fn thirds_pause()
    ensures { ThirdsPause }
{}
