//! How a part of a program is left before its end.
use adv_io::ConsoleFault;
use inform_frames::Halt;

/// What a run waits for.
#[derive(Clone, Copy)]
pub enum Lack {
    Line,
    Draw,
    /// A step, or where the run goes no further than to a call, that call.
    Steps,
}

/// Why an interpreter stopped.
#[derive(Clone, Copy)]
pub enum Stopped {
    Over(Halt),
    Lacks(Lack),
    /// The console failed.
    Fails(ConsoleFault),
}

/// How a part is left before its end. Why it stops the interpreter tells.
#[derive(Clone, Copy)]
pub enum Exit {
    Returns(i32),
    Breaks,
    Continues,
    Stops,
}
