//! Where a run is to pause, and why it paused.
ghost use Rattle.std.specs.Prelude.{◌≡◌};
ghost use Rattle.std.specs.Option.{option_to_list};
ghost use Rattle.inform_stepper.specs.Pauses.{met};

use inform_run::Stop;

/// Where a run is to pause, if it doesn't stop before.
#[derive(Clone, Copy, Debug, PartialEq, Eq)]
pub enum Until {
    /// Where any routine is entered.
    Any,
    /// Where the routine is entered that is the directive of this number.
    Routine(usize),
    /// Where so many steps were used in all, since the runner was opened.
    Step(u64),
}

/// Why a run paused.
#[derive(Clone, Copy, Debug, PartialEq, Eq)]
pub enum Paused {
    /// The routine was entered that is the directive of this number.
    Entered(usize),
    /// As many steps were used as were named.
    AtStep,
    /// The run stopped; with `Spent` the steps of the call were used.
    Stopped(Stop),
}

impl Until {
    /// The pause after a step that entered this routine, if it entered one, when so many steps were
    /// used in all.
    pub fn met(self, entered: Option<usize>, used: u64) -> Option<Paused>
        ensures { result ≡ met self (option_to_list entered) used }
    {
        match self {
            Until::Any => match entered {
                None => None,
                Some(at) => Some(Paused::Entered(at)),
            },
            Until::Routine(wanted) => match entered {
                None => None,
                Some(at) if at == wanted => Some(Paused::Entered(at)),
                Some(_) => None,
            },
            Until::Step(n) if used == n => Some(Paused::AtStep),
            Until::Step(_) => None,
        }
    }
}
