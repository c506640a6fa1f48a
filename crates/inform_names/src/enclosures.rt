//! The loops and `switch`es round a statement.
ghost use Rattle.std.specs.Prelude.{◌≡◌};

/// What stands round a statement, as far as `break` and `continue` ask.
#[derive(Clone, Copy)]
pub struct Enclosure {
    /// Whether the statement is in a loop of its routine.
    pub in_loop: bool,
    /// Whether the nearest loop or `switch` round it is a loop.
    pub nearest_is_loop: bool,
}

impl Enclosure {
    ghost use Rattle.inform_names.specs.Demands.{no_loop, a_loop, switch_in};

    /// That of the body of a routine.
    pub fn none() -> Enclosure
        ensures { result ≡ no_loop }
    {
        Enclosure {
            in_loop: false,
            nearest_is_loop: false,
        }
    }

    /// That of the body of a loop.
    pub fn of_loop() -> Enclosure
        ensures { result ≡ a_loop }
    {
        Enclosure {
            in_loop: true,
            nearest_is_loop: true,
        }
    }

    /// That of the bodies of a `switch` that stands here.
    pub fn of_switch(self) -> Enclosure
        ensures { result ≡ switch_in self }
    {
        Enclosure {
            in_loop: self.in_loop,
            nearest_is_loop: false,
        }
    }
}
