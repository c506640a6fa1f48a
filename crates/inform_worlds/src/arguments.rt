//! The arguments of a call that are known.
ghost use Rattle.std.specs.Prelude.{◌≤◌};

/// How many arguments a call has at most.
pub const ARGUMENTS: usize = 7;

/// The arguments of a call that are known, from the left.
#[derive(Clone, Copy)]
pub struct Arguments {
    pub count: usize,
    pub values: [i32; ARGUMENTS],
    pub ghost few: { count ≤ 7 },
}

impl Arguments {
    ghost use Rattle.std.specs.Prelude.{◌≡◌, []};
    ghost use Rattle.inform_meaning.specs.Worlds.{with_argument};
    ghost use Rattle.inform_worlds.specs.Scopes.{values_of};

    /// None yet.
    pub fn none() -> Arguments
        ensures { values_of result ≡ [] }
    {
        Arguments {
            count: 0,
            values: [0; ARGUMENTS],
        }
    }

    /// One more. An eighth is left out: no call of an accepted program has one.
    pub fn with(self, value: i32) -> Arguments
        ensures { values_of result ≡ with_argument (values_of self) value }
    {
        if self.count >= ARGUMENTS {
            return self;
        }
        let mut values = self.values;
        values[self.count] = value;
        Arguments {
            count: self.count + 1,
            values,
        }
    }

    /// The values.
    pub fn values(&self) -> &[i32]
        ensures { result.now ≡ values_of self.now }
    {
        &self.values[..self.count]
    }
}
