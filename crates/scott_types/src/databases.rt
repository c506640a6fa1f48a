//! A database that keeps the limits of the format.
ghost use Rattle.std.specs.Prelude.{◌≡◌, MatchResult};
ghost use Rattle.scott_types.specs.Database.{database_of};
ghost use Rattle.scott_types.specs.Limits.{KeepsLimits};

use crate::limits::keeps_limits;
use crate::parts::Parts;
use std::marker::Model;

/// A database whose parts keep the limits.
///
/// A clause sees a `Database`: the lists of the parts, without where they lie in memory.
#[derive(Drop)]
pub struct Db {
    parts: Parts,
}

impl Model for Db {
    ghost use Rattle.scott_types.specs.Database.{Database, database_of};
    ghost use Rattle.scott_types.specs.Limits.{KeepsLimits};

    ghost Value = { Database };

    ghost view = { λ d. database_of d.parts };

    ghost invariant = { λ d. KeepsLimits (database_of d.parts) };
}

impl Db {
    /// A database of these parts, or the parts back where they don't keep the limits.
    pub fn new(parts: Parts) -> Result<Db, Parts>
        ensures { MatchResult result
            (λ db. (db ≡ database_of parts) × KeepsLimits (database_of parts))
            (λ back. (back ≡ parts) × ¬ (KeepsLimits (database_of parts))) }
    {
        if keeps_limits(&parts) {
            Ok(Db { parts })
        } else {
            Err(parts)
        }
    }

    /// A database of parts that are known to keep the limits.
    pub fn of(parts: Parts) -> Db
        requires { KeepsLimits (database_of parts) }
        ensures { result ≡ database_of parts }
    {
        Db { parts }
    }

    /// The parts of the database.
    pub fn parts(&self) -> &Parts
        ensures value { database_of result.now ≡ self.now }
        ensures kept { KeepsLimits self.now }
    {
        &self.parts
    }
}
