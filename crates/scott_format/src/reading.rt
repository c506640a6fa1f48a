//! Reading a database's text.
ghost use Rattle.std.specs.Prelude.{◌≡◌, ◌≤◌, length, IfOk, IfErr, MatchResult, Ok, Err};
ghost use Rattle.adv_io.specs.Answers.{IsErrOr};
ghost use Rattle.scott_types.specs.Database.{Database};
ghost use Rattle.adv_text.specs.Reading.{input};
ghost use Rattle.scott_format.specs.Faults.{Fault, fault_answer};
ghost use Rattle.scott_format.specs.Plan.{run};
ghost use Rattle.scott_format.specs.File.{file, IsReadFrom, DatText, DatFault, database_in};
ghost use Rattle.scott_format.specs.Reading.{Stands, IsDb};

use crate::faults::FormatFault;
use crate::readers::{DATABASE_LIMIT, DbReader};
use crate::text_laws::text_laws;
use scott_types::Db;
use std::alloc::Global;

// The database that the bytes are a text of, as the definition reads it.
fn read(alloc: Global, bytes: &[u8]) -> Result<Db, FormatFault>
    requires { length bytes.now ≤ DATABASE_LIMIT }
    ensures value { IfOk result (λ db. IsReadFrom bytes.now db) }
    ensures fault { IfErr result (λ fault. Stands fault (run file (input 0 bytes.now))) }
{
    let Ok(mut reader) = DbReader::new(alloc) else {
        return Err(FormatFault::Memory);
    };
    if reader.feed(alloc, bytes).is_err() {
        return Err(FormatFault::Memory);
    }
    reader.finish()
}

/// Reads a database's text. What follows the trailer is ignored.
///
/// The faults are those of `FormatFault`; the first one in the order of the file is answered. A
/// number is tested as soon as it is read. docs/FORMAT.md has the rule.
pub fn read_db(alloc: Global, bytes: &[u8]) -> Result<Db, FormatFault>
    requires { length bytes.now ≤ DATABASE_LIMIT }

    // What is read has this text, and what has a text is read, unless memory runs out.
    ensures found { IfOk result (λ db. DatText bytes.now db) }
    ensures only { (db : Database) → DatText bytes.now db → IsDb result db }

    // A fault but `Memory` is answered only where it is the first one, and there, unless memory
    // runs out.
    ensures exact { (fault : Fault) → result ≡ Err (fault_answer fault) → DatFault bytes.now fault }
    ensures expected { (fault : Fault) → DatFault bytes.now fault
        → IsErrOr FormatFault.Memory result (fault_answer fault) }

    // The answer is what the bytes read as, unless memory runs out.
    ensures as_read { MatchResult result (λ db. database_in bytes.now ≡ Ok db)
        (λ fault. Stands fault (database_in bytes.now)) }
{
    text_laws();
    read(alloc, bytes)
}
