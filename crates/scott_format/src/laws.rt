//! The laws of the format. Each is the contract of a function that does nothing else.
ghost use Rattle.scott_format.specs.Laws.{TextOrFault, NeverBoth, FirstFault, OneDatabase, TextKeepsLimits, WrittenTextIsText, DatabaseIn, FaultIn};

use crate::text_laws::text_laws;

/// Bytes are a text of a database, or they have a first fault.
pub fn text_or_fault()
    ensures { TextOrFault }
{
    text_laws();
}

/// Bytes are never both a text of a database and faulty.
pub fn never_both()
    ensures { NeverBoth }
{
    text_laws();
}

/// The fault of bytes is the first thing that is wrong with them, in the order of the file.
pub fn first_fault()
    ensures { FirstFault }
{
    text_laws();
}

/// Bytes are a text of one database at most.
pub fn one_database()
    ensures { OneDatabase }
{
    text_laws();
}

/// A database that has a text keeps the limits.
pub fn text_keeps_limits()
    ensures { TextKeepsLimits }
{
    text_laws();
}

/// The text that is written of a database is one of it, whatever follows.
pub fn written_text_is_text()
    ensures { WrittenTextIsText }
{
    text_laws();
}

/// What bytes read as is a database exactly where they are a text of it.
pub fn database_in()
    ensures { DatabaseIn }
{
    text_laws();
}

/// What bytes read as is a fault exactly where it is their first one.
pub fn fault_in()
    ensures { FaultIn }
{
    text_laws();
}
