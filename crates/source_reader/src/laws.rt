//! The laws of the language. Each is the contract of a function that does nothing else.
ghost use Rattle.source_reader.specs.Laws.{TokenIsExact, TokenFaultIsExact, TextOrFault, NeverBoth, OneSource, OneFault, SourceIn, FaultIn, TextIsWellFormed};

use crate::token_laws::token_laws;
use adv_text::laws::{number_leaves_bytes, string_is_text, string_leaves_bytes};

/// A token is read exactly where it is spelled.
pub fn token_is_exact()
    ensures { TokenIsExact }
{
    token_laws();
}

/// A fault of a token is answered exactly where it stands.
pub fn token_fault_is_exact()
    ensures { TokenFaultIsExact }
{
    token_laws();
}

/// Bytes are a text of a source, or they have a fault.
pub fn text_or_fault()
    ensures { TextOrFault }
{
    token_laws();
}

/// Bytes are never both a text of a source and faulty.
pub fn never_both()
    ensures { NeverBoth }
{
    token_laws();
}

/// Bytes are a text of one source at most.
pub fn one_source()
    ensures { OneSource }
{
    token_laws();
}

/// Bytes have one fault at most.
pub fn one_fault()
    ensures { OneFault }
{
    token_laws();
}

/// What bytes read as is a source exactly where they are a text of it.
pub fn source_in()
    ensures { SourceIn }
{
    token_laws();
}

/// What bytes read as is a fault exactly where it is their first one.
pub fn fault_in()
    ensures { FaultIn }
{
    token_laws();
}

/// Each source that has a text is well formed.
pub fn text_is_well_formed()
    ensures { TextIsWellFormed }
{
    string_is_text();
    number_leaves_bytes();
    string_leaves_bytes();
}
