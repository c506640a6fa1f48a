//! The laws of the text. Each is the contract of a function that does nothing else.
ghost use Rattle.adv_decompiler.specs.Laws.{WrittenIsMeant, PlainReadsBack};

use adv_text::laws::{written_number_is_spelled, written_string_is_spelled};
use source_reader::laws::one_source;

/// What is written of an action means that action.
pub fn written_is_meant()
    ensures { WrittenIsMeant }
{}

/// The plain text of a database within the limits is a text of one source, which means the
/// database.
pub fn plain_reads_back()
    ensures { PlainReadsBack }
{
    one_source();
    written_number_is_spelled();
    written_string_is_spelled();
}
