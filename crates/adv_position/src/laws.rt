//! The laws of positions. Each is the contract of a function that does nothing.
ghost use Rattle.adv_position.specs.Laws.{TextIsRead, BadLineIsFound, TextHasOneValue, TextsOrBadLines};

use adv_text::laws::{spelled_number_is_read, written_number_is_spelled};
use scott_types::laws::start_fits;

/// A value is read exactly where the bytes are its text.
pub fn text_is_read()
    ensures { TextIsRead }
{
    spelled_number_is_read();
    written_number_is_spelled();
    start_fits();
}

/// The number of a line is answered exactly where that is the first bad one.
pub fn bad_line_is_found()
    ensures { BadLineIsFound }
{
    spelled_number_is_read();
    written_number_is_spelled();
    start_fits();
}

/// A text has one value.
pub fn text_has_one_value()
    ensures { TextHasOneValue }
{
    spelled_number_is_read();
    written_number_is_spelled();
    start_fits();
}

/// Bytes are a text, or one of their lines is the first bad one, and never both.
pub fn texts_or_bad_lines()
    ensures { TextsOrBadLines }
{
    spelled_number_is_read();
    written_number_is_spelled();
    start_fits();
}
