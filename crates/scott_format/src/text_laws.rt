//! What is known of numbers and strings, in one place.
ghost use Rattle.scott_format.specs.TextLaws.{TextLaws};

use adv_text::laws;

/// The laws of numbers and strings.
pub fn text_laws()
    ensures { TextLaws }
{
    laws::number_is_spelled();
    laws::spelled_number_is_read();
    laws::number_fault_is_exact();
    laws::string_is_spelled();
    laws::spelled_string_is_read();
    laws::string_fault_is_exact();
    laws::number_ends();
    laws::string_ends();
    laws::number_fits();
    laws::string_is_text();
    laws::number_leaves_bytes();
    laws::string_leaves_bytes();
    laws::number_stays();
    laws::string_stays();
    laws::written_number_is_spelled();
    laws::written_string_is_spelled();
}
