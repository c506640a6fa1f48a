//! That tokens are read exactly where they are spelled.
ghost use Rattle.source_reader.specs.Laws.{TokenIsExact, TokenFaultIsExact};

use adv_text::laws;

/// A token is read exactly where it is spelled, and a fault is answered exactly where it stands.
pub fn token_laws()
    ensures token_is_exact { TokenIsExact }
    ensures token_fault_is_exact { TokenFaultIsExact }
{
    laws::number_is_spelled();
    laws::spelled_number_is_read();
    laws::number_fault_is_exact();
    laws::number_ends();
    laws::string_is_spelled();
    laws::spelled_string_is_read();
    laws::string_fault_is_exact();
    laws::string_ends();
}
