//! Names of files and numbers, as the command line writes them.
ghost use Rattle.std.specs.Prelude.{◌≡◌};
ghost use Rattle.std.specs.Option.{option_copied};
ghost use Rattle.std.specs.List.{list_all};
ghost use Rattle.std.specs.Char.{is_ascii_digit};
ghost use Rattle.scott_requests.specs.Parts.{file_name, number_of};

/// The text as the name of a file or of a routine: it isn't empty.
pub fn file_name(text: &str) -> Option<&str>
    ensures { option_copied result ≡ file_name text.now }
{
    if text.is_empty() { None } else { Some(text) }
}

// Whether each byte is a decimal digit.
fn are_digits(text: &str) -> bool
    ensures { result ≡ list_all is_ascii_digit text.now }
{
    text.as_bytes().iter().all(|byte| byte.is_ascii_digit())
}

/// The number that decimal digits write, if it has 64 bits.
pub fn number_of(digits: &str) -> Option<u64>
    ensures { result ≡ number_of digits.now }
{
    if are_digits(digits) {
        digits.parse::<u64>().ok()
    } else {
        None
    }
}
