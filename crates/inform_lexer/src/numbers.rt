//! Digits, and the number that they are.
ghost use Rattle.std.specs.Prelude.{◌≡◌, ◌≤◌, ◌<◌};
ghost use Rattle.std.specs.Char.{digit_value};
ghost use Rattle.inform_lexer.specs.Bytes.{is_digit_in};
ghost use Rattle.inform_lexer.specs.Numbers.{number_in};

// What a byte is as a digit, and 36 where it is none.
fn digit_value(byte: u8) -> u64
    ensures value { result ≡ digit_value byte }
    ensures small { result ≤ 36 }
{
    match byte {
        b'0'..=b'9' => u64::from(byte - b'0'),
        b'A'..=b'Z' => u64::from(byte - b'A') + 10,
        b'a'..=b'z' => u64::from(byte - b'a') + 10,
        _ => 36,
    }
}

/// Whether a byte is a digit of this base.
#[inline(always)]
pub fn is_digit_in(base: u64, byte: u8) -> bool
    ensures { result ≡ is_digit_in base byte }
{
    if base == 10 {
        byte.is_ascii_digit()
    } else {
        digit_value(byte) < base
    }
}

/// The number that these digits are in this base, where it fits.
pub fn number_in(base: u64, digits: &[u8]) -> Option<u32>
    requires some { 0 < base }
    requires few { base ≤ 16 }
    ensures { result ≡ number_in base digits.now }
{
    let mut value: u64 = 0;
    for byte in digits {
        value = value * base + digit_value(*byte);
        if value > 4_294_967_295 {
            return None;
        }
    }
    Some(value as u32)
}
