//! What a test expects, as a call of one function.
ghost use Rattle.std.specs.Prelude.{◌≡◌, true};

use std::process::Abort;

/// Expects that something holds. Where it doesn't, the test ends with its text, or with the text
/// that follows it.
#[macro_export]
macro_rules! expect {
    ($rt:expr; $holds:expr) => {
        $crate::expecting::expect_at($rt, $holds, stringify!($holds))
    };
    ($rt:expr; $holds:expr, $at:expr) => {
        $crate::expecting::expect_at($rt, $holds, $at)
    };
}

/// Ends the test with a text where something doesn't hold.
pub fn expect_at<R: Abort + Copy>(rt: R, holds: bool, at: &str)
    ensures { holds ≡ true }
{
    assert!(rt; holds, "it doesn't hold: {at}");
}
