//! Where the words of the command line can't be gathered.
ghost use Rattle.std.specs.Prelude.{◌≡◌};
ghost use Rattle.scott_tool.specs.Start.{status_without_words};

use std::io::ErrorKind;

/// The status where the words can't be gathered: 9 for want of memory, and 12 for any other cause,
/// as where one of them is no text.
pub fn status_without_words(kind: ErrorKind) -> u8
    ensures { result ≡ status_without_words kind }
{
    match kind {
        ErrorKind::OutOfMemory => 9,
        _ => 12,
    }
}
