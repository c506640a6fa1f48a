//! The laws of reading and writing. Each is the contract of a function that does nothing.
ghost use Rattle.adv_text.specs.Laws.{NumberIsSpelled, SpelledNumberIsRead, NumberFaultIsExact, StringIsSpelled, SpelledStringIsRead, StringFaultIsExact, NumberEnds, StringEnds, NumberFits, StringIsText, NumberLeavesBytes, StringLeavesBytes, NumberStays, StringStays, WrittenNumberIsSpelled, WrittenStringIsSpelled};

/// A number that is read is spelled so.
pub fn number_is_spelled()
    ensures { NumberIsSpelled }
{}

/// A number that is spelled so is read, and reading goes on after it.
pub fn spelled_number_is_read()
    ensures { SpelledNumberIsRead }
{}

/// A fault is answered for a number exactly where it stands, with its place.
pub fn number_fault_is_exact()
    ensures { NumberFaultIsExact }
{}

/// A string that is read is spelled so.
pub fn string_is_spelled()
    ensures { StringIsSpelled }
{}

/// A string that is spelled so is read, and reading goes on after it.
pub fn spelled_string_is_read()
    ensures { SpelledStringIsRead }
{}

/// A fault is answered for a string exactly where it stands, with its place.
pub fn string_fault_is_exact()
    ensures { StringFaultIsExact }
{}

/// Reading goes on after a number just as many bytes further as it took.
pub fn number_ends()
    ensures { NumberEnds }
{}

/// Reading goes on after a string just as many bytes further as it took.
pub fn string_ends()
    ensures { StringEnds }
{}

/// A number lies within 32 bits with a sign.
pub fn number_fits()
    ensures { NumberFits }
{}

/// The text of a string has at most 4,096 bytes, and neither a return nor a grave accent.
pub fn string_is_text()
    ensures { StringIsText }
{}

/// What follows a number in a list of bytes are bytes.
pub fn number_leaves_bytes()
    ensures { NumberLeavesBytes }
{}

/// The text of a string in a list of bytes, and what follows it, are bytes.
pub fn string_leaves_bytes()
    ensures { StringLeavesBytes }
{}

/// A number that a byte follows, or a fault that is settled, is the same with more bytes behind.
pub fn number_stays()
    ensures { NumberStays }
{}

/// A string that a byte follows, or a fault that is settled, is the same with more bytes behind.
pub fn string_stays()
    ensures { StringStays }
{}

/// The text that is written of a number is a spelling of it, whatever follows but a digit.
pub fn written_number_is_spelled()
    ensures { WrittenNumberIsSpelled }
{}

/// The text that is written of a string is a spelling of it, whatever follows but a quote.
pub fn written_string_is_spelled()
    ensures { WrittenStringIsSpelled }
{}
