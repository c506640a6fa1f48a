//! Names, characters and numbers: which of them a program may have.
ghost use Rattle.std.specs.Prelude.{◌≡◌, map};
ghost use Rattle.std.specs.List.{list_all};
ghost use Rattle.inform_tree.specs.Words.{begins_name, is_name_byte, is_among, is_reserved, is_name, is_special, is_character, is_number, is_byte, is_text};

/// The words that are no names: those of the grammar, and those that Inform has beside them.
pub static RESERVED: [&[u8]; 55] = [
    b"array",
    b"attribute",
    b"box",
    b"break",
    b"buffer",
    b"char",
    b"class",
    b"constant",
    b"continue",
    b"default",
    b"do",
    b"else",
    b"extend",
    b"font",
    b"for",
    b"give",
    b"global",
    b"has",
    b"hasnt",
    b"if",
    b"in",
    b"include",
    b"inversion",
    b"jump",
    b"move",
    b"new_line",
    b"notin",
    b"object",
    b"objectloop",
    b"ofclass",
    b"or",
    b"print",
    b"print_ret",
    b"property",
    b"provides",
    b"quit",
    b"random",
    b"read",
    b"remove",
    b"restore",
    b"return",
    b"rfalse",
    b"rtrue",
    b"save",
    b"self",
    b"sender",
    b"spaces",
    b"string",
    b"style",
    b"switch",
    b"table",
    b"to",
    b"until",
    b"verb",
    b"while",
];

/// The most bytes that a name has.
pub const NAME_LIMIT: usize = 32;

/// The printable bytes that no character is: they have a meaning of their own in a text or a
/// character.
pub static SPECIAL: [u8; 6] = [b'\'', b'"', b'\\', b'@', b'^', b'~'];

fn begins_name(byte: u8) -> bool
    ensures { result ≡ begins_name byte }
{
    (b'a' <= byte && byte <= b'z') || byte == b'_'
}

fn is_name_byte(byte: u8) -> bool
    ensures { result ≡ is_name_byte byte }
{
    begins_name(byte) || (b'0' <= byte && byte <= b'9')
}

fn are_name_bytes(bytes: &[u8]) -> bool
    ensures { result ≡ list_all is_name_byte bytes.now }
{
    bytes.iter().all(|byte| is_name_byte(*byte))
}

fn is_among(word: &[u8], words: &[&[u8]]) -> bool
    ensures { result ≡ is_among word.now (map (λ w. w.now) words.now) }
{
    for other in words {
        if word == *other {
            return true;
        }
    }
    false
}

/// Whether a word in lower case is reserved, and so no name.
pub fn is_reserved(word: &[u8]) -> bool
    ensures { result ≡ is_reserved word.now }
{
    is_among(word, &RESERVED)
}

/// Whether these bytes are a name of a program: at most 32 letters in lower case, digits and
/// underscores, of which the first is no digit, and no reserved word.
pub fn is_name(bytes: &[u8]) -> bool
    ensures { result ≡ is_name bytes.now }
{
    match bytes {
        [] => false,
        [first, rest @ ..] => {
            begins_name(*first)
                && are_name_bytes(rest)
                && rest.len() < NAME_LIMIT
                && !is_reserved(bytes)
        }
    }
}

fn is_special(byte: u8) -> bool
    ensures { result ≡ is_special byte }
{
    SPECIAL.iter().any(|other| byte == *other)
}

/// Whether a byte is a character that may stand between apostrophes.
pub fn is_character(byte: u8) -> bool
    ensures { result ≡ is_character byte }
{
    32 <= byte && byte <= 126 && !is_special(byte)
}

/// Whether a number may stand in a program. Each `u32` may: its type says so, and the proof learns
/// it here.
pub fn is_number(_number: u32) -> bool
    ensures { result ≡ is_number _number }
{
    true
}

// Each `u8` is a byte: its type says so, and the proof learns it here.
fn is_byte(_byte: u8) -> bool
    ensures { result ≡ is_byte _byte }
{
    true
}

/// Whether these bytes may be printed. Any bytes may.
pub fn is_text(bytes: &[u8]) -> bool
    ensures { result ≡ is_text bytes.now }
{
    bytes.iter().all(|byte| is_byte(*byte))
}
