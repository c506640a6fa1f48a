//! The words of the grammar.
ghost use Rattle.std.specs.Prelude.{◌≡◌, nat_eq, find};
ghost use Rattle.std.specs.Cmp.Lexicographic.{pointwise};
ghost use Rattle.inform_lexemes.specs.Keywords.{keyword_text, keyword_spelled};

/// A word that means something in the grammar. Every one of them is reserved, and so no name.
#[derive(Clone, Copy, Debug, PartialEq, Eq)]
pub enum Keyword {
    /// `array`
    Array,
    /// `break`
    Break,
    /// `char`
    Char,
    /// `constant`
    Constant,
    /// `continue`
    Continue,
    /// `default`
    Default,
    /// `do`
    Do,
    /// `else`
    Else,
    /// `for`
    For,
    /// `global`
    Global,
    /// `if`
    If,
    /// `new_line`
    NewLine,
    /// `print`
    Print,
    /// `quit`
    Quit,
    /// `random`
    Random,
    /// `read`
    Read,
    /// `return`
    Return,
    /// `rfalse`
    Rfalse,
    /// `rtrue`
    Rtrue,
    /// `switch`
    Switch,
    /// `to`
    To,
    /// `until`
    Until,
    /// `while`
    While,
}

/// All of them, in the order in which they are declared.
pub static KEYWORDS: [Keyword; 23] = [
    Keyword::Array,
    Keyword::Break,
    Keyword::Char,
    Keyword::Constant,
    Keyword::Continue,
    Keyword::Default,
    Keyword::Do,
    Keyword::Else,
    Keyword::For,
    Keyword::Global,
    Keyword::If,
    Keyword::NewLine,
    Keyword::Print,
    Keyword::Quit,
    Keyword::Random,
    Keyword::Read,
    Keyword::Return,
    Keyword::Rfalse,
    Keyword::Rtrue,
    Keyword::Switch,
    Keyword::To,
    Keyword::Until,
    Keyword::While,
];

impl Keyword {
    /// The bytes that it is written with, in lower case.
    pub fn spelling(self) -> &'static [u8]
        ensures { result.now ≡ keyword_text self }
    {
        match self {
            Keyword::Array => b"array",
            Keyword::Break => b"break",
            Keyword::Char => b"char",
            Keyword::Constant => b"constant",
            Keyword::Continue => b"continue",
            Keyword::Default => b"default",
            Keyword::Do => b"do",
            Keyword::Else => b"else",
            Keyword::For => b"for",
            Keyword::Global => b"global",
            Keyword::If => b"if",
            Keyword::NewLine => b"new_line",
            Keyword::Print => b"print",
            Keyword::Quit => b"quit",
            Keyword::Random => b"random",
            Keyword::Read => b"read",
            Keyword::Return => b"return",
            Keyword::Rfalse => b"rfalse",
            Keyword::Rtrue => b"rtrue",
            Keyword::Switch => b"switch",
            Keyword::To => b"to",
            Keyword::Until => b"until",
            Keyword::While => b"while",
        }
    }

    /// The word of the grammar that is spelled so, in lower case.
    #[tactic(auto, unfolding(crate::specs::Keywords::keyword_spelled))]
    pub fn spelled(word: &[u8]) -> Option<Keyword>
        ensures { result ≡ keyword_spelled word.now }
    {
        among(word, &KEYWORDS)
    }
}

// The first of these that is spelled so.
fn among(word: &[u8], keywords: &[Keyword]) -> Option<Keyword>
    ensures { result
        ≡ find (λ keyword. pointwise nat_eq word.now (keyword_text keyword)) keywords.now }
{
    for keyword in keywords {
        if word == keyword.spelling() {
            return Some(*keyword);
        }
    }
    None
}
