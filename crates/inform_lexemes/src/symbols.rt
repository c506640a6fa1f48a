//! The symbols of the profile.
ghost use Rattle.std.specs.Prelude.{◌≡◌, nat_eq, find};
ghost use Rattle.std.specs.Cmp.Lexicographic.{pointwise};
ghost use Rattle.inform_lexemes.specs.Symbols.{symbol_text, symbol_spelled};

/// A symbol. docs/INFORM.md has what each means.
#[derive(Clone, Copy, Debug, PartialEq, Eq)]
pub enum Symbol {
    /// `;`
    Semicolon,
    /// `,`
    Comma,
    /// `:`
    Colon,
    /// `(`
    LeftRound,
    /// `)`
    RightRound,
    /// `{`
    LeftBrace,
    /// `}`
    RightBrace,
    /// `[`
    LeftSquare,
    /// `]`
    RightSquare,
    /// `=`
    Assign,
    /// `==`
    Equal,
    /// `~=`
    NotEqual,
    /// `<`
    Less,
    /// `>`
    Greater,
    /// `<=`
    LessEqual,
    /// `>=`
    GreaterEqual,
    /// `&&`
    And,
    /// `||`
    Or,
    /// `~~`
    Not,
    /// `+`
    Plus,
    /// `-`
    Minus,
    /// `*`
    Times,
    /// `/`
    Divide,
    /// `%`
    Remainder,
    /// `->`
    ByteArrow,
    /// `-->`
    WordArrow,
    /// `++`
    Increment,
    /// `--`
    Decrement,
}

/// All of them, in the order in which they are declared.
pub static SYMBOLS: [Symbol; 28] = [
    Symbol::Semicolon,
    Symbol::Comma,
    Symbol::Colon,
    Symbol::LeftRound,
    Symbol::RightRound,
    Symbol::LeftBrace,
    Symbol::RightBrace,
    Symbol::LeftSquare,
    Symbol::RightSquare,
    Symbol::Assign,
    Symbol::Equal,
    Symbol::NotEqual,
    Symbol::Less,
    Symbol::Greater,
    Symbol::LessEqual,
    Symbol::GreaterEqual,
    Symbol::And,
    Symbol::Or,
    Symbol::Not,
    Symbol::Plus,
    Symbol::Minus,
    Symbol::Times,
    Symbol::Divide,
    Symbol::Remainder,
    Symbol::ByteArrow,
    Symbol::WordArrow,
    Symbol::Increment,
    Symbol::Decrement,
];

impl Symbol {
    /// The bytes that it is written with.
    pub fn spelling(self) -> &'static [u8]
        ensures { result.now ≡ symbol_text self }
    {
        match self {
            Symbol::Semicolon => b";",
            Symbol::Comma => b",",
            Symbol::Colon => b":",
            Symbol::LeftRound => b"(",
            Symbol::RightRound => b")",
            Symbol::LeftBrace => b"{",
            Symbol::RightBrace => b"}",
            Symbol::LeftSquare => b"[",
            Symbol::RightSquare => b"]",
            Symbol::Assign => b"=",
            Symbol::Equal => b"==",
            Symbol::NotEqual => b"~=",
            Symbol::Less => b"<",
            Symbol::Greater => b">",
            Symbol::LessEqual => b"<=",
            Symbol::GreaterEqual => b">=",
            Symbol::And => b"&&",
            Symbol::Or => b"||",
            Symbol::Not => b"~~",
            Symbol::Plus => b"+",
            Symbol::Minus => b"-",
            Symbol::Times => b"*",
            Symbol::Divide => b"/",
            Symbol::Remainder => b"%",
            Symbol::ByteArrow => b"->",
            Symbol::WordArrow => b"-->",
            Symbol::Increment => b"++",
            Symbol::Decrement => b"--",
        }
    }

    /// The symbol that is spelled so.
    #[tactic(auto, unfolding(crate::specs::Symbols::symbol_spelled))]
    pub fn spelled(text: &[u8]) -> Option<Symbol>
        ensures { result ≡ symbol_spelled text.now }
    {
        among(text, &SYMBOLS)
    }
}

// The first of these that is spelled so.
fn among(text: &[u8], symbols: &[Symbol]) -> Option<Symbol>
    ensures { result ≡ find (λ symbol. pointwise nat_eq text.now (symbol_text symbol)) symbols.now }
{
    for symbol in symbols {
        if text == symbol.spelling() {
            return Some(*symbol);
        }
    }
    None
}
