//! The symbol that stands first.
ghost use Rattle.std.specs.Prelude.{◌≡◌, ◌+◌, ◌≤◌, ◌<◌, ℕ, List, [], ◌∷◌, Some, IfSome, length};
ghost use Rattle.inform_lexemes.specs.Symbols.{symbol_text, symbol_spelled};
ghost use Rattle.inform_lexer.specs.Tokens.{symbol_first};

use inform_lexemes::Symbol;

// The symbol that this byte alone is.
#[tactic(auto, unfolding(inform_lexemes::specs::Symbols::symbol_spelled))]
#[inline(always)]
fn one_byte(first: u8) -> Option<Symbol>
    ensures { result ≡ symbol_spelled (first ∷ []) }
{
    match first {
        b';' => Some(Symbol::Semicolon),
        b',' => Some(Symbol::Comma),
        b':' => Some(Symbol::Colon),
        b'(' => Some(Symbol::LeftRound),
        b')' => Some(Symbol::RightRound),
        b'{' => Some(Symbol::LeftBrace),
        b'}' => Some(Symbol::RightBrace),
        b'[' => Some(Symbol::LeftSquare),
        b']' => Some(Symbol::RightSquare),
        b'=' => Some(Symbol::Assign),
        b'<' => Some(Symbol::Less),
        b'>' => Some(Symbol::Greater),
        b'+' => Some(Symbol::Plus),
        b'-' => Some(Symbol::Minus),
        b'*' => Some(Symbol::Times),
        b'/' => Some(Symbol::Divide),
        b'%' => Some(Symbol::Remainder),
        _ => None,
    }
}

// The symbol that these two bytes are.
#[tactic(auto, unfolding(inform_lexemes::specs::Symbols::symbol_spelled))]
#[inline(always)]
fn two_bytes(first: u8, second: u8) -> Option<Symbol>
    ensures { result ≡ symbol_spelled (first ∷ second ∷ []) }
{
    match first {
        b'=' if second == b'=' => Some(Symbol::Equal),
        b'~' if second == b'=' => Some(Symbol::NotEqual),
        b'~' if second == b'~' => Some(Symbol::Not),
        b'<' if second == b'=' => Some(Symbol::LessEqual),
        b'>' if second == b'=' => Some(Symbol::GreaterEqual),
        b'&' if second == b'&' => Some(Symbol::And),
        b'|' if second == b'|' => Some(Symbol::Or),
        b'-' if second == b'>' => Some(Symbol::ByteArrow),
        b'-' if second == b'-' => Some(Symbol::Decrement),
        b'+' if second == b'+' => Some(Symbol::Increment),
        _ => None,
    }
}

// The symbol that these three bytes are.
#[tactic(auto, unfolding(inform_lexemes::specs::Symbols::symbol_spelled))]
#[inline(always)]
fn three_bytes(first: u8, second: u8, third: u8) -> Option<Symbol>
    ensures { result ≡ symbol_spelled (first ∷ second ∷ third ∷ []) }
{
    if first == b'-' && second == b'-' && third == b'>' {
        Some(Symbol::WordArrow)
    } else {
        None
    }
}

/// The symbol that these bytes are.
#[tactic(auto, unfolding(inform_lexemes::specs::Symbols::symbol_spelled))]
#[inline(always)]
pub fn symbol_of(bytes: &[u8]) -> Option<Symbol>
    ensures { result ≡ symbol_spelled bytes.now }
{
    match bytes {
        [first] => one_byte(*first),
        [first, second] => two_bytes(*first, *second),
        [first, second, third] => three_bytes(*first, *second, *third),
        _ => None,
    }
}

// The longest symbol that these bytes begin with, whichever it is.
#[tactic(auto, using(crate::proofs::LongestSymbol::few_bytes))]
#[inline(always)]
fn longest_symbol(bytes: &[u8]) -> Option<Symbol>
    ensures { result ≡ symbol_first bytes.now }
{
    match bytes {
        [first, second, third, ..] => {
            let shorter = two_bytes(*first, *second).or(one_byte(*first));
            three_bytes(*first, *second, *third).or(shorter)
        }
        [first, second] => two_bytes(*first, *second).or(one_byte(*first)),
        [first] => one_byte(*first),
        [] => None,
    }
}

// The symbol that this byte is, where no longer one begins with it.
#[tactic(auto, using(crate::proofs::LoneSymbols::lone_symbols))]
#[inline(always)]
fn lone_symbol(first: u8) -> Option<Symbol>
    ensures { IfSome result (λ symbol. (bytes : List ℕ)
        → symbol_first (first ∷ bytes) ≡ Some symbol) }
{
    match first {
        b';' => Some(Symbol::Semicolon),
        b',' => Some(Symbol::Comma),
        b':' => Some(Symbol::Colon),
        b'(' => Some(Symbol::LeftRound),
        b')' => Some(Symbol::RightRound),
        b'{' => Some(Symbol::LeftBrace),
        b'}' => Some(Symbol::RightBrace),
        b'[' => Some(Symbol::LeftSquare),
        b']' => Some(Symbol::RightSquare),
        b'*' => Some(Symbol::Times),
        b'/' => Some(Symbol::Divide),
        b'%' => Some(Symbol::Remainder),
        _ => None,
    }
}

/// The longest symbol that these bytes begin with.
#[inline(always)]
pub fn symbol_first(bytes: &[u8]) -> Option<Symbol>
    ensures { result ≡ symbol_first bytes.now }
{
    match bytes {
        [first, ..] => match lone_symbol(*first) {
            Some(symbol) => Some(symbol),
            None => longest_symbol(bytes),
        },
        [] => longest_symbol(bytes),
    }
}
