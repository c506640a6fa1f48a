//! How a lexeme is written, with the byte after it.
ghost use Rattle.std.specs.Prelude.{◌≡◌, ◌++◌, ◌∷◌, [], OnOk, decimal};
ghost use Rattle.inform_lexemes.specs.Lexemes.{Word, Name as NameLexeme, Number, Character, Quoted, Sign};
ghost use Rattle.inform_lexer.specs.Written.{written, written_word, ends_line};
ghost use Rattle.inform_printer.specs.Printing.{Prints};

use crate::strings::put_inside;
use adv_io::Memory;
use inform_lexemes::{Keyword, Symbol};
use inform_tree::{Name, Text};
use itoa::{Buffer, Integer};

/// Writes the decimal digits of an integer.
pub fn put_decimal<I: Integer>(out: &mut Vec<u8>, n: I) -> Result<(), Memory>
    ensures { OnOk result (out.new.items ≡ out.old.items ++ I.text n) }
{
    let mut buffer = Buffer::new();
    out.extend_from_slice(buffer.format(n).as_bytes())?;
    Ok(())
}

// Writes these bytes, and the one after them.
fn put_spelled(out: &mut Vec<u8>, spelling: &[u8], gap: u8) -> Result<(), Memory>
    ensures { OnOk result (out.new.items ≡ out.old.items ++ (spelling.now ++ gap ∷ [])) }
{
    out.extend_from_slice(spelling)?;
    out.push(gap)?;
    Ok(())
}

// How a word of the grammar is written: those that begin a directive keep their capital.
fn written_word(keyword: Keyword) -> &'static [u8]
    ensures { result.now ≡ written_word keyword }
{
    match keyword {
        Keyword::Array => b"Array",
        Keyword::Constant => b"Constant",
        Keyword::Global => b"Global",
        _ => keyword.spelling(),
    }
}

// Whether a line ends after a symbol.
fn ends_line(symbol: Symbol) -> bool
    ensures { result ≡ ends_line (Sign symbol) }
{
    match symbol {
        Symbol::Semicolon => true,
        Symbol::LeftBrace => true,
        Symbol::RightBrace => true,
        _ => false,
    }
}

/// Writes a word of the grammar.
#[tactic(auto, using(crate::proofs::Written::prints_lexeme), unfolding(inform_lexer::specs::Written::written))]
pub fn put_word(out: &mut Vec<u8>, keyword: Keyword) -> Result<(), Memory>
    ensures { OnOk result (Prints (λ rest. Word keyword ∷ rest) out.old.items out.new.items) }
{
    put_spelled(out, written_word(keyword), b' ')
}

/// Writes a symbol. A line ends after `;` and after a brace.
#[tactic(auto, using(crate::proofs::Written::prints_lexeme), unfolding(inform_lexer::specs::Written::written))]
pub fn put_sign(out: &mut Vec<u8>, symbol: Symbol) -> Result<(), Memory>
    ensures { OnOk result (Prints (λ rest. Sign symbol ∷ rest) out.old.items out.new.items) }
{
    let gap = if ends_line(symbol) { b'\n' } else { b' ' };
    put_spelled(out, symbol.spelling(), gap)
}

/// Writes a name.
#[tactic(auto, using(crate::proofs::Written::prints_lexeme), unfolding(inform_lexer::specs::Written::written))]
pub fn put_name(out: &mut Vec<u8>, name: &Name) -> Result<(), Memory>
    ensures { OnOk result (Prints (λ rest. NameLexeme name.now ∷ rest)
        out.old.items out.new.items) }
{
    put_spelled(out, name.bytes(), b' ')
}

/// Writes a number in decimal.
#[tactic(auto, using(crate::proofs::Written::prints_lexeme), unfolding(inform_lexer::specs::Written::written))]
pub fn put_number(out: &mut Vec<u8>, number: u32) -> Result<(), Memory>
    ensures { OnOk result (Prints (λ rest. Number number ∷ rest) out.old.items out.new.items) }
{
    let mut buffer = Buffer::new();
    put_spelled(out, buffer.format(number).as_bytes(), b' ')
}

/// Writes a character between apostrophes.
#[tactic(auto, using(crate::proofs::Written::prints_lexeme), unfolding(inform_lexer::specs::Written::written))]
pub fn put_character(out: &mut Vec<u8>, byte: u8) -> Result<(), Memory>
    ensures { OnOk result (Prints (λ rest. Character byte ∷ rest) out.old.items out.new.items) }
{
    put_spelled(out, &[b'\'', byte, b'\''], b' ')
}

// Writes a text between quotes, without the byte after it.
#[tactic(auto, unfolding(inform_lexer::specs::Written::written))]
fn put_quoted(out: &mut Vec<u8>, text: &[u8]) -> Result<(), Memory>
    ensures { OnOk result (out.new.items ≡ out.old.items ++ written (Quoted text.now)) }
{
    out.push(b'"')?;
    put_inside(out, text)?;
    out.push(b'"')?;
    Ok(())
}

/// Writes a text between quotes.
#[tactic(auto, using(crate::proofs::Written::prints_pair))]
pub fn put_text(out: &mut Vec<u8>, text: &Text) -> Result<(), Memory>
    ensures { OnOk result (Prints (λ rest. Quoted text.now ∷ rest) out.old.items out.new.items) }
{
    put_quoted(out, text.bytes())?;
    out.push(b' ')?;
    Ok(())
}
