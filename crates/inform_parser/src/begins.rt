//! What begins with what stands next.
ghost use Rattle.std.specs.Prelude.{◌≡◌, ◌||◌};
ghost use Rattle.inform_grammar.specs.Lexemes.{heads, continues_choice};
ghost use Rattle.inform_parser.specs.Begins.{begins_statement, statement_seen, begins_bare, begins_entry, begins_directive};

use crate::cursor::Cursor;
use inform_lexemes::{Keyword, Symbol};
use inform_lexer::Glance;

// Whether a statement begins with such a lexeme.
#[inline(always)]
fn begins_statement(seen: Glance) -> bool
    ensures { result ≡ statement_seen seen }
{
    match seen {
        Glance::Name => true,
        Glance::Symbol(symbol) => matches!(symbol, Symbol::Semicolon | Symbol::LeftBrace),
        Glance::Word(keyword) => begins_with_word(keyword),
        _ => false,
    }
}

// Whether a statement begins with this word.
#[inline(always)]
fn begins_with_word(keyword: Keyword) -> bool
    ensures { result ≡ statement_seen (Glance.Word keyword) }
{
    matches!(
        keyword,
        Keyword::If
            | Keyword::While
            | Keyword::Do
            | Keyword::For
            | Keyword::Switch
            | Keyword::Break
            | Keyword::Continue
            | Keyword::Quit
            | Keyword::Rtrue
            | Keyword::Rfalse
            | Keyword::Return
            | Keyword::NewLine
            | Keyword::Print
            | Keyword::Read
    )
}

impl<'a> Cursor<'a> {
    /// Whether a statement begins with what stands next.
    #[tactic(auto, using(crate::proofs::BeginSteps::statements_seen))]
    #[inline(always)]
    pub fn at_statement(&self) -> bool
        ensures { result ≡ heads begins_statement self.now.rest }
    {
        match self.seen() {
            Some(seen) => begins_statement(seen),
            None => false,
        }
    }

    /// Whether a constant that is no name begins with what stands next.
    #[tactic(auto, using(crate::proofs::BeginSteps::bare))]
    pub fn at_bare_constant(&self) -> bool
        ensures { result ≡ heads begins_bare self.now.rest }
    {
        self.at_number() || self.at_character() || self.at(Symbol::Minus)
    }

    /// Whether what stands next follows a name that begins a case.
    #[tactic(auto, using(crate::proofs::BeginSteps::choices))]
    pub fn at_choice(&self) -> bool
        ensures { result ≡ heads continues_choice self.now.rest }
    {
        self.at(Symbol::Colon) || self.at(Symbol::Comma) || self.at_word(Keyword::To)
    }

    /// Whether an entry of an array begins with what stands next.
    #[tactic(auto, using(crate::proofs::BeginSteps::entries))]
    pub fn at_entry(&self) -> bool
        ensures { result ≡ heads begins_entry self.now.rest }
    {
        self.at_number() || self.at_character() || self.at_name() || self.at(Symbol::LeftRound)
    }

    /// Whether a directive begins with what stands next.
    #[tactic(auto, using(crate::proofs::BeginSteps::directives))]
    pub fn at_directive(&self) -> bool
        ensures { result ≡ heads begins_directive self.now.rest }
    {
        self.at_word(Keyword::Constant)
            || self.at_word(Keyword::Global)
            || self.at_word(Keyword::Array)
            || self.at(Symbol::LeftSquare)
    }

    /// Whether the choices of a case or a statement begin with what stands next.
    pub fn at_part(&self) -> bool
        ensures { result ≡ (heads begins_bare self.now.rest
            || heads begins_statement self.now.rest) }
    {
        self.at_bare_constant() || self.at_statement()
    }
}
