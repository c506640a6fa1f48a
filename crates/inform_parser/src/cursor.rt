//! The tokens that are left, and how many brackets and statements are open.
ghost use Rattle.std.specs.Prelude.{◌≡◌, ◌≤◌, IfOk, MatchOption, length, drop, reverse, true, false};
ghost use Rattle.inform_lexemes.specs.Lexemes.{Word, Name as NameLexeme, Number, Character, Quoted, Sign, is_sign, is_word, is_name, is_number, is_character, is_quoted};
ghost use Rattle.inform_lexer.specs.Spans.{lexemes};
ghost use Rattle.inform_grammar.specs.Lexemes.{heads, is_arrow, is_factor_sign, is_term_sign, is_relation, relation_in, is_opener, is_closer};
ghost use Rattle.inform_grammar.specs.Reading.{input};
ghost use Rattle.inform_parser.specs.Glances.{first_glance, opens, closes, opened_within};
ghost use Rattle.inform_parser.specs.Reading.{ReadsSome, Passes, StandsNext, shut_spot};
ghost use Rattle.inform_parser.specs.Nexts.{next_of, any_next, arrow_next, relation_next, factor_next, term_next, relation_lexeme};

use crate::stops::Stop;
use adv_io::Memory;
use inform_grammar::limits::OPENER_LIMIT;
use inform_lexemes::{Keyword, Symbol};
use inform_lexer::{Glance, Token, glance, name, text};
use inform_tree::{Name, ProdOp, Relation, SumOp, Text};
use std::alloc::Global;
use std::marker::Model;

/// The tokens that are left, with the first of them at a glance.
///
/// A clause sees how many brackets and statements are open, and the lexemes of the tokens. The next
/// token stands last, so that it can be taken off and the memory of those that were taken given
/// back.
#[derive(Drop)]
pub struct Cursor<'a> {
    bytes: &'a [u8],
    rest: Vec<Token>,
    seen: Option<Glance>,
    opened: usize,
}

impl<'a> Model for Cursor<'a> {
    ghost use Rattle.std.specs.Prelude.{◌≡◌, reverse};
    ghost use Rattle.inform_lexer.specs.Spans.{lexemes};
    ghost use Rattle.inform_grammar.specs.Reading.{Input, input};
    ghost use Rattle.inform_parser.specs.Glances.{first_glance};

    ghost Value = { Input };

    ghost view = { λ c. input c.opened (lexemes c.bytes.now (reverse c.rest.items)) };

    ghost invariant = { λ c. c.seen
        ≡ first_glance (lexemes c.bytes.now (reverse c.rest.items)) };
}

// Sees the last of these tokens.
#[inline(never)]
fn see(seen: &mut Option<Glance>, bytes: &[u8], tokens: &[Token])
    ensures { seen.new ≡ first_glance (lexemes bytes.now (reverse tokens.now)) }
{
    *seen = match tokens {
        [.., token] => Some(glance(bytes, *token)),
        [] => None,
    };
}

// Whether such a lexeme opens something.
#[inline(always)]
fn is_opener(seen: Glance) -> bool
    ensures { result ≡ opens seen }
{
    match seen {
        Glance::Symbol(symbol) => matches!(symbol, Symbol::LeftRound | Symbol::LeftBrace),
        Glance::Word(keyword) => matches!(
            keyword,
            Keyword::If | Keyword::While | Keyword::Do | Keyword::For
        ),
        _ => false,
    }
}

// Whether such a lexeme closes something.
#[inline(always)]
fn is_closer(seen: Glance) -> bool
    ensures { result ≡ closes seen }
{
    match seen {
        Glance::Symbol(symbol) => matches!(symbol, Symbol::RightRound | Symbol::RightBrace),
        _ => false,
    }
}

// How many are open after such a lexeme, where so many were open before it and there is room for
// it.
#[inline(always)]
fn opened_after(seen: Glance, opened: usize) -> Option<usize>
    ensures { result ≡ opened_within seen opened }
{
    if is_opener(seen) {
        if opened >= OPENER_LIMIT {
            return None;
        }
        return Some(opened + 1);
    }
    if is_closer(seen) {
        return Some(opened.saturating_sub(1));
    }
    Some(opened)
}

// How values are compared by a symbol.
fn relation_by(symbol: Symbol) -> Option<Relation>
    ensures { result ≡ relation_in (Sign symbol) }
{
    match symbol {
        Symbol::Equal => Some(Relation::Eq),
        Symbol::NotEqual => Some(Relation::Ne),
        Symbol::Less => Some(Relation::Lt),
        Symbol::Greater => Some(Relation::Gt),
        Symbol::LessEqual => Some(Relation::Le),
        Symbol::GreaterEqual => Some(Relation::Ge),
        _ => None,
    }
}

impl<'a> Cursor<'a> {
    /// The cursor before the first of these tokens, which are those of these bytes.
    pub fn new(bytes: &'a [u8], mut tokens: Vec<Token>) -> Cursor<'a>
        ensures { result ≡ input 0 (lexemes bytes.now tokens.items) }
    {
        tokens.reverse();
        let mut seen = None;
        see(&mut seen, bytes, &tokens);
        Cursor {
            bytes,
            rest: tokens,
            seen,
            opened: 0,
        }
    }

    /// Gives back the memory of the tokens that were taken, where they are no fewer than those that
    /// are left.
    pub fn give_back(&mut self)
        ensures { self.new ≡ self.old }
    {
        if self.rest.len() <= self.rest.capacity() / 2 {
            self.rest.shrink_to_fit();
        }
    }

    /// How many tokens are left.
    pub fn left(&self) -> usize
        ensures { result ≡ length self.now.rest }
    {
        self.rest.len()
    }

    /// What is seen of the next token.
    #[inline(always)]
    pub fn seen(&self) -> Option<Glance>
        ensures { result ≡ first_glance self.now.rest }
    {
        self.seen
    }

    /// Whether this symbol stands next.
    #[tactic(auto, using(crate::proofs::Glances::symbols))]
    #[inline(always)]
    pub fn at(&self, symbol: Symbol) -> bool
        ensures { result ≡ heads (is_sign symbol) self.now.rest }
    {
        match self.seen() {
            Some(Glance::Symbol(seen)) => symbol == seen,
            _ => false,
        }
    }

    /// Whether this word of the grammar stands next.
    #[tactic(auto, using(crate::proofs::Glances::keywords))]
    #[inline(always)]
    pub fn at_word(&self, keyword: Keyword) -> bool
        ensures { result ≡ heads (is_word keyword) self.now.rest }
    {
        match self.seen() {
            Some(Glance::Word(seen)) => keyword == seen,
            _ => false,
        }
    }

    /// Whether a number stands next.
    #[tactic(auto, using(crate::proofs::SeenKinds::numbers))]
    #[inline(always)]
    pub fn at_number(&self) -> bool
        ensures { result ≡ heads is_number self.now.rest }
    {
        match self.seen() {
            Some(Glance::Number(_)) => true,
            _ => false,
        }
    }

    /// Whether a character stands next.
    #[tactic(auto, using(crate::proofs::SeenKinds::characters))]
    #[inline(always)]
    pub fn at_character(&self) -> bool
        ensures { result ≡ heads is_character self.now.rest }
    {
        match self.seen() {
            Some(Glance::Character(_)) => true,
            _ => false,
        }
    }

    /// Whether a name stands next.
    #[tactic(auto, using(crate::proofs::SeenKinds::names))]
    #[inline(always)]
    pub fn at_name(&self) -> bool
        ensures { result ≡ heads is_name self.now.rest }
    {
        match self.seen() {
            Some(Glance::Name) => true,
            _ => false,
        }
    }

    /// Whether a string stands next.
    #[tactic(auto, using(crate::proofs::SeenKinds::texts))]
    #[inline(always)]
    pub fn at_text(&self) -> bool
        ensures { result ≡ heads is_quoted self.now.rest }
    {
        match self.seen() {
            Some(Glance::Quoted) => true,
            _ => false,
        }
    }

    /// Whether `->` or `-->` stands next.
    #[tactic(auto, using(crate::proofs::SeenKinds::at_arrow))]
    #[inline(always)]
    pub fn at_arrow(&self) -> bool
        ensures { result ≡ heads is_arrow self.now.rest }
    {
        self.at(Symbol::ByteArrow) || self.at(Symbol::WordArrow)
    }

    /// Whether the sign of a further factor stands next.
    #[tactic(auto, using(crate::proofs::SeenKinds::at_factor))]
    #[inline(always)]
    pub fn at_factor(&self) -> bool
        ensures { result ≡ heads is_factor_sign self.now.rest }
    {
        self.at(Symbol::Times) || self.at(Symbol::Divide) || self.at(Symbol::Remainder)
    }

    /// Whether the sign of a further term stands next.
    #[tactic(auto, using(crate::proofs::SeenKinds::at_term))]
    #[inline(always)]
    pub fn at_term(&self) -> bool
        ensures { result ≡ heads is_term_sign self.now.rest }
    {
        self.at(Symbol::Plus) || self.at(Symbol::Minus)
    }

    /// Whether a symbol that compares values stands next.
    #[tactic(auto, using(crate::proofs::SeenKinds::at_relation))]
    pub fn at_relation(&self) -> bool
        ensures { result ≡ heads is_relation self.now.rest }
    {
        self.next_relation().is_some()
    }

    /// Takes whatever stands next.
    #[inline(always)]
    pub fn advance(&mut self) -> Result<(), Stop>
        ensures { ReadsSome (λ _. tt) any_next self.old result self.new }
    {
        let Some(seen) = self.seen else {
            return Err(Stop::Unexpected);
        };
        let Some(opened) = opened_after(seen, self.opened) else {
            return Err(Stop::TooDeep);
        };
        self.opened = opened;
        self.skip();
        Ok(())
    }

    // Takes what stands next, where it opens nothing and closes nothing.
    #[inline(always)]
    fn skip(&mut self)
        requires { 1 ≤ length self.old.rest }
        ensures { self.new ≡ input self.old.opened (drop 1 self.old.rest) }
    {
        self.rest.take_last();
        see(&mut self.seen, self.bytes, &self.rest);
    }

    /// Takes this symbol, which stands next, and opens nothing and closes nothing.
    #[tactic(auto, using(crate::proofs::Passing::passed))]
    #[inline(always)]
    pub fn pass(&mut self, symbol: Symbol)
        requires next { heads (is_sign symbol) self.old.rest ≡ true }
        requires opens { is_opener (Sign symbol) ≡ false }
        requires closes { is_closer (Sign symbol) ≡ false }
        ensures { Passes (is_sign symbol) (Sign symbol) self.old self.new }
    {
        self.skip();
    }

    /// Takes this word of the grammar, which stands next and opens nothing.
    #[tactic(auto, using(crate::proofs::Passing::passed))]
    #[inline(always)]
    pub fn pass_word(&mut self, keyword: Keyword)
        requires next { heads (is_word keyword) self.old.rest ≡ true }
        requires opens { is_opener (Word keyword) ≡ false }
        ensures { Passes (is_word keyword) (Word keyword) self.old self.new }
    {
        self.skip();
    }

    /// Takes this symbol, which must stand next.
    #[tactic(auto, using(crate::proofs::Taking::fails))]
    #[inline(always)]
    pub fn expect(&mut self, symbol: Symbol) -> Result<(), Stop>
        ensures { ReadsSome (λ _. Sign symbol) (next_of (is_sign symbol)) self.old result self.new }
    {
        if !self.at(symbol) {
            return Err(Stop::Unexpected);
        }
        self.advance()
    }

    /// Takes this word of the grammar, which must stand next.
    #[tactic(auto, using(crate::proofs::Taking::fails))]
    #[inline(always)]
    pub fn expect_word(&mut self, keyword: Keyword) -> Result<(), Stop>
        ensures { ReadsSome (λ _. Word keyword) (next_of (is_word keyword))
            self.old result self.new }
    {
        if !self.at_word(keyword) {
            return Err(Stop::Unexpected);
        }
        self.advance()
    }

    /// Takes a number, which must stand next.
    #[tactic(auto, using(crate::proofs::Taking::fails))]
    #[inline(always)]
    pub fn number(&mut self) -> Result<u32, Stop>
        ensures { ReadsSome Number (next_of is_number) self.old result self.new }
    {
        if !self.at_number() {
            return Err(Stop::Unexpected);
        }
        Ok(self.pass_number())
    }

    /// Takes the number that stands next.
    #[tactic(auto, using(crate::proofs::Passing::passed_kinds))]
    #[inline(always)]
    pub fn pass_number(&mut self) -> u32
        requires { heads is_number self.old.rest ≡ true }
        ensures { Passes is_number (Number result) self.old self.new }
    {
        let number = match self.seen() {
            Some(Glance::Number(number)) => number,
            _ => 0,
        };
        self.skip();
        number
    }

    /// Takes the character that stands next.
    #[tactic(auto, using(crate::proofs::Passing::passed_kinds))]
    #[inline(always)]
    pub fn pass_character(&mut self) -> u8
        requires { heads is_character self.old.rest ≡ true }
        ensures { Passes is_character (Character result) self.old self.new }
    {
        let byte = match self.seen() {
            Some(Glance::Character(byte)) => byte,
            _ => 0,
        };
        self.skip();
        byte
    }

    // The name that stands next.
    #[tactic(auto, using(crate::proofs::SeenKinds::names, crate::proofs::Backwards::lexeme_first))]
    #[inline(always)]
    fn next_name(&self, alloc: Global) -> Result<Option<Name>, Memory>
        ensures { IfOk result (λ found. MatchOption found (heads is_name self.now.rest ≡ false)
            (λ x. StandsNext (NameLexeme x) self.now)) }
    {
        if !self.at_name() {
            return Ok(None);
        }
        let [.., token] = self.rest.as_slice() else {
            return Ok(None);
        };
        Ok(Some(name(alloc, self.bytes, *token)?))
    }

    /// Takes a name, which must stand next.
    #[tactic(auto, using(crate::proofs::Taking::fails))]
    pub fn name(&mut self, alloc: Global) -> Result<Name, Stop>
        ensures { ReadsSome NameLexeme (next_of is_name) self.old result self.new }
    {
        let Some(name) = self.next_name(alloc)? else {
            return Err(Stop::Unexpected);
        };
        self.skip();
        Ok(name)
    }

    // The text of the string that stands next.
    #[tactic(auto, using(crate::proofs::SeenKinds::texts, crate::proofs::Backwards::lexeme_first))]
    fn next_text(&self, alloc: Global) -> Result<Option<Text>, Memory>
        ensures { IfOk result (λ found. MatchOption found (heads is_quoted self.now.rest ≡ false)
            (λ x. StandsNext (Quoted x) self.now)) }
    {
        if !self.at_text() {
            return Ok(None);
        }
        let [.., token] = self.rest.as_slice() else {
            return Ok(None);
        };
        Ok(Some(text(alloc, self.bytes, *token)?))
    }

    /// Takes a string, which must stand next.
    #[tactic(auto, using(crate::proofs::Taking::fails))]
    pub fn text(&mut self, alloc: Global) -> Result<Text, Stop>
        ensures { ReadsSome Quoted (next_of is_quoted) self.old result self.new }
    {
        let Some(text) = self.next_text(alloc)? else {
            return Err(Stop::Unexpected);
        };
        self.skip();
        Ok(text)
    }

    // How values are compared by the symbol that stands next.
    fn next_relation(&self) -> Option<Relation>
        ensures { MatchOption result (heads is_relation self.now.rest ≡ false)
            (λ x. StandsNext (relation_lexeme x) self.now) }
    {
        match self.seen() {
            Some(Glance::Symbol(symbol)) => relation_by(symbol),
            _ => None,
        }
    }

    /// Takes a symbol that compares values, which must stand next.
    #[tactic(auto, using(crate::proofs::SeenKinds::relation_fails))]
    pub fn relation(&mut self) -> Result<Relation, Stop>
        ensures { ReadsSome (λ op. op) relation_next self.old result self.new }
    {
        let Some(relation) = self.next_relation() else {
            return Err(Stop::Unexpected);
        };
        self.skip();
        Ok(relation)
    }

    /// Takes `->` or `-->`, which must stand next, and tells whether it is the one of words.
    #[tactic(auto, using(crate::proofs::Steps::steps, crate::proofs::SeenKinds::arrows))]
    pub fn arrow(&mut self) -> Result<bool, Stop>
        ensures { ReadsSome (λ words. words) arrow_next self.old result self.new }
    {
        if self.at(Symbol::WordArrow) {
            self.pass(Symbol::WordArrow);
            return Ok(true);
        }
        self.expect(Symbol::ByteArrow)?;
        Ok(false)
    }

    /// Takes the sign of a further factor, which must stand next.
    #[tactic(auto, using(crate::proofs::Steps::steps), unfolding(crate::specs::Nexts::factor_next))]
    #[inline(always)]
    pub fn factor_sign(&mut self) -> Result<ProdOp, Stop>
        ensures { ReadsSome (λ op. op) factor_next self.old result self.new }
    {
        if self.at(Symbol::Times) {
            self.pass(Symbol::Times);
            return Ok(ProdOp::Mul);
        }
        if self.at(Symbol::Divide) {
            self.pass(Symbol::Divide);
            return Ok(ProdOp::Div);
        }
        self.expect(Symbol::Remainder)?;
        Ok(ProdOp::Rem)
    }

    /// Takes the sign of a further term, which must stand next.
    #[tactic(auto, using(crate::proofs::Steps::steps), unfolding(crate::specs::Nexts::term_next))]
    #[inline(always)]
    pub fn term_sign(&mut self) -> Result<SumOp, Stop>
        ensures { ReadsSome (λ op. op) term_next self.old result self.new }
    {
        if self.at(Symbol::Plus) {
            self.pass(Symbol::Plus);
            return Ok(SumOp::Add);
        }
        self.expect(Symbol::Minus)?;
        Ok(SumOp::Sub)
    }

    /// A statement that was open has ended.
    #[inline(always)]
    pub fn shut(&mut self)
        ensures shut { self.new ≡ shut_spot self.old }
        ensures same { self.new.rest ≡ self.old.rest }
    {
        self.opened = self.opened.saturating_sub(1);
    }
}
