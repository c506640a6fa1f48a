//! What was made, once the symbol is read that ends it.
ghost use Rattle.inform_tree.specs.Statements.{statement_of};
ghost use Rattle.inform_tree.specs.Programs.{directive_of};
ghost use Rattle.inform_lexemes.specs.declared.symbols.Symbol.TheVariants.{Semicolon};
ghost use Rattle.inform_lexemes.specs.Lexemes.{is_sign, is_word};
ghost use Rattle.inform_grammar.specs.Plan.{done, take};
ghost use Rattle.inform_parser.specs.Reading.{ReadsSome};
ghost use Rattle.inform_parser.specs.Guards.{guard_of};

use crate::cursor::Cursor;
use crate::guards::Guard;
use crate::stops::Stop;
use inform_lexemes::{Keyword, Symbol};
use inform_tree::{Directive, Stmt};

impl<'a> Cursor<'a> {
    /// A statement that is nothing but this word, and its semicolon.
    #[inline(always)]
    pub fn alone(&mut self, keyword: Keyword, made: Stmt) -> Result<Stmt, Stop>
        ensures { ReadsSome statement_of
            (take (is_word keyword) (take (is_sign Semicolon) (done (statement_of made))))
            self.old result self.new }
    {
        self.expect_word(keyword)?;
        self.expect(Symbol::Semicolon)?;
        Ok(made)
    }

    /// A statement, up to this symbol.
    #[inline(always)]
    pub fn statement_to(&mut self, symbol: Symbol, made: Stmt) -> Result<Stmt, Stop>
        ensures { ReadsSome statement_of (take (is_sign symbol) (done (statement_of made)))
            self.old result self.new }
    {
        self.expect(symbol)?;
        Ok(made)
    }

    /// What stands where a condition is expected, up to this symbol.
    #[inline(always)]
    pub fn guard_to(&mut self, symbol: Symbol, made: Guard) -> Result<Guard, Stop>
        ensures { ReadsSome guard_of (take (is_sign symbol) (done (guard_of made)))
            self.old result self.new }
    {
        self.expect(symbol)?;
        Ok(made)
    }

    /// A directive, up to this symbol.
    #[inline(always)]
    pub fn directive_to(&mut self, symbol: Symbol, made: Directive) -> Result<Directive, Stop>
        ensures { ReadsSome directive_of (take (is_sign symbol) (done (directive_of made)))
            self.old result self.new }
    {
        self.expect(symbol)?;
        Ok(made)
    }
}
