//! Statements without a body that begin with a word.
ghost use Rattle.inform_tree.specs.Statements.{statement_of};
ghost use Rattle.inform_parser.specs.Reading.{ReadsSome};
ghost use Rattle.inform_parser.specs.Plans.{plain_statement, simple_statement};

use crate::cursor::Cursor;
use crate::stops::Stop;
use inform_lexemes::{Keyword, Symbol};
use inform_tree::Stmt;
use std::alloc::Global;

impl<'a> Cursor<'a> {
    // A statement that is nothing but a word.
    #[inline(always)]
    fn plain_statement(&mut self) -> Result<Stmt, Stop>
        ensures { ReadsSome statement_of plain_statement self.old result self.new }
    {
        if self.at_word(Keyword::Break) {
            return self.alone(Keyword::Break, Stmt::Break);
        }
        if self.at_word(Keyword::Continue) {
            return self.alone(Keyword::Continue, Stmt::Continue);
        }
        if self.at_word(Keyword::Quit) {
            return self.alone(Keyword::Quit, Stmt::Quit);
        }
        if self.at_word(Keyword::Rtrue) {
            return self.alone(Keyword::Rtrue, Stmt::Rtrue);
        }
        if self.at_word(Keyword::Rfalse) {
            return self.alone(Keyword::Rfalse, Stmt::Rfalse);
        }
        self.alone(Keyword::NewLine, Stmt::NewLine)
    }

    /// A statement that has no body and begins with a word.
    #[inline(always)]
    pub fn simple_statement(&mut self, alloc: Global) -> Result<Stmt, Stop>
        ensures { ReadsSome statement_of simple_statement self.old result self.new }
    {
        if self.at_word(Keyword::Print) {
            self.pass_word(Keyword::Print);
            return self.print_after(alloc);
        }
        if self.at_word(Keyword::Return) {
            self.pass_word(Keyword::Return);
            if self.at(Symbol::Semicolon) {
                self.pass(Symbol::Semicolon);
                return Ok(Stmt::Return(None));
            }
            let value = self.value(alloc)?;
            return self.statement_to(Symbol::Semicolon, Stmt::Return(Some(value)));
        }
        if self.at_word(Keyword::Read) {
            self.pass_word(Keyword::Read);
            let line = self.name(alloc)?;
            let words = self.name(alloc)?;
            return self.statement_to(Symbol::Semicolon, Stmt::Read(line, words));
        }
        self.plain_statement()
    }
}
