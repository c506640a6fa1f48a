//! Changes, and the statements that begin with a name.
ghost use Rattle.inform_tree.specs.Statements.{assignment_of, assignment_if_any, statement_of};
ghost use Rattle.inform_grammar.specs.StatementRules.{change_after, statement_after};
ghost use Rattle.inform_parser.specs.Reading.{Reads, ReadsSome};
ghost use Rattle.inform_parser.specs.Plans.{change_if_any};

use crate::cursor::Cursor;
use crate::stops::Stop;
use inform_lexemes::Symbol;
use inform_tree::{Change, Name, Stmt};
use std::alloc::Global;

impl<'a> Cursor<'a> {
    // What follows a name that is changed.
    #[inline(always)]
    fn change_after(&mut self, alloc: Global, name: Name) -> Result<Change, Stop>
        ensures { ReadsSome assignment_of (change_after name) self.old result self.new }
    {
        if self.at(Symbol::Assign) {
            self.pass(Symbol::Assign);
            let value = self.value(alloc)?;
            return Ok(Change::Set(name, value));
        }
        if self.at_arrow() {
            let words = self.arrow()?;
            let index = self.primary(alloc)?;
            self.expect(Symbol::Assign)?;
            let value = self.value(alloc)?;
            return Ok(Change::SetEntry(name, words, index, value));
        }
        if self.at(Symbol::Increment) {
            self.pass(Symbol::Increment);
            return Ok(Change::Inc(name));
        }
        self.expect(Symbol::Decrement)?;
        Ok(Change::Dec(name))
    }

    /// A change, if one stands next.
    pub fn change_if_any(&mut self, alloc: Global) -> Result<Option<Change>, Stop>
        ensures { Reads assignment_if_any change_if_any self.old result self.new }
    {
        if !self.at_name() {
            return Ok(None);
        }
        let name = self.name(alloc)?;
        let change = self.change_after(alloc, name)?;
        Ok(Some(change))
    }

    /// A call or a change with its semicolon, after its name.
    #[inline(always)]
    pub fn statement_after(&mut self, alloc: Global, name: Name) -> Result<Stmt, Stop>
        ensures { ReadsSome statement_of (statement_after name) self.old result self.new }
    {
        if self.at(Symbol::LeftRound) {
            self.expect(Symbol::LeftRound)?;
            let arguments = self.arguments(alloc)?;
            return self.statement_to(Symbol::Semicolon, Stmt::Call(name, arguments));
        }
        let change = self.change_after(alloc, name)?;
        self.statement_to(Symbol::Semicolon, Stmt::Change(change))
    }
}
