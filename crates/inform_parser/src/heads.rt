//! Parts of statements with bodies that hold no statement with a body.
ghost use Rattle.inform_grammar.specs.StatementRules.{part_after};
ghost use Rattle.inform_parser.specs.Reading.{ReadsSome};
ghost use Rattle.inform_parser.specs.Guards.{guard_of, guard_if_any};
ghost use Rattle.inform_parser.specs.Parts.{part_of};
ghost use Rattle.inform_tree.specs.Statements.{assignment_if_any};
ghost use Rattle.inform_parser.specs.Plans.{guard_after, until_test, first_change, last_change, test_to_colon};

use crate::cursor::Cursor;
use crate::guards::Guard;
use crate::parts::Part;
use crate::stops::Stop;
use inform_lexemes::{Keyword, Symbol};
use inform_tree::{Change, Const, Name};
use std::alloc::Global;

impl<'a> Cursor<'a> {
    /// This word, and a condition between brackets.
    #[inline(always)]
    pub fn guard_after(&mut self, alloc: Global, keyword: Keyword) -> Result<Guard, Stop>
        ensures { ReadsSome guard_of (guard_after keyword) self.old result self.new }
    {
        self.expect_word(keyword)?;
        self.guard_in_brackets(alloc)
    }

    /// The test of a `do`, with its word and its semicolon.
    #[inline(always)]
    pub fn until_test(&mut self, alloc: Global) -> Result<Guard, Stop>
        ensures { ReadsSome guard_of until_test self.old result self.new }
    {
        let test = self.guard_after(alloc, Keyword::Until)?;
        self.guard_to(Symbol::Semicolon, test)
    }

    /// `for`, and the first change in its head, if there is one, between its bracket and its colon.
    #[inline(always)]
    pub fn first_change(&mut self, alloc: Global) -> Result<Option<Change>, Stop>
        ensures { ReadsSome assignment_if_any first_change self.old result self.new }
    {
        self.expect_word(Keyword::For)?;
        self.expect(Symbol::LeftRound)?;
        let first = self.change_if_any(alloc)?;
        self.expect(Symbol::Colon)?;
        Ok(first)
    }

    /// The last change, if there is one, and the closing bracket.
    #[inline(always)]
    pub fn last_change(&mut self, alloc: Global) -> Result<Option<Change>, Stop>
        ensures { ReadsSome assignment_if_any last_change self.old result self.new }
    {
        let last = self.change_if_any(alloc)?;
        self.expect(Symbol::RightRound)?;
        Ok(last)
    }

    /// The test in the head of a `for`, if there is one, and its colon.
    pub fn test_to_colon(&mut self, alloc: Global) -> Result<Option<Guard>, Stop>
        ensures { ReadsSome guard_if_any test_to_colon self.old result self.new }
    {
        if self.at(Symbol::Colon) {
            self.pass(Symbol::Colon);
            return Ok(None);
        }
        let guard = self.guard(alloc)?;
        self.expect(Symbol::Colon)?;
        Ok(Some(guard))
    }

    /// What follows a name in the braces of a `switch`.
    pub fn part_after(&mut self, alloc: Global, name: Name) -> Result<Part, Stop>
        ensures { ReadsSome part_of (part_after name) self.old result self.new }
    {
        if self.at_choice() {
            return self.head_after(alloc, Const::Name(name));
        }
        let statement = self.statement_after(alloc, name)?;
        Ok(Part::Said(statement))
    }
}
