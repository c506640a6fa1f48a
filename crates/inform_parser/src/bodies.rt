//! Statements, with their bodies.
ghost use Rattle.std.specs.Prelude.{◌≡◌, [], option_map};
ghost use Rattle.inform_tree.specs.Values.{expression_of};
ghost use Rattle.inform_tree.specs.Conditions.{condition_of};
ghost use Rattle.inform_tree.specs.Statements.{statement_of, assignment_if_any, cases_of};
ghost use Rattle.inform_grammar.specs.Rules as r;
ghost use Rattle.inform_grammar.specs.Trees.{condition};
ghost use Rattle.inform_grammar.specs.StatementRules.{else_after, for_body, switch, cases_after};
ghost use Rattle.inform_grammar.specs.Plan.{done, one, many};
ghost use Rattle.inform_parser.specs.Reading.{Reads, ReadsSome};
ghost use Rattle.inform_parser.specs.Guards.{guard_of, guard_if_any};
ghost use Rattle.inform_parser.specs.Parts.{part_of, parts_in};
ghost use Rattle.inform_parser.specs.Views.{statements_in};
ghost use Rattle.inform_parser.specs.Plans.{statements_in_braces, if_statement, while_statement, do_statement, for_statement, default_read};

use crate::cursor::Cursor;
use crate::guards::Guard;
use crate::parts::{Part, cases};
use crate::stops::Stop;
use inform_lexemes::{Keyword, Symbol};
use inform_tree::{Case, Change, Cond, Expr, Head, Stmt};
use std::alloc::Global;

// How many statements a body is expected to have: most have one, and a statement is large.
const BODY_ROOM: usize = 1;

// The condition, if there is one.
#[inline(always)]
fn condition_if_any(guard: Option<Guard>) -> Option<Cond>
    ensures { option_map condition_of result ≡ option_map condition (guard_if_any guard) }
{
    match guard {
        Some(guard) => Some(guard.into_condition()),
        None => None,
    }
}

impl<'a> Cursor<'a> {
    // A statement.
    #[cycle(statements)]
    fn statement(&mut self, alloc: Global) -> Result<Stmt, Stop>
        ensures { ReadsSome statement_of (one r.Statement done) self.old result self.new }
    {
        if self.at(Symbol::Semicolon) {
            self.pass(Symbol::Semicolon);
            return Ok(Stmt::Empty);
        }
        if self.at(Symbol::LeftBrace) {
            let body = self.statements_in_braces(alloc)?;
            return Ok(Stmt::Block(body));
        }
        if self.at_name() {
            let name = self.name(alloc)?;
            return self.statement_after(alloc, name);
        }
        if self.at_word(Keyword::If) {
            return self.if_statement(alloc);
        }
        if self.at_word(Keyword::While) {
            return self.while_statement(alloc);
        }
        if self.at_word(Keyword::Do) {
            return self.do_statement(alloc);
        }
        if self.at_word(Keyword::For) {
            return self.for_statement(alloc);
        }
        if self.at_word(Keyword::Switch) {
            self.pass_word(Keyword::Switch);
            return self.switch_after(alloc);
        }
        self.simple_statement(alloc)
    }

    /// Statements, as long as one begins with what stands next. So many are expected, and room is
    /// taken for those.
    #[cycle(statements)]
    pub fn statements(&mut self, alloc: Global, room: usize) -> Result<Vec<Stmt>, Stop>
        ensures { Reads statements_in (many r.Statement [] done) self.old result self.new }
    {
        let mut statements = Vec::with_capacity(alloc, room)?;
        while self.at_statement() {
            let statement = self.statement(alloc)?;
            statements.push(statement)?;
        }
        statements.shrink_to_fit();
        Ok(statements)
    }

    // Statements between braces.
    #[cycle(statements)]
    fn statements_in_braces(&mut self, alloc: Global) -> Result<Vec<Stmt>, Stop>
        ensures { ReadsSome statements_in statements_in_braces self.old result self.new }
    {
        self.expect(Symbol::LeftBrace)?;
        let body = self.statements(alloc, BODY_ROOM)?;
        self.expect(Symbol::RightBrace)?;
        Ok(body)
    }

    // A body: statements in braces, or one other statement.
    #[cycle(statements)]
    fn body(&mut self, alloc: Global) -> Result<Vec<Stmt>, Stop>
        ensures { ReadsSome statements_in (one r.Body done) self.old result self.new }
    {
        if self.at(Symbol::LeftBrace) {
            return self.statements_in_braces(alloc);
        }
        let statement = self.statement(alloc)?;
        let mut body = Vec::with_capacity(alloc, 1)?;
        body.push(statement)?;
        Ok(body)
    }

    // What follows the body of an `if`.
    #[cycle(statements)]
    #[tactic(auto, using(crate::proofs::Steps::steps, crate::proofs::TreesMade::bodies), unfolding(inform_grammar::specs::StatementRules::else_after))]
    #[inline(always)]
    fn else_after(&mut self, alloc: Global, test: Guard, body: Vec<Stmt>) -> Result<Stmt, Stop>
        ensures { Reads statement_of (else_after (guard_of test) (statements_in body))
            self.old result self.new }
    {
        if self.at_word(Keyword::Else) {
            self.pass_word(Keyword::Else);
            let other = self.body(alloc)?;
            self.shut();
            return Ok(Stmt::If(test.into_condition(), body, other));
        }
        self.shut();
        Ok(Stmt::If(test.into_condition(), body, Vec::new(alloc)))
    }

    // An `if`.
    #[cycle(statements)]
    #[inline(always)]
    fn if_statement(&mut self, alloc: Global) -> Result<Stmt, Stop>
        ensures { ReadsSome statement_of if_statement self.old result self.new }
    {
        let test = self.guard_after(alloc, Keyword::If)?;
        let body = self.body(alloc)?;
        self.else_after(alloc, test, body)
    }

    // A `while`.
    #[cycle(statements)]
    #[inline(always)]
    fn while_statement(&mut self, alloc: Global) -> Result<Stmt, Stop>
        ensures { ReadsSome statement_of while_statement self.old result self.new }
    {
        let test = self.guard_after(alloc, Keyword::While)?;
        let body = self.body(alloc)?;
        self.shut();
        Ok(Stmt::While(test.into_condition(), body))
    }

    // A `do`.
    #[cycle(statements)]
    #[inline(always)]
    fn do_statement(&mut self, alloc: Global) -> Result<Stmt, Stop>
        ensures { ReadsSome statement_of do_statement self.old result self.new }
    {
        self.expect_word(Keyword::Do)?;
        let body = self.body(alloc)?;
        let test = self.until_test(alloc)?;
        self.shut();
        Ok(Stmt::Do(body, test.into_condition()))
    }

    // The body of a `for`, after its head.
    #[cycle(statements)]
    #[inline(always)]
    fn for_body(
        &mut self,
        alloc: Global,
        first: Option<Change>,
        test: Option<Guard>,
        last: Option<Change>,
    ) -> Result<Stmt, Stop>
        ensures { Reads statement_of
            (for_body (assignment_if_any first) (guard_if_any test) (assignment_if_any last))
            self.old result self.new }
    {
        let head = Head {
            first,
            test: condition_if_any(test),
            next: last,
        };
        let head = Box::new(alloc, head)?;
        let body = self.body(alloc)?;
        self.shut();
        Ok(Stmt::For(head, body))
    }

    // A `for`.
    #[cycle(statements)]
    #[inline(always)]
    fn for_statement(&mut self, alloc: Global) -> Result<Stmt, Stop>
        ensures { ReadsSome statement_of for_statement self.old result self.new }
    {
        let first = self.first_change(alloc)?;
        let test = self.test_to_colon(alloc)?;
        let last = self.last_change(alloc)?;
        self.for_body(alloc, first, test, last)
    }

    // What follows `switch`.
    #[cycle(statements)]
    #[inline(always)]
    fn switch_after(&mut self, alloc: Global) -> Result<Stmt, Stop>
        ensures { Reads statement_of switch self.old result self.new }
    {
        let value = self.value_in_brackets(alloc)?;
        self.expect(Symbol::LeftBrace)?;
        self.cases_after(alloc, value)
    }

    // What stands in the braces of a `switch`.
    #[cycle(statements)]
    #[tactic(auto, using(crate::proofs::Steps::steps, crate::proofs::BodySteps::cases_steps))]
    #[inline(always)]
    fn cases_after(&mut self, alloc: Global, value: Expr) -> Result<Stmt, Stop>
        ensures { Reads statement_of (cases_after (expression_of value)) self.old result self.new }
    {
        if !self.at_bare_constant() && !self.at_name() {
            return self.default_after(alloc, value, Vec::new(alloc));
        }
        let choices = self.first_choices(alloc)?;
        let parts = self.parts(alloc)?;
        let cases = cases(alloc, choices, parts)?;
        self.default_after(alloc, value, cases)
    }

    // What ends a `switch`.
    #[cycle(statements)]
    #[inline(always)]
    fn default_after(&mut self, alloc: Global, value: Expr, cases: Vec<Case>) -> Result<Stmt, Stop>
        ensures { Reads statement_of (default_read (expression_of value) (cases_of cases.items))
            self.old result self.new }
    {
        if self.at_word(Keyword::Default) {
            self.pass_word(Keyword::Default);
            self.expect(Symbol::Colon)?;
            let body = self.statements(alloc, BODY_ROOM)?;
            let made = Stmt::Switch(value, cases, Some(body));
            return self.statement_to(Symbol::RightBrace, made);
        }
        self.statement_to(Symbol::RightBrace, Stmt::Switch(value, cases, None))
    }

    // What stands in the braces of a `switch`: the choices of a case, or a statement.
    #[cycle(statements)]
    fn part(&mut self, alloc: Global) -> Result<Part, Stop>
        ensures { ReadsSome part_of (one r.Part done) self.old result self.new }
    {
        if self.at_name() {
            let name = self.name(alloc)?;
            return self.part_after(alloc, name);
        }
        if self.at_bare_constant() {
            let first = self.constant(alloc)?;
            return self.head_after(alloc, first);
        }
        let statement = self.statement(alloc)?;
        Ok(Part::Said(statement))
    }

    // What stands in the braces of a `switch` after the choices of its first case.
    #[cycle(statements)]
    fn parts(&mut self, alloc: Global) -> Result<Vec<Part>, Stop>
        ensures { Reads parts_in (many r.Part [] done) self.old result self.new }
    {
        let mut parts = Vec::new(alloc);
        while self.at_part() {
            let part = self.part(alloc)?;
            parts.push(part)?;
        }
        Ok(parts)
    }
}
