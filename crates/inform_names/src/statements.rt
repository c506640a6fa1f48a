//! What is wrong in statements.
ghost use Rattle.std.specs.Prelude.{◌≡◌};
ghost use Rattle.inform_tree.specs.Statements.{statement_of, statements_of, cases_of};
ghost use Rattle.inform_names.specs.Demands.{statement_demands, statements_demands, cases_demands};
ghost use Rattle.inform_names.specs.Refusals.{found};
ghost use Rattle.inform_names.specs.Places.{first_fault};

use crate::enclosures::Enclosure;
use crate::places::Scope;
use crate::refusals::Refusal;
use crate::values::argument_count;
use inform_tree::{Case, Stmt};

impl<'t, 'a> Scope<'t, 'a> {
    ghost use Rattle.inform_names.specs.Scopes.{scope_of};

    #[cycle(statements)]
    fn test_statement(&self, round: Enclosure, statement: &'a Stmt) -> Result<(), Refusal<'a>>
        ensures { found result ≡ first_fault (scope_of self.now)
            (statement_demands round (statement_of statement.now)) }
    {
        match statement {
            Stmt::Block(body) => self.test_statements(round, body),
            Stmt::Change(change) => self.test_change(change),
            Stmt::Call(name, arguments) => {
                self.test_call(name, argument_count(arguments))?;
                self.test_expressions(arguments)
            }
            Stmt::If(test, body, other) => {
                self.test_condition(test)?;
                self.test_statements(round, body)?;
                self.test_statements(round, other)
            }
            Stmt::While(test, body) => {
                self.test_condition(test)?;
                self.test_statements(Enclosure::of_loop(), body)
            }
            Stmt::Do(body, test) => {
                self.test_statements(Enclosure::of_loop(), body)?;
                self.test_condition(test)
            }
            Stmt::For(head, body) => {
                self.test_head(head)?;
                self.test_statements(Enclosure::of_loop(), body)
            }
            Stmt::Switch(value, cases, Some(rest)) => {
                self.test_expression(value)?;
                self.test_cases(round.of_switch(), cases)?;
                self.test_statements(round.of_switch(), rest)
            }
            Stmt::Switch(value, cases, None) => {
                self.test_expression(value)?;
                self.test_cases(round.of_switch(), cases)
            }
            Stmt::Break => self.test_leave(round.nearest_is_loop),
            Stmt::Continue => self.test_leave(round.in_loop),
            Stmt::Return(Some(value)) => self.test_expression(value),
            Stmt::Print(items) => self.test_items(items),
            Stmt::Read(line, words) => {
                self.test_array(line, false)?;
                self.test_array(words, false)
            }
            Stmt::Return(None) => Ok(()),
            Stmt::Empty => Ok(()),
            Stmt::Quit => Ok(()),
            Stmt::Rtrue => Ok(()),
            Stmt::Rfalse => Ok(()),
            Stmt::NewLine => Ok(()),
        }
    }

    /// Statements, and what stands round them.
    #[cycle(statements)]
    pub fn test_statements(
        &self,
        round: Enclosure,
        statements: &'a Vec<Stmt>,
    ) -> Result<(), Refusal<'a>>
        ensures { found result ≡ first_fault (scope_of self.now)
            (statements_demands round (statements_of statements.now.items)) }
    {
        for statement in statements {
            self.test_statement(round, statement)?;
        }
        Ok(())
    }

    #[cycle(statements)]
    fn test_cases(&self, round: Enclosure, cases: &'a Vec<Case>) -> Result<(), Refusal<'a>>
        ensures { found result ≡ first_fault (scope_of self.now)
            (cases_demands round (cases_of cases.now.items)) }
    {
        for case in cases {
            self.test_choices(&case.choices)?;
            self.test_statements(round, &case.body)?;
        }
        Ok(())
    }
}
