//! What is wrong in constants and expressions.
ghost use Rattle.std.specs.Prelude.{◌≡◌};
ghost use Rattle.inform_tree.specs.Values.{expression_of, arguments_of, terms_of, factors_of};
ghost use Rattle.inform_names.specs.Demands.{optional_demands, constant_demands, constants_demands, argument_count, expression_demands, arguments_demands, terms_demands, factors_demands};
ghost use Rattle.inform_names.specs.Refusals.{found};
ghost use Rattle.inform_names.specs.Places.{first_fault};

use crate::places::{Scope, test_number};
use crate::refusals::Refusal;
use inform_tree::{Const, Expr, ProdOp, SumOp};

/// How many arguments a call has.
#[tactic(auto, using(crate::proofs::Counts::count_is_length))]
pub fn argument_count(arguments: &Vec<Expr>) -> usize
    ensures { result ≡ argument_count (arguments_of arguments.now.items) }
{
    arguments.len()
}

impl<'t, 'a> Scope<'t, 'a> {
    ghost use Rattle.inform_names.specs.Scopes.{scope_of};

    /// A constant.
    pub fn test_constant_value(&self, constant: &'a Const) -> Result<(), Refusal<'a>>
        ensures { found result ≡ first_fault (scope_of self.now) (constant_demands constant.now) }
    {
        match constant {
            Const::Number(number) => test_number(self.width, *number),
            Const::Char(_) => Ok(()),
            Const::Name(name) => self.test_constant(name),
            Const::Minus(number) => test_number(self.width, *number),
        }
    }

    /// A constant, if there is one.
    pub fn test_constant_if_any(&self, constant: &'a Option<Const>) -> Result<(), Refusal<'a>>
        ensures { found result ≡ first_fault (scope_of self.now)
            (optional_demands constant_demands constant.now) }
    {
        match constant {
            Some(constant) => self.test_constant_value(constant),
            None => Ok(()),
        }
    }

    /// The entries of an array.
    pub fn test_constants(&self, constants: &'a [Const]) -> Result<(), Refusal<'a>>
        ensures { found result ≡ first_fault (scope_of self.now) (constants_demands constants.now) }
    {
        for constant in constants {
            self.test_constant_value(constant)?;
        }
        Ok(())
    }

    /// An expression.
    #[cycle(values)]
    pub fn test_expression(&self, value: &'a Expr) -> Result<(), Refusal<'a>>
        ensures { found result ≡ first_fault (scope_of self.now)
            (expression_demands (expression_of value.now)) }
    {
        match value {
            Expr::Number(number) => test_number(self.width, *number),
            Expr::Char(_) => Ok(()),
            Expr::Name(name) => self.test_value(name),
            Expr::Entry(name, words, index) => {
                self.test_array(name, *words)?;
                self.test_expression(index)
            }
            Expr::Call(name, arguments) => {
                self.test_call(name, argument_count(arguments))?;
                self.test_expressions(arguments)
            }
            Expr::Random(limit) => self.test_expression(limit),
            Expr::Neg(operand) => self.test_expression(operand),
            Expr::Sum(first, terms) => {
                self.test_expression(first)?;
                self.test_terms(terms)
            }
            Expr::Product(first, factors) => {
                self.test_expression(first)?;
                self.test_factors(factors)
            }
        }
    }

    /// The arguments of a call.
    #[cycle(values)]
    pub fn test_expressions(&self, values: &'a Vec<Expr>) -> Result<(), Refusal<'a>>
        ensures { found result ≡ first_fault (scope_of self.now)
            (arguments_demands (arguments_of values.now.items)) }
    {
        for value in values {
            self.test_expression(value)?;
        }
        Ok(())
    }

    #[cycle(values)]
    fn test_terms(&self, terms: &'a Vec<(SumOp, Expr)>) -> Result<(), Refusal<'a>>
        ensures { found result ≡ first_fault (scope_of self.now)
            (terms_demands (terms_of terms.now.items)) }
    {
        for (_, term) in terms {
            self.test_expression(term)?;
        }
        Ok(())
    }

    #[cycle(values)]
    fn test_factors(&self, factors: &'a Vec<(ProdOp, Expr)>) -> Result<(), Refusal<'a>>
        ensures { found result ≡ first_fault (scope_of self.now)
            (factors_demands (factors_of factors.now.items)) }
    {
        for (_, factor) in factors {
            self.test_expression(factor)?;
        }
        Ok(())
    }
}
