//! What stands where a condition is expected.
ghost use Rattle.std.specs.Prelude.{◌≡◌};
ghost use Rattle.inform_tree.specs.Conditions.{condition_of};
ghost use Rattle.inform_grammar.specs.Lexemes.{connective, other_connective};
ghost use Rattle.inform_grammar.specs.Trees.{condition};
ghost use Rattle.inform_parser.specs.Guards.{guard_of, join_of};

use inform_lexemes::Symbol;
use inform_tree::{Cond, Expr};

/// What stands where a condition is expected.
#[derive(Drop)]
pub enum Guard {
    /// An expression, which may go on as a part of a greater one.
    Plain(Expr),
    /// A condition that is no expression.
    Tested(Cond),
}

impl Guard {
    ghost use Rattle.inform_tree.specs.Conditions.{condition_of};
    ghost use Rattle.inform_grammar.specs.Trees.{condition};
    ghost use Rattle.inform_parser.specs.Guards.{guard_of};

    /// The condition that it is: an expression by itself asks whether it isn't 0.
    #[tactic(auto, using(crate::proofs::TreesMade::conditions))]
    #[inline(always)]
    pub fn into_condition(self) -> Cond
        ensures { condition_of result ≡ condition (guard_of self) }
    {
        match self {
            Guard::Plain(x) => Cond::Nonzero(x),
            Guard::Tested(test) => test,
        }
    }
}

/// How conditions are joined.
#[derive(Clone, Copy)]
pub enum Join {
    /// By `&&`.
    All,
    /// By `||`.
    Any,
}

impl Join {
    /// The symbol by which they are.
    #[inline(always)]
    pub fn symbol(self) -> Symbol
        ensures { result ≡ connective (join_of self) }
    {
        match self {
            Join::All => Symbol::And,
            Join::Any => Symbol::Or,
        }
    }

    /// The symbol of the other way.
    #[inline(always)]
    pub fn other_symbol(self) -> Symbol
        ensures { result ≡ other_connective (join_of self) }
    {
        match self {
            Join::All => Symbol::Or,
            Join::Any => Symbol::And,
        }
    }
}
