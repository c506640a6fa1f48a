//! Conditions.
use crate::values::Expr;

/// A condition, as a test of `if`, `while`, `until` or `for`.
pub enum Cond {
    Compare(Relation, Expr, Expr),
    /// An expression by itself, which holds where it isn't 0.
    Nonzero(Expr),
    /// Conditions with `&&` between them.
    All(Vec<Cond>),
    /// Conditions with `||` between them.
    Any(Vec<Cond>),
    Not(Box<Cond>),
}

impl Drop for Cond {
    fn drop(self) {
        match self {
            Cond::Compare(_, _, _) => {}
            Cond::Nonzero(_) => {}
            Cond::All(_) => {}
            Cond::Any(_) => {}
            Cond::Not(_) => {}
        }
    }
}

/// How two values are compared.
#[derive(Clone, Copy)]
pub enum Relation {
    Eq,
    Ne,
    Lt,
    Gt,
    Le,
    Ge,
}
