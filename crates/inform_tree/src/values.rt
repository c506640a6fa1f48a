//! Constants and expressions.
use crate::names::Name;

/// What stands where the value must be known before the program runs: the value of a constant or a
/// global, the length or an entry of an array, a choice of a `switch`.
pub enum Const {
    /// A number without a sign.
    Number(u32),
    /// A character between two apostrophes.
    Char(u8),
    /// The name of a constant.
    Name(Name),
    /// A number with a minus sign before it.
    Minus(u32),
}

impl Drop for Const {
    fn drop(self) {
        match self {
            Const::Number(_) => {}
            Const::Char(_) => {}
            Const::Name(_) => {}
            Const::Minus(_) => {}
        }
    }
}

/// An expression. Brackets leave no trace in it.
pub enum Expr {
    Number(u32),
    Char(u8),
    /// The value of a constant, a global or a local.
    Name(Name),
    /// The entry of an array at an index: of `-->` where the truth value is true, and else of `->`.
    Entry(Name, bool, Box<Expr>),
    /// A call of a routine with its arguments.
    Call(Name, Vec<Expr>),
    /// A number from 1 up to the value, by the next draw.
    Random(Box<Expr>),
    Neg(Box<Expr>),
    /// A chain of sums and differences: its first part, and each further one after its sign.
    Sum(Box<Expr>, Vec<(SumOp, Expr)>),
    /// A chain of products, quotients and remainders.
    Product(Box<Expr>, Vec<(ProdOp, Expr)>),
}

impl Drop for Expr {
    fn drop(self) {
        match self {
            Expr::Number(_) => {}
            Expr::Char(_) => {}
            Expr::Name(_) => {}
            Expr::Entry(_, _, _) => {}
            Expr::Call(_, _) => {}
            Expr::Random(_) => {}
            Expr::Neg(_) => {}
            Expr::Sum(_, _) => {}
            Expr::Product(_, _) => {}
        }
    }
}

/// The signs of a sum.
#[derive(Clone, Copy)]
pub enum SumOp {
    Add,
    Sub,
}

/// The signs of a product.
#[derive(Clone, Copy)]
pub enum ProdOp {
    Mul,
    Div,
    Rem,
}
