//! What has begun and isn't finished.
use crate::signals::Halt;
use inform_tree::{Case, Change, Cond, Expr, Item, Name, ProdOp, Relation, Stmt, SumOp};
use inform_worlds::Arguments;

/// A loop: it goes on where its test, if it has one, has this truth value.
#[derive(Clone, Copy)]
pub struct Loop<'a> {
    pub test: Option<&'a Cond>,
    pub goes_on: bool,
    pub change: Option<&'a Change>,
    pub body: &'a Vec<Stmt>,
}

/// What has not begun yet.
#[derive(Clone, Copy)]
pub enum Begin<'a> {
    Evals(&'a Expr),
    /// A draw for a number up to this one.
    DrawDue(i32),
    Tests(&'a Cond),
    Alters(&'a Change),
    Due(&'a Stmt),
    Blocks(&'a [Stmt]),
    Prints(&'a [Item]),
    /// A line for this buffer.
    LineDue(&'a Name),
}

/// What waits for the value of a part.
#[derive(Clone, Copy)]
pub enum Want<'a> {
    IndexOf(&'a Name),
    RangeOf,
    Negates,
    SumFrom(&'a [(SumOp, Expr)]),
    SumOnto(SumOp, i32, &'a [(SumOp, Expr)]),
    ProductFrom(&'a [(ProdOp, Expr)]),
    ProductOnto(ProdOp, i32, &'a [(ProdOp, Expr)]),
    LeftOf(Relation, &'a Expr),
    RightOf(Relation, i32),
    IsNonzero,
    Sets(&'a Name),
    PlaceOf(&'a Name, bool, &'a Expr),
    Stores(&'a Name, bool, i32),
    Forgets,
    Picks(&'a Vec<Case>, Option<&'a Vec<Stmt>>),
    Gives,
    SaysNumber(&'a [Item]),
    SaysChar(&'a [Item]),
}

/// What waits for the truth value of a part.
#[derive(Clone, Copy)]
pub enum Decide<'a> {
    AllOf(&'a [Cond]),
    AnyOf(&'a [Cond]),
    Flips,
    Branches(&'a Vec<Stmt>, &'a Vec<Stmt>),
}

/// What has begun and isn't finished. What needs much room stands here, and not among the others of
/// its kind, so that those are small.
#[derive(Clone, Copy)]
pub enum Frame<'a> {
    Begins(Begin<'a>),
    /// A call of the routine of this name, whose arguments are known.
    CallDue(&'a Name, Arguments),
    Wants(Want<'a>),
    /// The next argument of a call of the routine of this name, of which these are known.
    Args(&'a Name, Arguments, &'a [Expr]),
    Decides(Decide<'a>),
    /// A turn of a loop hasn't begun.
    TurnDue(Loop<'a>),
    /// The test of a loop runs.
    Testing(Loop<'a>),
    /// The body of a loop runs.
    Looping(Loop<'a>),
    /// The body of a routine runs; the scope of the caller stands on its own.
    Calling,
    /// The routine runs with which the run began.
    Main,
    /// The run is over.
    Over(Halt),
}
