//! Statements.
use crate::conditions::Cond;
use crate::names::Name;
use crate::texts::Text;
use crate::values::{Const, Expr};

/// What changes a variable or an entry of an array.
pub enum Change {
    Set(Name, Expr),
    /// The array, whether it is one of words (`-->`), the index, and the value that is stored
    /// there.
    SetEntry(Name, bool, Expr, Expr),
    Inc(Name),
    Dec(Name),
}

impl Drop for Change {
    fn drop(self) {
        match self {
            Change::Set(_, _) => {}
            Change::SetEntry(_, _, _, _) => {}
            Change::Inc(_) => {}
            Change::Dec(_) => {}
        }
    }
}

/// What stands in the brackets of a `for`: what is done first, the test of each turn, and what is
/// done after each turn.
pub struct Head {
    pub first: Option<Change>,
    pub test: Option<Cond>,
    pub next: Option<Change>,
}

impl Drop for Head {
    fn drop(self) {
        let Head {
            first: _,
            test: _,
            next: _,
        } = self;
    }
}

/// What `print` says.
pub enum Item {
    Text(Text),
    /// A value in decimal.
    Value(Expr),
    /// A value as a character.
    Char(Expr),
}

impl Drop for Item {
    fn drop(self) {
        match self {
            Item::Text(_) => {}
            Item::Value(_) => {}
            Item::Char(_) => {}
        }
    }
}

/// A case of a `switch`: a value or a range of values for each choice, and what is done then.
#[cycle(tree)]
pub struct Case {
    pub choices: Vec<(Const, Option<Const>)>,
    pub body: Vec<Stmt>,
}

impl Drop for Case {
    #[cycle(tree)]
    fn drop(self) {
        let Case {
            choices: _,
            body: _,
        } = self;
    }
}

/// A statement. A body without braces is a list of one, and an absent `else` an empty list.
#[cycle(tree)]
pub enum Stmt {
    Empty,
    Block(Vec<Stmt>),
    Change(Change),
    Call(Name, Vec<Expr>),
    If(Cond, Vec<Stmt>, Vec<Stmt>),
    While(Cond, Vec<Stmt>),
    /// The body, and the condition at which the loop ends.
    Do(Vec<Stmt>, Cond),
    /// The head stands apart, since it is three times as large as any other statement.
    For(Box<Head>, Vec<Stmt>),
    /// The value, the cases, and what is done where no case fits.
    Switch(Expr, Vec<Case>, Option<Vec<Stmt>>),
    Break,
    Continue,
    Quit,
    Rtrue,
    Rfalse,
    Return(Option<Expr>),
    NewLine,
    Print(Vec<Item>),
    /// The byte array for the line, and the byte array for its words.
    Read(Name, Name),
}

impl Drop for Stmt {
    #[cycle(tree)]
    fn drop(self) {
        match self {
            Stmt::Empty => {}
            Stmt::Block(_) => {}
            Stmt::Change(_) => {}
            Stmt::Call(_, _) => {}
            Stmt::If(_, _, _) => {}
            Stmt::While(_, _) => {}
            Stmt::Do(_, _) => {}
            Stmt::For(_, _) => {}
            Stmt::Switch(_, _, _) => {}
            Stmt::Break => {}
            Stmt::Continue => {}
            Stmt::Quit => {}
            Stmt::Rtrue => {}
            Stmt::Rfalse => {}
            Stmt::Return(_) => {}
            Stmt::NewLine => {}
            Stmt::Print(_) => {}
            Stmt::Read(_, _) => {}
        }
    }
}
