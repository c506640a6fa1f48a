//! Programs and their directives.
use crate::names::Name;
use crate::statements::Stmt;
use crate::values::Const;

/// A program: its directives, in their order.
#[derive(Drop)]
pub struct Program {
    pub directives: Vec<Directive>,
}

/// A directive.
pub enum Directive {
    Constant(Name, Const),
    Global(Name, Option<Const>),
    /// An array: whether its entries are words (`-->`) or bytes (`->`), and its length or its
    /// entries.
    Array(Name, bool, Vec<Const>),
    Routine(Routine),
}

impl Drop for Directive {
    fn drop(self) {
        match self {
            Directive::Constant(_, _) => {}
            Directive::Global(_, _) => {}
            Directive::Array(_, _, _) => {}
            Directive::Routine(_) => {}
        }
    }
}

/// A routine.
pub struct Routine {
    pub name: Name,
    pub locals: Vec<Name>,
    pub body: Vec<Stmt>,
}

impl Drop for Routine {
    fn drop(self) {
        let Routine {
            name: _,
            locals: _,
            body: _,
        } = self;
    }
}
