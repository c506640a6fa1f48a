//! The syntax trees of the Inform profile: what a program of it is, which programs are well formed,
//! and how deep a routine is.
#![tactic(auto)]

// The trees, from their leaves up.
pub mod conditions;
pub mod names;
pub mod programs;
pub mod statements;
pub mod texts;
pub mod values;
pub mod widths;

// How deep they are.
mod condition_depths;
mod statement_depths;
mod value_depths;

// Which of them are well formed.
mod formed_conditions;
mod formed_programs;
mod formed_statements;
mod formed_values;
mod words;

// Worked examples of the above.
pub mod worked;

pub use conditions::{Cond, Relation};
pub use names::Name;
pub use programs::{Directive, Program, Routine};
pub use statement_depths::depth;
pub use statements::{Case, Change, Head, Item, Stmt};
pub use texts::Text;
pub use values::{Const, Expr, ProdOp, SumOp};
pub use widths::Width;
pub use words::{NAME_LIMIT, is_character, is_name, is_reserved};
