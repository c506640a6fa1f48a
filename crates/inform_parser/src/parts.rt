//! What stands in the braces of a `switch`.
ghost use Rattle.std.specs.Prelude.{◌≡◌, IfOk};
ghost use Rattle.inform_tree.specs.Statements.{cases_of};
ghost use Rattle.inform_grammar.specs.Trees.{cases_tree};
ghost use Rattle.inform_grammar.specs.StatementRules.{cases_of as cases_read};
ghost use Rattle.inform_parser.specs.Parts.{choices_in, parts_in};

use crate::stops::Stop;
use adv_io::Memory;
use inform_tree::{Case, Const, Stmt};
use std::alloc::Global;

/// What stands in the braces of a `switch`, one after another.
#[derive(Drop)]
pub enum Part {
    /// The choices of a case, which begin it.
    Head(Vec<(Const, Option<Const>)>),
    /// A statement of the case before it.
    Said(Stmt),
}

/// The cases, of which these are the choices of the first one, and this is what stands after them.
pub fn cases(
    alloc: Global,
    first: Vec<(Const, Option<Const>)>,
    parts: Vec<Part>,
) -> Result<Vec<Case>, Memory>
    ensures { IfOk result (λ cases. cases_of cases.items
        ≡ cases_tree (cases_read (choices_in first) (parts_in parts))) }
{
    let mut cases = Vec::new(alloc);
    let mut current = Case {
        choices: first,
        body: Vec::new(alloc),
    };
    for part in parts {
        match part {
            Part::Head(choices) => {
                cases.push(current)?;
                current = Case {
                    choices,
                    body: Vec::new(alloc),
                };
            }
            Part::Said(statement) => current.body.push(statement)?,
        }
    }
    cases.push(current)?;
    Ok(cases)
}
