//! The routines of lines, and all routines that they call.
ghost use Rattle.std.specs.Prelude.{◌≡◌, ◌<◌, ◌^◌, IfOk, map, length};
ghost use Rattle.std.specs.List.{list_all};
ghost use Rattle.inform_tree.specs.Programs.{directive_of};
ghost use Rattle.scott_types.specs.Action.{is_zero, is_zero_action};
ghost use Rattle.trans_actions.specs.Directives.{routine_of_line, lines_from, action_directives};
ghost use Rattle.inform_tree.specs.Programs as d;

use crate::bodies::body;
use crate::calls::name;
use crate::table::helpers;
use adv_io::Memory;
use inform_codes::joined;
use inform_tree::{Directive, Routine};
use scott_types::{Action, Db, Style};
use std::alloc::Global;

fn are_zeros(numbers: &[u32]) -> bool
    ensures { result ≡ list_all is_zero numbers.now }
{
    numbers.iter().all(|number| *number == 0)
}

// Whether the eight numbers of a line are zeros.
fn is_zero_action(action: &Action) -> bool
    ensures { result ≡ is_zero_action action.now }
{
    action.vocab == 0 && are_zeros(&action.conds) && are_zeros(&action.pairs)
}

fn line(alloc: Global, db: &Db, number: usize, action: &Action) -> Result<Directive, Memory>
    ensures { IfOk result (λ directive. directive_of directive
        ≡ d.Routine (routine_of_line db.now number action.now)) }
{
    Ok(Directive::Routine(Routine {
        name: name(alloc, b"line_", number)?,
        locals: Vec::new(alloc),
        body: body(alloc, db, action)?,
    }))
}

// The routines of lines, read from the last one on.
fn lines(alloc: Global, db: &Db, actions: &[Action]) -> Result<Vec<Directive>, Memory>
    requires { length actions.now < 2 ^ 32 }
    ensures { IfOk result (λ directives. map directive_of directives.items
        ≡ lines_from db.now 0 actions.now) }
{
    let mut all = Vec::new(alloc);
    for number in (0..actions.len()).rev() {
        let action = &actions[number];
        if !is_zero_action(action) {
            all.push(line(alloc, db, number, action)?)?;
        }
    }
    all.reverse();
    Ok(all)
}

/// The routines of the lines of a game and those that they call, in a style.
pub fn actions(alloc: Global, db: &Db, style: Style) -> Result<Vec<Directive>, Memory>
    ensures { IfOk result (λ directives. map directive_of directives.items
        ≡ action_directives style db.now) }
{
    let helping = helpers(alloc, db, style)?;
    joined(helping, lines(alloc, db, db.actions())?)
}
