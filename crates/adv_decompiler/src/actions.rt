//! Writing the lines of actions.
ghost use Rattle.std.specs.Prelude.{◌≡◌, ◌++◌, ◌∷◌, [], OnOk, IsTrue, flat_map, zip, length};
ghost use Rattle.std.specs.List.{list_all};
ghost use Rattle.scott_types.specs.Limits.{is_file_text, is_action};
ghost use Rattle.adv_decompiler.specs.Layout.{text_of, spaced, quoted, semicolon, braced};
ghost use Rattle.adv_decompiler.specs.Written.{written};
ghost use Rattle.adv_decompiler.specs.Lines.{condition, opcode, action_line};
ghost use Rattle.adv_decompiler.specs.Plain.{lines_of};

use crate::conditions::put_conditions;
use crate::heads::put_head;
use crate::lists::put_text;
use crate::opcodes::put_opcodes;
use crate::sizes::Sizes;
use crate::written::{arguments, has_brackets, tests_first, without_zeros};
use adv_io::Memory;
use scott_types::action_lines::opcode_numbers;
use scott_types::{Action, Text};
use std::alloc::Global;

// Writes the conditions and the opcodes of an action.
#[tactic(auto, using(crate::proofs::Texts::layout))]
fn put_written(
    alloc: Global,
    out: &mut Vec<u8>,
    sizes: &Sizes,
    action: &Action,
) -> Result<(), Memory>
    ensures { OnOk result (out.new.items ≡ out.old.items
        ++ text_of (braced (flat_map (condition sizes.now) (written action.now).conds)
        ++ braced (flat_map (opcode sizes.now) (written action.now).ops))) }
{
    let numbers = opcode_numbers(action);
    let ops = without_zeros(&numbers);
    if has_brackets(&action.conds, &numbers) {
        let first = tests_first(&action.conds);
        let arguments = arguments(&action.conds);
        put_conditions(alloc, out, sizes, &action.conds[..first])?;
        return put_opcodes(alloc, out, sizes, &arguments[first..], ops);
    }
    put_conditions(alloc, out, sizes, without_zeros(&action.conds))?;
    put_opcodes(alloc, out, sizes, &[], ops)
}

// Writes the line of an action, with its comment.
#[tactic(auto, using(crate::proofs::Texts::layout))]
fn put_action(
    alloc: Global,
    out: &mut Vec<u8>,
    sizes: &Sizes,
    action: &Action,
    comment: &Text,
) -> Result<(), Memory>
    requires { IsTrue (is_file_text comment.now) }
    ensures { OnOk result (out.new.items ≡ out.old.items
        ++ text_of (action_line sizes.now 0 (action.now, comment.now))) }
{
    put_head(alloc, out, action.vocab)?;
    put_written(alloc, out, sizes, action)?;
    out.push(b' ')?;
    put_text(alloc, out, comment)?;
    out.push(b';')?;
    Ok(())
}

/// Writes the lines of actions, each with its comment.
#[tactic(auto, using(crate::proofs::Texts::layout, crate::proofs::Texts::steps))]
pub fn put_actions(
    alloc: Global,
    out: &mut Vec<u8>,
    sizes: &Sizes,
    actions: &[Action],
    comments: &[Text],
) -> Result<(), Memory>
    requires commented { length comments.now ≡ length actions.now }
    requires texts { IsTrue (list_all is_file_text comments.now) }
    ensures { OnOk result (out.new.items ≡ out.old.items
        ++ text_of (lines_of (action_line sizes.now) (zip actions.now comments.now))) }
{
    for k in 0..actions.len() {
        put_action(alloc, out, sizes, &actions[k], &comments[k])?;
    }
    Ok(())
}
