//! How conditions are printed.
ghost use Rattle.std.specs.Prelude.{false, OnOk};
ghost use Rattle.inform_tree.specs.Conditions.{condition_of, conditions_of};
ghost use Rattle.inform_printer.specs.Printing.{Prints};
ghost use Rattle.inform_printer.specs.ValueLexemes.{round};
ghost use Rattle.inform_printer.specs.ConditionLexemes.{condition_lexemes, member_lexemes};

use crate::signs::relation_sign;
use crate::values::{put_closing, put_opening, put_separator, put_value};
use crate::writing::put_sign;
use adv_io::Memory;
use inform_lexemes::Symbol;
use inform_tree::Cond;

/// Prints a condition in round brackets.
#[cycle(conditions)]
pub fn put_test(out: &mut Vec<u8>, condition: &Cond) -> Result<(), Memory>
    ensures { OnOk result (Prints (round (condition_lexemes false (condition_of condition.now)))
        out.old.items out.new.items) }
{
    put_sign(out, Symbol::LeftRound)?;
    put_condition(out, false, condition)?;
    put_sign(out, Symbol::RightRound)?;
    Ok(())
}

/// Prints a condition: as a member of a chain, or by itself.
#[cycle(conditions)]
pub fn put_condition(out: &mut Vec<u8>, member: bool, condition: &Cond) -> Result<(), Memory>
    ensures { OnOk result (Prints (condition_lexemes member (condition_of condition.now))
        out.old.items out.new.items) }
{
    match condition {
        Cond::Compare(relation, left, right) => {
            put_value(out, false, left)?;
            put_sign(out, relation_sign(*relation))?;
            put_value(out, false, right)?;
            Ok(())
        }
        Cond::Nonzero(value) => {
            put_value(out, false, value)?;
            Ok(())
        }
        Cond::All(members) => {
            put_opening(out, member)?;
            put_members(out, Symbol::And, members)?;
            put_closing(out, member)?;
            Ok(())
        }
        Cond::Any(members) => {
            put_opening(out, member)?;
            put_members(out, Symbol::Or, members)?;
            put_closing(out, member)?;
            Ok(())
        }
        Cond::Not(operand) => {
            put_sign(out, Symbol::Not)?;
            put_test(out, operand)?;
            Ok(())
        }
    }
}

// Prints the members of a chain, with this connective between them.
#[cycle(conditions)]
fn put_members(out: &mut Vec<u8>, symbol: Symbol, members: &Vec<Cond>) -> Result<(), Memory>
    ensures { OnOk result (Prints (member_lexemes symbol false (conditions_of members.now.items))
        out.old.items out.new.items) }
{
    let mut later = false;
    for member in members {
        put_separator(out, later, symbol)?;
        put_condition(out, true, member)?;
        later = true;
    }
    Ok(())
}
