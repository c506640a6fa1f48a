//! Whether conditions are well formed.
ghost use Rattle.std.specs.Prelude.{◌≡◌};
ghost use Rattle.inform_tree.specs.Conditions.{condition_of, conditions_of};
ghost use Rattle.inform_tree.specs.Formed.{is_formed_condition, are_formed_conditions, is_formed_chain};

use crate::conditions::Cond;
use crate::formed_values::value_is_formed;

#[cycle(formed_conditions)]
pub fn condition_is_formed(condition: &Cond) -> bool
    ensures { result ≡ is_formed_condition (condition_of condition.now) }
{
    match condition {
        Cond::Compare(_, left, right) => value_is_formed(left) && value_is_formed(right),
        Cond::Nonzero(value) => value_is_formed(value),
        Cond::All(members) => chain_is_formed(members),
        Cond::Any(members) => chain_is_formed(members),
        Cond::Not(operand) => condition_is_formed(operand),
    }
}

// The members of a chain of conditions: there are two.
#[cycle(formed_conditions)]
#[tactic(auto, using(crate::proofs::Sizes::two_conditions))]
fn chain_is_formed(members: &Vec<Cond>) -> bool
    ensures { result ≡ is_formed_chain (conditions_of members.now.items) }
{
    2 <= members.len() && conditions_are_formed(members)
}

#[cycle(formed_conditions)]
fn conditions_are_formed(conditions: &Vec<Cond>) -> bool
    ensures { result ≡ are_formed_conditions (conditions_of conditions.now.items) }
{
    for condition in conditions {
        if !condition_is_formed(condition) {
            return false;
        }
    }
    true
}
