//! How deep a condition is.
ghost use Rattle.std.specs.Prelude.{◌≡◌};
ghost use Rattle.inform_tree.specs.Conditions.{condition_of, conditions_of};
ghost use Rattle.inform_tree.specs.Depths.{condition_depth, conditions_depth, counted};

use crate::conditions::Cond;
use crate::value_depths::depth_of_value;

/// The depth of a condition, as `depth` counts it.
#[cycle(condition_depths)]
pub fn depth_of_condition(condition: &Cond) -> u32
    ensures { result ≡ counted (condition_depth (condition_of condition.now)) }
{
    match condition {
        Cond::Compare(_, left, right) => depth_of_value(left)
            .max(depth_of_value(right))
            .saturating_add(1),
        Cond::Nonzero(value) => depth_of_value(value).saturating_add(1),
        Cond::All(members) => depth_of_conditions(members).saturating_add(1),
        Cond::Any(members) => depth_of_conditions(members).saturating_add(1),
        Cond::Not(operand) => depth_of_condition(operand).saturating_add(1),
    }
}

#[cycle(condition_depths)]
fn depth_of_conditions(conditions: &Vec<Cond>) -> u32
    ensures { result ≡ counted (conditions_depth (conditions_of conditions.now.items)) }
{
    let mut deepest: u32 = 0;
    for condition in conditions {
        deepest = deepest.max(depth_of_condition(condition));
    }
    deepest
}
