//! Whether two conditions are equal, as trees.
ghost use Rattle.std.specs.Prelude.{◌≡◌, ◌↔◌, IsTrue};
ghost use Rattle.inform_tree.specs.Conditions.{condition_of, conditions_of};

use crate::equal_values::values_are_equal;
use inform_tree::{Cond, Relation};

fn relations_are_equal(a: Relation, b: Relation) -> bool
    ensures { IsTrue result ↔ (a ≡ b) }
{
    match (a, b) {
        (Relation::Eq, Relation::Eq) => true,
        (Relation::Ne, Relation::Ne) => true,
        (Relation::Lt, Relation::Lt) => true,
        (Relation::Gt, Relation::Gt) => true,
        (Relation::Le, Relation::Le) => true,
        (Relation::Ge, Relation::Ge) => true,
        _ => false,
    }
}

#[cycle(conditions)]
pub fn conditions_are_equal(a: &Cond, b: &Cond) -> bool
    ensures { IsTrue result ↔ (condition_of a.now ≡ condition_of b.now) }
{
    match (a, b) {
        (Cond::Compare(m, x, y), Cond::Compare(n, v, w)) => {
            relations_are_equal(*m, *n) && values_are_equal(x, v) && values_are_equal(y, w)
        }
        (Cond::Nonzero(x), Cond::Nonzero(y)) => values_are_equal(x, y),
        (Cond::All(xs), Cond::All(ys)) => all_conditions_are_equal(xs, ys),
        (Cond::Any(xs), Cond::Any(ys)) => all_conditions_are_equal(xs, ys),
        (Cond::Not(x), Cond::Not(y)) => conditions_are_equal(x, y),
        _ => false,
    }
}

#[cycle(conditions)]
fn all_conditions_are_equal(xs: &Vec<Cond>, ys: &Vec<Cond>) -> bool
    ensures { IsTrue result ↔ (conditions_of xs.now.items ≡ conditions_of ys.now.items) }
{
    if xs.len() != ys.len() {
        return false;
    }
    for (i, x) in xs.iter().enumerate() {
        if !conditions_are_equal(x, &ys[i]) {
            return false;
        }
    }
    true
}
