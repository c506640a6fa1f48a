//! What is wrong in conditions.
ghost use Rattle.std.specs.Prelude.{◌≡◌};
ghost use Rattle.inform_tree.specs.Conditions.{condition_of, conditions_of};
ghost use Rattle.inform_names.specs.Demands.{condition_demands, conditions_demands};
ghost use Rattle.inform_names.specs.Refusals.{found};
ghost use Rattle.inform_names.specs.Places.{first_fault};

use crate::places::Scope;
use crate::refusals::Refusal;
use inform_tree::Cond;

impl<'t, 'a> Scope<'t, 'a> {
    ghost use Rattle.inform_names.specs.Scopes.{scope_of};

    /// A condition.
    #[cycle(conditions)]
    pub fn test_condition(&self, condition: &'a Cond) -> Result<(), Refusal<'a>>
        ensures { found result ≡ first_fault (scope_of self.now)
            (condition_demands (condition_of condition.now)) }
    {
        match condition {
            Cond::Compare(_, left, right) => {
                self.test_expression(left)?;
                self.test_expression(right)
            }
            Cond::Nonzero(value) => self.test_expression(value),
            Cond::All(members) => self.test_conditions(members),
            Cond::Any(members) => self.test_conditions(members),
            Cond::Not(operand) => self.test_condition(operand),
        }
    }

    #[cycle(conditions)]
    fn test_conditions(&self, conditions: &'a Vec<Cond>) -> Result<(), Refusal<'a>>
        ensures { found result ≡ first_fault (scope_of self.now)
            (conditions_demands (conditions_of conditions.now.items)) }
    {
        for condition in conditions {
            self.test_condition(condition)?;
        }
        Ok(())
    }
}
