//! What is wrong in changes, items of `print`, choices and heads of loops.
ghost use Rattle.std.specs.Prelude.{◌≡◌, map};
ghost use Rattle.inform_tree.specs.Statements.{assignment_of, assignment_if_any, condition_if_any, print_item_of};
ghost use Rattle.inform_names.specs.Demands.{optional_demands, condition_demands, assignment_demands, item_demands, items_demands, choice_demands, choices_demands, head_demands_of};
ghost use Rattle.inform_names.specs.Refusals.{found};
ghost use Rattle.inform_names.specs.Places.{first_fault};

use crate::places::Scope;
use crate::refusals::Refusal;
use inform_tree::{Change, Cond, Const, Head, Item};

impl<'t, 'a> Scope<'t, 'a> {
    ghost use Rattle.inform_names.specs.Scopes.{scope_of};

    /// A change of a variable or an entry.
    pub fn test_change(&self, change: &'a Change) -> Result<(), Refusal<'a>>
        ensures { found result ≡ first_fault (scope_of self.now)
            (assignment_demands (assignment_of change.now)) }
    {
        match change {
            Change::Set(name, value) => {
                self.test_variable(name)?;
                self.test_expression(value)
            }
            Change::SetEntry(name, words, index, value) => {
                self.test_array(name, *words)?;
                self.test_expression(index)?;
                self.test_expression(value)
            }
            Change::Inc(name) => self.test_variable(name),
            Change::Dec(name) => self.test_variable(name),
        }
    }

    fn test_change_if_any(&self, change: &'a Option<Change>) -> Result<(), Refusal<'a>>
        ensures { found result ≡ first_fault (scope_of self.now)
            (optional_demands assignment_demands (assignment_if_any change.now)) }
    {
        match change {
            Some(change) => self.test_change(change),
            None => Ok(()),
        }
    }

    fn test_condition_if_any(&self, condition: &'a Option<Cond>) -> Result<(), Refusal<'a>>
        ensures { found result ≡ first_fault (scope_of self.now)
            (optional_demands condition_demands (condition_if_any condition.now)) }
    {
        match condition {
            Some(condition) => self.test_condition(condition),
            None => Ok(()),
        }
    }

    /// What stands in the brackets of a `for`.
    pub fn test_head(&self, head: &'a Head) -> Result<(), Refusal<'a>>
        ensures { found result ≡ first_fault (scope_of self.now) (head_demands_of head.now) }
    {
        self.test_change_if_any(&head.first)?;
        self.test_condition_if_any(&head.test)?;
        self.test_change_if_any(&head.next)
    }

    fn test_item(&self, item: &'a Item) -> Result<(), Refusal<'a>>
        ensures { found result ≡ first_fault (scope_of self.now)
            (item_demands (print_item_of item.now)) }
    {
        match item {
            Item::Text(_) => Ok(()),
            Item::Value(value) => self.test_expression(value),
            Item::Char(value) => self.test_expression(value),
        }
    }

    /// The items of a `print`.
    pub fn test_items(&self, items: &'a [Item]) -> Result<(), Refusal<'a>>
        ensures { found result ≡ first_fault (scope_of self.now)
            (items_demands (map print_item_of items.now)) }
    {
        for item in items {
            self.test_item(item)?;
        }
        Ok(())
    }

    fn test_choice(&self, choice: &'a (Const, Option<Const>)) -> Result<(), Refusal<'a>>
        ensures { found result ≡ first_fault (scope_of self.now) (choice_demands choice.now) }
    {
        self.test_constant_value(&choice.0)?;
        self.test_constant_if_any(&choice.1)
    }

    /// The choices of a case.
    pub fn test_choices(&self, choices: &'a [(Const, Option<Const>)]) -> Result<(), Refusal<'a>>
        ensures { found result ≡ first_fault (scope_of self.now) (choices_demands choices.now) }
    {
        for choice in choices {
            self.test_choice(choice)?;
        }
        Ok(())
    }
}
