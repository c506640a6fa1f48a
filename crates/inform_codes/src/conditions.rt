//! Conditions.
ghost use Rattle.std.specs.Prelude.{◌≡◌, IfOk};
ghost use Rattle.inform_tree.specs.Conditions.{conditions_of};
ghost use Rattle.inform_codes.specs.Parts.{less_test};
ghost use Rattle.inform_codes.specs.Codes.{with_compare, with_nonzero, with_not, two_tests, with_both, with_either};
ghost use Rattle.inform_codes.specs.Growths.{waiting};

use crate::growths::Growth;
use adv_io::Memory;
use inform_tree::{Cond, Relation};

impl Growth {
    pub fn take_compare(&mut self, relation: Relation) -> Result<(), Memory>
        ensures { IfOk result (λ _. waiting self.new ≡ with_compare relation (waiting self.old)) }
    {
        let left = self.pop_value();
        let right = self.pop_value();
        self.push_test(Cond::Compare(relation, left, right))
    }

    pub fn take_nonzero(&mut self) -> Result<(), Memory>
        ensures { IfOk result (λ _. waiting self.new ≡ with_nonzero (waiting self.old)) }
    {
        let value = self.pop_value();
        self.push_test(Cond::Nonzero(value))
    }

    pub fn take_not(&mut self) -> Result<(), Memory>
        ensures { IfOk result (λ _. waiting self.new ≡ with_not (waiting self.old)) }
    {
        let operand = Box::new(self.alloc, self.pop_test())?;
        self.push_test(Cond::Not(operand))
    }

    pub fn take_both(&mut self) -> Result<(), Memory>
        ensures { IfOk result (λ _. waiting self.new ≡ with_both (waiting self.old)) }
    {
        let members = self.two_tests()?;
        self.push_test(Cond::All(members))
    }

    pub fn take_either(&mut self) -> Result<(), Memory>
        ensures { IfOk result (λ _. waiting self.new ≡ with_either (waiting self.old)) }
    {
        let members = self.two_tests()?;
        self.push_test(Cond::Any(members))
    }

    // The two nearest conditions.
    fn two_tests(&mut self) -> Result<Vec<Cond>, Memory>
        ensures tests { IfOk result (λ tests. conditions_of tests.items
            ≡ two_tests (waiting self.old)) }
        ensures rest { IfOk result (λ _. waiting self.new
            ≡ less_test (less_test (waiting self.old))) }
    {
        let first = self.pop_test();
        let second = self.pop_test();
        let tests = vec![in self.alloc; first, second]?;
        Ok(tests)
    }
}
