//! Values, and the arguments of calls.
ghost use Rattle.std.specs.Prelude.{◌≡◌, IfOk};
ghost use Rattle.inform_codes.specs.Codes.{with_entry, with_call_value, with_random, with_neg, with_sum, with_product, with_argument};
ghost use Rattle.inform_codes.specs.Growths.{waiting};

use crate::growths::Growth;
use adv_io::Memory;
use inform_tree::{Expr, Name, ProdOp, SumOp};

impl Growth {
    pub fn take_entry(&mut self, name: Name, words: bool) -> Result<(), Memory>
        ensures { IfOk result (λ _. waiting self.new ≡ with_entry name words (waiting self.old)) }
    {
        let index = Box::new(self.alloc, self.pop_value())?;
        self.push_value(Expr::Entry(name, words, index))
    }

    pub fn take_call_value(&mut self, name: Name) -> Result<(), Memory>
        ensures { IfOk result (λ _. waiting self.new ≡ with_call_value name (waiting self.old)) }
    {
        let arguments = self.pop_arguments().into_vec();
        self.push_value(Expr::Call(name, arguments))
    }

    pub fn take_random(&mut self) -> Result<(), Memory>
        ensures { IfOk result (λ _. waiting self.new ≡ with_random (waiting self.old)) }
    {
        let limit = Box::new(self.alloc, self.pop_value())?;
        self.push_value(Expr::Random(limit))
    }

    pub fn take_neg(&mut self) -> Result<(), Memory>
        ensures { IfOk result (λ _. waiting self.new ≡ with_neg (waiting self.old)) }
    {
        let operand = Box::new(self.alloc, self.pop_value())?;
        self.push_value(Expr::Neg(operand))
    }

    #[tactic(auto, using(inform_tree::proofs::Views::expression_of_sum))]
    pub fn take_sum(&mut self, op: SumOp) -> Result<(), Memory>
        ensures { IfOk result (λ _. waiting self.new ≡ with_sum op (waiting self.old)) }
    {
        let first = Box::new(self.alloc, self.pop_value())?;
        let terms = vec![in self.alloc; (op, self.pop_value())]?;
        self.push_value(Expr::Sum(first, terms))
    }

    #[tactic(auto, using(inform_tree::proofs::Views::expression_of_product))]
    pub fn take_product(&mut self, op: ProdOp) -> Result<(), Memory>
        ensures { IfOk result (λ _. waiting self.new ≡ with_product op (waiting self.old)) }
    {
        let first = Box::new(self.alloc, self.pop_value())?;
        let factors = vec![in self.alloc; (op, self.pop_value())]?;
        self.push_value(Expr::Product(first, factors))
    }

    pub fn take_argument(&mut self) -> Result<(), Memory>
        ensures { IfOk result (λ _. waiting self.new ≡ with_argument (waiting self.old)) }
    {
        let value = self.pop_value();
        let mut arguments = self.pop_arguments();
        arguments.push_front(value)?;
        self.push_arguments(arguments)
    }
}
