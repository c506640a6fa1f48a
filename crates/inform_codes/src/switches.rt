//! Switches and their cases.
ghost use Rattle.std.specs.Prelude.{◌≡◌, IfOk};
ghost use Rattle.inform_codes.specs.Parts.{no_branches, with_branches};
ghost use Rattle.inform_codes.specs.Codes.{with_case, with_default, with_switch};
ghost use Rattle.inform_codes.specs.Growths.{waiting};

use crate::growths::{Branches, Growth};
use adv_io::Memory;
use inform_tree::{Case, Stmt};
use std::collections::VecDeque;

impl Growth {
    pub fn take_case(&mut self) -> Result<(), Memory>
        ensures { IfOk result (λ _. waiting self.new ≡ with_case (waiting self.old)) }
    {
        let choices = self.pop_choices();
        let body = self.pop_block().into_vec();
        let mut branches = self.pop_branches();
        branches.cases.push_front(Case { choices, body })?;
        self.push_branches(branches)
    }

    pub fn take_default(&mut self) -> Result<(), Memory>
        ensures { IfOk result (λ _. waiting self.new ≡ with_default (waiting self.old)) }
    {
        let body = self.pop_block().into_vec();
        self.push_branches(Branches {
            cases: VecDeque::new(self.alloc),
            otherwise: Some(body),
        })
    }

    pub fn take_no_default(&mut self) -> Result<(), Memory>
        ensures { IfOk result (λ _. waiting self.new
            ≡ with_branches no_branches (waiting self.old)) }
    {
        self.push_branches(Branches {
            cases: VecDeque::new(self.alloc),
            otherwise: None,
        })
    }

    #[tactic(auto, using(inform_tree::proofs::Views::statement_of_switch, inform_tree::proofs::Views::statement_of_switch_with_default))]
    pub fn take_switch(&mut self) -> Result<(), Memory>
        ensures { IfOk result (λ _. waiting self.new ≡ with_switch (waiting self.old)) }
    {
        let value = self.pop_value();
        let Branches { cases, otherwise } = self.pop_branches();
        let cases = cases.into_vec();
        match otherwise {
            Some(body) => self.push_statement(Stmt::Switch(value, cases, Some(body))),
            None => self.push_statement(Stmt::Switch(value, cases, None)),
        }
    }
}
