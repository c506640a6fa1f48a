//! The trees that wait for the codes before them.
ghost use Rattle.std.specs.Prelude.{◌≡◌, IfOk};
ghost use Rattle.inform_tree.specs.Values.{expression_of, arguments_of};
ghost use Rattle.inform_tree.specs.Conditions.{condition_of};
ghost use Rattle.inform_tree.specs.Statements.{statement_of, statements_of};
ghost use Rattle.inform_codes.specs.Parts.{none, nearest_value, nearest_arguments, nearest_test, nearest_block, nearest_branches, with_value, less_value, with_arguments, less_arguments, with_test, less_test, with_block, less_block, with_branches, less_branches, with_choice, less_choices, with_statement};
ghost use Rattle.inform_codes.specs.Growths.{branches_of, waiting};

use adv_io::Memory;
use inform_tree::{Case, Cond, Const, Expr, Stmt};
use std::alloc::Global;
use std::collections::VecDeque;
use std::mem::replace;

/// The cases of a switch, and what it does where none fits.
#[derive(Drop)]
pub struct Branches {
    pub cases: VecDeque<Case>,
    pub otherwise: Option<Vec<Stmt>>,
}

/// The trees that wait, the nearest first in each queue.
pub struct Growth {
    pub alloc: Global,
    values: VecDeque<Expr>,
    /// The arguments of calls.
    argument_lists: VecDeque<VecDeque<Expr>>,
    tests: VecDeque<Cond>,
    blocks: VecDeque<VecDeque<Stmt>>,
    /// The choices of one case.
    choices: VecDeque<(Const, Option<Const>)>,
    switches: VecDeque<Branches>,
}

impl Drop for Growth {
    fn drop(self) {
        let Growth {
            alloc: _,
            values: _,
            argument_lists: _,
            tests: _,
            blocks: _,
            choices: _,
            switches: _,
        } = self;
    }
}

impl Growth {
    /// Nothing waits.
    pub fn new(alloc: Global) -> Growth
        ensures { waiting result ≡ none }
    {
        Growth {
            alloc,
            values: VecDeque::new(alloc),
            argument_lists: VecDeque::new(alloc),
            tests: VecDeque::new(alloc),
            blocks: VecDeque::new(alloc),
            choices: VecDeque::new(alloc),
            switches: VecDeque::new(alloc),
        }
    }

    // ---- the nearest is taken away, or what stands for it where none waits

    pub fn pop_value(&mut self) -> Expr
        ensures value { expression_of result ≡ nearest_value (waiting self.old) }
        ensures rest { waiting self.new ≡ less_value (waiting self.old) }
    {
        match self.values.pop_front() {
            Some(value) => value,
            None => Expr::Number(0),
        }
    }

    pub fn pop_arguments(&mut self) -> VecDeque<Expr>
        ensures arguments { arguments_of result.items ≡ nearest_arguments (waiting self.old) }
        ensures rest { waiting self.new ≡ less_arguments (waiting self.old) }
    {
        match self.argument_lists.pop_front() {
            Some(arguments) => arguments,
            None => VecDeque::new(self.alloc),
        }
    }

    pub fn pop_test(&mut self) -> Cond
        ensures test { condition_of result ≡ nearest_test (waiting self.old) }
        ensures rest { waiting self.new ≡ less_test (waiting self.old) }
    {
        match self.tests.pop_front() {
            Some(test) => test,
            None => Cond::Nonzero(Expr::Number(0)),
        }
    }

    pub fn pop_block(&mut self) -> VecDeque<Stmt>
        ensures block { statements_of result.items ≡ nearest_block (waiting self.old) }
        ensures rest { waiting self.new ≡ less_block (waiting self.old) }
    {
        match self.blocks.pop_front() {
            Some(block) => block,
            None => VecDeque::new(self.alloc),
        }
    }

    pub fn pop_branches(&mut self) -> Branches
        ensures branches { branches_of result ≡ nearest_branches (waiting self.old) }
        ensures rest { waiting self.new ≡ less_branches (waiting self.old) }
    {
        match self.switches.pop_front() {
            Some(branches) => branches,
            None => Branches {
                cases: VecDeque::new(self.alloc),
                otherwise: None,
            },
        }
    }

    /// All choices that wait.
    pub fn pop_choices(&mut self) -> Vec<(Const, Option<Const>)>
        ensures choices { result.items ≡ (waiting self.old).choices }
        ensures rest { waiting self.new ≡ less_choices (waiting self.old) }
    {
        let choices = replace(&mut self.choices, VecDeque::new(self.alloc));
        choices.into_vec()
    }

    // ---- one more is the nearest

    pub fn push_value(&mut self, value: Expr) -> Result<(), Memory>
        ensures { IfOk result (λ _. waiting self.new
            ≡ with_value (expression_of value) (waiting self.old)) }
    {
        self.values.push_front(value)?;
        Ok(())
    }

    pub fn push_arguments(&mut self, arguments: VecDeque<Expr>) -> Result<(), Memory>
        ensures { IfOk result (λ _. waiting self.new
            ≡ with_arguments (arguments_of arguments.items) (waiting self.old)) }
    {
        self.argument_lists.push_front(arguments)?;
        Ok(())
    }

    pub fn push_test(&mut self, test: Cond) -> Result<(), Memory>
        ensures { IfOk result (λ _. waiting self.new
            ≡ with_test (condition_of test) (waiting self.old)) }
    {
        self.tests.push_front(test)?;
        Ok(())
    }

    pub fn push_block(&mut self, block: VecDeque<Stmt>) -> Result<(), Memory>
        ensures { IfOk result (λ _. waiting self.new
            ≡ with_block (statements_of block.items) (waiting self.old)) }
    {
        self.blocks.push_front(block)?;
        Ok(())
    }

    pub fn push_branches(&mut self, branches: Branches) -> Result<(), Memory>
        ensures { IfOk result (λ _. waiting self.new
            ≡ with_branches (branches_of branches) (waiting self.old)) }
    {
        self.switches.push_front(branches)?;
        Ok(())
    }

    pub fn push_choice(&mut self, first: Const, last: Option<Const>) -> Result<(), Memory>
        ensures { IfOk result (λ _. waiting self.new
            ≡ with_choice (first, last) (waiting self.old)) }
    {
        self.choices.push_front((first, last))?;
        Ok(())
    }

    /// A statement stands before the others of the nearest block.
    pub fn push_statement(&mut self, statement: Stmt) -> Result<(), Memory>
        ensures { IfOk result (λ _. waiting self.new
            ≡ with_statement (statement_of statement) (waiting self.old)) }
    {
        let mut block = self.pop_block();
        block.push_front(statement)?;
        self.push_block(block)
    }
}
