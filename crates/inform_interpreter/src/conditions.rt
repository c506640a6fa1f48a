//! Conditions.
ghost use Rattle.std.specs.Prelude.{◌≡◌, ◌+◌, max, option_map};
ghost use Rattle.adv_io.specs.Console.{ConsoleView};
ghost use Rattle.adv_draws.specs.Supply.{Supply};
ghost use Rattle.inform_tree.specs.Depths.{expression_depth, condition_depth, conditions_depth, optional_depth};
ghost use Rattle.inform_tree.specs.Values.{expression_of};
ghost use Rattle.inform_tree.specs.Conditions as d;
ghost use Rattle.inform_tree.specs.Conditions.{condition_of, conditions_of};
ghost use Rattle.inform_meaning.specs.Frames as f;
ghost use Rattle.inform_interpreter.specs.Interpreters.{IsReady, ended};
ghost use Rattle.inform_interpreter.specs.Doing.{begun, wanted, Does};
ghost use Rattle.inform_interpreter.specs.Parts.{tested_if_any};

use crate::exits::Exit;
use crate::firsts::first_of;
use crate::interpreters::Interpreter;
use adv_draws::Draws;
use adv_io::{Console, Line};
use inform_frames::{Decide, Frame, Want};
use inform_meaning::compares;
use inform_tree::{Cond, Expr, Relation};

impl<'a> Interpreter<'a> {
    /// Whether a condition holds. What stands in most places compares two values, which is looked
    /// at first, and without a further call.
    #[cycle(parts)]
    #[inline(always)]
    pub fn test<C: Console>(
        &mut self,
        x: &'a Cond,
        draws: &mut Draws,
        line: &mut Line,
        console: &mut C,
    ) -> Result<bool, Exit>
        requires { IsReady self.old (condition_depth (condition_of x.now)) }
        ensures { Does (condition_depth (condition_of x.now)) (begun (f.Tests
            (condition_of x.now))) self.old self.new (C.seen console.old) (C.seen console.new)
            draws.old draws.new (ended f.Truth self.new result) }
    {
        match x {
            Cond::Compare(relation, left, right) => {
                self.compare(*relation, left, right, draws, line, console)
            }
            _ => self.test_any(x, draws, line, console),
        }
    }

    // Whether a condition of any kind holds.
    #[cycle(parts)]
    fn test_any<C: Console>(
        &mut self,
        x: &'a Cond,
        draws: &mut Draws,
        line: &mut Line,
        console: &mut C,
    ) -> Result<bool, Exit>
        requires { IsReady self.old (condition_depth (condition_of x.now)) }
        ensures { Does (condition_depth (condition_of x.now)) (begun (f.Tests
            (condition_of x.now))) self.old self.new (C.seen console.old) (C.seen console.new)
            draws.old draws.new (ended f.Truth self.new result) }
    {
        match x {
            Cond::Compare(relation, left, right) => {
                self.compare(*relation, left, right, draws, line, console)
            }
            Cond::Nonzero(x) => self.nonzero(x, draws, line, console),
            Cond::All(xs) => self.all(xs, draws, line, console),
            Cond::Any(xs) => self.any(xs, draws, line, console),
            Cond::Not(x) => self.negated(x, draws, line, console),
        }
    }

    /// Whether a value is so related to another one.
    #[cycle(parts)]
    #[inline(always)]
    pub fn right_of<C: Console>(
        &mut self,
        relation: Relation,
        left: i32,
        right: &'a Expr,
        draws: &mut Draws,
        line: &mut Line,
        console: &mut C,
    ) -> Result<bool, Exit>
        requires { IsReady self.old (expression_depth (expression_of right.now) + 1) }
        ensures { Does (expression_depth (expression_of right.now) + 1) (wanted (f.LeftOf relation
            (expression_of right.now)) left) self.old self.new (C.seen console.old)
            (C.seen console.new) draws.old draws.new (ended f.Truth self.new result) }
    {
        match self.eval(right, draws, line, console) {
            Ok(b) => Ok(compares(relation, left, b)),
            Err(exit) => Err(self.leave(exit, Frame::Wants(Want::RightOf(relation, left)))),
        }
    }

    // Whether two values are so related.
    #[cycle(parts)]
    #[inline(always)]
    fn compare<C: Console>(
        &mut self,
        relation: Relation,
        left: &'a Expr,
        right: &'a Expr,
        draws: &mut Draws,
        line: &mut Line,
        console: &mut C,
    ) -> Result<bool, Exit>
        requires { IsReady self.old (max (expression_depth (expression_of left.now))
            (expression_depth (expression_of right.now)) + 1) }
        ensures { Does (max (expression_depth (expression_of left.now))
            (expression_depth (expression_of right.now)) + 1) (begun (f.Tests (d.Compare relation
            (expression_of left.now) (expression_of right.now)))) self.old self.new
            (C.seen console.old) (C.seen console.new) draws.old draws.new
            (ended f.Truth self.new result) }
    {
        match self.eval(left, draws, line, console) {
            Ok(a) => self.right_of(relation, a, right, draws, line, console),
            Err(exit) => Err(self.leave(exit, Frame::Wants(Want::LeftOf(relation, right)))),
        }
    }

    // Whether a value isn't 0.
    #[cycle(parts)]
    #[inline(always)]
    fn nonzero<C: Console>(
        &mut self,
        x: &'a Expr,
        draws: &mut Draws,
        line: &mut Line,
        console: &mut C,
    ) -> Result<bool, Exit>
        requires { IsReady self.old (expression_depth (expression_of x.now) + 1) }
        ensures { Does (expression_depth (expression_of x.now) + 1) (begun (f.Tests (d.Nonzero
            (expression_of x.now)))) self.old self.new (C.seen console.old) (C.seen console.new)
            draws.old draws.new (ended f.Truth self.new result) }
    {
        match self.eval(x, draws, line, console) {
            Ok(a) => Ok(a != 0),
            Err(exit) => Err(self.leave(exit, Frame::Wants(Want::IsNonzero))),
        }
    }

    // Whether a condition doesn't hold.
    #[cycle(parts)]
    #[inline(always)]
    fn negated<C: Console>(
        &mut self,
        x: &'a Cond,
        draws: &mut Draws,
        line: &mut Line,
        console: &mut C,
    ) -> Result<bool, Exit>
        requires { IsReady self.old (condition_depth (condition_of x.now) + 1) }
        ensures { Does (condition_depth (condition_of x.now) + 1) (begun (f.Tests (d.Not
            (condition_of x.now)))) self.old self.new (C.seen console.old) (C.seen console.new)
            draws.old draws.new (ended f.Truth self.new result) }
    {
        match self.test(x, draws, line, console) {
            Ok(b) => Ok(!b),
            Err(exit) => Err(self.leave(exit, Frame::Decides(Decide::Flips))),
        }
    }

    /// Whether all of these hold: up to the first that doesn't.
    #[cycle(parts)]
    pub fn all<C: Console>(
        &mut self,
        xs: &'a [Cond],
        draws: &mut Draws,
        line: &mut Line,
        console: &mut C,
    ) -> Result<bool, Exit>
        requires { IsReady self.old (conditions_depth (conditions_of xs.now) + 1) }
        ensures { Does (conditions_depth (conditions_of xs.now) + 1) (begun (f.Tests (d.All
            (conditions_of xs.now)))) self.old self.new (C.seen console.old) (C.seen console.new)
            draws.old draws.new (ended f.Truth self.new result) }
    {
        let mut rest = xs;
        'members: loop {
            let Some((x, others)) = first_of(rest) else {
                return Ok(true);
            };
            match self.test(x, draws, line, console) {
                Ok(true) => {}
                Ok(false) => return Ok(false),
                Err(exit) => {
                    return Err(self.leave(exit, Frame::Decides(Decide::AllOf(others))));
                }
            }
            rest = others;
        }
    }

    /// Whether one of these holds: up to the first that does.
    #[cycle(parts)]
    pub fn any<C: Console>(
        &mut self,
        xs: &'a [Cond],
        draws: &mut Draws,
        line: &mut Line,
        console: &mut C,
    ) -> Result<bool, Exit>
        requires { IsReady self.old (conditions_depth (conditions_of xs.now) + 1) }
        ensures { Does (conditions_depth (conditions_of xs.now) + 1) (begun (f.Tests (d.Any
            (conditions_of xs.now)))) self.old self.new (C.seen console.old) (C.seen console.new)
            draws.old draws.new (ended f.Truth self.new result) }
    {
        let mut rest = xs;
        'members: loop {
            let Some((x, others)) = first_of(rest) else {
                return Ok(false);
            };
            match self.test(x, draws, line, console) {
                Ok(true) => return Ok(true),
                Ok(false) => {}
                Err(exit) => {
                    return Err(self.leave(exit, Frame::Decides(Decide::AnyOf(others))));
                }
            }
            rest = others;
        }
    }

    /// Whether a condition holds; one that isn't there does.
    #[cycle(parts)]
    #[inline(always)]
    pub fn test_if_any<C: Console>(
        &mut self,
        x: Option<&'a Cond>,
        draws: &mut Draws,
        line: &mut Line,
        console: &mut C,
    ) -> Result<bool, Exit>
        requires { IsReady self.old (optional_depth condition_depth
            (option_map (λ x. condition_of x.now) x)) }
        ensures { Does (optional_depth condition_depth (option_map (λ x. condition_of x.now)
            x.entry)) (tested_if_any (option_map (λ x. condition_of x.now) x.entry)) self.old
            self.new (C.seen console.old) (C.seen console.new) draws.old draws.new
            (ended f.Truth self.new result) }
    {
        match x {
            None => Ok(true),
            Some(x) => self.test(x, draws, line, console),
        }
    }
}
