//! Values.
ghost use Rattle.std.specs.Prelude.{◌≡◌, ◌+◌, ◌≤◌, Bool};
ghost use Rattle.adv_draws.specs.Supply.{Supply};
ghost use Rattle.adv_io.specs.Console.{ConsoleView};
ghost use Rattle.inform_tree.specs.Depths.{expression_depth, arguments_depth, terms_depth, factors_depth};
ghost use Rattle.inform_tree.specs.Values as v;
ghost use Rattle.inform_tree.specs.Values.{expression_of, arguments_of, terms_of, factors_of};
ghost use Rattle.inform_meaning.specs.Words.{draw_within};
ghost use Rattle.inform_meaning.specs.Frames as f;
ghost use Rattle.inform_interpreter.specs.Interpreters.{IsReady, ended};
ghost use Rattle.inform_interpreter.specs.Doing.{begun, wanted, Does};

use crate::exits::{Exit, Lack};
use crate::interpreters::Interpreter;
use crate::words::number;
use adv_draws::Draws;
use adv_io::{Console, Line};
use inform_frames::{Begin, Frame, Want};
use inform_meaning::{Trap, neg};
use inform_tree::{Expr, Name, ProdOp, SumOp};

// A number of 1 to n by a draw.
fn drawn(n: i32, draw: u8) -> i32
    requires some { 1 ≤ draw }
    requires few { draw ≤ 100 }
    ensures { result ≡ draw_within n draw }
{
    let size = n.unsigned_abs();
    let place = u32::from(draw) - 1;
    if size == 0 {
        return place as i32 + 1;
    }
    (place % size) as i32 + 1
}

impl<'a> Interpreter<'a> {
    /// The value of an expression. What stands in most places is a number or a name, which is looked
    /// at first, and without a further call.
    #[cycle(parts)]
    #[inline(always)]
    pub fn eval<C: Console>(
        &mut self,
        x: &'a Expr,
        draws: &mut Draws,
        line: &mut Line,
        console: &mut C,
    ) -> Result<i32, Exit>
        requires { IsReady self.old (expression_depth (expression_of x.now)) }
        ensures { Does (expression_depth (expression_of x.now)) (begun (f.Evals
            (expression_of x.now))) self.old self.new (C.seen console.old) (C.seen console.new)
            draws.old draws.new (ended f.Value self.new result) }
    {
        match x {
            Expr::Number(n) => Ok(number(self.world.names(), *n)),
            Expr::Name(name) => Ok(self.world.value(name)),
            _ => self.eval_any(x, draws, line, console),
        }
    }

    // The value of an expression of any kind.
    #[cycle(parts)]
    #[tactic(auto, using(inform_tree::proofs::Views::expression_of_sum, inform_tree::proofs::Views::expression_of_product))]
    fn eval_any<C: Console>(
        &mut self,
        x: &'a Expr,
        draws: &mut Draws,
        line: &mut Line,
        console: &mut C,
    ) -> Result<i32, Exit>
        requires { IsReady self.old (expression_depth (expression_of x.now)) }
        ensures { Does (expression_depth (expression_of x.now)) (begun (f.Evals
            (expression_of x.now))) self.old self.new (C.seen console.old) (C.seen console.new)
            draws.old draws.new (ended f.Value self.new result) }
    {
        match x {
            Expr::Number(n) => Ok(number(self.world.names(), *n)),
            Expr::Char(byte) => Ok(i32::from(*byte)),
            Expr::Name(name) => Ok(self.world.value(name)),
            Expr::Entry(name, _, index) => self.entry(name, index, draws, line, console),
            Expr::Call(name, xs) => self.call_of(name, xs, draws, line, console),
            Expr::Random(limit) => self.random(limit, draws, line, console),
            Expr::Neg(operand) => self.negation(operand, draws, line, console),
            Expr::Sum(first, xs) => self.sum(first, xs, draws, line, console),
            Expr::Product(first, xs) => self.product(first, xs, draws, line, console),
        }
    }

    /// The entry of an array at an index that is known.
    pub fn fetch(&mut self, name: &Name, index: i32) -> Result<i32, Exit>
        requires { IsReady self.old 0 }
        ensures { (seen : ConsoleView) (given : Supply) → Does 0 (wanted (f.IndexOf name.now) index)
            self.old self.new seen seen given given (ended f.Value self.new result) }
    {
        match self.world.entry(name, index) {
            None => Err(self.trap(Trap::Index)),
            Some(a) => Ok(a),
        }
    }

    // The entry of an array.
    #[cycle(parts)]
    #[inline(always)]
    fn entry<C: Console>(
        &mut self,
        name: &'a Name,
        index: &'a Expr,
        draws: &mut Draws,
        line: &mut Line,
        console: &mut C,
    ) -> Result<i32, Exit>
        requires { IsReady self.old (expression_depth (expression_of index.now) + 1) }
        ensures { (words : Bool) → Does (expression_depth (expression_of index.now) + 1)
            (begun (f.Evals (v.Entry name.now words (expression_of index.now)))) self.old self.new
            (C.seen console.old) (C.seen console.new) draws.old draws.new
            (ended f.Value self.new result) }
    {
        match self.eval(index, draws, line, console) {
            Ok(i) => self.fetch(name, i),
            Err(exit) => Err(self.leave(exit, Frame::Wants(Want::IndexOf(name)))),
        }
    }

    // An operand with a minus sign before it.
    #[cycle(parts)]
    #[inline(always)]
    fn negation<C: Console>(
        &mut self,
        operand: &'a Expr,
        draws: &mut Draws,
        line: &mut Line,
        console: &mut C,
    ) -> Result<i32, Exit>
        requires { IsReady self.old (expression_depth (expression_of operand.now) + 1) }
        ensures { Does (expression_depth (expression_of operand.now) + 1) (begun (f.Evals
            (v.Neg (expression_of operand.now)))) self.old self.new (C.seen console.old)
            (C.seen console.new) draws.old draws.new (ended f.Value self.new result) }
    {
        match self.eval(operand, draws, line, console) {
            Ok(a) => Ok(neg(self.width(), a)),
            Err(exit) => Err(self.leave(exit, Frame::Wants(Want::Negates))),
        }
    }

    /// The next draw makes a number up to this one.
    pub fn draw(&mut self, n: i32, draws: &mut Draws) -> Result<i32, Exit>
        requires { IsReady self.old 1 }
        ensures { (seen : ConsoleView) → Does 1 (begun (f.DrawDue n)) self.old self.new seen seen
            draws.old draws.new (ended f.Value self.new result) }
    {
        match draws.next() {
            Some(draw) => Ok(drawn(n, draw)),
            None => Err(self.wait(Lack::Draw, Frame::Begins(Begin::DrawDue(n)))),
        }
    }

    /// A number up to this one, by a draw, if it is above 0.
    pub fn random_to(&mut self, n: i32, draws: &mut Draws) -> Result<i32, Exit>
        requires { IsReady self.old 1 }
        ensures { (seen : ConsoleView) → Does 1 (wanted f.RangeOf n) self.old self.new seen seen
            draws.old draws.new (ended f.Value self.new result) }
    {
        if n < 1 {
            return Err(self.trap(Trap::Random));
        }
        self.draw(n, draws)
    }

    // A random number.
    #[cycle(parts)]
    #[inline(always)]
    fn random<C: Console>(
        &mut self,
        limit: &'a Expr,
        draws: &mut Draws,
        line: &mut Line,
        console: &mut C,
    ) -> Result<i32, Exit>
        requires { IsReady self.old (expression_depth (expression_of limit.now) + 1) }
        ensures { Does (expression_depth (expression_of limit.now) + 1) (begun (f.Evals
            (v.Random (expression_of limit.now)))) self.old self.new (C.seen console.old)
            (C.seen console.new) draws.old draws.new (ended f.Value self.new result) }
    {
        match self.eval(limit, draws, line, console) {
            Ok(n) => self.random_to(n, draws),
            Err(exit) => Err(self.leave(exit, Frame::Wants(Want::RangeOf))),
        }
    }
}
