//! Chains of sums, and of products.
ghost use Rattle.std.specs.Prelude.{◌≡◌, ◌+◌, max};
ghost use Rattle.inform_tree.specs.Depths.{expression_depth, terms_depth, factors_depth};
ghost use Rattle.inform_tree.specs.Values as v;
ghost use Rattle.inform_tree.specs.Values.{expression_of, terms_of, factors_of};
ghost use Rattle.inform_meaning.specs.Frames as f;
ghost use Rattle.inform_interpreter.specs.Interpreters.{IsReady, ended};
ghost use Rattle.inform_interpreter.specs.Doing.{begun, wanted, Does};

use crate::exits::Exit;
use crate::firsts::first_of;
use crate::interpreters::Interpreter;
use crate::words::{multiplied, summed};
use adv_draws::Draws;
use adv_io::{Console, Line};
use inform_frames::{Frame, Want};
use inform_meaning::Trap;
use inform_tree::{Expr, ProdOp, SumOp};

impl<'a> Interpreter<'a> {
    // A sum.
    #[cycle(parts)]
    #[inline(always)]
    pub fn sum<C: Console>(
        &mut self,
        first: &'a Expr,
        xs: &'a [(SumOp, Expr)],
        draws: &mut Draws,
        line: &mut Line,
        console: &mut C,
    ) -> Result<i32, Exit>
        requires { IsReady self.old (max (expression_depth (expression_of first.now))
            (terms_depth (terms_of xs.now)) + 1) }
        ensures { Does (max (expression_depth (expression_of first.now))
            (terms_depth (terms_of xs.now)) + 1) (begun (f.Evals (v.Sum (expression_of first.now)
            (terms_of xs.now)))) self.old self.new (C.seen console.old) (C.seen console.new)
            draws.old draws.new (ended f.Value self.new result) }
    {
        match self.eval(first, draws, line, console) {
            Ok(a) => self.sum_from(a, xs, draws, line, console),
            Err(exit) => Err(self.leave(exit, Frame::Wants(Want::SumFrom(xs)))),
        }
    }

    /// A sum of which this much is known.
    #[cycle(parts)]
    #[inline(always)]
    pub fn sum_from<C: Console>(
        &mut self,
        first: i32,
        xs: &'a [(SumOp, Expr)],
        draws: &mut Draws,
        line: &mut Line,
        console: &mut C,
    ) -> Result<i32, Exit>
        requires { IsReady self.old (terms_depth (terms_of xs.now) + 1) }
        ensures { Does (terms_depth (terms_of xs.now) + 1) (wanted (f.SumFrom (terms_of xs.now))
            first) self.old self.new (C.seen console.old) (C.seen console.new) draws.old draws.new
            (ended f.Value self.new result) }
    {
        let mut sum = first;
        let mut rest = xs;
        'terms: loop {
            let Some((term, others)) = first_of(rest) else {
                return Ok(sum);
            };
            match self.eval(&term.1, draws, line, console) {
                Ok(a) => sum = summed(self.width(), term.0, sum, a),
                Err(exit) => {
                    return Err(self.leave(exit, Frame::Wants(Want::SumOnto(term.0, sum, others))));
                }
            }
            rest = others;
        }
    }
}

impl<'a> Interpreter<'a> {
    // A product.
    #[cycle(parts)]
    #[inline(always)]
    pub fn product<C: Console>(
        &mut self,
        first: &'a Expr,
        xs: &'a [(ProdOp, Expr)],
        draws: &mut Draws,
        line: &mut Line,
        console: &mut C,
    ) -> Result<i32, Exit>
        requires { IsReady self.old (max (expression_depth (expression_of first.now))
            (factors_depth (factors_of xs.now)) + 1) }
        ensures { Does (max (expression_depth (expression_of first.now))
            (factors_depth (factors_of xs.now)) + 1) (begun (f.Evals (v.Product
            (expression_of first.now) (factors_of xs.now)))) self.old self.new
            (C.seen console.old) (C.seen console.new) draws.old draws.new
            (ended f.Value self.new result) }
    {
        match self.eval(first, draws, line, console) {
            Ok(a) => self.product_from(a, xs, draws, line, console),
            Err(exit) => Err(self.leave(exit, Frame::Wants(Want::ProductFrom(xs)))),
        }
    }

    /// A product of which this much is known.
    #[cycle(parts)]
    #[inline(always)]
    pub fn product_from<C: Console>(
        &mut self,
        first: i32,
        xs: &'a [(ProdOp, Expr)],
        draws: &mut Draws,
        line: &mut Line,
        console: &mut C,
    ) -> Result<i32, Exit>
        requires { IsReady self.old (factors_depth (factors_of xs.now) + 1) }
        ensures { Does (factors_depth (factors_of xs.now) + 1) (wanted (f.ProductFrom
            (factors_of xs.now)) first) self.old self.new (C.seen console.old) (C.seen console.new)
            draws.old draws.new (ended f.Value self.new result) }
    {
        let mut product = first;
        let mut rest = xs;
        'factors: loop {
            let Some((factor, others)) = first_of(rest) else {
                return Ok(product);
            };
            match self.eval(&factor.1, draws, line, console) {
                Ok(a) => match multiplied(self.width(), factor.0, product, a) {
                    Some(b) => product = b,
                    None => return Err(self.trap(Trap::Division)),
                },
                Err(exit) => {
                    let frame = Frame::Wants(Want::ProductOnto(factor.0, product, others));
                    return Err(self.leave(exit, frame));
                }
            }
            rest = others;
        }
    }
}
