//! Calls.
ghost use Rattle.std.specs.Prelude.{◌≡◌, ◌+◌, ◌<◌, ◌≤◌, ℕ, List, [], length, IfSome, IfNone, Some, None};
ghost use Rattle.inform_tree.specs.Depths.{arguments_depth, statements_depth};
ghost use Rattle.inform_tree.specs.Values.{arguments_of};
ghost use Rattle.inform_tree.specs.Statements.{statements_of};
ghost use Rattle.inform_meaning.specs.Frames as f;
ghost use Rattle.inform_moves.specs.Heights.{calls_open};
ghost use Rattle.inform_worlds.specs.Scopes.{scope_of, values_of};
ghost use Rattle.inform_worlds.specs.Views.{program_seen};
ghost use Rattle.inform_interpreter.specs.Interpreters.{program_of, IsReady, ended, normal};
ghost use Rattle.inform_frames.specs.Stacks.{stack_of};
ghost use Rattle.inform_frames.specs.declared.stacks.TheConstants.{ROOM, CALLS};
ghost use Rattle.inform_interpreter.specs.Doing.{begun, Does, returned_by, ComesBack};
ghost use Rattle.inform_interpreter.specs.Parts.{called, called_with};

use crate::exits::{Exit, Lack, Stopped};
use crate::firsts::first_of;
use crate::interpreters::Interpreter;
use adv_draws::Draws;
use adv_io::{Console, Line};
use inform_frames::{Frame, Want};
use inform_meaning::Trap;
use inform_names::laws::{meanings_are_of_directives, routines_are_shallow};
use inform_tree::{Directive, Expr, Name, Routine};
use inform_worlds::{Arguments, Scope, World};

// The routine of this name and the number of its directive, if there is one.
fn routine<'a>(world: &World<'a>, name: &Name) -> Option<(usize, &'a Routine)>
    ensures found { IfSome result (λ r.
        (program_seen world.now).routines name.now ≡ Some (record {
          directive = r.0;
          locals = r.1.now.locals.items;
          body = statements_of r.1.now.body.items;
        })) }
    ensures none { IfNone result ((program_seen world.now).routines name.now ≡ None) }
{
    meanings_are_of_directives();
    match world.find(name) {
        None => None,
        Some(meaning) => match world.names().directive(meaning.at) {
            Directive::Routine(routine) => Some((meaning.at, routine)),
            Directive::Constant(_, _) => None,
            Directive::Global(_, _) => None,
            Directive::Array(_, _, _) => None,
        },
    }
}

impl<'a> Interpreter<'a> {
    /// A routine that was called is over, or waits: its value, in the scope of the caller.
    pub fn come_back(&mut self, caller: Scope<'a>, ran: Result<(), Exit>) -> Result<i32, Exit>
        requires room { length (stack_of self.old.waiting) < ROOM }
        requires few { calls_open (stack_of self.old.waiting) < CALLS }
        ensures result { result ≡ returned_by ran }
        ensures comes_back { ComesBack (scope_of caller.entry) (ended normal self.old ran) self.old
            self.new }
    {
        match ran {
            Err(Exit::Stops) => {
                match self.stopped {
                    Stopped::Lacks(_) => self.waiting.push_caller(caller),
                    Stopped::Over(_) => self.world.enter(caller),
                    Stopped::Fails(_) => {}
                }
                Err(Exit::Stops)
            }
            Ok(()) => {
                self.world.enter(caller);
                Ok(1)
            }
            Err(Exit::Returns(a)) => {
                self.world.enter(caller);
                Ok(a)
            }
            Err(exit) => {
                self.world.enter(caller);
                Err(exit)
            }
        }
    }

    // The value of a routine that is called, where one call more may be open.
    #[cycle(parts)]
    #[inline(always)]
    fn enter<C: Console>(
        &mut self,
        directive: usize,
        routine: &'a Routine,
        values: &Arguments,
        draws: &mut Draws,
        line: &mut Line,
        console: &mut C,
    ) -> Result<i32, Exit>
        requires ready { IsReady self.old 1 }
        requires some { 0 < self.old.room }
        requires shallow { statements_depth (statements_of routine.now.body.items) ≤ 64 }
        ensures { (name : List ℕ) → (program_of self.old).routines name ≡ Some (record {
          directive = directive;
          locals = routine.now.locals.items;
          body = statements_of routine.now.body.items;
        }) → Does 1 (called name (values_of values.now)) self.old self.new (C.seen console.old)
            (C.seen console.new) draws.old draws.new (ended f.Value self.new result) }
    {
        let caller = self.world.scope();
        self.world.enter(Scope::of(directive, routine, values));
        self.room -= 1;
        let result = self.block(&routine.body, draws, line, console);
        self.room += 1;
        self.come_back(caller, result)
    }

    /// A call whose arguments are known: a step, and the routine.
    #[cycle(parts)]
    #[inline(always)]
    pub fn call<C: Console>(
        &mut self,
        name: &'a Name,
        values: Arguments,
        draws: &mut Draws,
        line: &mut Line,
        console: &mut C,
    ) -> Result<i32, Exit>
        requires { IsReady self.old 1 }
        ensures { Does 1 (begun (f.CallDue name.now (values_of values))) self.old self.new
            (C.seen console.old) (C.seen console.new) draws.old draws.new
            (ended f.Value self.new result) }
    {
        if self.left == 0 {
            return Err(self.wait(Lack::Steps, Frame::CallDue(name, values)));
        }
        if self.to_call {
            return Err(self.wait(Lack::Steps, Frame::CallDue(name, values)));
        }
        self.left -= 1;
        if self.room == 0 {
            return Err(self.trap(Trap::Depth));
        }
        routines_are_shallow();
        match routine(&self.world, name) {
            None => Ok(0),
            Some((directive, routine)) => {
                self.enter(directive, routine, &values, draws, line, console)
            }
        }
    }

    /// A call of which these arguments are known: the others from left to right, and the call.
    #[cycle(parts)]
    #[inline(always)]
    pub fn arguments<C: Console>(
        &mut self,
        name: &'a Name,
        known: Arguments,
        xs: &'a [Expr],
        draws: &mut Draws,
        line: &mut Line,
        console: &mut C,
    ) -> Result<i32, Exit>
        requires { IsReady self.old (arguments_depth (arguments_of xs.now) + 1) }
        ensures { Does (arguments_depth (arguments_of xs.now) + 1) (called_with name.now
            (values_of known) (arguments_of xs.now)) self.old self.new (C.seen console.old)
            (C.seen console.new) draws.old draws.new (ended f.Value self.new result) }
    {
        let mut values = known;
        let mut rest = xs;
        'arguments: loop {
            let Some((x, others)) = first_of(rest) else {
                return self.call(name, values, draws, line, console);
            };
            match self.eval(x, draws, line, console) {
                Ok(a) => values = values.with(a),
                Err(exit) => return Err(self.leave(exit, Frame::Args(name, values, others))),
            }
            rest = others;
        }
    }

    /// A call: its arguments from left to right, and the routine. The room for what is known of it is
    /// taken here, so that a value without a call takes none.
    #[cycle(parts)]
    #[inline(never)]
    pub fn call_of<C: Console>(
        &mut self,
        name: &'a Name,
        xs: &'a [Expr],
        draws: &mut Draws,
        line: &mut Line,
        console: &mut C,
    ) -> Result<i32, Exit>
        requires { IsReady self.old (arguments_depth (arguments_of xs.now) + 1) }
        ensures { Does (arguments_depth (arguments_of xs.now) + 1) (called_with name.now []
            (arguments_of xs.now)) self.old self.new (C.seen console.old) (C.seen console.new)
            draws.old draws.new (ended f.Value self.new result) }
    {
        self.arguments(name, Arguments::none(), xs, draws, line, console)
    }
}
