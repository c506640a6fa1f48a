//! What a frame does with the outcome of its part, as a run goes on where it stopped.
ghost use Rattle.std.specs.Prelude.{◌≡◌, [], Some};
ghost use Rattle.adv_draws.specs.Supply.{Supply};
ghost use Rattle.adv_io.specs.Console.{ConsoleView};
ghost use Rattle.inform_meaning.specs.Frames as f;
ghost use Rattle.inform_moves.specs.Heights.{begin_height, want_height, decide_height, loop_height, height};
ghost use Rattle.inform_moves.specs.Readiness.{HasRoom};
ghost use Rattle.inform_worlds.specs.Scopes.{scope_of};
ghost use Rattle.inform_worlds.specs.Views.{world_of};
ghost use Rattle.inform_frames.specs.Frames as v;
ghost use Rattle.inform_frames.specs.Frames.{IsPlain, begin_of, want_of, decide_of, loop_of, signal_of, frame_of};
ghost use Rattle.inform_frames.specs.Stacks.{stack_of};
ghost use Rattle.inform_interpreter.specs.Interpreters.{IsReady, left_by, ended, normal, handed_on};
ghost use Rattle.inform_interpreter.specs.Doing.{begun, wanted, decided, handed, Does};
ghost use Rattle.inform_interpreter.specs.Parts.{turn_change};

use crate::exits::{Exit, Stopped};
use crate::interpreters::Interpreter;
use crate::loops::goes_on;
use crate::words::{multiplied, summed};
use adv_draws::Draws;
use adv_io::{Console, Line};
use inform_frames::{Begin, Decide, Frame, Halt, Loop, Signal, Want};
use inform_meaning::{Trap, compares, neg};
use inform_worlds::Scope;

/// How a run is over whose first routine ends like this.
pub fn halt_of(signal: Signal) -> Halt
    ensures { v.halt_of result ≡ f.halt_of (signal_of signal) }
{
    match signal {
        Signal::Halts(halt) => halt,
        _ => Halt::Quits,
    }
}

// The value of a routine whose body ends like this.
fn returned(signal: Signal) -> Signal
    ensures { signal_of result ≡ f.returned (signal_of signal) }
{
    match signal {
        Signal::Normal => Signal::Value(1),
        Signal::Returns(a) => Signal::Value(a),
        _ => signal,
    }
}

impl<'a> Interpreter<'a> {
    // What is handed on where a part was left; nothing where it waits, or the console failed.
    fn left(&self, exit: Exit) -> Option<Signal>
        ensures { handed_on self.now result ≡ left_by self.now exit }
    {
        match exit {
            Exit::Returns(a) => Some(Signal::Returns(a)),
            Exit::Breaks => Some(Signal::Breaks),
            Exit::Continues => Some(Signal::Continues),
            Exit::Stops => match self.stopped {
                Stopped::Over(halt) => Some(Signal::Halts(halt)),
                Stopped::Lacks(_) => None,
                Stopped::Fails(_) => None,
            },
        }
    }

    // What is handed on of a value.
    fn value_on(&self, value: Result<i32, Exit>) -> Option<Signal>
        ensures { handed_on self.now result ≡ ended f.Value self.now value }
    {
        match value {
            Ok(a) => Some(Signal::Value(a)),
            Err(exit) => self.left(exit),
        }
    }

    // What is handed on of a truth value.
    fn truth_on(&self, truth: Result<bool, Exit>) -> Option<Signal>
        ensures { handed_on self.now result ≡ ended f.Truth self.now truth }
    {
        match truth {
            Ok(b) => Some(Signal::Truth(b)),
            Err(exit) => self.left(exit),
        }
    }

    // What is handed on of a part that gives nothing.
    fn normal_on(&self, done: Result<(), Exit>) -> Option<Signal>
        ensures { handed_on self.now result ≡ ended normal self.now done }
    {
        match done {
            Ok(()) => Some(Signal::Normal),
            Err(exit) => self.left(exit),
        }
    }

    // What hasn't begun begins.
    fn start<C: Console>(
        &mut self,
        begin: Begin<'a>,
        draws: &mut Draws,
        line: &mut Line,
        console: &mut C,
    ) -> Option<Signal>
        requires ready { IsReady self.old (begin_height (begin_of begin)) }
        requires room { HasRoom (world_of self.old.world) (f.Begins (begin_of begin)) }
        ensures { Does (begin_height (begin_of begin.entry)) (begun (begin_of begin.entry)) self.old
            self.new (C.seen console.old) (C.seen console.new) draws.old draws.new
            (handed_on self.new result) }
    {
        match begin {
            Begin::Evals(x) => {
                let value = self.eval(x, draws, line, console);
                self.value_on(value)
            }
            Begin::DrawDue(n) => {
                let value = self.draw(n, draws);
                self.value_on(value)
            }
            Begin::Tests(x) => {
                let truth = self.test(x, draws, line, console);
                self.truth_on(truth)
            }
            Begin::Alters(x) => {
                let done = self.alter_apart(x, draws, line, console);
                self.normal_on(done)
            }
            Begin::Due(x) => {
                let done = self.exec(x, draws, line, console);
                self.normal_on(done)
            }
            Begin::Blocks(xs) => {
                let done = self.block(xs, draws, line, console);
                self.normal_on(done)
            }
            Begin::Prints(xs) => {
                let done = self.print(xs, draws, line, console);
                self.normal_on(done)
            }
            Begin::LineDue(name) => {
                let done = self.take_line(name, line, console);
                self.normal_on(done)
            }
        }
    }

    // What a value is used for.
    fn use_value<C: Console>(
        &mut self,
        want: Want<'a>,
        a: i32,
        draws: &mut Draws,
        line: &mut Line,
        console: &mut C,
    ) -> Option<Signal>
        requires { IsReady self.old (want_height (want_of want)) }
        ensures { Does (want_height (want_of want.entry)) (wanted (want_of want.entry) a) self.old
            self.new (C.seen console.old) (C.seen console.new) draws.old draws.new
            (handed_on self.new result) }
    {
        match want {
            Want::IndexOf(name) => {
                let value = self.fetch(name, a);
                self.value_on(value)
            }
            Want::RangeOf => {
                let value = self.random_to(a, draws);
                self.value_on(value)
            }
            Want::Negates => Some(Signal::Value(neg(self.width(), a))),
            Want::SumFrom(xs) => {
                let value = self.sum_from(a, xs, draws, line, console);
                self.value_on(value)
            }
            Want::SumOnto(op, b, xs) => {
                let sum = summed(self.width(), op, b, a);
                let value = self.sum_from(sum, xs, draws, line, console);
                self.value_on(value)
            }
            Want::ProductFrom(xs) => {
                let value = self.product_from(a, xs, draws, line, console);
                self.value_on(value)
            }
            Want::ProductOnto(op, b, xs) => match multiplied(self.width(), op, b, a) {
                None => {
                    let exit = self.trap(Trap::Division);
                    self.left(exit)
                }
                Some(product) => {
                    let value = self.product_from(product, xs, draws, line, console);
                    self.value_on(value)
                }
            },
            Want::LeftOf(relation, y) => {
                let truth = self.right_of(relation, a, y, draws, line, console);
                self.truth_on(truth)
            }
            Want::RightOf(relation, b) => Some(Signal::Truth(compares(relation, b, a))),
            Want::IsNonzero => Some(Signal::Truth(a != 0)),
            Want::Sets(name) => {
                self.assign(name, a);
                Some(Signal::Normal)
            }
            Want::PlaceOf(name, words, y) => {
                let done = self.store_at(name, words, a, y, draws, line, console);
                self.normal_on(done)
            }
            Want::Stores(name, words, index) => {
                let done = self.store(name, words, index, a);
                self.normal_on(done)
            }
            Want::Forgets => Some(Signal::Normal),
            Want::Picks(xs, rest) => {
                let done = self.pick(a, xs, rest, draws, line, console);
                self.normal_on(done)
            }
            Want::Gives => Some(Signal::Returns(a)),
            Want::SaysNumber(xs) => {
                let done = self.print_number(a, xs, draws, line, console);
                self.normal_on(done)
            }
            Want::SaysChar(xs) => {
                let done = self.print_char(a, xs, draws, line, console);
                self.normal_on(done)
            }
        }
    }

    // What a truth value decides.
    fn use_truth<C: Console>(
        &mut self,
        decide: Decide<'a>,
        b: bool,
        draws: &mut Draws,
        line: &mut Line,
        console: &mut C,
    ) -> Option<Signal>
        requires { IsReady self.old (decide_height (decide_of decide)) }
        ensures { Does (decide_height (decide_of decide.entry)) (decided (decide_of decide.entry) b)
            self.old self.new (C.seen console.old) (C.seen console.new) draws.old draws.new
            (handed_on self.new result) }
    {
        match decide {
            Decide::AllOf(xs) => {
                if !b {
                    return Some(Signal::Truth(false));
                }
                let truth = self.all(xs, draws, line, console);
                self.truth_on(truth)
            }
            Decide::AnyOf(xs) => {
                if b {
                    return Some(Signal::Truth(true));
                }
                let truth = self.any(xs, draws, line, console);
                self.truth_on(truth)
            }
            Decide::Flips => Some(Signal::Truth(!b)),
            Decide::Branches(body, other) => {
                if b {
                    let done = self.block(body, draws, line, console);
                    return self.normal_on(done);
                }
                let done = self.block(other, draws, line, console);
                self.normal_on(done)
            }
        }
    }

    // The change after a turn of a loop, and the turns that follow.
    fn next_turns<C: Console>(
        &mut self,
        l: Loop<'a>,
        draws: &mut Draws,
        line: &mut Line,
        console: &mut C,
    ) -> Option<Signal>
        requires { IsReady self.old (loop_height (loop_of l)) }
        ensures { Does (loop_height (loop_of l.entry)) (turn_change (loop_of l.entry)) self.old
            self.new (C.seen console.old) (C.seen console.new) draws.old draws.new
            (handed_on self.new result) }
    {
        match self.change_turn(&l, draws, line, console) {
            Ok(()) => {
                let done = self.turns(l, draws, line, console);
                self.normal_on(done)
            }
            Err(exit) => self.left(exit),
        }
    }

    // What a loop does where its test has this truth value.
    fn tested<C: Console>(
        &mut self,
        l: Loop<'a>,
        b: bool,
        draws: &mut Draws,
        line: &mut Line,
        console: &mut C,
    ) -> Option<Signal>
        requires { IsReady self.old (loop_height (loop_of l)) }
        ensures { Does (loop_height (loop_of l.entry)) (decided (f.Testing (loop_of l.entry)) b)
            self.old self.new (C.seen console.old) (C.seen console.new) draws.old draws.new
            (handed_on self.new result) }
    {
        if !goes_on(&l, b) {
            return Some(Signal::Normal);
        }
        match self.run_body(&l, draws, line, console) {
            Ok(true) => self.next_turns(l, draws, line, console),
            Ok(false) => Some(Signal::Normal),
            Err(exit) => self.left(exit),
        }
    }

    // What a loop does where its body ends like this.
    fn ran<C: Console>(
        &mut self,
        l: Loop<'a>,
        signal: Signal,
        draws: &mut Draws,
        line: &mut Line,
        console: &mut C,
    ) -> Option<Signal>
        requires { IsReady self.old (loop_height (loop_of l)) }
        ensures { Does (loop_height (loop_of l.entry)) (handed (f.Looping (loop_of l.entry))
            (signal_of signal)) self.old self.new (C.seen console.old) (C.seen console.new)
            draws.old draws.new (handed_on self.new result) }
    {
        match signal {
            Signal::Normal => self.next_turns(l, draws, line, console),
            Signal::Continues => self.next_turns(l, draws, line, console),
            Signal::Breaks => Some(Signal::Normal),
            _ => Some(signal),
        }
    }

    /// What a frame does with the outcome of its part: the outcome that it hands on; none where it
    /// waits, or the console failed.
    pub fn hand<C: Console>(
        &mut self,
        frame: Frame<'a>,
        signal: Signal,
        draws: &mut Draws,
        line: &mut Line,
        console: &mut C,
    ) -> Option<Signal>
        requires ready { IsReady self.old (height (frame_of frame)) }
        requires plain { IsPlain frame }
        requires room { HasRoom (world_of self.old.world) (frame_of frame) }
        ensures { Does (height (frame_of frame.entry)) (handed (frame_of frame.entry)
            (signal_of signal)) self.old self.new (C.seen console.old) (C.seen console.new)
            draws.old draws.new (handed_on self.new result) }
    {
        match frame {
            Frame::Begins(begin) => match signal {
                Signal::Normal => self.start(begin, draws, line, console),
                _ => Some(signal),
            },
            Frame::CallDue(name, values) => match signal {
                Signal::Normal => {
                    let value = self.call(name, values, draws, line, console);
                    self.value_on(value)
                }
                _ => Some(signal),
            },
            Frame::Wants(want) => match signal {
                Signal::Value(a) => self.use_value(want, a, draws, line, console),
                _ => Some(signal),
            },
            Frame::Args(name, values, xs) => match signal {
                Signal::Value(a) => {
                    let value = self.arguments(name, values.with(a), xs, draws, line, console);
                    self.value_on(value)
                }
                _ => Some(signal),
            },
            Frame::Decides(decide) => match signal {
                Signal::Truth(b) => self.use_truth(decide, b, draws, line, console),
                _ => Some(signal),
            },
            Frame::TurnDue(l) => match signal {
                Signal::Normal => {
                    let done = self.turns(l, draws, line, console);
                    self.normal_on(done)
                }
                _ => Some(signal),
            },
            Frame::Testing(l) => match signal {
                Signal::Truth(b) => self.tested(l, b, draws, line, console),
                _ => Some(signal),
            },
            Frame::Looping(l) => self.ran(l, signal, draws, line, console),
            Frame::Calling => Some(signal),
            Frame::Main => Some(Signal::Halts(halt_of(signal))),
            Frame::Over(halt) => Some(Signal::Halts(halt)),
        }
    }

    /// A caller's frame: its scope comes back, and the value of the routine is handed on.
    pub fn back(&mut self, caller: Scope<'a>, signal: Signal) -> Signal
        requires idle { stack_of self.old.waiting ≡ [] }
        ensures { (before : ConsoleView) (given : Supply) → Does 1
            (handed (f.Calling (scope_of caller.entry)) (signal_of signal)) self.old self.new before
            before given given (Some (signal_of result)) }
    {
        self.world.enter(caller);
        returned(signal)
    }
}
