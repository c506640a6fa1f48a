//! Loops.
ghost use Rattle.std.specs.Prelude.{◌≡◌, ◌<◌, OnOk, option_map};
ghost use Rattle.inform_tree.specs.Conditions.{condition_of};
ghost use Rattle.inform_tree.specs.Statements.{assignment_of, assignment_if_any, condition_if_any, statements_of};
ghost use Rattle.inform_meaning.specs.Frames as f;
ghost use Rattle.inform_meaning.specs.Statements.{while_loop, do_loop, for_loop, loop_goes_on};
ghost use Rattle.inform_moves.specs.Heights.{loop_height};
ghost use Rattle.inform_frames.specs.Frames.{loop_of};
ghost use Rattle.inform_interpreter.specs.Interpreters.{IsReady, ended, normal};
ghost use Rattle.inform_interpreter.specs.Doing.{begun, Does, GoesOn, GoesOnIf};
ghost use Rattle.inform_interpreter.specs.Parts.{turn_body, turn_change};

use crate::exits::{Exit, Lack};
use crate::interpreters::Interpreter;
use adv_draws::Draws;
use adv_io::{Console, Line};
use inform_frames::{Frame, Loop};
use inform_tree::{Change, Cond, Head, Stmt};

/// A loop that goes on while its test holds.
pub fn while_loop<'a>(test: &'a Cond, body: &'a Vec<Stmt>) -> Loop<'a>
    ensures { loop_of result ≡ while_loop (condition_of test.now) (statements_of body.now.items) }
{
    Loop {
        test: Some(test),
        goes_on: true,
        change: None,
        body,
    }
}

/// A loop that goes on until its test holds.
pub fn do_loop<'a>(body: &'a Vec<Stmt>, test: &'a Cond) -> Loop<'a>
    ensures { loop_of result ≡ do_loop (statements_of body.now.items) (condition_of test.now) }
{
    Loop {
        test: Some(test),
        goes_on: false,
        change: None,
        body,
    }
}

// A test, if there is one.
fn test_if_any<'a>(test: &'a Option<Cond>) -> Option<&'a Cond>
    ensures { option_map (λ x. condition_of x.now) result ≡ condition_if_any test.now }
{
    match test {
        None => None,
        Some(test) => Some(test),
    }
}

// A change, if there is one.
fn change_if_any<'a>(change: &'a Option<Change>) -> Option<&'a Change>
    ensures { option_map (λ x. assignment_of x.now) result ≡ assignment_if_any change.now }
{
    match change {
        None => None,
        Some(change) => Some(change),
    }
}

/// A loop with a change after each turn.
pub fn for_loop<'a>(head: &'a Head, body: &'a Vec<Stmt>) -> Loop<'a>
    ensures { loop_of result ≡ for_loop (condition_if_any head.now.test)
        (assignment_if_any head.now.next) (statements_of body.now.items) }
{
    Loop {
        test: test_if_any(&head.test),
        goes_on: true,
        change: change_if_any(&head.next),
        body,
    }
}

/// Whether a loop goes on where its test has this truth value.
pub fn goes_on(l: &Loop, holds: bool) -> bool
    ensures { result ≡ loop_goes_on (loop_of l.now) holds }
{
    if holds { l.goes_on } else { !l.goes_on }
}

impl<'a> Interpreter<'a> {
    // The step of a turn, and its test: whether the loop goes on.
    #[cycle(parts)]
    #[inline(always)]
    fn begin_turn<C: Console>(
        &mut self,
        l: &Loop<'a>,
        draws: &mut Draws,
        line: &mut Line,
        console: &mut C,
    ) -> Result<bool, Exit>
        requires { IsReady self.old (loop_height (loop_of l.now)) }
        ensures turns { GoesOnIf (loop_height (loop_of l.now)) (begun (f.TurnDue (loop_of l.now)))
            (turn_body (loop_of l.now)) self.old self.new (C.seen console.old) (C.seen console.new)
            draws.old draws.new result }
        ensures falls { OnOk result (self.new.left < self.old.left) }
    {
        if self.left == 0 {
            return Err(self.wait(Lack::Steps, Frame::TurnDue(*l)));
        }
        self.left -= 1;
        match self.test_if_any(l.test, draws, line, console) {
            Ok(b) => Ok(goes_on(l, b)),
            Err(exit) => Err(self.leave(exit, Frame::Testing(*l))),
        }
    }

    /// The body of a turn: whether the loop goes on.
    #[cycle(parts)]
    #[inline(always)]
    pub fn run_body<C: Console>(
        &mut self,
        l: &Loop<'a>,
        draws: &mut Draws,
        line: &mut Line,
        console: &mut C,
    ) -> Result<bool, Exit>
        requires { IsReady self.old (loop_height (loop_of l.now)) }
        ensures { GoesOnIf (loop_height (loop_of l.now)) (turn_body (loop_of l.now))
            (turn_change (loop_of l.now)) self.old self.new (C.seen console.old)
            (C.seen console.new) draws.old draws.new result }
    {
        match self.block(l.body, draws, line, console) {
            Ok(()) => Ok(true),
            Err(exit) => match exit {
                Exit::Continues => Ok(true),
                Exit::Breaks => Ok(false),
                Exit::Returns(a) => Err(self.leave(Exit::Returns(a), Frame::Looping(*l))),
                Exit::Stops => Err(self.leave(Exit::Stops, Frame::Looping(*l))),
            },
        }
    }

    /// The change after a turn.
    #[cycle(parts)]
    #[inline(always)]
    pub fn change_turn<C: Console>(
        &mut self,
        l: &Loop<'a>,
        draws: &mut Draws,
        line: &mut Line,
        console: &mut C,
    ) -> Result<(), Exit>
        requires { IsReady self.old (loop_height (loop_of l.now)) }
        ensures { GoesOn (loop_height (loop_of l.now)) (turn_change (loop_of l.now))
            (begun (f.TurnDue (loop_of l.now))) self.old self.new (C.seen console.old)
            (C.seen console.new) draws.old draws.new result }
    {
        match self.alter_if_any(l.change, draws, line, console) {
            Ok(()) => Ok(()),
            Err(exit) => Err(self.leave(exit, Frame::TurnDue(*l))),
        }
    }

    /// Turns of a loop, until it ends.
    #[cycle(parts)]
    pub fn turns<C: Console>(
        &mut self,
        l: Loop<'a>,
        draws: &mut Draws,
        line: &mut Line,
        console: &mut C,
    ) -> Result<(), Exit>
        requires { IsReady self.old (loop_height (loop_of l)) }
        ensures { Does (loop_height (loop_of l.entry)) (begun (f.TurnDue (loop_of l.entry)))
            self.old self.new (C.seen console.old) (C.seen console.new) draws.old draws.new
            (ended normal self.new result) }
    {
        'turning: loop {
            match self.begin_turn(&l, draws, line, console) {
                Ok(true) => {}
                Ok(false) => return Ok(()),
                Err(exit) => return Err(exit),
            }
            match self.run_body(&l, draws, line, console) {
                Ok(true) => {}
                Ok(false) => return Ok(()),
                Err(exit) => return Err(exit),
            }
            match self.change_turn(&l, draws, line, console) {
                Ok(()) => {}
                Err(exit) => return Err(exit),
            }
        }
    }
}
