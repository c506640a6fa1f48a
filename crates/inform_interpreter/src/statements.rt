//! Statements.
ghost use Rattle.std.specs.Prelude.{◌≡◌, ◌+◌, ◌*◌, ℕ, List, option_map, true};
ghost use Rattle.adv_io.specs.Console.{ConsoleView};
ghost use Rattle.adv_draws.specs.Supply.{Supply};
ghost use Rattle.inform_tree.specs.Depths.{arguments_depth, condition_depth, statement_depth, statements_depth};
ghost use Rattle.inform_tree.specs.Values.{expression_of, arguments_of};
ghost use Rattle.inform_tree.specs.Conditions.{condition_of};
ghost use Rattle.inform_tree.specs.Statements as s;
ghost use Rattle.inform_tree.specs.Statements.{assignment_of, assignment_if_any, condition_if_any, statement_of, statements_of, cases_of};
ghost use Rattle.inform_meaning.specs.Worlds.{has_room, entries_of};
ghost use Rattle.inform_meaning.specs.Frames as f;
ghost use Rattle.inform_moves.specs.Heights.{want_height};
ghost use Rattle.inform_worlds.specs.Views.{world_of};
ghost use Rattle.inform_frames.specs.Frames.{default_of, default_tree};
ghost use Rattle.inform_interpreter.specs.Interpreters.{IsReady, ended, normal};
ghost use Rattle.inform_interpreter.specs.Doing.{begun, wanted, Does};
ghost use Rattle.inform_interpreter.specs.Parts.{acted};

use crate::choices::picked;
use crate::exits::{Exit, Lack, Stopped};
use crate::firsts::first_of;
use crate::interpreters::Interpreter;
use crate::loops::{do_loop, for_loop, while_loop};
use adv_draws::Draws;
use adv_io::{Console, Line, Taken};
use inform_frames::{Begin, Decide, Frame, Halt, Want};
use inform_meaning::Trap;
use inform_tree::{Case, Change, Cond, Expr, Head, Name, Stmt};

// A change, if there is one.
fn change_if_any<'a>(change: &'a Option<Change>) -> Option<&'a Change>
    ensures { option_map (λ x. assignment_of x.now) result ≡ assignment_if_any change.now }
{
    match change {
        None => None,
        Some(change) => Some(change),
    }
}

// What a `switch` does where no case fits, if anything.
fn default_if_any<'a>(rest: &'a Option<Vec<Stmt>>) -> Option<&'a Vec<Stmt>>
    ensures { default_of result ≡ default_tree rest.now }
{
    match rest {
        None => None,
        Some(body) => Some(body),
    }
}

impl<'a> Interpreter<'a> {
    /// The next line goes into a buffer that has room for it.
    pub fn take_line<C: Console>(
        &mut self,
        name: &'a Name,
        line: &mut Line,
        console: &mut C,
    ) -> Result<(), Exit>
        requires ready { IsReady self.old 1 }
        requires room { has_room (entries_of name.now (world_of self.old.world)) ≡ true }
        ensures { (given : Supply) → Does 1 (begun (f.LineDue name.now)) self.old self.new
            (C.seen console.old) (C.seen console.new) given given (ended normal self.new result) }
    {
        match console.take(line) {
            Ok(Taken::Got) => {
                self.world.hear(name, line.bytes());
                Ok(())
            }
            Ok(Taken::End) => Err(self.wait(Lack::Line, Frame::Begins(Begin::LineDue(name)))),
            Err(fault) => {
                self.stopped = Stopped::Fails(fault);
                Err(Exit::Stops)
            }
        }
    }

    // A line for a buffer.
    fn read<C: Console>(
        &mut self,
        name: &'a Name,
        line: &mut Line,
        console: &mut C,
    ) -> Result<(), Exit>
        requires { IsReady self.old 2 }
        ensures { (words : List ℕ) (given : Supply) → Does 2 (acted (s.Read name.now words))
            self.old self.new (C.seen console.old) (C.seen console.new) given given
            (ended normal self.new result) }
    {
        if self.world.has_room(name) {
            return self.take_line(name, line, console);
        }
        Err(self.trap(Trap::Line))
    }

    // The run is over.
    fn quit(&mut self) -> Exit
        ensures exit { result ≡ Exit.Stops }
        ensures over { self.new ≡ record self.old { stopped = Stopped.Over Halt.Quits } }
    {
        self.stopped = Stopped::Over(Halt::Quits);
        Exit::Stops
    }

    // A call whose value isn't wanted.
    #[cycle(parts)]
    #[inline(always)]
    fn call_alone<C: Console>(
        &mut self,
        name: &'a Name,
        xs: &'a [Expr],
        draws: &mut Draws,
        line: &mut Line,
        console: &mut C,
    ) -> Result<(), Exit>
        requires { IsReady self.old (2 * (arguments_depth (arguments_of xs.now) + 1)) }
        ensures { Does (2 * (arguments_depth (arguments_of xs.now) + 1)) (acted (s.Call name.now
            (arguments_of xs.now))) self.old self.new (C.seen console.old) (C.seen console.new)
            draws.old draws.new (ended normal self.new result) }
    {
        match self.call_of(name, xs, draws, line, console) {
            Ok(_) => Ok(()),
            Err(exit) => Err(self.leave(exit, Frame::Wants(Want::Forgets))),
        }
    }

    // The statements that an `if` picks.
    #[cycle(parts)]
    #[inline(always)]
    fn branch<C: Console>(
        &mut self,
        test: &'a Cond,
        body: &'a Vec<Stmt>,
        other: &'a Vec<Stmt>,
        draws: &mut Draws,
        line: &mut Line,
        console: &mut C,
    ) -> Result<(), Exit>
        requires { IsReady self.old (2 * statement_depth (s.If (condition_of test.now)
            (statements_of body.now.items) (statements_of other.now.items))) }
        ensures { let x = s.If (condition_of test.now) (statements_of body.now.items)
            (statements_of other.now.items) in Does (2 * statement_depth x) (acted x) self.old
            self.new (C.seen console.old) (C.seen console.new) draws.old draws.new
            (ended normal self.new result) }
    {
        match self.test(test, draws, line, console) {
            Ok(true) => self.block(body, draws, line, console),
            Ok(false) => self.block(other, draws, line, console),
            Err(exit) => Err(self.leave(exit, Frame::Decides(Decide::Branches(body, other)))),
        }
    }

    // A loop whose body comes before its test.
    #[cycle(parts)]
    #[inline(always)]
    fn do_statement<C: Console>(
        &mut self,
        body: &'a Vec<Stmt>,
        test: &'a Cond,
        draws: &mut Draws,
        line: &mut Line,
        console: &mut C,
    ) -> Result<(), Exit>
        requires { IsReady self.old (2 * statement_depth (s.Do (statements_of body.now.items)
            (condition_of test.now))) }
        ensures { let x = s.Do (statements_of body.now.items) (condition_of test.now) in
            Does (2 * statement_depth x) (acted x) self.old self.new (C.seen console.old)
            (C.seen console.new) draws.old draws.new (ended normal self.new result) }
    {
        let l = do_loop(body, test);
        match self.run_body(&l, draws, line, console) {
            Ok(true) => {}
            Ok(false) => return Ok(()),
            Err(exit) => return Err(exit),
        }
        match self.change_turn(&l, draws, line, console) {
            Ok(()) => self.turns(l, draws, line, console),
            Err(exit) => Err(exit),
        }
    }

    // A loop with a head.
    #[cycle(parts)]
    #[inline(always)]
    fn for_statement<C: Console>(
        &mut self,
        head: &'a Head,
        body: &'a Vec<Stmt>,
        draws: &mut Draws,
        line: &mut Line,
        console: &mut C,
    ) -> Result<(), Exit>
        requires { IsReady self.old (2 * statement_depth (s.For (assignment_if_any head.now.first)
            (condition_if_any head.now.test) (assignment_if_any head.now.next)
            (statements_of body.now.items))) }
        ensures { let x = s.For (assignment_if_any head.now.first) (condition_if_any head.now.test)
            (assignment_if_any head.now.next) (statements_of body.now.items) in
            Does (2 * statement_depth x) (acted x) self.old self.new (C.seen console.old)
            (C.seen console.new) draws.old draws.new (ended normal self.new result) }
    {
        let l = for_loop(head, body);
        match self.alter_if_any(change_if_any(&head.first), draws, line, console) {
            Ok(()) => self.turns(l, draws, line, console),
            Err(exit) => Err(self.leave(exit, Frame::TurnDue(l))),
        }
    }

    /// The first case that fits a value, or what is done where none does.
    #[cycle(parts)]
    #[inline(always)]
    pub fn pick<C: Console>(
        &mut self,
        a: i32,
        cases: &'a Vec<Case>,
        rest: Option<&'a Vec<Stmt>>,
        draws: &mut Draws,
        line: &mut Line,
        console: &mut C,
    ) -> Result<(), Exit>
        requires { IsReady self.old (want_height (f.Picks (cases_of cases.now.items)
            (default_of rest))) }
        ensures { let want = f.Picks (cases_of cases.now.items) (default_of rest.entry) in
            Does (want_height want) (wanted want a) self.old self.new (C.seen console.old)
            (C.seen console.new) draws.old draws.new (ended normal self.new result) }
    {
        match picked(self.world.names(), a, cases, rest) {
            None => Ok(()),
            Some(body) => self.block(body, draws, line, console),
        }
    }

    // The case that a `switch` picks.
    #[cycle(parts)]
    #[inline(always)]
    fn switch<C: Console>(
        &mut self,
        value: &'a Expr,
        cases: &'a Vec<Case>,
        rest: &'a Option<Vec<Stmt>>,
        draws: &mut Draws,
        line: &mut Line,
        console: &mut C,
    ) -> Result<(), Exit>
        requires { IsReady self.old (2 * statement_depth (s.Switch (expression_of value.now)
            (cases_of cases.now.items) (default_tree rest.now))) }
        ensures { let x = s.Switch (expression_of value.now) (cases_of cases.now.items)
            (default_tree rest.now) in Does (2 * statement_depth x) (acted x) self.old self.new
            (C.seen console.old) (C.seen console.new) draws.old draws.new
            (ended normal self.new result) }
    {
        let rest = default_if_any(rest);
        match self.eval(value, draws, line, console) {
            Ok(a) => self.pick(a, cases, rest, draws, line, console),
            Err(exit) => Err(self.leave(exit, Frame::Wants(Want::Picks(cases, rest)))),
        }
    }

    // A routine returns this value, or 1.
    #[cycle(parts)]
    #[inline(always)]
    fn give<C: Console>(
        &mut self,
        value: &'a Option<Expr>,
        draws: &mut Draws,
        line: &mut Line,
        console: &mut C,
    ) -> Result<(), Exit>
        requires { IsReady self.old (2 * statement_depth (s.Return (option_map expression_of
            value.now))) }
        ensures { let x = s.Return (option_map expression_of value.now) in
            Does (2 * statement_depth x) (acted x) self.old self.new (C.seen console.old)
            (C.seen console.new) draws.old draws.new (ended normal self.new result) }
    {
        match value {
            None => Err(Exit::Returns(1)),
            Some(value) => match self.eval(value, draws, line, console) {
                Ok(a) => Err(Exit::Returns(a)),
                Err(exit) => Err(self.leave(exit, Frame::Wants(Want::Gives))),
            },
        }
    }

    // What a statement does after its step. Those that stand in most places are looked at first, and
    // without a further call: so the statements inside them take less room on the machine's stack.
    #[cycle(parts)]
    #[inline(always)]
    fn act<C: Console>(
        &mut self,
        x: &'a Stmt,
        draws: &mut Draws,
        line: &mut Line,
        console: &mut C,
    ) -> Result<(), Exit>
        requires { IsReady self.old (2 * statement_depth (statement_of x.now)) }
        ensures { Does (2 * statement_depth (statement_of x.now)) (acted (statement_of x.now))
            self.old self.new (C.seen console.old) (C.seen console.new) draws.old draws.new
            (ended normal self.new result) }
    {
        match x {
            Stmt::Block(body) => self.block(body, draws, line, console),
            Stmt::Change(change) => self.alter_apart(change, draws, line, console),
            Stmt::Call(name, xs) => self.call_alone(name, xs, draws, line, console),
            Stmt::If(test, body, other) => self.branch(test, body, other, draws, line, console),
            _ => self.act_any(x, draws, line, console),
        }
    }

    // What a statement of any kind does after its step.
    #[cycle(parts)]
    fn act_any<C: Console>(
        &mut self,
        x: &'a Stmt,
        draws: &mut Draws,
        line: &mut Line,
        console: &mut C,
    ) -> Result<(), Exit>
        requires { IsReady self.old (2 * statement_depth (statement_of x.now)) }
        ensures { Does (2 * statement_depth (statement_of x.now)) (acted (statement_of x.now))
            self.old self.new (C.seen console.old) (C.seen console.new) draws.old draws.new
            (ended normal self.new result) }
    {
        match x {
            Stmt::Empty => Ok(()),
            Stmt::Block(body) => self.block(body, draws, line, console),
            Stmt::Change(change) => self.alter_apart(change, draws, line, console),
            Stmt::Call(name, xs) => self.call_alone(name, xs, draws, line, console),
            Stmt::If(test, body, other) => self.branch(test, body, other, draws, line, console),
            Stmt::While(test, body) => self.turns(while_loop(test, body), draws, line, console),
            Stmt::Do(body, test) => self.do_statement(body, test, draws, line, console),
            Stmt::For(head, body) => self.for_statement(head, body, draws, line, console),
            Stmt::Switch(value, cases, rest) => {
                self.switch(value, cases, rest, draws, line, console)
            }
            Stmt::Break => Err(Exit::Breaks),
            Stmt::Continue => Err(Exit::Continues),
            Stmt::Quit => Err(self.quit()),
            Stmt::Rtrue => Err(Exit::Returns(1)),
            Stmt::Rfalse => Err(Exit::Returns(0)),
            Stmt::Return(value) => self.give(value, draws, line, console),
            Stmt::NewLine => self.say(b"\n", console),
            Stmt::Print(items) => self.print(items, draws, line, console),
            Stmt::Read(name, _) => self.read(name, line, console),
        }
    }

    /// A statement: its step, and what it does.
    #[cycle(parts)]
    #[inline(always)]
    pub fn exec<C: Console>(
        &mut self,
        x: &'a Stmt,
        draws: &mut Draws,
        line: &mut Line,
        console: &mut C,
    ) -> Result<(), Exit>
        requires { IsReady self.old (2 * statement_depth (statement_of x.now)) }
        ensures { Does (2 * statement_depth (statement_of x.now)) (begun (f.Due
            (statement_of x.now))) self.old self.new (C.seen console.old) (C.seen console.new)
            draws.old draws.new (ended normal self.new result) }
    {
        if self.left == 0 {
            return Err(self.wait(Lack::Steps, Frame::Begins(Begin::Due(x))));
        }
        self.left -= 1;
        self.act(x, draws, line, console)
    }

    /// Statements, one after the other.
    #[cycle(parts)]
    pub fn block<C: Console>(
        &mut self,
        xs: &'a [Stmt],
        draws: &mut Draws,
        line: &mut Line,
        console: &mut C,
    ) -> Result<(), Exit>
        requires { IsReady self.old (2 * statements_depth (statements_of xs.now) + 1) }
        ensures { Does (2 * statements_depth (statements_of xs.now) + 1) (begun (f.Blocks
            (statements_of xs.now))) self.old self.new (C.seen console.old) (C.seen console.new)
            draws.old draws.new (ended normal self.new result) }
    {
        let mut rest = xs;
        'statements: loop {
            let Some((x, others)) = first_of(rest) else {
                return Ok(());
            };
            match self.exec(x, draws, line, console) {
                Ok(()) => {}
                Err(exit) => {
                    return Err(self.leave(exit, Frame::Begins(Begin::Blocks(others))));
                }
            }
            rest = others;
        }
    }
}
