//! Changes of variables and of entries.
ghost use Rattle.std.specs.Prelude.{◌≡◌, ◌+◌, max, option_map, Some};
ghost use Rattle.adv_io.specs.Console.{ConsoleView};
ghost use Rattle.adv_draws.specs.Supply.{Supply};
ghost use Rattle.inform_tree.specs.Depths.{expression_depth, assignment_depth, optional_depth};
ghost use Rattle.inform_tree.specs.Values.{expression_of};
ghost use Rattle.inform_tree.specs.Statements as s;
ghost use Rattle.inform_tree.specs.Statements.{assignment_of};
ghost use Rattle.inform_meaning.specs.Frames as f;
ghost use Rattle.inform_interpreter.specs.Interpreters.{IsReady, ended, normal};
ghost use Rattle.inform_interpreter.specs.Doing.{begun, wanted, Does};
ghost use Rattle.inform_interpreter.specs.Parts.{altered_if_any, counted};

use crate::exits::Exit;
use crate::interpreters::Interpreter;
use adv_draws::Draws;
use adv_io::{Console, Line};
use inform_frames::{Frame, Want};
use inform_meaning::{Trap, add};
use inform_tree::{Change, Expr, Name};

impl<'a> Interpreter<'a> {
    /// A change.
    #[cycle(parts)]
    #[inline(always)]
    pub fn alter<C: Console>(
        &mut self,
        x: &'a Change,
        draws: &mut Draws,
        line: &mut Line,
        console: &mut C,
    ) -> Result<(), Exit>
        requires { IsReady self.old (assignment_depth (assignment_of x.now) + 1) }
        ensures { Does (assignment_depth (assignment_of x.now) + 1) (begun (f.Alters
            (assignment_of x.now))) self.old self.new (C.seen console.old) (C.seen console.new)
            draws.old draws.new (ended normal self.new result) }
    {
        match x {
            Change::Set(name, x) => self.set(name, x, draws, line, console),
            Change::SetEntry(name, words, index, x) => {
                self.set_entry(name, *words, index, x, draws, line, console)
            }
            Change::Inc(name) => {
                self.count(name, 1);
                Ok(())
            }
            Change::Dec(name) => {
                self.count(name, -1);
                Ok(())
            }
        }
    }

    /// The same in a call of its own, since what stands in `block` is room on the machine's stack for
    /// each block that is open.
    #[cycle(parts)]
    #[inline(never)]
    pub fn alter_apart<C: Console>(
        &mut self,
        x: &'a Change,
        draws: &mut Draws,
        line: &mut Line,
        console: &mut C,
    ) -> Result<(), Exit>
        requires { IsReady self.old (assignment_depth (assignment_of x.now) + 1) }
        ensures { Does (assignment_depth (assignment_of x.now) + 1) (begun (f.Alters
            (assignment_of x.now))) self.old self.new (C.seen console.old) (C.seen console.new)
            draws.old draws.new (ended normal self.new result) }
    {
        self.alter(x, draws, line, console)
    }

    // A variable counts by 1 or -1.
    fn count(&mut self, name: &Name, by: i32)
        requires { IsReady self.old 0 }
        ensures { (seen : ConsoleView) (given : Supply) → Does 0 (counted name.now by)
            self.old self.new seen seen given given (Some f.Normal) }
    {
        let sum = add(self.width(), self.world.value(name), by);
        self.world.assign(name, sum);
    }

    /// A variable gets a value that is known.
    pub fn assign(&mut self, name: &Name, a: i32)
        requires { IsReady self.old 0 }
        ensures { (seen : ConsoleView) (given : Supply) → Does 0 (wanted (f.Sets name.now) a)
            self.old self.new seen seen given given (Some f.Normal) }
    {
        self.world.assign(name, a);
    }

    // A variable gets a value.
    #[cycle(parts)]
    #[inline(always)]
    fn set<C: Console>(
        &mut self,
        name: &'a Name,
        x: &'a Expr,
        draws: &mut Draws,
        line: &mut Line,
        console: &mut C,
    ) -> Result<(), Exit>
        requires { IsReady self.old (expression_depth (expression_of x.now) + 1) }
        ensures { Does (expression_depth (expression_of x.now) + 1) (begun (f.Alters (s.Set name.now
            (expression_of x.now)))) self.old self.new (C.seen console.old) (C.seen console.new)
            draws.old draws.new (ended normal self.new result) }
    {
        match self.eval(x, draws, line, console) {
            Ok(a) => {
                self.assign(name, a);
                Ok(())
            }
            Err(exit) => Err(self.leave(exit, Frame::Wants(Want::Sets(name)))),
        }
    }

    /// An entry gets a value, if there is such an entry.
    pub fn store(&mut self, name: &Name, words: bool, index: i32, a: i32) -> Result<(), Exit>
        requires { IsReady self.old 0 }
        ensures { (seen : ConsoleView) (given : Supply) → Does 0 (wanted (f.Stores name.now words
            index) a) self.old self.new seen seen given given (ended normal self.new result) }
    {
        if self.world.store(name, words, index, a) {
            return Ok(());
        }
        Err(self.trap(Trap::Index))
    }

    /// An entry whose place is known gets a value.
    #[cycle(parts)]
    #[inline(always)]
    pub fn store_at<C: Console>(
        &mut self,
        name: &'a Name,
        words: bool,
        index: i32,
        x: &'a Expr,
        draws: &mut Draws,
        line: &mut Line,
        console: &mut C,
    ) -> Result<(), Exit>
        requires { IsReady self.old (expression_depth (expression_of x.now) + 1) }
        ensures { Does (expression_depth (expression_of x.now) + 1) (wanted (f.PlaceOf name.now
            words (expression_of x.now)) index) self.old self.new (C.seen console.old)
            (C.seen console.new) draws.old draws.new (ended normal self.new result) }
    {
        match self.eval(x, draws, line, console) {
            Ok(a) => self.store(name, words, index, a),
            Err(exit) => Err(self.leave(exit, Frame::Wants(Want::Stores(name, words, index)))),
        }
    }

    // An entry gets a value.
    #[cycle(parts)]
    #[inline(always)]
    fn set_entry<C: Console>(
        &mut self,
        name: &'a Name,
        words: bool,
        index: &'a Expr,
        x: &'a Expr,
        draws: &mut Draws,
        line: &mut Line,
        console: &mut C,
    ) -> Result<(), Exit>
        requires { IsReady self.old (max (expression_depth (expression_of index.now))
            (expression_depth (expression_of x.now)) + 1) }
        ensures { Does (max (expression_depth (expression_of index.now))
            (expression_depth (expression_of x.now)) + 1) (begun (f.Alters (s.SetEntry name.now
            words (expression_of index.now) (expression_of x.now)))) self.old self.new
            (C.seen console.old) (C.seen console.new) draws.old draws.new
            (ended normal self.new result) }
    {
        match self.eval(index, draws, line, console) {
            Ok(i) => self.store_at(name, words, i, x, draws, line, console),
            Err(exit) => Err(self.leave(exit, Frame::Wants(Want::PlaceOf(name, words, x)))),
        }
    }

    /// A change, if there is one.
    #[cycle(parts)]
    #[inline(always)]
    pub fn alter_if_any<C: Console>(
        &mut self,
        x: Option<&'a Change>,
        draws: &mut Draws,
        line: &mut Line,
        console: &mut C,
    ) -> Result<(), Exit>
        requires { IsReady self.old (optional_depth assignment_depth
            (option_map (λ x. assignment_of x.now) x) + 1) }
        ensures { Does (optional_depth assignment_depth (option_map (λ x. assignment_of x.now)
            x.entry) + 1) (altered_if_any (option_map (λ x. assignment_of x.now) x.entry)) self.old
            self.new (C.seen console.old) (C.seen console.new) draws.old draws.new
            (ended normal self.new result) }
    {
        match x {
            None => Ok(()),
            Some(x) => self.alter(x, draws, line, console),
        }
    }
}
