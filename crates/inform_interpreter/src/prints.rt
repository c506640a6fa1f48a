//! The items of `print`.
ghost use Rattle.std.specs.Prelude.{◌≡◌, ◌+◌, map, ◌∷◌, []};
ghost use Rattle.std.specs.Fmt.{signed_decimal};
ghost use Rattle.adv_io.specs.History.{says};
ghost use Rattle.adv_io.specs.Console.{Speaks};
ghost use Rattle.inform_tree.specs.Depths.{expression_depth, items_depth};
ghost use Rattle.inform_tree.specs.Values.{expression_of};
ghost use Rattle.inform_tree.specs.Statements.{print_item_of};
ghost use Rattle.inform_meaning.specs.Words.{low_byte};
ghost use Rattle.inform_meaning.specs.Frames as f;
ghost use Rattle.inform_interpreter.specs.Interpreters.{IsReady, ended, normal};
ghost use Rattle.inform_interpreter.specs.Doing.{begun, wanted, Does, Says};

use crate::exits::Exit;
use crate::firsts::first_of;
use crate::interpreters::Interpreter;
use crate::words::low_byte;
use adv_draws::Draws;
use adv_io::{Console, Line};
use inform_frames::{Frame, Want};
use inform_tree::{Expr, Item};
use itoa::Buffer;

impl<'a> Interpreter<'a> {
    /// A number is said, in decimal.
    pub fn say_number<C: Console>(&mut self, n: i32, console: &mut C) -> Result<(), Exit>
        ensures { Says (signed_decimal n) self.old self.new (C.seen console.old)
            (C.seen console.new) result }
    {
        let mut buffer = Buffer::new();
        self.say(buffer.format(n).as_bytes(), console)
    }

    /// The byte of a number is said.
    pub fn say_char<C: Console>(&mut self, n: i32, console: &mut C) -> Result<(), Exit>
        ensures { Says (low_byte n ∷ []) self.old self.new (C.seen console.old)
            (C.seen console.new) result }
    {
        self.say(&[low_byte(n)], console)
    }

    /// The items that are still to be said.
    #[cycle(parts)]
    pub fn print<C: Console>(
        &mut self,
        xs: &'a [Item],
        draws: &mut Draws,
        line: &mut Line,
        console: &mut C,
    ) -> Result<(), Exit>
        requires { IsReady self.old (items_depth (map print_item_of xs.now) + 1) }
        ensures { Does (items_depth (map print_item_of xs.now) + 1) (begun (f.Prints
            (map print_item_of xs.now))) self.old self.new (C.seen console.old)
            (C.seen console.new) draws.old draws.new (ended normal self.new result) }
    {
        let mut rest = xs;
        'items: loop {
            let Some((x, others)) = first_of(rest) else {
                return Ok(());
            };
            match x {
                Item::Text(text) => match self.say(text.bytes(), console) {
                    Ok(()) => {}
                    Err(exit) => return Err(exit),
                },
                Item::Value(x) => match self.eval(x, draws, line, console) {
                    Ok(n) => match self.say_number(n, console) {
                        Ok(()) => {}
                        Err(exit) => return Err(exit),
                    },
                    Err(exit) => {
                        return Err(self.leave(exit, Frame::Wants(Want::SaysNumber(others))));
                    }
                },
                Item::Char(x) => match self.eval(x, draws, line, console) {
                    Ok(n) => match self.say_char(n, console) {
                        Ok(()) => {}
                        Err(exit) => return Err(exit),
                    },
                    Err(exit) => {
                        return Err(self.leave(exit, Frame::Wants(Want::SaysChar(others))));
                    }
                },
            }
            rest = others;
        }
    }

    /// A number is said in decimal, and then the items after it.
    pub fn print_number<C: Console>(
        &mut self,
        n: i32,
        xs: &'a [Item],
        draws: &mut Draws,
        line: &mut Line,
        console: &mut C,
    ) -> Result<(), Exit>
        requires { IsReady self.old (items_depth (map print_item_of xs.now) + 1) }
        ensures { Does (items_depth (map print_item_of xs.now) + 1) (wanted (f.SaysNumber
            (map print_item_of xs.now)) n) self.old self.new (C.seen console.old)
            (C.seen console.new) draws.old draws.new (ended normal self.new result) }
    {
        match self.say_number(n, console) {
            Ok(()) => self.print(xs, draws, line, console),
            Err(exit) => Err(exit),
        }
    }

    /// The byte of a number is said, and then the items after it.
    pub fn print_char<C: Console>(
        &mut self,
        n: i32,
        xs: &'a [Item],
        draws: &mut Draws,
        line: &mut Line,
        console: &mut C,
    ) -> Result<(), Exit>
        requires { IsReady self.old (items_depth (map print_item_of xs.now) + 1) }
        ensures { Does (items_depth (map print_item_of xs.now) + 1) (wanted (f.SaysChar
            (map print_item_of xs.now)) n) self.old self.new (C.seen console.old)
            (C.seen console.new) draws.old draws.new (ended normal self.new result) }
    {
        match self.say_char(n, console) {
            Ok(()) => self.print(xs, draws, line, console),
            Err(exit) => Err(exit),
        }
    }
}
