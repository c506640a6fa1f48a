//! The line that is said at a pause.
ghost use Rattle.std.specs.Prelude.{◌≡◌, ◌++◌, codes, length, map};
ghost use Rattle.std.specs.List.{flat_map};
ghost use Rattle.std.specs.Fmt.{decimal, signed_decimal};
ghost use Rattle.adv_io.specs.History.{says};
ghost use Rattle.adv_io.specs.Console.{Speaks};
ghost use Rattle.inform_tree.specs.Programs.{directive_of};
ghost use Rattle.inform_names.specs.Views.{directives_of};
ghost use Rattle.inform_run.specs.Runners.{world_in};
ghost use Rattle.inform_stepper.specs.Shown.{pause_line};
ghost use Rattle.inform_stepper.specs.Repeats.{globals_of, value_text, directive_text, heading};

use adv_io::{Console, ConsoleFault, say_all};
use inform_names::Accepted;
use inform_run::Runner;
use inform_tree::Directive;
use itoa::Buffer;

// Says a global's name and its value.
fn say_value<C: Console>(name: &[u8], value: i32, console: &mut C) -> Result<(), ConsoleFault>
    ensures { Speaks (C.seen console.old) (C.seen console.new) result
        (says (value_text name.now value)) }
{
    let mut digits = Buffer::new();
    say_all(
        console,
        &[b" ", name, b"=", digits.format(value).as_bytes()],
    )
}

// Says the value of a directive that is a global.
fn say_directive<C: Console>(
    runner: &Runner,
    directive: &Directive,
    console: &mut C,
) -> Result<(), ConsoleFault>
    ensures { Speaks (C.seen console.old) (C.seen console.new) result
        (says (directive_text (world_in runner.now) (directive_of directive.now))) }
{
    match directive {
        Directive::Global(name, _) => {
            let value = runner.global(name.bytes()).unwrap_or(0);
            say_value(name.bytes(), value, console)
        }
        _ => Ok(()),
    }
}

// Says the values of all of them, in order.
fn say_globals<C: Console>(
    runner: &Runner,
    directives: &[Directive],
    console: &mut C,
) -> Result<(), ConsoleFault>
    ensures { Speaks (C.seen console.old) (C.seen console.new) result
        (says (flat_map (λ d. directive_text (world_in runner.now) (directive_of d))
        directives.now)) }
{
    for directive in directives {
        say_directive(runner, directive, console)?;
    }
    Ok(())
}

// Says how many steps were used.
fn say_heading<C: Console>(used: u64, console: &mut C) -> Result<(), ConsoleFault>
    ensures { Speaks (C.seen console.old) (C.seen console.new) result (says (heading used)) }
{
    let mut digits = Buffer::new();
    say_all(console, &[b"[step ", digits.format(used).as_bytes(), b":"])
}

/// Says the line of a pause: how many steps the runner has used, and the name and the value of each
/// global of the program, in order.
pub fn say_pause<C: Console>(
    runner: &Runner,
    program: &Accepted,
    console: &mut C,
) -> Result<(), ConsoleFault>
    ensures { Speaks (C.seen console.old) (C.seen console.new) result (says (pause_line
        (globals_of (directives_of program.now)) runner.now.used (world_in runner.now))) }
{
    say_heading(runner.used(), console)?;
    say_globals(runner, program.program().directives.as_slice(), console)?;
    console.say(b"]\n")
}
