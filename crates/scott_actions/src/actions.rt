//! An action line as a whole.
ghost use Rattle.std.specs.Prelude.{◌≡◌, ◌<◌, IfOk, OnOk, length, map, drop, slice_index, true, []};
ghost use Rattle.scott_types.specs.declared.endings.Ran.TheVariants.{Not};
ghost use Rattle.adv_io.specs.History.{says};
ghost use Rattle.adv_io.specs.Console.{Speaks};
ghost use Rattle.scott_types.specs.Opcode.{opcode_of};
ghost use Rattle.scott_types.specs.State.{Fits};
ghost use Rattle.scott_types.specs.Style.{in_style};
ghost use Rattle.std.specs.List.{list_any};
ghost use Rattle.scott_types.specs.Action.{opcode_numbers, parameters};
ghost use Rattle.scott_rules.specs.Opcodes.{op, takes, run_opcodes};
ghost use Rattle.scott_rules.specs.Actions.{is_more, ran_of, performed, action_result};

use crate::conditions::passes;
use crate::effects::{do_opcode, takes};
use adv_io::{Console, ConsoleFault};
use scott_types::action_lines::{opcode_numbers, parameters};
use scott_types::verbs::MORE;
use scott_types::{Action, Db, Opcode, Ran, State, Style};

// The parameter at a place, or 0 past the last one.
fn parameter(parameters: &[u32], i: usize) -> u32
    ensures { result ≡ slice_index parameters.now i }
{
    if i < parameters.len() {
        parameters[i]
    } else {
        0
    }
}

// The parameters after those that were taken.
fn after(parameters: &[u32], taken: usize) -> &[u32]
    ensures { result.now ≡ drop taken parameters.now }
{
    if taken < parameters.len() {
        &parameters[taken..]
    } else {
        &[]
    }
}

// Does an opcode with the next of the parameters.
fn step<C: Console>(
    db: &Db,
    style: Style,
    state: &mut State,
    noun: &[u8],
    opcode: Opcode,
    parameters: &[u32],
    console: &mut C,
) -> Result<Option<u8>, ConsoleFault>
    requires { Fits db.now state.old }
    ensures spoken { Speaks (C.seen console.old) (C.seen console.new) result
        (says (op (in_style style db.now) noun.now opcode parameters.now state.old).events) }
    ensures state { state.new
        ≡ (op (in_style style db.now) noun.now opcode parameters.now state.old).value.state }
    ensures over { IfOk result
        (λ over. over
        ≡ (op (in_style style db.now) noun.now opcode parameters.now state.old).value.over) }
    ensures fits { Fits db.now state.new }
{
    let (p, q) = (parameter(parameters, 0), parameter(parameters, 1));
    do_opcode(db, style, state, noun, opcode, p, q, console)
}

// The parameters that an opcode leaves.
fn left_by<'a>(db: &Db, state: &State, opcode: Opcode, parameters: &'a [u32]) -> &'a [u32]
    ensures { result.now ≡ drop (takes db.now state.now opcode) parameters.now }
{
    after(parameters, takes(db, state, opcode))
}

// Does opcodes in order, each with the parameters that those before it left, until the game is
// over.
fn run_opcodes<C: Console>(
    db: &Db,
    style: Style,
    state: &mut State,
    noun: &[u8],
    opcodes: &[u32],
    parameters: &[u32],
    console: &mut C,
) -> Result<Option<u8>, ConsoleFault>
    requires { Fits db.now state.old }
    ensures spoken { Speaks (C.seen console.old) (C.seen console.new) result
        (says (run_opcodes (in_style style db.now) noun.now
        (map opcode_of opcodes.now) parameters.now state.old).events) }
    ensures state { OnOk result
        (state.new ≡ (run_opcodes (in_style style db.now) noun.now
        (map opcode_of opcodes.now) parameters.now state.old).value.state) }
    ensures over { IfOk result
        (λ over. over ≡ (run_opcodes (in_style style db.now) noun.now
        (map opcode_of opcodes.now) parameters.now state.old).value.over) }
    ensures fits { Fits db.now state.new }
{
    match opcodes {
        [] => Ok(None),
        [number, others @ ..] => {
            let opcode = Opcode::of(*number);
            let rest = left_by(db, state, opcode, parameters);
            match step(db, style, state, noun, opcode, parameters, console) {
                Ok(None) => run_opcodes(db, style, state, noun, others, rest, console),
                Ok(Some(ending)) => Ok(Some(ending)),
                Err(fault) => Err(fault),
            }
        }
    }
}

// Whether one of the opcodes goes on with the tail.
fn goes_on(numbers: &[u32]) -> bool
    ensures { result ≡ list_any is_more numbers.now }
{
    numbers.iter().any(|number| *number == MORE)
}

// What became of a line whose opcodes were done.
fn ran_of(over: Option<u8>, more: bool) -> Ran
    ensures { result ≡ ran_of over more }
{
    match over {
        None => Ran::Passed(more),
        Some(ending) => Ran::Over(ending),
    }
}

// Does the opcodes of a line that passes.
fn run<C: Console>(
    db: &Db,
    style: Style,
    state: &mut State,
    noun: &[u8],
    action: &Action,
    console: &mut C,
) -> Result<Ran, ConsoleFault>
    requires { Fits db.now state.old }
    ensures spoken { Speaks (C.seen console.old) (C.seen console.new) result
        (says (performed true (in_style style db.now) noun.now action.now state.old).events) }
    ensures state { OnOk result (state.new
        ≡ (performed true (in_style style db.now) noun.now action.now state.old).value.state) }
    ensures ran { IfOk result
        (λ ran. ran
        ≡ (performed true (in_style style db.now) noun.now action.now state.old).value.ran) }
    ensures fits { Fits db.now state.new }
{
    let numbers = opcode_numbers(action);
    let parameters = parameters(action);
    let over = run_opcodes(
        db,
        style,
        state,
        noun,
        &numbers,
        parameters.as_slice(),
        console,
    )?;
    Ok(ran_of(over, goes_on(&numbers)))
}

// Leaves a line that doesn't pass.
fn leave<C: Console>(console: &mut C) -> Result<Ran, ConsoleFault>
    ensures spoken { Speaks (C.seen console.old) (C.seen console.new) result (says []) }
    ensures ran { IfOk result (λ ran. ran ≡ Not) }
{
    Ok(Ran::Not)
}

/// Tries an action line, with the noun that was typed, and answers what became of it.
///
/// `Ran::Not` comes exactly where a condition doesn't hold, and then nothing is said or changed.
/// The console's fault alone is a refusal; of the state it is then known that it fits. docs/TURN.md
/// has the rules.
pub fn perform<C: Console>(
    db: &Db,
    style: Style,
    state: &mut State,
    line: u16,
    noun: &[u8],
    console: &mut C,
) -> Result<Ran, ConsoleFault>
    requires fits { Fits db.now state.old }
    requires there { line < length db.now.actions }
    ensures spoken { Speaks (C.seen console.old) (C.seen console.new) result
        (says (action_result (in_style style db.now) noun.now line state.old).events) }
    ensures state { OnOk result (state.new
        ≡ (action_result (in_style style db.now) noun.now line state.old).value.state) }
    ensures ran { IfOk result
        (λ ran. ran
        ≡ (action_result (in_style style db.now) noun.now line state.old).value.ran) }
    ensures fits { Fits db.now state.new }
{
    let action = &db.actions()[line as usize];
    if passes(db, state, action) {
        run(db, style, state, noun, action, console)
    } else {
        leave(console)
    }
}
