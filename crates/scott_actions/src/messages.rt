//! What opcodes say.
ghost use Rattle.std.specs.Prelude.{◌≡◌, ◌<◌, ◌++◌, [], if◌then◌else◌};
ghost use Rattle.std.specs.Fmt.{signed_decimal};
ghost use Rattle.scott_types.specs.declared.phrases.Phrase.TheVariants.{Newline, Dead, TooMuch};
ghost use Rattle.scott_types.specs.Phrase.{text_of, text_in};
ghost use Rattle.adv_io.specs.History.{says};
ghost use Rattle.adv_io.specs.Console.{Speaks};
ghost use Rattle.scott_types.specs.State.{Fits};
ghost use Rattle.scott_types.specs.Style.{in_style};
ghost use Rattle.scott_rules.specs.Opcodes.{said_message, talk, opcode_text};
ghost use Rattle.scott_rules.specs.Looking.{looked, scored};

use adv_io::{Console, ConsoleFault, say_both};
use itoa::Buffer;
use scott_light::{inventory, look, look_after, score};
use scott_types::{Db, Opcode, Phrase, State, Style, TalkOp};

// Says a text and the end of its line.
fn say_line<C: Console>(text: &[u8], console: &mut C) -> Result<(), ConsoleFault>
    ensures { Speaks (C.seen console.old) (C.seen console.new) result
        (says (text.now ++ text_of Newline)) }
{
    say_both(text, Phrase::Newline.text(), console)
}

// Says nothing, and makes no call.
fn say_nothing<C: Console>(console: &mut C) -> Result<(), ConsoleFault>
    ensures { Speaks (C.seen console.old) (C.seen console.new) result (says []) }
{
    Ok(())
}

// Says a message, or nothing where it isn't there.
fn say_message<C: Console>(db: &Db, message: u32, console: &mut C) -> Result<(), ConsoleFault>
    ensures { Speaks (C.seen console.old) (C.seen console.new) result
        (says (said_message db.now message)) }
{
    let messages = db.messages();
    if (message as usize) < messages.len() {
        say_line(messages[message as usize].bytes(), console)
    } else {
        say_nothing(console)
    }
}

fn say_number<C: Console>(number: i16, console: &mut C) -> Result<(), ConsoleFault>
    ensures { Speaks (C.seen console.old) (C.seen console.new) result
        (says (signed_decimal number)) }
{
    let mut buffer = Buffer::new();
    console.say(buffer.format(number).as_bytes())
}

// An opcode that only says something.
fn talk<C: Console>(
    db: &Db,
    style: Style,
    state: &State,
    noun: &[u8],
    op: TalkOp,
    console: &mut C,
) -> Result<(), ConsoleFault>
    requires { Fits db.now state.now }
    ensures { Speaks (C.seen console.old) (C.seen console.new) result
        (says (talk (in_style style db.now) noun.now op state.now)) }
{
    match op {
        TalkOp::Look => look(db, style, state, console),
        TalkOp::Inventory => inventory(db, style, state, console),
        TalkOp::Save => console.say(Phrase::NoSaving.text()),
        TalkOp::ShowCounter => say_number(state.counter, console),
        TalkOp::Noun => console.say(noun),
        TalkOp::NounLine => say_line(noun, console),
        TalkOp::Newline => console.say(Phrase::Newline.text()),
    }
}

// The last words, and a look from where the dead wake.
fn say_death<C: Console>(
    db: &Db,
    style: Style,
    state: &State,
    console: &mut C,
) -> Result<(), ConsoleFault>
    requires { Fits db.now state.now }
    ensures { Speaks (C.seen console.old) (C.seen console.new) result
        (says (text_in style Dead ++ looked (in_style style db.now) state.now)) }
{
    look_after(Phrase::Dead.text_in(style), db, style, state, console)
}

// The score, whatever it is.
fn say_score<C: Console>(
    db: &Db,
    style: Style,
    state: &State,
    console: &mut C,
) -> Result<(), ConsoleFault>
    requires { Fits db.now state.now }
    ensures { Speaks (C.seen console.old) (C.seen console.new) result
        (says (scored (in_style style db.now) state.now)) }
{
    let _all = score(db, style, state, console)?;
    Ok(())
}

// A refusal where the hands are full, and nothing otherwise.
fn say_refusal<C: Console>(full: bool, style: Style, console: &mut C) -> Result<(), ConsoleFault>
    ensures { Speaks (C.seen console.old) (C.seen console.new) result
        (says (if full then text_in style TooMuch else [])) }
{
    if full {
        console.say(Phrase::TooMuch.text_in(style))
    } else {
        say_nothing(console)
    }
}

/// Says what an opcode says, in the state that it leaves; `full` tells whether the hands were full
/// before it.
pub fn say_opcode_text<C: Console>(
    db: &Db,
    style: Style,
    state: &State,
    noun: &[u8],
    opcode: Opcode,
    full: bool,
    console: &mut C,
) -> Result<(), ConsoleFault>
    requires { Fits db.now state.now }
    ensures { Speaks (C.seen console.old) (C.seen console.new) result
        (says (opcode_text (in_style style db.now) noun.now opcode full state.now)) }
{
    match opcode {
        Opcode::Say(message) => say_message(db, message, console),
        Opcode::Get => say_refusal(full, style, console),
        Opcode::Talk(op) => talk(db, style, state, noun, op, console),
        Opcode::Score => say_score(db, style, state, console),
        Opcode::Die => say_death(db, style, state, console),
        Opcode::Finish => console.say(Phrase::GameOver.text()),
        _ => say_nothing(console),
    }
}
