//! Lines of play.
ghost use Rattle.std.specs.Prelude.{◌≡◌, ◌≤◌, IfOk};
ghost use Rattle.adv_gen.specs.Picks.{after};
ghost use Rattle.adv_gen.specs.TypedLines.{form_of, command, command_picks};

use crate::parts::Part;
use crate::picks::Picks;
use crate::texts::text;
use crate::vocabulary::{direction, plain_verb, thing_noun};
use adv_io::{Line, Memory};
use scott_types::Text;
use std::alloc::Global;

/// What is typed.
#[derive(Clone, Copy)]
pub enum Form {
    Direction,
    /// `get`, and the noun of an item.
    GetItem,
    DropAll,
    /// A verb without a meaning of its own, and the noun of an item.
    VerbAndItem,
}

// Of every four lines.
static FORMS: [Form; 4] = [
    Form::Direction,
    Form::GetItem,
    Form::DropAll,
    Form::VerbAndItem,
];

impl Form {
    fn of(j: u16) -> Form
        ensures { result ≡ form_of j }
    {
        FORMS[(j % 4) as usize]
    }

    // The words of a line, in capital letters where they are of the vocabulary.
    fn command(self, alloc: Global, size: u16, picks: &mut Picks) -> Result<Text, Memory>
        requires some { 8 ≤ size }
        requires small { size ≤ 120 }
        ensures made { IfOk result (λ text. text ≡ command self size picks.old) }
        ensures next { picks.new ≡ after (command_picks self) picks.old }
    {
        match self {
            Form::Direction => text(alloc, &[direction(1 + picks.pick(6))]),
            Form::GetItem => text(alloc, &[b"get ", &thing_noun(size, picks.pick(2 * size))]),
            Form::DropAll => text(alloc, &[b"drop all"]),
            Form::VerbAndItem => {
                let verb = plain_verb(3 + picks.pick(7));
                let noun = thing_noun(size, picks.pick(2 * size));
                text(alloc, &[&verb, b" ", &noun])
            }
        }
    }
}

impl Part for Line {
    ghost use Rattle.adv_gen.specs.TypedLines.{typed_line, line_picks};

    ghost part = { typed_line };

    ghost taken = { line_picks };

    fn make(alloc: Global, size: u16, number: u16, picks: &mut Picks) -> Result<Line, Memory> {
        let command = Form::of(number).command(alloc, size, picks)?;
        Ok(Line::of(command.bytes()))
    }
}
