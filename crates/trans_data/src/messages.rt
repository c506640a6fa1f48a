//! A routine for each message.
ghost use Rattle.std.specs.Prelude.{◌≡◌, ◌<◌, ◌+◌, ◌^◌, IfOk, map, length};
ghost use Rattle.inform_tree.specs.Programs.{directive_of};
ghost use Rattle.trans_data.specs.Texts.{message_directive, message_directives};

use adv_io::Memory;
use inform_codes::{Code, body, numbered};
use inform_tree::{Directive, Name, Routine};
use scott_types::Text;
use std::alloc::Global;

/// A text that is handed in is said: `print "..."; new_line;`
pub const MESSAGE: [Code; 3] = [Code::Print(0), Code::NewLine, Code::End];

fn message(alloc: Global, number: usize, text: &[u8]) -> Result<Directive, Memory>
    ensures { IfOk result (λ directive. directive_of directive
        ≡ message_directive number text.now) }
{
    Ok(Directive::Routine(Routine {
        name: Name::of(numbered(alloc, b"msg_", number)?),
        locals: Vec::new(alloc),
        body: body(alloc, &[text], &[], &MESSAGE)?,
    }))
}

/// The routines of messages, the first of which has this number.
pub fn messages(alloc: Global, number: usize, texts: &[Text]) -> Result<Vec<Directive>, Memory>
    requires { number + length texts.now < 2 ^ 32 }
    ensures { IfOk result (λ directives. map directive_of directives.items
        ≡ message_directives number texts.now) }
{
    match texts {
        [] => Ok(Vec::new(alloc)),
        [text, rest @ ..] => {
            let mut all = messages(alloc, number + 1, rest)?;
            all.insert(0, message(alloc, number, text.bytes())?)?;
            Ok(all)
        }
    }
}
