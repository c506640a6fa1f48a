//! Texts of a command, said as steps of a play.
ghost use Rattle.std.specs.Prelude.{◌≡◌, IfOk};
ghost use Rattle.adv_io.specs.Console.{Speaks};
ghost use Rattle.adv_io.specs.Steps.{said_steps, shown_of};

use adv_io::{Console, ConsoleFault};

// Says a text as steps, and makes no call where it is empty.
#[tactic(auto, using(crate::proofs::Showing::shown_said))]
pub fn say_text<C: Console>(text: &[u8], console: &mut C) -> Result<(), ConsoleFault>
    ensures { Speaks (C.seen console.old) (C.seen console.new) result
        (shown_of (said_steps text.now)) }
{
    adv_io::say_unless_empty(text, console)
}

// Says a text that doesn't end the game.
pub fn say_only<C: Console>(text: &[u8], console: &mut C) -> Result<Option<u8>, ConsoleFault>
    ensures spoken { Speaks (C.seen console.old) (C.seen console.new) result
        (shown_of (said_steps text.now)) }
    ensures over { IfOk result (λ over. over ≡ None) }
{
    say_text(text, console)?;
    Ok(None)
}
