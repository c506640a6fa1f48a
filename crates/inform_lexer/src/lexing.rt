//! The tokens of a whole text.
ghost use Rattle.std.specs.Prelude.{◌≡◌, ◌+◌, ◌++◌, ◌^◌, ◌<◌, ◌≢◌, ℕ, List, length, IfOk, IfErr, Err};
ghost use Rattle.adv_io.specs.Answers.{Answers, IsErrOr};
ghost use Rattle.inform_lexer.specs.declared.faults.LexFault.TheVariants.{Memory};
ghost use Rattle.inform_lexer.specs.Tokens.{lexed, Spelled, Faulty, InOrder};
ghost use Rattle.inform_lexer.specs.Answers.{fault_of, IsTokens};

use crate::exact_laws::exact_laws;
use crate::faults::LexFault;
use crate::kinds::{PLACE_LIMIT, Token};
use crate::pieces::read_piece;
use std::alloc::Global;

// Room is taken at first for one token in four bytes, but for no more than these.
const ROOM: usize = 16_384;

// Reads the pieces from left to right.
fn read(alloc: Global, bytes: &[u8]) -> Result<Vec<Token>, LexFault>
    requires { length bytes.now < 2 ^ 32 }
    ensures same { Answers (λ tokens. tokens.items) fault_of result (lexed bytes.now) }
    ensures order { IfOk result (λ tokens. InOrder (length bytes.now) 0 tokens.items) }
{
    let mut tokens = Vec::with_capacity(alloc, (bytes.len() / 4).min(ROOM))?;
    let mut at = 0;
    while at < bytes.len() {
        let more = read_piece(&mut tokens, at, &bytes[at..])?;
        at = at + 1 + more;
    }
    Ok(tokens)
}

/// The tokens of a text, in order. Their spans are in order too, and within the bytes.
///
/// The faults are those of `LexFault`; the first one in the order of the text is answered. A token
/// has no room for the places of a text of more than 4,294,967,295 bytes, so that `Memory` is the
/// answer there.
/// docs/INFORM.md has the rules ("Tokens").
pub fn tokens(alloc: Global, bytes: &[u8]) -> Result<Vec<Token>, LexFault>
    // What is given is spelled, and what is spelled is given, unless memory runs out.
    ensures found { IfOk result (λ tokens. Spelled bytes.now tokens.items) }
    ensures only { (tokens : List Token) → Spelled bytes.now tokens → IsTokens result tokens }
    ensures order { IfOk result (λ tokens. InOrder (length bytes.now) 0 tokens.items) }

    // A fault but `Memory` is answered only where it is the first one, and there, unless memory
    // runs out.
    ensures exact { IfErr result (λ fault. fault ≢ Memory → Faulty bytes.now fault) }
    ensures expected { (fault : LexFault) → Faulty bytes.now fault → IsErrOr Memory result fault }
{
    exact_laws();
    if bytes.len() > PLACE_LIMIT {
        return Err(LexFault::Memory);
    }
    read(alloc, bytes)
}
