//! The conditions of a line.
ghost use Rattle.source_reader.specs.Entries.{condition};

use crate::faults::SourceFault;
use crate::lists::Piece;
use crate::names::condition_code;
use crate::singles::{reference, symbol};
use crate::tokens::Token;
use crate::tree::Cond;
use adv_text::Scan;
use std::alloc::Global;

impl Piece for Cond {
    ghost plan = { condition };

    #[tactic(auto, using(crate::proofs::Plans::sections))]
    fn read(alloc: Global, scan: &mut Scan, at: usize, first: Token) -> Result<Cond, SourceFault> {
        let Token::Word(word) = first else {
            return Err(SourceFault::Unexpected(at));
        };
        let Some(code) = condition_code(word.as_slice()) else {
            return Err(SourceFault::Unexpected(at));
        };
        let arg = reference(alloc, scan)?;
        symbol(alloc, scan, b';')?;
        Ok(Cond { code, arg })
    }
}
