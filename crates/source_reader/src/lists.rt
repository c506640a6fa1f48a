//! A list: entries of one kind, up to a closing brace.
ghost use Rattle.std.specs.Prelude.{ℕ};
ghost use Rattle.source_reader.specs.declared.tokens.Token.{Token};
ghost use Rattle.source_reader.specs.Plan.{Plan, Follows};
ghost use Rattle.source_reader.specs.Lists.{many, braced, listing};

use crate::faults::SourceFault;
use crate::sequences::Seq;
use crate::singles::{any_token, is_mark, key, symbol};
use crate::tokens::Token;
use crate::tree::{At, Entries};
use adv_text::Scan;
use std::alloc::Global;

/// What a list is made of.
pub trait Piece: Drop {
    // The plan of an entry that begins at this place with this token.
    ghost plan: { ℕ → Token → Plan Self };

    /// Reads an entry on from its first token.
    fn read(alloc: Global, scan: &mut Scan, at: usize, first: Token) -> Result<Self, SourceFault>
        ensures { Follows (plan at first) scan.old result scan.new };
}

// Reads the entries of a list, and its closing brace.
fn entries<P: Piece>(alloc: Global, scan: &mut Scan) -> Result<Entries<P>, SourceFault>
    ensures { Follows (many P.plan) scan.old result scan.new }
{
    let mut entries = Vec::new(alloc);
    for _k in 0..u64::MAX {
        let At { at, what } = any_token(alloc, scan)?;
        if is_mark(b'}', &what) {
            return Ok(Entries {
                entries: Seq::of(entries),
                end: at,
            });
        }
        let entry = P::read(alloc, scan, at, what)?;
        entries.push(At { at, what: entry })?;
    }
    Err(SourceFault::Unexpected(0))
}

/// Reads a list between braces.
#[tactic(auto, using(crate::proofs::Plans::sections), unfolding(crate::specs::Lists::braced))]
pub fn braced<P: Piece>(alloc: Global, scan: &mut Scan) -> Result<Entries<P>, SourceFault>
    ensures { Follows (braced P.plan) scan.old result scan.new }
{
    symbol(alloc, scan, b'{')?;
    entries(alloc, scan)
}

/// Reads a list under its word.
#[tactic(auto, using(crate::proofs::Plans::sections), unfolding(crate::specs::Lists::listing))]
pub fn listing<P: Piece>(
    alloc: Global,
    scan: &mut Scan,
    word: &[u8],
) -> Result<Entries<P>, SourceFault>
    ensures { Follows (listing word.now P.plan) scan.old result scan.new }
{
    key(alloc, scan, word)?;
    braced(alloc, scan)
}
