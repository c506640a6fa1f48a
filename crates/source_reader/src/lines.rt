//! The lines of actions.
ghost use Rattle.source_reader.specs.Plan.{Follows};
ghost use Rattle.source_reader.specs.Entries.{command_head, automatic_head, line_head, comment, line_part};

use crate::faults::SourceFault;
use crate::lists::{Piece, braced};
use crate::singles::{any_token, is_word, number, symbol, vocab_word};
use crate::tokens::Token;
use crate::tree::{At, Cond, Entries, Head, LinePart, Op};
use adv_text::Scan;
use scott_types::Text;
use std::alloc::Global;

// Reads the verb and the noun of a line for a command.
#[tactic(auto, using(crate::proofs::Plans::sections), unfolding(crate::specs::Entries::command_head))]
fn command_head(alloc: Global, scan: &mut Scan) -> Result<Head, SourceFault>
    ensures { Follows command_head scan.old result scan.new }
{
    let verb = vocab_word(alloc, scan)?;
    let noun = vocab_word(alloc, scan)?;
    Ok(Head::Line(verb, noun))
}

// Reads the number of an automatic line.
#[tactic(auto, using(crate::proofs::Plans::sections), unfolding(crate::specs::Entries::automatic_head))]
fn automatic_head(alloc: Global, scan: &mut Scan) -> Result<Head, SourceFault>
    ensures { Follows automatic_head scan.old result scan.new }
{
    let number = number(alloc, scan)?;
    Ok(Head::Auto(number))
}

// Reads the head of a line on from its first token.
#[tactic(auto, unfolding(crate::specs::Entries::line_head))]
fn line_head(alloc: Global, scan: &mut Scan, at: usize, first: &Token) -> Result<Head, SourceFault>
    ensures { Follows (line_head at first.now) scan.old result scan.new }
{
    if is_word(b"line", first) {
        return command_head(alloc, scan);
    }
    if is_word(b"auto", first) {
        return automatic_head(alloc, scan);
    }
    if is_word(b"also", first) {
        return Ok(Head::Also);
    }
    Err(SourceFault::Unexpected(at))
}

// Reads a comment or none, and what ends the line.
#[tactic(auto, using(crate::proofs::Plans::sections), unfolding(crate::specs::Entries::comment))]
fn comment(alloc: Global, scan: &mut Scan) -> Result<Text, SourceFault>
    ensures { Follows comment scan.old result scan.new }
{
    let At { at, what } = any_token(alloc, scan)?;
    match what {
        Token::Quoted(text) => {
            symbol(alloc, scan, b';')?;
            Ok(text)
        }
        Token::Mark(b';') => Ok(Text::of(Vec::new(alloc))),
        _ => Err(SourceFault::Unexpected(at)),
    }
}

impl Piece for LinePart {
    ghost plan = { line_part };

    #[tactic(auto, using(crate::proofs::Plans::sections))]
    fn read(
        alloc: Global,
        scan: &mut Scan,
        at: usize,
        first: Token,
    ) -> Result<LinePart, SourceFault> {
        let head = line_head(alloc, scan, at, &first)?;
        let conds: Entries<Cond> = braced(alloc, scan)?;
        let ops: Entries<Op> = braced(alloc, scan)?;
        let comment = comment(alloc, scan)?;
        Ok(LinePart {
            head,
            conds: conds.entries,
            ops: ops.entries,
            comment,
        })
    }
}
