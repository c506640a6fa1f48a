//! The counts of the routines of lines.
ghost use Rattle.std.specs.Prelude.{◌≡◌, ◌++◌, IfOk, OnOk, length, codes};
ghost use Rattle.inform_names.specs.Views.{names_of};
ghost use Rattle.trans_specs.specs.Names.{line_name};
ghost use Rattle.adv_coverage.specs.Lines.{routine_count, line_counts};

use crate::reports::LINE_LIMIT;
use adv_io::Memory;
use adv_text::put_integer;
use inform_names::{Accepted, Kind, Meaning, Names};
use std::alloc::Global;

// The count of the routine that a name means.
fn routine_count(counts: &[u64], meaning: Option<Meaning>) -> u64
    ensures { result ≡ routine_count counts.now meaning }
{
    match meaning {
        None => 0,
        Some(meaning) => match meaning.kind {
            Kind::Routine(_) => {
                if meaning.at < counts.len() {
                    return counts[meaning.at];
                }
                0
            }
            Kind::Constant(_) => 0,
            Kind::Global => 0,
            Kind::Array(_) => 0,
        },
    }
}

// The name of the routine of a line.
fn put_line_name(alloc: Global, name: &mut Vec<u8>, line: usize) -> Result<(), Memory>
    ensures { OnOk result (name.new.items ≡ line_name line) }
{
    name.clear();
    name.extend_from_slice(b"line_")?;
    put_integer(alloc, name, line)
}

/// The counts of the lines of a game, by the counts of the directives of its translation: each is
/// that of the routine `line_K`, where K is the number of the line in decimal. A line that has no
/// routine has the count 0.
#[tactic(auto, using(crate::proofs::LineByLine::no_line, crate::proofs::LineByLine::one_line))]
pub fn line_counts(alloc: Global, program: &Accepted, counts: &[u64]) -> Result<Vec<u64>, Memory>
    ensures counts { IfOk result (λ lines.
        lines.items ≡ line_counts (names_of program.now) counts.now) }
    ensures count { IfOk result (λ lines. length lines.items ≡ LINE_LIMIT) }
{
    let names = Names::of(alloc, program)?;
    let mut name = Vec::new(alloc);
    let mut lines = Vec::new(alloc);
    for line in 0..LINE_LIMIT {
        put_line_name(alloc, &mut name, line)?;
        lines.push(routine_count(counts, names.find(&name)))?;
    }
    Ok(lines)
}
