//! The text of the counts of a game's lines.
ghost use Rattle.std.specs.Prelude.{◌≡◌, ◌≤◌, ◌++◌, OnOk, IfOk, length};
ghost use Rattle.adv_coverage.specs.Report.{line_text, lines_text, lines_run, report_text};

use adv_io::Memory;
use adv_text::put_integer;
use std::alloc::Global;

/// How many lines a game has at most.
pub const LINE_LIMIT: usize = 5_000;

// Writes how often a line was tried, where it was.
fn put_line(alloc: Global, out: &mut Vec<u8>, line: usize, count: u64) -> Result<(), Memory>
    ensures { OnOk result (out.new.items ≡ out.old.items ++ line_text line count) }
{
    if count == 0 {
        return Ok(());
    }
    out.extend_from_slice(b"line ")?;
    put_integer(alloc, out, line)?;
    out.extend_from_slice(b": ")?;
    put_integer(alloc, out, count)?;
    out.push(b'\n')?;
    Ok(())
}

// Writes how often each line was tried, in order.
fn put_lines(alloc: Global, out: &mut Vec<u8>, counts: &[u64]) -> Result<(), Memory>
    ensures { OnOk result (out.new.items ≡ out.old.items ++ lines_text 0 counts.now) }
{
    for line in 0..counts.len() {
        put_line(alloc, out, line, counts[line])?;
    }
    Ok(())
}

// How many lines were tried.
fn lines_run(counts: &[u64]) -> usize
    ensures { result ≡ lines_run counts.now }
{
    counts.iter().filter(|count| **count > 0).count()
}

/// The text of how often each line of a game was tried: after an empty line each line that was, by
/// its number, and then how many those are. docs/TURN.md, "Which lines were tried", has it.
///
/// There are at most 5,000 counts.
pub fn report(alloc: Global, counts: &[u64]) -> Result<Vec<u8>, Memory>
    requires { length counts.now ≤ LINE_LIMIT }
    ensures { IfOk result (λ text. text.items ≡ report_text counts.now) }
{
    let mut out = Vec::new(alloc);
    out.push(b'\n')?;
    put_lines(alloc, &mut out, counts)?;
    out.extend_from_slice(b"lines run: ")?;
    put_integer(alloc, &mut out, lines_run(counts))?;
    out.push(b'\n')?;
    Ok(out)
}
