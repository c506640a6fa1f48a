//! The three lines of a demonstration.
ghost use Rattle.std.specs.Prelude.{◌≡◌, ◌++◌, OnOk};
ghost use Rattle.adv_demo.specs.Texts.{end_text, taken_text, state_text, summary_text, size_line, play_line, run_line};

use crate::summaries::{End, Summary};
use adv_io::Memory;
use adv_text::put_integer;
use itoa::Integer;
use scott_types::Db;
use std::alloc::Global;

// Writes a number after its label.
fn put_labelled<I: Integer>(
    alloc: Global,
    out: &mut Vec<u8>,
    label: &[u8],
    number: I,
) -> Result<(), Memory>
    ensures { OnOk result (out.new.items ≡ out.old.items ++ (label.now ++ I.text number)) }
{
    out.extend_from_slice(label)?;
    put_integer(alloc, out, number)
}

fn put_end(alloc: Global, out: &mut Vec<u8>, end: End) -> Result<(), Memory>
    ensures { OnOk result (out.new.items ≡ out.old.items ++ end_text end) }
{
    match end {
        End::Over(number) => put_labelled(alloc, out, b"over ", number),
        End::NeedsLine => Ok(out.extend_from_slice(b"line")?),
        End::NeedsDraw => Ok(out.extend_from_slice(b"draw")?),
        End::Trapped => Ok(out.extend_from_slice(b"trap")?),
        End::Spent => Ok(out.extend_from_slice(b"steps")?),
    }
}

// Writes how many lines and draws were taken.
#[tactic(auto, unfolding(crate::specs::Texts::taken_text))]
fn put_taken(alloc: Global, out: &mut Vec<u8>, summary: &Summary) -> Result<(), Memory>
    ensures { OnOk result (out.new.items ≡ out.old.items ++ taken_text summary.now) }
{
    put_labelled(alloc, out, b"lines ", summary.lines)?;
    put_labelled(alloc, out, b", draws ", summary.draws)
}

// Writes the room and the light.
#[tactic(auto, unfolding(crate::specs::Texts::state_text))]
fn put_state(alloc: Global, out: &mut Vec<u8>, summary: &Summary) -> Result<(), Memory>
    ensures { OnOk result (out.new.items ≡ out.old.items ++ state_text summary.now) }
{
    put_labelled(alloc, out, b", room ", summary.room)?;
    put_labelled(alloc, out, b", light ", summary.light)
}

#[tactic(auto, unfolding(crate::specs::Texts::summary_text))]
fn put_summary(alloc: Global, out: &mut Vec<u8>, summary: &Summary) -> Result<(), Memory>
    ensures { OnOk result (out.new.items ≡ out.old.items ++ summary_text summary.now) }
{
    put_taken(alloc, out, summary)?;
    out.extend_from_slice(b", end ")?;
    put_end(alloc, out, summary.end)?;
    put_state(alloc, out, summary)
}

/// Writes how many rooms, items and action lines the game of a number has.
#[tactic(auto, unfolding(crate::specs::Texts::size_line))]
pub fn put_size_line(alloc: Global, out: &mut Vec<u8>, n: u32, db: &Db) -> Result<(), Memory>
    ensures { OnOk result (out.new.items ≡ out.old.items ++ size_line n db.now) }
{
    put_labelled(alloc, out, b"demo ", n)?;
    put_labelled(alloc, out, b": rooms ", db.rooms().len())?;
    put_labelled(alloc, out, b", items ", db.items().len())?;
    put_labelled(alloc, out, b", lines ", db.actions().len())?;
    out.push(b'\n')?;
    Ok(())
}

/// Writes how a play ended.
pub fn put_play_line(alloc: Global, out: &mut Vec<u8>, play: &Summary) -> Result<(), Memory>
    ensures { OnOk result (out.new.items ≡ out.old.items ++ play_line play.now) }
{
    out.extend_from_slice(b"play: ")?;
    put_summary(alloc, out, play)?;
    out.push(b'\n')?;
    Ok(())
}

/// Writes how a run ended, and how many steps it used.
pub fn put_run_line(
    alloc: Global,
    out: &mut Vec<u8>,
    run: &Summary,
    steps: u64,
) -> Result<(), Memory>
    ensures { OnOk result (out.new.items ≡ out.old.items ++ run_line run.now steps) }
{
    out.extend_from_slice(b"run: ")?;
    put_summary(alloc, out, run)?;
    put_labelled(alloc, out, b", steps ", steps)?;
    out.push(b'\n')?;
    Ok(())
}
