//! A list of the text: entries of one kind, numbered from 0 on.
ghost use Rattle.std.specs.Prelude.{◌≡◌, ◌+◌, ◌<◌, ◌≤◌, ℕ, List, OnOk, length};
ghost use Rattle.scott_types.specs.Database.{Database};
ghost use Rattle.scott_format.specs.Plan.{Plan};
ghost use Rattle.scott_format.specs.Pieces.{Advances, IsDue, Takes, list_then};
ghost use Rattle.scott_format.specs.TextLaws.{TextLaws};

use crate::pieces::Piece;
use crate::stops::{Due, Stop, settles};
use adv_text::Scan;
use std::alloc::Global;

/// Reads the entry with this number, where a byte follows it. After it `then` is due.
///
/// Where the bytes end too early, nothing is taken.
pub fn read_entry<P: Piece>(alloc: Global, scan: &mut Scan, k: u16, then: Due) -> Result<P, Stop>
    requires { TextLaws }
    ensures { Takes (P.plan k) then scan.old result scan.new }
{
    let mut ahead = Scan::on(scan.at(), scan.rest());
    match P::read(alloc, &mut ahead, k) {
        Ok(entry) => {
            if ahead.rest().is_empty() {
                return Err(Stop::Cut(then.missing(ahead.at())));
            }
            *scan = ahead;
            Ok(entry)
        }
        Err(fault) => {
            if settles(fault, scan) {
                Err(Stop::Fault(fault))
            } else {
                Err(Stop::Cut(fault))
            }
        }
    }
}

// What is due after the entry with this number: another one, or what is due after the list.
fn due_after<P: Piece>(k: u16, highest: u16, then: Due) -> Due
    ensures another { k < highest → (j : ℕ) → IsDue result (P.plan j) }
    ensures last { highest ≤ k → result ≡ then }
{
    if k < highest { P::first() } else { then }
}

/// Reads the entries that are to come yet of a list whose highest entry has this number. After the
/// list `then` is due.
pub fn read_list<P: Piece>(
    alloc: Global,
    scan: &mut Scan,
    entries: &mut Vec<P>,
    highest: u16,
    then: Due,
) -> Result<(), Stop>
    requires { TextLaws }
    ensures advances { (go_on : List P → Plan Database)
        → (length entries.old.items < highest + 1 → (all : List P) → IsDue then (go_on all))
        → Advances (list_then P.plan (highest + 1) entries.old.items go_on) scan.old result
        (list_then P.plan (highest + 1) entries.new.items go_on) scan.new }
    ensures full { OnOk result (highest + 1 ≤ length entries.new.items) }
    ensures grows { length entries.old.items ≤ length entries.new.items }
{
    'more: while entries.len() <= usize::from(highest) {
        let k = entries.len() as u16;
        let entry = read_entry(alloc, scan, k, due_after::<P>(k, highest, then))?;
        entries.push(entry)?;
    }
    Ok(())
}
