//! Reading the text of a source.
ghost use Rattle.std.specs.Prelude.{◌≡◌, IfOk, MatchResult, Ok, Err};
ghost use Rattle.adv_io.specs.Answers.{IsErrOr};
ghost use Rattle.source_reader.specs.declared.tree.Source.{Source};
ghost use Rattle.source_reader.specs.Faults.{Fault, fault_answer, Stands};
ghost use Rattle.source_reader.specs.Plan.{Follows};
ghost use Rattle.source_reader.specs.Text.{source, lists, source_in, SourceText, TextFault, IsSource};
ghost use Rattle.source_reader.specs.WellFormed.{WellFormed};

use crate::faults::SourceFault;
use crate::laws::text_is_well_formed;
use crate::lists::listing;
use crate::settings::{Settings, trailer};
use crate::singles::end_of_text;
use crate::token_laws::token_laws;
use crate::tree::Source;
use adv_text::Scan;
use std::alloc::Global;

// Reads the lists and the trailer, which end the text. The header was read before.
#[tactic(auto, using(crate::proofs::Plans::sections), unfolding(crate::specs::Text::lists))]
fn lists(alloc: Global, scan: &mut Scan, first: Settings) -> Result<Source, SourceFault>
    ensures { Follows (lists first) scan.old result scan.new }
{
    let words = listing(alloc, scan, b"words")?;
    let rooms = listing(alloc, scan, b"rooms")?;
    let messages = listing(alloc, scan, b"messages")?;
    let items = listing(alloc, scan, b"items")?;
    let lines = listing(alloc, scan, b"lines")?;
    let trailer = trailer(alloc, scan)?;
    end_of_text(alloc, scan)?;
    Ok(Source {
        unused: first.unused,
        carry: first.carry,
        start: first.start,
        treasures: first.treasures,
        length: first.length,
        light: first.light,
        home: first.home,
        words,
        rooms,
        messages,
        items,
        lines,
        trailer,
    })
}

// Reads the whole from where the scan stands.
#[tactic(auto, using(crate::proofs::Plans::sections), unfolding(crate::specs::Text::source))]
fn whole(alloc: Global, scan: &mut Scan) -> Result<Source, SourceFault>
    ensures { Follows source scan.old result scan.new }
{
    let first = Settings::read(alloc, scan)?;
    lists(alloc, scan, first)
}

/// Reads the text of a source.
///
/// The faults are those of `SourceFault`; the first one in the order of the text is answered.
/// docs/SOURCE.md has the rules of the language.
pub fn read_source(alloc: Global, bytes: &[u8]) -> Result<Source, SourceFault>
    // What is read has this text and is well formed, and what has a text is read, unless memory
    // runs out.
    ensures found { IfOk result (λ tree. SourceText bytes.now tree) }
    ensures only { (tree : Source) → SourceText bytes.now tree → IsSource result tree }
    ensures well_formed { IfOk result (λ tree. WellFormed tree) }

    // A fault but `Memory` is answered only where it is the first one, and there, unless memory
    // runs out.
    ensures exact { (fault : Fault) → result ≡ Err (fault_answer fault)
        → TextFault bytes.now fault }
    ensures expected { (fault : Fault) → TextFault bytes.now fault
        → IsErrOr SourceFault.Memory result (fault_answer fault) }

    // The answer is what the bytes read as, unless memory runs out.
    ensures as_read { MatchResult result (λ tree. source_in bytes.now ≡ Ok tree)
        (λ fault. Stands fault (source_in bytes.now)) }
{
    token_laws();
    text_is_well_formed();
    let mut scan = Scan::new(bytes);
    whole(alloc, &mut scan)
}
