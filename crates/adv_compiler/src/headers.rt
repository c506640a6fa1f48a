//! What the header of a source means.
ghost use Rattle.std.specs.Prelude.{IfOk, length};
ghost use Rattle.adv_compiler.specs.Faults.{Meets};
ghost use Rattle.adv_compiler.specs.Index.{known_in};
ghost use Rattle.adv_compiler.specs.Meaning.{header, IsHeader};

use crate::faults::CompileFault;
use crate::tables::Tables;
use crate::values::{entry_number, in_range, value_of};
use source_reader::Source;

/// The numbers of a header that are looked up or have a range.
#[derive(Clone, Copy)]
pub struct Numbers {
    pub start: i32,
    pub length: i32,
    pub light: i32,
    pub home: i32,
}

/// The numbers of the header.
#[tactic(auto, using(crate::proofs::Binds::stands_then))]
pub fn header(tables: &Tables, source: &Source) -> Result<Numbers, CompileFault>
    ensures meant { Meets (header (known_in tables.now) source.now) result }
    ensures kept { IfOk result (λ numbers. IsHeader (length source.now.rooms.entries) numbers) }
{
    let start = value_of(&tables.rooms, source.start.at, &source.start.what)?;
    let rooms = source.rooms.entries.as_slice().len();
    let start = entry_number(source.start.at, rooms, start)?;
    let length = in_range(source.length.at, 1, 20, source.length.what)?;
    let light = in_range(source.light.at, -1, 2147483647, source.light.what)?;
    let home = value_of(&tables.rooms, source.home.at, &source.home.what)?;
    Ok(Numbers {
        start,
        length,
        light,
        home,
    })
}
