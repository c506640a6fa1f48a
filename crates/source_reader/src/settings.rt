//! The header of a source, and the trailer.
ghost use Rattle.std.specs.Prelude.{◌≡◌, ◌∷◌, []};
ghost use Rattle.source_reader.specs.Plan.{Follows};
ghost use Rattle.source_reader.specs.Text.{opened, setting, room_setting, settings, trailer};

use crate::faults::SourceFault;
use crate::singles::{key, number, reference, symbol};
use crate::tree::{At, Ref};
use adv_text::Scan;
use std::alloc::Global;

/// The settings of the header, in their order.
#[derive(Drop)]
pub struct Settings {
    pub unused: At<i32>,
    pub carry: At<i32>,
    pub start: At<Ref>,
    pub treasures: At<i32>,
    pub length: At<i32>,
    pub light: At<i32>,
    pub home: At<Ref>,
}

/// Reads a word and an opening brace.
#[tactic(auto, using(crate::proofs::Plans::sections), unfolding(crate::specs::Text::opened))]
pub fn opened(alloc: Global, scan: &mut Scan, word: &[u8]) -> Result<(), SourceFault>
    ensures { Follows (opened word.now) scan.old result scan.new }
{
    key(alloc, scan, word)?;
    symbol(alloc, scan, b'{')
}

// Reads a setting that is a number.
#[tactic(auto, using(crate::proofs::Plans::sections), unfolding(crate::specs::Text::setting))]
fn setting(alloc: Global, scan: &mut Scan, word: &[u8]) -> Result<At<i32>, SourceFault>
    ensures { Follows (setting word.now) scan.old result scan.new }
{
    key(alloc, scan, word)?;
    let number = number(alloc, scan)?;
    symbol(alloc, scan, b';')?;
    Ok(number)
}

// Reads a setting that is a room.
#[tactic(auto, using(crate::proofs::Plans::sections), unfolding(crate::specs::Text::room_setting))]
fn room_setting(alloc: Global, scan: &mut Scan, word: &[u8]) -> Result<At<Ref>, SourceFault>
    ensures { Follows (room_setting word.now) scan.old result scan.new }
{
    key(alloc, scan, word)?;
    let room = reference(alloc, scan)?;
    symbol(alloc, scan, b';')?;
    Ok(room)
}

impl Settings {
    /// Reads the header.
    #[tactic(auto, using(crate::proofs::Plans::sections), unfolding(crate::specs::Text::settings))]
    pub fn read(alloc: Global, scan: &mut Scan) -> Result<Settings, SourceFault>
        ensures { Follows settings scan.old result scan.new }
    {
        opened(alloc, scan, b"header")?;
        let unused = setting(alloc, scan, b"unused")?;
        let carry = setting(alloc, scan, b"carry")?;
        let start = room_setting(alloc, scan, b"start")?;
        let treasures = setting(alloc, scan, b"treasures")?;
        let length = setting(alloc, scan, b"length")?;
        let light = setting(alloc, scan, b"light")?;
        let home = room_setting(alloc, scan, b"home")?;
        symbol(alloc, scan, b'}')?;
        Ok(Settings {
            unused,
            carry,
            start,
            treasures,
            length,
            light,
            home,
        })
    }
}

// Three numbers, as they stand.
fn three(version: i32, adventure: i32, third: i32) -> [i32; 3]
    ensures { result ≡ version ∷ adventure ∷ third ∷ [] }
{
    [version, adventure, third]
}

/// Reads the trailer.
#[tactic(auto, using(crate::proofs::Plans::sections), unfolding(crate::specs::Text::trailer))]
pub fn trailer(alloc: Global, scan: &mut Scan) -> Result<[i32; 3], SourceFault>
    ensures { Follows trailer scan.old result scan.new }
{
    opened(alloc, scan, b"trailer")?;
    let version = number(alloc, scan)?;
    let adventure = number(alloc, scan)?;
    let third = number(alloc, scan)?;
    symbol(alloc, scan, b'}')?;
    Ok(three(version.what, adventure.what, third.what))
}
