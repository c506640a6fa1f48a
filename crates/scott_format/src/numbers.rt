//! Numbers and strings of a database's text, with their limits.
ghost use Rattle.std.specs.Prelude.{◌≡◌, ◌+◌, ◌≤◌, ◌≤ℤ◌, ℕ, ℤ, pos, negsuc};
ghost use Rattle.scott_format.specs.Sections.{any_number, natural, limited, light_time, action_number, string, third_number};
ghost use Rattle.scott_format.specs.Faults.{no_start};
ghost use Rattle.scott_format.specs.Reading.{Follows, Stands};

use crate::faults::{Field, FormatFault};
use adv_text::{Scan, TextFault};
use scott_types::Text;
use std::alloc::Global;

/// A number without a limit.
#[inline(always)]
pub fn number(scan: &mut Scan) -> Result<i32, FormatFault>
    ensures { Follows any_number scan.old result scan.new }
{
    match scan.number() {
        Ok(number) => Ok(number),
        Err(fault) => Err(FormatFault::from(fault)),
    }
}

/// A number of the header within least..most.
pub fn limited(scan: &mut Scan, field: Field, least: u16, most: u16) -> Result<u16, FormatFault>
    ensures { Follows (limited field least most) scan.old result scan.new }
{
    let number = number(scan)?;
    if number < i32::from(least) || number > i32::from(most) {
        return Err(FormatFault::Limit(field, number));
    }
    Ok(number as u16)
}

/// The start room, at most the highest room.
pub fn start_room(scan: &mut Scan, rooms: u8) -> Result<u8, FormatFault>
    ensures { Follows (natural 0 rooms no_start) scan.old result scan.new }
{
    let number = number(scan)?;
    if number < 0 || number > i32::from(rooms) {
        return Err(FormatFault::NoStart(number));
    }
    Ok(number as u8)
}

/// The light time, -1 or more.
pub fn light_time(scan: &mut Scan) -> Result<i32, FormatFault>
    ensures { Follows light_time scan.old result scan.new }
{
    let number = number(scan)?;
    if number < -1 {
        return Err(FormatFault::Limit(Field::LightTime, number));
    }
    Ok(number)
}

/// A number of an action, 0 or more.
#[inline(always)]
pub fn action_number(scan: &mut Scan, action: u16) -> Result<u32, FormatFault>
    ensures { Follows (action_number action) scan.old result scan.new }
{
    let number = number(scan)?;
    if number < 0 {
        return Err(FormatFault::NegativeAction(action));
    }
    Ok(number as u32)
}

/// A number, or 0 where none stands.
pub fn third_number(scan: &mut Scan) -> Result<i32, FormatFault>
    ensures { Follows third_number scan.old result scan.new }
{
    match scan.number() {
        Ok(number) => Ok(number),
        Err(TextFault::NoNumber(_)) => Ok(0),
        Err(fault) => Err(FormatFault::from(fault)),
    }
}

/// A string.
#[inline(always)]
pub fn string(alloc: Global, scan: &mut Scan) -> Result<Text, FormatFault>
    ensures { Follows string scan.old result scan.new }
{
    match scan.quoted(alloc) {
        Ok(bytes) => Ok(Text::of(bytes)),
        Err(fault) => Err(FormatFault::from(fault)),
    }
}
