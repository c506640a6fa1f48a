//! Sessions of a hall do as they would alone. Each law is the contract of a function that does
//! nothing.
ghost use Rattle.adv_hall.specs.Laws.{EachHearsAlone, HallGoesOnAlone, HallBeginsAlone};

use scott_rules::laws::play_splits;

/// A session that stands where it would alone says on a line what it would alone, and stands again
/// where it would alone.
pub fn each_hears_alone()
    ensures { EachHearsAlone }
{
    play_splits();
}

/// In a hall whose sessions stand where they would alone, a line changes the seat of its session
/// alone, and leaves it where it would stand alone.
pub fn hall_goes_on_alone()
    ensures { HallGoesOnAlone }
{
    each_hears_alone();
}

/// Before the first line each session stands where it would alone.
pub fn hall_begins_alone()
    ensures { HallBeginsAlone }
{}
