//! Laws of the warnings, and a report that was worked out by hand. Each is the contract of a
//! function that does nothing.
ghost use Rattle.adv_check.specs.Laws.{EachOpcodeTakesItsOwn, NoWarningsWhereFaultless};
ghost use Rattle.adv_check.specs.Worked.{DropWithoutAParameter};

/// An opcode is held to the parameters after those that the opcodes before it take.
pub fn each_opcode_takes_its_own()
    ensures { EachOpcodeTakesItsOwn }
{}

/// There are no warnings exactly where nothing is wrong at any place.
pub fn no_warnings_where_faultless()
    ensures { NoWarningsWhereFaultless }
{}

/// The report on a small game whose one line drops an item, and has no parameter.
pub fn drop_without_a_parameter()
    ensures { DropWithoutAParameter }
{}
