//! The routines meet their specifications, and what a program needs to know of them. Each law is
//! the contract of a function that does nothing else.
ghost use Rattle.trans_groups.specs.Laws.{GroupsMeetSpecs, AutomaticMeetsSpec, SearchMeetsSpec, TryingMeetsSpecs, TryingFormed};
ghost use Rattle.trans_groups.specs.Parts.{GroupsAreDistinct, GroupsAreThere, GroupsAlone, GroupsAreCalledOnce, GroupsCallLines, TryingIsFaultless};

use trans_specs::laws::{lines_have_words, numbers_are_their_words};

/// Where a program has the routines of groups, and each line meets its specification, so does each
/// group.
pub fn groups_meet_specs()
    ensures { GroupsMeetSpecs }
{}

/// Where a program has the automatic step, and each group meets its specification, so does the
/// step.
pub fn automatic_meets_spec()
    ensures { AutomaticMeetsSpec }
{}

/// Where a program has the search, and each group meets its specification, so does the search.
pub fn search_meets_spec()
    ensures { SearchMeetsSpec }
{
    numbers_are_their_words();
    lines_have_words();
}

/// Where a program has all of these routines, and each line meets its specification, so do they.
pub fn trying_meets_specs()
    ensures { TryingMeetsSpecs }
{
    groups_meet_specs();
    automatic_meets_spec();
    search_meets_spec();
}

/// All of these routines are well formed.
pub fn trying_is_formed()
    ensures { TryingFormed }
{}

/// No two routines of groups have one name.
pub fn groups_are_distinct()
    ensures { GroupsAreDistinct }
{}

/// Each group has its routine.
pub fn groups_are_there()
    ensures { GroupsAreThere }
{}

/// A routine that has the name of a group is the routine of a group.
pub fn groups_alone()
    ensures { GroupsAlone }
{}

/// Each group is called at one place: in the automatic step, or in the case of its verb.
pub fn groups_are_called_once()
    ensures { GroupsAreCalledOnce }
{}

/// Groups alone call lines.
pub fn groups_call_lines()
    ensures { GroupsCallLines }
{}

/// Where the names that they take for granted are known, none of these routines has a fault.
pub fn trying_is_faultless()
    ensures { TryingIsFaultless }
{
    lines_have_words();
}
