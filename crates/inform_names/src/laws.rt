//! The laws of names. Each is the contract of a function that does nothing else.
ghost use Rattle.inform_names.specs.Places.{FirstOfTheList};
ghost use Rattle.inform_names.specs.Laws.{MeaningsAreOfDirectives, MeaningsAreFirst, EarlierMeaningsStay, DirectivesAreFaultless, NamesMeanTheirDirectives, ConstantsHaveWords, FineConstantsHaveWords, ArraysHaveLengths, ArraysMeanThemselves, GlobalsAreFine, EntriesAreFine, BodiesAreFine, RoutinesAreShallow, MainIsARoutine, FaultlessPlacesAreFine, CallsAreKnown, ArraysAreKnown, ConstantsAreKnown, ValuesAreKnown, VariablesAreKnown};

// ---- meanings

/// Each meaning is that of a directive of the program.
pub fn meanings_are_of_directives()
    ensures { MeaningsAreOfDirectives }
{}

/// The directive that a name means is the first one with it.
pub fn meanings_are_first()
    ensures { MeaningsAreFirst }
{}

/// What the directives before one say of a name, the whole program says too.
pub fn earlier_meanings_stay()
    ensures { EarlierMeaningsStay }
{}

// ---- accepted programs

/// No directive of an accepted program has a fault.
pub fn directives_are_faultless()
    ensures { DirectivesAreFaultless }
{}

/// In an accepted program the name of each directive means that directive.
pub fn names_mean_their_directives()
    ensures { NamesMeanTheirDirectives }
{}

/// Each constant of an accepted program has a word.
pub fn constants_have_words()
    ensures { ConstantsHaveWords }
{}

/// In an accepted program, what stands where a constant is demanded has a word.
pub fn fine_constants_have_words()
    ensures { FineConstantsHaveWords }
{}

/// Each array of an accepted program has a length in 1..32767.
pub fn arrays_have_lengths()
    ensures { ArraysHaveLengths }
{}

/// In an accepted program the name of an array is that of an array of its kind.
pub fn arrays_mean_themselves()
    ensures { ArraysMeanThemselves }
{}

/// What the globals of an accepted program begin with is fine.
pub fn globals_are_fine()
    ensures { GlobalsAreFine }
{}

/// The entries of the arrays of an accepted program are fine.
pub fn entries_are_fine()
    ensures { EntriesAreFine }
{}

/// Each place in the routines of an accepted program is fine.
pub fn bodies_are_fine()
    ensures { BodiesAreFine }
{}

/// No routine of an accepted program is deeper than 64.
pub fn routines_are_shallow()
    ensures { RoutinesAreShallow }
{}

/// In an accepted program `main` is a routine without locals.
pub fn main_is_a_routine()
    ensures { MainIsARoutine }
{}

// ---- places

/// The first fault is that of the first place, of all in their order, that has one.
pub fn first_of_the_list()
    ensures { FirstOfTheList }
{}

/// Where no place has a fault, each place is fine.
pub fn faultless_places_are_fine()
    ensures { FaultlessPlacesAreFine }
{}

/// A called name is that of a routine that takes the arguments.
pub fn calls_are_known()
    ensures { CallsAreKnown }
{}

/// The name of an array is that of an array of the kind.
pub fn arrays_are_known()
    ensures { ArraysAreKnown }
{}

/// The name of a constant is that of a constant.
pub fn constants_are_known()
    ensures { ConstantsAreKnown }
{}

/// The name of a value that is no local is that of a constant or a global.
pub fn values_are_known()
    ensures { ValuesAreKnown }
{}

/// The name of a variable that is no local is that of a global.
pub fn variables_are_known()
    ensures { VariablesAreKnown }
{}
