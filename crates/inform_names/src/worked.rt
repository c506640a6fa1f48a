//! Worked examples of limits, words and programs. Each is the contract of a function that does
//! nothing, and is proved by computing.
ghost use Rattle.inform_names.specs.Worked.{LimitsListed, WordsJudged, ConstantsUseEarlierOnes, GlobalsUseConstants, SecondIsTwice, LengthsJudged, EntriesCounted, ArraysInTheirPlaces, LocalsCounted, ArgumentsCounted, LocalsHide, MainsJudged, DepthsJudged, LoopsLeft, WidthsJudged, LeftmostFirst};

/// What a program may have at most.
pub fn limits_listed()
    ensures { LimitsListed }
{}

/// A number stands for the word of its lowest bits.
pub fn words_judged()
    ensures { WordsJudged }
{}

/// A constant's value uses earlier constants alone.
pub fn constants_use_earlier_ones()
    ensures { ConstantsUseEarlierOnes }
{}

/// A global begins with a number, a character or a constant.
pub fn globals_use_constants()
    ensures { GlobalsUseConstants }
{}

/// The second directive or local of a name is refused at its name.
pub fn second_is_twice()
    ensures { SecondIsTwice }
{}

/// A call has at most as many arguments as its routine has locals.
pub fn arguments_counted()
    ensures { ArgumentsCounted }
{}

/// A local hides what else its name means.
pub fn locals_hide()
    ensures { LocalsHide }
{}

/// An array is no value.
pub fn arrays_in_their_places()
    ensures { ArraysInTheirPlaces }
{}

/// A `break` has a loop as its nearest loop or `switch`, and a `continue` is in a loop.
pub fn loops_left()
    ensures { LoopsLeft }
{}

/// A length is in 1..32767.
pub fn lengths_judged()
    ensures { LengthsJudged }
{}

/// Numbers have 16 bits where words have.
pub fn widths_judged()
    ensures { WidthsJudged }
{}

/// A program has a routine `main`, without locals.
pub fn mains_judged()
    ensures { MainsJudged }
{}

/// A routine has at most 15 locals.
pub fn locals_counted()
    ensures { LocalsCounted }
{}

/// The leftmost fault is the first.
pub fn leftmost_first()
    ensures { LeftmostFirst }
{}

/// All arrays together have at most 4,000,000 entries.
pub fn entries_counted()
    ensures { EntriesCounted }
{}

/// No routine is deeper than 64.
pub fn depths_judged()
    ensures { DepthsJudged }
{}
