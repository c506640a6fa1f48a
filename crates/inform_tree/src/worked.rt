//! Worked examples of tables, names, depths and shapes. Each is the contract of a function that
//! does nothing, and is proved by computing.
ghost use Rattle.inform_tree.specs.Worked.{ReservedWordsListed, SpecialBytesListed, LimitsListed, NamesJudged, LongNamesJudged, CharactersJudged, TestCounts, ChangesCountNothing, DepthLimitJudged, ChainsJudged, EmptyListsRefused};

/// 55 words are reserved: these, and no others.
pub fn reserved_words_listed()
    ensures { ReservedWordsListed }
{}

/// Six printable bytes have a meaning of their own.
pub fn special_bytes_listed()
    ensures { SpecialBytesListed }
{}

/// The limits of a name and of a routine.
pub fn limits_listed()
    ensures { LimitsListed }
{}

/// Letters in lower case, digits and underscores are a name, where no digit is first and no word is
/// reserved.
pub fn names_judged()
    ensures { NamesJudged }
{}

/// A name has at most 32 bytes.
pub fn long_names_judged()
    ensures { LongNamesJudged }
{}

/// A character is a printable byte that means nothing else.
pub fn characters_judged()
    ensures { CharactersJudged }
{}

/// A condition counts, and the value in it counts too.
pub fn test_counts()
    ensures { TestCounts }
{}

/// A change and an item of `print` count nothing themselves.
pub fn changes_count_nothing()
    ensures { ChangesCountNothing }
{}

/// Depth 64 is well formed, and depth 65 isn't.
pub fn depth_limit_judged()
    ensures { DepthLimitJudged }
{}

/// A chain has a part after its first one.
pub fn chains_judged()
    ensures { ChainsJudged }
{}

/// Entries, items and choices aren't empty.
pub fn empty_lists_refused()
    ensures { EmptyListsRefused }
{}
