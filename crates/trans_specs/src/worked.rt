//! Worked tables, views, lines and numbers. Each is the contract of a function that does nothing,
//! and is proved by computing it.
ghost use Rattle.trans_specs.specs.Worked.{HillTables, ItemTables, OddTables, HillOpens, LaterOpens, FullHandsLine, NotCarriedLine, ChanceLine, ChanceGroups, EmptyTail, CallsCounted, NamesRead, NumbersWide, StepsCounted, HillIsShaped, DeadLineIsRefused};

/// The tables of the hall and the hill.
pub fn hill_tables()
    ensures { HillTables }
{}

/// The tables of items with words, and of a treasure.
pub fn item_tables()
    ensures { ItemTables }
{}

/// The tables of synonyms, of words that are alike, and of words that can't be typed.
pub fn odd_tables()
    ensures { OddTables }
{}

/// A game that opens shows its first state.
pub fn hill_opens()
    ensures { HillOpens }
{}

/// A game that opens after a prompt shows the state that it is given.
pub fn later_opens()
    ensures { LaterOpens }
{}

/// A get that may be refused has two branches after it.
pub fn full_hands_line()
    ensures { FullHandsLine }
{}

/// A condition refuses the line where it doesn't hold.
pub fn not_carried_line()
    ensures { NotCarriedLine }
{}

/// A line that goes on gives 2.
pub fn chance_line()
    ensures { ChanceLine }
{}

/// Groups with and without a tail.
pub fn chance_groups()
    ensures { ChanceGroups }
{}

/// A tail that is all zeros is none.
pub fn empty_tail()
    ensures { EmptyTail }
{}

/// The places at which a routine is called.
pub fn calls_counted()
    ensures { CallsCounted }
{}

/// Which names are those of lines.
pub fn names_read()
    ensures { NamesRead }
{}

/// The first number that is too wide.
pub fn numbers_wide()
    ensures { NumbersWide }
{}

/// The steps of the hall and the hill.
pub fn steps_counted()
    ensures { StepsCounted }
{}

/// A game without lines that do anything, and its shape.
pub fn hill_is_shaped()
    ensures { HillIsShaped }
{}

/// A routine that is named as a line and is none of the game's has no place in it.
pub fn dead_line_is_refused()
    ensures { DeadLineIsRefused }
{}
