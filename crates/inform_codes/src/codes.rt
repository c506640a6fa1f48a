//! The codes of a routine.
use inform_tree::{ProdOp, Relation, SumOp};

/// A code: one node of a tree. The codes of a tree stand in the order in which one reads it, each
/// node before its parts.
///
/// A name is a place in the list of names that is handed in with the codes. What isn't there is the
/// number 0, an empty name, an empty block or no case.
#[derive(Clone, Copy)]
pub enum Code {
    Number(u32),
    /// The number that is handed in at this place.
    Given(usize),
    /// The value of the constant, the global or the local of this name.
    Variable(usize),
    /// An entry of an array, of `-->` where the truth value is true; its index follows.
    Entry(usize, bool),
    /// What a call gives; its arguments follow.
    CallValue(usize),
    /// Of the value that follows.
    Random,
    /// Of the value that follows.
    Neg,
    /// Of the two values that follow.
    Sum(SumOp),
    /// Of the two values that follow.
    Product(ProdOp),

    /// An argument of a call: its value follows, and then the further arguments.
    Argument,
    /// The end of the arguments of a call.
    NoMore,

    /// Of the two values that follow.
    Compare(Relation),
    /// Whether the value that follows isn't 0.
    Nonzero,
    /// The opposite of the condition that follows.
    Not,
    /// Whether both conditions that follow hold.
    Both,
    /// Whether one of the two conditions that follow holds.
    Either,

    /// The variable of this name is set to the value that follows.
    Set(usize),
    /// An entry of an array is set; its index and the value follow.
    SetEntry(usize, bool),
    Inc(usize),
    Dec(usize),
    /// A call by itself; its arguments follow.
    Call(usize),
    /// Its condition follows, and then two blocks, each with its end.
    If,
    /// Its condition follows, and then a block.
    While,
    /// The variable of this name counts up by 1: its first value follows, the condition of each
    /// turn, and a block.
    For(usize),
    /// Its value follows, and then its cases.
    Switch,
    Break,
    Quit,
    Rtrue,
    Rfalse,
    /// The value that follows is returned.
    Return,
    NewLine,
    /// The text of this name is said.
    Print(usize),
    /// The value that follows is said in decimal.
    PrintValue,
    /// The value that follows is said as a character.
    PrintChar,
    /// A line is read into the arrays of these names.
    Read(usize, usize),
    /// The end of a block.
    End,

    /// A case of a switch: its choices follow, then a block, and then the further cases.
    Case,
    /// A number for which a case is taken.
    Choice(u32),
    /// The first and the last one of the numbers for which a case is taken.
    Range(u32, u32),
    /// The end of the cases of a switch. A block follows, which is done where no case fits.
    Default,
    /// The end of the cases of a switch.
    NoDefault,
}
