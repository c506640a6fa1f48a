//! Worked routines, written as codes and spelled out as trees. Each law is the contract of a
//! function that does nothing, and is proved by computing.
ghost use Rattle.inform_codes.specs.Worked.{CarriedGrown, CarriedDepth, CarriedIsBody, AnswerGrown, RoutinesListed, RoutinesFormed, MessageGrown, CallGrown, ForkGrown};

use crate::codes::Code;
use crate::inform;
use crate::tables::Row;
use inform_tree::SumOp;

/// Names of routines, variables and arrays, and a text.
pub const NAMES: [&[u8]; 9] = [
    b"carried", b"i", b"n", b"item", b"answer", b"x", b"say", b"flag", b"Well?",
];

// Places in the names.
const CARRIED_NAME: usize = 0;

const I: usize = 1;

const N: usize = 2;

const ITEM: usize = 3;

const ANSWER_NAME: usize = 4;

const X: usize = 5;

const SAY: usize = 6;

const FLAG: usize = 7;

const WELL: usize = 8;

/// How many items are carried, where the highest one is handed in.
pub const CARRIED: [Code; 17] = inform! {
    for (I = 0; I <= [0]) { if ((ITEM-->I) == 255) { N++; } }
    return N;
};

/// A switch within a switch:
///
/// `switch (x) { 1, 3 to 5: switch (n) { 2: rtrue; } default: say(x - 1, n); }`
/// `flag->n = x; print "Well?";`
pub const ANSWER: [Code; 28] = [
    Code::Switch,
    Code::Variable(X),
    Code::Case,
    Code::Choice(1),
    Code::Range(3, 5),
    Code::Switch,
    Code::Variable(N),
    Code::Case,
    Code::Choice(2),
    Code::Rtrue,
    Code::End,
    Code::NoDefault,
    Code::End,
    Code::Default,
    Code::Call(SAY),
    Code::Argument,
    Code::Sum(SumOp::Sub),
    Code::Variable(X),
    Code::Number(1),
    Code::Argument,
    Code::Variable(N),
    Code::NoMore,
    Code::End,
    Code::SetEntry(FLAG, false),
    Code::Variable(N),
    Code::Variable(X),
    Code::Print(WELL),
    Code::End,
];

/// Both as a table, each with its locals.
pub const ROUTINES: [Row<'static>; 2] = [
    (CARRIED_NAME, &[I, N], &CARRIED),
    (ANSWER_NAME, &[X, N], &ANSWER),
];

/// A text that is handed in is said: `print "..."; new_line;`
pub const MESSAGE: [Code; 3] = [Code::Print(0), Code::NewLine, Code::End];

/// A call before other statements: `f();`
pub const CALL: [Code; 2] = [Code::Call(0), Code::NoMore];

/// A choice by what a call of a number gives, whose blocks are handed in: `if (f(7)) .. else ..`
pub const FORK: [Code; 6] = [
    Code::If,
    Code::Nonzero,
    Code::CallValue(0),
    Code::Argument,
    Code::Given(0),
    Code::NoMore,
];

/// Items are counted by a loop over their places.
#[tactic(auto, unfolding(crate::specs::Grown::body_of))]
pub fn carried_grown()
    ensures { CarriedGrown }
{}

/// How deep that is.
#[tactic(auto, unfolding(crate::specs::Grown::body_of))]
pub fn carried_depth()
    ensures { CarriedDepth }
{}

/// Its codes are a body, and leave nothing else.
#[tactic(auto, unfolding(crate::specs::Grown::body_of))]
pub fn carried_is_body()
    ensures { CarriedIsBody }
{}

/// The inner switch has its own cases.
#[tactic(auto, unfolding(crate::specs::Grown::body_of))]
pub fn answer_grown()
    ensures { AnswerGrown }
{}

/// A routine is taken out of a table with its codes, which aren't grown for that.
pub fn routines_listed()
    ensures { RoutinesListed }
{}

/// A table is well formed where the numbers that are handed in may stand in a program.
#[tactic(auto, using(crate::proofs::Computed::routines_formed))]
pub fn routines_formed()
    ensures { RoutinesFormed }
{}

/// A text of a game is a name that is handed in.
#[tactic(auto, unfolding(crate::specs::Grown::body_of))]
pub fn message_grown()
    ensures { MessageGrown }
{}

/// A statement before others.
#[tactic(auto, unfolding(crate::specs::Grown::before_of))]
pub fn call_grown()
    ensures { CallGrown }
{}

/// Two branches that are handed in, and what follows them.
#[tactic(auto, unfolding(crate::specs::Grown::fork_of))]
pub fn fork_grown()
    ensures { ForkGrown }
{}
