//! Worked examples of sentences and of faults. Each is the contract of a function that does
//! nothing, and is proved by computing.
ghost use Rattle.inform_grammar.specs.Worked.{ChainsRead, EntriesRead, ElseIsNearest, BracketsRead, CasesRead, ItemsRead, LoopsRead, DirectivesRead, ConditionsAreNoValues, MixedJudged, EndsJudged, RoomJudged, LimitListed, LimitJudged};

/// Sums and products are chains, and a bracket begins a chain of its own.
#[tactic(auto, using(crate::proofs::Examples::chains_read))]
pub fn chains_read()
    ensures { ChainsRead }
{}

/// An entry of an array is an operand, but not of a minus sign.
#[tactic(auto, using(crate::proofs::Examples::entries_read))]
pub fn entries_read()
    ensures { EntriesRead }
{}

/// An `else` belongs to the nearest `if`.
#[tactic(auto, using(crate::proofs::Examples::else_is_nearest))]
pub fn else_is_nearest()
    ensures { ElseIsNearest }
{}

/// A value in brackets stays a value, and a condition in brackets is a condition.
#[tactic(auto, using(crate::proofs::Examples::brackets_read))]
pub fn brackets_read()
    ensures { BracketsRead }
{}

/// In a `switch` a name begins a case where `:`, `,` or `to` follows it.
#[tactic(auto, using(crate::proofs::Examples::cases_read))]
pub fn cases_read()
    ensures { CasesRead }
{}

/// `(char)` is no value in brackets.
#[tactic(auto, using(crate::proofs::Examples::items_read))]
pub fn items_read()
    ensures { ItemsRead }
{}

/// Everything in the head of a `for` may be left out.
#[tactic(auto, using(crate::proofs::Examples::loops_read))]
pub fn loops_read()
    ensures { LoopsRead }
{}

/// A program may have no directive, and an entry with a minus sign has brackets.
#[tactic(auto, using(crate::proofs::Examples::directives_read))]
pub fn directives_read()
    ensures { DirectivesRead }
{}

/// A condition is no value, and no part of one.
#[tactic(auto, using(crate::proofs::Examples::conditions_are_no_values))]
pub fn conditions_are_no_values()
    ensures { ConditionsAreNoValues }
{}

/// `&&` and `||` don't stand in one chain.
#[tactic(auto, using(crate::proofs::Examples::mixed_judged))]
pub fn mixed_judged()
    ensures { MixedJudged }
{}

/// A text that ends too early has its fault at its end.
#[tactic(auto, using(crate::proofs::Examples::ends_judged))]
pub fn ends_judged()
    ensures { EndsJudged }
{}

/// An opener for which there is no room is a fault.
#[tactic(auto, using(crate::proofs::Examples::room_judged))]
pub fn room_judged()
    ensures { RoomJudged }
{}

/// The limit of openers is 200.
pub fn limit_listed()
    ensures { LimitListed }
{}

/// 200 openers may be open, and no more.
#[tactic(auto, using(crate::proofs::Examples::limit_judged))]
pub fn limit_judged()
    ensures { LimitJudged }
{}
