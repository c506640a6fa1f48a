//! Worked examples of printed texts, judged by hand. Each is the contract of a function that does
//! nothing, and is proved by computing.
ghost use Rattle.inform_printer.specs.Worked.{ChainsPrinted, OperandsPrinted, ConditionsPrinted, ElsePrinted, CasesPrinted, TextsPrinted, ProgramPrinted};

/// A part of a chain stands in brackets where it is a chain itself.
#[tactic(auto, using(crate::proofs::Examples::chains_printed))]
pub fn chains_printed()
    ensures { ChainsPrinted }
{}

/// So does an operand, or an index.
#[tactic(auto, using(crate::proofs::Examples::operands_printed))]
pub fn operands_printed()
    ensures { OperandsPrinted }
{}

/// Conditions that are joined stand in brackets among others.
#[tactic(auto, using(crate::proofs::Examples::conditions_printed))]
pub fn conditions_printed()
    ensures { ConditionsPrinted }
{}

/// An `else` without a statement isn't printed, and belongs to the `if` of its braces.
#[tactic(auto, using(crate::proofs::Examples::else_printed))]
pub fn else_printed()
    ensures { ElsePrinted }
{}

/// A case has its choices, and the default stands last.
#[tactic(auto, using(crate::proofs::Examples::cases_printed))]
pub fn cases_printed()
    ensures { CasesPrinted }
{}

/// A digit after an escape is escaped too.
#[tactic(auto, using(crate::proofs::Examples::texts_printed))]
pub fn texts_printed()
    ensures { TextsPrinted }
{}

/// Directives stand in their order, each with its name, its locals and its entries.
#[tactic(auto, using(crate::proofs::Examples::program_printed))]
pub fn program_printed()
    ensures { ProgramPrinted }
{}
