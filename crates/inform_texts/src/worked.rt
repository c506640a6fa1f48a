//! Worked examples of texts and faults, judged by hand. Each is the contract of a function that
//! does nothing, and is proved by computing.
ghost use Rattle.inform_texts.specs.Worked.{LayoutLeavesNoTrace, FaultsPlaced};

/// Capitals, blanks, the base of a number and a comment leave no trace in the program.
#[tactic(auto, using(crate::proofs::Examples::layout_leaves_no_trace))]
pub fn layout_leaves_no_trace()
    ensures { LayoutLeavesNoTrace }
{}

/// A fault of the grammar stands at the first byte of a token, and at the end after its blanks.
#[tactic(auto, using(crate::proofs::Examples::faults_placed))]
pub fn faults_placed()
    ensures { FaultsPlaced }
{}
