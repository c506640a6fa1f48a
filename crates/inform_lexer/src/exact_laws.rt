//! That tokens and faults are exactly those that are spelled.
ghost use Rattle.inform_lexer.specs.Laws.{TokensAreExact, FaultIsExact};

/// Tokens are read exactly where they are spelled, and a fault is found exactly where it is the
/// first one.
pub fn exact_laws()
    ensures tokens_are_exact { TokensAreExact }
    ensures fault_is_exact { FaultIsExact }
{}
