//! Worked examples of runs. Each is the contract of a function that does nothing, and is proved by
//! computing.
ghost use Rattle.inform_meaning.specs.Worked.{DivisionTraps, StepsAreSpent, CallsNest, WordsWrap, DivisionGoesTowardZero, ChainsGoFromTheLeft, IndexIsTestedLast, LoopsAreLeft, BodyComesFirst, OneCaseIsDone, DrawsAreTaken, LinesAreKept, QuitEndsTheRun, RoutinesGiveValues, LocalsHide, RoutinesAreNoted, AbsentTestsTakeAStep, ContinueGoesToTheTest, RandomBelowOneTraps, ShortBuffersTrap, BytesAreLow, CharactersAreLow};

/// A division by 0 is a trap, in the routine that divides.
#[tactic(auto, using(crate::proofs::Examples::division_traps))]
pub fn division_traps()
    ensures { DivisionTraps }
{}

/// A loop without end uses all its steps.
#[tactic(auto, using(crate::proofs::Examples::steps_are_spent))]
pub fn steps_are_spent()
    ensures { StepsAreSpent }
{}

/// 200 calls may be open inside one another, and one more is a trap in the routine that calls.
#[tactic(auto, using(crate::proofs::Examples::calls_nest))]
pub fn calls_nest()
    ensures { CallsNest }
{}

/// Words wrap at their width.
#[tactic(auto, using(crate::proofs::Examples::words_wrap))]
pub fn words_wrap()
    ensures { WordsWrap }
{}

/// A quotient goes toward zero, and a remainder has the sign of the dividend.
#[tactic(auto, using(crate::proofs::Examples::division_goes_toward_zero))]
pub fn division_goes_toward_zero()
    ensures { DivisionGoesTowardZero }
{}

/// A chain is done operator by operator: a division by 0 comes before the call after it.
#[tactic(auto, using(crate::proofs::Examples::chains_go_from_the_left))]
pub fn chains_go_from_the_left()
    ensures { ChainsGoFromTheLeft }
{}

/// The value that is stored is evaluated before the index is tested.
#[tactic(auto, using(crate::proofs::Examples::index_is_tested_last))]
pub fn index_is_tested_last()
    ensures { IndexIsTestedLast }
{}

/// `continue` goes to the change of a loop, and `break` ends it.
#[tactic(auto, using(crate::proofs::Examples::loops_are_left))]
pub fn loops_are_left()
    ensures { LoopsAreLeft }
{}

/// The test of a `for` without a condition takes a step too.
#[tactic(auto, using(crate::proofs::Examples::absent_tests_take_a_step))]
pub fn absent_tests_take_a_step()
    ensures { AbsentTestsTakeAStep }
{}

/// `continue` goes to the test of `while` and of `do`.
#[tactic(auto, using(crate::proofs::Examples::continue_goes_to_the_test))]
pub fn continue_goes_to_the_test()
    ensures { ContinueGoesToTheTest }
{}

/// The body of `do` is done before its test.
#[tactic(auto, using(crate::proofs::Examples::body_comes_first))]
pub fn body_comes_first()
    ensures { BodyComesFirst }
{}

/// A `switch` does the first case that fits, and no other.
#[tactic(auto, using(crate::proofs::Examples::one_case_is_done))]
pub fn one_case_is_done()
    ensures { OneCaseIsDone }
{}

/// `random` takes a draw, and waits for one where none is left.
#[tactic(auto, using(crate::proofs::Examples::draws_are_taken))]
pub fn draws_are_taken()
    ensures { DrawsAreTaken }
{}

/// `random` of a number below 1 is a trap.
#[tactic(auto, using(crate::proofs::Examples::random_below_one_traps))]
pub fn random_below_one_traps()
    ensures { RandomBelowOneTraps }
{}

/// A buffer with fewer entries than its first one and two is a trap.
#[tactic(auto, using(crate::proofs::Examples::short_buffers_trap))]
pub fn short_buffers_trap()
    ensures { ShortBuffersTrap }
{}

/// `read` keeps as many bytes of a line as its buffer has room for.
#[tactic(auto, using(crate::proofs::Examples::lines_are_kept))]
pub fn lines_are_kept()
    ensures { LinesAreKept }
{}

/// An array of bytes keeps the low 8 bits of what is listed and of what is stored.
#[tactic(auto, using(crate::proofs::Examples::bytes_are_low))]
pub fn bytes_are_low()
    ensures { BytesAreLow }
{}

/// `(char)` says the low 8 bits of a value, of a negative one too.
#[tactic(auto, using(crate::proofs::Examples::characters_are_low))]
pub fn characters_are_low()
    ensures { CharactersAreLow }
{}

/// `quit` ends the run in a routine that was called.
#[tactic(auto, using(crate::proofs::Examples::quit_ends_the_run))]
pub fn quit_ends_the_run()
    ensures { QuitEndsTheRun }
{}

/// A routine gives 1 at its end, by `return` and by `rtrue`, 0 by `rfalse`, and else the value that
/// it returns.
#[tactic(auto, using(crate::proofs::Examples::routines_give_values))]
pub fn routines_give_values()
    ensures { RoutinesGiveValues }
{}

/// A local hides the global of its name.
#[tactic(auto, using(crate::proofs::Examples::locals_hide))]
pub fn locals_hide()
    ensures { LocalsHide }
{}

/// A routine is noted each time it is entered, unless its body is empty.
#[tactic(auto, using(crate::proofs::Examples::routines_are_noted))]
pub fn routines_are_noted()
    ensures { RoutinesAreNoted }
{}
