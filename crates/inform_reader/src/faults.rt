//! Why a text is no accepted program.
use inform_lexer::LexFault;
use inform_names::NameFault;
use inform_parser::ParseFault;

/// The first thing that is wrong with a text. docs/INFORM.md says for each where it stands.
#[derive(Drop)]
pub enum ProgramFault {
    /// The bytes have no tokens.
    NoTokens(LexFault),
    /// The tokens are no sentence.
    NoSentence(ParseFault),
    /// A name, a number or a size is wrong.
    NotAccepted(NameFault),
    /// There is no memory for the program.
    Memory,
}
