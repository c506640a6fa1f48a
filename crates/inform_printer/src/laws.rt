//! The laws of printed programs. Each is the contract of a function that does nothing else.
ghost use Rattle.inform_printer.specs.Laws.{PrintedIsSentence, PrintedReadsBack};

use inform_lexer::laws::text_reads_back;

/// The lexemes of a well-formed program are a sentence of it, with no more openers than the limit.
pub fn printed_is_sentence()
    ensures { PrintedIsSentence }
{}

/// The printed text of a well-formed program is a text of that program.
pub fn printed_reads_back()
    ensures { PrintedReadsBack }
{
    text_reads_back();
}
