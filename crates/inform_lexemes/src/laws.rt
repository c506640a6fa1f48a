//! The laws of lexemes. Each is the contract of a function that does nothing else.
ghost use Rattle.inform_lexemes.specs.Laws.{SymbolsTold, KeywordsTold, SymbolsListed, KeywordsListed};

/// A lexeme that passes the test for a symbol is that symbol.
pub fn symbols_told()
    ensures { SymbolsTold }
{}

/// A lexeme that passes the test for a word of the grammar is that word.
pub fn keywords_told()
    ensures { KeywordsTold }
{}

/// 28 symbols are looked for: these, and no others.
pub fn symbols_listed()
    ensures { SymbolsListed }
{}

/// The grammar has 23 words: these, and no others.
pub fn keywords_listed()
    ensures { KeywordsListed }
{}
