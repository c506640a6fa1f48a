//! The tables against the lists of the profile.
use crate::expect;
use inform_lexemes::{Keyword, Symbol};

// The symbols as the profile lists them, the longest of those that begin alike last.
const SYMBOLS: &str = "; , : ( ) { } [ ] = == ~= < > <= >= && || ~~ + - * / % -> --> ++ --";

// The words that its grammar has in quotes or bare.
const KEYWORDS: &str =
    "array break char constant continue default do else for global if new_line print \
    quit random read return rfalse rtrue switch to until while";

#[test]
fn symbols_are_spelled(rt: HostRuntime) {
    let mut count: u32 = 0;
    for text in SYMBOLS.split(' ') {
        count = count.saturating_add(1);
        let found = Symbol::spelled(text.as_bytes()).map(|symbol| symbol.spelling());
        expect!(rt; found == Some(text.as_bytes()), text);
    }
    expect!(rt; count == 28);
    expect!(rt; Symbol::spelled(b"<>").is_none());
}

#[test]
fn keywords_are_spelled(rt: HostRuntime) {
    let mut count: u32 = 0;
    for text in KEYWORDS.split(' ') {
        if !text.is_empty() {
            count = count.saturating_add(1);
            let found = Keyword::spelled(text.as_bytes()).map(|keyword| keyword.spelling());
            expect!(rt; found == Some(text.as_bytes()), text);
        }
    }
    expect!(rt; count == 23);
    expect!(rt; Keyword::spelled(b"box").is_none());
}
