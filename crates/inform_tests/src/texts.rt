//! Programs for the tests, by their texts.
use inform_lexer::tokens;
use inform_parser::parse;
use inform_tree::Program;
use std::process::Abort;

/// The program of a text.
pub fn program_of<R: Abort + AllocGlobal>(rt: &R, text: &[u8]) -> Program {
    let read = tokens(rt.alloc(), text).expect(rt, "tokens");
    parse(rt.alloc(), read, text).expect(rt, "a program")
}

/// These parts, one after another.
pub fn joined<R: Abort + AllocGlobal>(rt: &R, parts: &[&str]) -> String {
    parts.concat(rt.alloc()).expect(rt, "memory")
}

/// Puts a text so many times after another one.
pub fn put_many(rt: &impl Abort, whole: &mut String, text: &str, count: u32) {
    for _ in 0..count {
        whole.push_str(text).expect(rt, "memory");
    }
}
