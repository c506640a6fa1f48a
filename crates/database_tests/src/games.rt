//! Games for the tests, read from the text of their files.
use crate::expect;
use scott_format::{DATABASE_LIMIT, FormatFault, read_db};
use scott_types::Db;
use std::process::Abort;

/// These pieces, one after another.
pub fn joined<R: Abort + AllocGlobal>(rt: &R, pieces: &[&[u8]]) -> Vec<u8> {
    pieces.concat(rt.alloc()).expect(rt, "memory")
}

/// The game whose file has these pieces, one after another, or why it is none.
pub fn read<R: Abort + AllocGlobal>(rt: &R, pieces: &[&[u8]]) -> Result<Db, FormatFault> {
    let text = joined(rt, pieces);
    expect!(rt; text.len() <= DATABASE_LIMIT);
    read_db(rt.alloc(), &text)
}

/// The game whose file has these pieces, one after another.
pub fn game<R: Abort + AllocGlobal>(rt: &R, pieces: &[&[u8]]) -> Db {
    read(rt, pieces).expect(rt, "a game")
}
