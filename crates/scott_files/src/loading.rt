//! Reading a database from its file. No more of the file than a piece is there at a time.
ghost use Rattle.std.specs.Prelude.{◌≡◌, ◌<◌, ◌≤◌, ◌+◌, [], length};
ghost use Rattle.scott_format.specs.Readers.{HasRead, bytes_fed};
ghost use Rattle.scott_files.specs.Pieces.{HasFirst, LoadsPiece, ReadsPiece};
ghost use Rattle.scott_files.specs.Loading.{LoadsDb};

use adv_io::{Shelf, ShelfFault};
use scott_format::{DATABASE_LIMIT, DbReader, FormatFault};
use scott_types::Db;
use std::alloc::Global;

/// The bytes of a piece. Only the last one of a file has fewer.
pub const PIECE_SIZE: usize = 8_192;

// Loads the piece from this place on, and answers how many bytes it has.
fn load_piece<S: Shelf>(
    name: &str,
    at: usize,
    piece: &mut [u8],
    shelf: &mut S,
) -> Result<usize, ShelfFault>
    requires room { 0 < length piece.old }
    requires within { at ≤ DATABASE_LIMIT }
    ensures { LoadsPiece (S.seen shelf.old) (S.seen shelf.new) name.now at piece.old piece.new
        result }
{
    let count = shelf.load_part(name, at, piece)?;
    if DATABASE_LIMIT - at < count {
        return Err(ShelfFault::TooLong(at as u64 + count as u64));
    }
    Ok(count)
}

// Loads the piece after those that were fed, feeds it, and answers how many bytes it has.
fn read_piece<S: Shelf>(
    alloc: Global,
    name: &str,
    at: usize,
    piece: &mut [u8],
    reader: &mut DbReader,
    shelf: &mut S,
) -> Result<usize, ShelfFault>
    requires room { 0 < length piece.old }
    requires fed { bytes_fed reader.old ≡ at }
    requires first { HasFirst (S.seen shelf.old).files name.now reader.old }
    ensures { ReadsPiece (S.seen shelf.old) (S.seen shelf.new) name.now (length piece.old)
        reader.old reader.new result }
{
    let count = load_piece(name, at, piece, shelf)?;
    match reader.feed(alloc, &piece[..count]) {
        Ok(()) => Ok(count),
        Err(_) => Err(ShelfFault::Memory),
    }
}

// Feeds the whole file to a reader that was fed nothing, in pieces of as many bytes as there is
// room for. After the first fault the reader drops what it is fed.
fn read_pieces<S: Shelf>(
    alloc: Global,
    name: &str,
    piece: &mut [u8],
    reader: DbReader,
    shelf: &mut S,
) -> Result<Result<Db, FormatFault>, ShelfFault>
    requires room { 0 < length piece.old }
    requires unfed { bytes_fed reader ≡ 0 }
    requires none { HasRead reader [] }
    ensures { LoadsDb (S.seen shelf.old) (S.seen shelf.new) name.now result }
{
    let mut reader = reader;
    let mut at = 0;
    loop {
        let count = read_piece(alloc, name, at, piece, &mut reader, shelf)?;
        if count < piece.len() {
            return Ok(reader.finish());
        }
        at += count;
    }
}

/// Reads the database that a file has, or finds the first fault of its bytes. All of the file is
/// loaded before either is answered.
///
/// The faults of the shelf are those of `Shelf::load` with the limit of a database's text. A file
/// that changes between two pieces is read as the pieces come.
pub fn load_db<S: Shelf>(
    alloc: Global,
    name: &str,
    shelf: &mut S,
) -> Result<Result<Db, FormatFault>, ShelfFault>
    ensures { LoadsDb (S.seen shelf.old) (S.seen shelf.new) name.now result }
{
    let Ok(reader) = DbReader::new(alloc) else {
        return Err(ShelfFault::Memory);
    };
    match vec![in alloc; 0; PIECE_SIZE] {
        Ok(mut piece) => read_pieces(alloc, name, &mut piece, reader, shelf),
        Err(_) => Err(ShelfFault::Memory),
    }
}
