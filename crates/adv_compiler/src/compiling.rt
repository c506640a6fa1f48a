//! The database that a source means.
ghost use Rattle.std.specs.Prelude.{◌≡◌, ◌≤◌, Ok, Err, IfOk, IsTrue, map};
ghost use Rattle.adv_io.specs.Answers.{IsErrOr};
ghost use Rattle.std.specs.List.{list_all};
ghost use Rattle.scott_types.specs.Database.{Database, database_of};
ghost use Rattle.scott_types.specs.Limits.{is_file_text, is_trailer, are_header_numbers, KeepsLimits};
ghost use Rattle.source_reader.specs.WellFormed.{all_of, is_line_part, WellFormed};
ghost use Rattle.adv_compiler.specs.Faults.{Fault, fault_answer, Gives};
ghost use Rattle.adv_compiler.specs.Index.{known_in};
ghost use Rattle.adv_compiler.specs.Meaning.{IsHeader, header_of, trailer_of, meaning, meant, IsDb};

use crate::faults::CompileFault;
use crate::headers::{Numbers, header};
use crate::lists::list_of;
use crate::tables::Tables;
use crate::texts::text_of;
use crate::values::number_fits;
use scott_types::{Action, Db, Header, Item, Parts, Room, Text, Trailer, Word};
use source_reader::{At, LinePart, Source};
use std::alloc::Global;

// The comments of the lines.
fn comments(alloc: Global, lines: &[At<LinePart>]) -> Result<Vec<Text>, CompileFault>
    requires { IsTrue (all_of is_line_part lines.now) }
    ensures meant { Gives (λ v. v.items) (Ok (map (λ e. e.what.comment) lines.now)) result }
    ensures kept { IfOk result (λ v. IsTrue (list_all is_file_text v.items)) }
{
    let mut comments = Vec::new(alloc);
    for line in lines {
        let comment = text_of(alloc, &line.what.comment)?;
        comments.push(comment)?;
    }
    Ok(comments)
}

// The header of these numbers.
fn header_of(source: &Source, numbers: Numbers, rooms: usize) -> Header
    requires numbers { IsHeader rooms numbers }
    requires few { rooms ≤ 255 }
    ensures value { result ≡ header_of source.now numbers }
    ensures kept { IsTrue (are_header_numbers result) }
{
    number_fits(source.unused.what);
    number_fits(source.carry.what);
    number_fits(source.treasures.what);
    number_fits(numbers.light);
    number_fits(numbers.home);
    Header {
        unused: source.unused.what,
        carry: source.carry.what,
        start: numbers.start as u8,
        treasures: source.treasures.what,
        length: numbers.length as u8,
        light: numbers.light,
        home: numbers.home,
    }
}

// The trailer of these numbers.
fn trailer_of(numbers: &[i32; 3]) -> Trailer
    ensures value { result ≡ trailer_of numbers.now }
    ensures kept { IsTrue (is_trailer result) }
{
    let version = numbers[0];
    let adventure = numbers[1];
    let third = numbers[2];
    number_fits(version);
    number_fits(adventure);
    number_fits(third);
    Trailer {
        version,
        adventure,
        third,
    }
}

// The parts of the database, where the names of the source stand for what the tables have.
#[tactic(auto, using(crate::proofs::Binds::stands_then))]
fn parts(alloc: Global, tables: &Tables, source: &Source) -> Result<Parts, CompileFault>
    requires { WellFormed source.now }
    ensures meant { Gives database_of (meaning (known_in tables.now) source.now) result }
    ensures kept { IfOk result (λ parts. KeepsLimits (database_of parts)) }
{
    let numbers = header(tables, source)?;
    let words: Vec<Word> = list_of(alloc, tables, 999, &source.words)?;
    let rooms: Vec<Room> = list_of(alloc, tables, 254, &source.rooms)?;
    let messages: Vec<Text> = list_of(alloc, tables, 999, &source.messages)?;
    let items: Vec<Item> = list_of(alloc, tables, 254, &source.items)?;
    let actions: Vec<Action> = list_of(alloc, tables, 4999, &source.lines)?;
    let comments = comments(alloc, source.lines.entries.as_slice())?;
    let header = header_of(source, numbers, rooms.len());
    Ok(Parts {
        header,
        actions,
        words,
        rooms,
        messages,
        items,
        comments,
        trailer: trailer_of(&source.trailer),
    })
}

// The database, where the names of the source stand for what they are found as.
fn database(alloc: Global, source: &Source) -> Result<Db, CompileFault>
    requires { WellFormed source.now }
    ensures { Gives (λ db. db) (meant source.now) result }
{
    let tables = Tables::of(alloc, source)?;
    let parts = parts(alloc, &tables, source)?;
    Ok(Db::of(parts))
}

/// The database that a source means.
///
/// The faults are those of `CompileFault`; the first one in the order of the text is answered.
/// docs/SOURCE.md has the rules.
pub fn compile(alloc: Global, source: &Source) -> Result<Db, CompileFault>
    requires { WellFormed source.now }

    // What is answered is meant, and what is meant is answered, unless memory runs out.
    ensures found { IfOk result (λ db. meant source.now ≡ Ok db) }
    ensures only { (db : Database) → meant source.now ≡ Ok db → IsDb result db }

    // A fault but `Memory` is answered only where it is the first one, and there, unless memory
    // runs out.
    ensures exact { (fault : Fault) → result ≡ Err (fault_answer fault)
        → meant source.now ≡ Err fault }
    ensures expected { (fault : Fault) → meant source.now ≡ Err fault
        → IsErrOr CompileFault.Memory result (fault_answer fault) }

    // The answer is what the source means, unless memory runs out.
    ensures as_meant { Gives (λ db. db) (meant source.now) result }
{
    database(alloc, source)
}
