//! The plain text of a database.
ghost use Rattle.std.specs.Prelude.{◌≡◌, ◌∷◌, ◌++◌, [], OnOk, IfOk, IsTrue, zip, codes};
ghost use Rattle.scott_types.specs.Database.{database_of};
ghost use Rattle.scott_types.specs.Limits.{KeepsLimits};
ghost use Rattle.source_reader.specs.declared.tokens.Token.TheVariants as token;
ghost use Rattle.adv_decompiler.specs.Layout.{chunk, text_of, joined, spaced, below, section};
ghost use Rattle.adv_decompiler.specs.References.{exit_token};
ghost use Rattle.adv_decompiler.specs.Lines.{action_line};
ghost use Rattle.adv_decompiler.specs.Laws.{ReadsBack};
ghost use Rattle.adv_decompiler.specs.Plain.{setting, first_settings, middle_settings, last_settings, header_lines, trailer_line, lines_of, chunks, plain};

use crate::actions::put_actions;
use crate::laws::plain_reads_back;
use crate::lists::put_list;
use crate::references::put_exit;
use crate::sizes::Sizes;
use adv_io::Memory;
use adv_text::put_number;
use scott_types::{Db, Header, Parts, Trailer};
use std::alloc::Global;

// Writes a setting of the header that is a number.
#[tactic(auto, using(crate::proofs::Texts::layout))]
fn put_setting(alloc: Global, out: &mut Vec<u8>, name: &[u8], number: i32) -> Result<(), Memory>
    ensures { OnOk result (out.new.items ≡ out.old.items
        ++ text_of (setting name.now (token.Number number))) }
{
    out.push(b'\n')?;
    out.extend_from_slice(name)?;
    out.push(b' ')?;
    put_number(alloc, out, number)?;
    out.push(b';')?;
    Ok(())
}

// Writes a setting of the header that is a room.
#[tactic(auto, using(crate::proofs::Texts::layout))]
fn put_room_setting(
    alloc: Global,
    out: &mut Vec<u8>,
    sizes: &Sizes,
    name: &[u8],
    room: i32,
) -> Result<(), Memory>
    ensures { OnOk result (out.new.items ≡ out.old.items
        ++ text_of (setting name.now (exit_token sizes.now room))) }
{
    out.push(b'\n')?;
    out.extend_from_slice(name)?;
    out.push(b' ')?;
    put_exit(alloc, out, sizes, room)?;
    out.push(b';')?;
    Ok(())
}

// Writes the first settings of the header, up to the room in which a game starts.
#[tactic(auto, using(crate::proofs::Texts::layout))]
fn put_first_settings(
    alloc: Global,
    out: &mut Vec<u8>,
    sizes: &Sizes,
    header: &Header,
) -> Result<(), Memory>
    ensures { OnOk result (out.new.items ≡ out.old.items
        ++ text_of (first_settings sizes.now header.now)) }
{
    put_setting(alloc, out, b"unused", header.unused)?;
    put_setting(alloc, out, b"carry", header.carry)?;
    put_room_setting(alloc, out, sizes, b"start", i32::from(header.start))
}

// Writes the settings of the header between those.
#[tactic(auto, using(crate::proofs::Texts::layout))]
fn put_middle_settings(alloc: Global, out: &mut Vec<u8>, header: &Header) -> Result<(), Memory>
    ensures { OnOk result (out.new.items ≡ out.old.items
        ++ text_of (middle_settings header.now)) }
{
    put_setting(alloc, out, b"treasures", header.treasures)?;
    put_setting(alloc, out, b"length", i32::from(header.length))
}

// Writes the last settings of the header, from the light on.
#[tactic(auto, using(crate::proofs::Texts::layout))]
fn put_last_settings(
    alloc: Global,
    out: &mut Vec<u8>,
    sizes: &Sizes,
    header: &Header,
) -> Result<(), Memory>
    ensures { OnOk result (out.new.items ≡ out.old.items
        ++ text_of (last_settings sizes.now header.now)) }
{
    put_setting(alloc, out, b"light", header.light)?;
    put_room_setting(alloc, out, sizes, b"home", header.home)
}

// Writes the header.
#[tactic(auto, using(crate::proofs::Texts::layout))]
fn put_header(
    alloc: Global,
    out: &mut Vec<u8>,
    sizes: &Sizes,
    header: &Header,
) -> Result<(), Memory>
    ensures { OnOk result (out.new.items ≡ out.old.items
        ++ text_of (section joined (codes "header") (header_lines sizes.now header.now))) }
{
    out.extend_from_slice(b"header {")?;
    put_first_settings(alloc, out, sizes, header)?;
    put_middle_settings(alloc, out, header)?;
    put_last_settings(alloc, out, sizes, header)?;
    out.extend_from_slice(b"\n}")?;
    Ok(())
}

// Writes the lines of the actions under their word.
#[tactic(auto, using(crate::proofs::Texts::layout))]
fn put_action_list(
    alloc: Global,
    out: &mut Vec<u8>,
    sizes: &Sizes,
    parts: &Parts,
) -> Result<(), Memory>
    requires { KeepsLimits (database_of parts.now) }
    ensures { OnOk result (out.new.items ≡ out.old.items
        ++ text_of (section below (codes "lines")
        (lines_of (action_line sizes.now)
        (zip parts.now.actions.items parts.now.comments.items)))) }
{
    out.extend_from_slice(b"\nlines {")?;
    put_actions(alloc, out, sizes, &parts.actions, &parts.comments)?;
    out.extend_from_slice(b"\n}")?;
    Ok(())
}

// Writes a number after a space.
#[tactic(auto, using(crate::proofs::Texts::layout))]
fn put_spaced(alloc: Global, out: &mut Vec<u8>, number: i32) -> Result<(), Memory>
    ensures { OnOk result (out.new.items ≡ out.old.items
        ++ text_of (chunk spaced (token.Number number) ∷ [])) }
{
    out.push(b' ')?;
    put_number(alloc, out, number)
}

// Writes the numbers of the trailer.
#[tactic(auto, using(crate::proofs::Texts::layout))]
fn put_numbers(alloc: Global, out: &mut Vec<u8>, trailer: &Trailer) -> Result<(), Memory>
    ensures { OnOk result
        (out.new.items ≡ out.old.items ++ text_of (trailer_line trailer.now)) }
{
    out.push(b'\n')?;
    put_number(alloc, out, trailer.version)?;
    put_spaced(alloc, out, trailer.adventure)?;
    put_spaced(alloc, out, trailer.third)?;
    Ok(())
}

// Writes the trailer.
#[tactic(auto, using(crate::proofs::Texts::layout))]
fn put_trailer(alloc: Global, out: &mut Vec<u8>, trailer: &Trailer) -> Result<(), Memory>
    ensures { OnOk result (out.new.items ≡ out.old.items
        ++ text_of (section below (codes "trailer") (trailer_line trailer.now))) }
{
    out.extend_from_slice(b"\ntrailer {")?;
    put_numbers(alloc, out, trailer)?;
    out.extend_from_slice(b"\n}")?;
    Ok(())
}

// Writes all but the line feed at the end.
fn put_all(alloc: Global, out: &mut Vec<u8>, sizes: &Sizes, parts: &Parts) -> Result<(), Memory>
    requires { KeepsLimits (database_of parts.now) }
    ensures { OnOk result (out.new.items ≡ out.old.items
        ++ text_of (chunks sizes.now (database_of parts.now))) }
{
    put_header(alloc, out, sizes, &parts.header)?;
    put_list(alloc, out, sizes, b"words", &parts.words)?;
    put_list(alloc, out, sizes, b"rooms", &parts.rooms)?;
    put_list(alloc, out, sizes, b"messages", &parts.messages)?;
    put_list(alloc, out, sizes, b"items", &parts.items)?;
    put_action_list(alloc, out, sizes, parts)?;
    put_trailer(alloc, out, &parts.trailer)?;
    Ok(())
}

// The plain text of parts that keep the limits.
#[tactic(auto, unfolding(crate::specs::Plain::plain))]
fn text(alloc: Global, parts: &Parts) -> Result<Vec<u8>, Memory>
    requires { KeepsLimits (database_of parts.now) }
    ensures { IfOk result (λ text. text.items ≡ plain (database_of parts.now)) }
{
    let sizes = Sizes::of(parts);
    let mut out = Vec::new(alloc);
    put_all(alloc, &mut out, &sizes, parts)?;
    out.push(b'\n')?;
    Ok(out)
}

/// The plain text of a database: the source that means it, with names of letters and numbers.
///
/// docs/SOURCE.md says how it is written.
pub fn decompile(alloc: Global, db: &Db) -> Result<Vec<u8>, Memory>
    // The answer is the plain text, and want of memory the only other one.
    ensures plain { IfOk result (λ text. text.items ≡ plain db.now) }

    // The text is a text of just one source, which means the database.
    ensures reads_back { IfOk result (λ text. ReadsBack text.items db.now) }
{
    plain_reads_back();
    text(alloc, db.parts())
}
