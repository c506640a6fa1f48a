//! How directives are printed.
ghost use Rattle.std.specs.Prelude.{◌∷◌, OnOk};
ghost use Rattle.inform_tree.specs.Statements.{statements_of};
ghost use Rattle.inform_tree.specs.Programs.{directive_of, routine_of};
ghost use Rattle.inform_lexemes.specs.declared.symbols.Symbol.TheVariants.{Semicolon, LeftSquare, RightSquare};
ghost use Rattle.inform_lexemes.specs.declared.keywords.Keyword.TheVariants as w;
ghost use Rattle.inform_lexemes.specs.Lexemes.{Word, Name as NameLexeme, Sign};
ghost use Rattle.inform_grammar.specs.Lexemes.{arrow};
ghost use Rattle.inform_printer.specs.Printing.{Prints};
ghost use Rattle.inform_printer.specs.StatementLexemes.{optional_lexemes, statements_lexemes};
ghost use Rattle.inform_printer.specs.ProgramLexemes.{names_lexemes, entries_lexemes, first_value_lexemes, routine_lexemes, directive_lexemes};

use crate::signs::arrow;
use crate::statements::put_statements;
use crate::values::{put_constant, put_entry};
use crate::writing::{put_name, put_sign, put_word};
use adv_io::Memory;
use inform_lexemes::{Keyword, Symbol};
use inform_tree::{Const, Directive, Name, Routine, Stmt};

// ---- constants, globals and arrays

// Prints the word that begins a directive, and its name.
fn put_declared(out: &mut Vec<u8>, keyword: Keyword, name: &Name) -> Result<(), Memory>
    ensures { OnOk result (Prints (λ rest. Word keyword ∷ NameLexeme name.now ∷ rest)
        out.old.items out.new.items) }
{
    put_word(out, keyword)?;
    put_name(out, name)?;
    Ok(())
}

// Prints the value of a constant or a global.
fn put_first_value(out: &mut Vec<u8>, value: &Const) -> Result<(), Memory>
    ensures { OnOk result (Prints (first_value_lexemes value.now) out.old.items out.new.items) }
{
    put_sign(out, Symbol::Assign)?;
    put_constant(out, value)?;
    Ok(())
}

// Prints the value that a global begins with, where it has one.
fn put_first_value_if_any(out: &mut Vec<u8>, value: &Option<Const>) -> Result<(), Memory>
    ensures { OnOk result (Prints (optional_lexemes first_value_lexemes value.now)
        out.old.items out.new.items) }
{
    match value {
        Some(value) => put_first_value(out, value),
        None => Ok(()),
    }
}

// Prints an array up to its first entry.
fn put_array(out: &mut Vec<u8>, name: &Name, words: bool) -> Result<(), Memory>
    ensures { OnOk result (Prints
        (λ rest. Word w.Array ∷ NameLexeme name.now ∷ Sign (arrow words) ∷ rest)
        out.old.items out.new.items) }
{
    put_declared(out, Keyword::Array, name)?;
    put_sign(out, arrow(words))?;
    Ok(())
}

// Prints the entries of an array.
fn put_entries(out: &mut Vec<u8>, entries: &[Const]) -> Result<(), Memory>
    ensures { OnOk result (Prints (entries_lexemes entries.now) out.old.items out.new.items) }
{
    for entry in entries {
        put_entry(out, entry)?;
    }
    Ok(())
}

// ---- routines

// Prints the names of locals.
fn put_names(out: &mut Vec<u8>, names: &[Name]) -> Result<(), Memory>
    ensures { OnOk result (Prints (names_lexemes names.now) out.old.items out.new.items) }
{
    for name in names {
        put_name(out, name)?;
    }
    Ok(())
}

// Prints the name of a routine, after its square bracket.
fn put_title(out: &mut Vec<u8>, name: &Name) -> Result<(), Memory>
    ensures { OnOk result (Prints (λ rest. Sign LeftSquare ∷ NameLexeme name.now ∷ rest)
        out.old.items out.new.items) }
{
    put_sign(out, Symbol::LeftSquare)?;
    put_name(out, name)?;
    Ok(())
}

// Prints the locals of a routine, up to their semicolon.
fn put_locals(out: &mut Vec<u8>, locals: &[Name]) -> Result<(), Memory>
    ensures { OnOk result (Prints (λ rest. names_lexemes locals.now (Sign Semicolon ∷ rest))
        out.old.items out.new.items) }
{
    put_names(out, locals)?;
    put_sign(out, Symbol::Semicolon)?;
    Ok(())
}

// Prints the statements of a routine, up to its end.
fn put_routine_body(out: &mut Vec<u8>, body: &Vec<Stmt>) -> Result<(), Memory>
    ensures { OnOk result (Prints
        (λ rest. statements_lexemes (statements_of body.now.items)
        (Sign RightSquare ∷ Sign Semicolon ∷ rest))
        out.old.items out.new.items) }
{
    put_statements(out, body)?;
    put_sign(out, Symbol::RightSquare)?;
    put_sign(out, Symbol::Semicolon)?;
    Ok(())
}

fn put_routine(out: &mut Vec<u8>, routine: &Routine) -> Result<(), Memory>
    ensures { OnOk result (Prints (routine_lexemes (routine_of routine.now))
        out.old.items out.new.items) }
{
    put_title(out, &routine.name)?;
    put_locals(out, &routine.locals)?;
    put_routine_body(out, &routine.body)?;
    Ok(())
}

// ---- directives

/// Prints a directive.
pub fn put_directive(out: &mut Vec<u8>, directive: &Directive) -> Result<(), Memory>
    ensures { OnOk result (Prints (directive_lexemes (directive_of directive.now))
        out.old.items out.new.items) }
{
    match directive {
        Directive::Constant(name, value) => {
            put_declared(out, Keyword::Constant, name)?;
            put_first_value(out, value)?;
            put_sign(out, Symbol::Semicolon)?;
            Ok(())
        }
        Directive::Global(name, value) => {
            put_declared(out, Keyword::Global, name)?;
            put_first_value_if_any(out, value)?;
            put_sign(out, Symbol::Semicolon)?;
            Ok(())
        }
        Directive::Array(name, words, entries) => {
            put_array(out, name, *words)?;
            put_entries(out, entries)?;
            put_sign(out, Symbol::Semicolon)?;
            Ok(())
        }
        Directive::Routine(routine) => {
            put_routine(out, routine)?;
            Ok(())
        }
    }
}
