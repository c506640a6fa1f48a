//! How statements are printed.
ghost use Rattle.std.specs.Prelude.{false, ◌∷◌, OnOk};
ghost use Rattle.inform_tree.specs.Values.{expression_of};
ghost use Rattle.inform_tree.specs.Conditions.{condition_of};
ghost use Rattle.inform_tree.specs.Statements.{SomeDefault, statement_of, statements_of, cases_of};
ghost use Rattle.inform_lexemes.specs.declared.symbols.Symbol.TheVariants.{Semicolon, Colon, LeftBrace, RightBrace};
ghost use Rattle.inform_lexemes.specs.declared.keywords.Keyword.TheVariants as w;
ghost use Rattle.inform_lexemes.specs.Lexemes.{Word, Name as NameLexeme, Sign};
ghost use Rattle.inform_printer.specs.Printing.{Prints};
ghost use Rattle.inform_printer.specs.ValueLexemes.{round, value_lexemes};
ghost use Rattle.inform_printer.specs.ConditionLexemes.{condition_lexemes};
ghost use Rattle.inform_printer.specs.StatementLexemes.{else_lexemes, body_lexemes, default_lexemes, statement_lexemes, statements_lexemes, cases_lexemes};

use crate::items::{put_case_label, put_change, put_head, put_items, put_tested};
use crate::values::{put_call, put_in_brackets, put_value};
use crate::writing::{put_name, put_sign, put_word};
use adv_io::Memory;
use inform_lexemes::{Keyword, Symbol};
use inform_tree::{Case, Cond, Expr, Name, Stmt};

// ---- parts without a body

// Prints a word of the grammar that is a statement.
fn put_order(out: &mut Vec<u8>, keyword: Keyword) -> Result<(), Memory>
    ensures { OnOk result (Prints (λ rest. Word keyword ∷ Sign Semicolon ∷ rest)
        out.old.items out.new.items) }
{
    put_word(out, keyword)?;
    put_sign(out, Symbol::Semicolon)?;
    Ok(())
}

// Prints the condition at which a `do` ends.
fn put_until(out: &mut Vec<u8>, test: &Cond) -> Result<(), Memory>
    ensures { OnOk result (Prints
        (λ rest. Word w.Until ∷ round (condition_lexemes false (condition_of test.now))
        (Sign Semicolon ∷ rest))
        out.old.items out.new.items) }
{
    put_tested(out, Keyword::Until, test)?;
    put_sign(out, Symbol::Semicolon)?;
    Ok(())
}

// Prints a `switch` up to its opening brace.
fn put_switch(out: &mut Vec<u8>, value: &Expr) -> Result<(), Memory>
    ensures { OnOk result (Prints
        (λ rest. Word w.Switch ∷ round (value_lexemes false (expression_of value.now))
        (Sign LeftBrace ∷ rest))
        out.old.items out.new.items) }
{
    put_word(out, Keyword::Switch)?;
    put_in_brackets(out, value)?;
    put_sign(out, Symbol::LeftBrace)?;
    Ok(())
}

// Prints `default :`.
fn put_default_label(out: &mut Vec<u8>) -> Result<(), Memory>
    ensures { OnOk result (Prints (λ rest. Word w.Default ∷ Sign Colon ∷ rest)
        out.old.items out.new.items) }
{
    put_word(out, Keyword::Default)?;
    put_sign(out, Symbol::Colon)?;
    Ok(())
}

// Prints the two arrays of a `read`, up to its semicolon.
fn put_arrays(out: &mut Vec<u8>, line: &Name, words: &Name) -> Result<(), Memory>
    ensures { OnOk result (Prints
        (λ rest. NameLexeme line.now ∷ NameLexeme words.now ∷ Sign Semicolon ∷ rest)
        out.old.items out.new.items) }
{
    put_name(out, line)?;
    put_name(out, words)?;
    put_sign(out, Symbol::Semicolon)?;
    Ok(())
}

// ---- statements

// Prints a statement.
#[cycle(statements)]
fn put_statement(out: &mut Vec<u8>, statement: &Stmt) -> Result<(), Memory>
    ensures { OnOk result (Prints (statement_lexemes (statement_of statement.now))
        out.old.items out.new.items) }
{
    match statement {
        Stmt::Empty => {
            put_sign(out, Symbol::Semicolon)?;
            Ok(())
        }
        Stmt::Block(body) => {
            put_body(out, body)?;
            Ok(())
        }
        Stmt::Change(change) => {
            put_change(out, change)?;
            put_sign(out, Symbol::Semicolon)?;
            Ok(())
        }
        Stmt::Call(name, arguments) => {
            put_call(out, name, arguments)?;
            put_sign(out, Symbol::Semicolon)?;
            Ok(())
        }
        Stmt::If(test, body, other) => {
            put_tested(out, Keyword::If, test)?;
            put_body(out, body)?;
            put_else(out, other)?;
            Ok(())
        }
        Stmt::While(test, body) => {
            put_tested(out, Keyword::While, test)?;
            put_body(out, body)?;
            Ok(())
        }
        Stmt::Do(body, test) => {
            put_word(out, Keyword::Do)?;
            put_body(out, body)?;
            put_until(out, test)?;
            Ok(())
        }
        Stmt::For(head, body) => {
            put_word(out, Keyword::For)?;
            put_head(out, head)?;
            put_body(out, body)?;
            Ok(())
        }
        Stmt::Switch(value, cases, other) => {
            put_switch(out, value)?;
            put_cases(out, cases)?;
            match other {
                Some(body) => {
                    put_default(out, body)?;
                    Ok(())
                }
                None => {
                    put_sign(out, Symbol::RightBrace)?;
                    Ok(())
                }
            }
        }
        Stmt::Break => {
            put_order(out, Keyword::Break)?;
            Ok(())
        }
        Stmt::Continue => {
            put_order(out, Keyword::Continue)?;
            Ok(())
        }
        Stmt::Quit => {
            put_order(out, Keyword::Quit)?;
            Ok(())
        }
        Stmt::Rtrue => {
            put_order(out, Keyword::Rtrue)?;
            Ok(())
        }
        Stmt::Rfalse => {
            put_order(out, Keyword::Rfalse)?;
            Ok(())
        }
        Stmt::Return(None) => {
            put_order(out, Keyword::Return)?;
            Ok(())
        }
        Stmt::Return(Some(value)) => {
            put_word(out, Keyword::Return)?;
            put_value(out, false, value)?;
            put_sign(out, Symbol::Semicolon)?;
            Ok(())
        }
        Stmt::NewLine => {
            put_order(out, Keyword::NewLine)?;
            Ok(())
        }
        Stmt::Print(items) => {
            put_word(out, Keyword::Print)?;
            put_items(out, items)?;
            put_sign(out, Symbol::Semicolon)?;
            Ok(())
        }
        Stmt::Read(line, words) => {
            put_word(out, Keyword::Read)?;
            put_arrays(out, line, words)?;
            Ok(())
        }
    }
}

// Prints a body in its braces.
#[cycle(statements)]
fn put_body(out: &mut Vec<u8>, body: &Vec<Stmt>) -> Result<(), Memory>
    ensures { OnOk result (Prints (body_lexemes (statements_of body.now.items))
        out.old.items out.new.items) }
{
    put_sign(out, Symbol::LeftBrace)?;
    put_statements(out, body)?;
    put_sign(out, Symbol::RightBrace)?;
    Ok(())
}

// Prints an `else` with its body, unless that is empty.
#[cycle(statements)]
#[tactic(auto, using(crate::proofs::Trees::else_shown, crate::proofs::Trees::else_hidden))]
fn put_else(out: &mut Vec<u8>, other: &Vec<Stmt>) -> Result<(), Memory>
    ensures { OnOk result (Prints (else_lexemes (statements_of other.now.items))
        out.old.items out.new.items) }
{
    if other.is_empty() {
        return Ok(());
    }
    put_word(out, Keyword::Else)?;
    put_body(out, other)?;
    Ok(())
}

/// Prints statements, one after the other.
#[cycle(statements)]
pub fn put_statements(out: &mut Vec<u8>, statements: &Vec<Stmt>) -> Result<(), Memory>
    ensures { OnOk result (Prints (statements_lexemes (statements_of statements.now.items))
        out.old.items out.new.items) }
{
    for statement in statements {
        put_statement(out, statement)?;
    }
    Ok(())
}

// Prints the cases of a `switch`.
#[cycle(statements)]
fn put_cases(out: &mut Vec<u8>, cases: &Vec<Case>) -> Result<(), Memory>
    ensures { OnOk result (Prints (cases_lexemes (cases_of cases.now.items))
        out.old.items out.new.items) }
{
    for case in cases {
        put_case_label(out, &case.choices)?;
        put_statements(out, &case.body)?;
    }
    Ok(())
}

// Prints the `default` of a `switch`, up to its closing brace.
#[cycle(statements)]
fn put_default(out: &mut Vec<u8>, rest: &Vec<Stmt>) -> Result<(), Memory>
    ensures { OnOk result (Prints
        (λ after. default_lexemes (SomeDefault (statements_of rest.now.items))
        (Sign RightBrace ∷ after))
        out.old.items out.new.items) }
{
    put_default_label(out)?;
    put_statements(out, rest)?;
    put_sign(out, Symbol::RightBrace)?;
    Ok(())
}
