//! Routines that say a text by its number.
ghost use Rattle.std.specs.Prelude.{◌≡◌, ◌<◌, ◌+◌, ◌^◌, IfOk, map, length, [], ◌∷◌};
ghost use Rattle.inform_tree.specs.Statements.{cases_of, case_of, statement_of};
ghost use Rattle.inform_tree.specs.Statements as s;
ghost use Rattle.inform_tree.specs.Programs as d;
ghost use Rattle.inform_tree.specs.Programs.{directive_of};
ghost use Rattle.trans_data.specs.Texts.{text_case, text_cases, text_routine as the_routine};

use adv_io::Memory;
use inform_tree::{Case, Const, Directive, Expr, Item, Name, Routine, Stmt, Text};
use std::alloc::Global;

// The text is said.
fn print(alloc: Global, text: &[u8]) -> Result<Vec<Stmt>, Memory>
    ensures { IfOk result (λ body. map statement_of body.items
        ≡ s.Print (s.Text text.now ∷ []) ∷ []) }
{
    let items = vec![in alloc; Item::Text(Text::of(Vec::from_slice(alloc, text)?))]?;
    Ok(vec![in alloc; Stmt::Print(items)]?)
}

// The case of a number.
fn case(alloc: Global, number: u32, text: &[u8]) -> Result<Case, Memory>
    ensures { IfOk result (λ case. case_of case ≡ text_case number text.now) }
{
    Ok(Case {
        choices: vec![in alloc; (Const::Number(number), None)]?,
        body: print(alloc, text)?,
    })
}

// The cases of texts, the first of which has this number.
fn cases(alloc: Global, number: u32, texts: &[Vec<u8>]) -> Result<Vec<Case>, Memory>
    requires { number + length texts.now < 2 ^ 32 }
    ensures { IfOk result (λ cases. cases_of cases.items
        ≡ text_cases number (map (λ text. text.items) texts.now)) }
{
    match texts {
        [] => Ok(Vec::new(alloc)),
        [text, rest @ ..] => {
            let mut all = cases(alloc, number + 1, rest)?;
            all.insert(0, case(alloc, number, text.as_slice())?)?;
            Ok(all)
        }
    }
}

/// A routine that says the text of its argument.
#[tactic(auto, using(inform_tree::proofs::Views::statement_of_switch))]
pub fn text_routine(alloc: Global, name: &[u8], texts: &[Vec<u8>]) -> Result<Directive, Memory>
    requires { length texts.now < 2 ^ 31 }
    ensures { IfOk result (λ directive. directive_of directive
        ≡ d.Routine (the_routine name.now (map (λ text. text.items) texts.now))) }
{
    let number = Expr::Name(Name::of(Vec::from_slice(alloc, b"i")?));
    let choice = Stmt::Switch(number, cases(alloc, 0, texts)?, None);
    Ok(Directive::Routine(Routine {
        name: Name::of(Vec::from_slice(alloc, name)?),
        locals: vec![in alloc; Name::of(Vec::from_slice(alloc, b"i")?)]?,
        body: vec![in alloc; choice]?,
    }))
}
