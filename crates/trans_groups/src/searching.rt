//! The search for the groups of a command, with one case for each verb.
ghost use Rattle.std.specs.Prelude.{◌≡◌, ℕ, ◌+◌, ◌<◌, IfOk, [], ◌∷◌, ◌++◌, map, length, reverse, slice_index_or, nat_eq, codes, Some, None};
ghost use Rattle.inform_tree.specs.declared.values.Const.TheVariants.{Number};
ghost use Rattle.inform_tree.specs.Values as v;
ghost use Rattle.inform_tree.specs.Values.{expression_of};
ghost use Rattle.inform_tree.specs.Statements as s;
ghost use Rattle.inform_tree.specs.Statements.{statements, statement_of, case_of, cases_of};
ghost use Rattle.inform_tree.specs.Programs.{directive_of};
ghost use Rattle.scott_rules.specs.Groups.{groups_of};
ghost use Rattle.trans_specs.specs.Names.{group_name};
ghost use Rattle.trans_specs.specs.Lines.{call_value};
ghost use Rattle.indexmap.specs.IndexMap.{get};
ghost use Rattle.trans_groups.specs.Search.{pass, mark, group_tries, for_noun, head_tries, verb_tries, verb_cases, search_directives};
ghost use Rattle.trans_groups.specs.Heads.{groups_after, HasFirsts, IsIndexFrom, first_from, next_of};

use adv_io::Memory;
use indexmap::IndexMap;
use inform_codes::numbered;
use inform_tree::{Case, Change, Cond, Const, Directive, Expr, Name, Relation, Routine, Stmt};
use scott_types::action_lines::{noun_of, verb_of};
use scott_types::{Action, Db};
use std::alloc::Global;

fn name(alloc: Global, bytes: &[u8]) -> Result<Name, Memory>
    ensures { IfOk result (λ name. name ≡ bytes.now) }
{
    Ok(Name::of(Vec::from_slice(alloc, bytes)?))
}

// `group_k()`
fn tried(alloc: Global, head: usize) -> Result<Expr, Memory>
    ensures { IfOk result (λ call. expression_of call ≡ call_value (group_name head) []) }
{
    let name = Name::of(numbered(alloc, b"group_", head)?);
    Ok(Expr::Call(name, Vec::new(alloc)))
}

// `return 2;`
fn passed(alloc: Global) -> Result<Vec<Stmt>, Memory>
    ensures { IfOk result (λ body. map statement_of body.items
        ≡ s.Return (Some (v.Number 2)) ∷ []) }
{
    Ok(vec![in alloc; Stmt::Return(Some(Expr::Number(2)))]?)
}

// `if (group_k()) return 2;`
#[tactic(auto, using(inform_tree::proofs::Views::statement_of_if))]
fn pass(alloc: Global, head: usize) -> Result<Stmt, Memory>
    ensures { IfOk result (λ choice. statement_of choice ≡ pass head) }
{
    let test = Cond::Nonzero(tried(alloc, head)?);
    Ok(Stmt::If(test, passed(alloc)?, Vec::new(alloc)))
}

// `m = 1;`
fn mark(alloc: Global) -> Result<Stmt, Memory>
    ensures { IfOk result (λ change. statement_of change ≡ mark) }
{
    Ok(Stmt::Change(Change::Set(name(alloc, b"m")?, Expr::Number(1))))
}

// A head is tried after the others.
fn put_group(alloc: Global, head: usize, body: &mut Vec<Stmt>) -> Result<(), Memory>
    ensures { IfOk result (λ _. map statement_of body.new.items
        ≡ map statement_of body.old.items ++ group_tries head []) }
{
    body.push(pass(alloc, head)?)?;
    body.push(mark(alloc)?)?;
    Ok(())
}

// `if (n == N) { .. }`
#[tactic(auto, using(inform_tree::proofs::Views::statement_of_if))]
fn for_noun(alloc: Global, noun: u32, head: usize) -> Result<Stmt, Memory>
    ensures { IfOk result (λ choice. statement_of choice ≡ for_noun noun head) }
{
    let same = Cond::Compare(
        Relation::Eq,
        Expr::Name(name(alloc, b"n")?),
        Expr::Number(noun),
    );
    let mut tries = Vec::new(alloc);
    put_group(alloc, head, &mut tries)?;
    Ok(Stmt::If(same, tries, Vec::new(alloc)))
}

// The same for a head with its noun.
fn put_head(alloc: Global, noun: u32, head: usize, body: &mut Vec<Stmt>) -> Result<(), Memory>
    ensures { IfOk result (λ _. map statement_of body.new.items
        ≡ map statement_of body.old.items ++ head_tries noun head []) }
{
    if noun == 0 {
        return put_group(alloc, head, body);
    }
    body.push(for_noun(alloc, noun, head)?)?;
    Ok(())
}

// Puts a line before those whose first heads are known, and answers the next head of its verb.
fn put_first(
    _alloc: Global,
    firsts: &mut IndexMap<u32, usize>,
    actions: &[Action],
    line: usize,
) -> Result<Option<usize>, Memory>
    requires there { line < length actions.now }
    requires rest { HasFirsts actions.now (line + 1) (get nat_eq firsts.old) }
    ensures firsts { IfOk result (λ _. HasFirsts actions.now line (get nat_eq firsts.new)) }
    ensures next { IfOk result (λ next. next ≡ next_of actions.now line) }
{
    let action = &actions[line];
    if action.vocab == 0 {
        return Ok(None);
    }
    let next = firsts.insert(verb_of(action.vocab), line)?;
    Ok(next)
}

// The first head of each verb, and for each line that is a head the next one of its verb. The lines
// are read once, the last first.
fn index_heads(
    alloc: Global,
    actions: &[Action],
) -> Result<(IndexMap<u32, usize>, Vec<Option<usize>>), Memory>
    ensures { IfOk result (λ heads.
        IsIndexFrom actions.now 0 (get nat_eq heads.0) heads.1.items) }
{
    let mut nexts: Vec<Option<usize>> = vec![in alloc; None; actions.len()]?;
    let mut firsts = IndexMap::new(alloc);
    for line in (0..actions.len()).rev() {
        nexts[line] = put_first(alloc, &mut firsts, actions, line)?;
    }
    Ok((firsts, nexts))
}

// The heads of a verb, from its first one on.
fn verb_tries(
    alloc: Global,
    verb: u32,
    first: Option<usize>,
    nexts: &[Option<usize>],
    actions: &[Action],
) -> Result<Vec<Stmt>, Memory>
    requires first { first ≡ first_from actions.now verb 0 }
    requires whole { length nexts.now ≡ length actions.now }
    requires nexts { (head : ℕ) → head < length actions.now
        → slice_index_or nexts.now head None ≡ next_of actions.now head }
    ensures { IfOk result (λ body. map statement_of body.items
        ≡ verb_tries verb (groups_of 0 actions.now)) }
{
    let mut body = Vec::new(alloc);
    let mut next = first;
    while let Some(line) = next {
        put_head(alloc, noun_of(actions[line].vocab), line, &mut body)?;
        next = nexts[line];
    }
    Ok(body)
}

// The case of a verb.
fn case(
    alloc: Global,
    verb: u32,
    first: Option<usize>,
    nexts: &[Option<usize>],
    actions: &[Action],
) -> Result<Case, Memory>
    requires first { first ≡ first_from actions.now verb 0 }
    requires whole { length nexts.now ≡ length actions.now }
    requires nexts { (head : ℕ) → head < length actions.now
        → slice_index_or nexts.now head None ≡ next_of actions.now head }
    ensures { IfOk result (λ case. case_of case ≡ (
      (Number verb, None) ∷ [],
      statements (verb_tries verb (groups_of 0 actions.now)),
    )) }
{
    Ok(Case {
        choices: vec![in alloc; (Const::Number(verb), None)]?,
        body: verb_tries(alloc, verb, first, nexts, actions)?,
    })
}

// The case of a verb in the place of its last head, after those of the lines that follow.
fn put_case(
    alloc: Global,
    actions: &[Action],
    firsts: &IndexMap<u32, usize>,
    nexts: &[Option<usize>],
    line: usize,
    all: &mut Vec<Case>,
) -> Result<(), Memory>
    requires there { line < length actions.now }
    requires index { IsIndexFrom actions.now 0 (get nat_eq firsts.now) nexts.now }
    requires so_far { cases_of (reverse all.old.items)
        ≡ verb_cases (groups_of 0 actions.now) (groups_after actions.now (line + 1)) }
    ensures { IfOk result (λ _. cases_of (reverse all.new.items)
        ≡ verb_cases (groups_of 0 actions.now) (groups_after actions.now line)) }
{
    let verb = verb_of(actions[line].vocab);
    if verb == 0 {
        return Ok(());
    }
    match nexts[line] {
        Some(_) => Ok(()),
        None => {
            let first = firsts.get(&verb).copied();
            all.push(case(alloc, verb, first, nexts, actions)?)?;
            Ok(())
        }
    }
}

// A case for each verb from 1 on.
fn cases(alloc: Global, actions: &[Action]) -> Result<Vec<Case>, Memory>
    ensures { IfOk result (λ all. cases_of all.items
        ≡ verb_cases (groups_of 0 actions.now) (groups_of 0 actions.now)) }
{
    let (firsts, nexts) = index_heads(alloc, actions)?;
    let mut all = Vec::new(alloc);
    for line in (0..actions.len()).rev() {
        put_case(alloc, actions, &firsts, &nexts, line, &mut all)?;
    }
    all.reverse();
    Ok(all)
}

// The cases of the verb that is handed in.
#[tactic(auto, using(inform_tree::proofs::Views::statement_of_switch))]
fn choice(alloc: Global, actions: &[Action]) -> Result<Stmt, Memory>
    ensures { IfOk result (λ choice. statement_of choice
        ≡ s.Switch (v.Name (codes "v")) (verb_cases (groups_of 0 actions.now)
        (groups_of 0 actions.now)) s.NoDefault) }
{
    let verb = Expr::Name(name(alloc, b"v")?);
    Ok(Stmt::Switch(verb, cases(alloc, actions)?, None))
}

/// The routine `search` of a game.
pub fn search(alloc: Global, db: &Db) -> Result<Vec<Directive>, Memory>
    ensures { IfOk result (λ directives. map directive_of directives.items
        ≡ search_directives db.now) }
{
    let found = Stmt::Return(Some(Expr::Name(name(alloc, b"m")?)));
    let searching = Routine {
        name: name(alloc, b"search")?,
        locals: vec![in alloc; name(alloc, b"v")?, name(alloc, b"n")?, name(alloc, b"m")?]?,
        body: vec![in alloc; choice(alloc, db.actions())?, found]?,
    };
    Ok(vec![in alloc; Directive::Routine(searching)]?)
}
