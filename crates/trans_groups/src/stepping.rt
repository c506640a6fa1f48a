//! The automatic step, in which each group of verb 0 has its chance.
ghost use Rattle.std.specs.Prelude.{◌≡◌, IfOk, map};
ghost use Rattle.inform_tree.specs.Statements.{statement_of};
ghost use Rattle.inform_tree.specs.Programs.{directive_of};
ghost use Rattle.scott_rules.specs.Groups.{groups_of};
ghost use Rattle.trans_groups.specs.Automatic.{chance, chances, forget_noun, automatic_directives};

use adv_io::Memory;
use inform_codes::numbered;
use inform_tree::{Change, Cond, Directive, Expr, Name, Relation, Routine, Stmt};
use scott_types::action_lines::{noun_of, verb_of};
use scott_types::{Action, Db};
use std::alloc::Global;

// `if (random(100) <= N) group_k();`
#[tactic(auto, using(inform_tree::proofs::Views::statement_of_if))]
fn chance(alloc: Global, noun: u32, head: usize) -> Result<Stmt, Memory>
    ensures { IfOk result (λ choice. statement_of choice ≡ chance noun head) }
{
    let draw = Expr::Random(Box::new(alloc, Expr::Number(100))?);
    let call = Stmt::Call(Name::of(numbered(alloc, b"group_", head)?), Vec::new(alloc));
    let test = Cond::Compare(Relation::Le, draw, Expr::Number(noun));
    Ok(Stmt::If(test, vec![in alloc; call]?, Vec::new(alloc)))
}

// The chances of the groups of lines, which are read from the last one on.
fn chances(alloc: Global, actions: &[Action]) -> Result<Vec<Stmt>, Memory>
    ensures { IfOk result (λ all. map statement_of all.items ≡ chances (groups_of 0 actions.now)) }
{
    let mut all = Vec::new(alloc);
    for line in (0..actions.len()).rev() {
        let vocab = actions[line].vocab;
        if vocab != 0 && verb_of(vocab) == 0 {
            all.push(chance(alloc, noun_of(vocab), line)?)?;
        }
    }
    all.reverse();
    Ok(all)
}

// `nb = 0;`
fn forgetting(alloc: Global) -> Result<Stmt, Memory>
    ensures { IfOk result (λ change. statement_of change ≡ forget_noun) }
{
    let name = Name::of(Vec::from_slice(alloc, b"nb")?);
    Ok(Stmt::Change(Change::Set(name, Expr::Number(0))))
}

/// The routine `automatic` of a game.
pub fn automatic(alloc: Global, db: &Db) -> Result<Vec<Directive>, Memory>
    ensures { IfOk result (λ directives. map directive_of directives.items
        ≡ automatic_directives db.now) }
{
    let mut body = chances(alloc, db.actions())?;
    body.insert(0, forgetting(alloc)?)?;
    let step = Routine {
        name: Name::of(Vec::from_slice(alloc, b"automatic")?),
        locals: Vec::new(alloc),
        body,
    };
    Ok(vec![in alloc; Directive::Routine(step)]?)
}
