//! What the lines mean.
ghost use Rattle.std.specs.Prelude.{◌≡◌, ◌≤◌, IsTrue, slice_index};
ghost use Rattle.std.specs.List.{list_all};
ghost use Rattle.scott_types.specs.Limits.{is_natural, is_action};
ghost use Rattle.source_reader.specs.WellFormed.{is_line_part};
ghost use Rattle.adv_compiler.specs.Lines.{AreFew, five, action_of, line};

use crate::conditions::conditions;
use crate::faults::CompileFault;
use crate::heads::vocabulary;
use crate::lists::Entry;
use crate::opcodes::opcodes;
use crate::pairs::Pairs;
use crate::tables::Tables;
use arrayvec::ArrayVec;
use scott_types::Action;
use source_reader::{At, LinePart};
use std::alloc::Global;

// The condition of this place, or 0 where there is none.
fn condition_at(conds: &[u32], i: usize) -> u32
    requires { IsTrue (list_all is_natural conds.now) }
    ensures value { result ≡ slice_index conds.now i }
    ensures few { result ≤ 2147483647 }
{
    conds.get(i).copied().unwrap_or(0)
}

// Five conditions, with zeros after those that are there.
fn five(conds: &[u32]) -> [u32; 5]
    requires { IsTrue (list_all is_natural conds.now) }
    ensures value { result ≡ five conds.now }
    ensures few { IsTrue (list_all is_natural result) }
{
    [
        condition_at(conds, 0),
        condition_at(conds, 1),
        condition_at(conds, 2),
        condition_at(conds, 3),
        condition_at(conds, 4),
    ]
}

// The packed action of these numbers.
fn action_of(vocab: u32, conds: &[u32], pairs: Pairs) -> Action
    requires vocab { vocab ≤ 2147483647 }
    requires conds { IsTrue (list_all is_natural conds.now) }
    requires pairs { AreFew pairs }
    ensures value { result ≡ action_of vocab conds.now pairs }
    ensures kept { IsTrue (is_action result) }
{
    Action {
        vocab,
        conds: five(conds),
        pairs: [pairs.first, pairs.second],
    }
}

impl Entry<Action> for LinePart {
    ghost meaning = { line };

    ghost ready = { is_line_part };

    ghost kept = { is_action };

    #[tactic(auto, using(crate::proofs::Binds::stands_then))]
    fn compile(
        _alloc: Global,
        tables: &Tables,
        _number: u16,
        entry: &At<LinePart>,
    ) -> Result<Action, CompileFault> {
        let vocab = vocabulary(tables, &entry.what.head)?;
        let mut conds = ArrayVec::new();
        conditions(tables, &mut conds, entry.what.conds.as_slice())?;
        let pairs = opcodes(tables, &mut conds, entry.what.ops.as_slice())?;
        Ok(action_of(vocab, conds.as_slice(), pairs))
    }
}
