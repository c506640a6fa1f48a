//! What the heads of lines mean.
ghost use Rattle.std.specs.Prelude.{◌≤◌, IfOk};
ghost use Rattle.adv_compiler.specs.Faults.{Meets};
ghost use Rattle.adv_compiler.specs.Index.{known_in};
ghost use Rattle.adv_compiler.specs.Lines.{noun_after, verb_first, vocabulary};

use crate::faults::CompileFault;
use crate::tables::Tables;
use crate::values::{first_of_two, natural, second_of_two, vocab_of};
use source_reader::Head;

// A noun, after a verb that was multiplied by 150.
#[tactic(auto, using(crate::proofs::Binds::stands_then))]
fn noun_after(verb: u32, at: usize, number: i32) -> Result<u32, CompileFault>
    ensures meant { Meets (noun_after verb at number) result }
    ensures few { IfOk result (λ packed. packed ≤ 2147483647) }
{
    let noun = natural(at, number)?;
    second_of_two(at, number, verb, noun)
}

// A verb, multiplied by 150.
#[tactic(auto, using(crate::proofs::Binds::stands_then))]
fn verb_first(at: usize, number: i32) -> Result<u32, CompileFault>
    ensures { Meets (verb_first at number) result }
{
    let verb = natural(at, number)?;
    first_of_two(at, number, verb)
}

/// The vocabulary of a head.
#[tactic(auto, using(crate::proofs::Binds::stands_then))]
pub fn vocabulary(tables: &Tables, head: &Head) -> Result<u32, CompileFault>
    ensures meant { Meets (vocabulary (known_in tables.now) head.now) result }
    ensures few { IfOk result (λ packed. packed ≤ 2147483647) }
{
    match head {
        Head::Line(verb, noun) => {
            let number = vocab_of(&tables.verbs, verb.at, &verb.what)?;
            let first = verb_first(verb.at, number)?;
            let number = vocab_of(&tables.nouns, noun.at, &noun.what)?;
            noun_after(first, noun.at, number)
        }
        Head::Auto(noun) => noun_after(0, noun.at, noun.what),
        Head::Also => Ok(0),
    }
}
