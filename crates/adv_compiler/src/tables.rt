//! The tables of all names of a source.
ghost use Rattle.std.specs.Prelude.{◌≡◌, IfOk, IfErr, drop};
ghost use Rattle.adv_compiler.specs.Known.{known_of};
ghost use Rattle.adv_compiler.specs.Index.{known_in};

use crate::faults::CompileFault;
use crate::names::{Key, Names};
use source_reader::{At, Source, WordPart};
use std::alloc::Global;

/// What each name of a source stands for.
pub struct Tables {
    pub rooms: Names,
    pub messages: Names,
    pub items: Names,
    pub verbs: Names,
    pub nouns: Names,
}

impl Drop for Tables {
    fn drop(self) {
        let Tables {
            rooms: _,
            messages: _,
            items: _,
            verbs: _,
            nouns: _,
        } = self;
    }
}

// The entries of a vocabulary from 1 on.
fn after_first(words: &[At<WordPart>]) -> &[At<WordPart>]
    ensures { result.now ≡ drop 1 words.now }
{
    match words {
        [_, rest @ ..] => rest,
        [] => words,
    }
}

impl Tables {
    /// The tables of a source.
    pub fn of(alloc: Global, source: &Source) -> Result<Tables, CompileFault>
        ensures known { IfOk result (λ tables. known_in tables ≡ known_of source.now) }
        ensures memory { IfErr result (λ fault. fault ≡ CompileFault.Memory) }
    {
        let words = after_first(source.words.entries.as_slice());
        let rooms = Names::of(alloc, source.rooms.entries.as_slice(), 0, Key::Name)?;
        let messages = Names::of(alloc, source.messages.entries.as_slice(), 0, Key::Name)?;
        let items = Names::of(alloc, source.items.entries.as_slice(), 0, Key::Name)?;
        let verbs = Names::of(alloc, words, 1, Key::Verb)?;
        let nouns = Names::of(alloc, words, 1, Key::Noun)?;
        Ok(Tables {
            rooms,
            messages,
            items,
            verbs,
            nouns,
        })
    }
}
