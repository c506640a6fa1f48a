//! An index of names: the number of the entry that each names.
ghost use Rattle.std.specs.Prelude.{◌≡◌, ℕ, List, Option, Some, None, IfOk, IfErr, OnOk, map, if◌then◌else◌};
ghost use Rattle.std.specs.Option.{option_or, option_copied};
ghost use Rattle.std.specs.Str.{bytes_eq};
ghost use Rattle.adv_compiler.specs.declared.names.Key.{Key};
ghost use Rattle.adv_compiler.specs.Known.{has_name, named_from, title_of, column_of};

use crate::faults::CompileFault;
use indexmap::IndexMap;
use scott_types::Text;
use source_reader::{At, ItemPart, MessagePart, RoomPart, WordPart};
use std::alloc::Global;

/// By what entries are found.
#[derive(Clone, Copy)]
pub enum Key {
    /// Their names.
    Name,
    /// The texts of their verbs.
    Verb,
    /// The texts of their nouns.
    Noun,
}

/// What is found by a key.
pub trait Keyed {
    // The key of an entry, or none.
    ghost key_of: { Key → Self → Option (List ℕ) };

    /// The key of an entry, or none.
    fn key(&self, key: Key) -> Option<&[u8]>
        ensures { option_copied result ≡ key_of key self.now };
}

// The name, or none.
fn title(name: &Option<At<Text>>) -> Option<&[u8]>
    ensures { option_copied result ≡ title_of name.now }
{
    match name {
        Some(name) => Some(name.what.bytes()),
        None => None,
    }
}

impl Keyed for RoomPart {
    ghost key_of = { λ _ room. title_of room.name };

    fn key(&self, _key: Key) -> Option<&[u8]> {
        title(&self.name)
    }
}

impl Keyed for MessagePart {
    ghost key_of = { λ _ message. title_of message.name };

    fn key(&self, _key: Key) -> Option<&[u8]> {
        title(&self.name)
    }
}

impl Keyed for ItemPart {
    ghost key_of = { λ _ item. title_of item.name };

    fn key(&self, _key: Key) -> Option<&[u8]> {
        title(&self.name)
    }
}

impl Keyed for WordPart {
    ghost key_of = { column_of };

    fn key(&self, key: Key) -> Option<&[u8]> {
        match key {
            Key::Verb => Some(self.verb.bytes()),
            Key::Noun => Some(self.noun.bytes()),
            Key::Name => None,
        }
    }
}

/// An index of keys: by each the number of the first entry with it.
pub struct Names {
    numbers: IndexMap<Vec<u8>, i32>,
}

impl Drop for Names {
    fn drop(self) {
        let Names { numbers: _ } = self;
    }
}

impl Names {
    ghost use Rattle.adv_compiler.specs.Index.{found_in};

    /// The index of these entries, of which the first has this number.
    pub fn of<T: Keyed>(
        alloc: Global,
        entries: &[At<T>],
        first: u8,
        key: Key,
    ) -> Result<Names, CompileFault>
        ensures found { IfOk result (λ names. (word : List ℕ)
            → found_in names word ≡ named_from (map
            (λ e. T.key_of key e.what) entries.now) first word) }
        ensures memory { IfErr result (λ fault. fault ≡ CompileFault.Memory) }
    {
        let mut names = Names {
            numbers: IndexMap::new(alloc),
        };
        if entries.len() > 2147483000 {
            return Err(CompileFault::Memory);
        }
        let mut number = i32::from(first);
        for entry in entries {
            names.add_key(alloc, entry.what.key(key), number)?;
            number += 1;
        }
        Ok(names)
    }

    // Adds the number of a key, if there is one.
    fn add_key(
        &mut self,
        alloc: Global,
        key: Option<&[u8]>,
        number: i32,
    ) -> Result<(), CompileFault>
        ensures found { OnOk result ((word : List ℕ)
            → found_in self.new word ≡ option_or (found_in self.old word)
            (if has_name word (option_copied key.entry) then Some number else None)) }
        ensures memory { IfErr result (λ fault. fault ≡ CompileFault.Memory) }
    {
        match key {
            Some(name) => self.add(alloc, name, number),
            None => Ok(()),
        }
    }

    // Adds the number of a name, unless it has one.
    fn add(&mut self, alloc: Global, name: &[u8], number: i32) -> Result<(), CompileFault>
        ensures found { OnOk result ((word : List ℕ)
            → found_in self.new word ≡ option_or (found_in self.old word)
            (if bytes_eq word name.now then Some number else None)) }
        ensures memory { IfErr result (λ fault. fault ≡ CompileFault.Memory) }
    {
        if self.numbers.get(name).is_some() {
            return Ok(());
        }
        let key = Vec::from_slice(alloc, name)?;
        self.numbers.insert(key, number)?;
        Ok(())
    }

    /// The number of the entry that a word names.
    pub fn find(&self, word: &[u8]) -> Option<i32>
        ensures { result ≡ found_in self.now word.now }
    {
        self.numbers.get(word).copied()
    }
}
