//! A table of slots before the names of a program. It answers most look-ups by a number.
ghost use Rattle.std.specs.Prelude.{◌≡◌, ◌≢◌, ◌<◌, ℕ, List, length, IfOk, IfSome, Some};
ghost use Rattle.std.specs.List.{All};
ghost use Rattle.inform_tree.specs.Names.{name_number};
ghost use Rattle.inform_names.specs.Views.{names_of};
ghost use Rattle.inform_worlds.specs.Slots.{Tells};

use adv_io::Memory;
use inform_names::{Accepted, Kind, Meaning, Names, name_of};
use inform_tree::{Directive, Name};
use std::alloc::Global;

/// How many slots there are.
const SLOTS: usize = 1024;

// An odd number: what a name's number times this begins with is spread over the slots.
const SPREAD: u64 = 0x9E37_79B9_7F4A_7C15;

// The number of a name, and what that name means. A slot of the number 0 is empty.
#[derive(Clone, Copy)]
struct Slot {
    number: u64,
    meaning: Meaning,
}

// An empty slot.
const EMPTY: Slot = Slot {
    number: 0,
    meaning: Meaning {
        at: 0,
        kind: Kind::Global,
    },
};

/// What names of an accepted program mean, each in the slot that its number leads to or in the one
/// after it.
///
/// Where both are taken, or the name is too long for a number, it has none: a name that isn't found
/// here may still mean something.
#[derive(Drop)]
pub struct Slots<'a> {
    accepted: &'a Accepted,
    slots: Vec<Slot>,
    pub ghost size: { length slots.items ≡ 1024 },
    pub ghost right: { All (Tells (names_of accepted.now)) slots.items },
}

// The slot to which a number leads.
#[inline(always)]
fn place(number: u64) -> usize
    ensures { result < 1024 }
{
    (number.wrapping_mul(SPREAD) >> 54) as usize % SLOTS
}

// The slot after this one.
#[inline(always)]
fn after(place: usize) -> usize
    requires { place < 1024 }
    ensures { result < 1024 }
{
    (place + 1) % SLOTS
}

impl<'a> Slots<'a> {
    // Keeps what a name means, where there is room.
    fn put(&mut self, name: &Name, meaning: Meaning)
        requires { names_of self.old.accepted.now name.now ≡ Some meaning }
        ensures { self.new.accepted ≡ self.old.accepted }
    {
        let number = name.number();
        let first = place(number);
        let slot = Slot { number, meaning };
        if self.slots[first].number == 0 {
            self.slots[first] = slot;
        } else if self.slots[after(first)].number == 0 {
            self.slots[after(first)] = slot;
        }
    }

    // Keeps what the name of a directive means.
    fn add(&mut self, names: &Names<'a>, directive: &'a Directive)
        requires { names.now.accepted.now ≡ self.old.accepted.now }
        ensures { self.new.accepted ≡ self.old.accepted }
    {
        let name = name_of(directive);
        match names.find(name.bytes()) {
            Some(meaning) => self.put(name, meaning),
            None => {}
        }
    }

    /// The slots of the names of a program.
    pub fn of(alloc: Global, names: &Names<'a>) -> Result<Slots<'a>, Memory>
        ensures { IfOk result (λ slots. slots.accepted.now ≡ names.now.accepted.now) }
    {
        let accepted = names.accepted();
        let mut slots = Slots {
            accepted,
            slots: vec![in alloc; EMPTY; SLOTS]?,
        };
        for directive in &accepted.program().directives {
            slots.add(names, directive);
        }
        Ok(slots)
    }

    // What a name of this number means, if that is in this slot.
    #[inline(always)]
    fn told(&self, number: u64, place: usize) -> Option<Meaning>
        requires number { number ≢ 0 }
        requires place { place < 1024 }
        ensures { IfSome result (λ meaning. (name : List ℕ) → name_number name ≡ number
            → names_of self.now.accepted.now name ≡ Some meaning) }
    {
        let slot = &self.slots[place];
        if slot.number == number {
            return Some(slot.meaning);
        }
        None
    }

    /// What a name means, if it is in a slot of its number.
    #[inline(always)]
    pub fn find(&self, name: &Name) -> Option<Meaning>
        ensures { IfSome result (λ meaning. names_of self.now.accepted.now name.now
            ≡ Some meaning) }
    {
        let number = name.number();
        if number == 0 {
            return None;
        }
        let first = place(number);
        match self.told(number, first) {
            Some(meaning) => Some(meaning),
            None => self.told(number, after(first)),
        }
    }
}
