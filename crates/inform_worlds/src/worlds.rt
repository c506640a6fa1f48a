//! The globals, the arrays and the locals of a run.
ghost use Rattle.std.specs.Prelude.{◌≡◌, ℕ, List};
ghost use Rattle.inform_names.specs.Views.{names_of};

use crate::entries::{entry, fill, has_room, kept, put};
use crate::openings::{first_arrays, first_globals};
use crate::scopes::Scope;
use crate::slots::Slots;
use adv_io::Memory;
use inform_names::laws::meanings_are_of_directives;
use inform_names::{Accepted, Kind, Meaning, Names};
use inform_tree::Name;
use std::alloc::Global;

/// The world of a run: the value of each global and the entries of each array, by the number of its
/// directive, and the locals of the routine that runs.
pub struct World<'a> {
    names: Names<'a>,
    slots: Slots<'a>,
    globals: Vec<i32>,
    arrays: Vec<Vec<i32>>,
    scope: Scope<'a>,
    pub ghost same: { (name : List ℕ) → names_of slots.accepted.now name
        ≡ names_of names.accepted.now name },
}

impl Drop for World<'_> {
    fn drop(self) {
        let World {
            names: _,
            slots: _,
            globals: _,
            arrays: _,
            scope: _,
        } = self;
    }
}

impl<'a> World<'a> {
    ghost use Rattle.std.specs.Prelude.{◌≡◌, ◌<◌, ◌≤◌, Bool, true, false, pos, [], length, map, slice_get, unwrap_or, is_some, Some, None, IfOk, IfSome, IfNone};
    ghost use Rattle.adv_io.specs.declared.lines.TheConstants.{LINE_LIMIT};
    ghost use Rattle.inform_names.specs.declared.meanings.Kind.TheVariants as k;
    ghost use Rattle.inform_meaning.specs.Tables.{renewed};
    ghost use Rattle.inform_names.specs.Views.{directives_of};
    ghost use Rattle.inform_names.specs.Acceptance.{main};
    ghost use Rattle.inform_meaning.specs.Worlds.{value_of, assigned, entries_of, entry_at, stored, has_room, with_line};
    ghost use Rattle.inform_meaning.specs.Programs.{opening_world, routine_named};
    ghost use Rattle.inform_names.specs.Places.{is_global};
    ghost use Rattle.inform_worlds.specs.Worlds.{kept_by, is_any_array, meant_value, globals_of, arrays_of};
    ghost use Rattle.inform_worlds.specs.Scopes.{scope_of};
    ghost use Rattle.inform_worlds.specs.Views.{world_of, program_seen};

    /// The world with which a program opens, in `main`.
    #[tactic(auto, using(crate::proofs::Opening::opening_globals, crate::proofs::Opening::opening_arrays))]
    pub fn open(alloc: Global, accepted: &'a Accepted) -> Result<World<'a>, Memory>
        ensures names { IfOk result (λ w. w.names.accepted.now ≡ accepted.now) }
        ensures world { IfOk result (λ w. world_of w ≡ opening_world accepted.now.width
            (directives_of accepted.now)
            (routine_named accepted.now.width (directives_of accepted.now) main)) }
    {
        meanings_are_of_directives();
        let names = Names::of(alloc, accepted)?;
        let slots = Slots::of(alloc, &names)?;
        let globals = first_globals(alloc, &names)?;
        let arrays = first_arrays(alloc, &names)?;
        let scope = Scope::bare(names.main().0);
        Ok(World {
            names,
            slots,
            globals,
            arrays,
            scope,
        })
    }

    /// The names of the program that runs.
    pub fn names(&self) -> &Names<'a>
        ensures { result.now ≡ self.now.names }
    {
        &self.names
    }

    // What a name means that is in no slot of its number.
    #[inline(never)]
    fn find_elsewhere(&self, name: &Name) -> Option<Meaning>
        ensures { result ≡ names_of self.now.names.accepted.now name.now }
    {
        self.names.find(name.bytes())
    }

    /// What a name means, if anything.
    #[inline(always)]
    pub fn find(&self, name: &Name) -> Option<Meaning>
        ensures { result ≡ names_of self.now.names.accepted.now name.now }
    {
        match self.slots.find(name) {
            Some(meaning) => Some(meaning),
            None => self.find_elsewhere(name),
        }
    }

    // The value of the global that is the directive of this number.
    fn global_value(&self, at: usize) -> i32
        ensures { result ≡ unwrap_or (slice_get self.now.globals.items at) (pos 0) }
    {
        if at < self.globals.len() {
            return self.globals[at];
        }
        0
    }

    // The value that a meaning gives a name that is no local, whatever it is of.
    #[inline(never)]
    #[tactic(auto, using(crate::proofs::ByNumber::meant_global))]
    fn meant_by_any(&self, meaning: Option<Meaning>) -> i32
        ensures { result ≡ meant_value self.now.globals.items meaning }
    {
        match meaning {
            None => 0,
            Some(meaning) => match meaning.kind {
                Kind::Constant(Some(word)) => word,
                Kind::Constant(None) => 0,
                Kind::Global => self.global_value(meaning.at),
                Kind::Array(_) => 0,
                Kind::Routine(_) => 0,
            },
        }
    }

    // The same. Most are of globals.
    #[inline(always)]
    #[tactic(auto, using(crate::proofs::ByNumber::meant_global))]
    fn meant(&self, meaning: Option<Meaning>) -> i32
        ensures { result ≡ meant_value self.now.globals.items meaning }
    {
        match self.global_meant(meaning) {
            Some(at) => self.globals[at],
            None => self.meant_by_any(meaning),
        }
    }

    // The value of a name, whether or not it has a number and a slot.
    #[inline(never)]
    fn value_elsewhere(&self, name: &Name) -> i32
        ensures { result ≡ value_of (program_seen self.now) name.now (world_of self.now) }
    {
        match self.scope.get(name) {
            Some(value) => value,
            None => self.meant(self.find_elsewhere(name)),
        }
    }

    /// The value of a name.
    pub fn value(&self, name: &Name) -> i32
        ensures { result ≡ value_of (program_seen self.now) name.now (world_of self.now) }
    {
        if name.number() == 0 {
            return self.value_elsewhere(name);
        }
        match self.scope.get_short(name) {
            Some(value) => value,
            None => match self.slots.find(name) {
                Some(meaning) => self.meant(Some(meaning)),
                None => self.value_elsewhere(name),
            },
        }
    }

    // The number of the global that a name means, if it means one.
    #[inline(always)]
    fn global_meant(&self, meaning: Option<Meaning>) -> Option<usize>
        ensures means { IfSome result (λ at. meaning
            ≡ Some (record { at = at; kind = k.Global })) }
        ensures within { IfSome result (λ at. at < length self.now.globals.items) }
        ensures none { IfNone result (kept_by is_global self.now.globals.items meaning ≡ None) }
    {
        match meaning {
            None => None,
            Some(meaning) => match meaning.kind {
                Kind::Constant(_) => None,
                Kind::Global => {
                    if meaning.at < self.globals.len() {
                        return Some(meaning.at);
                    }
                    None
                }
                Kind::Array(_) => None,
                Kind::Routine(_) => None,
            },
        }
    }

    // Another value of the global that a name means, if it means one.
    #[inline(always)]
    #[tactic(auto, using(crate::proofs::ByNumber::put_global, crate::proofs::ByNumber::keep_globals))]
    fn put_global(&mut self, name: &Name, meaning: Option<Meaning>, value: i32)
        requires { names_of self.old.names.accepted.now name.now ≡ meaning }
        ensures names { self.new.names ≡ self.old.names }
        ensures arrays { self.new.arrays ≡ self.old.arrays }
        ensures scope { self.new.scope ≡ self.old.scope }
        ensures globals { globals_of (names_of self.new.names.accepted.now) self.new.globals.items
            ≡ renewed (globals_of (names_of self.old.names.accepted.now) self.old.globals.items)
            name.now value }
    {
        meanings_are_of_directives();
        match self.global_meant(meaning) {
            Some(at) => self.globals[at] = value,
            None => {}
        }
    }

    // Another value of a local or a global, whether or not its name has a number and a slot.
    #[inline(never)]
    fn assign_elsewhere(&mut self, name: &Name, value: i32)
        ensures names { self.new.names ≡ self.old.names }
        ensures world { world_of self.new ≡ assigned name.now value (world_of self.old) }
    {
        if self.scope.set(name, value) {
            return;
        }
        let meaning = self.find_elsewhere(name);
        self.put_global(name, meaning, value);
    }

    /// Another value of a local of this name, else of a global, if there is one.
    pub fn assign(&mut self, name: &Name, value: i32)
        ensures names { self.new.names ≡ self.old.names }
        ensures world { world_of self.new ≡ assigned name.now value (world_of self.old) }
    {
        if name.number() == 0 {
            return self.assign_elsewhere(name, value);
        }
        if self.scope.set_short(name, value) {
            return;
        }
        match self.slots.find(name) {
            Some(meaning) => self.put_global(name, Some(meaning), value),
            None => self.assign_elsewhere(name, value),
        }
    }

    // The number of the array that a name means, if it means one.
    #[inline(always)]
    fn array_meant(&self, meaning: Option<Meaning>) -> Option<usize>
        ensures means { IfSome result (λ at. (words : Bool)
            × (meaning ≡ Some (record { at = at; kind = k.Array words }))) }
        ensures within { IfSome result (λ at. at < length self.now.arrays.items) }
        ensures none { IfNone result (kept_by is_any_array
            (map (λ entries. entries.items) self.now.arrays.items) meaning ≡ None) }
    {
        match meaning {
            None => None,
            Some(meaning) => match meaning.kind {
                Kind::Constant(_) => None,
                Kind::Global => None,
                Kind::Array(_) => {
                    if meaning.at < self.arrays.len() {
                        return Some(meaning.at);
                    }
                    None
                }
                Kind::Routine(_) => None,
            },
        }
    }

    // The entries of the array that a name means; none where it means none.
    #[inline(always)]
    fn entries_meant(&self, meaning: Option<Meaning>) -> &[i32]
        ensures { result.now ≡ unwrap_or (kept_by is_any_array
            (map (λ entries. entries.items) self.now.arrays.items) meaning) [] }
    {
        match self.array_meant(meaning) {
            Some(at) => self.arrays[at].as_slice(),
            None => &[],
        }
    }

    // The entries of an array, whether or not its name has a slot.
    #[inline(never)]
    fn entries_elsewhere(&self, name: &Name) -> &[i32]
        ensures { result.now ≡ entries_of name.now (world_of self.now) }
    {
        self.entries_meant(self.find_elsewhere(name))
    }

    // The entries of an array; none where there is no array of this name.
    #[inline(always)]
    fn entries(&self, name: &Name) -> &[i32]
        ensures { result.now ≡ entries_of name.now (world_of self.now) }
    {
        match self.slots.find(name) {
            Some(meaning) => self.entries_meant(Some(meaning)),
            None => self.entries_elsewhere(name),
        }
    }

    /// An entry of an array, if there are such an array and such an entry.
    pub fn entry(&self, name: &Name, index: i32) -> Option<i32>
        ensures { result ≡ entry_at (entries_of name.now (world_of self.now)) index }
    {
        entry(self.entries(name), index)
    }

    // Another value of an entry of the array that a name means, if there are such an array and such
    // an entry, and whether there are.
    #[inline(always)]
    #[tactic(auto, using(crate::proofs::ByNumber::no_entry))]
    fn store_meant(
        &mut self,
        name: &Name,
        meaning: Option<Meaning>,
        words: bool,
        index: i32,
        value: i32,
    ) -> bool
        requires { names_of self.old.names.accepted.now name.now ≡ meaning }
        ensures names { self.new.names ≡ self.old.names }
        ensures found { result ≡ is_some (entry_at (entries_of name.now (world_of self.old)) index) }
        ensures same { result ≡ false → self.new ≡ self.old }
        ensures stored { result ≡ true
            → world_of self.new ≡ stored name.now words index value (world_of self.old) }
    {
        meanings_are_of_directives();
        match self.array_meant(meaning) {
            Some(at) => {
                match entry(self.entries_meant(meaning), index) {
                    None => return false,
                    Some(_) => {}
                }
                put(&mut self.arrays[at], index, kept(words, value));
                true
            }
            None => false,
        }
    }

    // The same, whether or not the name has a slot.
    #[inline(never)]
    fn store_elsewhere(&mut self, name: &Name, words: bool, index: i32, value: i32) -> bool
        ensures names { self.new.names ≡ self.old.names }
        ensures found { result ≡ is_some (entry_at (entries_of name.now (world_of self.old)) index) }
        ensures same { result ≡ false → self.new ≡ self.old }
        ensures stored { result ≡ true
            → world_of self.new ≡ stored name.now words index value (world_of self.old) }
    {
        let meaning = self.find_elsewhere(name);
        self.store_meant(name, meaning, words, index, value)
    }

    /// Another value of an entry of an array, if there are such an array and such an entry, and
    /// whether there are.
    #[inline(always)]
    pub fn store(&mut self, name: &Name, words: bool, index: i32, value: i32) -> bool
        ensures names { self.new.names ≡ self.old.names }
        ensures found { result ≡ is_some (entry_at (entries_of name.now (world_of self.old)) index) }
        ensures same { result ≡ false → self.new ≡ self.old }
        ensures stored { result ≡ true
            → world_of self.new ≡ stored name.now words index value (world_of self.old) }
    {
        match self.slots.find(name) {
            Some(meaning) => self.store_meant(name, Some(meaning), words, index, value),
            None => self.store_elsewhere(name, words, index, value),
        }
    }

    /// Whether an array has room for a line of as many bytes as its first entry says.
    pub fn has_room(&self, name: &Name) -> bool
        ensures { result ≡ has_room (entries_of name.now (world_of self.now)) }
    {
        has_room(self.entries(name))
    }

    /// The value of the global of this name, if there is one.
    pub fn global(&self, name: &[u8]) -> Option<i32>
        ensures { result ≡ (world_of self.now).globals name.now }
    {
        match self.global_meant(self.names.find(name)) {
            Some(at) => Some(self.globals[at]),
            None => None,
        }
    }

    /// An entry of the array of this name, if there are such an array and such an entry.
    pub fn entry_at(&self, name: &[u8], index: u32) -> Option<i32>
        ensures { result ≡ slice_get (entries_of name.now (world_of self.now)) index }
    {
        self.entries_meant(self.names.find(name))
            .get(index as usize)
            .copied()
    }

    /// A line in its buffer, if there is one of this name and it has room.
    #[tactic(auto, using(crate::proofs::ByNumber::put_array, crate::proofs::ByNumber::kept_array, crate::proofs::ByNumber::keep_arrays))]
    pub fn hear(&mut self, name: &Name, line: &[u8])
        requires { length line.now ≤ LINE_LIMIT }
        ensures names { self.new.names ≡ self.old.names }
        ensures room { has_room (entries_of name.now (world_of self.old)) ≡ true
            → world_of self.new ≡ with_line name.now line.now (world_of self.old) }
        ensures no_room { has_room (entries_of name.now (world_of self.old)) ≡ false
            → world_of self.new ≡ world_of self.old }
    {
        meanings_are_of_directives();
        match self.array_meant(self.find(name)) {
            Some(at) => fill(&mut self.arrays[at], line),
            None => {}
        }
    }

    /// The routine that runs, and its locals.
    pub fn scope(&self) -> Scope<'a>
        ensures { scope_of result ≡ (world_of self.now).scope }
    {
        self.scope
    }

    /// Another routine runs, with these locals.
    pub fn enter(&mut self, scope: Scope<'a>)
        ensures names { self.new.names ≡ self.old.names }
        ensures world { world_of self.new
            ≡ record (world_of self.old) { scope = scope_of scope.entry } }
    {
        self.scope = scope;
    }
}
