//! The locals of the routine that runs.
ghost use Rattle.std.specs.Prelude.{◌≡◌, ◌≢◌, ◌≤◌, length};
ghost use Rattle.inform_tree.specs.Names.{name_number};
ghost use Rattle.inform_meaning.specs.Tables.{same_name};

use crate::arguments::Arguments;
use inform_tree::{Name, Routine};

/// How many locals a routine has at most.
pub const LOCALS: usize = 15;

/// The routine that runs, by the number of its directive, and its locals.
#[derive(Clone, Copy)]
pub struct Scope<'a> {
    pub directive: usize,
    pub names: &'a [Name],
    pub locals: [i32; LOCALS],
    pub ghost few: { length names.now ≤ 15 },
}

impl<'a> Scope<'a> {
    ghost use Rattle.std.specs.Prelude.{◌<◌, ℕ, true, false, is_some, [], Some, None, IfSome, IfNone, option_map};
    ghost use Rattle.std.specs.List.{position_from};
    ghost use Rattle.inform_meaning.specs.Tables.{found, updated};
    ghost use Rattle.inform_meaning.specs.Worlds as w;
    ghost use Rattle.inform_tree.specs.Statements.{statements_of};
    ghost use Rattle.inform_worlds.specs.Scopes.{scope_of, table_of, values_of};

    /// The scope of a routine with these arguments.
    pub fn of(directive: usize, routine: &'a Routine, arguments: &Arguments) -> Scope<'a>
        ensures { scope_of result ≡ w.scope_of (record {
          directive = directive;
          locals = routine.now.locals.items;
          body = statements_of routine.now.body.items;
        }) (values_of arguments.now) }
    {
        let mut locals = [0; LOCALS];
        let values = arguments.values();
        locals[..values.len()].copy_from_slice(values);
        Scope {
            directive,
            names: &routine.locals[..routine.locals.len().min(LOCALS)],
            locals,
        }
    }

    /// The scope of a routine without locals.
    pub fn bare(directive: usize) -> Scope<'a>
        ensures { scope_of result ≡ record { directive = directive; locals = [] } }
    {
        Scope {
            directive,
            names: &[],
            locals: [0; LOCALS],
        }
    }

    // The first place of a name among the locals. It goes along what is left of them, which is less
    // work than to find each by its index.
    fn search(&self, name: &Name) -> Option<usize>
        ensures place { result ≡ position_from (same_name name.now) 0 self.now.names.now }
        ensures within { IfSome result (λ place. place < 15) }
    {
        let mut rest = self.names;
        let mut place = 0;
        while let [local, after @ ..] = rest {
            if name.is(local) {
                return Some(place);
            }
            rest = after;
            place += 1;
        }
        None
    }

    // The same, of a name with a number.
    #[inline(always)]
    fn search_short(&self, name: &Name) -> Option<usize>
        requires { name_number name.now ≢ 0 }
        ensures place { result ≡ position_from (same_name name.now) 0 self.now.names.now }
        ensures within { IfSome result (λ place. place < 15) }
    {
        let mut rest = self.names;
        let mut place = 0;
        while let [local, after @ ..] = rest {
            if name.is_short(local) {
                return Some(place);
            }
            rest = after;
            place += 1;
        }
        None
    }

    /// The value of a local, if there is one of this name.
    #[tactic(auto, using(crate::proofs::Tables::place_is, crate::proofs::Tables::got, crate::proofs::Tables::got_none))]
    pub fn get(&self, name: &Name) -> Option<i32>
        ensures { result ≡ found name.now (scope_of self.now).locals }
    {
        match self.search(name) {
            Some(place) => Some(self.locals[place]),
            None => None,
        }
    }

    /// The same, of a name with a number.
    #[inline(always)]
    #[tactic(auto, using(crate::proofs::Tables::place_is, crate::proofs::Tables::got, crate::proofs::Tables::got_none))]
    pub fn get_short(&self, name: &Name) -> Option<i32>
        requires { name_number name.now ≢ 0 }
        ensures { result ≡ found name.now (scope_of self.now).locals }
    {
        match self.search_short(name) {
            Some(place) => Some(self.locals[place]),
            None => None,
        }
    }

    // Another value of the local at this place, if there is one, and whether there is.
    #[inline(always)]
    #[tactic(auto, using(crate::proofs::Tables::place_is, crate::proofs::Tables::put_at, crate::proofs::Tables::put_none, crate::proofs::Tables::is_there, crate::proofs::Tables::is_not_there))]
    fn put(&mut self, name: &Name, place: Option<usize>, value: i32) -> bool
        requires place { place ≡ position_from (same_name name.now) 0 self.old.names.now }
        requires within { IfSome place (λ place. place < 15) }
        ensures found { result ≡ is_some (found name.now (scope_of self.old).locals) }
        ensures same { result ≡ false → self.new ≡ self.old }
        ensures directive { self.new.directive ≡ self.old.directive }
        ensures locals { (scope_of self.new).locals
            ≡ updated name.now value (scope_of self.old).locals }
    {
        match place {
            Some(place) => {
                self.locals[place] = value;
                true
            }
            None => false,
        }
    }

    /// Another value of a local, if there is one of this name, and whether there is.
    pub fn set(&mut self, name: &Name, value: i32) -> bool
        ensures found { result ≡ is_some (found name.now (scope_of self.old).locals) }
        ensures same { result ≡ false → self.new ≡ self.old }
        ensures directive { self.new.directive ≡ self.old.directive }
        ensures locals { (scope_of self.new).locals
            ≡ updated name.now value (scope_of self.old).locals }
    {
        self.put(name, self.search(name), value)
    }

    /// The same, of a name with a number.
    #[inline(always)]
    pub fn set_short(&mut self, name: &Name, value: i32) -> bool
        requires { name_number name.now ≢ 0 }
        ensures found { result ≡ is_some (found name.now (scope_of self.old).locals) }
        ensures same { result ≡ false → self.new ≡ self.old }
        ensures directive { self.new.directive ≡ self.old.directive }
        ensures locals { (scope_of self.new).locals
            ≡ updated name.now value (scope_of self.old).locals }
    {
        self.put(name, self.search_short(name), value)
    }
}
