//! Directives, and the program that they are.
ghost use Rattle.std.specs.Prelude.{[], ◌∷◌};
ghost use Rattle.inform_tree.specs.Programs.{directive_of, program_of};
ghost use Rattle.inform_grammar.specs.Rules as r;
ghost use Rattle.inform_grammar.specs.Rule.{constant_after, global_after, array_after, routine_after, program};
ghost use Rattle.inform_grammar.specs.Plan.{done, one, many};
ghost use Rattle.inform_parser.specs.Reading.{Reads, ReadsSome};
ghost use Rattle.inform_parser.specs.Views.{names_in, constants_in, directives_in};

use crate::cursor::Cursor;
use crate::stops::Stop;
use inform_lexemes::{Keyword, Symbol};
use inform_tree::{Const, Directive, Name, Program, Routine};
use std::alloc::Global;

// How many statements a routine is expected to have.
const ROUTINE_ROOM: usize = 4;

impl<'a> Cursor<'a> {
    // The further entries of an array, of which one is read.
    fn entries(&mut self, alloc: Global, first: Const) -> Result<Vec<Const>, Stop>
        ensures { Reads constants_in (many r.Entry (first ∷ []) done) self.old result self.new }
    {
        let mut entries = Vec::new(alloc);
        entries.push(first)?;
        while self.at_entry() {
            let entry = self.entry(alloc)?;
            entries.push(entry)?;
        }
        Ok(entries)
    }

    // The locals of a routine.
    fn locals(&mut self, alloc: Global) -> Result<Vec<Name>, Stop>
        ensures { Reads names_in (many r.Local [] done) self.old result self.new }
    {
        let mut locals = Vec::with_capacity(alloc, usize::from(self.at_name()))?;
        while self.at_name() {
            let local = self.name(alloc)?;
            locals.push(local)?;
        }
        Ok(locals)
    }

    // What follows `constant`.
    fn constant_after(&mut self, alloc: Global) -> Result<Directive, Stop>
        ensures { ReadsSome directive_of constant_after self.old result self.new }
    {
        let name = self.name(alloc)?;
        self.expect(Symbol::Assign)?;
        let value = self.constant(alloc)?;
        self.directive_to(Symbol::Semicolon, Directive::Constant(name, value))
    }

    // What follows `global`.
    fn global_after(&mut self, alloc: Global) -> Result<Directive, Stop>
        ensures { ReadsSome directive_of global_after self.old result self.new }
    {
        let name = self.name(alloc)?;
        if self.at(Symbol::Assign) {
            self.pass(Symbol::Assign);
            let value = self.constant(alloc)?;
            return self.directive_to(Symbol::Semicolon, Directive::Global(name, Some(value)));
        }
        self.directive_to(Symbol::Semicolon, Directive::Global(name, None))
    }

    // What follows `array`.
    fn array_after(&mut self, alloc: Global) -> Result<Directive, Stop>
        ensures { ReadsSome directive_of array_after self.old result self.new }
    {
        let name = self.name(alloc)?;
        let words = self.arrow()?;
        let first = self.entry(alloc)?;
        let entries = self.entries(alloc, first)?;
        self.directive_to(Symbol::Semicolon, Directive::Array(name, words, entries))
    }

    // What follows the opening bracket of a routine.
    fn routine_after(&mut self, alloc: Global) -> Result<Directive, Stop>
        ensures { ReadsSome directive_of routine_after self.old result self.new }
    {
        let name = self.name(alloc)?;
        let locals = self.locals(alloc)?;
        self.expect(Symbol::Semicolon)?;
        let body = self.statements(alloc, ROUTINE_ROOM)?;
        self.expect(Symbol::RightSquare)?;
        let routine = Routine { name, locals, body };
        self.directive_to(Symbol::Semicolon, Directive::Routine(routine))
    }

    // A directive.
    fn directive(&mut self, alloc: Global) -> Result<Directive, Stop>
        ensures { ReadsSome directive_of (one r.Directive done) self.old result self.new }
    {
        if self.at_word(Keyword::Constant) {
            self.pass_word(Keyword::Constant);
            return self.constant_after(alloc);
        }
        if self.at_word(Keyword::Global) {
            self.pass_word(Keyword::Global);
            return self.global_after(alloc);
        }
        if self.at_word(Keyword::Array) {
            self.pass_word(Keyword::Array);
            return self.array_after(alloc);
        }
        self.expect(Symbol::LeftSquare)?;
        self.routine_after(alloc)
    }

    // The directives of a program.
    fn directives(&mut self, alloc: Global) -> Result<Vec<Directive>, Stop>
        ensures { Reads directives_in (many r.Directive [] done) self.old result self.new }
    {
        let mut directives = Vec::new(alloc);
        while self.at_directive() {
            let directive = self.directive(alloc)?;
            directives.push(directive)?;
            self.give_back();
        }
        Ok(directives)
    }

    /// A program, and nothing after it.
    #[tactic(auto, using(crate::proofs::Steps::steps, crate::proofs::DirectiveSteps::program_steps), unfolding(inform_grammar::specs::Rule::program))]
    pub fn program(&mut self, alloc: Global) -> Result<Program, Stop>
        ensures { Reads program_of program self.old result self.new }
    {
        let directives = self.directives(alloc)?;
        if self.seen().is_some() {
            return Err(Stop::Unexpected);
        }
        Ok(Program { directives })
    }
}
