//! The heads of the cases of a `switch`.
ghost use Rattle.std.specs.Prelude.{[], ◌∷◌};
ghost use Rattle.inform_grammar.specs.Rules as r;
ghost use Rattle.inform_grammar.specs.StatementRules.{range_after, choices_after, head_after};
ghost use Rattle.inform_grammar.specs.Plan.{done, one, many};
ghost use Rattle.inform_parser.specs.Reading.{Reads, ReadsSome};
ghost use Rattle.inform_parser.specs.Plans.{first_choices};
ghost use Rattle.inform_parser.specs.Parts.{choice_of, choices_in, part_of};

use crate::cursor::Cursor;
use crate::parts::Part;
use crate::stops::Stop;
use inform_lexemes::{Keyword, Symbol};
use inform_tree::Const;
use std::alloc::Global;

impl<'a> Cursor<'a> {
    // What follows a constant that begins a choice: the last one of a range, or nothing.
    fn range_after(&mut self, alloc: Global, first: Const) -> Result<(Const, Option<Const>), Stop>
        ensures { Reads choice_of (range_after first) self.old result self.new }
    {
        if self.at_word(Keyword::To) {
            self.pass_word(Keyword::To);
            let last = self.constant(alloc)?;
            return Ok((first, Some(last)));
        }
        Ok((first, None))
    }

    /// A choice of a case.
    pub fn choice(&mut self, alloc: Global) -> Result<(Const, Option<Const>), Stop>
        ensures { ReadsSome choice_of (one r.Choice done) self.old result self.new }
    {
        let first = self.constant(alloc)?;
        self.range_after(alloc, first)
    }

    // The choices of a case, of which one is read.
    fn choices(
        &mut self,
        alloc: Global,
        first: (Const, Option<Const>),
    ) -> Result<Vec<(Const, Option<Const>)>, Stop>
        ensures { Reads choices_in (many r.FurtherChoice (choice_of first ∷ []) done)
            self.old result self.new }
    {
        let mut choices = Vec::with_capacity(alloc, 1)?;
        choices.push(first)?;
        while self.at(Symbol::Comma) {
            self.pass(Symbol::Comma);
            let choice = self.choice(alloc)?;
            choices.push(choice)?;
        }
        Ok(choices)
    }

    /// The choices of a case, of which one is read, and its colon.
    pub fn choices_after(
        &mut self,
        alloc: Global,
        first: (Const, Option<Const>),
    ) -> Result<Vec<(Const, Option<Const>)>, Stop>
        ensures { ReadsSome choices_in (choices_after (choice_of first)) self.old result self.new }
    {
        let choices = self.choices(alloc, first)?;
        self.expect(Symbol::Colon)?;
        Ok(choices)
    }

    /// The choices of the first case, and their colon.
    #[tactic(auto, using(crate::proofs::Steps::steps), unfolding(crate::specs::Plans::first_choices))]
    #[inline(always)]
    pub fn first_choices(&mut self, alloc: Global) -> Result<Vec<(Const, Option<Const>)>, Stop>
        ensures { ReadsSome choices_in first_choices self.old result self.new }
    {
        let first = self.choice(alloc)?;
        self.choices_after(alloc, first)
    }

    /// The head of a case, with its first constant read.
    pub fn head_after(&mut self, alloc: Global, first: Const) -> Result<Part, Stop>
        ensures { ReadsSome part_of (head_after first) self.old result self.new }
    {
        let first = self.range_after(alloc, first)?;
        let choices = self.choices_after(alloc, first)?;
        Ok(Part::Head(choices))
    }
}
