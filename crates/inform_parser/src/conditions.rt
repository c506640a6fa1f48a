//! Conditions.
ghost use Rattle.std.specs.Prelude.{[], ◌∷◌};
ghost use Rattle.inform_tree.specs.Values.{expression_of};
ghost use Rattle.inform_tree.specs.Conditions.{condition_of};
ghost use Rattle.inform_grammar.specs.Rules as r;
ghost use Rattle.inform_grammar.specs.ConditionRules.{relation_after, value_after, bracket_after};
ghost use Rattle.inform_grammar.specs.Plan.{done, one};
ghost use Rattle.inform_parser.specs.Reading.{Reads, ReadsSome};
ghost use Rattle.inform_parser.specs.Guards.{guard_of, join_of, conditions_in};
ghost use Rattle.inform_parser.specs.Plans.{members_from, guard_in_brackets};

use crate::cursor::Cursor;
use crate::guards::{Guard, Join};
use crate::stops::Stop;
use inform_lexemes::Symbol;
use inform_tree::{Cond, Expr};
use std::alloc::Global;

impl<'a> Cursor<'a> {
    // What follows a value: a symbol that compares it with another one, and that, or nothing.
    #[inline(always)]
    fn relation_after(&mut self, alloc: Global, first: Expr) -> Result<Guard, Stop>
        ensures { Reads guard_of (relation_after (expression_of first)) self.old result self.new }
    {
        if self.at_relation() {
            let relation = self.relation()?;
            let second = self.value(alloc)?;
            return Ok(Guard::Tested(Cond::Compare(relation, first, second)));
        }
        Ok(Guard::Plain(first))
    }

    /// A value with a first part in brackets read.
    pub fn value_after(&mut self, alloc: Global, first: Expr) -> Result<Expr, Stop>
        ensures { Reads expression_of (value_after (expression_of first)) self.old result self.new }
    {
        let product = self.factors_after(alloc, first)?;
        self.terms_after(alloc, product)
    }

    // What follows what stands in brackets: an expression may go on, and a condition may not.
    #[tactic(auto, using(crate::proofs::Steps::steps), unfolding(inform_grammar::specs::ConditionRules::bracket_after))]
    fn bracket_after(&mut self, alloc: Global, inside: Guard) -> Result<Guard, Stop>
        ensures { Reads guard_of (bracket_after (guard_of inside)) self.old result self.new }
    {
        match inside {
            Guard::Plain(first) => {
                let value = self.value_after(alloc, first)?;
                self.relation_after(alloc, value)
            }
            Guard::Tested(test) => Ok(Guard::Tested(test)),
        }
    }

    // A test.
    #[cycle(conditions)]
    fn test(&mut self, alloc: Global) -> Result<Guard, Stop>
        ensures { ReadsSome guard_of (one r.Test done) self.old result self.new }
    {
        if self.at(Symbol::Not) {
            self.pass(Symbol::Not);
            let inside = self.guard_in_brackets(alloc)?;
            let inside = Box::new(alloc, inside.into_condition())?;
            return Ok(Guard::Tested(Cond::Not(inside)));
        }
        if self.at(Symbol::LeftRound) {
            let inside = self.guard_in_brackets(alloc)?;
            return self.bracket_after(alloc, inside);
        }
        let value = self.value(alloc)?;
        self.relation_after(alloc, value)
    }

    /// A condition between brackets.
    #[cycle(conditions)]
    pub fn guard_in_brackets(&mut self, alloc: Global) -> Result<Guard, Stop>
        ensures { ReadsSome guard_of guard_in_brackets self.old result self.new }
    {
        self.expect(Symbol::LeftRound)?;
        let guard = self.guard(alloc)?;
        self.guard_to(Symbol::RightRound, guard)
    }

    // A further member of a chain, after its symbol.
    #[cycle(conditions)]
    fn member(&mut self, alloc: Global, join: Join) -> Result<Cond, Stop>
        ensures { ReadsSome condition_of (one (r.Member (join_of join)) done)
            self.old result self.new }
    {
        self.expect(join.symbol())?;
        let test = self.test(alloc)?;
        Ok(test.into_condition())
    }

    // The members of a chain, of which two are read.
    #[cycle(conditions)]
    fn members(
        &mut self,
        alloc: Global,
        join: Join,
        first: Cond,
        second: Cond,
    ) -> Result<Vec<Cond>, Stop>
        ensures { Reads conditions_in
            (members_from (join_of join) (condition_of first ∷ condition_of second ∷ []))
            self.old result self.new }
    {
        let mut members = Vec::with_capacity(alloc, 2)?;
        members.push(first)?;
        members.push(second)?;
        while self.at(join.symbol()) {
            let member = self.member(alloc, join)?;
            members.push(member)?;
        }
        if self.at(join.other_symbol()) {
            return Err(Stop::Mixed);
        }
        Ok(members)
    }

    /// What stands where a condition is expected.
    #[cycle(conditions)]
    pub fn guard(&mut self, alloc: Global) -> Result<Guard, Stop>
        ensures { ReadsSome guard_of (one r.Condition done) self.old result self.new }
    {
        let first = self.test(alloc)?;
        if self.at(Symbol::And) {
            let second = self.member(alloc, Join::All)?;
            let members = self.members(alloc, Join::All, first.into_condition(), second)?;
            return Ok(Guard::Tested(Cond::All(members)));
        }
        if self.at(Symbol::Or) {
            let second = self.member(alloc, Join::Any)?;
            let members = self.members(alloc, Join::Any, first.into_condition(), second)?;
            return Ok(Guard::Tested(Cond::Any(members)));
        }
        Ok(first)
    }
}
