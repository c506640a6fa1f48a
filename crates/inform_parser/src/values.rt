//! Constants and expressions.
ghost use Rattle.std.specs.Prelude.{[], ◌∷◌};
ghost use Rattle.inform_tree.specs.Values.{expression_of};
ghost use Rattle.inform_grammar.specs.Rules as r;
ghost use Rattle.inform_grammar.specs.ValueRules.{arguments, name_after, entry_after, factors_after, terms_after};
ghost use Rattle.inform_grammar.specs.Plan.{done, one, many};
ghost use Rattle.inform_parser.specs.Reading.{Reads, ReadsSome};
ghost use Rattle.inform_parser.specs.Plans.{value_in_brackets};
ghost use Rattle.inform_parser.specs.Views.{same_tree, expressions_of, factors_of, terms_of};

use crate::cursor::Cursor;
use crate::stops::Stop;
use inform_lexemes::{Keyword, Symbol};
use inform_tree::{Const, Expr, Name, ProdOp, SumOp};
use std::alloc::Global;

impl<'a> Cursor<'a> {
    /// A constant.
    pub fn constant(&mut self, alloc: Global) -> Result<Const, Stop>
        ensures { ReadsSome same_tree (one r.Constant done) self.old result self.new }
    {
        if self.at_number() {
            return Ok(Const::Number(self.pass_number()));
        }
        if self.at_character() {
            return Ok(Const::Char(self.pass_character()));
        }
        if self.at_name() {
            return Ok(Const::Name(self.name(alloc)?));
        }
        self.expect(Symbol::Minus)?;
        let number = self.number()?;
        Ok(Const::Minus(number))
    }

    /// An entry of an array.
    pub fn entry(&mut self, alloc: Global) -> Result<Const, Stop>
        ensures { ReadsSome same_tree (one r.Entry done) self.old result self.new }
    {
        if self.at_number() {
            return Ok(Const::Number(self.pass_number()));
        }
        if self.at_character() {
            return Ok(Const::Char(self.pass_character()));
        }
        if self.at_name() {
            return Ok(Const::Name(self.name(alloc)?));
        }
        self.expect(Symbol::LeftRound)?;
        self.expect(Symbol::Minus)?;
        let number = self.number()?;
        self.expect(Symbol::RightRound)?;
        Ok(Const::Minus(number))
    }

    /// What follows the bracket after a name: the arguments of a call, and a closing bracket.
    #[cycle(values)]
    pub fn arguments(&mut self, alloc: Global) -> Result<Vec<Expr>, Stop>
        ensures { ReadsSome expressions_of arguments self.old result self.new }
    {
        if self.at(Symbol::RightRound) {
            self.expect(Symbol::RightRound)?;
            return Ok(Vec::new(alloc));
        }
        let first = self.value(alloc)?;
        let arguments = self.further_arguments(alloc, first)?;
        self.expect(Symbol::RightRound)?;
        Ok(arguments)
    }

    // The further arguments of a call, each after its comma.
    #[cycle(values)]
    fn further_arguments(&mut self, alloc: Global, first: Expr) -> Result<Vec<Expr>, Stop>
        ensures { Reads expressions_of (many r.Argument (expression_of first ∷ []) done)
            self.old result self.new }
    {
        let mut arguments = Vec::with_capacity(alloc, 1)?;
        arguments.push(first)?;
        while self.at(Symbol::Comma) {
            self.pass(Symbol::Comma);
            let argument = self.value(alloc)?;
            arguments.push(argument)?;
        }
        arguments.shrink_to_fit();
        Ok(arguments)
    }

    // What follows a name that is no array.
    #[cycle(values)]
    #[inline(always)]
    fn name_after(&mut self, alloc: Global, name: Name) -> Result<Expr, Stop>
        ensures { Reads expression_of (name_after name) self.old result self.new }
    {
        if self.at(Symbol::LeftRound) {
            self.expect(Symbol::LeftRound)?;
            let arguments = self.arguments(alloc)?;
            return Ok(Expr::Call(name, arguments));
        }
        Ok(Expr::Name(name))
    }

    // What follows a name where an entry of an array may stand.
    #[cycle(values)]
    #[inline(always)]
    fn entry_after(&mut self, alloc: Global, name: Name) -> Result<Expr, Stop>
        ensures { Reads expression_of (entry_after name) self.old result self.new }
    {
        if self.at_arrow() {
            let words = self.arrow()?;
            let index = self.primary(alloc)?;
            return Ok(Expr::Entry(name, words, Box::new(alloc, index)?));
        }
        self.name_after(alloc, name)
    }

    /// An operand without a sign.
    #[cycle(values)]
    pub fn primary(&mut self, alloc: Global) -> Result<Expr, Stop>
        ensures { ReadsSome expression_of (one r.Primary done) self.old result self.new }
    {
        if self.at_number() {
            return Ok(Expr::Number(self.pass_number()));
        }
        if self.at_character() {
            return Ok(Expr::Char(self.pass_character()));
        }
        if self.at_name() {
            let name = self.name(alloc)?;
            return self.name_after(alloc, name);
        }
        if self.at_word(Keyword::Random) {
            self.pass_word(Keyword::Random);
            let limit = self.value_in_brackets(alloc)?;
            return Ok(Expr::Random(Box::new(alloc, limit)?));
        }
        self.value_in_brackets(alloc)
    }

    /// A value between brackets.
    #[cycle(values)]
    pub fn value_in_brackets(&mut self, alloc: Global) -> Result<Expr, Stop>
        ensures { ReadsSome expression_of value_in_brackets self.old result self.new }
    {
        self.expect(Symbol::LeftRound)?;
        let value = self.value(alloc)?;
        self.expect(Symbol::RightRound)?;
        Ok(value)
    }

    // An operand.
    #[cycle(values)]
    #[inline(always)]
    fn unary(&mut self, alloc: Global) -> Result<Expr, Stop>
        ensures { ReadsSome expression_of (one r.Unary done) self.old result self.new }
    {
        if self.at_name() {
            let name = self.name(alloc)?;
            return self.entry_after(alloc, name);
        }
        if self.at(Symbol::Minus) {
            self.pass(Symbol::Minus);
            let operand = self.primary(alloc)?;
            return Ok(Expr::Neg(Box::new(alloc, operand)?));
        }
        self.primary(alloc)
    }

    // The further factors, each after its sign.
    #[cycle(values)]
    fn factors(&mut self, alloc: Global) -> Result<Vec<(ProdOp, Expr)>, Stop>
        ensures { Reads factors_of (many r.Factor [] done) self.old result self.new }
    {
        let mut factors = Vec::new(alloc);
        while self.at_factor() {
            let sign = self.factor_sign()?;
            let factor = self.unary(alloc)?;
            factors.push((sign, factor))?;
        }
        Ok(factors)
    }

    /// A product with its first factor read; a factor by itself, as in most places, is none.
    #[cycle(values)]
    #[inline(always)]
    pub fn factors_after(&mut self, alloc: Global, first: Expr) -> Result<Expr, Stop>
        ensures { Reads expression_of (factors_after (expression_of first))
            self.old result self.new }
    {
        if !self.at_factor() {
            return Ok(first);
        }
        let factors = self.factors(alloc)?;
        if factors.is_empty() {
            return Ok(first);
        }
        Ok(Expr::Product(Box::new(alloc, first)?, factors))
    }

    // A product.
    #[cycle(values)]
    #[inline(always)]
    fn product(&mut self, alloc: Global) -> Result<Expr, Stop>
        ensures { ReadsSome expression_of (one r.Product done) self.old result self.new }
    {
        let first = self.unary(alloc)?;
        self.factors_after(alloc, first)
    }

    // The further terms, each after its sign.
    #[cycle(values)]
    fn terms(&mut self, alloc: Global) -> Result<Vec<(SumOp, Expr)>, Stop>
        ensures { Reads terms_of (many r.Term [] done) self.old result self.new }
    {
        let mut terms = Vec::new(alloc);
        while self.at_term() {
            let sign = self.term_sign()?;
            let term = self.product(alloc)?;
            terms.push((sign, term))?;
        }
        Ok(terms)
    }

    /// A sum with its first term read; a term by itself, as in most places, is none.
    #[cycle(values)]
    #[inline(always)]
    pub fn terms_after(&mut self, alloc: Global, first: Expr) -> Result<Expr, Stop>
        ensures { Reads expression_of (terms_after (expression_of first)) self.old result self.new }
    {
        if !self.at_term() {
            return Ok(first);
        }
        let terms = self.terms(alloc)?;
        if terms.is_empty() {
            return Ok(first);
        }
        Ok(Expr::Sum(Box::new(alloc, first)?, terms))
    }

    /// A value.
    #[cycle(values)]
    pub fn value(&mut self, alloc: Global) -> Result<Expr, Stop>
        ensures { ReadsSome expression_of (one r.Value done) self.old result self.new }
    {
        let first = self.product(alloc)?;
        self.terms_after(alloc, first)
    }
}
