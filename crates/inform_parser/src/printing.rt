//! `print` and its items.
ghost use Rattle.std.specs.Prelude.{[], ◌∷◌};
ghost use Rattle.inform_tree.specs.Statements.{print_item_of, statement_of};
ghost use Rattle.inform_grammar.specs.Rules as r;
ghost use Rattle.inform_grammar.specs.StatementRules.{print_after};
ghost use Rattle.inform_grammar.specs.Plan.{done, one, many};
ghost use Rattle.inform_parser.specs.Reading.{Reads, ReadsSome};
ghost use Rattle.inform_parser.specs.Views.{items_in};

use crate::cursor::Cursor;
use crate::stops::Stop;
use inform_lexemes::{Keyword, Symbol};
use inform_tree::{Item, Stmt};
use std::alloc::Global;

impl<'a> Cursor<'a> {
    // An item of `print`. What stands in its brackets is `char`, with a value after them, or a value
    // that goes on after them.
    fn item(&mut self, alloc: Global) -> Result<Item, Stop>
        ensures { ReadsSome print_item_of (one r.Item done) self.old result self.new }
    {
        if self.at_text() {
            let text = self.text(alloc)?;
            return Ok(Item::Text(text));
        }
        if self.at(Symbol::LeftRound) {
            self.expect(Symbol::LeftRound)?;
            if self.at_word(Keyword::Char) {
                self.pass_word(Keyword::Char);
                self.expect(Symbol::RightRound)?;
                let code = self.value(alloc)?;
                return Ok(Item::Char(code));
            }
            let first = self.value(alloc)?;
            self.expect(Symbol::RightRound)?;
            let whole = self.value_after(alloc, first)?;
            return Ok(Item::Value(whole));
        }
        let value = self.value(alloc)?;
        Ok(Item::Value(value))
    }

    // The items of `print`, of which one is read.
    fn items(&mut self, alloc: Global, first: Item) -> Result<Vec<Item>, Stop>
        ensures { Reads items_in (many r.FurtherItem (print_item_of first ∷ []) done)
            self.old result self.new }
    {
        let mut items = Vec::with_capacity(alloc, 1)?;
        items.push(first)?;
        while self.at(Symbol::Comma) {
            self.pass(Symbol::Comma);
            let item = self.item(alloc)?;
            items.push(item)?;
        }
        Ok(items)
    }

    /// What follows `print`.
    #[inline(always)]
    pub fn print_after(&mut self, alloc: Global) -> Result<Stmt, Stop>
        ensures { ReadsSome statement_of print_after self.old result self.new }
    {
        let first = self.item(alloc)?;
        let items = self.items(alloc, first)?;
        self.statement_to(Symbol::Semicolon, Stmt::Print(items))
    }
}
