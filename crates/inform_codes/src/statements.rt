//! Statements.
ghost use Rattle.std.specs.Prelude.{◌≡◌, IfOk};
ghost use Rattle.inform_tree.specs.Statements as s;
ghost use Rattle.inform_codes.specs.Parts.{with_statement};
ghost use Rattle.inform_codes.specs.Codes.{with_set, with_set_entry, with_call, with_if, with_while, with_for, with_return, with_print, with_print_value, with_print_char};
ghost use Rattle.inform_codes.specs.Growths.{waiting};

use crate::growths::Growth;
use adv_io::Memory;
use inform_tree::{Change, Head, Item, Name, Stmt, Text};

impl Growth {
    pub fn take_set(&mut self, name: Name) -> Result<(), Memory>
        ensures { IfOk result (λ _. waiting self.new ≡ with_set name (waiting self.old)) }
    {
        let value = self.pop_value();
        self.push_statement(Stmt::Change(Change::Set(name, value)))
    }

    pub fn take_set_entry(&mut self, name: Name, words: bool) -> Result<(), Memory>
        ensures { IfOk result (λ _. waiting self.new
            ≡ with_set_entry name words (waiting self.old)) }
    {
        let index = self.pop_value();
        let value = self.pop_value();
        self.push_statement(Stmt::Change(Change::SetEntry(name, words, index, value)))
    }

    pub fn take_inc(&mut self, name: Name) -> Result<(), Memory>
        ensures { IfOk result (λ _. waiting self.new
            ≡ with_statement (s.Assign (s.Inc name)) (waiting self.old)) }
    {
        self.push_statement(Stmt::Change(Change::Inc(name)))
    }

    pub fn take_dec(&mut self, name: Name) -> Result<(), Memory>
        ensures { IfOk result (λ _. waiting self.new
            ≡ with_statement (s.Assign (s.Dec name)) (waiting self.old)) }
    {
        self.push_statement(Stmt::Change(Change::Dec(name)))
    }

    pub fn take_read(&mut self, line: Name, words: Name) -> Result<(), Memory>
        ensures { IfOk result (λ _. waiting self.new
            ≡ with_statement (s.Read line words) (waiting self.old)) }
    {
        self.push_statement(Stmt::Read(line, words))
    }

    pub fn take_call(&mut self, name: Name) -> Result<(), Memory>
        ensures { IfOk result (λ _. waiting self.new ≡ with_call name (waiting self.old)) }
    {
        let arguments = self.pop_arguments().into_vec();
        self.push_statement(Stmt::Call(name, arguments))
    }

    #[tactic(auto, using(inform_tree::proofs::Views::statement_of_if))]
    pub fn take_if(&mut self) -> Result<(), Memory>
        ensures { IfOk result (λ _. waiting self.new ≡ with_if (waiting self.old)) }
    {
        let test = self.pop_test();
        let body = self.pop_block().into_vec();
        let other = self.pop_block().into_vec();
        self.push_statement(Stmt::If(test, body, other))
    }

    #[tactic(auto, using(inform_tree::proofs::Views::statement_of_while))]
    pub fn take_while(&mut self) -> Result<(), Memory>
        ensures { IfOk result (λ _. waiting self.new ≡ with_while (waiting self.old)) }
    {
        let test = self.pop_test();
        let body = self.pop_block().into_vec();
        self.push_statement(Stmt::While(test, body))
    }

    #[tactic(auto, using(inform_tree::proofs::Views::statement_of_for))]
    pub fn take_for(&mut self, first: Name, next: Name) -> Result<(), Memory>
        ensures { IfOk result (λ _. waiting self.new ≡ with_for first next (waiting self.old)) }
    {
        let head = Head {
            first: Some(Change::Set(first, self.pop_value())),
            test: Some(self.pop_test()),
            next: Some(Change::Inc(next)),
        };
        let head = Box::new(self.alloc, head)?;
        let body = self.pop_block().into_vec();
        self.push_statement(Stmt::For(head, body))
    }

    pub fn take_return(&mut self) -> Result<(), Memory>
        ensures { IfOk result (λ _. waiting self.new ≡ with_return (waiting self.old)) }
    {
        let value = self.pop_value();
        self.push_statement(Stmt::Return(Some(value)))
    }

    pub fn take_print(&mut self, text: Text) -> Result<(), Memory>
        ensures { IfOk result (λ _. waiting self.new ≡ with_print text (waiting self.old)) }
    {
        let items = vec![in self.alloc; Item::Text(text)]?;
        self.push_statement(Stmt::Print(items))
    }

    pub fn take_print_value(&mut self) -> Result<(), Memory>
        ensures { IfOk result (λ _. waiting self.new ≡ with_print_value (waiting self.old)) }
    {
        let items = vec![in self.alloc; Item::Value(self.pop_value())]?;
        self.push_statement(Stmt::Print(items))
    }

    pub fn take_print_char(&mut self) -> Result<(), Memory>
        ensures { IfOk result (λ _. waiting self.new ≡ with_print_char (waiting self.old)) }
    {
        let items = vec![in self.alloc; Item::Char(self.pop_value())]?;
        self.push_statement(Stmt::Print(items))
    }
}
