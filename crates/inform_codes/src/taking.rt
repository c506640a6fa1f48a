//! Names, numbers that are handed in, and what each code does.
ghost use Rattle.std.specs.Prelude.{◌≡◌, IfOk, map};
ghost use Rattle.inform_codes.specs.Growths.{waiting};
ghost use Rattle.inform_codes.specs.Codes.{name_in, given_in, taken};

use crate::codes::Code;
use crate::growths::Growth;
use adv_io::Memory;
use inform_tree::{Const, Expr, Name, Stmt, Text};
use std::alloc::Global;
use std::collections::VecDeque;

// A copy of the bytes of a name, or no bytes where there is none at this place.
fn bytes_at(alloc: Global, names: &[&[u8]], at: usize) -> Result<Vec<u8>, Memory>
    ensures { IfOk result (λ bytes. bytes.items ≡ name_in (map (λ n. n.now) names.now) at) }
{
    match names.get(at) {
        Some(name) => Ok(Vec::from_slice(alloc, name)?),
        None => Ok(Vec::new(alloc)),
    }
}

/// The name at this place, or an empty one.
pub fn name_at(alloc: Global, names: &[&[u8]], at: usize) -> Result<Name, Memory>
    ensures { IfOk result (λ name. name ≡ name_in (map (λ n. n.now) names.now) at) }
{
    Ok(Name::of(bytes_at(alloc, names, at)?))
}

fn text_at(alloc: Global, names: &[&[u8]], at: usize) -> Result<Text, Memory>
    ensures { IfOk result (λ text. text ≡ name_in (map (λ n. n.now) names.now) at) }
{
    Ok(Text::of(bytes_at(alloc, names, at)?))
}

fn given_at(given: &[u32], at: usize) -> u32
    ensures { result ≡ given_in given.now at }
{
    match given.get(at) {
        Some(number) => *number,
        None => 0,
    }
}

impl Growth {
    /// Takes a code.
    pub fn take(&mut self, names: &[&[u8]], given: &[u32], code: Code) -> Result<(), Memory>
        ensures { IfOk result (λ _. waiting self.new
            ≡ taken (map (λ n. n.now) names.now) given.now code (waiting self.old)) }
    {
        match code {
            Code::Number(number) => self.push_value(Expr::Number(number)),
            Code::Given(at) => self.push_value(Expr::Number(given_at(given, at))),
            Code::Variable(at) => self.push_value(Expr::Name(name_at(self.alloc, names, at)?)),
            Code::Entry(at, words) => self.take_entry(name_at(self.alloc, names, at)?, words),
            Code::CallValue(at) => self.take_call_value(name_at(self.alloc, names, at)?),
            Code::Random => self.take_random(),
            Code::Neg => self.take_neg(),
            Code::Sum(op) => self.take_sum(op),
            Code::Product(op) => self.take_product(op),
            Code::Argument => self.take_argument(),
            Code::NoMore => self.push_arguments(VecDeque::new(self.alloc)),
            Code::Compare(relation) => self.take_compare(relation),
            Code::Nonzero => self.take_nonzero(),
            Code::Not => self.take_not(),
            Code::Both => self.take_both(),
            Code::Either => self.take_either(),
            Code::Set(at) => self.take_set(name_at(self.alloc, names, at)?),
            Code::SetEntry(at, words) => self.take_set_entry(
                name_at(self.alloc, names, at)?,
                words,
            ),
            Code::Inc(at) => self.take_inc(name_at(self.alloc, names, at)?),
            Code::Dec(at) => self.take_dec(name_at(self.alloc, names, at)?),
            Code::Call(at) => self.take_call(name_at(self.alloc, names, at)?),
            Code::If => self.take_if(),
            Code::While => self.take_while(),
            Code::For(at) => self.take_for(
                name_at(self.alloc, names, at)?,
                name_at(self.alloc, names, at)?,
            ),
            Code::Switch => self.take_switch(),
            Code::Break => self.push_statement(Stmt::Break),
            Code::Quit => self.push_statement(Stmt::Quit),
            Code::Rtrue => self.push_statement(Stmt::Rtrue),
            Code::Rfalse => self.push_statement(Stmt::Rfalse),
            Code::Return => self.take_return(),
            Code::NewLine => self.push_statement(Stmt::NewLine),
            Code::Print(at) => self.take_print(text_at(self.alloc, names, at)?),
            Code::PrintValue => self.take_print_value(),
            Code::PrintChar => self.take_print_char(),
            Code::Read(line, words) => self.take_read(
                name_at(self.alloc, names, line)?,
                name_at(self.alloc, names, words)?,
            ),
            Code::End => self.push_block(VecDeque::new(self.alloc)),
            Code::Case => self.take_case(),
            Code::Choice(number) => self.push_choice(Const::Number(number), None),
            Code::Range(first, last) => self.push_choice(
                Const::Number(first),
                Some(Const::Number(last)),
            ),
            Code::Default => self.take_default(),
            Code::NoDefault => self.take_no_default(),
        }
    }
}
