//! A scan over the bytes of a file.
ghost use Rattle.std.specs.Prelude.{◌≡◌, ◌≢◌, ◌+◌, List, ℕ, ℤ, IfOk, IfErr, OnErr, OnOk, ◌<◌, ◌≤◌, ◌-◌, ◌^◌, length, drop, Ok, Err, MatchResult, ◌↔◌, true, false};
ghost use Rattle.adv_io.specs.Answers.{IsErrOr};
ghost use Rattle.adv_text.specs.Spelling.{greatest, signed, Number, Quoted};
ghost use Rattle.adv_text.specs.Reading.{Input, input, SameEnd, past_whitespace, past_sign, amount_at, number_at, quoted_at, opening_at, Stands, IsFaultOf, Fault, fault_answer, IsText};
ghost use Rattle.adv_text.specs.Laws.{NumberFault, StringFault};

use crate::fast::{plain_string, short_amount, short_number};
use crate::faults::TextFault;
use crate::quoted::next_piece;
use adv_io::is_whitespace;
use std::alloc::Global;
use std::marker::Model;

/// A scan: a place in the bytes of a file, from which it reads on.
///
/// A clause sees an `Input`: the place, counted from the beginning, and the bytes from there on.
#[derive(Drop)]
pub struct Scan<'a> {
    at: usize,
    rest: &'a [u8],
}

impl<'a> Model for Scan<'a> {
    ghost use Rattle.std.specs.Prelude.{◌+◌, ◌<◌, ◌^◌, length};
    ghost use Rattle.adv_text.specs.Reading.{Input};

    ghost Value = { Input };

    ghost view = { λ s. record { at = s.at; rest = s.rest.now } };

    ghost invariant = { λ s. s.at + length s.rest.now < 2 ^ 64 };
}

// The greatest amount of a number of 32 bits, negative or not.
fn greatest(negative: bool) -> u64
    ensures { result ≡ greatest negative }
{
    if negative { 2147483648 } else { 2147483647 }
}

// The number of an amount, negative or not.
fn signed(negative: bool, amount: u64) -> i32
    requires { amount ≤ greatest negative }
    ensures { result ≡ signed negative amount }
{
    if negative {
        (-(amount as i64)) as i32
    } else {
        amount as i32
    }
}

impl<'a> Scan<'a> {
    /// A scan that stands at the beginning of the bytes.
    pub fn new(bytes: &'a [u8]) -> Scan<'a>
        ensures { result ≡ input 0 bytes.now }
    {
        Scan { at: 0, rest: bytes }
    }

    /// A scan that stands at this place, with these bytes from there on.
    pub fn on(at: usize, rest: &'a [u8]) -> Scan<'a>
        requires { at + length rest.now < 2 ^ 64 }
        ensures { result ≡ input at rest.now }
    {
        Scan { at, rest }
    }

    /// The place of the scan, counted from the beginning.
    pub fn at(&self) -> usize
        ensures { result ≡ self.now.at }
    {
        self.at
    }

    /// The bytes from the place of the scan on.
    pub fn rest(&self) -> &'a [u8]
        ensures value { result.now ≡ self.now.rest }
        ensures fits { self.now.at + length self.now.rest < 2 ^ 64 }
    {
        self.rest
    }

    /// Passes over so many bytes, of which there are as many.
    pub fn pass(&mut self, count: usize)
        requires { count ≤ length self.old.rest }
        ensures { self.new ≡ input (self.old.at + count) (drop count self.old.rest) }
    {
        self.at += count;
        self.rest = &self.rest[count..];
    }

    /// Reads a number: whitespace, a sign or none, and decimal digits up to the first byte that is
    /// none.
    ///
    /// Its value lies within 32 bits with a sign. The faults are `NoNumber` and `BigNumber`. This
    /// call takes no memory. docs/FORMAT.md has the rule.
    #[inline(always)]
    pub fn number(&mut self) -> Result<i32, TextFault>
        // What is read is spelled so, and what is spelled so is read.
        ensures spelled { IfOk result (λ z. Number z self.old.rest self.new.rest) }
        ensures only { (z : ℤ) (rest : List ℕ) → Number z self.old.rest rest
            → (result ≡ Ok z) × (self.new.rest ≡ rest) }
        ensures place { OnOk result (SameEnd self.old self.new) }

        // A fault is answered exactly where it stands, and the scan stays.
        ensures exact { (fault : Fault)
            → (result ≡ Err (fault_answer fault)) ↔ NumberFault self.old fault }
        ensures no_memory { result ≢ Err TextFault.Memory }
        ensures stays { OnErr result (self.new ≡ self.old) }

        // The same as a function of the input.
        ensures value { IfOk result (λ z. number_at self.old ≡ Ok (z, self.new)) }
        ensures fault { IfErr result (λ fault. IsFaultOf fault (number_at self.old)) }
    {
        self.next_number()
    }

    /// Reads a string: whitespace, a quote, and all up to the next quote that isn't directly
    /// followed by another. Inside, two quotes and a grave accent are one quote each, and a return
    /// is dropped.
    ///
    /// At most 4,096 bytes are kept. The faults are `NoQuote`, `LongString`, `OpenString` and
    /// `Memory`. docs/FORMAT.md has the rule.
    #[inline(always)]
    pub fn quoted(&mut self, alloc: Global) -> Result<Vec<u8>, TextFault>
        // What is read is spelled so, and what is spelled so is read, unless memory runs out.
        ensures spelled { IfOk result (λ text. Quoted text.items self.old.rest self.new.rest) }
        ensures only { (text rest : List ℕ) → Quoted text self.old.rest rest
            → IsText result text × OnOk result (self.new.rest ≡ rest) }
        ensures place { OnOk result (SameEnd self.old self.new) }

        // A fault but `Memory` is answered only where it stands, and there, and the scan stays.
        ensures exact { (fault : Fault) → result ≡ Err (fault_answer fault)
            → StringFault self.old fault }
        ensures expected { (fault : Fault) → StringFault self.old fault
            → IsErrOr TextFault.Memory result (fault_answer fault) }
        ensures stays { OnErr result (self.new ≡ self.old) }

        // The same as a function of the input.
        ensures value { IfOk result (λ text. quoted_at self.old ≡ Ok (text.items, self.new)) }
        ensures fault { IfErr result (λ fault. Stands fault (quoted_at self.old)) }
    {
        self.next_string(alloc)
    }

    // The next number, as the definition reads it.
    #[inline(always)]
    fn next_number(&mut self) -> Result<i32, TextFault>
        ensures value { IfOk result (λ z. number_at self.old ≡ Ok (z, self.new)) }
        ensures fault { IfErr result (λ fault. IsFaultOf fault (number_at self.old)) }
        ensures stays { OnErr result (self.new ≡ self.old) }
    {
        match short_number(self.rest) {
            Some((number, size)) => {
                self.at += size;
                self.rest = &self.rest[size..];
                Ok(number)
            }
            None => self.any_number(),
        }
    }

    // The same, however it stands.
    #[cold]
    #[tactic(auto, unfolding(crate::specs::Reading::number_at))]
    fn any_number(&mut self) -> Result<i32, TextFault>
        ensures value { IfOk result (λ z. number_at self.old ≡ Ok (z, self.new)) }
        ensures fault { IfErr result (λ fault. IsFaultOf fault (number_at self.old)) }
        ensures stays { OnErr result (self.new ≡ self.old) }
    {
        let start = self.after_whitespace();
        let (negative, digits) = start.after_sign();
        let (number, after) = digits.amount(negative, start.at)?;
        *self = after;
        Ok(number)
    }

    // The next string, as the definition reads it.
    #[inline(always)]
    fn next_string(&mut self, alloc: Global) -> Result<Vec<u8>, TextFault>
        ensures value { IfOk result (λ text. quoted_at self.old ≡ Ok (text.items, self.new)) }
        ensures fault { IfErr result (λ fault. Stands fault (quoted_at self.old)) }
        ensures stays { OnErr result (self.new ≡ self.old) }
    {
        match plain_string(self.rest) {
            Some(inside) => {
                let text = Vec::from_slice(alloc, inside)?;
                let size = inside.len() + 3;
                self.at += size;
                self.rest = &self.rest[size..];
                Ok(text)
            }
            None => self.any_string(alloc),
        }
    }

    // The same, however it stands.
    #[cold]
    #[tactic(auto, unfolding(crate::specs::Reading::quoted_at))]
    fn any_string(&mut self, alloc: Global) -> Result<Vec<u8>, TextFault>
        ensures value { IfOk result (λ text. quoted_at self.old ≡ Ok (text.items, self.new)) }
        ensures fault { IfErr result (λ fault. Stands fault (quoted_at self.old)) }
        ensures stays { OnErr result (self.new ≡ self.old) }
    {
        let start = self.after_whitespace();
        let (text, after) = start.string(alloc)?;
        *self = after;
        Ok(text)
    }

    // The scan after the whitespace.
    fn after_whitespace(&self) -> Scan<'a>
        ensures { result ≡ past_whitespace self.now.at self.now.rest }
    {
        let mut at = self.at;
        let mut rest = self.rest;
        while let [byte, more @ ..] = rest {
            if !is_whitespace(*byte) {
                break;
            }
            at += 1;
            rest = more;
        }
        Scan { at, rest }
    }

    // Whether a minus stands here, and the scan after a sign.
    fn after_sign(&self) -> (bool, Scan<'a>)
        ensures { result ≡ past_sign self.now.at self.now.rest }
    {
        match self.rest {
            [b'-', more @ ..] => (
                true,
                Scan {
                    at: self.at + 1,
                    rest: more,
                },
            ),
            [b'+', more @ ..] => (
                false,
                Scan {
                    at: self.at + 1,
                    rest: more,
                },
            ),
            _ => (
                false,
                Scan {
                    at: self.at,
                    rest: self.rest,
                },
            ),
        }
    }

    // The number of the digits here, and the scan after them. The number began at `start`.
    fn amount(&self, negative: bool, start: usize) -> Result<(i32, Scan<'a>), TextFault>
        ensures { MatchResult result
            (λ x. amount_at negative start self.now.at self.now.rest ≡ Ok x)
            (λ fault. IsFaultOf fault (amount_at negative start self.now.at self.now.rest)) }
    {
        if let Some((amount, size)) = short_amount(self.rest) {
            let after = Scan {
                at: self.at + size,
                rest: &self.rest[size..],
            };
            return Ok((signed(negative, u64::from(amount)), after));
        }
        let [first, more @ ..] = self.rest else {
            return Err(TextFault::NoNumber(start));
        };
        if !first.is_ascii_digit() {
            return Err(TextFault::NoNumber(start));
        }
        let mut amount = u64::from(*first - b'0');
        let mut at = self.at + 1;
        let mut rest = more;
        while let [digit, more @ ..] = rest {
            if !digit.is_ascii_digit() {
                break;
            }
            amount = amount * 10 + u64::from(*digit - b'0');
            if amount > greatest(negative) {
                return Err(TextFault::BigNumber(start));
            }
            at += 1;
            rest = more;
        }
        Ok((signed(negative, amount), Scan { at, rest }))
    }

    // The text of the string that opens here, and the scan after it.
    fn string(&self, alloc: Global) -> Result<(Vec<u8>, Scan<'a>), TextFault>
        ensures read { IfOk result
            (λ x. opening_at self.now.at self.now.rest ≡ Ok (x.0.items, x.1)) }
        ensures fault { IfErr result
            (λ fault. Stands fault (opening_at self.now.at self.now.rest)) }
    {
        let [b'"', more @ ..] = self.rest else {
            return Err(TextFault::NoQuote(self.at));
        };
        let mut text = Vec::new(alloc);
        let mut held = false;
        let mut at = self.at + 1;
        let mut rest = more;
        while let Some((length, quote)) = next_piece(alloc, &mut text, held, rest, self.at)? {
            at += length;
            rest = &rest[length..];
            held = quote;
        }
        if held {
            Ok((text, Scan { at, rest }))
        } else {
            Err(TextFault::OpenString(self.at))
        }
    }
}
