//! Reading texts and numbers, each in the one way in which it is written.
ghost use Rattle.std.specs.Prelude.{◌≡◌, ℤ, Some, None, IsTrue, IfSome, MatchOption, length};
ghost use Rattle.adv_text.specs.Reading.{input, number_at};
ghost use Rattle.adv_position.specs.Numbers.{is_within};
ghost use Rattle.adv_position.specs.Reading.{after_text, exact, number_in, field_in, fields_in, numbers_in};

use crate::numbers::Number;
use adv_text::Scan;
use itoa::Buffer;
use std::marker::Model;

/// A reader of bytes from left to right. What isn't there is answered by `None`, and then no more
/// is said of the reader.
///
/// A clause sees the bytes that are left.
#[derive(Drop)]
pub struct Reader<'a> {
    rest: &'a [u8],
}

impl<'a> Model for Reader<'a> {
    ghost use Rattle.std.specs.Prelude.{List, ℕ};

    ghost Value = { List ℕ };

    ghost view = { λ r. r.rest.now };
}

impl<'a> Reader<'a> {
    /// A reader of all bytes.
    pub fn new(bytes: &'a [u8]) -> Reader<'a>
        ensures { result ≡ bytes.now }
    {
        Reader { rest: bytes }
    }

    /// The bytes that are left.
    pub fn rest(&self) -> &'a [u8]
        ensures { result.now ≡ self.now }
    {
        self.rest
    }

    /// Reads a text.
    pub fn text(&mut self, text: &[u8]) -> Option<()>
        ensures { MatchOption result
            (after_text text.now self.old ≡ None)
            (λ _. after_text text.now self.old ≡ Some self.new) }
    {
        self.rest = self.rest.strip_prefix(text)?;
        Some(())
    }

    // Reads a number from the least to the most, which begins here.
    fn exact(&mut self, least: i32, most: i32) -> Option<i32>
        ensures value { let found = number_at (input 0 self.old) in MatchOption result
            (exact least most self.old found ≡ None)
            (λ z. exact least most self.old found ≡ Some (z, self.new)) }
        ensures within { IfSome result (λ z. IsTrue (is_within least most z)) }
    {
        let Ok(number) = Scan::new(self.rest).number() else {
            return None;
        };
        if number < least || most < number {
            return None;
        }
        self.text(Buffer::new().format(number).as_bytes())?;
        Some(number)
    }

    // Reads such a number after a space.
    fn number(&mut self, least: i32, most: i32) -> Option<i32>
        ensures value { MatchOption result
            (number_in least most self.old ≡ None)
            (λ z. number_in least most self.old ≡ Some (z, self.new)) }
        ensures within { IfSome result (λ z. IsTrue (is_within least most z)) }
    {
        self.text(b" ")?;
        self.exact(least, most)
    }

    /// Reads a label and the value of a number after a space, from the least to the most.
    pub fn field<N: Number>(&mut self, label: &[u8], least: i32, most: i32) -> Option<N>
        requires { (z : ℤ) → IsTrue (is_within least most z) → IsTrue (N.can_have z) }
        ensures { MatchOption result
            (field_in N.value_of label.now least most self.old ≡ None)
            (λ n. field_in N.value_of label.now least most self.old ≡ Some (n, self.new)) }
    {
        self.text(label)?;
        let number = self.number(least, most)?;
        Some(N::of(number))
    }

    // Reads a value for each place of a list.
    fn fields<N: Number>(&mut self, least: i32, most: i32, values: &mut [N]) -> Option<()>
        requires { (z : ℤ) → IsTrue (is_within least most z) → IsTrue (N.can_have z) }
        ensures { let count = length values.old in MatchOption result
            (fields_in N.value_of least most count self.old ≡ None)
            (λ _. fields_in N.value_of least most count self.old ≡ Some (values.new, self.new)) }
    {
        for value in values.iter_mut() {
            *value = self.field(b"", least, most)?;
        }
        Some(())
    }

    /// Reads a line: a label, a value for each place of a list, and the line's end.
    pub fn numbers<N: Number>(
        &mut self,
        label: &[u8],
        least: i32,
        most: i32,
        values: &mut [N],
    ) -> Option<()>
        requires { (z : ℤ) → IsTrue (is_within least most z) → IsTrue (N.can_have z) }
        ensures { let count = length values.old in MatchOption result
            (numbers_in N.value_of label.now least most count self.old ≡ None)
            (λ _. numbers_in N.value_of label.now least most count self.old
            ≡ Some (values.new, self.new)) }
    {
        self.text(label)?;
        self.fields(least, most, values)?;
        self.text(b"\n")
    }
}
