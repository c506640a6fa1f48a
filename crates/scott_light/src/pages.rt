//! Texts that are buffered first, and then said one after the other.
ghost use Rattle.std.specs.Prelude.{◌≡◌, ◌+◌, ◌<◌, ◌≤◌, ◌*◌, ◌++◌, [], length, map, flat_map};
ghost use Rattle.adv_io.specs.Text.{joined, joined_or};
ghost use Rattle.std.specs.List.{All};
ghost use Rattle.adv_io.specs.History.{says};
ghost use Rattle.adv_io.specs.Console.{Speaks};
ghost use Rattle.scott_types.specs.declared.phrases.Phrase.TheVariants.{BetweenItems};
ghost use Rattle.scott_types.specs.Phrase.{text_of};
ghost use Rattle.scott_light.specs.ItemTexts.{texts_of};

use crate::pieces::PagePiece;
use adv_io::{Console, ConsoleFault, SayBuffer};
use arrayvec::ArrayVec;
use scott_types::Item;
use std::marker::Model;

/// Pieces that will be said one after the other: texts, and lists of items. There is room for 40 of
/// them, and a look has fewer, since a list is one piece.
///
/// A clause sees the text that they make, and their number.
#[derive(Drop)]
pub struct Page<'a> {
    pieces: ArrayVec<PagePiece<'a>, 40>,
}

impl<'a> Model for Page<'a> {
    ghost use Rattle.std.specs.Prelude.{flat_map, length};
    ghost use Rattle.std.specs.List.{All};
    ghost use Rattle.scott_light.specs.PageText.{PageText};
    ghost use Rattle.scott_light.specs.Pieces.{piece_text, PieceFits};

    ghost Value = { PageText };

    ghost view = { λ p.
        record { text = flat_map piece_text p.pieces.items; pieces = length p.pieces.items } };

    ghost invariant = { λ p. All PieceFits p.pieces.items };
}

impl<'a> Page<'a> {
    /// A page without a piece.
    pub fn new() -> Page<'a>
        ensures text { result.text ≡ [] }
        ensures pieces { result.pieces ≡ 0 }
    {
        Page {
            pieces: ArrayVec::new(),
        }
    }

    /// Adds a text.
    pub fn add(&mut self, text: &'a [u8])
        requires { self.old.pieces < 40 }
        ensures text { self.new.text ≡ self.old.text ++ text.now }
        ensures pieces { self.new.pieces ≡ self.old.pieces + 1 }
    {
        self.pieces.push(PagePiece::Text(text));
    }

    /// Adds what is shown of the items of these numbers, with the separator of a list of items
    /// between each two.
    pub fn add_items(&mut self, items: &'a [Item], numbers: &'a [u8])
        requires room { self.old.pieces < 40 }
        requires there { All (λ number. number < length items.now) numbers.now }
        ensures text { self.new.text ≡ self.old.text ++ joined (text_of BetweenItems)
            (texts_of items.now numbers.now) }
        ensures pieces { self.new.pieces ≡ self.old.pieces + 1 }
    {
        self.pieces.push(PagePiece::Items(items, numbers));
    }

    /// Adds texts, with a separator between each two, or another text where there are none.
    pub fn join_or(&mut self, texts: &[&'a [u8]], separator: &'a [u8], none: &'a [u8])
        requires { self.old.pieces + 2 * length texts.now < 40 }
        ensures text { self.new.text ≡ self.old.text ++ joined_or none.now separator.now (map
            (λ text. text.now) texts.now) }
        ensures pieces { self.new.pieces ≤ self.old.pieces + 2 * length texts.now + 1 }
    {
        match texts {
            [] => self.add(none),
            _ => self.join(texts, separator),
        }
    }

    // Adds texts, with a separator between each two.
    fn join(&mut self, texts: &[&'a [u8]], separator: &'a [u8])
        requires { self.old.pieces + 2 * length texts.now ≤ 40 }
        ensures text { self.new.text ≡ self.old.text ++ joined separator.now (map
            (λ text. text.now) texts.now) }
        ensures pieces { self.new.pieces ≤ self.old.pieces + 2 * length texts.now }
    {
        if let [first, others @ ..] = texts {
            self.add(first);
            self.add_after(separator, others);
        }
    }

    // Adds each text after the separator.
    fn add_after(&mut self, separator: &'a [u8], texts: &[&'a [u8]])
        requires { self.old.pieces + 2 * length texts.now ≤ 40 }
        ensures text { self.new.text ≡ self.old.text ++ flat_map
            (λ text. separator.now ++ text.now) texts.now }
        ensures pieces { self.new.pieces ≡ self.old.pieces + 2 * length texts.now }
    {
        for text in texts {
            self.add(separator);
            self.add(text);
        }
    }

    /// Says all pieces, one after the other, in as few calls as may be.
    #[inline(never)]
    pub fn say<C: Console>(&self, console: &mut C) -> Result<(), ConsoleFault>
        ensures { Speaks (C.seen console.old) (C.seen console.new) result
            (says self.now.text) }
    {
        let mut buffer = SayBuffer::new();
        for piece in self.pieces.as_slice() {
            piece.buffer_text(&mut buffer, console)?;
        }
        buffer.say(console)
    }
}
