//! The pieces of a page, and how each is buffered.
ghost use Rattle.std.specs.Prelude.{◌≡◌, ◌<◌, ◌++◌, length, flat_map};
ghost use Rattle.adv_io.specs.Text.{joined};
ghost use Rattle.std.specs.List.{All};
ghost use Rattle.adv_io.specs.Console.{Buffers};
ghost use Rattle.scott_types.specs.declared.phrases.Phrase.TheVariants.{BetweenItems};
ghost use Rattle.scott_types.specs.Phrase.{text_of};
ghost use Rattle.scott_light.specs.ItemTexts.{shown_at, texts_of};

use adv_io::{Console, ConsoleFault, SayBuffer};
use scott_types::{Item, Phrase, shown};

/// A piece of a page: a text, or what is shown of the items of these numbers, with the separator of
/// a list of items between each two.
#[derive(Drop)]
pub(crate) enum PagePiece<'a> {
    Text(&'a [u8]),
    Items(&'a [Item], &'a [u8]),
}

// The pieces that a page doesn't have yet.
impl<'a> Default for PagePiece<'a> {
    fn default() -> PagePiece<'a> {
        PagePiece::Text(&[])
    }
}

impl<'a> PagePiece<'a> {
    ghost use Rattle.scott_light.specs.Pieces.{piece_text, PieceFits};

    /// Buffers the piece's text.
    pub(crate) fn buffer_text<C: Console>(
        &self,
        buffer: &mut SayBuffer,
        console: &mut C,
    ) -> Result<(), ConsoleFault>
        requires { PieceFits self.now }
        ensures { Buffers (C.seen console.old) (C.seen console.new) result
            buffer.old buffer.new (piece_text self.now) }
    {
        match self {
            PagePiece::Text(text) => buffer.buffer_text(text, console),
            PagePiece::Items(items, numbers) => buffer_items(items, numbers, buffer, console),
        }
    }
}

// What is shown of the item of a number.
fn shown_at(items: &[Item], number: u8) -> &[u8]
    requires { number < length items.now }
    ensures { result.now ≡ shown_at items.now number }
{
    shown(&items[number as usize].text)
}

// Buffers the items of these numbers, as a list.
fn buffer_items<C: Console>(
    items: &[Item],
    numbers: &[u8],
    buffer: &mut SayBuffer,
    console: &mut C,
) -> Result<(), ConsoleFault>
    requires { All (λ number. number < length items.now) numbers.now }
    ensures { Buffers (C.seen console.old) (C.seen console.new) result
        buffer.old buffer.new (joined (text_of BetweenItems) (texts_of items.now numbers.now)) }
{
    match numbers {
        [] => Ok(()),
        [first, others @ ..] => {
            buffer.buffer_text(shown_at(items, *first), console)?;
            buffer_others(items, others, buffer, console)
        }
    }
}

// Buffers the items of these numbers, each after the separator.
fn buffer_others<C: Console>(
    items: &[Item],
    numbers: &[u8],
    buffer: &mut SayBuffer,
    console: &mut C,
) -> Result<(), ConsoleFault>
    requires { All (λ number. number < length items.now) numbers.now }
    ensures { Buffers (C.seen console.old) (C.seen console.new) result
        buffer.old buffer.new
        (flat_map (λ number. text_of BetweenItems ++ shown_at items.now number) numbers.now) }
{
    for number in numbers {
        buffer_after(shown_at(items, *number), buffer, console)?;
    }
    Ok(())
}

// Buffers a text after the separator.
fn buffer_after<C: Console>(
    text: &[u8],
    buffer: &mut SayBuffer,
    console: &mut C,
) -> Result<(), ConsoleFault>
    ensures { Buffers (C.seen console.old) (C.seen console.new) result
        buffer.old buffer.new (text_of BetweenItems ++ text.now) }
{
    buffer.buffer_text(Phrase::BetweenItems.text(), console)?;
    buffer.buffer_text(text, console)
}
