//! What an item's text says besides what is shown.
ghost use Rattle.std.specs.Prelude.{◌≡◌, position};
ghost use Rattle.std.specs.List.{before_first, after_first, position_or_len};
ghost use Rattle.scott_types.specs.ItemText.{is_slash, is_starred, shown as shown_part, get_word as word_part, is_treasure as is_treasure_text};

use crate::texts::Text;

/// What is shown of an item: its text up to the first `/`, or the whole text.
pub fn shown(text: &Text) -> &[u8]
    ensures { result.now ≡ shown_part text.now }
{
    before_slash(text.bytes())
}

/// The word by which an item is taken: what stands between the first `/` and the next one or the
/// end. It is empty where there is none, also where it begins with `*`.
pub fn get_word(text: &Text) -> &[u8]
    ensures { result.now ≡ word_part text.now }
{
    let word = before_slash(after_slash(text.bytes()));
    if starts_with_star(word) { &[] } else { word }
}

/// Whether an item is a treasure: its text begins with `*`.
pub fn is_treasure(text: &Text) -> bool
    ensures { result ≡ is_treasure_text text.now }
{
    starts_with_star(text.bytes())
}

/// Whether bytes begin with `*`, as a treasure, a synonym, or a room whose text is said alone.
pub fn starts_with_star(bytes: &[u8]) -> bool
    ensures { result ≡ is_starred bytes.now }
{
    match bytes {
        [first, ..] => *first == b'*',
        [] => false,
    }
}

fn first_slash(bytes: &[u8]) -> Option<usize>
    ensures { result ≡ position is_slash bytes.now }
{
    bytes.iter().position(|byte| *byte == b'/')
}

// The place of the first `/`, or the length.
fn slash_place(bytes: &[u8]) -> usize
    ensures { result ≡ position_or_len is_slash bytes.now }
{
    match first_slash(bytes) {
        Some(at) => at,
        None => bytes.len(),
    }
}

fn before_slash(bytes: &[u8]) -> &[u8]
    ensures { result.now ≡ before_first is_slash bytes.now }
{
    &bytes[..slash_place(bytes)]
}

fn after_slash(bytes: &[u8]) -> &[u8]
    ensures { result.now ≡ after_first is_slash bytes.now }
{
    let at = slash_place(bytes);
    if at < bytes.len() {
        &bytes[at + 1..]
    } else {
        &[]
    }
}
