//! The words of the grammar and the other reserved words, by their first letter.
ghost use Rattle.std.specs.Prelude.{◌≡◌, nat_eq, true, find};
ghost use Rattle.std.specs.List.{list_any};
ghost use Rattle.std.specs.Cmp.Lexicographic.{pointwise};
ghost use Rattle.inform_tree.specs.Words.{is_reserved};
ghost use Rattle.inform_lexemes.specs.Keywords.{keyword_text, keyword_spelled};
ghost use Rattle.inform_lexer.specs.Reserved.{reserved_sizes};
ghost use Rattle.inform_lexer.specs.Spans.{word_said};

use inform_lexemes::Keyword;

// Whether a word of the grammar is spelled so.
#[inline(always)]
fn is_spelled(word: &[u8], keyword: Keyword) -> bool
    ensures { result ≡ pointwise nat_eq word.now (keyword_text keyword) }
{
    let spelling = keyword.spelling();
    if word.len() != spelling.len() {
        return false;
    }
    for (i, byte) in word.iter().enumerate() {
        if *byte != spelling[i] {
            return false;
        }
    }
    true
}

// The first of these words that is spelled so.
#[inline(always)]
fn found_in(word: &[u8], keywords: &[Keyword]) -> Option<Keyword>
    ensures { result ≡ find (λ keyword. pointwise nat_eq word.now (keyword_text keyword))
        keywords.now }
{
    for keyword in keywords {
        if is_spelled(word, *keyword) {
            return Some(*keyword);
        }
    }
    None
}

/// The word of the grammar that is spelled so, in lower case.
#[tactic(auto, unfolding(inform_lexemes::specs::Keywords::keyword_spelled))]
pub fn keyword_of(word: &[u8]) -> Option<Keyword>
    ensures { result ≡ keyword_spelled word.now }
{
    let [first, ..] = word else {
        return None;
    };
    match *first {
        b'a' => found_in(word, &[Keyword::Array]),
        b'b' => found_in(word, &[Keyword::Break]),
        b'c' => found_in(word, &[Keyword::Char, Keyword::Constant, Keyword::Continue]),
        b'd' => found_in(word, &[Keyword::Default, Keyword::Do]),
        b'e' => found_in(word, &[Keyword::Else]),
        b'f' => found_in(word, &[Keyword::For]),
        b'g' => found_in(word, &[Keyword::Global]),
        b'i' => found_in(word, &[Keyword::If]),
        b'n' => found_in(word, &[Keyword::NewLine]),
        b'p' => found_in(word, &[Keyword::Print]),
        b'q' => found_in(word, &[Keyword::Quit]),
        b'r' => found_in(
            word,
            &[
                Keyword::Random,
                Keyword::Read,
                Keyword::Return,
                Keyword::Rfalse,
                Keyword::Rtrue,
            ],
        ),
        b's' => found_in(word, &[Keyword::Switch]),
        b't' => found_in(word, &[Keyword::To]),
        b'u' => found_in(word, &[Keyword::Until]),
        b'w' => found_in(word, &[Keyword::While]),
        _ => None,
    }
}

// Whether a number is one of these.
#[inline(always)]
fn is_one_of(number: usize, numbers: &[usize]) -> bool
    ensures { result ≡ list_any (nat_eq number) numbers.now }
{
    numbers.iter().any(|other| number == *other)
}

// Whether a reserved word that begins with this byte has so many letters.
#[tactic(auto, unfolding(crate::specs::Reserved::reserved_sizes))]
#[inline(always)]
fn is_size_from(first: u8, size: usize) -> bool
    ensures { result ≡ list_any (nat_eq size) (reserved_sizes first) }
{
    match first {
        b'a' => is_one_of(size, &[5, 9]),
        b'b' => is_one_of(size, &[3, 5, 6]),
        b'c' => is_one_of(size, &[4, 5, 8, 8]),
        b'd' => is_one_of(size, &[7, 2]),
        b'e' => is_one_of(size, &[4, 6]),
        b'f' => is_one_of(size, &[4, 3]),
        b'g' => is_one_of(size, &[4, 6]),
        b'h' => is_one_of(size, &[3, 5]),
        b'i' => is_one_of(size, &[2, 2, 7, 9]),
        b'j' => is_one_of(size, &[4]),
        b'm' => is_one_of(size, &[4]),
        b'n' => is_one_of(size, &[8, 5]),
        b'o' => is_one_of(size, &[6, 10, 7, 2]),
        b'p' => is_one_of(size, &[5, 9, 8, 8]),
        b'q' => is_one_of(size, &[4]),
        b'r' => is_one_of(size, &[6, 4, 6, 7, 6, 6, 5]),
        b's' => is_one_of(size, &[4, 4, 6, 6, 6, 5, 6]),
        b't' => is_one_of(size, &[5, 2]),
        b'u' => is_one_of(size, &[5]),
        b'v' => is_one_of(size, &[4]),
        b'w' => is_one_of(size, &[5]),
        _ => false,
    }
}

/// Whether a reserved word begins as this one does in lower case, and is as long. What doesn't look
/// so isn't reserved.
#[inline(always)]
pub fn looks_reserved(word: &[u8]) -> bool
    ensures { is_reserved (word_said word.now) ≡ true → result ≡ true }
{
    match word {
        [first, ..] => is_size_from(first.to_ascii_lowercase(), word.len()),
        [] => false,
    }
}
