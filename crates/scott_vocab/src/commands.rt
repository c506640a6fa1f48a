//! The command that a line means.
ghost use Rattle.std.specs.Prelude.{◌≡◌, IfSome};
ghost use Rattle.scott_types.specs.declared.commands.Column.TheVariants.{Nouns};
ghost use Rattle.scott_rules.specs.Words.{which};
ghost use Rattle.scott_rules.specs.Commands.{whole_word, heard, is_direction, noun_named};
ghost use Rattle.scott_vocab.specs.Span.{IsWithin};
ghost use Rattle.scott_vocab.specs.Heard.{IsEntry, IsThere};

use crate::splitting::{split, word_at};
use crate::vocabularies::Vocabulary;
use adv_io::Line;
use scott_types::verbs::{GO, LAST_DIRECTION};
use scott_types::{Column, Heard};

/// What a line means: nothing, a word that isn't known and where it stands in the line, or a verb
/// and perhaps a noun, by the numbers of their base entries.
///
/// The vocabulary is asked for a direction, for the verb, and for the noun that stands after it.
///
/// docs/TURN.md, "A line", states the rule.
pub fn command<V: Vocabulary>(vocabulary: &V, line: &Line) -> Heard
    ensures value { result ≡ heard (V.db vocabulary.now) line.now }
    ensures there { IsThere (V.db vocabulary.now) line.now result }
{
    let words = split(line);
    let Some((start, length)) = words.first else {
        return Heard::Blank;
    };
    let typed = word_at(line, start, length);
    let word = if words.second.is_none() {
        whole_word(typed)
    } else {
        typed
    };
    if let Some(noun) = noun_of(vocabulary, word)
        && is_direction(noun)
    {
        return Heard::Command(GO, Some(noun));
    }
    match vocabulary.named(Column::Verbs, word) {
        Some(verb) => Heard::Command(verb, noun_at(vocabulary, line, words.second)),
        None => Heard::Unknown(start, length),
    }
}

/// Whether a noun is a direction, one of 1 to 6.
pub fn is_direction(noun: u16) -> bool
    ensures { result ≡ is_direction noun }
{
    1 <= noun && noun <= LAST_DIRECTION
}

// The noun that a word names.
fn noun_of<V: Vocabulary>(vocabulary: &V, word: &[u8]) -> Option<u16>
    ensures value { result ≡ which (V.db vocabulary.now) Nouns word.now }
    ensures there { IsEntry (V.db vocabulary.now) result }
{
    vocabulary.named(Column::Nouns, word)
}

// The noun that the word at a place of the line names.
fn noun_at<V: Vocabulary>(vocabulary: &V, line: &Line, place: Option<(u8, u8)>) -> Option<u16>
    requires { IfSome place (λ span. IsWithin span line.now) }
    ensures value { result ≡ noun_named (V.db vocabulary.now) line.now place }
    ensures there { IsEntry (V.db vocabulary.now) result }
{
    let (start, length) = place?;
    noun_of(vocabulary, word_at(line, start, length))
}

// What a letter stands for; any other word is itself.
fn whole_word(word: &[u8]) -> &[u8]
    ensures { result.now ≡ whole_word word.now }
{
    match word {
        b"n" => b"north",
        b"s" => b"south",
        b"e" => b"east",
        b"w" => b"west",
        b"u" => b"up",
        b"d" => b"down",
        b"i" => b"inventory",
        _ => word,
    }
}
