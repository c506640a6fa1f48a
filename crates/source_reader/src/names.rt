//! The words of the language. A word that is none of them is a name.
ghost use Rattle.std.specs.Prelude.{◌≡◌, ◌≤◌, ◌<◌, [], map, length, slice_index_or};
ghost use Rattle.std.specs.List.{position};
ghost use Rattle.std.specs.Str.{bytes_eq};
ghost use Rattle.source_reader.specs.Names.{condition_code, opcode_number, condition_word, opcode_word, is_name};

// The words of conditions by their codes, from 0 on.
const CONDITION_WORDS: [&[u8]; 20] = [
    b"param",
    b"carried",
    b"here",
    b"near",
    b"at",
    b"not_here",
    b"not_carried",
    b"not_at",
    b"flag_set",
    b"flag_clear",
    b"some_carried",
    b"none_carried",
    b"not_near",
    b"in_game",
    b"out_of_game",
    b"counter_most",
    b"counter_over",
    b"at_start",
    b"not_at_start",
    b"counter_is",
];

// The words of opcodes by their numbers, from 52 on.
const OPCODE_WORDS: [&[u8]; 38] = [
    b"get",
    b"drop",
    b"go",
    b"remove",
    b"darken",
    b"lighten",
    b"set",
    b"remove2",
    b"clear",
    b"die",
    b"put",
    b"finish",
    b"look",
    b"score",
    b"inventory",
    b"set0",
    b"clear0",
    b"refill",
    b"screen",
    b"save",
    b"swap",
    b"more",
    b"take",
    b"join",
    b"look2",
    b"counter_down",
    b"counter_show",
    b"counter_set",
    b"swap_saved",
    b"counter_swap",
    b"counter_add",
    b"counter_sub",
    b"noun",
    b"noun_line",
    b"newline",
    b"swap_room",
    b"pause",
    b"picture",
];

// The other words of the language.
const OTHER_WORDS: [&[u8]; 23] = [
    b"header",
    b"unused",
    b"carry",
    b"start",
    b"treasures",
    b"length",
    b"light",
    b"home",
    b"words",
    b"rooms",
    b"room",
    b"messages",
    b"message",
    b"items",
    b"item",
    b"lines",
    b"line",
    b"auto",
    b"also",
    b"trailer",
    b"nowhere",
    b"say",
    b"op",
];

// The number of a word in a list of words.
fn among(words: &[&[u8]], word: &[u8]) -> Option<usize>
    ensures { result ≡ position (λ w. bytes_eq w.now word.now) words.now }
{
    words.iter().position(|w| *w == word)
}

/// The code of the condition with this word, 0..19.
pub fn condition_code(word: &[u8]) -> Option<u8>
    ensures { result ≡ condition_code word.now }
{
    among(&CONDITION_WORDS, word).map(|code| code as u8)
}

/// The number of the opcode with this word, 52..89.
pub fn opcode_number(word: &[u8]) -> Option<u8>
    ensures { result ≡ opcode_number word.now }
{
    among(&OPCODE_WORDS, word).map(|k| (k + 52) as u8)
}

// The word of this number in a list of words.
fn word_at<'a>(words: &[&'a [u8]], k: usize) -> &'a [u8]
    requires { k < length words.now }
    ensures { result.now ≡ slice_index_or (map (λ w. w.now) words.now) k [] }
{
    words[k]
}

/// The word of the condition with this code.
#[tactic(auto, unfolding(crate::specs::Names::condition_word))]
pub fn condition_word(code: u8) -> &'static [u8]
    requires { code < 20 }
    ensures { result.now ≡ condition_word code }
{
    word_at(&CONDITION_WORDS, code as usize)
}

/// The word of the opcode with this number.
#[tactic(auto, unfolding(crate::specs::Names::opcode_word))]
pub fn opcode_word(number: u8) -> &'static [u8]
    requires least { 52 ≤ number }
    requires most { number < 90 }
    ensures { result.now ≡ opcode_word number }
{
    word_at(&OPCODE_WORDS, (number - 52) as usize)
}

/// Whether a word is a name, and none of the language.
#[tactic(auto, using(crate::proofs::NameWords::name_second))]
pub fn is_name(word: &[u8]) -> bool
    ensures { result ≡ is_name word.now }
{
    // No word of the language has a digit as its second byte.
    if word.len() >= 2 && word[1].is_ascii_digit() {
        return true;
    }
    is_none_of_the_language(word)
}

// The same, by all words of the language.
#[tactic(auto, unfolding(crate::specs::Names::is_name))]
fn is_none_of_the_language(word: &[u8]) -> bool
    ensures { result ≡ is_name word.now }
{
    !(among(&OTHER_WORDS, word).is_some()
        || among(&CONDITION_WORDS, word).is_some()
        || among(&OPCODE_WORDS, word).is_some())
}
