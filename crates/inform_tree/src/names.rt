//! A name of a program.
ghost use Rattle.std.specs.Prelude.{◌≡◌, ◌≢◌, ◌≤◌, ◌<◌, length, map, take, nat_eq, IfOk};
ghost use Rattle.std.specs.Char.{to_ascii_lowercase};
ghost use Rattle.std.specs.Cmp.Lexicographic.{pointwise};
ghost use Rattle.inform_tree.specs.Names.{with_byte, name_number};

use std::alloc::{AllocError, Global};
use std::marker::Model;

/// How many bytes of a name stand in the tree itself. Those of a longer one stand elsewhere.
const SHORT: usize = 15;

// Numbers below this have room for one more byte.
const ROOM: u64 = 144_115_188_075_855_872;

// A name of few bytes, with its number.
#[derive(Drop)]
struct Short {
    number: u64,
    count: u8,
    bytes: [u8; SHORT],
    pub ghost few: { count ≤ 15 },
    pub ghost numbered: { number ≡ name_number (take count bytes) },
}

// A name of more bytes.
#[derive(Drop)]
struct Long {
    bytes: Vec<u8>,
    pub ghost many: { 15 < length bytes.items },
}

// Where the bytes of a name stand.
#[derive(Drop)]
enum Kept {
    Short(Short),
    Long(Long),
}

/// A name of a constant, a global, an array, a routine or a local.
///
/// A clause sees the list of its bytes. Not every such list is a name that a program may have: that
/// is for `Program::well_formed` to say.
pub struct Name {
    kept: Kept,
}

impl Drop for Name {
    fn drop(self) {
        let Name { kept: _ } = self;
    }
}

impl Model for Name {
    ghost use Rattle.std.specs.Prelude.{List, ℕ};
    ghost use Rattle.inform_tree.specs.Kept.{bytes_kept};

    ghost Value = { List ℕ };

    ghost view = { λ n. bytes_kept n.kept };
}

// A byte before what a number tells, where there is room for it.
#[inline(always)]
fn with_byte(byte: u8, number: u64) -> u64
    ensures { result ≡ with_byte byte number }
{
    if byte < 128 && 0 < number && number < ROOM {
        return u64::from(byte) + 128 * number;
    }
    0
}

// The number of a name with these bytes.
fn number(bytes: &[u8]) -> u64
    ensures { result ≡ name_number bytes.now }
{
    let mut number = 1;
    let mut rest = bytes;
    while let [before @ .., last] = rest {
        number = with_byte(*last, number);
        rest = before;
    }
    number
}

// A name of so many of these bytes.
fn short_of(bytes: [u8; SHORT], count: usize) -> Short
    requires { count ≤ 15 }
    ensures { take result.count result.bytes ≡ take count bytes }
{
    Short {
        number: number(&bytes[..count]),
        count: count as u8,
        bytes,
    }
}

impl Name {
    /// The name of these bytes.
    pub fn of(bytes: Vec<u8>) -> Name
        ensures { result ≡ bytes.items }
    {
        let count = bytes.len();
        if count > SHORT {
            return Name {
                kept: Kept::Long(Long { bytes }),
            };
        }
        let mut short = [0; SHORT];
        short[..count].copy_from_slice(bytes.as_slice());
        Name {
            kept: Kept::Short(short_of(short, count)),
        }
    }

    /// The name that a word says, in lower case.
    pub fn lower_of(alloc: Global, word: &[u8]) -> Result<Name, AllocError>
        ensures { IfOk result (λ name. name ≡ map to_ascii_lowercase word.now) }
    {
        let count = word.len();
        if count > SHORT {
            let mut bytes = Vec::from_slice(alloc, word)?;
            bytes.as_mut_slice().make_ascii_lowercase();
            return Ok(Name::of(bytes));
        }
        let mut short = [0; SHORT];
        let place = &mut short[..count];
        place.copy_from_slice(word);
        place.make_ascii_lowercase();
        Ok(Name {
            kept: Kept::Short(short_of(short, count)),
        })
    }

    /// The bytes of the name.
    pub fn bytes(&self) -> &[u8]
        ensures { result.now ≡ self.now }
    {
        match &self.kept {
            Kept::Short(short) => &short.bytes[..usize::from(short.count)],
            Kept::Long(long) => long.bytes.as_slice(),
        }
    }

    /// The number of the name, if it is short: the same names have the same number, and others
    /// another one. 0 is no number.
    #[inline(always)]
    #[tactic(auto, using(crate::proofs::Numbered::none_of_long))]
    pub fn number(&self) -> u64
        ensures { result ≡ name_number self.now }
    {
        match &self.kept {
            Kept::Short(short) => short.number,
            Kept::Long(_) => 0,
        }
    }

    /// Whether this name, which has a number, is the same as another one.
    #[inline(always)]
    #[tactic(auto, using(crate::proofs::Numbered::alike, crate::proofs::Numbered::unlike))]
    pub fn is_short(&self, other: &Name) -> bool
        requires { name_number self.now ≢ 0 }
        ensures { result ≡ pointwise nat_eq self.now other.now }
    {
        self.number() == other.number()
    }

    /// Whether this is the same name as another one.
    pub fn is(&self, other: &Name) -> bool
        ensures { result ≡ pointwise nat_eq self.now other.now }
    {
        self.bytes() == other.bytes()
    }
}
