//! Action lines.
ghost use Rattle.std.specs.Prelude.{◌≡◌, ◌≤◌};
ghost use Rattle.adv_gen.specs.Picks.{after};
ghost use Rattle.adv_gen.specs.Actions.{kind_of, vocabulary, vocabulary_picks, condition, parameter, conditions, opcode, last_opcode, opcode_pairs};

use crate::parts::Part;
use crate::picks::Picks;
use crate::vocabulary::FIRST_THING;
use adv_io::Memory;
use scott_types::Action;
use scott_types::verbs::MORE;
use std::alloc::Global;

/// What an action is for.
#[derive(Clone, Copy)]
pub enum Kind {
    /// It is tried without a command, with a chance.
    Automatic,
    /// It answers a verb with a noun.
    ForNoun,
    /// It belongs to the action before it.
    Tail,
    /// It answers a verb.
    ForVerb,
}

// Of every five actions.
static KINDS: [Kind; 5] = [
    Kind::Automatic,
    Kind::ForNoun,
    Kind::Tail,
    Kind::ForVerb,
    Kind::Tail,
];

// The greatest noun that an action can have.
const LAST_NOUN: u16 = 149;

impl Kind {
    fn of(k: u16) -> Kind
        ensures { result ≡ kind_of k }
    {
        KINDS[(k % 5) as usize]
    }

    // The verb and the noun that it answers, or its chance, as one number.
    fn vocabulary(self, size: u16, picks: &mut Picks) -> u32
        requires { size ≤ 120 }
        ensures made { result ≡ vocabulary self size picks.old }
        ensures next { picks.new ≡ after (vocabulary_picks self) picks.old }
    {
        match self {
            Kind::Automatic => 1 + u32::from(picks.pick(100)),
            Kind::ForNoun => {
                let verb = 1 + picks.pick(size + 36);
                let noun = FIRST_THING + picks.pick(size + 30);
                150 * u32::from(verb) + u32::from(noun.min(LAST_NOUN))
            }
            Kind::ForVerb => 150 * u32::from(2 + picks.pick(size + 35)),
            Kind::Tail => 0,
        }
    }

    // The opcode after those that are picked.
    fn last_opcode(self) -> u32
        ensures value { result ≡ last_opcode self }
        ensures small { result ≤ 73 }
    {
        match self {
            Kind::Automatic | Kind::ForNoun | Kind::ForVerb => MORE,
            Kind::Tail => 0,
        }
    }

    // The opcodes, in two pairs.
    fn opcode_pairs(self, picks: &mut Picks) -> [u32; 2]
        ensures made { result ≡ opcode_pairs self picks.old }
        ensures next { picks.new ≡ after 3 picks.old }
    {
        let first = u32::from(opcode(picks));
        let second = u32::from(opcode(picks));
        let third = u32::from(opcode(picks));
        [150 * first + second, 150 * third + self.last_opcode()]
    }
}

// A condition of any code: its argument is picked first.
fn condition(picks: &mut Picks) -> u32
    ensures made { result ≡ condition picks.old 0 }
    ensures next { picks.new ≡ after 2 picks.old }
{
    let argument = u32::from(picks.pick(16));
    let code = u32::from(picks.pick(20));
    20 * argument + code
}

// A parameter of the opcodes.
#[tactic(auto, unfolding(crate::specs::Actions::parameter))]
fn parameter(picks: &mut Picks) -> u32
    ensures made { result ≡ parameter picks.old 0 }
    ensures next { picks.new ≡ after 1 picks.old }
{
    20 * u32::from(picks.pick(16))
}

fn conditions(picks: &mut Picks) -> [u32; 5]
    ensures made { result ≡ conditions picks.old }
    ensures next { picks.new ≡ after 7 picks.old }
{
    [
        condition(picks),
        condition(picks),
        parameter(picks),
        parameter(picks),
        parameter(picks),
    ]
}

// The opcodes that are picked.
static OPCODES: [u8; 16] = [1, 2, 3, 52, 53, 55, 58, 60, 62, 72, 74, 75, 77, 78, 82, 86];

#[tactic(auto, unfolding(crate::specs::Actions::opcode))]
fn opcode(picks: &mut Picks) -> u8
    ensures made { result ≡ opcode picks.old 0 }
    ensures next { picks.new ≡ after 1 picks.old }
{
    OPCODES[picks.pick(16) as usize]
}

impl Part for Action {
    ghost use Rattle.adv_gen.specs.Actions.{action, action_picks};

    ghost part = { action };

    ghost taken = { action_picks };

    fn make(_alloc: Global, size: u16, number: u16, picks: &mut Picks) -> Result<Action, Memory> {
        let kind = Kind::of(number);
        let vocab = kind.vocabulary(size, picks);
        let conds = conditions(picks);
        let pairs = kind.opcode_pairs(picks);
        Ok(Action {
            vocab,
            conds,
            pairs,
        })
    }
}
