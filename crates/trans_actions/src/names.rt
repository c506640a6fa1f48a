//! Names of routines, variables and arrays, and the texts that opcodes say.
ghost use Rattle.std.specs.Prelude.{◌≡◌, ◌++◌, IfOk, map};
ghost use Rattle.trans_actions.specs.Names.{action_texts, action_names};

use adv_io::Memory;
use scott_types::{Phrase, Style};
use std::alloc::Global;

/// Names of locals, of arrays and globals, and of routines: helpers, conditions from 1 to 19 and
/// opcodes from 52 to 89. The texts follow them.
pub const NAMES: [&[u8]; 82] = [
    b"a",
    b"b",
    b"i",
    b"item",
    b"start",
    b"flag",
    b"ctr",
    b"rsave",
    b"buf",
    b"here",
    b"saved",
    b"cur",
    b"light",
    b"redraw",
    b"over",
    b"wb",
    b"nb",
    b"place",
    b"near",
    b"carried",
    b"full",
    b"look",
    b"inventory",
    b"score",
    b"move_item",
    b"cond_1",
    b"cond_2",
    b"cond_3",
    b"cond_4",
    b"cond_5",
    b"cond_6",
    b"cond_7",
    b"cond_8",
    b"cond_9",
    b"cond_10",
    b"cond_11",
    b"cond_12",
    b"cond_13",
    b"cond_14",
    b"cond_15",
    b"cond_16",
    b"cond_17",
    b"cond_18",
    b"cond_19",
    b"op_52",
    b"op_53",
    b"op_54",
    b"op_55",
    b"op_56",
    b"op_57",
    b"op_58",
    b"op_59",
    b"op_60",
    b"op_61",
    b"op_62",
    b"op_63",
    b"op_64",
    b"op_65",
    b"op_66",
    b"op_67",
    b"op_68",
    b"op_69",
    b"op_70",
    b"op_71",
    b"op_72",
    b"op_73",
    b"op_74",
    b"op_75",
    b"op_76",
    b"op_77",
    b"op_78",
    b"op_79",
    b"op_80",
    b"op_81",
    b"op_82",
    b"op_83",
    b"op_84",
    b"op_85",
    b"op_86",
    b"op_87",
    b"op_88",
    b"op_89",
];

// Places of locals.
pub const A: usize = 0;

pub const B: usize = 1;

pub const I: usize = 2;

// Places of arrays and globals.
pub const ITEM: usize = 3;

pub const START: usize = 4;

pub const FLAG: usize = 5;

pub const CTR: usize = 6;

pub const RSAVE: usize = 7;

pub const BUF: usize = 8;

pub const HERE: usize = 9;

pub const SAVED: usize = 10;

pub const CUR: usize = 11;

pub const LIGHT: usize = 12;

pub const REDRAW: usize = 13;

pub const OVER: usize = 14;

pub const WB: usize = 15;

pub const NB: usize = 16;

// Places of routines: helpers, the condition of code 1, and opcode 52.
pub const PLACE: usize = 17;

pub const NEAR: usize = 18;

pub const CARRIED: usize = 19;

pub const FULL: usize = 20;

pub const LOOK: usize = 21;

pub const INVENTORY: usize = 22;

pub const SCORE: usize = 23;

pub const MOVE_ITEM: usize = 24;

pub const COND_1: usize = 25;

pub const OP_52: usize = 44;

// Places of texts.
pub const TOO_MUCH: usize = 82;

pub const DEAD: usize = 83;

pub const NO_SAVING: usize = 84;

pub const GAME_OVER: usize = 85;

// The texts, in the order of their places.
fn texts(style: Style) -> [&'static [u8]; 4]
    ensures { map (λ text. text.now) result ≡ action_texts style }
{
    [
        Phrase::TooMuch.text_in(style),
        Phrase::Dead.text_in(style),
        Phrase::NoSaving.text(),
        Phrase::GameOver.text(),
    ]
}

/// The names, and after them the texts in a style.
#[tactic(auto, unfolding(crate::specs::Names::action_names))]
pub fn names(alloc: Global, style: Style) -> Result<Vec<&'static [u8]>, Memory>
    ensures { IfOk result (λ names. map (λ name. name.now) names.items ≡ action_names style) }
{
    let mut names = Vec::with_capacity(alloc, GAME_OVER + 1)?;
    names.extend_from_slice(&NAMES)?;
    names.extend_from_slice(&texts(style))?;
    Ok(names)
}
