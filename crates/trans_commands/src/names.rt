//! Names of routines, variables and arrays, and the texts that commands say.
ghost use Rattle.std.specs.Prelude.{◌≡◌, ◌++◌, IfOk, map};
ghost use Rattle.trans_commands.specs.Names.{command_texts, command_names};

use adv_io::Memory;
use scott_types::{Phrase, Style};
use std::alloc::Global;

/// Names of routines, of globals and arrays, and of locals. The texts follow them.
pub const NAMES: [&[u8]; 38] = [
    b"command",
    b"obey",
    b"walk",
    b"no_way",
    b"transfer",
    b"is_all",
    b"move_all",
    b"move_next",
    b"move_one",
    b"find_item",
    b"at_hand",
    b"can_take",
    b"is_refused",
    b"put_item",
    b"search",
    b"dark",
    b"full",
    b"say_item",
    b"here",
    b"redraw",
    b"over",
    b"vnum",
    b"nnum",
    b"wb",
    b"nb",
    b"item",
    b"exits",
    b"nclass",
    b"iclass",
    b"inoun",
    b"iget",
    b"buf",
    b"v",
    b"n",
    b"m",
    b"c",
    b"r",
    b"i",
];

// Places of routines.
pub const COMMAND_NAME: usize = 0;

pub const OBEY_NAME: usize = 1;

pub const WALK_NAME: usize = 2;

pub const NO_WAY_NAME: usize = 3;

pub const TRANSFER_NAME: usize = 4;

pub const IS_ALL_NAME: usize = 5;

pub const MOVE_ALL_NAME: usize = 6;

pub const MOVE_NEXT_NAME: usize = 7;

pub const MOVE_ONE_NAME: usize = 8;

pub const FIND_ITEM_NAME: usize = 9;

pub const AT_HAND_NAME: usize = 10;

pub const CAN_TAKE_NAME: usize = 11;

pub const IS_REFUSED_NAME: usize = 12;

pub const PUT_ITEM_NAME: usize = 13;

// Places of routines that stand elsewhere.
pub const SEARCH_NAME: usize = 14;

pub const DARK: usize = 15;

pub const FULL: usize = 16;

pub const SAY_ITEM: usize = 17;

// Places of globals and arrays.
pub const HERE: usize = 18;

pub const REDRAW: usize = 19;

pub const OVER: usize = 20;

pub const VNUM: usize = 21;

pub const NNUM: usize = 22;

pub const WB: usize = 23;

pub const NB: usize = 24;

pub const ITEM: usize = 25;

pub const EXITS: usize = 26;

pub const NCLASS: usize = 27;

pub const ICLASS: usize = 28;

pub const INOUN: usize = 29;

pub const IGET: usize = 30;

pub const BUF: usize = 31;

// Places of locals: a verb, a noun, a mark, a class, a room and an item.
pub const VERB: usize = 32;

pub const NOUN: usize = 33;

pub const MARK: usize = 34;

pub const CLASS: usize = 35;

pub const ROOM: usize = 36;

pub const INDEX: usize = 37;

// Places of texts.
pub const NEED_DIRECTION: usize = 38;

pub const DARK_MOVE: usize = 39;

pub const MOVED: usize = 40;

pub const BROKEN_NECK: usize = 41;

pub const NO_EXIT_THERE: usize = 42;

pub const NOT_YET: usize = 43;

pub const NOT_UNDERSTOOD: usize = 44;

pub const TOO_MUCH: usize = 45;

pub const DARK_GET: usize = 46;

pub const ITEM_DONE: usize = 47;

pub const NOTHING_TAKEN: usize = 48;

pub const NOTHING_DROPPED: usize = 49;

pub const WHAT_ITEM: usize = 50;

pub const DONE: usize = 51;

pub const BEYOND_POWER: usize = 52;

// The texts, in the order of their places.
fn texts(style: Style) -> [&'static [u8]; 15]
    ensures { map (λ text. text.now) result ≡ command_texts style }
{
    [
        Phrase::NeedDirection.text(),
        Phrase::DarkMove.text(),
        Phrase::Moved.text(),
        Phrase::BrokenNeck.text_in(style),
        Phrase::NoExitThere.text_in(style),
        Phrase::NotYet.text_in(style),
        Phrase::NotUnderstood.text(),
        Phrase::TooMuch.text_in(style),
        Phrase::DarkGet.text(),
        Phrase::ItemDone.text(),
        Phrase::NothingTaken.text(),
        Phrase::NothingDropped.text(),
        Phrase::WhatItem.text(),
        Phrase::Done.text(),
        Phrase::BeyondPower.text_in(style),
    ]
}

/// The names, and after them the texts in a style.
pub fn names(alloc: Global, style: Style) -> Result<Vec<&'static [u8]>, Memory>
    ensures { IfOk result (λ names. map (λ name. name.now) names.items ≡ command_names style) }
{
    let mut names = Vec::with_capacity(alloc, BEYOND_POWER + 1)?;
    names.extend_from_slice(&NAMES)?;
    names.extend_from_slice(&texts(style))?;
    Ok(names)
}
