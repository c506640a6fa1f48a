//! The names and the fixed texts of the routines, by their places in one list.
use scott_types::Phrase;

/// The names of routines, locals, arrays and globals.
pub const NAMES: [&[u8]; 28] = [
    b"place",
    b"near",
    b"dark",
    b"count_at",
    b"carried",
    b"full",
    b"say_item",
    b"say_room",
    b"say_way",
    b"list_items",
    b"list_exits",
    b"look",
    b"inventory",
    b"stored",
    b"hundredths",
    b"score",
    b"say_light",
    b"light_out",
    b"burn",
    b"i",
    b"n",
    b"at",
    b"item",
    b"flag",
    b"exits",
    b"gold",
    b"here",
    b"light",
];

/// After them the texts that a style may tell otherwise.
pub const STYLED: [Phrase; 4] = [
    Phrase::TooDark,
    Phrase::AlsoSee,
    Phrase::CarryingList,
    Phrase::Stored,
];

/// And then those that are the same in each style.
pub const PLAIN: [Phrase; 20] = [
    Phrase::ObviousExits,
    Phrase::North,
    Phrase::South,
    Phrase::East,
    Phrase::West,
    Phrase::Up,
    Phrase::Down,
    Phrase::NoExits,
    Phrase::BetweenExits,
    Phrase::ListEnd,
    Phrase::BetweenItems,
    Phrase::NothingCarried,
    Phrase::Rating,
    Phrase::WellDone,
    Phrase::GameOver,
    Phrase::Newline,
    Phrase::LightOut,
    Phrase::LightDim,
    Phrase::LightLasts,
    Phrase::LightTurns,
];

// Places of routines.
pub const PLACE_NAME: usize = 0;

pub const NEAR_NAME: usize = 1;

pub const DARK_NAME: usize = 2;

pub const COUNT_NAME: usize = 3;

pub const CARRIED_NAME: usize = 4;

pub const FULL_NAME: usize = 5;

pub const SAY_ITEM: usize = 6;

pub const SAY_ROOM: usize = 7;

pub const SAY_WAY: usize = 8;

pub const LIST_ITEMS: usize = 9;

pub const LIST_EXITS: usize = 10;

pub const LOOK_NAME: usize = 11;

pub const INVENTORY_NAME: usize = 12;

pub const STORED_NAME: usize = 13;

pub const HUNDREDTHS_NAME: usize = 14;

pub const SCORE_NAME: usize = 15;

pub const SAY_LIGHT: usize = 16;

pub const LIGHT_OUT: usize = 17;

pub const BURN_NAME: usize = 18;

// Places of locals.
pub const I: usize = 19;

pub const N: usize = 20;

pub const AT: usize = 21;

// Places of arrays and globals.
pub const ITEM: usize = 22;

pub const FLAG: usize = 23;

pub const EXITS: usize = 24;

pub const GOLD: usize = 25;

pub const HERE: usize = 26;

pub const LIGHT: usize = 27;

// Places of texts.
pub const TOO_DARK: usize = 28;

pub const ALSO_SEE: usize = 29;

pub const CARRYING: usize = 30;

pub const HAVE_STORED: usize = 31;

pub const OBVIOUS: usize = 32;

pub const NORTH: usize = 33;

pub const SOUTH: usize = 34;

pub const EAST: usize = 35;

pub const WEST: usize = 36;

pub const UP: usize = 37;

pub const DOWN: usize = 38;

pub const NO_EXITS: usize = 39;

pub const BETWEEN_EXITS: usize = 40;

pub const LIST_END: usize = 41;

pub const BETWEEN_ITEMS: usize = 42;

pub const NOTHING: usize = 43;

pub const RATING: usize = 44;

pub const WELL_DONE: usize = 45;

pub const GAME_OVER: usize = 46;

pub const NEWLINE: usize = 47;

pub const IS_OUT: usize = 48;

pub const IS_DIM: usize = 49;

pub const LASTS: usize = 50;

pub const TURNS: usize = 51;
