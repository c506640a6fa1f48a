//! The header of a database's text: twelve numbers in three sections.
use crate::faults::{Field, FormatFault};
use crate::numbers::{light_time, limited, number, start_room};
use adv_text::Scan;

/// The first five numbers: one without a use, and the highest of each list but the messages.
#[derive(Clone, Copy)]
pub struct Sizes {
    pub unused: i32,
    /// 0..254.
    pub items: u8,
    /// 0..4999.
    pub actions: u16,
    /// 0..999.
    pub words: u16,
    /// 0..254.
    pub rooms: u8,
}

/// The next five numbers, which say how a game goes.
#[derive(Clone, Copy)]
pub struct PlayNumbers {
    pub carry: i32,
    /// 0..highest room.
    pub start: u8,
    pub treasures: i32,
    /// 1..20.
    pub length: u8,
    /// -1 or more.
    pub light: i32,
}

/// The last two numbers.
#[derive(Clone, Copy)]
pub struct Closing {
    /// 0..999.
    pub messages: u16,
    pub home: i32,
}

impl Sizes {
    ghost use Rattle.scott_format.specs.Sections.{sizes};
    ghost use Rattle.scott_format.specs.Reading.{Follows};

    /// Reads these numbers.
    #[tactic(auto, unfolding(crate::specs::Sections::sizes))]
    pub fn read(scan: &mut Scan) -> Result<Sizes, FormatFault>
        ensures { Follows sizes scan.old result scan.new }
    {
        let unused = number(scan)?;
        let items = limited(scan, Field::HighestItem, 0, 254)? as u8;
        let actions = limited(scan, Field::HighestAction, 0, 4999)?;
        let words = limited(scan, Field::HighestWord, 0, 999)?;
        let rooms = limited(scan, Field::HighestRoom, 0, 254)? as u8;
        Ok(Sizes {
            unused,
            items,
            actions,
            words,
            rooms,
        })
    }
}

impl PlayNumbers {
    ghost use Rattle.scott_format.specs.Sections.{play_numbers};
    ghost use Rattle.scott_format.specs.Reading.{Follows};

    /// Reads these numbers, of a database with this highest room.
    #[tactic(auto, unfolding(crate::specs::Sections::play_numbers))]
    pub fn read(scan: &mut Scan, rooms: u8) -> Result<PlayNumbers, FormatFault>
        ensures { Follows (play_numbers rooms) scan.old result scan.new }
    {
        let carry = number(scan)?;
        let start = start_room(scan, rooms)?;
        let treasures = number(scan)?;
        let length = limited(scan, Field::WordLength, 1, 20)? as u8;
        let light = light_time(scan)?;
        Ok(PlayNumbers {
            carry,
            start,
            treasures,
            length,
            light,
        })
    }
}

impl Closing {
    ghost use Rattle.scott_format.specs.Sections.{closing};
    ghost use Rattle.scott_format.specs.Reading.{Follows};

    /// Reads these numbers.
    #[tactic(auto, unfolding(crate::specs::Sections::closing))]
    pub fn read(scan: &mut Scan) -> Result<Closing, FormatFault>
        ensures { Follows closing scan.old result scan.new }
    {
        let messages = limited(scan, Field::HighestMessage, 0, 999)?;
        let home = number(scan)?;
        Ok(Closing { messages, home })
    }
}
