//! The opcodes of an action line, in families by what they change.
ghost use Rattle.std.specs.Prelude.{◌≡◌, ◌<◌, ◌^◌, length};
ghost use Rattle.scott_types.specs.Opcode.{opcode_of, number_of, say_number, item_number, room_number, flag_number, counter_number, talk_number, item_parameters, room_parameters, flag_parameters, counter_parameters, parameters_of, uses};

use crate::parameters::Parameter;

/// What an opcode does. It takes its parameters from a list; docs/TURN.md says what each does with
/// them.
#[derive(Clone, Copy)]
pub enum Opcode {
    Nothing,
    /// Says the message of this number.
    Say(u32),
    /// Takes an item, unless as many as can be are carried.
    Get,
    Items(ItemOp),
    Rooms(RoomOp),
    Flags(FlagOp),
    Counters(CounterOp),
    Talk(TalkOp),
    /// Lights the lamp anew.
    Refill,
    Score,
    Die,
    /// Ends the game.
    Finish,
    /// Clears the screen or waits, of which nothing is left here.
    Screen,
    /// Shows a picture, of which nothing is left here but its parameter.
    Picture,
    /// Goes on with the actions after the head.
    More,
}

/// What an opcode does to the places of items.
#[derive(Clone, Copy)]
pub enum ItemOp {
    Drop,
    /// Out of the game.
    Remove,
    /// To a place.
    Put,
    /// Exchanges the places of two.
    Swap,
    /// As `Get`, without the test.
    Take,
    /// To the place of another.
    Join,
}

/// What an opcode does to the room.
#[derive(Clone, Copy)]
pub enum RoomOp {
    Go,
    /// Exchanges it with the saved room.
    SwapSaved,
    /// Exchanges it with a backup room.
    SwapRoom,
}

/// What an opcode does to a flag.
#[derive(Clone, Copy)]
pub enum FlagOp {
    Darken,
    Lighten,
    SetFlag,
    ClearFlag,
    SetZero,
    ClearZero,
}

/// What an opcode does to the counter.
#[derive(Clone, Copy)]
pub enum CounterOp {
    Down,
    SetCounter,
    /// Exchanges it with a backup counter.
    SwapCounter,
    Add,
    Subtract,
}

/// What an opcode says, where it changes nothing.
#[derive(Clone, Copy)]
pub enum TalkOp {
    Look,
    Inventory,
    /// Says that saving is left out.
    Save,
    ShowCounter,
    /// The typed noun.
    Noun,
    NounLine,
    Newline,
}

// The opcodes of the numbers from 52 to 89.
static NAMED: [Opcode; 38] = [
    Opcode::Get,
    Opcode::Items(ItemOp::Drop),
    Opcode::Rooms(RoomOp::Go),
    Opcode::Items(ItemOp::Remove),
    Opcode::Flags(FlagOp::Darken),
    Opcode::Flags(FlagOp::Lighten),
    Opcode::Flags(FlagOp::SetFlag),
    Opcode::Items(ItemOp::Remove),
    Opcode::Flags(FlagOp::ClearFlag),
    Opcode::Die,
    Opcode::Items(ItemOp::Put),
    Opcode::Finish,
    Opcode::Talk(TalkOp::Look),
    Opcode::Score,
    Opcode::Talk(TalkOp::Inventory),
    Opcode::Flags(FlagOp::SetZero),
    Opcode::Flags(FlagOp::ClearZero),
    Opcode::Refill,
    Opcode::Screen,
    Opcode::Talk(TalkOp::Save),
    Opcode::Items(ItemOp::Swap),
    Opcode::More,
    Opcode::Items(ItemOp::Take),
    Opcode::Items(ItemOp::Join),
    Opcode::Talk(TalkOp::Look),
    Opcode::Counters(CounterOp::Down),
    Opcode::Talk(TalkOp::ShowCounter),
    Opcode::Counters(CounterOp::SetCounter),
    Opcode::Rooms(RoomOp::SwapSaved),
    Opcode::Counters(CounterOp::SwapCounter),
    Opcode::Counters(CounterOp::Add),
    Opcode::Counters(CounterOp::Subtract),
    Opcode::Talk(TalkOp::Noun),
    Opcode::Talk(TalkOp::NounLine),
    Opcode::Talk(TalkOp::Newline),
    Opcode::Rooms(RoomOp::SwapRoom),
    Opcode::Screen,
    Opcode::Picture,
];

impl Opcode {
    /// The opcode of a number of the file.
    pub fn of(number: u32) -> Opcode
        ensures { result ≡ opcode_of number }
    {
        match number {
            0 | 90..=101 => Opcode::Nothing,
            1..=51 => Opcode::Say(number),
            52..=89 => NAMED[(number - 52) as usize],
            _ => Opcode::Say(number - 50),
        }
    }

    /// The least number of the file that means this opcode.
    pub fn number(self) -> u32
        requires { number_of self < 2 ^ 32 }
        ensures { result ≡ number_of self }
    {
        match self {
            Opcode::Nothing => 0,
            Opcode::Say(message) => message_opcode(message),
            Opcode::Get => 52,
            Opcode::Items(op) => op.number(),
            Opcode::Rooms(op) => op.number(),
            Opcode::Flags(op) => op.number(),
            Opcode::Counters(op) => op.number(),
            Opcode::Talk(op) => op.number(),
            Opcode::Refill => 69,
            Opcode::Score => 65,
            Opcode::Die => 61,
            Opcode::Finish => 63,
            Opcode::Screen => 70,
            Opcode::Picture => 89,
            Opcode::More => 73,
        }
    }
}

impl Opcode {
    /// What the opcode's parameters name, in their order.
    pub fn parameters(self) -> &'static [Parameter]
        ensures { result.now ≡ parameters_of self }
    {
        match self {
            Opcode::Get => &[Parameter::Item],
            Opcode::Items(op) => op.parameters(),
            Opcode::Rooms(op) => op.parameters(),
            Opcode::Flags(op) => op.parameters(),
            Opcode::Counters(op) => op.parameters(),
            Opcode::Picture => &[Parameter::Number],
            _ => &[],
        }
    }

    /// How many parameters the opcode takes.
    pub fn uses(self) -> usize
        ensures { result ≡ uses self }
    {
        self.parameters().len()
    }
}

impl ItemOp {
    fn parameters(self) -> &'static [Parameter]
        ensures { result.now ≡ item_parameters self }
    {
        match self {
            ItemOp::Put => &[Parameter::Item, Parameter::Place],
            ItemOp::Swap | ItemOp::Join => &[Parameter::Item, Parameter::Item],
            _ => &[Parameter::Item],
        }
    }
}

impl RoomOp {
    fn parameters(self) -> &'static [Parameter]
        ensures { result.now ≡ room_parameters self }
    {
        match self {
            RoomOp::Go => &[Parameter::Room],
            RoomOp::SwapSaved => &[],
            RoomOp::SwapRoom => &[Parameter::Backup],
        }
    }
}

impl FlagOp {
    fn parameters(self) -> &'static [Parameter]
        ensures { result.now ≡ flag_parameters self }
    {
        match self {
            FlagOp::SetFlag | FlagOp::ClearFlag => &[Parameter::Flag],
            _ => &[],
        }
    }
}

impl CounterOp {
    fn parameters(self) -> &'static [Parameter]
        ensures { result.now ≡ counter_parameters self }
    {
        match self {
            CounterOp::Down => &[],
            CounterOp::SwapCounter => &[Parameter::Backup],
            _ => &[Parameter::Number],
        }
    }
}

// The number that says a message: the numbers 52..101 are no messages'.
fn message_opcode(message: u32) -> u32
    requires { say_number message < 2 ^ 32 }
    ensures { result ≡ say_number message }
{
    if message < 52 { message } else { message + 50 }
}

impl ItemOp {
    fn number(self) -> u32
        ensures { result ≡ item_number self }
    {
        match self {
            ItemOp::Drop => 53,
            ItemOp::Remove => 55,
            ItemOp::Put => 62,
            ItemOp::Swap => 72,
            ItemOp::Take => 74,
            ItemOp::Join => 75,
        }
    }
}

impl RoomOp {
    fn number(self) -> u32
        ensures { result ≡ room_number self }
    {
        match self {
            RoomOp::Go => 54,
            RoomOp::SwapSaved => 80,
            RoomOp::SwapRoom => 87,
        }
    }
}

impl FlagOp {
    fn number(self) -> u32
        ensures { result ≡ flag_number self }
    {
        match self {
            FlagOp::Darken => 56,
            FlagOp::Lighten => 57,
            FlagOp::SetFlag => 58,
            FlagOp::ClearFlag => 60,
            FlagOp::SetZero => 67,
            FlagOp::ClearZero => 68,
        }
    }
}

impl CounterOp {
    fn number(self) -> u32
        ensures { result ≡ counter_number self }
    {
        match self {
            CounterOp::Down => 77,
            CounterOp::SetCounter => 79,
            CounterOp::SwapCounter => 81,
            CounterOp::Add => 82,
            CounterOp::Subtract => 83,
        }
    }
}

impl TalkOp {
    fn number(self) -> u32
        ensures { result ≡ talk_number self }
    {
        match self {
            TalkOp::Look => 64,
            TalkOp::Inventory => 66,
            TalkOp::Save => 71,
            TalkOp::ShowCounter => 78,
            TalkOp::Noun => 84,
            TalkOp::NounLine => 85,
            TalkOp::Newline => 86,
        }
    }
}
