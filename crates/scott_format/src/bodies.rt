//! A database of which the header was read, and its lists as far as the bytes at hand go.
ghost use Rattle.std.specs.Prelude.{◌≡◌, [], OnOk, MatchResult};
ghost use Rattle.scott_format.specs.Sections.{trailer};
ghost use Rattle.scott_format.specs.File.{header_of};
ghost use Rattle.scott_format.specs.Pieces.{Advances};
ghost use Rattle.scott_format.specs.Bodies.{AllInOrder, FileRead, file_from};
ghost use Rattle.scott_format.specs.Reading.{Follows};
ghost use Rattle.scott_format.specs.TextLaws.{TextLaws};

use crate::faults::FormatFault;
use crate::header::{Closing, PlayNumbers, Sizes};
use crate::lists::{read_entry, read_list};
use crate::numbers::{number, third_number};
use crate::pieces::Piece;
use crate::stops::{Due, Stop};
use adv_text::Scan;
use scott_types::{Action, Header, Item, Parts, Room, Text, Trailer, Word};
use std::alloc::Global;

/// The header in its three sections.
#[derive(Clone, Copy)]
pub struct Head {
    pub sizes: Sizes,
    pub numbers: PlayNumbers,
    pub closing: Closing,
}

impl Piece for Head {
    ghost use Rattle.scott_format.specs.Sections.{head};
    ghost use Rattle.scott_format.specs.Steady.{head_steady};

    ghost plan = { λ _. head };

    #[tactic(auto, unfolding(crate::specs::Sections::head))]
    fn read(_alloc: Global, scan: &mut Scan, _k: u16) -> Result<Head, FormatFault> {
        let sizes = Sizes::read(scan)?;
        let numbers = PlayNumbers::read(scan, sizes.rooms)?;
        let closing = Closing::read(scan)?;
        Ok(Head {
            sizes,
            numbers,
            closing,
        })
    }

    fn first() -> Due {
        Due::Number
    }

    ghost steady = { head_steady };
}

/// The header, and the entries of each list that were read.
pub struct Body {
    pub head: Head,
    pub actions: Vec<Action>,
    pub words: Vec<Word>,
    pub rooms: Vec<Room>,
    pub messages: Vec<Text>,
    pub items: Vec<Item>,
    pub comments: Vec<Text>,
}

impl Drop for Body {
    fn drop(self) {
        let Body {
            head: _,
            actions: _,
            words: _,
            rooms: _,
            messages: _,
            items: _,
            comments: _,
        } = self;
    }
}

// The last three numbers.
#[tactic(auto, unfolding(crate::specs::Sections::trailer))]
fn last_numbers(scan: &mut Scan) -> Result<Trailer, FormatFault>
    ensures { Follows trailer scan.old result scan.new }
{
    let version = number(scan)?;
    let adventure = number(scan)?;
    let third = third_number(scan)?;
    Ok(Trailer {
        version,
        adventure,
        third,
    })
}

// The numbers of the header that no length of a list gives.
fn header_of(head: Head) -> Header
    ensures { result ≡ header_of head.sizes head.numbers head.closing }
{
    Header {
        unused: head.sizes.unused,
        carry: head.numbers.carry,
        start: head.numbers.start,
        treasures: head.numbers.treasures,
        length: head.numbers.length,
        light: head.numbers.light,
        home: head.closing.home,
    }
}

// Room for the entries of a list whose highest entry has this number.
fn room_for<T>(alloc: Global, highest: u16) -> Result<Vec<T>, Stop>
    ensures { MatchResult result
        (λ v. v.items ≡ []) (λ stop. stop ≡ Stop.Fault FormatFault.Memory) }
{
    match Vec::with_capacity(alloc, usize::from(highest) + 1) {
        Ok(entries) => Ok(entries),
        Err(_) => Err(Stop::Fault(FormatFault::Memory)),
    }
}

impl Body {
    ghost use Rattle.std.specs.Prelude.{◌≡◌, IfOk, IfErr, OnOk};
    ghost use Rattle.scott_types.specs.Database.{database_of};
    ghost use Rattle.scott_format.specs.File.{file};
    ghost use Rattle.scott_format.specs.Reading.{Gives};
    ghost use Rattle.scott_format.specs.Pieces.{Advances, Moves, StopsAt};
    ghost use Rattle.scott_format.specs.Bodies.{InOrder, ActionsRead, WordsRead, RoomsRead, MessagesRead, ItemsRead, AreRead, IsNew, body_from};
    ghost use Rattle.scott_format.specs.TextLaws.{TextLaws};

    // No entry yet.
    fn new(alloc: Global, head: Head) -> Result<Body, Stop>
        ensures value { IfOk result (λ made. IsNew head made) }
        ensures memory { IfErr result (λ stop. stop ≡ Stop.Fault FormatFault.Memory) }
    {
        Ok(Body {
            head,
            actions: room_for(alloc, head.sizes.actions)?,
            words: room_for(alloc, head.sizes.words)?,
            rooms: room_for(alloc, head.sizes.rooms as u16)?,
            messages: room_for(alloc, head.closing.messages)?,
            items: room_for(alloc, head.sizes.items as u16)?,
            comments: room_for(alloc, head.sizes.actions)?,
        })
    }

    // Reads the header.
    fn open(alloc: Global, scan: &mut Scan) -> Result<Body, Stop>
        requires { TextLaws }
        ensures opened { IfOk result (λ made. Moves file scan.old (body_from made) scan.new) }
        ensures order { IfOk result InOrder }
        ensures stopped { IfErr result (λ stop. StopsAt file scan.old stop scan.new) }
    {
        let head = read_entry::<Head>(alloc, scan, 0, Action::first())?;
        Body::new(alloc, head)
    }

    fn read_actions(&mut self, alloc: Global, scan: &mut Scan) -> Result<(), Stop>
        requires laws { TextLaws }
        requires order { InOrder self.old }
        ensures advances { Advances (body_from self.old) scan.old result
            (body_from self.new) scan.new }
        ensures order { InOrder self.new }
        ensures read { OnOk result (ActionsRead self.new) }
    {
        let highest = self.head.sizes.actions;
        read_list(alloc, scan, &mut self.actions, highest, Word::first())
    }

    fn read_words(&mut self, alloc: Global, scan: &mut Scan) -> Result<(), Stop>
        requires laws { TextLaws }
        requires order { InOrder self.old }
        requires read { ActionsRead self.old }
        ensures advances { Advances (body_from self.old) scan.old result
            (body_from self.new) scan.new }
        ensures order { InOrder self.new }
        ensures read { OnOk result (WordsRead self.new) }
    {
        let highest = self.head.sizes.words;
        read_list(alloc, scan, &mut self.words, highest, Room::first())
    }

    fn read_rooms(&mut self, alloc: Global, scan: &mut Scan) -> Result<(), Stop>
        requires laws { TextLaws }
        requires order { InOrder self.old }
        requires read { WordsRead self.old }
        ensures advances { Advances (body_from self.old) scan.old result
            (body_from self.new) scan.new }
        ensures order { InOrder self.new }
        ensures read { OnOk result (RoomsRead self.new) }
    {
        let highest = self.head.sizes.rooms as u16;
        read_list(alloc, scan, &mut self.rooms, highest, Text::first())
    }

    fn read_messages(&mut self, alloc: Global, scan: &mut Scan) -> Result<(), Stop>
        requires laws { TextLaws }
        requires order { InOrder self.old }
        requires read { RoomsRead self.old }
        ensures advances { Advances (body_from self.old) scan.old result
            (body_from self.new) scan.new }
        ensures order { InOrder self.new }
        ensures read { OnOk result (MessagesRead self.new) }
    {
        let highest = self.head.closing.messages;
        read_list(alloc, scan, &mut self.messages, highest, Item::first())
    }

    fn read_items(&mut self, alloc: Global, scan: &mut Scan) -> Result<(), Stop>
        requires laws { TextLaws }
        requires order { InOrder self.old }
        requires read { MessagesRead self.old }
        ensures advances { Advances (body_from self.old) scan.old result
            (body_from self.new) scan.new }
        ensures order { InOrder self.new }
        ensures read { OnOk result (ItemsRead self.new) }
    {
        let highest = self.head.sizes.items as u16;
        read_list(alloc, scan, &mut self.items, highest, Text::first())
    }

    // After the comments comes the trailer.
    fn read_comments(&mut self, alloc: Global, scan: &mut Scan) -> Result<(), Stop>
        requires laws { TextLaws }
        requires order { InOrder self.old }
        requires read { ItemsRead self.old }
        ensures advances { Advances (body_from self.old) scan.old result
            (body_from self.new) scan.new }
        ensures order { InOrder self.new }
        ensures read { OnOk result (AreRead self.new) }
    {
        let highest = self.head.sizes.actions;
        read_list(alloc, scan, &mut self.comments, highest, Due::Number)
    }

    // Reads on all lists.
    fn read_lists(&mut self, alloc: Global, scan: &mut Scan) -> Result<(), Stop>
        requires laws { TextLaws }
        requires order { InOrder self.old }
        ensures advances { Advances (body_from self.old) scan.old result
            (body_from self.new) scan.new }
        ensures order { InOrder self.new }
        ensures read { OnOk result (AreRead self.new) }
    {
        self.read_actions(alloc, scan)?;
        self.read_words(alloc, scan)?;
        self.read_rooms(alloc, scan)?;
        self.read_messages(alloc, scan)?;
        self.read_items(alloc, scan)?;
        self.read_comments(alloc, scan)
    }

    /// Reads the trailer, after all lists. There the bytes end.
    pub fn close(self, scan: &mut Scan) -> Result<Parts, FormatFault>
        requires { AreRead self }
        ensures { Gives database_of (body_from self) scan.old result scan.new }
    {
        let Body {
            head,
            actions,
            words,
            rooms,
            messages,
            items,
            comments,
        } = self;
        let trailer = last_numbers(scan)?;
        Ok(Parts {
            header: header_of(head),
            actions,
            words,
            rooms,
            messages,
            items,
            comments,
            trailer,
        })
    }
}

/// Reads on as far as the bytes go: the header, if it wasn't read yet, and the lists.
pub fn read_on(alloc: Global, scan: &mut Scan, body: &mut Option<Body>) -> Result<(), Stop>
    requires laws { TextLaws }
    requires order { AllInOrder body.old }
    ensures advances { Advances (file_from body.old) scan.old result
        (file_from body.new) scan.new }
    ensures order { AllInOrder body.new }
    ensures read { OnOk result (FileRead body.new) }
{
    match body {
        Some(body) => body.read_lists(alloc, scan),
        None => {
            let mut opened = Body::open(alloc, scan)?;
            let result = opened.read_lists(alloc, scan);
            *body = Some(opened);
            result
        }
    }
}
