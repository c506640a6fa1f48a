//! A hall of sessions.
ghost use Rattle.std.specs.Prelude.{◌≡◌, ◌≢◌, ◌-◌, ◌≤◌, ◌↔◌, ℕ, false, length, slice_get, slice_set, IfOk, IfSome, OnOk, IsOk, IsFalse};
ghost use Rattle.adv_io.specs.Console.{Speaks};
ghost use Rattle.adv_io.specs.History.{says};
ghost use Rattle.scott_rules.specs.Play.{ending_of};
ghost use Rattle.adv_hall.specs.Seats.{seat_of, seat_opened, seats_opened, said_by, seat_after, heading, text_by};

use adv_draws::Draws;
use adv_io::{Console, ConsoleFault, Line, Memory};
use arrayvec::ArrayVec;
use itoa::Buffer;
use scott_turn::Session;
use scott_types::{Db, Ending, State, Style};
use std::alloc::Global;
use std::marker::Model;

/// The most sessions of a hall.
pub const HALL_LIMIT: u8 = 64;

/// A session, and its draws.
#[derive(Drop)]
pub struct Seat<'a> {
    pub session: Session<'a>,
    pub draws: Draws,
}

/// Sessions of one database in the plain style, which hear lines in turn. Session k, counted from
/// 1, has the million draws of seed k.
///
/// A clause sees the seats in order, and whether a failure of the console broke the hall.
#[derive(Drop)]
pub struct Hall<'a> {
    seats: Vec<Seat<'a>>,
    broken: bool,
}

impl<'a> Model for Hall<'a> {
    ghost use Rattle.std.specs.Prelude.{◌≡◌, false, IsTrue};
    ghost use Rattle.std.specs.List.{list_all};
    ghost use Rattle.adv_hall.specs.Seats.{HallView, is_whole};

    ghost Value = { HallView };

    ghost view = { λ h. record { seats = h.seats.items; broken = h.broken } };

    ghost invariant = { λ h. h.broken ≡ false → IsTrue (list_all is_whole h.seats.items) };
}

// Says the number of a session.
fn say_number<C: Console>(k: u8, console: &mut C) -> Result<(), ConsoleFault>
    ensures { Speaks (C.seen console.old) (C.seen console.new) result (says (heading k)) }
{
    let mut text = ArrayVec::<u8, 8>::new();
    text.push(b'[');
    for byte in Buffer::new().format(k).as_bytes() {
        text.push(*byte);
    }
    text.push(b']');
    text.push(b'\n');
    console.say(text.as_slice())
}

impl<'a> Seat<'a> {
    // Session k before its first line.
    fn open(alloc: Global, db: &'a Db, k: u8) -> Result<Seat<'a>, Memory>
        ensures { IfOk result (λ seat. seat ≡ seat_opened db.now k) }
    {
        Ok(Seat {
            session: Session::open(alloc, db, Style::plain())?,
            draws: Draws::seeded(u64::from(k)),
        })
    }

    // Says the number of the session, what it says on a line, and a newline.
    fn hear<C: Console>(
        &mut self,
        k: u8,
        line: &Line,
        console: &mut C,
    ) -> Result<Ending, ConsoleFault>
        requires { self.old.session.broken ≡ false }
        ensures spoken { Speaks (C.seen console.old) (C.seen console.new) result
            (says (text_by k (said_by self.old line.now))) }
        ensures after { OnOk result (self.new ≡ seat_after self.old line.now) }
        ensures ending { IfOk result
            (λ ending. ending ≡ ending_of (seat_after self.old line.now).session.position) }
    {
        say_number(k, console)?;
        let ending = self.session.hear(&mut self.draws, Some(line), console)?;
        console.say(b"\n")?;
        Ok(ending)
    }
}

impl<'a> Hall<'a> {
    /// A hall of so many sessions, 1 to 64, none of which has heard a line.
    pub fn open(alloc: Global, db: &'a Db, count: u8) -> Result<Hall<'a>, Memory>
        requires some { 1 ≤ count }
        requires few { count ≤ HALL_LIMIT }
        ensures seats { IfOk result (λ hall. hall.seats ≡ seats_opened db.now 1 count) }
        ensures count { IfOk result (λ hall. length hall.seats ≡ count) }
        ensures whole { IfOk result (λ hall. hall.broken ≡ false) }
    {
        let mut seats = Vec::new(alloc);
        for k in 0..count {
            seats.push(Seat::open(alloc, db, k + 1)?)?;
        }
        Ok(Hall {
            seats,
            broken: false,
        })
    }

    /// Gives session k a line: says `[k]` and a newline, what the session says, and a newline, and
    /// answers why the session stopped. A line that it doesn't take is dropped. All other sessions
    /// stay as they are. It takes no memory, and no line from the console.
    ///
    /// The console's fault alone is a refusal, and breaks the hall. docs/TURN.md, "A hall", has the
    /// rule.
    pub fn line<C: Console>(
        &mut self,
        k: u8,
        line: &Line,
        console: &mut C,
    ) -> Result<Ending, ConsoleFault>
        requires first { 1 ≤ k }
        requires last { k ≤ length self.old.seats }
        requires whole { self.old.broken ≡ false }
        ensures spoken { IfSome (seat_of self.old k) (λ seat.
            Speaks (C.seen console.old) (C.seen console.new) result
            (says (text_by k (said_by seat line.now)))) }
        ensures after { OnOk result (IfSome (seat_of self.old k) (λ seat.
            self.new.seats ≡ slice_set self.old.seats (k - 1) (seat_after seat line.now))) }
        ensures ending { IfOk result (λ ending. IfSome (seat_of self.new k) (λ seat.
            ending ≡ ending_of seat.session.position)) }
        ensures count { length self.new.seats ≡ length self.old.seats }
        ensures others { (j : ℕ) → j ≢ k - 1
            → slice_get self.new.seats j ≡ slice_get self.old.seats j }
        ensures breaks { IsOk result ↔ IsFalse self.new.broken }
    {
        match self.seats[k as usize - 1].hear(k, line, console) {
            Ok(ending) => Ok(ending),
            Err(fault) => {
                self.broken = true;
                Err(fault)
            }
        }
    }

    /// How many sessions there are.
    pub fn count(&self) -> usize
        ensures { result ≡ length self.now.seats }
    {
        self.seats.len()
    }

    /// The state of session k.
    pub fn state(&self, k: u8) -> &State
        requires first { 1 ≤ k }
        requires last { k ≤ length self.now.seats }
        ensures { IfSome (seat_of self.now k) (λ seat. result.now ≡ seat.session.state) }
    {
        self.seats[k as usize - 1].session.state()
    }

    /// Whether a failure of the console broke the hall.
    pub fn broken(&self) -> bool
        ensures { result ≡ self.now.broken }
    {
        self.broken
    }
}
