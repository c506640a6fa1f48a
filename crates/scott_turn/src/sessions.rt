//! A session: a game that is being played, from its beginning, and on from where it stopped.
ghost use Rattle.std.specs.Prelude.{◌≡◌, ◌<◌, ◌≤◌, ◌↔◌, length, true, false, IfOk, IfSome, OnOk, IsOk, IsFalse};
ghost use Rattle.adv_draws.specs.Supply.{supplied};
ghost use Rattle.adv_io.specs.Console.{Speaks};
ghost use Rattle.adv_io.specs.Faults.{HasCause};
ghost use Rattle.scott_types.specs.State.{Fits, start};
ghost use Rattle.scott_types.specs.Style.{in_style};
ghost use Rattle.scott_rules.specs.Laws.{EndsWell};
ghost use Rattle.scott_turn.specs.Positions.{CanStand};
ghost use Rattle.scott_types.specs.declared.endings.Position.TheVariants.{Fresh};
ghost use Rattle.scott_rules.specs.Play.{ending_of};
ghost use Rattle.scott_turn.specs.Fed.{given, said};
ghost use Rattle.adv_counts.specs.Counts.{count_of};
ghost use Rattle.scott_turn.specs.Tried.{tallied, untried};
ghost use Rattle.scott_turn.specs.Played.{goes, Leaves, Plays, GoesOn, EndingIsKnown};

use crate::feeding::feed;
use crate::games::Game;
use crate::laws::play_stands;
use crate::rounds::play_on;
use adv_counts::Tally;
use adv_draws::Draws;
use adv_io::{Console, ConsoleFault, Line, Memory};
use scott_rules::laws::{play_spends, play_splits};
use scott_types::{Db, Ending, Position, State, Style};
use std::alloc::Global;
use std::marker::Model;

/// A game that is being played.
///
/// A clause sees the game with its style, where its play stands, its state, whether a failure of
/// the console broke the session, and how often each line was tried.
#[derive(Drop)]
pub struct Session<'a> {
    game: Game<'a>,
    position: Position,
    state: State,
    broken: bool,
    // How often each action line was tried.
    tally: Tally,
}

impl<'a> Model for Session<'a> {
    ghost use Rattle.scott_types.specs.State.{Fits};
    ghost use Rattle.scott_turn.specs.Positions.{CanStand};
    ghost use Rattle.scott_turn.specs.Played.{SessionView};

    ghost Value = { SessionView };

    ghost view = { λ s. record {
      game = s.game;
      position = s.position;
      state = s.state;
      broken = s.broken;
      tried = s.tally;
    } };

    ghost invariant = { λ s. Fits s.game.db s.state × CanStand s.game.db s.position };
}

// Why a play that stands at a position stopped.
fn ending_of(position: Position) -> Ending
    ensures { result ≡ ending_of position }
{
    match position {
        Position::Fresh => Ending::NeedsLine,
        Position::Draw(_) => Ending::NeedsDraw,
        Position::Line => Ending::NeedsLine,
        Position::Over(ending) => Ending::Over(ending),
    }
}

impl<'a> Session<'a> {
    /// A session at the beginning of a game, in a style that it keeps. Once it is open it takes no
    /// memory.
    pub fn open(alloc: Global, db: &'a Db, style: Style) -> Result<Session<'a>, Memory>
        ensures game { IfOk result (λ session. session.game ≡ in_style style db.now) }
        ensures position { IfOk result (λ session. session.position ≡ Position.Fresh) }
        ensures state { IfOk result (λ session. session.state ≡ start db.now) }
        ensures whole { IfOk result (λ session. session.broken ≡ false) }
        ensures tried { IfOk result (λ session. session.tried ≡ untried db.now) }
    {
        Session::at(alloc, db, style, State::start(db), Position::Fresh)
    }

    /// A session that stands at a state and a position, in a style that it keeps: the play goes on
    /// from there. Once it is open it takes no memory.
    ///
    /// The state fits the database, a draw is waited for by a head of verb 0, and a game that is
    /// over ended with 1, 2 or 3.
    pub fn at(
        alloc: Global,
        db: &'a Db,
        style: Style,
        state: State,
        position: Position,
    ) -> Result<Session<'a>, Memory>
        requires fits { Fits db.now state }
        requires stands { CanStand db.now position }
        ensures game { IfOk result (λ session. session.game ≡ in_style style db.now) }
        ensures position { IfOk result (λ session. session.position ≡ position) }
        ensures state { IfOk result (λ session. session.state ≡ state) }
        ensures whole { IfOk result (λ session. session.broken ≡ false) }
        ensures tried { IfOk result (λ session. session.tried ≡ untried db.now) }
    {
        let game = Game::of(alloc, db, style)?;
        let tally = Tally::of(alloc, db.actions().len())?;
        Ok(Session {
            game,
            position,
            state,
            broken: false,
            tally,
        })
    }

    /// Plays on until a line or a draw is wanted and none is left, or the game is over, and answers
    /// which.
    ///
    /// The console's fault alone is a refusal, and breaks the session: it can't be played on.
    /// docs/TURN.md, "Play", has the rule.
    pub fn play<C: Console>(
        &mut self,
        draws: &mut Draws,
        console: &mut C,
    ) -> Result<Ending, ConsoleFault>
        requires { self.old.broken ≡ false }
        ensures plays { IfSome (C.seen console.old).left (λ lines.
            Plays (C.seen console.old) (C.seen console.new) result
            (goes self.old lines draws.old.left) self.new draws.old draws.new) }
        ensures goes_on { IfSome (C.seen console.old).left (λ lines. OnOk result
            (GoesOn self.old self.new lines draws.old.left (goes self.old lines draws.old.left))) }
        ensures tried { IfSome (C.seen console.old).left (λ lines. OnOk result
            (self.new.tried
            ≡ tallied (goes self.old lines draws.old.left).events self.old.tried)) }
        ensures bounded { (C.seen console.new).bound ≤ (C.seen console.old).bound }
        ensures cause { HasCause (C.seen console.old).faults (C.seen console.new).faults result }
        ensures supplied { supplied draws.new ≡ supplied draws.old }
        ensures game { self.new.game ≡ self.old.game }
        ensures breaks { IsOk result ↔ IsFalse self.new.broken }
        ensures three { IfOk result (λ ending. EndingIsKnown ending) }
    {
        play_spends();
        play_splits();
        let from = self.position;
        match play_on(
            &self.game,
            &mut self.state,
            &mut self.tally,
            from,
            draws,
            console,
        ) {
            Ok(position) => {
                self.position = position;
                Ok(ending_of(position))
            }
            Err(fault) => {
                self.broken = true;
                Err(fault)
            }
        }
    }

    /// Goes on as a play does whose lines are the one that is fed, or none, and answers why it
    /// stopped. The console only says: no line is taken from it, and one that the play doesn't take
    /// is dropped.
    ///
    /// The console's fault alone is a refusal, and breaks the session: it can't be played on.
    /// docs/TURN.md, "Play", has the rule.
    pub fn hear<C: Console>(
        &mut self,
        draws: &mut Draws,
        line: Option<&Line>,
        console: &mut C,
    ) -> Result<Ending, ConsoleFault>
        requires { self.old.broken ≡ false }
        ensures spoken { Speaks (C.seen console.old) (C.seen console.new) result
            (said (goes self.old (given line.entry) draws.old.left).events) }
        ensures leaves { IfOk result (λ ending.
            Leaves (goes self.old (given line.entry) draws.old.left)
            self.new draws.old draws.new ending) }
        ensures tried { OnOk result (self.new.tried
            ≡ tallied (goes self.old (given line.entry) draws.old.left).events self.old.tried) }
        ensures supplied { supplied draws.new ≡ supplied draws.old }
        ensures game { self.new.game ≡ self.old.game }
        ensures breaks { IsOk result ↔ IsFalse self.new.broken }
        ensures three { IfOk result (λ ending. EndingIsKnown ending) }
    {
        play_spends();
        play_stands();
        match feed(
            &self.game,
            &mut self.state,
            &mut self.tally,
            self.position,
            draws,
            line,
            console,
        ) {
            Ok(position) => {
                self.position = position;
                Ok(ending_of(position))
            }
            Err(fault) => {
                self.broken = true;
                Err(fault)
            }
        }
    }

    /// The state of the play.
    pub fn state(&self) -> &State
        ensures value { result.now ≡ self.now.state }
        ensures fits { Fits self.now.game.db self.now.state }
    {
        &self.state
    }

    /// Where the play stands.
    pub fn position(&self) -> Position
        ensures value { result ≡ self.now.position }
        ensures stands { CanStand self.now.game.db self.now.position }
        ensures three { EndsWell self.now.position }
    {
        self.position
    }

    /// How often an action line was tried since the session was opened: each time that it was the
    /// turn of the line, whether or not it passed. 18446744073709551615 stands for that and more. A
    /// line that is all zeros does nothing, and isn't counted.
    pub fn tried(&self, line: u16) -> u64
        requires there { line < length self.now.game.db.actions }
        ensures { result ≡ count_of self.now.tried line }
    {
        self.tally.get(usize::from(line))
    }

    /// Whether a failure of the console broke the session.
    pub fn broken(&self) -> bool
        ensures { result ≡ self.now.broken }
    {
        self.broken
    }
}
