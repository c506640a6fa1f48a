//! A game with an index of its heads and one of its words: the first head of each verb, after each
//! head the next one of its verb, and the base entry that each word names.
ghost use Rattle.std.specs.Prelude.{◌≡◌, ◌≢◌, ◌+◌, ◌<◌, [], length, IfOk, OnOk, MatchOption, nat_eq};
ghost use Rattle.scott_types.specs.Database.{action_at};
ghost use Rattle.scott_types.specs.Style.{in_style};
ghost use Rattle.indexmap.specs.IndexMap.{get};
ghost use Rattle.scott_types.specs.Action.{verb_of};
ghost use Rattle.scott_turn.specs.Heads.{groups_for, ComesNext, HasFirsts, IsAfter, IsIndex};

use crate::heads::next_head;
use adv_io::Memory;
use indexmap::IndexMap;
use scott_index::WordIndex;
use scott_types::action_lines::verb_of;
use scott_types::{Column, Db, Style};
use scott_vocab::Vocabulary;
use std::alloc::Global;
use std::marker::Model;

/// A database and the style that it is played in, with an index of its heads by their verbs, and
/// one of the words of its verbs and nouns.
///
/// A clause sees the database and the style alone: the indexes say nothing that its lines and words
/// don't say.
pub struct Game<'a> {
    db: &'a Db,
    style: Style,
    // For each verb of a head its first head.
    firsts: IndexMap<u32, u16>,
    // For each line that is a head the next head of its verb after it.
    nexts: Vec<Option<u16>>,
    verbs: WordIndex,
    nouns: WordIndex,
}

impl Drop for Game<'_> {
    fn drop(self) {
        let Game {
            db: _,
            style: _,
            firsts: _,
            nexts: _,
            verbs: _,
            nouns: _,
        } = self;
    }
}

impl<'a> Model for Game<'a> {
    ghost use Rattle.std.specs.Prelude.{nat_eq};
    ghost use Rattle.indexmap.specs.IndexMap.{get};
    ghost use Rattle.scott_types.specs.Style.{Game, in_style};
    ghost use Rattle.scott_turn.specs.Heads.{IsIndex};
    ghost use Rattle.scott_index.specs.BaseEntries.{FindsAllWords};

    ghost Value = { Game };

    ghost view = { λ g. in_style g.style g.db.now };

    ghost invariant = { λ g. IsIndex g.db.now (get nat_eq g.firsts) g.nexts.items
        × FindsAllWords g.db.now g.verbs g.nouns };
}

// Puts a line before those whose first heads are known, and answers the head after it of its verb.
fn put_first(
    _alloc: Global,
    firsts: &mut IndexMap<u32, u16>,
    db: &Db,
    line: u16,
) -> Result<Option<u16>, Memory>
    requires there { line < length db.now.actions }
    requires rest { HasFirsts db.now (line + 1) (get nat_eq firsts.old) }
    ensures firsts { OnOk result (HasFirsts db.now line (get nat_eq firsts.new)) }
    ensures next { IfOk result (λ next. IsAfter db.now line next) }
{
    let action = &db.actions()[line as usize];
    if action.vocab == 0 {
        return Ok(None);
    }
    let next = firsts.insert(verb_of(action.vocab), line)?;
    Ok(next)
}

// The index of the heads: the first head of each verb, and for each line that is a head the next of
// its verb. The lines are read once, the last first.
fn index_heads(alloc: Global, db: &Db) -> Result<(IndexMap<u32, u16>, Vec<Option<u16>>), Memory>
    ensures { IfOk result (λ heads. IsIndex db.now (get nat_eq heads.0) heads.1.items) }
{
    let lines = db.actions().len();
    let mut nexts: Vec<Option<u16>> = vec![in alloc; None; lines]?;
    let mut firsts = IndexMap::new(alloc);
    for line in (0..lines).rev() {
        nexts[line] = put_first(alloc, &mut firsts, db, line as u16)?;
    }
    Ok((firsts, nexts))
}

impl<'a> Game<'a> {
    /// The game of a database, in a style. Its lines are read once, and the words of each column
    /// once.
    pub fn of(alloc: Global, db: &'a Db, style: Style) -> Result<Game<'a>, Memory>
        ensures { IfOk result (λ game. game ≡ in_style style db.now) }
    {
        let verbs = WordIndex::of(alloc, db, Column::Verbs)?;
        let nouns = WordIndex::of(alloc, db, Column::Nouns)?;
        let (firsts, nexts) = index_heads(alloc, db)?;
        Ok(Game {
            db,
            style,
            firsts,
            nexts,
            verbs,
            nouns,
        })
    }

    /// The database of the game.
    pub fn db(&self) -> &'a Db
        ensures { result.now ≡ self.now.db }
    {
        self.db
    }

    /// The style that it is played in.
    pub fn style(&self) -> Style
        ensures { result ≡ self.now.style }
    {
        self.style
    }

    /// The first head of a verb, at a line or after it.
    ///
    /// From line 0 on the index has it. From any other the lines are walked: that comes only where
    /// a play goes on that waited for a draw.
    pub fn first_head(&self, verb: u16, from: u16) -> Option<u16>
        ensures { MatchOption result
            (groups_for self.now.db verb from ≡ [])
            (λ head. ComesNext self.now.db verb from head) }
    {
        if from == 0 {
            self.firsts.get(&u32::from(verb)).copied()
        } else {
            next_head(self.db, verb, from)
        }
    }

    /// The next head of a head's verb, after it.
    pub fn head_after(&self, head: u16) -> Option<u16>
        requires there { head < length self.now.db.actions }
        requires head { (action_at self.now.db head).vocab ≢ 0 }
        ensures { let verb = verb_of (action_at self.now.db head).vocab in
            MatchOption result
            (groups_for self.now.db verb (head + 1) ≡ [])
            (λ next. ComesNext self.now.db verb (head + 1) next) }
    {
        self.nexts[head as usize]
    }
}

/// A word is found by one look-up.
impl<'a> Vocabulary for Game<'a> {
    ghost db = { λ game. game.db };

    fn named(&self, column: Column, word: &[u8]) -> Option<u16> {
        match column {
            Column::Verbs => self.verbs.find(word),
            Column::Nouns => self.nouns.find(word),
        }
    }
}
