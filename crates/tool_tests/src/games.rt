//! Small games for the tests, as the text of their files.
use std::alloc::{AllocError, Global};
use std::fmt::Write;

/// A game, by the parts in which the tests' games differ.
///
/// `hill` is its last room, and the rooms between it and the hall have no exits.
#[derive(Clone, Copy)]
pub struct Game<'a> {
    pub rooms: usize,
    pub carry: u32,
    pub start: u32,
    pub treasures: u32,
    pub light: i32,
    pub home: u32,
    pub actions: &'a [&'a str],
    pub more_words: &'a [&'a str],
    pub messages: &'a [&'a str],
    pub items: &'a [&'a str],
}

/// A hall with a rug, and a hill to the north of it.
pub const T: Game<'static> = Game {
    rooms: 3,
    carry: 5,
    start: 1,
    treasures: 0,
    light: -1,
    home: 0,
    actions: &["0 0 0 0 0 0 0 0"],
    more_words: &[],
    messages: &["\"\""],
    items: &["\"Rug\" 1"],
};

const WORDS: &str = "\"AUT\" \"ANY\"\n\"GO\" \"NORTH\"\n\"*WALK\" \"SOUTH\"\n\"LOOK\" \"EAST\"\n\
    \"\" \"WEST\"\n\"\" \"UP\"\n\"\" \"DOWN\"\n";

const ROOMS: &str = "0 0 0 0 0 0 \"\"\n2 0 0 0 0 0 \"hall\"\n0 1 0 0 0 0 \"*I'm on a hill\"\n";

// A line for each entry.
fn put_lines(text: &mut String, lines: &[&str]) -> Result<(), AllocError> {
    for line in lines {
        text.push_str(line)?;
        text.push_str("\n")?;
    }
    Ok(())
}

impl<'a> Game<'a> {
    fn put_header(&self, text: &mut String) -> Result<(), AllocError> {
        let items = self.items.len().saturating_sub(1);
        let actions = self.actions.len().saturating_sub(1);
        let words = self.more_words.len().saturating_add(6);
        let rooms = self.rooms.saturating_sub(1);
        let messages = self.messages.len().saturating_sub(1);
        let (carry, start, treasures) = (self.carry, self.start, self.treasures);
        let (light, home) = (self.light, self.home);
        write!(text, "0 {items} {actions} {words} {rooms} {carry} ")?;
        write!(text, "{start} {treasures} 3 {light} {messages} {home}\n")
    }

    /// The text of the game's file.
    pub fn text(&self, alloc: Global) -> Result<String, AllocError> {
        let mut text = String::new(alloc);
        self.put_header(&mut text)?;
        put_lines(&mut text, self.actions)?;
        text.push_str(WORDS)?;
        put_lines(&mut text, self.more_words)?;
        text.push_str(ROOMS)?;
        for _ in 3..self.rooms {
            text.push_str("0 0 0 0 0 0 \"\"\n")?;
        }
        put_lines(&mut text, self.messages)?;
        put_lines(&mut text, self.items)?;
        for _ in self.actions {
            text.push_str("\"\"\n")?;
        }
        text.push_str("416 1 0\n")?;
        Ok(text)
    }
}
