//! Items.
ghost use Rattle.std.specs.Prelude.{◌≡◌, ◌≤◌, ◌<◌, IfOk};
ghost use Rattle.adv_gen.specs.Picks.{after};
ghost use Rattle.adv_gen.specs.Items.{treasure_mark, item_text, item_place, item_picks};

use crate::parts::Part;
use crate::picks::Picks;
use crate::texts::text;
use crate::vocabulary::thing_noun;
use adv_io::Memory;
use itoa::Buffer;
use scott_types::places::{CARRIED, LAMP};
use scott_types::{Item, Text};
use std::alloc::Global;

// Every eighth item is a treasure.
fn treasure_mark(k: u16) -> &'static [u8]
    ensures { result.now ≡ treasure_mark k }
{
    if k % 8 == 7 { b"*" } else { b"" }
}

#[tactic(auto, unfolding(crate::specs::Items::item_text))]
fn item_text(alloc: Global, size: u16, k: u16) -> Result<Text, Memory>
    requires { size ≤ 120 }
    ensures { IfOk result (λ text. text ≡ item_text size k) }
{
    let mut digits = Buffer::new();
    let number = digits.format(k).as_bytes();
    text(
        alloc,
        &[
            treasure_mark(k),
            b"thing ",
            number,
            b"/",
            &thing_noun(size, k),
            b"/",
        ],
    )
}

// The lamp is carried; any other item is in any room, or out of the game.
fn item_place(size: u16, k: u16, picks: &mut Picks) -> u8
    requires { size ≤ 120 }
    ensures made { result ≡ item_place size k picks.old }
    ensures next { picks.new ≡ after (item_picks k) picks.old }
{
    if u32::from(k) == LAMP {
        CARRIED
    } else {
        picks.pick(size + 1) as u8
    }
}

impl Part for Item {
    ghost use Rattle.adv_gen.specs.Items.{item, item_picks};

    ghost part = { item };

    ghost taken = { item_picks };

    fn make(alloc: Global, size: u16, number: u16, picks: &mut Picks) -> Result<Item, Memory> {
        let text = item_text(alloc, size, number)?;
        let place = item_place(size, number, picks);
        Ok(Item { text, place })
    }
}
