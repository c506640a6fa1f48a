//! How many steps are enough.
ghost use Rattle.std.specs.Prelude.{◌≡◌, ◌≤◌, ◌-◌};
ghost use Rattle.trans_specs.specs.Steps.{share, enough};

use scott_types::Db;

/// The most lines of which the steps are counted.
pub const LINE_LIMIT: usize = 500_000;

// The highest number of a list of so many, which are counted from 0.
fn highest(count: usize) -> u64
    ensures { result ≡ count - 1 }
{
    count.saturating_sub(1) as u64
}

// What the steps of a routine are measured in.
fn share(db: &Db) -> u64
    ensures value { result ≡ share db.now }
    ensures few { result ≤ 22686 }
{
    let _ = db.parts();
    highest(db.items().len())
        + highest(db.words().len()) * (u64::from(db.header().length) + 1)
        + highest(db.messages().len())
        + highest(db.rooms().len())
        + 200
}

/// The steps that are enough for a run of the translation of a game on so many lines, 500,000 at
/// most. They are the product of a thousand, the lines and one more, the actions and one more, the
/// items and one more, and a sum of what the longest texts and lists cost.
pub fn enough_steps(db: &Db, lines: usize) -> u64
    requires { lines ≤ LINE_LIMIT }
    ensures { result ≡ enough db.now lines }
{
    let actions = highest(db.actions().len()) + 2;
    let items = highest(db.items().len()) + 2;
    (lines as u64 + 1) * 1_000 * actions * items * share(db)
}
