//! Small databases that sessions play in the tests.
use crate::expect;
use scott_format::{DATABASE_LIMIT, read_db};
use scott_types::Db;
use std::process::Abort;

/// A hall and a hill, one way to and fro, and nothing that happens.
pub const HILL: &[u8] = b"0 0 0 6 2 5 1 0 3 -1 0 0
0 0 0 0 0 0 0 0
\"AUT\" \"ANY\"
\"GO\" \"NORTH\"
\"*WALK\" \"SOUTH\"
\"LOOK\" \"EAST\"
\"\" \"WEST\"
\"\" \"UP\"
\"\" \"DOWN\"
0 0 0 0 0 0 \"\"
2 0 0 0 0 0 \"hall\"
0 1 0 0 0 0 \"*I'm on a hill\"
\"\"
\"Rug\" 1
\"\"
416 1 0
";

/// The same, where `look` ends the game.
pub const SHORT: &[u8] = b"0 0 0 6 2 5 1 0 3 -1 0 0
450 0 0 0 0 0 9450 0
\"AUT\" \"ANY\"
\"GO\" \"NORTH\"
\"*WALK\" \"SOUTH\"
\"LOOK\" \"EAST\"
\"\" \"WEST\"
\"\" \"UP\"
\"\" \"DOWN\"
0 0 0 0 0 0 \"\"
2 0 0 0 0 0 \"hall\"
0 1 0 0 0 0 \"*I'm on a hill\"
\"\"
\"Rug\" 1
\"\"
416 1 0
";

/// The same, with three automatic heads: lines 1, 2 and 4.
pub const DRAWN: &[u8] = b"0 0 4 6 2 5 1 0 3 -1 4 0
0 0 0 0 0 0 600 0
1 0 0 0 0 0 150 0
100 0 0 0 0 0 373 0
0 0 0 0 0 0 600 0
149 0 0 0 0 0 450 0
\"AUT\" \"ANY\"
\"GO\" \"NORTH\"
\"*WALK\" \"SOUTH\"
\"LOOK\" \"EAST\"
\"\" \"WEST\"
\"\" \"UP\"
\"\" \"DOWN\"
0 0 0 0 0 0 \"\"
2 0 0 0 0 0 \"hall\"
0 1 0 0 0 0 \"*I'm on a hill\"
\"\" \"one\" \"two\" \"three\" \"four\"
\"Rug\" 1
\"\" \"\" \"\" \"\" \"\"
416 1 0
";

/// The database of a text.
pub fn database<R: Abort + AllocGlobal>(rt: &R, text: &[u8]) -> Db {
    expect!(rt; text.len() <= DATABASE_LIMIT);
    read_db(rt.alloc(), text).expect(rt, "a database")
}
