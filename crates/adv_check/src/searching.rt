//! All warnings of a database.
ghost use Rattle.std.specs.Prelude.{◌≡◌, IfOk};
ghost use Rattle.adv_check.specs.Sites.{warnings};

use crate::entries::add_entries;
use crate::findings::Warning;
use adv_io::Memory;
use scott_types::Db;
use std::alloc::Global;

/// The warnings of a database: line by line, in a line conditions and then opcodes, then room by
/// room and exit by exit, then item by item.
///
/// docs/FORMAT.md says what is warned of. Parameters are counted as if each get takes its own.
pub fn warnings(alloc: Global, db: &Db) -> Result<Vec<Warning>, Memory>
    ensures { IfOk result (λ found. found.items ≡ warnings db.now) }
{
    let mut found = Vec::new(alloc);
    add_entries(alloc, db, db.actions(), &mut found)?;
    add_entries(alloc, db, db.rooms(), &mut found)?;
    add_entries(alloc, db, db.items(), &mut found)?;
    Ok(found)
}
