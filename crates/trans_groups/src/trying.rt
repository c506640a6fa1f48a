//! All routines that try groups.
ghost use Rattle.std.specs.Prelude.{◌≡◌, IfOk, map};
ghost use Rattle.inform_tree.specs.Programs.{directive_of};
ghost use Rattle.trans_groups.specs.Trying.{trying_directives};

use crate::emitting::groups;
use crate::searching::search;
use crate::stepping::automatic;
use adv_io::Memory;
use inform_codes::joined;
use inform_tree::Directive;
use scott_types::Db;
use std::alloc::Global;

/// The search, the automatic step and the routine of each group of a game.
pub fn groups_tried(alloc: Global, db: &Db) -> Result<Vec<Directive>, Memory>
    ensures { IfOk result (λ directives. map directive_of directives.items
        ≡ trying_directives db.now) }
{
    let called = joined(automatic(alloc, db)?, groups(alloc, db)?)?;
    joined(search(alloc, db)?, called)
}
