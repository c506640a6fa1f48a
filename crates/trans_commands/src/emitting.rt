//! The routines of commands, as directives.
ghost use Rattle.std.specs.Prelude.{◌≡◌, IfOk, map};
ghost use Rattle.inform_tree.specs.Programs.{directive_of};
ghost use Rattle.trans_commands.specs.Directives.{command_directives};

use crate::commanding::{COMMAND, OBEY};
use crate::items::{AT_HAND, CAN_TAKE, FIND_ITEM, IS_REFUSED, PUT_ITEM};
use crate::names::{
    AT_HAND_NAME, CAN_TAKE_NAME, CLASS, COMMAND_NAME, FIND_ITEM_NAME, INDEX, IS_ALL_NAME,
    IS_REFUSED_NAME, MARK, MOVE_ALL_NAME, MOVE_NEXT_NAME, MOVE_ONE_NAME, NO_WAY_NAME, NOUN,
    OBEY_NAME, PUT_ITEM_NAME, ROOM, TRANSFER_NAME, VERB, WALK_NAME, names,
};
use crate::transfers::{IS_ALL, MOVE_ALL, MOVE_NEXT, MOVE_ONE, TRANSFER};
use crate::walking::{NO_WAY, WALK};
use adv_io::Memory;
use inform_codes::{Row, routines};
use inform_tree::Directive;
use scott_types::{Db, Style};
use std::alloc::Global;

/// Each routine with its locals, those that call others first.
pub const ROUTINES: [Row<'static>; 14] = [
    (COMMAND_NAME, &[], &COMMAND),
    (OBEY_NAME, &[VERB, NOUN, MARK], &OBEY),
    (WALK_NAME, &[NOUN, ROOM], &WALK),
    (NO_WAY_NAME, &[], &NO_WAY),
    (TRANSFER_NAME, &[VERB, NOUN], &TRANSFER),
    (IS_ALL_NAME, &[], &IS_ALL),
    (MOVE_ALL_NAME, &[VERB, INDEX, MARK], &MOVE_ALL),
    (MOVE_NEXT_NAME, &[VERB, INDEX], &MOVE_NEXT),
    (MOVE_ONE_NAME, &[VERB, NOUN, INDEX], &MOVE_ONE),
    (FIND_ITEM_NAME, &[VERB, CLASS, INDEX], &FIND_ITEM),
    (AT_HAND_NAME, &[VERB, INDEX], &AT_HAND),
    (CAN_TAKE_NAME, &[VERB, INDEX], &CAN_TAKE),
    (IS_REFUSED_NAME, &[VERB], &IS_REFUSED),
    (PUT_ITEM_NAME, &[VERB, INDEX], &PUT_ITEM),
];

/// The routines of commands in a translated game of a style. `command` does what was heard; it
/// calls `search`, and `dark`, `full` and `say_item`, which stand elsewhere.
pub fn commands(alloc: Global, db: &Db, style: Style) -> Result<Vec<Directive>, Memory>
    ensures { IfOk result (λ directives. map directive_of directives.items
        ≡ command_directives style db.now) }
{
    let names = names(alloc, style)?;
    routines(
        alloc,
        names.as_slice(),
        &[db.items().len() as u32],
        &ROUTINES,
    )
}
