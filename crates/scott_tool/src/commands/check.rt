//! `check F`: the report on a database is said.
ghost use Rattle.std.specs.Prelude.{◌≡◌, true};
ghost use Rattle.std.specs.Option.{is_some};
ghost use Rattle.scott_requests.specs.Request.{check};
ghost use Rattle.scott_tool.specs.Plan.{work};
ghost use Rattle.scott_tool.specs.Views.{ForMain};
ghost use Rattle.scott_tool.specs.Obeying.{Makes};

use crate::contents::database;
use crate::loads::Texts;
use crate::refusals::Refusal;
use adv_check::report;
use std::alloc::Global;

/// The report on a database.
pub fn report_on<'a>(alloc: Global, game: &'a str, texts: &Texts) -> Result<Vec<u8>, Refusal<'a>>
    requires { is_some texts.now.game ≡ true }
    ensures { ForMain texts.now (λ texts. Makes result (work (check game.now) texts)) }
{
    let db = database(game, texts)?;
    match report(alloc, db) {
        Ok(text) => Ok(text),
        Err(_) => Err(Refusal::Memory),
    }
}
