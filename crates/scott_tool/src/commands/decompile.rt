//! `decompile F S`: the plain text of a database is stored.
ghost use Rattle.std.specs.Prelude.{◌≡◌, true};
ghost use Rattle.std.specs.Option.{is_some};
ghost use Rattle.scott_requests.specs.Request.{decompile};
ghost use Rattle.scott_tool.specs.Plan.{work};
ghost use Rattle.scott_tool.specs.Views.{ForMain};
ghost use Rattle.scott_tool.specs.Obeying.{MakesFile};

use crate::contents::database;
use crate::loads::Texts;
use crate::refusals::Refusal;
use adv_decompiler::decompile as plain_text;
use std::alloc::Global;

/// The plain text of a database. It is stored under the second name.
pub fn source_text<'a>(
    alloc: Global,
    game: &'a str,
    source: &str,
    texts: &Texts,
) -> Result<Vec<u8>, Refusal<'a>>
    requires { is_some texts.now.game ≡ true }
    ensures { ForMain texts.now
        (λ texts. MakesFile source.now result (work (decompile game.now source.now) texts)) }
{
    let db = database(game, texts)?;
    match plain_text(alloc, db) {
        Ok(text) => Ok(text),
        Err(_) => Err(Refusal::Memory),
    }
}
