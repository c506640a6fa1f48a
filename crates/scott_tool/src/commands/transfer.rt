//! `transfer F P G`: an Inform program that is faithful to a database from a position on is stored.
ghost use Rattle.std.specs.Prelude.{◌≡◌, true};
ghost use Rattle.std.specs.Option.{is_some};
ghost use Rattle.scott_requests.specs.Request.{transfer};
ghost use Rattle.scott_requests.specs.Views.{asked_transfer};
ghost use Rattle.scott_tool.specs.Plan.{work};
ghost use Rattle.scott_tool.specs.Views.{ForMain};
ghost use Rattle.scott_tool.specs.Obeying.{MakesFile};

use crate::contents::{database, position, test_prompt, translated};
use crate::loads::Texts;
use crate::refusals::Refusal;
use scott_requests::TransferRequest;
use std::alloc::Global;

/// The text of a program that is faithful to a database and opens at a position. It is stored under
/// the third name.
pub fn opened_program_text<'a>(
    alloc: Global,
    asked: TransferRequest<'a>,
    texts: &Texts,
) -> Result<Vec<u8>, Refusal<'a>>
    requires { is_some texts.now.game ≡ true }
    ensures { ForMain texts.now (λ texts. MakesFile asked.entry.translation.program.now result
        (work (transfer (asked_transfer asked.entry)) texts)) }
{
    let asked_for = asked.translation;
    let db = database(asked_for.game, texts)?;
    let from = position(asked.from, db, &texts.position)?;
    test_prompt(asked.from, &from)?;
    translated(
        alloc,
        asked_for.game,
        db,
        asked_for.style,
        asked_for.width,
        Some(&from.state),
    )
}
