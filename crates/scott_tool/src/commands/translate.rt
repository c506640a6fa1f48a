//! `translate F G`: an Inform program that is faithful to a database is stored.
ghost use Rattle.std.specs.Prelude.{◌≡◌, true};
ghost use Rattle.std.specs.Option.{is_some};
ghost use Rattle.scott_requests.specs.Request.{translate};
ghost use Rattle.scott_requests.specs.Views.{asked_translation};
ghost use Rattle.scott_tool.specs.Plan.{work};
ghost use Rattle.scott_tool.specs.Views.{ForMain};
ghost use Rattle.scott_tool.specs.Obeying.{MakesFile};

use crate::contents::{database, translated};
use crate::loads::Texts;
use crate::refusals::Refusal;
use scott_requests::TranslationRequest;
use std::alloc::Global;

/// The text of a program that is faithful to a database. It is stored under the second name.
pub fn program_text<'a>(
    alloc: Global,
    asked: TranslationRequest<'a>,
    texts: &Texts,
) -> Result<Vec<u8>, Refusal<'a>>
    requires { is_some texts.now.game ≡ true }
    ensures { ForMain texts.now (λ texts. MakesFile asked.entry.program.now result
        (work (translate (asked_translation asked.entry)) texts)) }
{
    let db = database(asked.game, texts)?;
    translated(alloc, asked.game, db, asked.style, asked.width, None)
}
