//! `compile S F`: the database that a source means is stored.
ghost use Rattle.scott_requests.specs.Request.{compile};
ghost use Rattle.scott_tool.specs.Plan.{work};
ghost use Rattle.scott_tool.specs.Views.{texts_in};
ghost use Rattle.scott_tool.specs.Obeying.{MakesFile};

use crate::contents::compiled;
use crate::loads::Texts;
use crate::refusals::Refusal;
use scott_format::write_db;
use std::alloc::Global;
use std::mem::forget;

/// The text of the database that a source means. It is stored under the second name.
pub fn database_text<'a>(
    alloc: Global,
    source: &'a str,
    game: &str,
    texts: &Texts,
) -> Result<Vec<u8>, Refusal<'a>>
    ensures { MakesFile game.now result (work (compile source.now game.now) (texts_in texts.now)) }
{
    let db = compiled(alloc, source, &texts.main)?;
    let text = write_db(alloc, &db);
    // The system takes the database's memory back at once when the program ends.
    forget(db);
    match text {
        Ok(text) => Ok(text),
        Err(_) => Err(Refusal::Memory),
    }
}
