//! The commands, each on what was loaded for it.
ghost use Rattle.scott_requests.specs.Request.{IsSized};
ghost use Rattle.scott_requests.specs.Views.{request_of};
ghost use Rattle.scott_tool.specs.Refusal.{refusing};
ghost use Rattle.scott_tool.specs.Plan.{work};
ghost use Rattle.scott_tool.specs.Views.{ForMain, number_of};
ghost use Rattle.scott_tool.specs.Obeying.{Obeys, TextsFit};

mod calls;
mod check;
mod compile;
mod cover;
mod decompile;
mod demo;
mod hall;
mod play;
mod run;
mod saying;
mod simplify;
mod step;
mod storing;
mod transfer;
mod translate;

use crate::loads::Texts;
use crate::status::Status;
use adv_io::{Console, Shelf};
use calls::calls;
use check::report_on;
use compile::database_text;
use cover::cover;
use decompile::source_text;
use demo::told_of;
use hall::play_hall;
use play::play;
use run::run;
use saying::say_made;
use scott_requests::Request;
use simplify::simpler_text;
use std::alloc::Global;
use step::step;
use storing::store_made;
use transfer::opened_program_text;
use translate::program_text;

/// Does what was asked for.
pub fn work<S: Shelf, C: Console>(
    alloc: Global,
    request: Request<'_>,
    texts: &Texts,
    shelf: &mut S,
    console: &mut C,
) -> Status
    requires fits { TextsFit (request_of request) texts.now }
    requires sized { IsSized (request_of request) }
    ensures { ForMain texts.now
        (λ texts. Obeys (S.seen shelf.old) (S.seen shelf.new)
        (C.seen console.old) (C.seen console.new)
        (refusing (work (request_of request.entry) texts)) (number_of result)) }
{
    match request {
        Request::Check(game) => say_made(report_on(alloc, game, texts), console),
        Request::Compile(source, game) => {
            let made = database_text(alloc, source, game, texts);
            store_made(alloc, game, made, shelf, console)
        }
        Request::Decompile(game, source) => {
            let made = source_text(alloc, game, source, texts);
            store_made(alloc, source, made, shelf, console)
        }
        Request::Play(asked) => play(alloc, asked, texts, shelf, console),
        Request::Translate(asked) => {
            let made = program_text(alloc, asked, texts);
            store_made(alloc, asked.program, made, shelf, console)
        }
        Request::Run(asked) => run(alloc, asked, texts, console),
        Request::Step(asked) => step(alloc, asked, texts, console),
        Request::Calls(asked) => calls(alloc, asked, texts, console),
        Request::Demo(n) => say_made(told_of(alloc, n), console),
        Request::Hall(game, count) => play_hall(alloc, game, count, texts, console),
        Request::Cover(asked) => cover(alloc, asked, texts, console),
        Request::Transfer(asked) => {
            let made = opened_program_text(alloc, asked, texts);
            store_made(alloc, asked.translation.program, made, shelf, console)
        }
        Request::Simplify(asked) => {
            let made = simpler_text(alloc, asked, texts);
            store_made(alloc, asked.simpler, made, shelf, console)
        }
    }
}
