//! The program's one call.
ghost use Rattle.std.specs.Prelude.{◌≡◌, Some};
ghost use Rattle.scott_requests.specs.Request.{IsSized, asked_by};
ghost use Rattle.scott_requests.specs.Views.{request_of};
ghost use Rattle.scott_tool.specs.Laws.{Laws};
ghost use Rattle.scott_tool.specs.Views.{number_of};
ghost use Rattle.scott_tool.specs.Obeying.{Handled};
ghost use Rattle.scott_tool.specs.Promises.{HasStatus, IsSeen, KeepsFiles, Completes, IsEnd, HasDone, HasChecked, HasCompiled, HasDecompiled, HasPlayed, HasTranslated, HasTransferred, HasRun, HasStepped, HasReplayed, HasPlayedHall, HasCovered, HasCalled, HasRecounted, HasDemonstrated, Counts, HasSimplified};

use crate::commands::work;
use crate::loads::load_texts;
use crate::refusals::Refusal;
use crate::status::Status;
use adv_counts::laws::counts_stay;
use adv_coverage::laws::lines_count_alike;
use adv_io::{Console, Shelf};
use adv_position::laws::{bad_line_is_found, text_is_read};
use inform_reader::laws::{fault_in as program_fault_in, program_in};
use inform_stepper::laws::steps_are_shown;
use scott_format::laws::{database_in, fault_in};
use scott_requests::{Request, request_in};
use source_reader::laws::{fault_in as source_fault_in, source_in};
use std::alloc::Global;
use std::mem::forget;

// Loads what a request names, and does what it asks for.
fn obey<S: Shelf, C: Console>(
    alloc: Global,
    request: Request<'_>,
    shelf: &mut S,
    console: &mut C,
) -> Status
    requires { IsSized (request_of request) }
    ensures { Handled (S.seen shelf.old) (S.seen shelf.new) (C.seen console.old)
        (C.seen console.new) (Some (request_of request.entry)) (number_of result) }
{
    match load_texts(alloc, request, shelf) {
        Ok(texts) => {
            let status = work(alloc, request, &texts, shelf, console);
            // The system takes the memory back at once when the program ends.
            forget(texts);
            status
        }
        Err(refusal) => refusal.end(console),
    }
}

// Does what the words ask for.
fn answer<S: Shelf, C: Console>(
    alloc: Global,
    words: &[String],
    shelf: &mut S,
    console: &mut C,
) -> Status
    ensures { Handled (S.seen shelf.old) (S.seen shelf.new)
        (C.seen console.old) (C.seen console.new) (asked_by words.now) (number_of result) }
{
    match request_in(words) {
        Some(request) => obey(alloc, request, shelf, console),
        None => Refusal::NoRequest.end(console),
    }
}

// The same, with the number of the status.
fn handle<S: Shelf, C: Console>(
    alloc: Global,
    words: &[String],
    shelf: &mut S,
    console: &mut C,
) -> u8
    ensures { Handled (S.seen shelf.old) (S.seen shelf.new)
        (C.seen console.old) (C.seen console.new) (asked_by words.now) result }
{
    answer(alloc, words, shelf, console).number()
}

// What is known of reading files, of the steps of runs, and of counts.
fn reading_laws()
    ensures { Laws }
{
    database_in();
    fault_in();
    source_in();
    source_fault_in();
    program_in();
    program_fault_in();
    text_is_read();
    bad_line_is_found();
    steps_are_shown();
    counts_stay();
    lines_count_alike();
}

/// Does what the words ask for, with the files of a shelf, on a console, and answers a status.
///
/// docs/GUIDE.md has the words, the statuses and the lines of the refusals.
pub fn scott<S: Shelf, C: Console>(
    alloc: Global,
    words: &[String],
    shelf: &mut S,
    console: &mut C,
) -> u8
    // Each status comes only with its cause, and is that of the first refusal in the order of the
    // steps.
    ensures status { HasStatus (S.seen shelf.old) (S.seen shelf.new)
        (C.seen console.old) (C.seen console.new) (asked_by words.now) result }

    // What is seen is what is expected, or a prefix of it where the console failed; with 9 nothing.
    ensures seen { IsSeen (S.seen shelf.old) (S.seen shelf.new)
        (C.seen console.old) (C.seen console.new) (asked_by words.now) result }

    // The files stay as they were, but for one that is to be stored: with 0 it is, and where the
    // shelf failed it may be lost.
    ensures files { KeepsFiles (S.seen shelf.old) (S.seen shelf.new) (asked_by words.now) result }

    // Where all files are there and accepted, the status is 0, unless something fails.
    ensures complete { Completes (S.seen shelf.old) (S.seen shelf.new)
        (C.seen console.old) (C.seen console.new) (asked_by words.now) result }

    // With 0, and with 8 and 10 of a run, each content of the request was what it should be, and
    // its task was done: the console saw it, and its file is stored. The next clauses say what this
    // means for each command.
    ensures done { IsEnd result → HasDone (S.seen shelf.old) (S.seen shelf.new)
        (C.seen console.old) (C.seen console.new) (asked_by words.now) result }

    // With 0 `check` has said the report on the file's database.
    ensures checked { result ≡ 0 → HasChecked (S.seen shelf.old)
        (C.seen console.old) (C.seen console.new) (asked_by words.now) }

    // With 0 `compile` has stored the database that the source means, and nothing else has changed.
    ensures compiled { result ≡ 0 → HasCompiled (S.seen shelf.old) (S.seen shelf.new)
        (asked_by words.now) }

    // With 0 `decompile` has stored the plain text of the file's database.
    ensures decompiled { result ≡ 0 → HasDecompiled (S.seen shelf.old) (S.seen shelf.new)
        (asked_by words.now) }

    // With 0 `play` has shown the play of the file's database, from its beginning or from the
    // position of a file, and where it stopped and a file was named the position is kept.
    ensures played { result ≡ 0 → HasPlayed (S.seen shelf.old) (S.seen shelf.new)
        (C.seen console.old) (C.seen console.new) (asked_by words.now) }

    // With 0 `translate` has stored the text of a program that is faithful to the file's database:
    // for every list of lines and draws its run is the play of the database.
    ensures translated { result ≡ 0 → HasTranslated (S.seen shelf.old) (S.seen shelf.new)
        (asked_by words.now) }

    // With 0 `transfer` has stored the text of a program that is faithful to the file's database
    // from the position of the other file on.
    ensures transferred { result ≡ 0 → HasTransferred (S.seen shelf.old) (S.seen shelf.new)
        (asked_by words.now) }

    // With 0 `simplify` has stored the text of a program that is simpler than the file's.
    ensures simplified { result ≡ 0 → HasSimplified (S.seen shelf.old) (S.seen shelf.new)
        (asked_by words.now) }

    // With 0, 8 and 10 `run` has shown the run of the file's program, and then its line.
    ensures ran { IsEnd result → HasRun (S.seen shelf.old)
        (C.seen console.old) (C.seen console.new) (asked_by words.now) result }

    // With 0, 8 and 10 `step` has shown the run of the file's program with a line at each pause,
    // and then its line; without the lines of the pauses it is what `run` shows.
    ensures stepped { IsEnd result → HasStepped (S.seen shelf.old)
        (C.seen console.old) (C.seen console.new) (asked_by words.now) result }

    // The run of a program that is faithful to a database, as `translate` stores it, on typed lines
    // and with steps that are enough ends neither with 8 nor with 10, and with 0 it has shown the
    // play of the database.
    ensures replayed { HasReplayed (S.seen shelf.old)
        (C.seen console.old) (C.seen console.new) (asked_by words.now) result }

    // With 0 `hall` has shown each line that it took and what is said of it, which of each session
    // is what it would say on its lines alone.
    ensures played_hall { result ≡ 0 → HasPlayedHall (S.seen shelf.old)
        (C.seen console.old) (C.seen console.new) (asked_by words.now) }

    // With 0 `cover` has shown the play of the file's database, and then how often each of its
    // action lines was tried in it.
    ensures covered { result ≡ 0 → HasCovered (S.seen shelf.old)
        (C.seen console.old) (C.seen console.new) (asked_by words.now) }

    // With 0 `calls` has shown the run of the file's program, and then how often it entered each
    // routine of a game's lines; with 8 and 10 its line, as `run` has.
    ensures called { IsEnd result → HasCalled (S.seen shelf.old)
        (C.seen console.old) (C.seen console.new) (asked_by words.now) result }

    // The run of a program that is faithful to a database, as `translate` stores it, on typed lines
    // and with steps that are enough: with 0 `calls` has shown what `cover` shows of the database.
    ensures recounted { HasRecounted (S.seen shelf.old)
        (C.seen console.old) (C.seen console.new) (asked_by words.now) result }

    // With 0 `demo` has told how the play of the game of the number ended, and how the run of a
    // program ended that is faithful to it, on the same lines and draws.
    ensures demonstrated { result ≡ 0 → HasDemonstrated (S.seen shelf.old)
        (C.seen console.old) (C.seen console.new) (asked_by words.now) }

    // No count of faults falls. The console's stays with every status but 3, and the shelf's with
    // every one but 2 and 3.
    ensures counts { Counts (S.seen shelf.old) (S.seen shelf.new)
        (C.seen console.old) (C.seen console.new) result }
{
    reading_laws();
    handle(alloc, words, shelf, console)
}
