//! The program: its words are obeyed on the files and the terminal of the system.
#![tactic(auto)]

use adv_io::{DiskShelf, StdConsole};
use scott_tool::{scott, status_without_words};
use std::process::ExitCode;
use std::rt::Env;
use std::{env, io};

// The words after the program's name.
fn words<R: Env + AllocGlobal>(rt: &R) -> io::Result<Vec<String>> {
    let words = env::args(rt)?.skip(1).collect(rt.alloc())?;
    Ok(words)
}

// The words are obeyed, on the files and the terminal of the system.
fn main(rt: HostRuntime) -> ExitCode {
    match words(&rt) {
        Ok(words) => {
            let mut shelf = DiskShelf::new(&rt);
            let mut console = StdConsole::new(&rt);
            ExitCode::from(scott(rt.alloc(), &words, &mut shelf, &mut console))
        }
        Err(fault) => ExitCode::from(status_without_words(fault.kind())),
    }
}
