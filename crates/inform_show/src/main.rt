//! Reads an Inform source as far as is asked, and says what is in it. The scripts of bench/ measure
//! it and compare it with other programs; it is no part of the tool.
//!
//! `tokens FILE` says how many tokens there are, `tree FILE` how many directives, `names FILE` how
//! many of an accepted program. `print16 FILE` and `print32 FILE` say the printed text of a program
//! that is accepted with words of 16 or of 32 bits. Where there is a fault it is said, and the
//! status is 6.
#![tactic(auto)]

ghost use Rattle.std.specs.Prelude.{IfOk};
ghost use Rattle.inform_lexer.specs.Tokens.{Spelled};

use adv_io::{Console, ConsoleFault, DiskShelf, Shelf, StdConsole, say_all};
use inform_lexer::{LexFault, Token, tokens};
use inform_names::{NameFault, accept};
use inform_parser::{ParseFault, parse};
use inform_printer::print;
use inform_tree::{Program, Width};
use itoa::Buffer;
use std::alloc::Global;
use std::mem::forget;
use std::process::ExitCode;
use std::rt::Env;
use std::{env, io};

/// The most bytes of an Inform source.
const INFORM_LIMIT: usize = 33_554_432;

// Why a source isn't shown.
#[derive(Drop)]
enum Fault {
    Tokens(LexFault),
    Grammar(ParseFault),
    Names(NameFault),
    Memory,
    Console,
}

impl From<ConsoleFault> for Fault {
    fn from(_fault: ConsoleFault) -> Fault {
        Fault::Console
    }
}

// How far a source is read.
#[derive(Clone, Copy)]
enum Depth {
    Tokens,
    Tree,
    Names,
    Print(Width),
}

fn depth_of(word: &str) -> Option<Depth> {
    match word {
        "tokens" => Some(Depth::Tokens),
        "tree" => Some(Depth::Tree),
        "names" => Some(Depth::Names),
        "print16" => Some(Depth::Print(Width::W16)),
        "print32" => Some(Depth::Print(Width::W32)),
        _ => None,
    }
}

// Says a count, and what is counted.
fn say_count<C: Console>(console: &mut C, count: usize, what: &[u8]) -> Result<(), Fault> {
    let mut digits = Buffer::new();
    say_all(
        console,
        &[what, b" ", digits.format(count).as_bytes(), b"\n"],
    )?;
    Ok(())
}

fn read_tokens(alloc: Global, bytes: &[u8]) -> Result<Vec<Token>, Fault>
    ensures { IfOk result (λ found. Spelled bytes.now found.items) }
{
    match tokens(alloc, bytes) {
        Ok(found) => Ok(found),
        Err(fault) => Err(Fault::Tokens(fault)),
    }
}

fn read_tree(alloc: Global, bytes: &[u8]) -> Result<Program, Fault> {
    let found = read_tokens(alloc, bytes)?;
    match parse(alloc, found, bytes) {
        Ok(program) => Ok(program),
        Err(fault) => Err(Fault::Grammar(fault)),
    }
}

fn show_accepted<C: Console>(
    alloc: Global,
    program: Program,
    width: Width,
    console: &mut C,
    printing: bool,
) -> Result<(), Fault> {
    match accept(alloc, program, width) {
        Err((_, fault)) => Err(Fault::Names(fault)),
        Ok(accepted) => {
            if !printing {
                let count = accepted.program().directives.len();
                forget(accepted);
                return say_count(console, count, b"directives");
            }
            if !accepted.program().well_formed() {
                return Err(Fault::Memory);
            }
            match print(alloc, accepted.program()) {
                Ok(text) => Ok(console.say(&text)?),
                Err(_) => Err(Fault::Memory),
            }
        }
    }
}

fn show<C: Console>(
    alloc: Global,
    depth: Depth,
    bytes: &[u8],
    console: &mut C,
) -> Result<(), Fault> {
    match depth {
        Depth::Tokens => say_count(console, read_tokens(alloc, bytes)?.len(), b"tokens"),
        Depth::Tree => {
            let program = read_tree(alloc, bytes)?;
            let count = program.directives.len();
            forget(program);
            say_count(console, count, b"directives")
        }
        Depth::Names => {
            show_accepted(alloc, read_tree(alloc, bytes)?, Width::W16, console, false)
        }
        Depth::Print(width) => {
            show_accepted(alloc, read_tree(alloc, bytes)?, width, console, true)
        }
    }
}

// Says a file's name and what is said of it, in pieces.
fn say_pieces<C: Console>(
    console: &mut C,
    name: &str,
    pieces: &[&[u8]],
) -> Result<(), ConsoleFault> {
    console.say(name.as_bytes())?;
    console.say(b": ")?;
    say_all(console, pieces)?;
    console.say(b"\n")
}

// Says why a source isn't shown.
fn say_fault<C: Console>(console: &mut C, name: &str, fault: &Fault) -> Result<(), ConsoleFault> {
    let mut digits = Buffer::new();
    match fault {
        Fault::Tokens(fault) => say_pieces(console, name, &fault.pieces(&mut digits)),
        Fault::Grammar(fault) => say_pieces(console, name, &fault.pieces(&mut digits)),
        Fault::Names(fault) => say_pieces(console, name, &fault.pieces(&mut digits)),
        Fault::Memory => Ok(()),
        Fault::Console => Ok(()),
    }
}

// The status of a fault: 6 for one of the source, 9 for want of memory, 3 for one of the console.
fn status_of(fault: &Fault) -> u8 {
    match fault {
        Fault::Tokens(LexFault::Memory) => 9,
        Fault::Grammar(ParseFault::Memory) => 9,
        Fault::Names(NameFault::Memory) => 9,
        Fault::Memory => 9,
        Fault::Console => 3,
        _ => 6,
    }
}

fn words<R: Env + AllocGlobal>(rt: &R) -> io::Result<Vec<String>> {
    let words = env::args(rt)?.skip(1).collect(rt.alloc())?;
    Ok(words)
}

fn show_file(rt: &HostRuntime, words: &[String]) -> u8 {
    let mut shelf = DiskShelf::new(rt);
    let mut console = StdConsole::new(rt);
    match words {
        [what, name] => {
            let Some(depth) = depth_of(what) else {
                return 1;
            };
            let Ok(bytes) = shelf.load(rt.alloc(), name, INFORM_LIMIT) else {
                return 2;
            };
            match show(rt.alloc(), depth, &bytes, &mut console) {
                Ok(()) => 0,
                Err(fault) => match say_fault(&mut console, name, &fault) {
                    Ok(()) => status_of(&fault),
                    Err(_) => 3,
                },
            }
        }
        _ => 1,
    }
}

fn main(rt: HostRuntime) -> ExitCode {
    match words(&rt) {
        Ok(words) => ExitCode::from(show_file(&rt, &words)),
        Err(_) => ExitCode::from(9),
    }
}
