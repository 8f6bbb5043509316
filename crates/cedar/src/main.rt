//! Cedar's command line, as a program. `cedar --help` says which commands there are, and `docs/COMMANDS.md` describes
//! them.
//!
//! - `main`: hands the words of the command line to `answer_command` of `cedar_commands`, prints what it answers (the answer
//!   on standard output, warnings and refusals on standard error), and ends with its status.
//!
//! The statuses 1 and 3 are set here: `REFUSED`, where a question is not answered or its answer can't be printed, and
//! `OUT_OF_MEMORY`. The others come with the answer.
//!
//! The promise is the checker's alone: the program stays within its memory and comes to an end. The files of the
//! samples of README and COMMANDS are in `data/`: what these print is compared with what the pages show.
#![tactic(auto)]

use cedar_commands::{Answer, answer_command};
use std::env::{Env, FillError};
use std::io::{IsTerminal, Stderr};
use std::process::ExitCode;
use std::rt::Files;
use std::{env, io};

/// The request is not answered, or what is answered could not be printed.
pub const REFUSED: u8 = 1;
/// Out of memory.
pub const OUT_OF_MEMORY: u8 = 3;

fn main(rt: HostRuntime) -> ExitCode {
    let stderr = rt.stderr();
    let terminal = if stderr.is_terminal() {
        Some(stderr)
    } else {
        None
    };
    ExitCode::from(run(&rt, terminal))
}

// Runs the command that the arguments write, prints what it comes to, and answers the exit status.
fn run<R: Env + Files + Input + AllocGlobal + Print + Eprint>(
    rt: &R,
    terminal: Option<Stderr>,
) -> u8 {
    match words(rt) {
        Ok(words) => print_answer(rt, answer_command(rt, words.as_slice(), terminal)),
        Err(error) => report_unread(rt, &error),
    }
}

fn words<R: Env + AllocGlobal>(rt: &R) -> io::Result<Vec<String>> {
    let mut words: Vec<String> = Vec::new(rt.alloc());
    for word in env::args(rt)? {
        words.push(word)?;
    }
    Ok(words)
}

fn print_answer<R: Print + Eprint>(rt: &R, answer: Answer) -> u8 {
    match answer {
        Answer::Printed(printed) => {
            drop(rt.eprint(printed.warnings.as_str()));
            match rt.print(printed.output.as_str()) {
                Ok(()) => printed.status,
                Err(error) => report_unwritten(rt, &error),
            }
        }
        Answer::Refused(lines) => {
            drop(rt.eprint(lines.as_str()));
            REFUSED
        }
        Answer::OutOfMemory => {
            drop(rt.eprint("out of memory\n"));
            OUT_OF_MEMORY
        }
    }
}

// The output could not be written.
fn report_unwritten<R: Eprint>(rt: &R, error: &io::Error) -> u8 {
    drop(eprintln!(rt; "the output can't be written: {error}"));
    REFUSED
}

// The arguments could not be read.
fn report_unread<R: Env + Eprint>(rt: &R, error: &io::Error) -> u8 {
    if error.kind() == io::ErrorKind::OutOfMemory {
        drop(rt.eprint("out of memory\n"));
        return OUT_OF_MEMORY;
    }
    match not_utf8(rt) {
        Some(number) => drop(eprintln!(rt; "argument {number} is not UTF-8")),
        None => drop(rt.eprint("an argument is not UTF-8\n")),
    }
    REFUSED
}

// The first argument that is not UTF-8, counted from 1 behind the program's name, where it and those before it are short.
fn not_utf8<R: Env>(rt: &R) -> Option<usize> {
    let mut buffer = [0u8; 4096];
    for number in 1..4096 {
        match rt.arg(number, &mut buffer) {
            Ok(length) => if !is_utf8(&buffer, length) {
                return Some(number);
            },
            Err(FillError::TooLong) => return None,
            Err(FillError::NotPresent) => return None,
        }
    }
    None
}

// Whether the first bytes are UTF-8.
fn is_utf8(buffer: &[u8], length: usize) -> bool {
    match buffer.get(..length) {
        Some(bytes) => str::from_utf8(bytes).is_ok(),
        None => true,
    }
}
