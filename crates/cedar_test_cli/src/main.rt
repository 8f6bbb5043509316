//! Runs the command lines of the tables that are named, over the files beside them. Prints each that comes to
//! something else than what is wanted, and a line `FILE: HELD of RUNS runs hold` a table.
//!
//! - `main`: the tables that are named, one after another.
//! - `rows`: a table of runs. A run begins with a line `$ ARGUMENTS`; below it are the status, standard output and
//!   standard error that are wanted.
//! - `words`: the words of a command line.
//!
//! Each run goes through `answer_command` of `cedar_commands`, as the program `cedar` does; the files that it names are in
//! `data/`.
//!
//! The promise is the checker's alone: the program stays within its memory and comes to an end. How many runs hold is
//! compared with `stdout`; `docs/TABLES.md` says what a run has.
#![tactic(auto)]

mod rows;
mod words;

use cedar_round_trips::file_comes_back;
use rows::file_holds;
use std::env::Env;
use std::process::ExitCode;
use std::rt::Files;
use std::{env, io};

// More levels than any policy of a file has that is read.
const LEVELS: usize = 4000;

/// All runs come to what is wanted.
pub const DONE: u8 = 0;
/// One does not.
pub const ANOTHER_ANSWER: u8 = 1;
/// Out of memory.
pub const OUT_OF_MEMORY: u8 = 3;
/// A table could not be read, or the output not written.
pub const INPUT_OR_OUTPUT: u8 = 4;

fn main(rt: HostRuntime) -> ExitCode {
    let status = match files_hold(&rt) {
        Ok(true) => DONE,
        Ok(false) => ANOTHER_ANSWER,
        Err(error) => status_of(&error),
    };
    ExitCode::from(status)
}

fn status_of(error: &io::Error) -> u8 {
    if error.kind() == io::ErrorKind::OutOfMemory {
        OUT_OF_MEMORY
    } else {
        INPUT_OR_OUTPUT
    }
}

// Whether all runs of the tables that the arguments name hold.
fn files_hold<R: Env + Files + Input + AllocGlobal + Print>(rt: &R) -> io::Result<bool> {
    let mut files = env::args(rt)?;
    drop(files.next());
    let mut all_hold = true;
    let mut as_json = false;
    'files: for file in files {
        if file.as_str() == "--json" {
            as_json = true;
        } else if !holds(rt, file.as_str(), as_json)? {
            all_hold = false;
        }
    }
    Ok(all_hold)
}

// Whether the runs of the table come to what is wanted; or where it is a file of policies that go to JSON, they come back.
fn holds<R: Files + Input + AllocGlobal + Print>(
    rt: &R,
    file: &str,
    as_json: bool,
) -> io::Result<bool> {
    if as_json {
        file_comes_back(rt, file, LEVELS)
    } else {
        file_holds(rt, file)
    }
}
