//! Reads the texts in the rows of the tables that are named, and compares what they are read as with what is wanted.
//! Prints each row that is read otherwise, and a line `FILE: HELD of ROWS rows hold` a file. Behind the word
//! `--written` each text is read, written in Cedar's own syntax, and what is written is to be read as the text was;
//! behind `--json` the policies of the rows go to JSON and back, and to text and JSON.
//!
//! - `rows`, `signs`, `questions`, `answer`: tables, texts in rows, what is asked of a text, and what is answered.
//! - `trees`, `places`, `policies`: expressions as trees, where their nodes are, and policies.
//! - `json`: what is asked of texts in JSON; `overlaid`: stores with what a request brings. `known`: what is read where only the function `unknown` is known.
//!   `told`: what an error says without the text.
//! - `returned`: policies of rows that go to JSON and back. `written`: texts that are read, written and asked again. `samples`, `built`: policies that are made in code, as
//!   text.
//!
//! The promise is the checker's alone: the program stays within its memory and comes to an end. How many rows hold is
//! compared with `stdout`; `docs/TABLES.md` says what a row has.
#![tactic(auto)]

mod answer;
mod built;
mod json;
mod known;
mod overlaid;
mod places;
mod policies;
mod questions;
mod returned;
mod rows;
mod samples;
mod signs;
mod told;
mod trees;
mod written;

use answer::Unanswered;
use returned::table_returns;
use rows::file_holds;
use std::env;
use std::env::Env;
use std::process::ExitCode;
use std::rt::Files;

/// All rows are read as is wanted.
pub const DONE: u8 = 0;
/// A row is read otherwise.
pub const ANOTHER_ANSWER: u8 = 1;
/// A file is no table.
pub const UNREADABLE: u8 = 2;
/// Out of memory.
pub const OUT_OF_MEMORY: u8 = 3;
/// A file could not be read, or the output not written.
pub const INPUT_OR_OUTPUT: u8 = 4;

fn main(rt: HostRuntime) -> ExitCode {
    let status = match files_hold(&rt) {
        Ok(true) => DONE,
        Ok(false) => ANOTHER_ANSWER,
        Err(Unanswered::Unreadable(_)) => UNREADABLE,
        Err(Unanswered::Memory) => OUT_OF_MEMORY,
        Err(Unanswered::InputOrOutput) => INPUT_OR_OUTPUT,
    };
    ExitCode::from(status)
}

// Whether all rows of the files that the arguments name hold.
fn files_hold<R: Env + Files + AllocGlobal + Print>(rt: &R) -> Result<bool, Unanswered> {
    let mut files = env::args(rt)?;
    drop(files.next());
    let mut all_hold = true;
    let mut way = Way::Read;
    'files: for file in files {
        match file.as_str() {
            "--written" => way = Way::Written,
            "--json" => way = Way::AsJson,
            name => if !holds(rt, name, way)? {
                all_hold = false;
            },
        }
    }
    Ok(all_hold)
}

// What is done with the texts of a table.
#[derive(Clone, Copy)]
enum Way {
    // They are read.
    Read,
    // They are written, and read again.
    Written,
    // Their policies go to JSON and back.
    AsJson,
}

fn holds<R: Files + AllocGlobal + Print>(rt: &R, file: &str, way: Way) -> Result<bool, Unanswered> {
    match way {
        Way::Read => file_holds(rt, file, false),
        Way::Written => file_holds(rt, file, true),
        Way::AsJson => table_returns(rt, file),
    }
}
