//! Answers the rows of the tables that are named, and compares with what is wanted: what decides requests, which
//! policies can't be meant, plans as SQL, and policies as JSON and read of it. Prints each row that is answered otherwise, and a line
//! `FILE: HELD of ROWS rows hold` a file.
//!
//! - `rows`, `setting`, `questions`, `answer`: tables, the facts that rows share, what is asked of a text, and what is
//!   answered.
//! - `given`: policies, stores and requests of the facts.
//! - `explained`: what each policy came to, the parts that decide it, and what a permit lacks. `reasons`: the facts on
//!   which a decision rests. `never`: what a
//!   policy's text shows: that it never applies, errs wherever its scope holds, or tests an attribute after it read it.
//!   `same`: of which policies one before says the same.
//! - `plans`: what is left of policies, as SQL; `columns`: the tables that it is asked of.
//! - `as_json`: expressions, policies, templates and links as JSON; `links`: the links. `from_json`: what JSON of
//!   policies says, as text.
//!
//! The promise is the checker's alone: the program stays within its memory and comes to an end. How many rows hold is
//! compared with `stdout`; `docs/TABLES.md` says what a row has.
#![tactic(auto)]

mod answer;
mod as_json;
mod columns;
mod explained;
mod from_json;
mod given;
mod links;
mod never;
mod plans;
mod questions;
mod reasons;
mod rows;
mod same;
mod setting;

use answer::Unanswered;
use cedar_round_trips::table_comes_back;
use rows::file_holds;
use std::env;
use std::env::Env;
use std::process::ExitCode;
use std::rt::Files;

// More levels than any policy of a table has.
const LEVELS: usize = 4000;

/// All rows are answered as is wanted.
pub const DONE: u8 = 0;
/// A row is answered otherwise.
pub const ANOTHER_ANSWER: u8 = 1;
/// A file is no table.
pub const UNREADABLE: u8 = 2;
/// Out of memory.
pub const OUT_OF_MEMORY: u8 = 3;
/// A file could not be read, or the output not written.
pub const INPUT_OR_OUTPUT: u8 = 4;

fn main(rt: HostRuntime) -> ExitCode {
    let status = match files_hold(&rt) {
        Ok(true) => DONE,
        Ok(false) => ANOTHER_ANSWER,
        Err(Unanswered::Unreadable(_)) => UNREADABLE,
        Err(Unanswered::Memory) => OUT_OF_MEMORY,
        Err(Unanswered::InputOrOutput) => INPUT_OR_OUTPUT,
    };
    ExitCode::from(status)
}

// Whether all rows of the files that the arguments name hold.
fn files_hold<R: Env + Files + AllocGlobal + Print>(rt: &R) -> Result<bool, Unanswered> {
    let mut files = env::args(rt)?;
    drop(files.next());
    let mut all_hold = true;
    let mut as_json = false;
    'files: for file in files {
        if file.as_str() == "--json" {
            as_json = true;
        } else if !holds(rt, file.as_str(), as_json)? {
            all_hold = false;
        }
    }
    Ok(all_hold)
}

// Whether the rows of the file hold; or where they go to JSON, its policies come back.
fn holds<R: Files + AllocGlobal + Print>(
    rt: &R,
    file: &str,
    as_json: bool,
) -> Result<bool, Unanswered> {
    if as_json {
        Ok(table_comes_back(rt, file, LEVELS)?)
    } else {
        file_holds(rt, file)
    }
}
