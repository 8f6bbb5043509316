//! Answers the rows of the tables in the files that are named. Prints each row that has another answer than the one
//! that is wanted, and a line `FILE: HELD of ROWS rows hold` a file. `docs/TABLES.md` says what a row has, and from
//! where its answer comes.
//!
//! - `cases`: tables. A file has cases; a case has facts and rows. `questions`: what is answered to a row under its
//!   question.
//! - `notation` (and below it): reads what a line says: expressions, values, policies, errors, and the setting of
//!   rows.
//! - `answers` (and below it): rows that are evaluated in a setting. `judged`, `stepped`, `steps`: policies, what is
//!   known of them, and steps.
//! - `written` (and below it): rows of what is written in them, without policy or store. `levels`: what fewer and
//!   more levels change.
//! - `functions`: the functions that are stored for a case. `program`: what `cedar_rows` prints, and its statuses.
//!
//! The promise: each stored function answers what it says (clauses `computes`, `lawful`), and else the checker's
//! alone: the program stays within its memory and comes to an end. How many rows hold is compared with `stdout`.
#![tactic(auto)]

mod answers;
mod cases;
mod functions;
mod judged;
mod levels;
mod notation;
mod program;
mod questions;
mod stepped;
mod steps;
mod written;

use crate::notation::unanswered::Unanswered;
use cases::file_holds;
use cedar_round_trips::table_comes_back;
use std::env;
use std::env::Env;
use std::process::ExitCode;
use std::rt::Files;

// More levels than any policy of a table has.
const LEVELS: usize = 4000;

/// All rows have the answer that is wanted.
pub const DONE: u8 = 0;
/// A row has another one.
pub const ANOTHER_ANSWER: u8 = 1;
/// A file is no table.
pub const UNREADABLE: u8 = 2;
/// Out of memory.
pub const OUT_OF_MEMORY: u8 = 3;
/// A file could not be read, or the output not written.
pub const INPUT_OR_OUTPUT: u8 = 4;

fn main(rt: HostRuntime) -> ExitCode {
    let status = match files_hold(&rt) {
        Ok(true) => DONE,
        Ok(false) => ANOTHER_ANSWER,
        Err(Unanswered::Unreadable(_)) => UNREADABLE,
        Err(Unanswered::Memory) => OUT_OF_MEMORY,
        Err(Unanswered::InputOrOutput) => INPUT_OR_OUTPUT,
    };
    ExitCode::from(status)
}

// Whether all rows of the files that the arguments name hold.
fn files_hold<R: Env + Files + AllocGlobal + Print>(rt: &R) -> Result<bool, Unanswered> {
    let mut files = env::args(rt)?;
    drop(files.next());
    let mut all_hold = true;
    let mut as_json = false;
    'files: for file in files {
        if file.as_str() == "--json" {
            as_json = true;
        } else if !holds(rt, file.as_str(), as_json)? {
            all_hold = false;
        }
    }
    Ok(all_hold)
}

// Whether the rows of the file hold; or where they go to JSON, its policies come back.
fn holds<R: Files + AllocGlobal + Print>(
    rt: &R,
    file: &str,
    as_json: bool,
) -> Result<bool, Unanswered> {
    if as_json {
        Ok(table_comes_back(rt, file, LEVELS)?)
    } else {
        file_holds(rt, file)
    }
}
