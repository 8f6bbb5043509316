//! Decides the built-in rows, or the one that is named, and prints a line for each: `NAME DECISION [reasons] [error
//! ids]`.
//!
//! - `main`: hands its arguments and standard output to `run_with_even` of `cedar_example_rows`, which decides the
//!   rows and writes their lines, and ends with the status that it answers.
//! - `arguments`: the words behind the program's name; one that is not UTF-8 counts as the empty text.
//!
//! The rows, their policies and the functions that these call are all in `cedar_example_rows`, so that
//! `cedar_test_tables` can run the same over a writer of its own, and try the statuses too.
//!
//! The promise is the checker's alone: the program stays within its memory and comes to an end. What it prints is
//! compared with `stdout`.
#![tactic(auto)]

mod arguments;

use arguments::arguments;
use cedar_example_rows::{OUT_OF_MEMORY, run_with_even};
use std::io;
use std::process::ExitCode;

fn main(rt: HostRuntime) -> ExitCode {
    let status = match arguments(&rt, rt.alloc()) {
        Ok(arguments) => run_with_even(rt.alloc(), &arguments, &mut io::writer(&rt)),
        Err(_) => OUT_OF_MEMORY,
    };
    ExitCode::from(status)
}
