//! The built-in rows: each has policies, a request and steps, and a line `NAME DECISION [reasons] [error ids]`.
//! Beside them are the functions that policies call in rows and in tables. `cedar_rows` prints the rows, and
//! `cedar_test_tables` tries that program too.
//!
//! - `rows`: the rows by name, each with how errors are handled and stored residuals resolved. `lines`: decides a
//!   row, in steps where it has some, and writes its line.
//! - `policies`, `conditions`, `entities`, `requests`, `stores`: what rows are made of. `steps`: the values that
//!   steps give to unknowns.
//! - `functions`: the functions that are stored. `stop`: why the program stops.
//!
//! The promise: each stored function answers what it says (clauses `computes`, `lawful`; `specs/Stored.antt`), and
//! the policies of rows have ids that are named (`specs/Ids.antt`). What the rows decide is compared with `stdout` of
//! `cedar_rows`.
#![tactic(auto)]

ghost use Rattle.std.specs.Prelude.{◌≡◌, true};
ghost use Rattle.cedar_extensions.specs.Outcomes.{ComesTo, is_lawful, abstracts};
ghost use Rattle.cedar_example_rows.specs.Stored.{even_of};

mod conditions;
mod entities;
pub mod functions;
pub mod lines;
mod policies;
mod requests;
pub mod rows;
pub mod steps;
pub mod stop;
mod stores;

use cedar_errors::evaluator::err::EvaluationError;
use cedar_extensions::{
    Extension, ExtensionFunction, ExtensionFunctionObject, ExtensionOutputValue, Extensions,
};
use cedar_layers::expressions::{CallStyle, Type, Value};
use entities::name;
use functions::even;
use lines::print_line;
use rows::{ROWS, Row, row_named};
use std::alloc::Global;
use std::io::Write;
use stop::Stop;

/// All was printed.
pub const DONE: u8 = 0;
/// The output could not be written.
pub const NOT_WRITTEN: u8 = 1;
/// The arguments were wrong.
pub const WRONG_ARGUMENTS: u8 = 2;
/// Out of memory.
pub const OUT_OF_MEMORY: u8 = 3;
/// A row's context, or a step of a row, was refused. No built-in row is.
pub const REFUSED: u8 = 4;
/// The stored functions can't be used together.
pub const WRONG_FUNCTIONS: u8 = 5;

/// Stores the function `even`, which policies call, and answers what `run` answers with it; `WRONG_FUNCTIONS` where the
/// stored functions can't be used together, and `OUT_OF_MEMORY` where memory ran out for them.
pub fn run_with_even<W: Write>(alloc: Global, arguments: &[String], out: &mut W) -> u8 {
    match run_with_stored(alloc, arguments, out) {
        Ok(status) => status,
        Err(stop) => status_of(&stop),
    }
}

// The function is stored here, and lent from here on.
fn run_with_stored<W: Write>(alloc: Global, arguments: &[String], out: &mut W) -> Result<u8, Stop> {
    let func: ExtensionFunctionObject = Box::new(
        alloc,
        move |args: &[Value]| -> Result<ExtensionOutputValue, EvaluationError>
            ensures computes { ComesTo result (even_of (abstracts args.now)) }
            ensures lawful { is_lawful result ≡ true }
        { even(alloc, args) },
    )?;
    let even = ExtensionFunction::new(
        name(alloc, "even")?,
        CallStyle::FunctionStyle,
        func,
        Some(Type::Bool),
        vec![in alloc; Type::Long]?,
    );
    let functions = vec![in alloc; even]?;
    let numbers = Extension::new(name(alloc, "numbers")?, functions, Vec::new(alloc));
    let extensions = vec![in alloc; numbers]?;
    let extensions = Extensions::specific_extensions(alloc, extensions.as_slice())?;
    Ok(run(alloc, arguments, &extensions, out))
}

/// Prints the lines of all rows, or of the row that the one argument names, and answers the exit status: `DONE`;
/// `WRONG_ARGUMENTS` after `usage: cedar_rows [NAME]` where there is more than one argument, and after
/// `no such row: NAME` where no row has that name; `REFUSED` after `refused: REASON` where a row's context or a step is
/// refused; `OUT_OF_MEMORY` if out of memory; `NOT_WRITTEN` where the writer failed.
pub fn run<W: Write>(
    alloc: Global,
    arguments: &[String],
    extensions: &Extensions<'_>,
    out: &mut W,
) -> u8 {
    match print_rows(alloc, arguments, extensions, out) {
        Ok(status) => status,
        Err(stop) => report_stop(&stop, out),
    }
}

/// The status at this stop, after a line that says why a row was refused.
pub fn report_stop<W: Write>(stop: &Stop, out: &mut W) -> u8 {
    match print_stop(stop, out) {
        Ok(()) => status_of(stop),
        Err(other) => status_of(&other),
    }
}

fn print_stop<W: Write>(stop: &Stop, out: &mut W) -> Result<(), Stop> {
    match stop {
        Stop::Refused(reason) => {
            writeln!(out, "refused: {reason}")?;
            Ok(())
        }
        Stop::Memory => Ok(()),
        Stop::Output => Ok(()),
        Stop::Functions => Ok(()),
    }
}

fn status_of(stop: &Stop) -> u8 {
    match stop {
        Stop::Memory => OUT_OF_MEMORY,
        Stop::Output => NOT_WRITTEN,
        Stop::Refused(_) => REFUSED,
        Stop::Functions => WRONG_FUNCTIONS,
    }
}

fn print_rows<W: Write>(
    alloc: Global,
    arguments: &[String],
    extensions: &Extensions<'_>,
    out: &mut W,
) -> Result<u8, Stop> {
    match arguments {
        [] => print_all(alloc, extensions, out),
        [name] => print_named(alloc, name.as_str(), extensions, out),
        [_, _, ..] => {
            writeln!(out, "usage: cedar_rows [NAME]")?;
            Ok(WRONG_ARGUMENTS)
        }
    }
}

fn print_all<W: Write>(
    alloc: Global,
    extensions: &Extensions<'_>,
    out: &mut W,
) -> Result<u8, Stop> {
    for row in ROWS {
        print_line(alloc, row, extensions, out)?;
    }
    Ok(DONE)
}

fn print_named<W: Write>(
    alloc: Global,
    name: &str,
    extensions: &Extensions<'_>,
    out: &mut W,
) -> Result<u8, Stop> {
    match row_named(name) {
        Some(row) => {
            print_line(alloc, row, extensions, out)?;
            Ok(DONE)
        }
        None => {
            writeln!(out, "no such row: {name}")?;
            Ok(WRONG_ARGUMENTS)
        }
    }
}
