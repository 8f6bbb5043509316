//! What the standard extensions share on values: keys and texts of arguments, values as they are written, and errors.
//!
//! - `arguments`: the first text, and the first and the second key, of a function's arguments, or the error that is
//!   due.
//! - `written`: a value that is written as the call of its constructor (`construct_value`), or as an offset from 1970
//!   (`offset_from_epoch`).
//! - `errors`: the error of a wrong type, and that of a function that failed.
//! - `laws`: such values are faithful. Each function is a law, and does nothing.
//!
//! The promise: arguments are read with exact errors (clauses `ok`, `none`, `failure`, `place`;
//! `specs/Arguments.antt`). A value that is written as a call on faithful arguments, which never asks and means the
//! value, is faithful (`calls_are_faithful`; `specs/Faithful.antt`); so are constructed values and datetimes from
//! 1970 on (`written_values_are_faithful`; `specs/Written.antt`), and their expressions have few levels
//! (`written_values_are_low`). What a function answers to values and what it computes have one form
//! (`specs/Functions.antt`, with laws in `specs/FunctionLaws.antt`).
#![tactic(auto)]

mod arguments;
mod errors;
pub mod laws;
mod written;

pub use arguments::{first_key, first_text, key_in, second_key};
pub use errors::{fail_with_message, type_error};
pub use written::{construct_value, offset_from_epoch};
