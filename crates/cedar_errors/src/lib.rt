//! The errors of evaluation, a struct each, and why a function that a caller stores was not found.
//!
//! - `evaluator/err`: `EvaluationError`, its location, and which errors end a whole evaluation (`is_final`): the
//!   recursion limit, and out of memory.
//! - `evaluator/err/evaluation_errors`: the struct of each error, with its fields.
//! - `extensions`: `ExtensionFunctionLookupError`.
//!
//! The promise: an error is seen as a failure of the model, its fields without places (`failure_of`, in
//! `specs/Failures.antt`), and keeps its kind and fields through each conversion, out of memory too. `is_final` says
//! which errors end the whole (clauses `variant`, `kind`; `specs/Finals.antt`), and `with_enclosing_loc` keeps a
//! location that is there (`whole`; `specs/Errors.antt`). A `TypeError` states the bytes that it prints
//! (`specs/Texts.antt`, `specs/TypeTexts.antt`); the texts of the other errors are tested by tables.
#![tactic(auto)]

pub mod evaluator;
pub mod extensions;
