//! The functions of Cedar's extension `datetime`, on values: dates, times and durations. Each takes values and
//! answers a value or an error; `cedar_standard_functions` finds them by name.
//!
//! - `constructors`: `datetime` and `duration`, which read a text.
//! - `operations`: `offset`, `duration_since`, `to_date` and `to_time`, which make values of others.
//! - `amounts`: `to_milliseconds` to `to_days`, which count the units of a duration.
//! - `numbers`: the numbers of keys, and computed numbers as values.
//! - `laws`: what holds of all of them. Each function is a law, and does nothing.
//!
//! The promise: each function answers what its definition gives to abstract values, or the error with its fields, the
//! first argument first (clause `answers`), at its place (`value_place`, `error_place`). The definitions stand in
//! `specs/Constructors.antt`, `specs/Operations.antt` and `specs/Amounts.antt`, over the numbers and keys of
//! `cedar_datetime`.
//!
//! By the laws (`specs/Laws.antt`) all are computed (`are_computed`), ask for no unknown (`ask_nothing`) and are
//! faithful (`are_faithful`).
#![tactic(auto)]

mod amounts;
mod constructors;
pub mod laws;
mod numbers;
mod operations;

pub use amounts::{to_days, to_hours, to_milliseconds, to_minutes, to_seconds};
pub use constructors::{datetime, duration};
pub use operations::{duration_since, offset, to_date, to_time};
