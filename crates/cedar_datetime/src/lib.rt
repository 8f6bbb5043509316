//! Dates, times and durations: what Cedar's texts of them write, as numbers of milliseconds, and what is answered on
//! these numbers. This crate knows no expression.
//!
//! - `datetime`, `duration`, `digits`: `parse` of each: what a text writes, or `None`.
//! - `calendar`: days by their numbers, over the proved calendar of `jiff_core`.
//! - `operations`: what the methods answer, on milliseconds in 64 bits, or `None` beyond these.
//! - `keys`: eight bytes that tell numbers apart and are in their order.
//! - `laws`: what that means. Each function is a law, and does nothing.
//!
//! The promise: a datetime is exactly what its text writes (`datetime_of` in `specs/Datetime.antt`), and a duration
//! (`specs/Duration.antt`); days are counted without a formula (`days_are_counted`,
//! `leap_days_are_every_fourth_year`; `specs/Calendar.antt`); operations give the number, or none beyond 64 bits
//! (`specs/Operations.antt`); keys are in order and are read back (`keys_are_read_back`; `specs/Keys.antt`).
//!
//! The functions that policies call are those of `cedar_datetime_functions`.
#![tactic(auto)]

mod calendar;
pub mod datetime;
mod digits;
pub mod duration;
pub mod keys;
pub mod laws;
pub mod operations;
