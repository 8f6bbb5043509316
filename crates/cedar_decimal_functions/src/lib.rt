//! The functions of Cedar's extension `decimal`, on values. Each takes values and answers a value or an error;
//! `cedar_standard_functions` finds them by name.
//!
//! - `constructor`: `decimal`, which makes a decimal of a text.
//! - `comparisons`: `less_than`, `less_than_or_equal`, `greater_than`, `greater_than_or_equal`.
//! - `laws`: what holds of all of them. Each function is a law, and does nothing.
//!
//! The promise: each function answers what its definition gives to abstract values, or the error with its fields, the
//! first argument first (clause `answers`), at its place (`value_place`, `error_place`). The definitions stand in
//! `specs/Decimals.antt` and `specs/Comparisons.antt`, over the numbers and keys of `cedar_decimal`.
//!
//! By the laws (`specs/Laws.antt`) all are computed (`are_computed`), ask for no unknown (`ask_nothing`) and are
//! faithful (`are_faithful`).
#![tactic(auto)]

mod comparisons;
mod constructor;
pub mod laws;

pub use comparisons::{greater_than, greater_than_or_equal, less_than, less_than_or_equal};
pub use constructor::decimal;
