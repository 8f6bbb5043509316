//! Cedar's decimals: what a text writes, in ten-thousandths, and keys by which decimals are told apart and compared.
//! This crate knows no expression.
//!
//! - `parsing`: `parse` reads a text: a number of ten-thousandths in 64 bits, or `None`.
//! - `keys`: `key` makes eight bytes of the number; `less_than` and its kin compare two keys.
//! - `laws`: what that means of texts and numbers. Each function is a law, and does nothing.
//!
//! The promise: `parse` answers the number of each text of the grammar and `None` of each other
//! (`parsing_is_of_the_grammar`; the grammar is `IsDecimal` in `specs/Grammar.antt`, the number `decimal_of` in
//! `specs/Decimals.antt`). Keys tell numbers apart and are in their order (`keys_are_in_the_order_of_numbers`;
//! `specs/Keys.antt`), so comparisons of keys are of numbers (`comparisons_are_of_numbers`).
//!
//! The functions that policies call are those of `cedar_decimal_functions`.
#![tactic(auto)]

mod keys;
pub mod laws;
mod parsing;

pub use keys::{greater_than, greater_than_or_equal, key, less_than, less_than_or_equal};
pub use parsing::parse;
