//! The functions of Cedar's extension `ipaddr`, on values. Each takes values and answers a value or an error;
//! `cedar_standard_functions` finds them by name.
//!
//! - `constructor`: `ip`, which makes a range of addresses of a text.
//! - `questions`: `is_ipv4`, `is_ipv6`, `is_loopback`, `is_multicast` and `is_in_range`.
//! - `laws`: what holds of all of them. Each function is a law, and does nothing.
//!
//! The promise: each function answers what its definition gives to abstract values, or the error with its fields, the
//! first argument first (clause `answers`), at its place (`value_place`, `error_place`). The definitions stand in
//! `specs/Ranges.antt` and `specs/Questions.antt`, over the keys of `cedar_ip`.
//!
//! By the laws (`specs/Laws.antt`) all are computed (`are_computed`), ask for no unknown (`ask_nothing`) and are
//! faithful (`are_faithful`).
#![tactic(auto)]

mod constructor;
pub mod laws;
mod questions;

pub use constructor::ip;
pub use questions::{is_in_range, is_ipv4, is_ipv6, is_loopback, is_multicast};
