//! Cedar's IP addresses and ranges of them: what a text writes, and the keys by which ranges are told apart and
//! asked. This crate knows no expression.
//!
//! - `parsing`, `addresses`, `prefixes`: what a text writes: the octets of an address, and the length of a prefix.
//! - `keys`: what ranges are asked, by their keys.
//! - `laws`: what the answers mean of texts, ranges and addresses. Each function is a law, and does nothing.
//!
//! The promise: `key` answers each text of the grammar and no other (`reading_is_of_the_grammar`; `IsRangeText` in
//! `specs/Grammar.antt`, the range in `specs/Texts.antt` and `specs/Ranges.antt`); ranges with one key are one
//! (`keys_tell_ranges_apart`); `is_in_range` holds exactly where each address of one range is in the other
//! (`in_range_is_of_each_address`; `IsIn` in `specs/Addresses.antt`), and the same of loopback and multicast
//! (`kinds_are_of_each_address`).
//!
//! The functions that policies call are those of `cedar_ip_functions`.
#![tactic(auto)]

mod addresses;
mod keys;
pub mod laws;
mod parsing;
mod prefixes;

pub use keys::{is_in_range, is_ipv4, is_ipv6, is_loopback, is_multicast};
pub use parsing::{RangeKey, key};
