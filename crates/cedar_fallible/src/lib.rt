//! What is made of several results, each of which may be out of memory: for any types, so that a value which can't be
//! handed on is dropped here, by a function that knows none of its parts and is proved once. This crate knows no
//! language.
//!
//! - `pairs`: all that several results answer, or the first refusal: `pair_of`, `all_four`, and `beside` for a value
//!   that is held already.
//! - `places`: a place for one value more: at the end of a list (`add_last`), or behind an `Rc` (`in_rc`).
//!
//! The promise: each answers what it was handed, part by part (clauses `first` to `fourth`, `held`, `answer`, `ok`);
//! a refusal is one that was handed in (`refused`), or is out of memory. The clauses need no definition of their own,
//! so there is no `specs/`.
//!
//! Whoever makes a value of two results that each own much calls `pair_of` instead of two nested `match`: the checker
//! then drops each of them in one place.
#![tactic(auto)]

mod pairs;
mod places;

pub use pairs::{all_four, beside, pair_of};
pub use places::{add_last, in_rc};
