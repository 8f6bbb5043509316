//! What policies answer to a request, and what two answers differ in.
//!
//! - `answers`: `Answer`, a decision with the names of the policies that determined it and the texts of the errors.
//!   `names`: `answer_in`, that of a response; how policies are called, and what errors say.
//! - `lists`: the texts of one list that another doesn't have.
//! - `differences`: what differs between two answers to one request, as a JSON value.
//! - `comparisons`: `compare`, that on a line, and `Comparisons`, the lines of many requests.
//!
//! The promise: two answers differ exactly where the decisions do, or one has a reason or an error that the other
//! doesn't have; then a line is printed which says both decisions, and of reasons and errors those that one answer has
//! alone (`compare`, over `compared` of `specs/Compared.antt` and `difference_json` of `specs/Differences.antt`). The
//! order in which reasons and errors stand, and how often each does, make no difference.
//!
//! What compares decisions and lists is public too, for crates that hold answers against something else: `is_same_decision`,
//! `have_same`, `only_in`, and as JSON `count_to_json` and `pair_to_json`.
#![tactic(auto)]

mod answers;
mod comparisons;
mod differences;
mod lists;
mod names;

pub use answers::Answer;
pub use comparisons::{Comparison, Comparisons, compare};
pub use differences::{count_to_json, is_same_decision, pair_to_json};
pub use lists::{have_same, only_in};
pub use names::answer_in;
