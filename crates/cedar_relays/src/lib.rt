//! Decisions in stages that one machine writes as a line of JSON and another takes further.
//!
//! Whoever can write the line can change the decision: a forbid that is left out of it is missed by nobody. So a service
//! signs its lines, and reads only what is signed.
//!
//! - `lines`: the calls, which write a line. `laws`: what was read is what was written. A line is read by
//!   `whole_response_from_json_str` of `cedar_response_json_reader`, and taken further by `Resumed::resume` of
//!   `cedar_staged`.
//!
//! The promise: what is written is the whole response (`written`). What was written of a response whose parts read back is
//! read as what says the same (the law `what_is_read_comes_back`; `specs/Travels.antt`), so that
//! `relayed_steps_have_the_headline` of `cedar_staged` has the headline of the steps on all machines. The history is not in
//! the line: not the steps before, nor places.
#![tactic(auto)]

pub mod laws;
mod lines;

pub use lines::{resumed_to_json, staged_to_json};
