//! Tests of policies, read from JSON, and what they fail in.
//!
//! A test is an object of a `name`, a `request` and a `decision` (`"allow"` or `"deny"`), and perhaps of `entities`, of a
//! `reason`, an array of names of policies, and of `num_errors`, how many policies err. It has no other member.
//!
//! - `values`: `parse_tests`, the JSON value of a text.
//! - `reading`: `PolicyTest`, a test. `arrays`: `tests_in`, those of which a value is an array. `faults`: `fault_in`, where a
//!   value is no array of tests, and why.
//! - `failures`: `failure_to_json`, what a test fails in, where an answer is found; `refusal_to_json`, why one can't be
//!   asked; `counts_to_json`, how many pass and fail.
//!
//! The promise: a value is read as the tests that a definition says, or as none (`tests_in`, over `specs/Said.antt`; what
//! `fault_in` says is only tested). A test passes exactly where decision, reasons and the count of the errors are those
//! that it expects (`passes` of `specs/Failures.antt`): else it is told which it is, and each of the three that differs
//! (`failure` there).
#![tactic(auto)]

mod arrays;
mod failures;
mod faults;
mod reading;
mod values;

pub use arrays::tests_in;
pub use failures::{counts_to_json, failure_to_json, refusal_to_json};
pub use faults::fault_in;
pub use reading::PolicyTest;
pub use values::{TestsError, parse_tests};
