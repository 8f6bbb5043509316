//! Why a policy came to what it did, on a known request: the parts of its condition that decide.
//!
//! - `policies`: `explain_policy`, what the policy came to and the parts that decide it.
//! - `requests`: `explain_request`, the same of each policy of a set (`ExplainedPolicy`).
//! - `lacks`: what keeps the permits of a denied request from applying (`lacking`, `Lack`). Below it: `assumed`, a
//!   condition in which a part is taken to be true or false.
//! - `explanations`: `Explanation`. `parts`: `Part`, an expression and what the evaluator answered for it.
//! - `outcomes`: `PolicyOutcome`, `PartOutcome` and `ErrorKind`.
//! - `walking`: the way through `&&`, `||`, `!` and `if` to the parts, which the evaluator evaluates.
//!
//! The promise: each part that is named is no `&&`, `||`, `!` or `if`, and its outcome is what the evaluator answers
//! for it (clauses `parts`, `reached`). In every world in which the parts come out so, the policy comes out as reported
//! (`decides`), and none of them can be left out (`needed`; both in `specs/Explained.antt`, over the places of
//! `specs/Places.antt`). Of a request each policy is explained, in the order of the set (`policies`), and each so.
//! A permit that lacks one part would apply if that part alone came out otherwise (`applies` of `lacking`, over
//! `specs/Lacking.antt`).
#![tactic(auto)]

mod assumed;
mod explanations;
mod lacks;
mod outcomes;
mod parts;
mod policies;
mod requests;
mod walking;

pub use explanations::Explanation;
pub use lacks::{Lack, lacking};
pub use outcomes::{ErrorKind, PartOutcome, PolicyOutcome};
pub use parts::Part;
pub use policies::explain_policy;
pub use requests::{ExplainedPolicy, explain_request};
