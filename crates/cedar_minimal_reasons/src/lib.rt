//! What a decision rests on: facts of a request and a store which alone give it, none of which can be left out.
//!
//! - `cases`: what is decided (`Case`), and what its policies decide where some facts alone are kept. `limits`: whether
//!   the recursion limit is recorded.
//! - `reasons`: `minimal_reason` and what it answers (`Reason`). Below it: `growing`, the facts that a decision asks for;
//!   `thinning`, which of these can be left out.
//!
//! The promise: by the facts of a reason the authorizer gives the decision (clause `given`), so that it is the decision in
//! every completion of them (`decides`); and by these without any one of them it gives none, where the reason is said to
//! be minimal (`minimal`). Where the authorizer gives no decision by all facts together there is no reason
//! (`undecided`). What is kept where some facts are left out is what `cedar_reasons` says.
#![tactic(auto)]

mod cases;
mod growing;
mod limits;
mod reasons;
mod thinning;

pub use cases::Case;
pub use reasons::Reason;
