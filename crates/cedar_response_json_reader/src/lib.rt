//! Partial responses read from the JSON that `cedar_response_json` writes, to be taken further in another process.
//!
//! Whoever can write the JSON can change the decision: a forbid that is left out of it is missed by nobody. So read only
//! what is signed by someone who is trusted.
//!
//! - `whole`: the calls. `requests`: the entities that stand for variables. `contexts`: the context. `extensions`: their
//!   names. `reports`, `rows`: what is reported of a policy, and the policies. `ids`: no two have one id. `told`: what is
//!   told of errors. `sheets`: rows and errors on a sheet. `shapes`: members and texts. `errors`: why nothing was read.
//!
//! The promise: what is read is what the JSON says by a definition (`response_said` in `specs/Responses.antt`; clause
//! `said`), or the refusal that is due first, with the way to the part (clause `refused`). The context is what its
//! expression is evaluated to. An error comes back as its kind and what it said, as the error of a function of an
//! extension of that name; the recursion limit comes back as itself, so that no step is taken on it. No place comes back.
#![tactic(auto)]

mod contexts;
mod errors;
mod extensions;
mod ids;
mod reports;
mod requests;
mod rows;
mod shapes;
mod sheets;
mod told;
mod whole;

pub use errors::{ResponseJsonError, ResponseRefusal};
pub use whole::{whole_response_from_json, whole_response_from_json_str};
