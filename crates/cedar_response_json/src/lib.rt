//! Partial responses as one line of JSON: all that another process needs to take a response further.
//!
//! A line is `{"errorHandling": "skip", "extensions": [..], "principal": .., "action": .., "resource": .., "context":
//! .., "policies": [{"id": "policy0", "reported": "residual", "policy": {..}}, ..], "errors": [{"policyId": ..,
//! "kind": .., "message": ..}, ..]}`. Its policies and its expressions are in Cedar's JSON of policies, so that each
//! unknown keeps its type, and an extension value is the call that it is written as.
//!
//! Whoever can write the line can change the decision: a forbid that is left out of it is missed by nobody. So sign it.
//!
//! - `whole`: the call. `requests`: what the variables of the request answer. `policies`: what is reported of each
//!   policy. `errors`: what is told of the errors. `extensions`: their names. `objects`: objects of three members.
//!
//! The promise: the call states the very JSON, member by member in their order (`response_json` in
//! `specs/Responses.antt`; clause `written`). Of an error its policy, its kind and what it says are written, and of what
//! it says it is promised only that it is a text, but where a function of an extension failed: there it is that
//! function's own message (`Tells` in `specs/Errors.antt`). Places in policies are not written.
#![tactic(auto)]

mod errors;
mod extensions;
mod objects;
mod policies;
mod requests;
mod whole;

pub use whole::whole_response_to_json;
