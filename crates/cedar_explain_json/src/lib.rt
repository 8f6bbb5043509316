//! Why the policies of a request came to what they did, as a JSON value.
//!
//! An explanation is `{"lacks": [..], "policies": [..]}`. A policy is `{"policyId": "policy0", "name": "owners",
//! "effect": "permit", "line": 1, "column": 1, "outcome": "unsatisfied", "parts": [..]}`, a part `{"line": 2, "column": 8,
//! "text": "resource.public", "outcome": "false", "operands": [{"text": "resource", "value": "Photo::\"a\""}]}`, and what a
//! permit lacks `{"policyId": "policy0", "line": 2, "column": 8, "text": "resource.public", "appliesIf": true}`.
//!
//! - `requests`: `explanation_to_json`, the explanation of all policies on a request.
//! - `lacks`, `policies`, `parts`: what permits lack, a policy, and a part that decides it. `operands`: of what a part is
//!   computed, and what that came to.
//! - `words`: outcomes and kinds of errors. `members`: places and texts in JSON.
//!
//! The promise: there is an explanation of the request, as `cedar_explain_printer` promises it of lines, and the value is
//! the one that the definition has of it (`IsExplanationJson`, in `specs/Explanations.antt`, over `specs/Documents.antt`
//! and the words of `specs/Words.antt`). Each operand has what the evaluator answers for it by itself.
#![tactic(auto)]

mod lacks;
mod members;
mod operands;
mod parts;
mod policies;
mod requests;
mod words;

pub use requests::explanation_to_json;
