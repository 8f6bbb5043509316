//! The evaluator: what an expression evaluates to, and what a policy decides, for one request over one store.
//!
//! - `evaluator`: `Evaluator`, and its public calls `interpret`, `partial_interpret`, `evaluate` and
//!   `partial_evaluate`.
//! - `conditions`: what a policy's condition decides. A scope whose parts are booleans or comparisons of known
//!   entities is decided at once, by reference; whichever isn't goes to `joining`, which evaluates scope and clause
//!   part by part and joins them. Below six levels the condition is made and goes through the loop of
//!   `cedar_interpreter`.
//! - `request`: the names of `cedar_requests`, as users name them.
//!
//! The promise: `partial_interpret` has each promise as a clause (`rules`, `limit`, `allowed`, `known`, `sound`,
//! `deep_enough`, `place`, `unknown`, `elements`; `specs/Evaluations.antt`), and `partial_evaluate` and `evaluate`
//! decide by such an answer to the condition (`decides`; `specs/Decisions.antt`). What is decided at once is what the
//! rules answer: `specs/Direct.antt`.
#![tactic(auto)]

mod conditions;
pub mod evaluator;
mod joining;
pub mod request;
