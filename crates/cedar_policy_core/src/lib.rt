//! One crate for callers: all that users name, under the module names of the Rust crate `cedar-policy-core`.
//!
//! It has no function of its own. What is here is what the crates below call the same, with their contracts; the
//! definitions that these cite are passed on in `specs/`: those of `cedar_model` as `specs.Model`, and how what a
//! module exports is seen under the module's name, as `specs.Ast`.
//!
//! - `ast`: names, expressions, values, policies, requests, restricted expressions, extension functions, and which
//!   unknowns are left.
//! - `builder`, `parser`, `writing`: policies and expressions in code, of text, and as text.
//! - `entities`: stores of entities, their JSON, and how JSON is written. `extensions`: the standard functions and
//!   stored ones.
//! - `evaluator`: the evaluator, the operators that are called by themselves, the errors of evaluation.
//! - `authorizer`: the authorizer, what it answers, the steps, and why it does not answer.
//! - `filters`: what is left of policies made simpler, and as conditions on rows.
//! - `specs/Lemmas.antt`, `specs/Types.antt`: what follows of the definitions, and the types, for proofs of callers.
//!
//! `docs/CONTRACTS.md` has a line for each public call, with its clauses; `docs/CALLING.md` is the guide.
#![tactic(auto)]

pub mod ast;
pub mod authorizer;
pub mod builder;
pub mod entities;
pub mod evaluator;
pub mod extensions;
pub mod filters;
pub mod parser;
pub mod writing;
