//! Reads Cedar's text: expressions ([`parse_expr`]), entities ([`parse_entity_uid`]), names ([`parse_name`]) and
//! policies ([`parse_policy`], [`parse_policies`]). `cedar_text_syntax` writes what the tokens derive down as steps,
//! and here each step is taken on a stack of finished expressions.
//!
//! - `source`: a text and its tokens. `reading`, `paths`: the calls for expressions, entities and names. `builder`,
//!   `nodes`, `leaves`, `words`: expressions of steps. `calls`: whether each call is of a known function. `refusals`,
//!   `errors`, `show`: why a text can't be read. `laws`: how high what is read is, and what it calls.
//! - `policies`: the calls for policies. `policy_reading`: one policy of its steps. `annotations`: its annotations.
//!   `policy_laws`: which functions policies call that are read.
//! - A constraint that is not written is `true`, and so is the condition of a policy without clauses. What is behind
//!   `unless` is negated, and clauses are joined by `&&`. A policy with a slot is a template: `Policy::link` gives the
//!   slots their values. Policies have the ids `policy0`, `policy1` and so on, in order, templates among them.
//!
//! The promise: `parse_expr` answers the expression that the tokens derive, part by part (clause `ok`;
//! `specs/Building.antt`), no higher than the limit (`low`), and so do the calls for policies (`ok`, `low`;
//! `specs/PolicyReading.antt`). Of an error it is promised where it can be: at a token, at what stands for no value,
//! or at a call (`err`; `specs/Reading.antt`), in the text (`placed`).
#![tactic(auto)]

mod annotations;
mod builder;
mod calls;
mod errors;
pub mod laws;
mod leaves;
mod nodes;
mod paths;
pub mod policies;
pub mod policy_laws;
mod policy_reading;
mod reading;
mod refusals;
pub mod show;
mod source;
pub mod words;

pub use calls::known_calls;
pub use errors::ParseError;
pub use paths::{parse_entity_uid, parse_name};
pub use policies::{ParsedPolicies, parse_policies, parse_policy};
pub use reading::{Four, expression, four_expressions, parse_expr};
pub use source::Source;
