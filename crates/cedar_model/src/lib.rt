//! The definitions that the contracts of the other crates cite, and the laws that follow from them alone. There is no
//! code: each function is a law, with an empty body, and its contract is the statement. `docs/MODEL.md` reads the
//! definitions aloud, in order, and `docs/LAWS.md` lists the laws.
//!
//! - `specs/Terms`, `Values`, `Keys`, `Sets`, `World`, `Settings`: expressions, values and what an evaluator is
//!   given.
//! - `specs/Meaning`, `Operators`, `Outcomes`, `Failures`: what an expression means in a world.
//! - `specs/Rules`, `Restricted`, `Agreement`: what may be answered where something is unknown, and which worlds
//!   complete it.
//! - `specs/Policies`, `Reports`, `Responses`, `Chains`, `Refusals`, `Headline`: policies, responses, steps and what
//!   stands.
//! - `specs/laws`, `Depth`, `Progress`, `Authorizations`: the statements of laws; `specs/examples`: worked examples, in
//!   one setting, and instances; `specs/lemmas`: what proofs share.
//! - `src/meaning`, `levels`, `depth`, `resolutions`, `restricted`, `values`, `kinds`, `printing`: laws on
//!   expressions and values.
//! - `src/policies`, `authorizations`, `responses`, `reports`, `chains`, `progress`: laws on policies, runs and
//!   steps.
//! - `src/examples`, `tables`, `instances`, `chain_examples`: worked examples, and that the laws' premises can be
//!   met.
//!
//! The headline is the clause of `chains_stand`, in `src/chains.rt`, with its definitions in `specs/Headline.antt`.
#![tactic(auto)]

pub mod authorizations;
pub mod chain_examples;
pub mod chains;
pub mod depth;
pub mod examples;
pub mod instances;
pub mod kinds;
pub mod levels;
pub mod meaning;
pub mod policies;
pub mod printing;
pub mod progress;
pub mod reports;
pub mod resolutions;
pub mod responses;
pub mod restricted;
pub mod tables;
pub mod values;
