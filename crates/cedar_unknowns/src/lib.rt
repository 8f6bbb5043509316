//! Which unknowns are left: in an expression, in a request and in a partial response.
//!
//! A partial response says what is known; what it leaves open hangs on unknowns. `response.unknowns(alloc)?` lists
//! those that a next step can be given values for, and `response.unknown_entities(alloc)?` the entities that the
//! store lacked. Over a store that has these, `response.entity_values(alloc)?` are values for that step: each entity
//! itself.
//!
//! - `unknowns`: the calls. `noting`, `requests`, `responses`: the unknowns of an expression, a request, the
//!   residuals of policies.
//! - `entities`, `values`: the unknowns that stand for entities, and these entities as their values. `laws`: what is
//!   listed.
//!
//! The promise: each is listed once, in the order in which it is there first (`each_once`, `occurrences` in
//! `specs/Occurrences.antt`; `unknowns_are_listed_once`); `unknown_entities` names those that a store lacked
//! (`entities_asked` in `specs/Entities.antt`); a world in which the unknown of each of them is that entity completes
//! `entity_values` (clause `completed`; `specs/Themselves.antt`). A step by a map that names all that is listed
//! leaves no residual, over a concrete store of values, where no function answers an unknown (`listed_steps_finish`,
//! `listed_names_are_all`; `specs/Finishing.antt`, `specs/Naming.antt`).
#![tactic(auto)]

mod entities;
pub mod laws;
mod noting;
mod requests;
mod responses;
mod unknowns;
mod values;

pub use unknowns::Unknowns;
