//! Policies, sets of policies, and the store of entities. The module `expressions` exports the public names of the
//! three crates below: names, expressions and values.
//!
//! - `policies/policy`: a policy: an effect, a scope, a condition; templates and their links.
//! - `policies/policy_set`, `scope_index`: sets of policies, with the index of the policies by the entities that
//!   their scopes name and the types that they test for.
//! - `policies/scopes`, `kinds`: which entities a scope asks for: by a literal, by a slot that is linked, behind a test
//!   of the type, or by a set of entities; and for which type, by a test of the type alone.
//! - `policies/entities`: entities with attributes, tags and ancestors, and their store, whole or partial.
//! - `laws`: what holds of any store and of any map of values, since the types keep it.
//!
//! The promise: a policy's condition is `((p && a) && r) && w`, each part whole (clause `parts`; `condition_term` in
//! `specs/Policies.antt`). `try_from_iter` keeps policies whole and in their order and refuses the first duplicate id
//! (`view`, `whole`, `occupied`; `specs/PolicySets.antt`); `within_reach` answers all policies but those whose scope
//! asks for an entity, or for one of several, where none of them is among the given ones, or for a type that none of
//! these is of (`reach`; `AreWithinReach` in `specs/Scopes.antt`); and a store answers the very entity that was handed
//! in (`specs/Stores.antt`).
//!
//! A store takes the ancestors that an entity records as all there are; `cedar_hierarchy` makes stores of entities that
//! record their parents alone.
#![tactic(auto)]

pub mod expressions;
pub mod laws;
pub mod policies;
