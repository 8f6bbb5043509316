//! Worked examples: chains over stores that grow. A partial store leaves out an entity whose parent is not there yet,
//! and a step goes to a larger store, which has both. A world completes each of them, so what the headline promises
//! of chains says something of stores that change. There is no code.
//!
//! - `examples`: the function `stores_grow`, with an empty body.
//! - `specs/PartialStores.antt`: the entities, the stores, the world, the policy and the chain.
//!
//! The promise, by the clauses of `stores_grow`: a chain that begins with the partial store is completed
//! (`partial_completed`), so is one that goes on to the larger store (`larger_completed`), and no world agrees with
//! the whole store and with one that has the entity without all its ancestors (`orphan_refuted`).
//!
//! The definition of a chain that is completed is `cedar_model`'s; such stores are what `closed_partially` of
//! `cedar_hierarchy` makes.
#![tactic(auto)]

pub mod examples;
