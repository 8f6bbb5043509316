//! What a request brings beside a store that is kept: attributes of stored entities, and whole entities.
//!
//! The kept store stays as it is, and its entities are shared: what a request costs goes by what it brings.
//!
//! - `attributes`: attributes beside those of stored entities; `copies`: the parts of an entity, and more beside them.
//! - `base`: a store that entities are added to, and what is asked of all of it, once; `entities`: the store with
//!   entities that a request brings, closed again; `checks`: which entities may be added; `uids`: sets of uids.
//! - `error`, `entities_error`: why nothing was laid over the store.
//!
//! The promise: the answer is the store of both, by a definition on plain data (clause `store` of `with_attributes`;
//! `specs/Overlaid.antt`), or the store with these entities, each with its ancestors, and nothing else changed (clauses
//! `entities` and `ancestors` of `with_entities`; `specs/Added.antt`). What the store has is never overwritten in
//! silence: a refusal names the entity and the attribute or the other entity (`refused`), and there is none where
//! nothing is refused (`accepted`).
#![tactic(auto)]

mod attributes;
mod base;
mod checks;
mod copies;
mod entities;
mod entities_error;
mod error;
mod uids;

pub use attributes::with_attributes;
pub use base::Base;
pub use entities_error::EntitiesError;
pub use error::AttributesError;
