//! Stores of entities that are handed in with their parents alone.
//!
//! `in` reads the ancestors that an entity records, and `Entities::with` takes them as they are. So whoever hands it
//! entities that record their parents alone gets wrong answers in silence: `in` is false of what is two steps away, so
//! a permit that asks for it does not apply (a wrong Deny), nor does a forbid (a wrong Allow). `close_hierarchy` takes
//! just such entities, and makes the store whose ancestors are all that parents lead to, in one step or more. It
//! refuses entities that lead back to themselves. Entities that record all their ancestors already come out as they
//! are.
//!
//! Where there may be more entities than those that are handed in, what a parent that is not among them leads to is not
//! known. `close_hierarchy_partially` makes a partial store of those entities alone whose ancestors are all among them,
//! and says which it left out: these are not known, and a later store, with more entities, brings them.
//!
//! - `closing`, `walk`, `parents`: whole stores; `order`: parents before their children, and `ancestry`: each entity's
//!   ancestors of those of its parents. `partial`: partial stores. `error`: why no store was made. `laws`: what stays
//!   where more entities come.
//!
//! The promise: `close_hierarchy` keeps each entity whole (clause `entities`), with exactly the ancestors that parents
//! lead to (`ancestors`; `specs/Ancestry.antt`); a refusal names an entity that leads back to itself (`cycle`).
//! `close_hierarchy_partially` leaves out exactly those whose parents lead elsewhere (`left_out`;
//! `specs/LeftOut.antt`).
#![tactic(auto)]

mod ancestry;
mod closing;
mod error;
pub mod laws;
mod order;
mod parents;
mod partial;
mod walk;

pub use closing::{close_entities, close_hierarchy};
pub use error::ClosureError;
pub use partial::{PartialClosure, close_hierarchy_partially};
