//! Policies, sets of policies and the store of entities.

mod entities;
mod kinds;
mod policy;
mod policy_set;
mod scope_index;
mod scopes;

pub use entities::{Dereference, Entities, Entity};
pub use policy::{Annotations, Effect, Policy, PolicyID};
pub use policy_set::{Policies, PolicySet, PolicySetError};
