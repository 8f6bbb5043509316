//! Requests: who asks to do what with what, and in which context. Each of the four may be unknown.
//!
//! - `entry`: the entity that stands for a variable, or its unknown. `variables`: what a variable answers.
//! - `request` (`values`, `types`, `copies`, `texts`): a request, what its variables answer, and its types.
//! - `context`: contexts. Below it: `creation` (of restricted expressions), `named` (of values under names), `pairs`
//!   and `values` (what it holds), `substitution` (values for unknowns), `walk`, `conversions`, `copies`, `equality`,
//!   `texts`.
//! - `errors`: why no context was made. `laws`: what holds of contexts, requests and maps of values, whatever they
//!   are.
//!
//! The promise: requests and contexts give back what they were handed, locations too (clauses `view`, `parts`,
//! `entry`; `specs/Requests.antt`, `specs/Contexts.antt`), and variables answer what the model says
//! (`variable_values`). `from_expr` and `from_pairs` answer what the restricted rules allow (`created`, `low`;
//! `specs/Creations.antt`), and `substitute` keeps completions (`completions`; `specs/Substitutions.antt`).
#![tactic(auto)]

mod context;
mod entry;
mod errors;
pub mod laws;
mod request;
mod variables;

pub use context::{Context, IntoIter};
pub use entry::EntityUIDEntry;
pub use errors::{ContextCreationError, context_creation_errors};
pub use request::{Request, RequestType};
