//! What is told of each row by a whole partial response, where a row is an entity that stands for an unknown: the
//! principal or the resource.
//!
//! - `plans`: a response as a plan for rows (`Plan`): the policies that are satisfied already, and what each residual
//!   one asks of a row. `planning`: how a plan is made of a response, and why there is none (`NoPlan`).
//! - `policies`: the policies of one effect (`PlannedPolicies`), and how they stand at a row. Below it: `conditions`,
//!   what one residual asks of a row (`RowCondition`).
//! - `laws`: what a decision that is told says of whole requests.
//!
//! The promise: a decision that `allows` tells of an entity is what the policies decide in each world in which the
//! response stands and which has that entity as its row (clause `decision`, `IsDecisionAt` in `specs/Worlds.antt`), so
//! it is the decision of the whole request (`decisions_are_of_requests`). It tells one exactly where the response's
//! rows, with what the entity tells in place of residuals, give one (clause `told`, over `specs/Told.antt`).
#![tactic(auto)]

mod conditions;
pub mod laws;
mod planning;
mod plans;
mod policies;

pub use conditions::RowCondition;
pub use planning::NoPlan;
pub use plans::Plan;
pub use policies::{PlannedPolicies, RowPolicy};
