//! A whole plan as SQL: of a table whose rows stand for entities, the rows that are allowed whatever the policies do that
//! SQL can't say, and the rows that may be allowed.
//!
//! - `plans`: a plan as two SQL expressions (`PlanTerms`, `sql_of_plan`). Below it: `effects`, the policies of one
//!   effect as one expression; `types`, rows of the type that is asked for; `terms`, expressions of parts.
//! - `laws`: what is said in SQL is what the plan tells.
//!
//! The promise: on each row that is an entity's, `allowed` is 1 exactly where the entity can stand for the plan's unknown
//! and the policies that SQL can say decide Allow whatever the others do; `candidates` is 0 exactly where it can't or they
//! decide Deny; neither is ever NULL (clauses `allowed`, `candidates`, over `said_decision` in `specs/Said.antt`). So no row
//! of another type is shown, a row that is shown is allowed by the plan, and one of the plan's type that is no candidate is
//! denied (`shown`, `left_out`, over `IsToldOf` and `DecidesAt` of `cedar_plan`). Where SQL says each filter of the plan,
//! both are exactly what the plan tells (law `said_is_told`, clause `exact`).
#![tactic(auto)]

mod effects;
pub mod laws;
mod plans;
mod terms;
mod types;

pub use plans::{PlanTerms, sql_of_plan};
