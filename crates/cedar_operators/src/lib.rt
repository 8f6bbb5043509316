//! What operators answer to values, over a store of entities, and in `partial` to parts, which are values or
//! residuals: one function for each row of the rules, below the evaluators, which find the values. The loop, direct
//! parts and scopes call these. `cedar_evaluator` exports those that its users call.
//!
//! - `operators`, `binary`: operators on one value and on two. `numbers`, `order`, `sets`: longs, the order of
//!   values, sets.
//! - `attributes`, `store`: attributes and `has`; `in`, `getTag` and `hasTag`. `stored_residuals`: the stored
//!   residual that an operator reads.
//! - `partial` (`unary`, `binary`, `attributes`, `connectives`, `residuals`, `shapes`): the same on parts; `&&`, `||`
//!   and `if` beside residuals, and best effort.
//! - `typed`, `failures`, `missing`, `residuals`: type errors, other errors, errors about attributes that are
//!   missing, residuals.
//!
//! The promise: on values the model's value or error, with all fields (`unary_answer`, `binary_answer` of
//! `cedar_model`); on parts the model's residual (`specs/Parts.antt`, `specs/Connectives.antt`); which stored
//! residual is read (`specs/StoredResiduals.antt`).
#![tactic(auto)]

pub mod attributes;
pub mod binary;
pub mod failures;
pub mod missing;
mod numbers;
pub mod operators;
mod order;
pub mod partial;
pub mod residuals;
pub mod sets;
pub mod store;
pub mod stored_residuals;
pub mod typed;
