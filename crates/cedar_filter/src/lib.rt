//! What is left of policies: made simpler, and as conditions on one row, that is, on an entity that stands for an
//! unknown.
//!
//! - `simpler`: an expression without what is known in it (`simplified`).
//! - `filters`: an expression as a condition on rows, and what a row tells of it (`Filter`). Below it: `conditions`,
//!   the tree; `faults`, the first part that is no condition on one row; `rows` and `truths`, what a row tells.
//! - `laws`: worlds that have a row.
//!
//! The promise: `simplified` means the same value or the same kind of error in every world, and is no higher
//! (`specs/Simplifying.antt`). A filter stands for its expression (clause `term`), and a refusal names the first part
//! that is no condition on one row (`refused`, over `specs/Faults.antt`). A truth that a row tells is what the
//! expression means in each world that has the row (`meaning`, over `HasRow` in `specs/Rows.antt`), and there is one
//! (`rows_have_worlds`). A permit passes where its condition holds, and not where it fails, errs or is untold.
#![tactic(auto)]

mod conditions;
mod faults;
mod filters;
pub mod laws;
mod rows;
mod simpler;
mod truths;

pub use conditions::{Comparison, Condition, Operand};
pub use filters::{Filter, NoFilter};
pub use simpler::simplified;
pub use truths::{RowError, Truth};
