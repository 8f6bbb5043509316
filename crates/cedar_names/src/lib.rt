//! The leaves of expressions in Cedar's policy language: names, types, literals, operators and patterns, and how they
//! print.
//!
//! - `names` (and below it `parts`, `texts`): names of entity types, entities, functions, slots and variables.
//! - `types`: the types of values, literals and unknowns. `operators`: `UnaryOp` and `BinaryOp`.
//! - `pattern` (and `matching`, `texts`): the patterns of `like`, and whether a text matches one.
//! - `texts` (and below it): the texts that types, operators and literals print as, also under a bound.
//! - `leaf_equality`, `leaf_hashing`: equality and hashes, which ignore locations; `laws`: when names and leaves are
//!   equal.
//! - `shared`: what the crates above share with this one, and users need not name.
//!
//! The promise: a leaf is seen as plain data (`specs/Leaves.antt`, `specs/Names.antt`), and builders and readers
//! state it; `==` is that of plain data (`specs/Equality.antt`, `leaves_are_equal_by_view`); printing gives exact
//! bytes (`specs/Texts.antt`), different ones for different entities (`entities_that_print_alike_are_one`); and names
//! of entities are in a total order by text (`entities_are_in_order`).
#![tactic(auto)]

pub mod laws;
mod leaf_equality;
mod leaf_hashing;
mod names;
mod operators;
mod pattern;
pub mod shared;
mod texts;
mod types;

pub use names::{CallStyle, EntityType, EntityUID, Loc, Name, SlotEnv, SlotId, Var};
pub use operators::{BinaryOp, UnaryOp};
pub use pattern::{Pattern, PatternElem};
pub use texts::BoundedDisplay;
pub use texts::laws::entities_that_print_alike_are_one;
pub use types::{FirstRest, Literal, Type, Unknown};
