//! The values of Cedar's policy language: values and sets of values, extension values, partial values and residuals.
//!
//! - `value`: `Value` and its kinds, each at its place or at none. Below it: `sets` (made in canonical order),
//!   `order` (order and equality), `hashes`, `readers`, `literals`, `texts`, and `written` (the expression of a
//!   value).
//! - `extension_value`: the type of an extension value, its key, and the call that it is written as.
//! - `partial_value` (`equality`, `texts`): a value, or a residual: an expression that still holds an unknown.
//!
//! The promise: builders and readers state the plain value (clause `what`) with all places in it (`inside`, `loc`);
//! order, `==` and hash are those of the plain values, whatever the places and the representations. Each `Value`
//! carries that its sets are in canonical order and its representations are restricted (`Placed.sound`, in
//! `specs/Sound.antt`), and a residual that it holds an unknown (`specs/Left.antt`). How a value and a residual are
//! seen stands in `specs/Kinds.antt` and `specs/Residuals.antt`.
#![tactic(auto)]

mod extension_value;
mod partial_value;
mod value;

pub use extension_value::{ExtensionValue, Representation};
pub use partial_value::{PartialValue, ResidualExpr};
pub use value::{Set, Value, ValueKind, entity_in, text_in};
