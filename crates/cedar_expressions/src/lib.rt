//! The expressions of Cedar's policy language: the 17 kinds, their equality and hashes, and how they print.
//!
//! - `expr`: the kinds, how each is made, and what is read of one. Below it: `literals`, `record`, `made` (of shared
//!   parts), `readers`, `shape`, `copies`, `equality`, `hashing`, and `substitution` of values for unknowns.
//! - `texts` (`expressions`, `bounded`): how expressions print, also under a bound.
//! - `errors`: why no expression was made. `laws`: when expressions are equal.
//! - `shared`: what the crates above share with this one, and users need not name.
//!
//! The promise: an expression is seen as a term of the model (`view`, in `specs/View.antt`), and builders and readers
//! state it by clauses `view`, `kind` and `loc`; the parts stay whole, locations included (`node`, `parts_of`, in
//! `specs/Nodes.antt`). `==` and the hash are those of the term (`expressions_are_equal_by_term`), printing gives
//! exact bytes, and `substitute` changes nothing but the unknowns that the map names (`specs/Mappings.antt`).
#![tactic(auto)]

mod errors;
mod expr;
pub mod laws;
pub mod shared;
mod texts;

pub use errors::ExpressionConstructionError;
pub use expr::{AsExpression, Expr, ExprKind};
