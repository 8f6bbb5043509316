//! Restricted expressions: literals, unknowns, and sets, records and calls of restricted ones, and their evaluation,
//! which reads no request and no store. Attributes of entities and contexts are given as such.
//!
//! - `restricted_expr`: owned (`owned`) and borrowed (`borrowed`) restricted expressions. Below it: `made` (of parts),
//!   `readers`, `parts` (iterators), `kinds`, `shape`, `types`, `conversions` (of values and residuals), `copies`,
//!   `equality`, `texts`, and `disallowed` (the first part that may not be there).
//! - `err`: why no restricted expression was made.
//! - `evaluator`: the public calls, `partial_interpret` and `interpret`. `machine`: the evaluation as the loop of
//!   `cedar_frames` runs it. `start`: how each kind begins. `parts`, `whole`, `literals`: sets, records and calls,
//!   part by part; the frame for these, `PartsFrame`, serves `cedar_interpreter` too.
//! - `answers` (`adding`), `made`: the answers of parts so far, and what all of them make. `errors`: the error of a
//!   residual that is left.
//!
//! The promise: the types keep that the expression is restricted (`specs/Restricted.antt`). `new` takes exactly such
//! expressions (clause `expr`), and else names the first part that may not be there (`refused`, `whole`;
//! `specs/Refusals.antt`); builders state the term (`view`, `kind`, `loc`), and readers find exactly the part, or
//! `None` (`part`, `view`; `specs/Readers.antt`). `partial_interpret` meets the limit exactly where the need is above
//! it, else answers what the rules allow (`answer`, `low`; `specs/Evaluations.antt`), and the meaning where nothing is
//! unknown (`known`). Elements of sets keep their places (`elements`; `specs/Elements.antt`), and residuals are
//! restricted and hold an unknown (`restricted`, `unknown`). What a frame waits for is in `specs/Frames.antt`.
#![tactic(auto)]

mod answers;
mod err;
mod errors;
mod evaluator;
mod literals;
mod machine;
mod made;
mod parts;
mod restricted_expr;
mod start;
mod whole;

pub use answers::{Answers, Mixed};
pub use err::{
    PartialValueToRestrictedExprError, RestrictedExpressionError, restricted_expr_errors,
};
pub use evaluator::RestrictedEvaluator;
pub use made::{map_under, record_value};
pub use parts::{NextPart, PartsFrame};
pub use restricted_expr::{
    BorrowedRestrictedExpr, CallArguments, RecordPairs, RestrictedExpr, RestrictedExprShapeOnly,
    SetElements,
};
pub use whole::Whole;
