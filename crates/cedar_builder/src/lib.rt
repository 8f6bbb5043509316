//! Policies in code as they read: `forbid(alloc, "private").when(resource(alloc).attr("tags").contains(text(alloc,
//! "private"))).policy()`.
//!
//! A builder holds what was said so far, or that it is out of memory, so that no `?` is needed between its calls: the
//! last one, `policy` or `expr`, says whether it was out of memory. What is built is what the text of the policy is
//! read as, but that nothing of it has a place in a text. Names and texts are taken as they are, unchecked: a path is
//! one text, as `App::User`.
//!
//! - `expressions` (`leaves`, `operators`, `lists`, `patterns`): expressions in the making.
//! - `policies` (`annotations`, `scopes`, `scopes/constraints`): policies in the making.
//!
//! The promise: each call says the operator's term over its parts (`Builds` in `specs/Building.antt`; patterns in
//! `specs/Patterns.antt`), or what was said of the policy in one place (`Says`, over `specs/Saying.antt`), unless it
//! is out of memory. `expr` answers that expression (clauses `term`, `whole`), and `policy` the policy of which
//! exactly that was said (`view`).
#![tactic(auto)]

mod expressions;
mod policies;

pub use expressions::{
    ExprBuilder, FieldBuilder, action, boolean, call, context, entity, expr, field, if_then_else,
    long, principal, record, resource, set, slot, text, uid, unknown, unknown_with_type,
};
pub use policies::{PolicyBuilder, forbid, permit};
