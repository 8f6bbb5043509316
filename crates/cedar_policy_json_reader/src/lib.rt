//! Expressions, policies and templates read from Cedar's JSON of policies, the JSON that `cedar_policy_json_writer`
//! writes.
//!
//! An expression is an object of one member, named by the operator, as in `{"==": {"left": .., "right": ..}}`, or by a
//! function, as in `{"ip": [..]}`. A policy is an object of `effect`, `principal`, `action`, `resource`, `conditions`
//! and perhaps `annotations`. Each object has the members that it must have, and no others; no key stands twice. A slot
//! may stand in the scope of a template alone. A level of an expression takes two of a text, so a text may nest as deep
//! as the limit of levels asks for (`json_depth`).
//!
//! Files: `texts` has the calls on JSON texts, `unique` whether a key stands twice; `policies`, `scopes`, `conditions`,
//! `annotations` what policies say; `expressions` what expressions say, `making` what is made of parts; `leaves`,
//! `attributes` and `operators` what is no expression; `bounds` what parts are read with; `shapes` the members of
//! objects; `names` the names of types; `paths`, `errors` of refusals.
//!
//! The promise: each call answers exactly what the JSON says (`said`; `specs/Expressions.antt`, `specs/Policies.antt`
//! and their kin), or the refusal that is due first with the way to that part (`refused`; `specs/Refusals.antt`).
#![tactic(auto)]

mod annotations;
mod attributes;
mod bounds;
mod conditions;
mod errors;
mod expressions;
mod leaves;
mod making;
mod names;
mod operators;
mod paths;
mod policies;
mod scopes;
mod shapes;
mod texts;
mod unique;

pub use errors::{PolicyJsonError, RefusalReason};
pub use expressions::expression_from_json;
pub use paths::{JsonPath, PathStep};
pub use policies::{policy_from_json, template_from_json};
pub use scopes::plain_uid;
pub use shapes::{array, member_count, object, text_at, three_members};
pub use texts::{MOST_LEVELS, expression_from_json_str, json_depth, parse_deep_json, parse_json};
