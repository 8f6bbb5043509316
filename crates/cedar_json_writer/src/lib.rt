//! Values and restricted expressions, decisions and responses in Cedar's JSON, and JSON as text.
//!
//! A literal is a boolean, a number or a string, an entity `{"__entity": {"type": "A::B", "id": "x"}}`; a set is an
//! array of its elements in their order, a record an object; an extension value, or the call of a function, is
//! `{"__extn": {"fn": "ip", "arg": "10.0.0.1"}}`, with `"args": [..]` for more or fewer arguments than one; and an
//! unknown is `{"__extn": {"fn": "unknown", "arg": "x"}}`. A response is `{"decision": "allow", "reason": ["policy0"],
//! "errors": [..]}`; a partial response has more members: `decision`, which is `null` where none is given, the two
//! bounds, `residuals` as Cedar's text by id, and `unknowns` and `missingEntities`, on which they depend.
//!
//! - `expressions`, `contexts`: expressions, values and contexts as JSON. `tree`: JSON values that own their parts.
//!   `writing`: JSON as text.
//! - `responses`, `decisions`, `errors`: what is called, and the errors of policies. `ids`, `texts`: lists of ids, and
//!   texts in JSON. `known`, `residuals`, `left`: what a partial response knows, residuals, and what these depend on.
//!
//! The promise: each call states the very JSON (clause `written`; `specs/Written.antt`), and what has a form in JSON
//! reads back as the same (`reads_back`; `HasJson` in `specs/ReadBack.antt`): a restricted expression in which types
//! and functions have names, no function is named `unknown`, no attribute has a reserved key, and no unknown has an
//! annotation. `to_text` states the very bytes, which read back as that JSON up to 128 levels. Decisions and responses
//! state their whole JSON in clauses without a name: members, order and values (`IsResponseJson`,
//! `IsPartialResponseJson` in `specs/Responses.antt`). Of the message of an error that is no type error it is promised
//! only that it is a text (`specs/Errors.antt`).
#![tactic(auto)]

mod contexts;
mod decisions;
mod errors;
mod expressions;
mod ids;
mod known;
mod left;
mod residuals;
mod responses;
mod texts;
mod tree;
mod writing;

pub use contexts::context_to_json;
pub use decisions::decision_to_json;
pub use errors::{error_to_json, errors_to_json, put_error, put_error_within};
pub use expressions::{expr_to_json, record_to_json, value_to_json};
pub use known::put_known;
pub use responses::{partial_response_to_json, response_to_json};
pub use tree::{JsonValue, put_item, put_member, text_to_json};
