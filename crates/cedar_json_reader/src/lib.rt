//! Cedar's JSON: values, contexts, entities and requests.
//!
//! - A value: `true`, `false`, an integer of 64 bits, a string; an array is a set, an object a record;
//!   `{"__entity": {"type": "A::B", "id": "x"}}` is an entity, and `{"__extn": {"fn": "ip", "arg": "10.0.0.1"}}` a call
//!   of an extension function on one argument; with `"args": [..]` instead of `"arg"` it is a call on as many as
//!   the array has. `{"__extn": {"fn": "unknown", "arg": "x"}}` is the unknown of that name.
//! - A context: an object of values.
//! - Entities: an array of objects, each with a `uid`, `attrs`, `parents` and, where there are any, `tags`. A uid is
//!   `{"type": .., "id": ..}`, or that at `__entity`.
//! - A request: an object of a `principal`, an `action`, a `resource` and a `context`. Each entity is as a uid, or
//!   Cedar's text of it: `"User::\"alice\""`.
//!
//! What is no such thing is refused, with the path of the part that is at fault. A text may nest at most 128 levels
//! deep, and no object of it may have a key twice. A key `__entity`, `__extn` or `__expr` is no attribute's.
//!
//! Files: `texts` has the calls on JSON texts; `values`, `contexts`, `entities`, `requests` what each says;
//! `evaluation` evaluates attributes and tags; `shapes`, `escapes`, `names` are of objects that are no record;
//! `paths`, `errors` of refusals; `unknowns` refuses what is not known, where nothing may be unknown.
//!
//! The promise: each call answers exactly what the JSON says (clauses `said`, `made`, `evaluated`; `specs/Said.antt`
//! and its kin, `specs/Evaluated.antt`), or the refusal that is due first with the way to that part (`refused`,
//! `failed`; `specs/Refusals.antt`).
#![tactic(auto)]

mod contexts;
mod entities;
mod errors;
mod escapes;
mod evaluation;
mod names;
mod paths;
mod requests;
mod shapes;
mod texts;
mod unknowns;
mod values;

pub use entities::StatedEntity;
pub use errors::{JsonError, RefusalReason};
pub use evaluation::evaluated_entities;
pub use paths::{JsonPath, PathStep};
pub use texts::{
    context_from_json_str, entities_from_json_str, known_context_from_json_str,
    known_entities_from_json_str, known_request_from_json_str, request_from_json_str,
    restricted_expr_from_json_str, stated_entities_from_json_str,
};
pub use values::restricted_expr_from_json_value;
