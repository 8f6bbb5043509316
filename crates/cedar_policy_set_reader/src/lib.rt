//! Sets of policies read from Cedar's JSON of policies, whose policies and templates `cedar_policy_json_reader` reads.
//!
//! A set is an object of `staticPolicies` and `templates`, each an object of policies under their ids, and of
//! `templateLinks`, an array of links of templates. Each of the three may be left out, and there are no other members. No
//! id comes twice, neither in one of them nor in two. A link makes a policy of its template (`cedar_template_links`).
//!
//! - `policy_sets`: the call on a JSON value, and the members of a set. `texts`: the call on a JSON text. `ids`: ids that
//!   no policy before has.
//!
//! The promise: each call answers exactly the set that the JSON says (`said`; `policy_set_said` in
//! `specs/PolicySets.antt`), or the refusal that is due first with the way to that part (`refused`; static policies are
//! read first, then templates, then links). The definitions of policies, paths and refusals are those of
//! `cedar_policy_json_reader`, those of links of `cedar_template_links`.
#![tactic(auto)]

mod ids;
mod policy_sets;
mod texts;

pub use policy_sets::{ReadPolicies, policy_set_from_json};
pub use texts::policy_set_from_json_str;
