//! Expressions, policies, templates and sets of policies in Cedar's JSON of policies.
//!
//! An expression is an object with one member, named by its operator: `{"==": {"left": .., "right": ..}}`,
//! `{"Value": true}`, `{"Var": "principal"}`. A policy is `{"effect": "permit", "principal": {"op": "All"}, "action":
//! .., "resource": .., "conditions": [{"kind": "when", "body": ..}]}`, with `annotations` where it has some; a set of
//! policies `{"staticPolicies": {..}, "templates": {..}, "templateLinks": [..]}`, with ids for keys.
//!
//! - `objects`: objects of a few members. `names`: operators, variables, slots and types by name.
//! - `leaves`: literals, slots, unknowns, patterns, attributes. `expressions`: expressions, kind by kind.
//! - `scope`, `constraints`: which constraint on a variable a scope has; `scopes`: scopes in JSON.
//! - `policies`: policies and templates. `policy_sets`: sets of policies, with templates, and with `links` of them.
//!
//! The promise: each call states the very JSON, member by member in their order (`expression_json` in
//! `specs/Expressions.antt`, `scope_of` and `scope_json` in `specs/Scopes.antt`, `policy_json` in
//! `specs/Policies.antt`, `policy_set_json` in `specs/PolicySets.antt`; in clauses without a name).
//!
//! What Cedar's text has and an expression does not is written as what it stands for: `a != b` as `!(a == b)`, `a > b`
//! as `!(a <= b)`, `unless` as a negation, and all clauses of a policy as one `when`. A constraint that no scope has,
//! as code may make one, is a condition of its own, before the policy's.
#![tactic(auto)]

mod constraints;
mod expressions;
mod leaves;
mod links;
mod names;
mod objects;
mod policies;
mod policy_sets;
mod scope;
mod scopes;

pub use expressions::expression_to_json;
pub use links::TemplateLink;
pub use policies::{policy_to_json, template_to_json};
pub use policy_sets::policy_set_to_json;
