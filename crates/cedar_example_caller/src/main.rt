//! The caller that `README.md` shows: it reads one policy from a text, makes a store and a request, and prints what
//! the authorizer decides. It lists `cedar_policy_core` and no other crate of the repository.
//!
//! - `main`: all of it. `decided` reads the policy by `parse_policies`, with the functions of the standard extensions
//!   known; makes a store of one user, who records a group as parent, by `close_hierarchy`; and asks `is_authorized` of
//!   an `Authorizer` with 101 levels, one more than the text may have.
//! - `stdout` has what it prints, which is compared.
//!
//! The promise is the checker's alone: the program stays within its memory and comes to an end. Its function has no
//! clause; what it prints is what `is_authorized` decides, by that call's contract.
//!
//! A caller who wants to prove more of a decision finds one in `cedar_example_service`.
#![tactic(auto)]

use cedar_policy_core::ast::{Context, Entity, EntityUID, Request};
use cedar_policy_core::authorizer::{Authorizer, Decision};
use cedar_policy_core::entities::close_hierarchy;
use cedar_policy_core::extensions::Extensions;
use cedar_policy_core::parser::{Functions, parse_policies};
use std::alloc::Global;
use std::collections::{BTreeMap, BTreeSet};

fn main(rt: HostRuntime) -> std::io::Result<()> {
    println!(rt; "{:?}", decided(rt.alloc()))
}

// `None` if out of memory: the text and the entities are right.
fn decided(alloc: Global) -> Option<Decision> {
    let extensions = Extensions::all_available();
    let known = Functions::of(alloc, &extensions).ok()?;
    let text = "permit(principal in Group::\"staff\", action, resource);";
    let policies = parse_policies(alloc, text, 100, &known).ok()?.policies;
    let staff = EntityUID::of(alloc, "Group", "staff").ok()?;
    let alice = EntityUID::of(alloc, "User", "alice").ok()?;
    let mut parents: BTreeSet<EntityUID> = BTreeSet::new(alloc);
    parents.insert(staff).ok()?;
    let (attrs, tags) = (BTreeMap::new(alloc), BTreeMap::new(alloc));
    let user = Entity::from_values(alloc, alice, attrs, parents, tags).ok()?;
    let entities = close_hierarchy(alloc, vec![in alloc; user].ok()?).ok()?;
    let principal = EntityUID::of(alloc, "User", "alice").ok()?;
    let action = EntityUID::of(alloc, "Action", "edit").ok()?;
    let resource = EntityUID::of(alloc, "Document", "plan").ok()?;
    let request = Request::of(principal, action, resource, Context::empty(alloc));
    let authorizer = Authorizer::new(&extensions, 101);
    let response = authorizer.is_authorized(alloc, request, &policies, &entities);
    Some(response.ok()?.decision)
}
