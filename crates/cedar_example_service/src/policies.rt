//! The policies.
use crate::stop::Stop;
use cedar_policy_core::ast::{Policy, PolicySet};
use cedar_policy_core::builder::{
    call, context, entity, forbid, permit, principal, resource, text,
};
use std::alloc::{AllocError, Global};

/// The five policies.
pub fn policies(alloc: Global) -> Result<PolicySet, Stop> {
    let mut policies: Vec<Policy> = Vec::new(alloc);
    policies.push(editors(alloc)?)?;
    policies.push(owner(alloc)?)?;
    policies.push(sealed(alloc)?)?;
    policies.push(public(alloc)?)?;
    policies.push(office(alloc)?)?;
    Ok(PolicySet::try_from_iter(alloc, policies)?)
}

// permit(principal in Role::"editor", action, resource in Folder::"archive");
fn editors(alloc: Global) -> Result<Policy, AllocError> {
    permit(alloc, "editors")
        .principal_in(entity(alloc, "Role", "editor"))
        .resource_in(entity(alloc, "Folder", "archive"))
        .policy()
}

// permit(principal, action, resource) when { resource.owner == principal };
fn owner(alloc: Global) -> Result<Policy, AllocError> {
    permit(alloc, "owner")
        .when(resource(alloc).attr("owner").is_eq(principal(alloc)))
        .policy()
}

// forbid(principal, action == Action::"edit", resource) when { resource.hasTag("sealed") };
fn sealed(alloc: Global) -> Result<Policy, AllocError> {
    forbid(alloc, "sealed")
        .action_eq(entity(alloc, "Action", "edit"))
        .when(resource(alloc).has_tag(text(alloc, "sealed")))
        .policy()
}

// permit(principal, action, resource) when { resource.public && isOpen(context.hour) };
// It errs where the document does not say whether it is public.
fn public(alloc: Global) -> Result<Policy, AllocError> {
    let is_open = call(alloc, "isOpen", [context(alloc).attr("hour")]);
    permit(alloc, "public")
        .when(resource(alloc).attr("public").and(is_open))
        .policy()
}

// permit(principal, action == Action::"view", resource)
// when { ip(context.address).isInRange(ip("10.0.0.0/8")) };
// It errs where the address is none.
fn office(alloc: Global) -> Result<Policy, AllocError> {
    let address = call(alloc, "ip", [context(alloc).attr("address")]);
    let network = call(alloc, "ip", [text(alloc, "10.0.0.0/8")]);
    permit(alloc, "office")
        .action_eq(entity(alloc, "Action", "view"))
        .when(call(alloc, "isInRange", [address, network]))
        .policy()
}
