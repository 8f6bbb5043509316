//! Which policies of a set can apply where principal, action and resource are known: those whose scope asks for one of
//! them, for an entity that they are in, or for none.
ghost use Rattle.std.specs.Prelude.{◌≡◌, ◌++◌, map, IfOk, IfSome, OnOk};
ghost use Rattle.cedar_layers.specs.Stores.{store_view, entity_view};
ghost use Rattle.cedar_names.specs.Names.{uid_name};
ghost use Rattle.cedar_requests.specs.Requests.{request_view, entry_view};
ghost use Rattle.cedar_authorizer.specs.Configured.{configuration, asked};
ghost use Rattle.cedar_authorizer.specs.Reaching.{AreCovered, Covers, IsCoveredBy, OthersAreFalse};
ghost use Rattle.cedar_layers.specs.PolicySets.{stored_policies};

use super::Authorizer;
use cedar_evaluator::request::{EntityUIDEntry, Request};
use cedar_layers::expressions::EntityUID;
use cedar_layers::policies::{Dereference, Entities, Entity, Policy, PolicySet};
use std::alloc::{AllocError, Global};

// The entities that a scope names stand at most so many levels deep in the condition.
const SCOPE_LEVELS: usize = 7;

// An entity that is in more than so many is looked at further only where the index of the set is of use.
const FEW_ANCESTORS: usize = 16;

// The policies that can be true or err. None where that is not known without a look at all of them.
pub(super) fn policies_within_reach<'p>(
    alloc: Global,
    authorizer: &Authorizer<'_>,
    request: &Request,
    policies: &'p PolicySet,
    entities: &Entities,
) -> Result<Option<Vec<&'p Policy>>, AllocError>
    ensures { IfOk result (λ o. IfSome o (λ v. OthersAreFalse (configuration authorizer.now)
        (asked authorizer.now request.now entities.now) (stored_policies policies.now) (map (λ p. p.now) v.items))) }
{
    if authorizer.limit < SCOPE_LEVELS {
        return Ok(None);
    }
    match asked_uids(alloc, request, policies, entities)? {
        Some(uids) => policies.within_reach(alloc, &uids),
        None => Ok(None),
    }
}

// Principal, action and resource, and all that they are in. None where that is not known, or need not be.
fn asked_uids<'a>(
    alloc: Global,
    request: &'a Request,
    policies: &PolicySet,
    entities: &'a Entities,
) -> Result<Option<Vec<&'a EntityUID>>, AllocError>
    ensures { IfOk result (λ o. IfSome o (λ v. AreCovered (request_view request.now) (store_view entities.now)
        (map (λ u. uid_name u.now) v.items))) }
{
    let mut uids: Vec<&EntityUID> = Vec::new(alloc);
    if !add_entry(alloc, &mut uids, request.principal(), policies, entities)? {
        return Ok(None);
    }
    if !add_entry(alloc, &mut uids, request.action(), policies, entities)? {
        return Ok(None);
    }
    if !add_entry(alloc, &mut uids, request.resource(), policies, entities)? {
        return Ok(None);
    }
    Ok(Some(uids))
}

// Adds the entity of the entry and all that it is in, and tells whether that is known and of use.
fn add_entry<'a>(
    alloc: Global,
    uids: &mut Vec<&'a EntityUID>,
    entry: &'a EntityUIDEntry,
    policies: &PolicySet,
    entities: &'a Entities,
) -> Result<bool, AllocError>
    ensures { IfOk result (λ b. Covers (entry_view entry.now) (store_view entities.now)
        (map (λ u. uid_name u.now) uids.old.items) (map (λ u. uid_name u.now) uids.new.items) b) }
{
    match entry.uid() {
        Some(uid) => add_entity(alloc, uids, uid, policies, entities),
        None => Ok(false),
    }
}

// The same of the entity of this uid.
fn add_entity<'a>(
    alloc: Global,
    uids: &mut Vec<&'a EntityUID>,
    uid: &'a EntityUID,
    policies: &PolicySet,
    entities: &'a Entities,
) -> Result<bool, AllocError>
    ensures { IfOk result (λ b. IsCoveredBy (uid_name uid.now) (store_view entities.now)
        (map (λ u. uid_name u.now) uids.old.items) (map (λ u. uid_name u.now) uids.new.items) b) }
{
    match entities.entity(alloc, uid)? {
        Dereference::Data(entity) => {
            if is_in_vain(policies, entity) {
                return Ok(false);
            }
            uids.push(uid)?;
            add_ancestors(uids, entity)?;
            Ok(true)
        }
        Dereference::NoSuchEntity => {
            uids.push(uid)?;
            Ok(true)
        }
        Dereference::Residual(unknown) => {
            drop(unknown);
            Ok(false)
        }
    }
}

// Whether the entity is in many others, and the index of the set leaves out too few policies to be asked for them.
fn is_in_vain(policies: &PolicySet, entity: &Entity) -> bool {
    entity.ancestors().len() > FEW_ANCESTORS && policies.leaves_out_few()
}

// Adds all that the entity is in.
fn add_ancestors<'a>(uids: &mut Vec<&'a EntityUID>, entity: &'a Entity) -> Result<(), AllocError>
    ensures { OnOk result (map (λ u. uid_name u.now) uids.new.items
        ≡ map (λ u. uid_name u.now) uids.old.items ++ (entity_view entity.now).ancestors) }
{
    'ancestors: for ancestor in entity.ancestors().iter() {
        uids.push(ancestor)?;
    }
    Ok(())
}
