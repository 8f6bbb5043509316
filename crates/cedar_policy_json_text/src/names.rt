#![tactic(auto, using(crate::proofs::Sharing::sharing))]
//! How policies of JSON are called in a text.
ghost use Rattle.std.specs.Prelude.{◌≡◌, ◌∷◌, [], ◌++◌, flat_map, map, option_map, is_some, None, IfOk, IfErr, OnOk};
ghost use Rattle.cedar_names.specs.Leaves.{slot_view};
ghost use Rattle.cedar_layers.specs.Policies.{policy_view, policy_id_text, policy_ids, slots_view};
ghost use Rattle.cedar_layers.specs.Policies.{first_repeated, first_repeated_id};
ghost use Rattle.cedar_layers.specs.PolicySets.{policies_view};
ghost use Rattle.cedar_policy_set_reader.specs.PolicySets.{set_view};
ghost use Rattle.cedar_policy_json_text.specs.Kept.{lent, IsOwn};
ghost use Rattle.cedar_policy_json_text.specs.Names as names;

use crate::errors::PolicyTextError;
use crate::kept::{annotated_id, each_of, policies_of};
use crate::paths::shared_name_at;
use cedar_layers::policies::{Policy, PolicyID, PolicySet, PolicySetError};
use cedar_names::{SlotEnv, SlotId};
use cedar_policy_set_reader::ReadPolicies;
use std::alloc::{AllocError, Global};
use std::rc::RcStr;

/// How the policy of a text is called: by its annotation `id` or, where it has none, by its id, which is its place.
pub(crate) fn called(alloc: Global, policy: &Policy) -> Result<PolicyID, AllocError>
    ensures { IfOk result (λ i. policy_id_text i ≡ names.called (policy_view policy.now)) }
{
    match annotated_id(policy) {
        Some(name) => Ok(PolicyID::from_string(RcStr::from_str(alloc, name)?)),
        None => copied(policy.id()),
    }
}

fn copied(id: &PolicyID) -> Result<PolicyID, AllocError>
    ensures { IfOk result (λ i. policy_id_text i ≡ policy_id_text id.now) }
{
    Ok(id.clone()?)
}

/// Whether the policy is one of a link.
pub(crate) fn is_linked(policy: &Policy) -> bool
    ensures { result ≡ names.is_linked (policy_view policy.now) }
{
    has_entity(policy.env(), SlotId::Principal) || has_entity(policy.env(), SlotId::Resource)
}

fn has_entity(slots: &SlotEnv, slot: SlotId) -> bool
    ensures { result ≡ is_some (slots_view slots.now (slot_view slot)) }
{
    slots.get(&slot).is_some()
}

/// How the policy of JSON is called: one of a link by its id, and any other by its annotation `id` or, where it has none,
/// by its id.
pub(crate) fn name_of(alloc: Global, policy: &Policy) -> Result<PolicyID, AllocError>
    ensures { IfOk result (λ i. policy_id_text i ≡ names.name_of (policy_view policy.now)) }
{
    if is_linked(policy) {
        copied(policy.id())
    } else {
        called(alloc, policy)
    }
}

/// Whether the second policy, of a text, is called as the first one, of JSON, whose id is not lost.
pub(crate) fn goes_by(alloc: Global, policy: &Policy, read: &Policy) -> Result<bool, AllocError>
    ensures { IfOk result (λ b. b ≡ names.goes_by (policy_view policy.now) (policy_view read.now)) }
{
    let name = name_of(alloc, policy)?;
    let called = called(alloc, read)?;
    let same = name == called && (*policy.id() == called || policy.id() == read.id());
    drop((name, called));
    Ok(same)
}

// ---- all policies of a set

/// Refuses a set in which two policies or templates have one text for their ids or names.
pub(crate) fn check_names(alloc: Global, set: &ReadPolicies) -> Result<(), PolicyTextError>
    ensures apart { OnOk result (names.first_shared (set_view set.now) ≡ None) }
    ensures shared { IfErr result (names.IsShared (set_view set.now)) }
    ensures own { IfErr result IsOwn }
{
    match shared_name(alloc, set) {
        Ok(None) => Ok(()),
        Ok(Some(name)) => Err(shared_name_at(alloc, set, name)),
        Err(error) => Err(PolicyTextError::Memory(error)),
    }
}

// The first text that is the id or the name of two.
fn shared_name(alloc: Global, set: &ReadPolicies) -> Result<Option<PolicyID>, AllocError>
    ensures { IfOk result (λ o. option_map policy_id_text o ≡ names.first_shared (set_view set.now)) }
{
    let policies: Vec<&Policy> = policies_of(alloc, &set.policies)?;
    let templates: Vec<&Policy> = each_of(alloc, &set.templates)?;
    let mut all: Vec<Policy> = Vec::new(alloc);
    put_names(alloc, &policies, &mut all)?;
    put_names(alloc, &templates, &mut all)?;
    first_repeated(alloc, all)
}

// The first id of two of the policies.
fn first_repeated(alloc: Global, all: Vec<Policy>) -> Result<Option<PolicyID>, AllocError>
    ensures { IfOk result (λ o. option_map policy_id_text o ≡ first_repeated_id all.items) }
{
    match PolicySet::try_from_iter(alloc, all) {
        Ok(set) => Ok(no_name(set)),
        Err(PolicySetError::Occupied { id }) => Ok(Some(id)),
        Err(PolicySetError::Memory(error)) => Err(error),
    }
}

// No two policies of a set have one id.
fn no_name(set: PolicySet) -> Option<PolicyID>
    ensures { option_map policy_id_text result ≡ first_repeated (policy_ids (policies_view set)) }
{
    drop(set.policies());
    drop(set);
    None
}

// A policy under the id of each, and under its name where that is another.
fn put_names(alloc: Global, policies: &[&Policy], all: &mut Vec<Policy>) -> Result<(), AllocError>
    ensures { OnOk result (policy_ids (map policy_view all.new.items)
        ≡ policy_ids (map policy_view all.old.items) ++ flat_map names.id_and_name (lent policies.now)) }
{
    'policies: for policy in policies {
        put_id_and_name(alloc, policy, all)?;
    }
    Ok(())
}

fn put_id_and_name(alloc: Global, policy: &Policy, all: &mut Vec<Policy>) -> Result<(), AllocError>
    ensures { OnOk result (policy_ids (map policy_view all.new.items)
        ≡ policy_ids (map policy_view all.old.items) ++ names.id_and_name (policy_view policy.now)) }
{
    let name = name_of(alloc, policy)?;
    let id = copied(policy.id())?;
    put_under(alloc, policy, id, all)?;
    if *policy.id() == name {
        drop(name);
        Ok(())
    } else {
        put_under(alloc, policy, name, all)
    }
}

fn put_under(
    alloc: Global,
    policy: &Policy,
    id: PolicyID,
    all: &mut Vec<Policy>,
) -> Result<(), AllocError>
    ensures { OnOk result (policy_ids (map policy_view all.new.items)
        ≡ policy_ids (map policy_view all.old.items) ++ policy_id_text id ∷ []) }
{
    let slots = SlotEnv::new(alloc);
    let named: Policy = policy.link(alloc, id, slots)?;
    all.push(named)?;
    Ok(())
}
