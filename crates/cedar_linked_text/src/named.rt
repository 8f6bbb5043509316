#![tactic(auto, using(cedar_policy_json_reader::proofs::Lists::lists))]
//! Policies of a text under their names.
ghost use Rattle.std.specs.Prelude.{◌≡◌, ◌++◌, ◌∷◌, [], map, None, Some, OnOk, IfOk};
ghost use Rattle.cedar_layers.specs.Policies.{policy_view, policy_id_text};
ghost use Rattle.cedar_layers.specs.PolicySets.{policies_view};
ghost use Rattle.cedar_linked_text.specs.LinkedTexts as texts;

use cedar_layers::policies::{Policy, PolicyID, PolicySet};
use cedar_names::SlotEnv;
use cedar_policy_json_text::annotated_id;
use std::alloc::{AllocError, Global};
use std::rc::RcStr;

/// The policies of the set under their names, in order.
pub(crate) fn named_policies(alloc: Global, policies: &PolicySet) -> Result<Vec<Policy>, AllocError>
    ensures { IfOk result (λ ps. map policy_view ps.items ≡ map texts.named (policies_view policies.now)) }
{
    let mut all: Vec<Policy> = Vec::new(alloc);
    'policies: for policy in policies.policies() {
        put_named(alloc, policy, &mut all)?;
    }
    Ok(all)
}

/// The templates under their names, in order.
pub(crate) fn named_templates(
    alloc: Global,
    templates: &[Policy],
) -> Result<Vec<Policy>, AllocError>
    ensures { IfOk result (λ ts. map policy_view ts.items ≡ map texts.named (map policy_view templates.now)) }
{
    let mut all: Vec<Policy> = Vec::new(alloc);
    'templates: for template in templates {
        put_named(alloc, template, &mut all)?;
    }
    Ok(all)
}

fn put_named(alloc: Global, policy: &Policy, all: &mut Vec<Policy>) -> Result<(), AllocError>
    ensures { OnOk result (map policy_view all.new.items
        ≡ map policy_view all.old.items ++ texts.named (policy_view policy.now) ∷ []) }
{
    let named = named(alloc, policy)?;
    all.push(named)?;
    Ok(())
}

fn named(alloc: Global, policy: &Policy) -> Result<Policy, AllocError>
    ensures { IfOk result (λ p. policy_view p ≡ texts.named (policy_view policy.now)) }
{
    let id = name_of(alloc, policy)?;
    let env = SlotEnv::new(alloc);
    let named = policy.link(alloc, id, env)?;
    Ok(named)
}

fn name_of(alloc: Global, policy: &Policy) -> Result<PolicyID, AllocError>
    ensures { IfOk result (λ i. policy_id_text i ≡ texts.name_of (policy_view policy.now)) }
{
    match annotated_id(policy) {
        Some(name) => Ok(PolicyID::from_string(RcStr::from_str(alloc, name)?)),
        None => copied(policy.id()),
    }
}

fn copied(id: &PolicyID) -> Result<PolicyID, AllocError>
    ensures { IfOk result (λ i. policy_id_text i ≡ policy_id_text id.now) }
{
    Ok(id.clone()?)
}
