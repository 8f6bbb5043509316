#![tactic(auto, using(crate::proofs::Keeping::keeping))]
//! Whether policies are kept.
ghost use Rattle.std.specs.Prelude.{◌≡◌, [], ◌∷◌, ◌++◌, map, length, option_copied, OnOk, IfOk};
ghost use Rattle.cedar_layers.specs.Policies.{policy_view};
ghost use Rattle.cedar_layers.specs.PolicySets.{policies_view};
ghost use Rattle.cedar_policy_json_text.specs.Kept as kept;
ghost use Rattle.cedar_policy_json_text.specs.Placed.{placed_view};
ghost use Rattle.cedar_unsatisfiable.specs.Alike.{say_the_same};

use crate::names::goes_by;
use crate::placing::placed_policy;
use cedar_layers::policies::{Policy, PolicySet};
use cedar_unsatisfiable::say_the_same;
use std::alloc::{AllocError, Global};

/// The policies of the set, in order.
pub(crate) fn policies_of(alloc: Global, policies: &PolicySet) -> Result<Vec<&Policy>, AllocError>
    ensures { IfOk result (λ v. kept.lent v.items ≡ policies_view policies.now) }
{
    let mut all: Vec<&Policy> = Vec::new(alloc);
    'policies: for policy in policies.policies() {
        lend(policy, &mut all)?;
    }
    Ok(all)
}

/// The policies, each lent.
pub(crate) fn each_of(alloc: Global, policies: &[Policy]) -> Result<Vec<&Policy>, AllocError>
    ensures { IfOk result (λ v. kept.lent v.items ≡ map policy_view policies.now) }
{
    let mut all: Vec<&Policy> = Vec::new(alloc);
    'policies: for policy in policies {
        lend(policy, &mut all)?;
    }
    Ok(all)
}

fn lend<'a>(policy: &'a Policy, all: &mut Vec<&'a Policy>) -> Result<(), AllocError>
    ensures { OnOk result (kept.lent all.new.items ≡ kept.lent all.old.items ++ policy_view policy.now ∷ []) }
{
    all.push(policy)?;
    Ok(())
}

/// Whether each of the policies is kept, in order.
pub(crate) fn are_kept(
    alloc: Global,
    policies: &[&Policy],
    read: &[&Policy],
) -> Result<bool, AllocError>
    ensures { IfOk result (λ b. b ≡ kept.are_kept (kept.lent policies.now) (kept.lent read.now)) }
{
    if policies.len() == read.len() {
        are_as_many_kept(alloc, policies, read)
    } else {
        Ok(false)
    }
}

fn are_as_many_kept(
    alloc: Global,
    policies: &[&Policy],
    read: &[&Policy],
) -> Result<bool, AllocError>
    requires { length policies.now ≡ length read.now }
    ensures { IfOk result (λ b. b ≡ kept.are_kept (kept.lent policies.now) (kept.lent read.now)) }
{
    let mut index: usize = 0;
    'policies: for policy in policies {
        if !is_kept(alloc, policy, read[index])? {
            return Ok(false);
        }
        index += 1;
    }
    Ok(true)
}

/// Whether the second policy says what the first says with the entities in its slots, and is called as that is.
pub(crate) fn is_kept(alloc: Global, policy: &Policy, read: &Policy) -> Result<bool, AllocError>
    ensures { IfOk result (λ b. b ≡ kept.is_kept (policy_view policy.now) (policy_view read.now)) }
{
    if says_the_same(alloc, policy, read)? {
        goes_by(alloc, policy, read)
    } else {
        Ok(false)
    }
}

// Whether the policies say the same, the first with the entities in its slots.
fn says_the_same(alloc: Global, policy: &Policy, read: &Policy) -> Result<bool, AllocError>
    ensures { IfOk result (λ b. b ≡ say_the_same (placed_view (policy_view policy.now)) (policy_view read.now)) }
{
    let placed = placed_policy(alloc, policy)?;
    let same = say_the_same(&placed, read);
    drop(placed);
    Ok(same)
}

/// The policy's annotation `id`, if it has one.
pub fn annotated_id(policy: &Policy) -> Option<&str>
    ensures { option_copied result ≡ kept.annotated (policy_view policy.now) }
{
    match policy.annotations_rc().0.get("id") {
        Some(name) => Some(name.as_str()),
        None => None,
    }
}
