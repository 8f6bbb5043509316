//! Where a name stands that is refused.
ghost use Rattle.std.specs.Prelude.{◌≡◌};
ghost use Rattle.cedar_policy_set_reader.specs.PolicySets.{set_view};
ghost use Rattle.cedar_policy_json_text.specs.Kept.{IsOwn, IsOfText};
ghost use Rattle.cedar_policy_json_text.specs.Names.{IsShared, first_shared};
ghost use Rattle.std.specs.Prelude.{Some};
ghost use Rattle.cedar_layers.specs.Policies.{policy_id_text};

use crate::errors::PolicyTextError;
use crate::names::name_of;
use cedar_layers::policies::{Policy, PolicyID};
use cedar_policy_json_reader::{JsonPath, PathStep};
use cedar_policy_set_reader::ReadPolicies;
use std::alloc::{AllocError, Global};
use std::rc::RcStr;

/// The refusal of the first policy of the set, or else template, that has this name of another one.
#[cold]
pub(crate) fn shared_name_at(alloc: Global, set: &ReadPolicies, name: PolicyID) -> PolicyTextError
    ensures shared { first_shared (set_view set.now) ≡ Some (policy_id_text name)
        → IsShared (set_view set.now) result }
    ensures own { IsOwn result }
{
    match sharer(alloc, set, &name) {
        Ok((id, path)) => PolicyTextError::SharedName { path, id, name },
        Err(error) => {
            drop(name);
            PolicyTextError::Memory(error)
        }
    }
}

/// The refusal of a policy or template, in this part of the JSON, whose id is lost beside its annotation `id`.
#[cold]
pub(crate) fn another_name(alloc: Global, part: &str, policy: &Policy) -> PolicyTextError
    ensures { IsOfText result }
{
    match with_name(alloc, part, policy) {
        Ok((id, (path, name))) => PolicyTextError::AnotherName { path, id, name },
        Err(error) => PolicyTextError::Memory(error),
    }
}

fn with_name(
    alloc: Global,
    part: &str,
    policy: &Policy,
) -> Result<(PolicyID, (JsonPath, PolicyID)), AllocError> {
    let name = name_of(alloc, policy)?;
    let (id, path) = place_of(alloc, part, policy)?;
    Ok((id, (path, name)))
}

// The id of the policy that has the name of another, and where its annotation `id` stands.
fn sharer(
    alloc: Global,
    set: &ReadPolicies,
    name: &PolicyID,
) -> Result<(PolicyID, JsonPath), AllocError> {
    'policies: for policy in set.policies.policies() {
        if has_other_name(alloc, policy, name)? {
            return place_of(alloc, "staticPolicies", policy);
        }
    }
    'templates: for template in set.templates.as_slice() {
        if has_other_name(alloc, template, name)? {
            return place_of(alloc, "templates", template);
        }
    }
    Err(AllocError)
}

// Whether the policy has this name, and not for its id.
fn has_other_name(alloc: Global, policy: &Policy, name: &PolicyID) -> Result<bool, AllocError> {
    let own = name_of(alloc, policy)?;
    let is_other = own == *name && own != *policy.id();
    drop(own);
    Ok(is_other)
}

// The policy's id, and where its annotation `id` stands.
fn place_of(
    alloc: Global,
    part: &str,
    policy: &Policy,
) -> Result<(PolicyID, JsonPath), AllocError> {
    let id: PolicyID = policy.id().clone()?;
    let text = id.to_string(alloc)?;
    let mut steps: Vec<PathStep> = Vec::new(alloc);
    put_key(alloc, part, &mut steps)?;
    put_key(alloc, text.as_str(), &mut steps)?;
    put_key(alloc, "annotations", &mut steps)?;
    put_key(alloc, "id", &mut steps)?;
    Ok((id, JsonPath { steps }))
}

fn put_key(alloc: Global, key: &str, steps: &mut Vec<PathStep>) -> Result<(), AllocError> {
    let key = RcStr::from_str(alloc, key)?;
    steps.push(PathStep::Key(key))?;
    Ok(())
}
