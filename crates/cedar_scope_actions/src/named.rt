//! The actions that scopes name, each once.
ghost use Rattle.std.specs.Prelude.{◌≡◌, ◌||◌, IfOk, OnOk, map};
ghost use Rattle.cedar_model.specs.Terms.{EntityName};
ghost use Rattle.cedar_model.specs.Outcomes.{entity_eq};
ghost use Rattle.cedar_model.specs.Settings.{is_among};
ghost use Rattle.cedar_names.specs.Names.{uid_name};
ghost use Rattle.cedar_layers.specs.Policies.{policy_view};
ghost use Rattle.cedar_layers.specs.PolicySets.{policies_view};
ghost use Rattle.cedar_layers.specs.Scopes.{names_at};
ghost use Rattle.cedar_scope_actions.specs.Named.{actions_named, is_named_action};

use cedar_layers::policies::{Policy, PolicySet};
use cedar_names::EntityUID;
use std::alloc::{AllocError, Global};
use std::collections::BTreeSet;

/// The actions that the scopes of these policies name: the one of `action == a` or of `action in a`, and each of
/// `action in [a, b]`; in the order of their names, and none twice. Of an action group that a scope names the group
/// alone is answered, not what is in it. Refuses only if out of memory.
pub fn named_actions(alloc: Global, policies: &PolicySet) -> Result<BTreeSet<EntityUID>, AllocError>
    ensures { IfOk result (λ s. (n : EntityName) →
        is_among n (map uid_name s.keys) ≡ is_named_action (policies_view policies.now) n) }
{
    let mut actions: BTreeSet<EntityUID> = BTreeSet::new(alloc);
    'policies: for policy in policies.policies() {
        add_named(alloc, &mut actions, policy)?;
    }
    Ok(actions)
}

// Puts in the actions that the policy's scope names.
fn add_named(
    alloc: Global,
    actions: &mut BTreeSet<EntityUID>,
    policy: &Policy,
) -> Result<(), AllocError>
    ensures { OnOk result ((n : EntityName) → is_among n (map uid_name actions.new.keys) ≡
        (is_among n (map uid_name actions.old.keys) || is_among n (actions_named (policy_view policy.now)))) }
{
    match policy.named_actions(alloc)? {
        Some(uids) => add_each(actions, uids.as_slice()),
        None => Ok(()),
    }
}

fn add_each(actions: &mut BTreeSet<EntityUID>, uids: &[&EntityUID]) -> Result<(), AllocError>
    ensures { OnOk result ((n : EntityName) → is_among n (map uid_name actions.new.keys) ≡
        (is_among n (map uid_name actions.old.keys) || is_among n (names_at uids.now))) }
{
    'uids: for uid in uids {
        add(actions, uid)?;
    }
    Ok(())
}

/// Puts the uid into the set. Refuses only if out of memory.
pub(crate) fn add(actions: &mut BTreeSet<EntityUID>, uid: &EntityUID) -> Result<(), AllocError>
    ensures { OnOk result ((n : EntityName) → is_among n (map uid_name actions.new.keys) ≡
        (is_among n (map uid_name actions.old.keys) || entity_eq n (uid_name uid.now))) }
{
    actions.insert(copy_of(uid)?)?;
    Ok(())
}

// The same uid, whose texts are shared.
fn copy_of(uid: &EntityUID) -> Result<EntityUID, AllocError>
    ensures { IfOk result (λ u. uid_name u ≡ uid_name uid.now) }
{
    Ok(uid.clone()?)
}
