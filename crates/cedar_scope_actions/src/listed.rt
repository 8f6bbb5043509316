//! The candidates of searches.
ghost use Rattle.std.specs.Prelude.{◌≡◌, ◌||◌, ◌++◌, ◌∷◌, [], IfOk, OnOk, is_some, map};
ghost use Rattle.std.specs.List.{IsDistinct};
ghost use Rattle.cedar_model.specs.Terms.{EntityName};
ghost use Rattle.cedar_model.specs.Outcomes.{entity_eq};
ghost use Rattle.cedar_model.specs.Settings.{is_among};
ghost use Rattle.cedar_names.specs.Names.{uid_name};
ghost use Rattle.cedar_names.specs.Order.{is_tied};
ghost use Rattle.cedar_layers.specs.PolicySets.{policies_view};
ghost use Rattle.cedar_layers.specs.Stores.{stored_entity, shown};
ghost use Rattle.cedar_scope_actions.specs.Named.{is_named_action};

use crate::named::{add, named_actions};
use cedar_fallible::add_last;
use cedar_layers::policies::{Entities, Entity, PolicySet};
use cedar_names::EntityUID;
use std::alloc::{AllocError, Global};
use std::collections::{BTreeMap, BTreeSet};

/// The candidates of searches: the entities of the store and the actions that the scopes of these policies name
/// (`named_actions`), each once, in the order of their names. Of any type: a search answers those of the type that is
/// sought. Refuses only if out of memory.
pub fn candidates(
    alloc: Global,
    policies: &PolicySet,
    entities: &Entities,
) -> Result<Vec<EntityUID>, AllocError>
    ensures has { IfOk result (λ us. (n : EntityName) → is_among n (map uid_name us.items) ≡
        (is_named_action (policies_view policies.now) n || is_some (stored_entity entities.now n))) }
    ensures once { IfOk result (λ us. IsDistinct entity_eq (map uid_name us.items)) }
{
    let mut uids = named_actions(alloc, policies)?;
    add_stored(alloc, &mut uids, entities)?;
    let listed = list_of(alloc, uids)?;
    Ok(listed)
}

fn add_stored(
    alloc: Global,
    uids: &mut BTreeSet<EntityUID>,
    entities: &Entities,
) -> Result<(), AllocError>
    ensures { OnOk result ((n : EntityName) → is_among n (map uid_name uids.new.keys) ≡
        (is_among n (map uid_name uids.old.keys) || is_some (stored_entity entities.now n))) }
{
    let stored = entities.by_uid(alloc)?;
    add_keys(uids, &stored)
}

fn add_keys(
    uids: &mut BTreeSet<EntityUID>,
    stored: &BTreeMap<EntityUID, &Entity>,
) -> Result<(), AllocError>
    ensures { OnOk result ((n : EntityName) → is_among n (map uid_name uids.new.keys) ≡
        (is_among n (map uid_name uids.old.keys) || is_some (shown stored.now.entries n))) }
{
    'uids: for uid in stored.keys() {
        add(uids, uid)?;
    }
    Ok(())
}

// The uids of a set, in its order.
fn list_of(alloc: Global, uids: BTreeSet<EntityUID>) -> Result<Vec<EntityUID>, AllocError>
    ensures names { IfOk result (λ us. map uid_name us.items ≡ map uid_name uids.keys) }
    ensures tied { IfOk result (λ us. IsDistinct is_tied uids.keys) }
{
    let mut list: Vec<EntityUID> = Vec::new(alloc);
    'uids: for uid in uids {
        add_last(&mut list, uid)?;
    }
    Ok(list)
}
