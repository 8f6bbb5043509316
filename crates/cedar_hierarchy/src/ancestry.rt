//! The ancestors of all entities, each computed from those of its parents.
ghost use Rattle.std.specs.Prelude.{IfOk, OnOk, IfErr, IfSome, map, option_copied};
ghost use Rattle.cedar_names.specs.Names.{uid_name};
ghost use Rattle.cedar_hierarchy.specs.Paths.{AreLedTo, ArePartOf};
ghost use Rattle.cedar_hierarchy.specs.Ancestry.{NamesACycle};
ghost use Rattle.cedar_hierarchy.specs.Listed.{listed_parents, KnowsAncestors};

use crate::error::ClosureError;
use crate::order::{Order, order_uids};
use crate::parents::{ParentMap, parents_in};
use crate::walk::{all_led_to, led_to};
use cedar_layers::expressions::EntityUID;
use std::alloc::{AllocError, Global};
use std::collections::{BTreeMap, BTreeSet};

/// All that parents lead to, under the uid that they lead from.
pub(crate) type AncestorMap = BTreeMap<EntityUID, BTreeSet<EntityUID>>;

// The ancestors of each uid that the map of parents has, those of parents first. A cycle is refused before any are
// computed, where the order finds one.
pub(crate) fn all_ancestors(alloc: Global, parents: &ParentMap) -> Result<AncestorMap, ClosureError>
    ensures ok { IfOk result (λ m. KnowsAncestors (listed_parents parents.now.entries) m.entries) }
    ensures cycle { IfErr result (NamesACycle (listed_parents parents.now.entries)) }
{
    let Order { uids, cycle } = order_uids(alloc, parents)?;
    if let Some(uid) = cycle {
        refuse_cycle(alloc, parents, uid)?;
    }
    Ok(ancestors_of_each(alloc, parents, uids)?)
}

// Refuses the uid if parents lead back to it.
fn refuse_cycle(alloc: Global, parents: &ParentMap, uid: EntityUID) -> Result<(), ClosureError>
    ensures cycle { IfErr result (NamesACycle (listed_parents parents.now.entries)) }
{
    let reached = all_led_to(alloc, parents, &uid)?;
    if reached.contains(&uid) {
        return Err(ClosureError::Cycle(uid));
    }
    Ok(())
}

// The ancestors of each of these uids.
fn ancestors_of_each(
    alloc: Global,
    parents: &ParentMap,
    uids: Vec<EntityUID>,
) -> Result<AncestorMap, AllocError>
    ensures { IfOk result (λ m. KnowsAncestors (listed_parents parents.now.entries) m.entries) }
{
    let mut known: AncestorMap = BTreeMap::new(alloc);
    'uids: for uid in uids {
        note(alloc, parents, &mut known, uid)?;
    }
    Ok(known)
}

// Puts the ancestors of the uid beside those that are known.
fn note(
    alloc: Global,
    parents: &ParentMap,
    known: &mut AncestorMap,
    uid: EntityUID,
) -> Result<(), AllocError>
    requires { KnowsAncestors (listed_parents parents.now.entries) known.old.entries }
    ensures { OnOk result (KnowsAncestors (listed_parents parents.now.entries) known.new.entries) }
{
    let ancestors = ancestors_by(alloc, parents, known, &uid)?;
    known.insert(uid, ancestors)?;
    Ok(())
}

// The ancestors of the uid, computed from those of one of its parents, where these are known.
fn ancestors_by(
    alloc: Global,
    parents: &ParentMap,
    known: &AncestorMap,
    uid: &EntityUID,
) -> Result<BTreeSet<EntityUID>, AllocError>
    requires { KnowsAncestors (listed_parents parents.now.entries) known.now.entries }
    ensures { IfOk result (λ s.
        AreLedTo (listed_parents parents.now.entries) (uid_name uid.now) (map uid_name s.keys)) }
{
    match known_of_a_parent(parents, known, uid) {
        Some(some) => led_to(alloc, parents, some, uid),
        None => all_led_to(alloc, parents, uid),
    }
}

// The ancestors of one of the uid's parents, the most that are known.
fn known_of_a_parent<'k>(
    parents: &ParentMap,
    known: &'k AncestorMap,
    uid: &EntityUID,
) -> Option<&'k BTreeSet<EntityUID>>
    requires { KnowsAncestors (listed_parents parents.now.entries) known.now.entries }
    ensures { IfSome (option_copied result) (λ s.
        ArePartOf (listed_parents parents.now.entries) (uid_name uid.now) (map uid_name s.keys)) }
{
    match parents_in(parents, uid) {
        Some(own) => {
            let index = position_with_most(known, own);
            if index < own.len() {
                known.get(&own[index])
            } else {
                None
            }
        }
        None => None,
    }
}

// Where the parent stands of which the most ancestors are known: it is looked at first, and most others are among them.
fn position_with_most(known: &AncestorMap, own: &Vec<EntityUID>) -> usize {
    let mut most: usize = 0;
    let mut found: usize = 0;
    for index in 0..own.len() {
        if let Some(ancestors) = known.get(&own[index]) {
            if ancestors.len() > most {
                most = ancestors.len();
                found = index;
            }
        }
    }
    found
}

// Takes the ancestors of the uid out of those that are known; they are computed where they aren't.
pub(crate) fn take_ancestors(
    alloc: Global,
    parents: &ParentMap,
    known: &mut AncestorMap,
    uid: &EntityUID,
) -> Result<BTreeSet<EntityUID>, AllocError>
    requires { KnowsAncestors (listed_parents parents.now.entries) known.old.entries }
    ensures led { IfOk result (λ s.
        AreLedTo (listed_parents parents.now.entries) (uid_name uid.now) (map uid_name s.keys)) }
    ensures known { KnowsAncestors (listed_parents parents.now.entries) known.new.entries }
{
    match known.remove(uid) {
        Some(ancestors) => Ok(ancestors),
        None => all_led_to(alloc, parents, uid),
    }
}
