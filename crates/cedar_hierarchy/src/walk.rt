//! The walk from an entity to all that parents lead to.
ghost use Rattle.std.specs.Prelude.{◌≡◌, IfOk, OnOk, map};
ghost use Rattle.cedar_names.specs.Names.{uid_name};
ghost use Rattle.cedar_hierarchy.specs.Paths.{AreLedTo, ArePartOf};
ghost use Rattle.cedar_hierarchy.specs.Walks.{marked, marked_each};
ghost use Rattle.cedar_hierarchy.specs.Listed.{listed_parents, HoldsTheSame};

use crate::parents::{ParentMap, copy_uid, list_uids, parents_in};
use cedar_layers::expressions::EntityUID;
use std::alloc::{AllocError, Global};
use std::collections::BTreeSet;

// All that parents lead to from the entity of this uid, of which some are known, with all that parents lead to from
// these: each other uid is marked once, and its parents are looked at once. What was marked stands in `found`, behind
// what is known, in the order in which it was found, and `reached` has the same: that is what is asked in `mark`.
pub(crate) fn led_to(
    alloc: Global,
    parents: &ParentMap,
    known: &BTreeSet<EntityUID>,
    uid: &EntityUID,
) -> Result<BTreeSet<EntityUID>, AllocError>
    requires { ArePartOf (listed_parents parents.now.entries) (uid_name uid.now) (map uid_name known.now.keys) }
    ensures { IfOk result (λ s.
        AreLedTo (listed_parents parents.now.entries) (uid_name uid.now) (map uid_name s.keys)) }
{
    let mut reached = same(known)?;
    let mut found = list_uids(alloc, known)?;
    mark_parents(&mut reached, &mut found, parents, uid)?;
    let mut done = known.len();
    'walk: while done < found.len() {
        let next = copy_uid(&found[done])?;
        mark_parents(&mut reached, &mut found, parents, &next)?;
        done += 1;
    }
    Ok(reached)
}

// The same, where nothing is known.
pub(crate) fn all_led_to(
    alloc: Global,
    parents: &ParentMap,
    uid: &EntityUID,
) -> Result<BTreeSet<EntityUID>, AllocError>
    ensures { IfOk result (λ s.
        AreLedTo (listed_parents parents.now.entries) (uid_name uid.now) (map uid_name s.keys)) }
{
    let none: BTreeSet<EntityUID> = BTreeSet::new(alloc);
    led_to(alloc, parents, &none, uid)
}

// The same uids, whose texts are shared.
fn same(uids: &BTreeSet<EntityUID>) -> Result<BTreeSet<EntityUID>, AllocError>
    ensures { IfOk result (λ s. map uid_name s.keys ≡ map uid_name uids.now.keys) }
{
    Ok(uids.clone()?)
}

// Marks the parents of this uid.
fn mark_parents(
    reached: &mut BTreeSet<EntityUID>,
    found: &mut Vec<EntityUID>,
    parents: &ParentMap,
    uid: &EntityUID,
) -> Result<(), AllocError>
    requires { HoldsTheSame reached.old.keys found.old.items }
    ensures found { OnOk result (map uid_name found.new.items ≡
        marked_each (listed_parents parents.now.entries (uid_name uid.now)) (map uid_name found.old.items)) }
    ensures reached { OnOk result (HoldsTheSame reached.new.keys found.new.items) }
{
    match parents_in(parents, uid) {
        Some(own) => mark_each(reached, found, own),
        None => Ok(()),
    }
}

// Marks each of these uids.
fn mark_each(
    reached: &mut BTreeSet<EntityUID>,
    found: &mut Vec<EntityUID>,
    uids: &Vec<EntityUID>,
) -> Result<(), AllocError>
    requires { HoldsTheSame reached.old.keys found.old.items }
    ensures found { OnOk result (map uid_name found.new.items ≡
        marked_each (map uid_name uids.now.items) (map uid_name found.old.items)) }
    ensures reached { OnOk result (HoldsTheSame reached.new.keys found.new.items) }
{
    'uids: for uid in uids {
        mark(reached, found, uid)?;
    }
    Ok(())
}

// Puts the uid behind those that were found, unless it is one of them.
fn mark(
    reached: &mut BTreeSet<EntityUID>,
    found: &mut Vec<EntityUID>,
    uid: &EntityUID,
) -> Result<(), AllocError>
    requires { HoldsTheSame reached.old.keys found.old.items }
    ensures found { OnOk result (map uid_name found.new.items ≡
        marked (uid_name uid.now) (map uid_name found.old.items)) }
    ensures reached { OnOk result (HoldsTheSame reached.new.keys found.new.items) }
{
    if reached.insert(copy_uid(uid)?)? {
        found.push(copy_uid(uid)?)?;
    }
    Ok(())
}
