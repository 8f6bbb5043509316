//! Which entities may be added to a store.
ghost use Rattle.std.specs.Prelude.{◌≡◌, map, option_copied, OnOk, IfOk, IfErr};
ghost use Rattle.std.specs.List.{All};
ghost use Rattle.cedar_names.specs.Names.{uid_name};
ghost use Rattle.cedar_layers.specs.Stores.{stored_entity};
ghost use Rattle.cedar_hierarchy.specs.Sorting.{named_in, named_of, with_name};
ghost use Rattle.cedar_overlay.specs.Bases.{base_entities};
ghost use Rattle.cedar_overlay.specs.Added.{is_there, AreAddable, IsRefusedOf};
ghost use Rattle.cedar_overlay.specs.Adding.{IsNew, IsNotNew, AreNew, HasItsPlace, HasNoPlace, OneHasNoPlace};
ghost use Rattle.cedar_overlay.specs.Adding.{IsApart, IsRecorded, IsNotThere};

use crate::base::Base;
use crate::entities_error::EntitiesError;
use crate::uids::{copied_uid, put_uid};
use cedar_layers::expressions::EntityUID;
use cedar_layers::policies::{Entities, Entity};
use std::alloc::Global;
use std::collections::BTreeSet;

// Refuses these entities, unless they may be added to the base's store, but for cycles.
pub(crate) fn check_each(
    alloc: Global,
    base: &Base,
    brought: &Vec<Entity>,
) -> Result<(), EntitiesError>
    ensures accepted { OnOk result (AreAddable (stored_entity (base_entities base.now)) brought.now.items) }
    ensures refused { IfErr result (IsRefusedOf (stored_entity (base_entities base.now)) brought.now.items) }
{
    match names_of_new(alloc, base.entities(), brought) {
        Ok(names) => check_places(base, &names, brought),
        Err(error) => Err(error),
    }
}

// The uids of these entities, of which none is stored and each stands once.
fn names_of_new(
    alloc: Global,
    entities: &Entities,
    brought: &Vec<Entity>,
) -> Result<BTreeSet<EntityUID>, EntitiesError>
    ensures names { IfOk result (λ s. named_in s.keys ≡ named_of brought.now.items) }
    ensures new { OnOk result (AreNew (stored_entity entities.now) brought.now.items) }
    ensures refused { IfErr result (IsRefusedOf (stored_entity entities.now) brought.now.items) }
{
    let mut names: BTreeSet<EntityUID> = BTreeSet::new(alloc);
    'brought: for entity in brought {
        match put_new(&mut names, entities, entity.uid()) {
            Ok(()) => {}
            Err(error) => return Err(error),
        }
    }
    Ok(names)
}

// Puts the uid among these, unless it is stored or stands there.
fn put_new(
    names: &mut BTreeSet<EntityUID>,
    entities: &Entities,
    uid: &EntityUID,
) -> Result<(), EntitiesError>
    ensures names { OnOk result (named_in names.new.keys ≡ with_name (named_in names.old.keys) (uid_name uid.now)) }
    ensures new { OnOk result (IsNew (stored_entity entities.now) (named_in names.old.keys) (uid_name uid.now)) }
    ensures refused { IfErr result (IsNotNew (stored_entity entities.now) (named_in names.old.keys)
        (uid_name uid.now)) }
{
    match entities.get(uid) {
        Some(_) => Err(EntitiesError::AlreadyStored(copied_uid(uid)?)),
        None => {
            if put_uid(names, uid)? {
                Ok(())
            } else {
                Err(EntitiesError::Repeated(copied_uid(uid)?))
            }
        }
    }
}

// Refuses these entities, of which these are the names, unless each has its place.
fn check_places(
    base: &Base,
    names: &BTreeSet<EntityUID>,
    brought: &Vec<Entity>,
) -> Result<(), EntitiesError>
    ensures placed { OnOk result (All (HasItsPlace (stored_entity (base_entities base.now)) (named_in names.now.keys))
        brought.now.items) }
    ensures refused { IfErr result (OneHasNoPlace (stored_entity (base_entities base.now)) (named_in names.now.keys)
        brought.now.items) }
{
    'brought: for entity in brought {
        match check_place(base, names, entity) {
            Ok(()) => {}
            Err(error) => return Err(error),
        }
    }
    Ok(())
}

// Refuses the entity, unless each parent is there, and no stored entity records it where it has parents.
fn check_place(
    base: &Base,
    names: &BTreeSet<EntityUID>,
    entity: &Entity,
) -> Result<(), EntitiesError>
    ensures placed { OnOk result (HasItsPlace (stored_entity (base_entities base.now)) (named_in names.now.keys)
        entity.now) }
    ensures refused { IfErr result (HasNoPlace (stored_entity (base_entities base.now)) (named_in names.now.keys)
        entity.now) }
{
    match not_there(base.entities(), names, entity.ancestors()) {
        Some(parent) => {
            let uid = copied_uid(entity.uid())?;
            Err(EntitiesError::NoParent(uid, copied_uid(parent)?))
        }
        None => check_apart(base, entity),
    }
}

// Refuses the entity where it has parents and a stored one records it.
fn check_apart(base: &Base, entity: &Entity) -> Result<(), EntitiesError>
    ensures apart { OnOk result (IsApart (stored_entity (base_entities base.now)) entity.now) }
    ensures refused { IfErr result (IsRecorded (stored_entity (base_entities base.now)) entity.now) }
{
    if entity.ancestors().is_empty() {
        Ok(())
    } else {
        match base.recorder(entity.uid()) {
            Some(of) => {
                let uid = copied_uid(entity.uid())?;
                Err(EntitiesError::IsAnAncestor(uid, copied_uid(of)?))
            }
            None => Ok(()),
        }
    }
}

// The first of these uids that is neither stored nor among these names.
fn not_there<'u>(
    entities: &Entities,
    names: &BTreeSet<EntityUID>,
    uids: &'u BTreeSet<EntityUID>,
) -> Option<&'u EntityUID>
    ensures { IsNotThere (stored_entity entities.now) (named_in names.now.keys) (map uid_name uids.now.keys)
        (option_copied result) }
{
    'uids: for uid in uids {
        if !is_there(entities, names, uid) {
            return Some(uid);
        }
    }
    None
}

// Whether the uid is stored or among these names.
fn is_there(entities: &Entities, names: &BTreeSet<EntityUID>, uid: &EntityUID) -> bool
    ensures { result ≡ is_there (stored_entity entities.now) (named_in names.now.keys) (uid_name uid.now) }
{
    match entities.get(uid) {
        Some(_) => true,
        None => names.contains(uid),
    }
}
