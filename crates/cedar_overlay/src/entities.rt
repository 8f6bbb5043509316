//! Whole entities that a request brings beside those of a store.
ghost use Rattle.std.specs.Prelude.{◌≡◌, map, IfOk, OnOk, IfErr};
ghost use Rattle.std.specs.List.{AllZip};
ghost use Rattle.cedar_names.specs.Names.{uid_name};
ghost use Rattle.cedar_layers.specs.Stores.{store_view, stored_entity};
ghost use Rattle.cedar_hierarchy.specs.Ancestry.{parents_of, recorded};
ghost use Rattle.cedar_hierarchy.specs.Sorting.{named_in};
ghost use Rattle.cedar_overlay.specs.Bases.{base_entities};
ghost use Rattle.cedar_overlay.specs.Added.{AreAddable, IsRefusedOf};
ghost use Rattle.cedar_overlay.specs.Adding.{IsPlaced, IsWidened, SaysCycle, SaysAsMuch, with_names, with_recorded};

use crate::base::Base;
use crate::checks::check_each;
use crate::entities_error::EntitiesError;
use crate::uids::{copied_uids, put_uids};
use cedar_fallible::add_last;
use cedar_hierarchy::{ClosureError, close_entities};
use cedar_layers::expressions::EntityUID;
use cedar_layers::policies::{Entities, Entity};
use std::alloc::{AllocError, Global};
use std::collections::BTreeSet;

impl Base {
    ghost use Rattle.std.specs.Prelude.{◌↔◌, true};
    ghost use Rattle.cedar_model.specs.Terms.{EntityName};
    ghost use Rattle.cedar_model.specs.Settings.{is_among};
    ghost use Rattle.cedar_layers.specs.Stores.{last_of_each_name};
    ghost use Rattle.cedar_hierarchy.specs.Paths.{Leads};
    ghost use Rattle.cedar_hierarchy.specs.Sorting.{named_of};
    ghost use Rattle.cedar_overlay.specs.Added.{IsAddedTo, HasAncestor, RecordsAll};

    /// The store that has these entities beside those of the base. Their recorded ancestors are taken to be their
    /// parents, each of which is stored or brought too: in the store, each records all that parents lead to, and what
    /// the stored ones among these record. Apart from its ancestors each is the one that was brought, its uid,
    /// attributes and tags whole; each stored entity stays as it is, and the store is partial if the base's is. The
    /// base's entities are shared: what this costs goes by what is brought.
    ///
    /// First it refuses, in the order of `brought`, an entity that is stored already (`AlreadyStored`), also where the
    /// request is to win over stored attributes (that is `with_attributes`), or that stands there twice (`Repeated`).
    /// Then, in that order, one with a parent that is neither stored nor brought (`NoParent`, with the first parent in
    /// the order of names), or with parents while a stored entity records it as an ancestor: that one would get more
    /// (`IsAnAncestor`). Then one whose parents lead back to it (`Cycle`). Else it refuses only if out of memory.
    pub fn with_entities(
        &self,
        alloc: Global,
        brought: Vec<Entity>,
    ) -> Result<Entities, EntitiesError>
        ensures entities { IfOk result (λ s. (n : EntityName) → IsAddedTo (stored_entity (base_entities self.now) n)
            (last_of_each_name brought.items n) (stored_entity s n)) }
        ensures ancestors { IfOk result (λ s. (n m : EntityName) → named_of brought.items n ≡ true →
            (is_among m (recorded (stored_entity s n)) ≡ true)
            ↔ HasAncestor (parents_of brought.items) (stored_entity (base_entities self.now)) n m) }
        ensures closed { IfOk result (λ s. RecordsAll (stored_entity (base_entities self.now))
            → RecordsAll (stored_entity s)) }
        ensures partial { IfOk result (λ s. (store_view s).is_partial ≡
            (store_view (base_entities self.now)).is_partial) }
        ensures accepted { OnOk result (AreAddable (stored_entity (base_entities self.now)) brought.items) }
        ensures acyclic { OnOk result ((n : EntityName) → ¬ Leads (parents_of brought.items) n n) }
        ensures refused { IfErr result (IsRefusedOf (stored_entity (base_entities self.now)) brought.items) }
    {
        match placed_each(alloc, self, brought) {
            Ok(placed) => Ok(self.entities().over(alloc, placed)?),
            Err(error) => Err(error),
        }
    }
}

// These entities with all their ancestors, if they may be added to the base's store.
fn placed_each(
    alloc: Global,
    base: &Base,
    brought: Vec<Entity>,
) -> Result<Vec<Entity>, EntitiesError>
    ensures placed { IfOk result (λ v. AllZip (IsPlaced (parents_of brought.items)
        (stored_entity (base_entities base.now))) brought.items v.items) }
    ensures accepted { OnOk result (AreAddable (stored_entity (base_entities base.now)) brought.items) }
    ensures refused { IfErr result (IsRefusedOf (stored_entity (base_entities base.now)) brought.items) }
{
    match check_each(alloc, base, &brought) {
        Ok(()) => closed_each(alloc, base.entities(), brought),
        Err(error) => {
            drop(brought);
            Err(error)
        }
    }
}

// These entities with all their ancestors, unless parents lead back.
fn closed_each(
    alloc: Global,
    entities: &Entities,
    brought: Vec<Entity>,
) -> Result<Vec<Entity>, EntitiesError>
    ensures placed { IfOk result (λ v. AllZip (IsPlaced (parents_of brought.items) (stored_entity entities.now))
        brought.items v.items) }
    ensures refused { IfErr result (SaysCycle (parents_of brought.items)) }
{
    match close_entities(alloc, brought) {
        Ok(closed) => Ok(widened_each(alloc, entities, closed)?),
        Err(error) => Err(of_closure(error)),
    }
}

#[cold]
fn of_closure(error: ClosureError) -> EntitiesError
    ensures { SaysAsMuch error result }
{
    match error {
        ClosureError::Memory(error) => EntitiesError::Memory(error),
        ClosureError::Cycle(uid) => EntitiesError::Cycle(uid),
    }
}

// These entities, each with what the stored ones of its ancestors record.
fn widened_each(
    alloc: Global,
    entities: &Entities,
    closed: Vec<Entity>,
) -> Result<Vec<Entity>, AllocError>
    ensures { IfOk result (λ v. AllZip (IsWidened (stored_entity entities.now)) closed.items v.items) }
{
    let mut each: Vec<Entity> = Vec::new(alloc);
    'entities: for entity in closed {
        let wider = widened(entities, entity)?;
        add_last(&mut each, wider)?;
    }
    Ok(each)
}

// The entity with what the stored ones of its ancestors record.
fn widened(entities: &Entities, entity: Entity) -> Result<Entity, AllocError>
    ensures { IfOk result (IsWidened (stored_entity entities.now) entity) }
{
    match with_recorded(entities, entity.ancestors()) {
        Ok(ancestors) => Ok(entity.with_ancestors(ancestors)),
        Err(error) => {
            drop(entity);
            Err(error)
        }
    }
}

// These uids, with what the stored ones of them record.
fn with_recorded(
    entities: &Entities,
    uids: &BTreeSet<EntityUID>,
) -> Result<BTreeSet<EntityUID>, AllocError>
    ensures { IfOk result (λ s. named_in s.keys ≡ with_recorded (named_in uids.now.keys) (stored_entity entities.now)
        (map uid_name uids.now.keys)) }
{
    let mut all = copied_uids(uids)?;
    'uids: for uid in uids {
        put_recorded(&mut all, entities, uid)?;
    }
    Ok(all)
}

// Puts what the entity of this uid records among these uids, if it is stored.
fn put_recorded(
    all: &mut BTreeSet<EntityUID>,
    entities: &Entities,
    uid: &EntityUID,
) -> Result<(), AllocError>
    ensures { OnOk result (named_in all.new.keys ≡ with_names (named_in all.old.keys)
        (recorded (stored_entity entities.now (uid_name uid.now)))) }
{
    match entities.get(uid) {
        Some(stored) => {
            put_uids(all, stored.ancestors())?;
            Ok(())
        }
        None => Ok(()),
    }
}
