//! Partial stores, of entities of which there may be more.
ghost use Rattle.std.specs.Prelude.{◌≡◌, ◌↔◌, true, map, if◌then◌else◌, [], ◌∷◌, ◌++◌, IfOk, OnOk, IfErr, IfSome};
ghost use Rattle.cedar_model.specs.Terms.{EntityName};
ghost use Rattle.cedar_model.specs.Settings.{is_among};
ghost use Rattle.cedar_names.specs.Names.{uid_name};
ghost use Rattle.cedar_layers.specs.Stores.{last_of_each_name, stored_entity, store_view};
ghost use Rattle.cedar_layers.specs.Stores.{entity_name, entity_ancestors};
ghost use Rattle.cedar_hierarchy.specs.Ancestry.{parents_of, NamesACycle};
ghost use Rattle.cedar_hierarchy.specs.LeftOut.{IsKeptOrLeftOut, IsLeftOut};
ghost use Rattle.cedar_hierarchy.specs.Paths.{Leads, AreLedTo};
ghost use Rattle.cedar_hierarchy.specs.Sorting.{NameTest, named_in, named_of, with_name, no_name, are_all_named};
ghost use Rattle.cedar_hierarchy.specs.Sorting.{has_all_ancestors, wholes, names_of_others};

use crate::closing::close_each;
use crate::error::ClosureError;
use crate::parents::{copy_uid, recorded_parents};
use cedar_fallible::add_last;
use cedar_layers::expressions::EntityUID;
use cedar_layers::policies::{Entities, Entity};
use std::alloc::{AllocError, Global};
use std::collections::BTreeSet;

/// What is made of entities of which there may be more.
#[derive(Debug, Drop)]
pub struct PartialClosure {
    /// A partial store of the entities whose ancestors are all among those that were handed in.
    pub entities: Entities,
    /// The uids of the others, in their order.
    pub left_out: BTreeSet<EntityUID>,
}

/// The partial store of those of these entities whose ancestors are all known, and the uids of those that it leaves
/// out. Recorded ancestors are taken to be parents, as in `close_hierarchy`, and of entities of one uid the last
/// counts. An entity is left out exactly where a parent that it leads to, in one step or more, is not among these
/// entities: what that parent leads to is not known, so a store that recorded the entity could be wrong of it. Each
/// other entity is recorded, its uid, attributes and tags whole, with all that parents lead to as its ancestors; one
/// that is handed in without parents has none. Refuses with `Cycle` where an entity's parents lead back to it, be it
/// left out or not, and names one such entity; else only if out of memory. It takes the time of `close_hierarchy`, and
/// looks each ancestor up once more.
pub fn close_hierarchy_partially(
    alloc: Global,
    entities: Vec<Entity>,
) -> Result<PartialClosure, ClosureError>
    ensures entities { IfOk result (λ c. (n : EntityName) →
        IsKeptOrLeftOut entities.items n (last_of_each_name entities.items n) (stored_entity c.entities n)) }
    ensures ancestors { IfOk result (λ c. (n : EntityName) → IfSome (stored_entity c.entities n)
        (λ e. AreLedTo (parents_of entities.items) n (map uid_name (entity_ancestors e)))) }
    ensures partial { IfOk result (λ c. (store_view c.entities).is_partial ≡ true) }
    ensures left_out { IfOk result (λ c. (n : EntityName) →
        (is_among n (map uid_name c.left_out.keys) ≡ true) ↔ IsLeftOut entities.items n) }
    ensures acyclic { OnOk result ((n : EntityName) → ¬ Leads (parents_of entities.items) n n) }
    ensures cycle { IfErr result (NamesACycle (parents_of entities.items)) }
{
    let parents = recorded_parents(alloc, &entities)?;
    let uids = uids_of(alloc, &entities)?;
    let each = close_each(alloc, &parents, entities)?;
    Ok(sort_out_open(alloc, &uids, each)?)
}

// The uids of these entities.
fn uids_of(alloc: Global, entities: &Vec<Entity>) -> Result<BTreeSet<EntityUID>, AllocError>
    ensures { IfOk result (λ s. named_in s.keys ≡ named_of entities.now.items) }
{
    let mut uids: BTreeSet<EntityUID> = BTreeSet::new(alloc);
    'entities: for entity in entities {
        add(&mut uids, entity.uid())?;
    }
    Ok(uids)
}

// Puts the uid into the set.
fn add(uids: &mut BTreeSet<EntityUID>, uid: &EntityUID) -> Result<(), AllocError>
    ensures { OnOk result (named_in uids.new.keys ≡ with_name (named_in uids.old.keys) (uid_name uid.now)) }
{
    uids.insert(copy_uid(uid)?)?;
    Ok(())
}

// Those of these entities whose recorded ancestors are all among the uids, and the uids of the others.
fn sort_out_open(
    alloc: Global,
    uids: &BTreeSet<EntityUID>,
    each: Vec<Entity>,
) -> Result<PartialClosure, AllocError>
    ensures entities { IfOk result (λ c. stored_entity c.entities ≡
        last_of_each_name (wholes (named_in uids.now.keys) [] each.items)) }
    ensures partial { IfOk result (λ c. (store_view c.entities).is_partial ≡ true) }
    ensures left_out { IfOk result (λ c. named_in c.left_out.keys ≡
        names_of_others (named_in uids.now.keys) no_name each.items) }
{
    let mut whole: Vec<Entity> = Vec::new(alloc);
    let mut left_out: BTreeSet<EntityUID> = BTreeSet::new(alloc);
    'entities: for entity in each {
        sort(uids, &mut whole, &mut left_out, entity)?;
    }
    let entities = Entities::with(alloc, whole, true)?;
    Ok(PartialClosure { entities, left_out })
}

// Puts the entity behind these where its recorded ancestors are all among the uids, and else its uid among these.
fn sort(
    uids: &BTreeSet<EntityUID>,
    whole: &mut Vec<Entity>,
    left_out: &mut BTreeSet<EntityUID>,
    entity: Entity,
) -> Result<(), AllocError>
    ensures whole { OnOk result (whole.new.items ≡ (if has_all_ancestors (named_in uids.now.keys) entity
        then whole.old.items ++ entity ∷ [] else whole.old.items)) }
    ensures left_out { OnOk result (named_in left_out.new.keys ≡ (if has_all_ancestors (named_in uids.now.keys) entity
        then named_in left_out.old.keys else with_name (named_in left_out.old.keys) (entity_name entity))) }
{
    if has_each(uids, entity.ancestors()) {
        add_last(whole, entity)?;
    } else {
        add(left_out, entity.uid())?;
        drop(entity);
    }
    Ok(())
}

// Whether each of the second is among the first.
fn has_each(uids: &BTreeSet<EntityUID>, others: &BTreeSet<EntityUID>) -> bool
    ensures { result ≡ are_all_named (named_in uids.now.keys) (map uid_name others.now.keys) }
{
    others.is_subset(uids)
}
