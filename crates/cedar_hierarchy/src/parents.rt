//! The parents that entities record, under the uids of those entities.
ghost use Rattle.std.specs.Prelude.{◌≡◌, IfOk, OnOk, map, option_copied};
ghost use Rattle.cedar_names.specs.Names.{uid_name};
ghost use Rattle.cedar_hierarchy.specs.Ancestry.{parents_of};
ghost use Rattle.cedar_hierarchy.specs.Listed.{listed_parents, names_or_none, parents_with};

use cedar_layers::expressions::EntityUID;
use cedar_layers::policies::Entity;
use std::alloc::{AllocError, Global};
use std::collections::{BTreeMap, BTreeSet};

/// The parents of each entity, under its uid.
pub(crate) type ParentMap = BTreeMap<EntityUID, Vec<EntityUID>>;

// The parents that these entities record, of those of one uid the last.
pub(crate) fn recorded_parents(
    alloc: Global,
    entities: &Vec<Entity>,
) -> Result<ParentMap, AllocError>
    ensures { IfOk result (λ m. listed_parents m.entries ≡ parents_of entities.now.items) }
{
    let mut parents: ParentMap = BTreeMap::new(alloc);
    'entities: for entity in entities {
        put(alloc, &mut parents, entity)?;
    }
    Ok(parents)
}

// Puts what this entity records into the map, instead of what one of its uid recorded.
fn put(alloc: Global, parents: &mut ParentMap, entity: &Entity) -> Result<(), AllocError>
    ensures { OnOk result (listed_parents parents.new.entries ≡
        parents_with (listed_parents parents.old.entries) entity.now) }
{
    let uid = copy_uid(entity.uid())?;
    let own = list_uids(alloc, entity.ancestors())?;
    parents.insert(uid, own)?;
    Ok(())
}

// The parents that the map lists of this uid, if it has the uid.
pub(crate) fn parents_in<'p>(parents: &'p ParentMap, uid: &EntityUID) -> Option<&'p Vec<EntityUID>>
    ensures { names_or_none (option_copied result) ≡ listed_parents parents.now.entries (uid_name uid.now) }
{
    parents.get(uid)
}

// The uids of a set, in a list.
pub(crate) fn list_uids(
    alloc: Global,
    uids: &BTreeSet<EntityUID>,
) -> Result<Vec<EntityUID>, AllocError>
    ensures { IfOk result (λ v. map uid_name v.items ≡ map uid_name uids.now.keys) }
{
    let mut list: Vec<EntityUID> = Vec::new(alloc);
    'uids: for uid in uids {
        list.push(copy_uid(uid)?)?;
    }
    Ok(list)
}

// The same uid, whose texts are shared.
pub(crate) fn copy_uid(uid: &EntityUID) -> Result<EntityUID, AllocError>
    ensures { IfOk result (λ u. uid_name u ≡ uid_name uid.now) }
{
    Ok(uid.clone()?)
}
