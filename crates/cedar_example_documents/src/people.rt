//! Who asks, and the stores: one that does not know the documents, and one that has all.
use crate::documents::{Document, add, add_entities};
use cedar_policy_core::ast::{Entity, EntityUID};
use cedar_policy_core::entities::Entities;
use std::alloc::{AllocError, Global};
use std::collections::{BTreeMap, BTreeSet};

/// Users and actions, without the documents: of what it does not have nothing is known.
pub fn people(alloc: Global) -> Result<Entities, AllocError> {
    let mut entities: Vec<Entity> = Vec::new(alloc);
    add_people(alloc, &mut entities)?;
    Entities::with(alloc, entities, true)
}

/// The same, with the documents; there is nothing else.
pub fn all(alloc: Global, documents: &[Document]) -> Result<Entities, AllocError> {
    let mut entities: Vec<Entity> = Vec::new(alloc);
    add_people(alloc, &mut entities)?;
    add_entities(alloc, documents, &mut entities)?;
    Entities::with(alloc, entities, false)
}

fn add_people(alloc: Global, entities: &mut Vec<Entity>) -> Result<(), AllocError> {
    add(entities, named(alloc, "User", "alice", "Group", "staff"))?;
    add(entities, named(alloc, "User", "bob", "Group", "guests"))?;
    add(entities, named(alloc, "User", "carol", "Group", "staff"))?;
    add(entities, named(alloc, "User", "o'hara", "Group", "guests"))?;
    add_actions(alloc, entities)
}

fn add_actions(alloc: Global, entities: &mut Vec<Entity>) -> Result<(), AllocError> {
    add(entities, named(alloc, "Action", "view", "Action", "read"))?;
    add(entities, named(alloc, "Action", "print", "Action", "read"))?;
    add(entities, named(alloc, "Action", "edit", "Action", "write"))?;
    add(entities, named(alloc, "Action", "share", "Action", "write"))
}

// An entity in another.
fn named(
    alloc: Global,
    type_name: &str,
    id: &str,
    group_type: &str,
    group: &str,
) -> Result<Entity, AllocError> {
    let mut groups: BTreeSet<EntityUID> = BTreeSet::new(alloc);
    groups.insert(EntityUID::of(alloc, group_type, group)?)?;
    Entity::from_values(
        alloc,
        EntityUID::of(alloc, type_name, id)?,
        BTreeMap::new(alloc),
        groups,
        BTreeMap::new(alloc),
    )
}
