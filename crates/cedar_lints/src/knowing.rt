//! What is known: the entities and types that a store has, and those that a request names.
ghost use Rattle.std.specs.Prelude.{◌≡◌, map, IfOk, OnOk};
ghost use Rattle.cedar_names.specs.Names.{type_text, uid_name};
ghost use Rattle.cedar_lints.specs.Knowing.{has_entity, has_type, with_entity, with_type};

use cedar_layers::policies::{Entities, Entity};
use cedar_names::{EntityType, EntityUID};
use std::alloc::{AllocError, Global};
use std::collections::BTreeSet;

/// The entities and types that are known.
#[derive(Drop)]
pub struct Known {
    types: BTreeSet<EntityType>,
    entities: BTreeSet<EntityUID>,
}

impl Known {
    ghost use Rattle.cedar_layers.specs.Stores.{entity_view};
    ghost use Rattle.cedar_lints.specs.Knowing.{IsKnownOf, known_view, nothing_known, with_known, with_each};

    // Nothing is known.
    fn new(alloc: Global) -> Known
        ensures { known_view result ≡ nothing_known }
    {
        let types: BTreeSet<EntityType> = BTreeSet::new(alloc);
        let entities: BTreeSet<EntityUID> = BTreeSet::new(alloc);
        Known { types, entities }
    }

    /// What the store has: its entities and their ancestors, and their types. Refuses only if out of memory.
    pub fn of(alloc: Global, entities: &Entities) -> Result<Known, AllocError>
        ensures { IfOk result (λ k. IsKnownOf entities.now (known_view k)) }
    {
        let listed = entities.by_uid(alloc)?;
        let mut known = Known::new(alloc);
        'entities: for (uid, entity) in &listed {
            known.add_stored(uid, entity)?;
        }
        Ok(known)
    }

    // The entity and its ancestors are known too.
    fn add_stored(&mut self, uid: &EntityUID, entity: &Entity) -> Result<(), AllocError>
        ensures { OnOk result (known_view self.new ≡ with_each (with_known (known_view self.old) (uid_name uid.now))
            (entity_view entity.now).ancestors) }
    {
        self.add(uid)?;
        self.add_each(entity.ancestors())?;
        Ok(())
    }

    fn add_each(&mut self, uids: &BTreeSet<EntityUID>) -> Result<(), AllocError>
        ensures { OnOk result (known_view self.new ≡ with_each (known_view self.old) (map uid_name uids.now.keys)) }
    {
        'uids: for uid in uids {
            self.add(uid)?;
        }
        Ok(())
    }

    /// The entity is known too, and its type: as one that a request names. Refuses only if out of memory.
    pub fn add(&mut self, uid: &EntityUID) -> Result<(), AllocError>
        ensures { OnOk result (known_view self.new ≡ with_known (known_view self.old) (uid_name uid.now)) }
    {
        put_type(&mut self.types, uid.entity_type())?;
        put_entity(&mut self.entities, uid)?;
        Ok(())
    }

    // Whether the type is known.
    pub(crate) fn has_type(&self, ty: &EntityType) -> bool
        ensures { result ≡ (known_view self.now).types (type_text ty.now) }
    {
        self.types.contains(ty)
    }

    // Whether the entity is known.
    pub(crate) fn has_entity(&self, uid: &EntityUID) -> bool
        ensures { result ≡ (known_view self.now).entities (uid_name uid.now) }
    {
        self.entities.contains(uid)
    }
}

fn put_type(types: &mut BTreeSet<EntityType>, ty: &EntityType) -> Result<(), AllocError>
    ensures { OnOk result (has_type types.new.keys ≡ with_type (has_type types.old.keys) (type_text ty.now)) }
{
    types.insert(copied_type(ty)?)?;
    Ok(())
}

fn put_entity(entities: &mut BTreeSet<EntityUID>, uid: &EntityUID) -> Result<(), AllocError>
    ensures { OnOk result
        (has_entity entities.new.keys ≡ with_entity (has_entity entities.old.keys) (uid_name uid.now)) }
{
    entities.insert(copied_uid(uid)?)?;
    Ok(())
}

// The same type, whose text is shared.
fn copied_type(ty: &EntityType) -> Result<EntityType, AllocError>
    ensures { IfOk result (λ t. type_text t ≡ type_text ty.now) }
{
    Ok(ty.clone()?)
}

/// The same uid, whose texts are shared.
pub(crate) fn copied_uid(uid: &EntityUID) -> Result<EntityUID, AllocError>
    ensures { IfOk result (λ u. uid_name u ≡ uid_name uid.now) }
{
    Ok(uid.clone()?)
}
