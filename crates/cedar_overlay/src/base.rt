//! A store that entities are added to.
ghost use Rattle.std.specs.Prelude.{◌≡◌, [], ◌∷◌, map, IfOk, OnOk};
ghost use Rattle.cedar_names.specs.Names.{uid_name};
ghost use Rattle.cedar_layers.specs.Stores.{Standing, stored_entity};
ghost use Rattle.cedar_overlay.specs.Recorded.{AreAllMissing, AreAllMissing-prop, AreRecorded, AreRecorded-prop, Notes};

use crate::uids::copied_uid;
use cedar_fallible::beside;
use cedar_layers::expressions::EntityUID;
use cedar_layers::policies::{Entities, Entity};
use std::alloc::{AllocError, Global};
use std::collections::{BTreeMap, BTreeSet};

// The uids that entities record as ancestors and that their store lacks, each with that of an entity that records it.
type Missing = BTreeMap<EntityUID, EntityUID>;

/// A store that entities are added to, and what is asked of all of it when that is done: it is made once, and what
/// `with_entities` costs goes by the few that are brought.
#[derive(Debug)]
pub struct Base {
    entities: Entities,
    missing: Missing,
    ghost every: { AreAllMissing (stored_entity entities) missing.entries } by { AreAllMissing-prop
        (stored_entity entities) missing.entries },
    ghost right: { AreRecorded (stored_entity entities) missing.entries } by { AreRecorded-prop
        (stored_entity entities) missing.entries },
}

impl Drop for Base {
    fn drop(self) {
        let Base {
            entities: _,
            missing: _,
        } = self;
    }
}

impl Base {
    ghost use Rattle.std.specs.Prelude.{true, Some, None, option_copied};
    ghost use Rattle.cedar_model.specs.Settings.{is_among};
    ghost use Rattle.cedar_hierarchy.specs.Ancestry.{recorded};
    ghost use Rattle.cedar_overlay.specs.Bases.{base_entities};
    ghost use Rattle.cedar_overlay.specs.Adding.{IsRecorderOf};

    /// The base with this store. It goes over the entities once, and takes memory for what they record as ancestors
    /// without being stored. Refuses only if out of memory.
    pub fn of(alloc: Global, entities: Entities) -> Result<Base, AllocError>
        ensures { IfOk result (λ b. base_entities b ≡ entities) }
    {
        let missing = missing_of(alloc, &entities);
        let (entities, missing) = beside(entities, missing)?;
        Ok(Base { entities, missing })
    }

    /// The store.
    pub fn entities(&self) -> &Entities
        ensures { result.now ≡ base_entities self.now }
    {
        &self.entities
    }

    // A stored entity that records the entity of this uid, which is not stored, as an ancestor, if there is one.
    pub(crate) fn recorder(&self, uid: &EntityUID) -> Option<&EntityUID>
        ensures { IsRecorderOf (stored_entity (base_entities self.now)) (uid_name uid.now) (option_copied result) }
    {
        self.missing.get(uid)
    }
}

// What the entities of the store record as ancestors without being stored.
fn missing_of(alloc: Global, entities: &Entities) -> Result<Missing, AllocError>
    ensures all { IfOk result (λ m. AreAllMissing (stored_entity entities.now) m.entries) }
    ensures recorded { IfOk result (λ m. AreRecorded (stored_entity entities.now) m.entries) }
{
    let listed = entities.by_uid(alloc)?;
    let mut missing: Missing = BTreeMap::new(alloc);
    'entities: for (uid, entity) in &listed {
        note_each(&mut missing, entities, entity.ancestors(), uid)?;
    }
    Ok(missing)
}

// Notes those of these ancestors of the entity of this uid that the store lacks.
fn note_each(
    missing: &mut Missing,
    entities: &Entities,
    ancestors: &BTreeSet<EntityUID>,
    of: &EntityUID,
) -> Result<(), AllocError>
    ensures { OnOk result (Notes (stored_entity entities.now) missing.old.entries missing.new.entries
        (map uid_name ancestors.now.keys) (uid_name of.now)) }
{
    'ancestors: for ancestor in ancestors {
        note(missing, entities, ancestor, of)?;
    }
    Ok(())
}

// Notes the ancestor, unless the store has it or it is noted already.
fn note(
    missing: &mut Missing,
    entities: &Entities,
    ancestor: &EntityUID,
    of: &EntityUID,
) -> Result<(), AllocError>
    ensures { OnOk result (Notes (stored_entity entities.now) missing.old.entries missing.new.entries
        (uid_name ancestor.now ∷ []) (uid_name of.now)) }
{
    match entities.get(ancestor) {
        Some(_) => Ok(()),
        None => {
            note_missing(missing, ancestor, of)?;
            Ok(())
        }
    }
}

// Notes the ancestor, unless it is noted already.
fn note_missing(
    missing: &mut Missing,
    ancestor: &EntityUID,
    of: &EntityUID,
) -> Result<(), AllocError>
    ensures { OnOk result ((stored : Standing) → Notes stored missing.old.entries missing.new.entries
        (uid_name ancestor.now ∷ []) (uid_name of.now)) }
{
    if !missing.contains_key(ancestor) {
        let key = copied_uid(ancestor)?;
        let recorder = copied_uid(of)?;
        missing.insert(key, recorder)?;
    }
    Ok(())
}
