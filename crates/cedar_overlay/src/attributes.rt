//! Attributes that a request brings beside those of stored entities.
ghost use Rattle.std.specs.Prelude.{◌≡◌, None, Some, option_copied, IfOk, OnOk, IfErr, map};
ghost use Rattle.std.specs.Rc.{rc_str_bytes};
ghost use Rattle.cedar_model.specs.Terms.{EntityName};
ghost use Rattle.cedar_names.specs.Names.{uid_name};
ghost use Rattle.cedar_layers.specs.Stores.{entity_name, entity_view, store_view, stored_entity};
ghost use Rattle.cedar_layers.specs.Stores.{with_entities, standing_with_each};
ghost use Rattle.cedar_overlay.specs.Overlaid.{values_view, brought_for, with_parts, overlaid, overlaid_entity};
ghost use Rattle.cedar_overlay.specs.Overlaid.{IsFree, AreFree, IsRefused};
ghost use Rattle.cedar_overlay.specs.Putting.{IsTaken, IsSharedName, IsRefusedFor, IsRefusedOfStored, HasName};

use crate::copies::with_more;
use crate::error::AttributesError;
use cedar_fallible::add_last;
use cedar_layers::expressions::{EntityUID, Value};
use cedar_layers::policies::{Entities, Entity};
use std::alloc::Global;
use std::collections::BTreeMap;
use std::rc::RcStr;

/// Values under their names.
pub(crate) type Attributes = BTreeMap<RcStr, Value>;

/// The store that has, beside the attributes of stored entities, these, which stand under the uids of the entities. An
/// entity of which attributes are brought keeps its tags, its ancestors and its other attributes; each other entity is
/// that of `entities`, whole, and the store is partial if `entities` is. `entities` stays as it is, and what this
/// costs goes by what is brought, with the entities of which attributes are brought. Refuses with `NotStored` where
/// `entities` lacks an entity of which attributes are brought (with none of them too), and, unless `request_wins`, with
/// `HasAttribute` where a stored entity has an attribute of the name of a brought one: the first in the order of the
/// entities' names and then of the attributes'. With `request_wins` the brought one stands instead: a policy then reads
/// what the request says of a stored entity. Else it refuses only if out of memory.
pub fn with_attributes(
    alloc: Global,
    entities: &Entities,
    brought: BTreeMap<EntityUID, BTreeMap<RcStr, Value>>,
    request_wins: bool,
) -> Result<Entities, AttributesError>
    ensures store { IfOk result (λ s. store_view s ≡ overlaid (store_view entities.now) brought.entries) }
    ensures others { IfOk result (λ s. (n : EntityName) → brought_for brought.entries n ≡ None
        → stored_entity s n ≡ stored_entity entities.now n) }
    ensures accepted { OnOk result (AreFree (store_view entities.now) brought.entries request_wins) }
    ensures refused { IfErr result (IsRefused (store_view entities.now) brought.entries request_wins) }
{
    match overlaid_each(alloc, entities, brought, request_wins) {
        Ok(more) => Ok(entities.over(alloc, more)?),
        Err(error) => Err(error),
    }
}

// The entities of which attributes are brought, with these.
fn overlaid_each(
    alloc: Global,
    entities: &Entities,
    brought: BTreeMap<EntityUID, Attributes>,
    request_wins: bool,
) -> Result<Vec<Entity>, AttributesError>
    ensures held { IfOk result (λ v. with_entities (store_view entities.now).entity v.items ≡
        (overlaid (store_view entities.now) brought.entries).entity) }
    ensures others { IfOk result (λ v. (n : EntityName) → brought_for brought.entries n ≡ None
        → standing_with_each (stored_entity entities.now) v.items n ≡ stored_entity entities.now n) }
    ensures free { OnOk result (AreFree (store_view entities.now) brought.entries request_wins) }
    ensures refused { IfErr result (IsRefused (store_view entities.now) brought.entries request_wins) }
{
    let mut more: Vec<Entity> = Vec::new(alloc);
    'brought: for (uid, attributes) in brought {
        match overlaid_entity(alloc, entities, uid, attributes, request_wins) {
            Ok(entity) => add_last(&mut more, entity)?,
            Err(error) => return Err(error),
        }
    }
    Ok(more)
}

// The stored entity of this uid, with these attributes.
fn overlaid_entity(
    alloc: Global,
    entities: &Entities,
    uid: EntityUID,
    attributes: Attributes,
    request_wins: bool,
) -> Result<Entity, AttributesError>
    ensures name { IfOk result (λ e. entity_name e ≡ uid_name uid) }
    ensures view { IfOk result (λ e. Some (entity_view e) ≡
        overlaid_entity (Some attributes) ((store_view entities.now).entity (uid_name uid))) }
    ensures free { OnOk result
        (IsFree request_wins (values_view attributes) ((store_view entities.now).entity (uid_name uid))) }
    ensures refused { IfErr result (IsRefusedFor (uid_name uid) (values_view attributes) request_wins
        ((store_view entities.now).entity (uid_name uid))) }
{
    match entities.get(&uid) {
        Some(stored) => match overlaid_stored(alloc, stored, uid, attributes, request_wins) {
            Ok(entity) => Ok(entity),
            Err(error) => Err(error),
        },
        None => {
            drop(attributes);
            Err(AttributesError::NotStored(uid))
        }
    }
}

// This entity, under this uid, with these attributes.
fn overlaid_stored(
    alloc: Global,
    stored: &Entity,
    uid: EntityUID,
    attributes: Attributes,
    request_wins: bool,
) -> Result<Entity, AttributesError>
    ensures name { IfOk result (λ e. entity_name e ≡ uid_name uid) }
    ensures view { IfOk result (λ e. entity_view e ≡ with_parts (values_view attributes) (entity_view stored.now)) }
    ensures free { OnOk result (IsFree request_wins (values_view attributes) (Some (entity_view stored.now))) }
    ensures refused { IfErr result (IsRefusedOfStored (uid_name uid) (values_view attributes) request_wins
        (entity_view stored.now)) }
{
    match taken_name(stored, &attributes, request_wins) {
        Some(name) => Err(has_attribute(uid, name)),
        None => Ok(with_more(alloc, uid, stored, attributes)?),
    }
}

#[cold]
fn has_attribute(uid: EntityUID, name: &RcStr) -> AttributesError
    ensures { HasName (uid_name uid) (rc_str_bytes name.now) result }
{
    match name.clone() {
        Ok(name) => AttributesError::HasAttribute(uid, name),
        Err(error) => AttributesError::Memory(error),
    }
}

// The first name of these attributes that is not free.
fn taken_name<'a>(
    stored: &Entity,
    attributes: &'a Attributes,
    request_wins: bool,
) -> Option<&'a RcStr>
    ensures { IsTaken request_wins (values_view attributes.now) (entity_view stored.now).attributes
        (option_copied result) }
{
    if request_wins {
        None
    } else {
        shared_name(stored, attributes)
    }
}

// The first name of these attributes that one of the entity's has.
fn shared_name<'a>(stored: &Entity, attributes: &'a Attributes) -> Option<&'a RcStr>
    ensures { IsSharedName (values_view attributes.now) (entity_view stored.now).attributes (option_copied result) }
{
    'names: for name in attributes.keys() {
        match stored.get(name.as_str()) {
            Some(_) => return Some(name),
            None => {}
        }
    }
    None
}
