//! The parts of an entity, and more beside them.
ghost use Rattle.std.specs.Prelude.{◌≡◌, true, map, option_copied, IfOk, IfSome, OnOk};
ghost use Rattle.std.specs.Rc.{rc_str_bytes};
ghost use Rattle.cedar_names.specs.Names.{uid_name};
ghost use Rattle.cedar_values.specs.Residuals.{partial_view};
ghost use Rattle.cedar_layers.specs.Parts.{parts_view, found_part, is_restricted_part, are_restricted_parts};
ghost use Rattle.cedar_layers.specs.Stores.{entity_name, entity_view};
ghost use Rattle.cedar_overlay.specs.Overlaid.{put_at, put_each, values_view, with_parts};
ghost use Rattle.cedar_overlay.specs.Putting.{put_found};

use crate::attributes::Attributes;
use cedar_fallible::beside;
use cedar_layers::expressions::{EntityUID, PartialValue};
use cedar_layers::policies::Entity;
use std::alloc::{AllocError, Global};
use std::collections::{BTreeMap, BTreeSet};
use std::rc::RcStr;

type Parts = BTreeMap<RcStr, PartialValue>;

// The entity under this uid, with these attributes beside its own, or instead of those of their names.
pub(crate) fn with_more(
    alloc: Global,
    uid: EntityUID,
    entity: &Entity,
    more: Attributes,
) -> Result<Entity, AllocError>
    ensures name { IfOk result (λ e. entity_name e ≡ uid_name uid) }
    ensures view { IfOk result (λ e. entity_view e ≡ with_parts (values_view more) (entity_view entity.now)) }
{
    let attributes = attributes_and_more(alloc, entity, more)?;
    let (attributes, tags) = beside(attributes, copied_tags(alloc, entity))?;
    let ((attributes, tags), ancestors) = beside((attributes, tags), copied_ancestors(entity))?;
    Ok(Entity::new(uid, attributes, ancestors, tags))
}

fn copied_ancestors(entity: &Entity) -> Result<BTreeSet<EntityUID>, AllocError>
    ensures { IfOk result (λ s. map uid_name s.keys ≡ (entity_view entity.now).ancestors) }
{
    Ok(entity.ancestors().clone()?)
}

// Its attributes, and these.
fn attributes_and_more(
    alloc: Global,
    entity: &Entity,
    more: Attributes,
) -> Result<Parts, AllocError>
    ensures parts { IfOk result (λ m. parts_view m.entries ≡
        put_each (values_view more) (entity_view entity.now).attributes) }
    ensures restricted { IfOk result (λ m. are_restricted_parts (parts_view m.entries) ≡ true) }
{
    let mut attributes = copied_attributes(alloc, entity)?;
    put_values(&mut attributes, more)?;
    Ok(attributes)
}

// Its attributes.
fn copied_attributes(alloc: Global, entity: &Entity) -> Result<Parts, AllocError>
    ensures parts { IfOk result (λ m. parts_view m.entries ≡ (entity_view entity.now).attributes) }
    ensures restricted { IfOk result (λ m. are_restricted_parts (parts_view m.entries) ≡ true) }
{
    let mut attributes: Parts = BTreeMap::new(alloc);
    'names: for name in entity.keys() {
        put_found(&mut attributes, name, entity.get(name.as_str()))?;
    }
    Ok(attributes)
}

// Its tags.
fn copied_tags(alloc: Global, entity: &Entity) -> Result<Parts, AllocError>
    ensures parts { IfOk result (λ m. parts_view m.entries ≡ (entity_view entity.now).tags) }
    ensures restricted { IfOk result (λ m. are_restricted_parts (parts_view m.entries) ≡ true) }
{
    let mut tags: Parts = BTreeMap::new(alloc);
    'names: for name in entity.tag_keys() {
        put_found(&mut tags, name, entity.get_tag(name.as_str()))?;
    }
    Ok(tags)
}

// Puts a copy of the part that was found under the name.
fn put_found(
    parts: &mut Parts,
    name: &RcStr,
    found: Option<&PartialValue>,
) -> Result<(), AllocError>
    requires found { IfSome found (λ p. is_restricted_part (partial_view p.now) ≡ true) }
    requires parts { are_restricted_parts (parts_view parts.old.entries) ≡ true }
    ensures parts { OnOk result (parts_view parts.new.entries ≡
        put_found (rc_str_bytes name.now) (found_part (option_copied found.entry)) (parts_view parts.old.entries)) }
    ensures restricted { OnOk result (are_restricted_parts (parts_view parts.new.entries) ≡ true) }
{
    match found {
        Some(part) => {
            let key = copied_name(name)?;
            let copy = copied_part(part)?;
            put(parts, key, copy)?;
            Ok(())
        }
        None => Ok(()),
    }
}

fn copied_name(name: &RcStr) -> Result<RcStr, AllocError>
    ensures { IfOk result (λ t. rc_str_bytes t ≡ rc_str_bytes name.now) }
{
    Ok(name.clone()?)
}

fn copied_part(part: &PartialValue) -> Result<PartialValue, AllocError>
    ensures { IfOk result (λ p. partial_view p ≡ partial_view part.now) }
{
    Ok(part.clone()?)
}

// Puts each of these values, instead of the part of its name.
fn put_values(parts: &mut Parts, more: Attributes) -> Result<(), AllocError>
    requires { are_restricted_parts (parts_view parts.old.entries) ≡ true }
    ensures parts { OnOk result (parts_view parts.new.entries ≡
        put_each (values_view more) (parts_view parts.old.entries)) }
    ensures restricted { OnOk result (are_restricted_parts (parts_view parts.new.entries) ≡ true) }
{
    'values: for (name, value) in more {
        put(parts, name, PartialValue::Value(value))?;
    }
    Ok(())
}

// Puts the part in its place, instead of one of its name.
fn put(parts: &mut Parts, name: RcStr, part: PartialValue) -> Result<(), AllocError>
    requires part { is_restricted_part (partial_view part) ≡ true }
    requires parts { are_restricted_parts (parts_view parts.old.entries) ≡ true }
    ensures parts { OnOk result (parts_view parts.new.entries ≡
        put_at (rc_str_bytes name) (partial_view part) (parts_view parts.old.entries)) }
    ensures restricted { OnOk result (are_restricted_parts (parts_view parts.new.entries) ≡ true) }
{
    drop(parts.insert(name, part)?);
    Ok(())
}
