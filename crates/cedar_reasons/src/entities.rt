//! Entities of which these facts alone are kept.
ghost use Rattle.std.specs.Prelude.{◌≡◌, true, map, option_copied, IfOk, IfSome, OnOk};
ghost use Rattle.std.specs.Rc.{rc_str_bytes};
ghost use Rattle.cedar_model.specs.Settings.{part_at};
ghost use Rattle.cedar_names.specs.Names.{uid_name};
ghost use Rattle.cedar_values.specs.Residuals.{partial_view};
ghost use Rattle.cedar_layers.specs.Parts.{parts_view, found_part, is_restricted_part, are_restricted_parts};
ghost use Rattle.cedar_layers.specs.Stores.{entity_name, entity_view, store_view, no_entities, with_entities};
ghost use Rattle.cedar_reasons.specs.Facts.{facts_view, lent, is_kept, of_entity, of_attribute, of_tag};
ghost use Rattle.cedar_reasons.specs.Names.{value_name, tag_name};
ghost use Rattle.cedar_reasons.specs.Reduced.{reduced_part, reduced_tag, reduced_entity, reduced_store};
ghost use Rattle.cedar_reasons.specs.Reduced.{is_whole, keeps_each, keeps_lent};
ghost use Rattle.cedar_reasons.specs.Kept.{value_at, put_at, are_kept, with_kept};

use crate::facts::{Fact, is_kept};
use crate::names::{unknown_attribute, unknown_tag};
use cedar_fallible::{add_last, beside};
use cedar_layers::expressions::{EntityUID, PartialValue};
use cedar_layers::policies::{Entities, Entity};
use std::alloc::{AllocError, Global};
use std::collections::{BTreeMap, BTreeSet};
use std::rc::RcStr;

type Parts = BTreeMap<RcStr, PartialValue>;

// The store of the entities that are kept; it is partial, unless it is whole.
pub(crate) fn reduced_store(
    alloc: Global,
    entities: &[&Entity],
    facts: &[Fact<'_>],
) -> Result<Entities, AllocError>
    ensures { IfOk result (λ s. store_view s ≡ reduced_store (facts_view facts.now) (lent entities.now)) }
{
    let kept = kept_entities(alloc, entities, facts)?;
    Ok(Entities::with(alloc, kept, !is_whole(entities, facts))?)
}

// Whether each entity is kept, and that there is no other.
fn is_whole(entities: &[&Entity], facts: &[Fact<'_>]) -> bool
    ensures { result ≡ is_whole (facts_view facts.now) (lent entities.now) }
{
    is_kept(facts, Fact::NoOtherEntity) && keeps_each(entities, facts)
}

fn keeps_each(entities: &[&Entity], facts: &[Fact<'_>]) -> bool
    ensures { result ≡ keeps_each (facts_view facts.now) (lent entities.now) }
{
    keeps_lent(entities, facts)
}

fn keeps_lent(entities: &[&Entity], facts: &[Fact<'_>]) -> bool
    ensures { result ≡ keeps_lent (facts_view facts.now) entities.now }
{
    entities.iter().all(|entity| is_kept_entity(entity, facts))
}

fn is_kept_entity(entity: &Entity, facts: &[Fact<'_>]) -> bool
    ensures { result ≡ is_kept (facts_view facts.now) (of_entity (entity_name entity.now)) }
{
    is_kept(facts, Fact::Entity(entity.uid()))
}

// The entities that are kept.
fn kept_entities(
    alloc: Global,
    entities: &[&Entity],
    facts: &[Fact<'_>],
) -> Result<Vec<Entity>, AllocError>
    ensures { IfOk result (λ v. are_kept (facts_view facts.now) no_entities (lent entities.now)
        ≡ with_entities no_entities v.items) }
{
    let mut kept: Vec<Entity> = Vec::new(alloc);
    'entities: for entity in entities {
        add_kept(alloc, entity, facts, &mut kept)?;
    }
    Ok(kept)
}

fn add_kept(
    alloc: Global,
    entity: &Entity,
    facts: &[Fact<'_>],
    kept: &mut Vec<Entity>,
) -> Result<(), AllocError>
    ensures { OnOk result (with_entities no_entities kept.new.items ≡
        with_kept (facts_view facts.now) (with_entities no_entities kept.old.items) entity.now) }
{
    if is_kept_entity(entity, facts) {
        let entity = reduced_entity(alloc, entity, facts)?;
        add_last(kept, entity)?;
        Ok(())
    } else {
        Ok(())
    }
}

// The entity with its ancestors and the names of its attributes and tags, and of these the values that are kept.
fn reduced_entity(alloc: Global, entity: &Entity, facts: &[Fact<'_>]) -> Result<Entity, AllocError>
    ensures name { IfOk result (λ e. entity_name e ≡ entity_name entity.now) }
    ensures view { IfOk result (λ e. entity_view e ≡
        reduced_entity (facts_view facts.now) (entity_name entity.now) (entity_view entity.now)) }
{
    let attributes = reduced_attributes(alloc, entity, facts)?;
    let (attributes, tags) = beside(attributes, reduced_tags(alloc, entity, facts))?;
    let ((attributes, tags), named) = beside((attributes, tags), copied_names(entity))?;
    Ok(Entity::new(named.0, attributes, named.1, tags))
}

// Its uid and its ancestors.
fn copied_names(entity: &Entity) -> Result<(EntityUID, BTreeSet<EntityUID>), AllocError>
    ensures uid { IfOk result (λ p. uid_name p.0 ≡ entity_name entity.now) }
    ensures ancestors { IfOk result (λ p. map uid_name p.1.keys ≡ (entity_view entity.now).ancestors) }
{
    let uid = entity.uid().clone()?;
    beside(uid, copied_ancestors(entity))
}

fn copied_ancestors(entity: &Entity) -> Result<BTreeSet<EntityUID>, AllocError>
    ensures { IfOk result (λ s. map uid_name s.keys ≡ (entity_view entity.now).ancestors) }
{
    Ok(entity.ancestors().clone()?)
}

// Its attributes, with the values that are kept.
fn reduced_attributes(
    alloc: Global,
    entity: &Entity,
    facts: &[Fact<'_>],
) -> Result<Parts, AllocError>
    ensures parts { IfOk result (λ m. parts_view m.entries ≡
        map (reduced_part (facts_view facts.now) (entity_name entity.now)) (entity_view entity.now).attributes) }
    ensures restricted { IfOk result (λ m. are_restricted_parts (parts_view m.entries) ≡ true) }
{
    let mut attributes: Parts = BTreeMap::new(alloc);
    'names: for name in entity.keys() {
        let key = copied_name(name)?;
        let value = reduced_value(alloc, entity, name, facts)?;
        put(&mut attributes, key, value)?;
    }
    Ok(attributes)
}

// The value of the attribute, if it is kept, and else its unknown.
fn reduced_value(
    alloc: Global,
    entity: &Entity,
    name: &RcStr,
    facts: &[Fact<'_>],
) -> Result<PartialValue, AllocError>
    ensures view { IfOk result (λ p. partial_view p ≡ value_at
        (is_kept (facts_view facts.now) (of_attribute (entity_name entity.now) (rc_str_bytes name.now)))
        (value_name (entity_name entity.now) (rc_str_bytes name.now))
        (part_at (rc_str_bytes name.now) (entity_view entity.now).attributes)) }
    ensures restricted { IfOk result (λ p. is_restricted_part (partial_view p) ≡ true) }
{
    if is_kept(facts, Fact::Attribute(entity.uid(), name)) {
        found_attribute(alloc, entity, name, entity.get(name.as_str()))
    } else {
        unknown_attribute(alloc, entity.uid(), name)
    }
}

// The part that was found under the attribute's name.
fn found_attribute(
    alloc: Global,
    entity: &Entity,
    name: &RcStr,
    found: Option<&PartialValue>,
) -> Result<PartialValue, AllocError>
    requires { IfSome found (λ p. is_restricted_part (partial_view p.now) ≡ true) }
    ensures view { IfOk result (λ p. partial_view p ≡
        value_at true (value_name (entity_name entity.now) (rc_str_bytes name.now))
        (found_part (option_copied found.entry))) }
    ensures restricted { IfOk result (λ p. is_restricted_part (partial_view p) ≡ true) }
{
    match found {
        Some(part) => Ok(part.clone()?),
        None => unknown_attribute(alloc, entity.uid(), name),
    }
}

// Its tags, with the values that are kept.
fn reduced_tags(alloc: Global, entity: &Entity, facts: &[Fact<'_>]) -> Result<Parts, AllocError>
    ensures parts { IfOk result (λ m. parts_view m.entries ≡
        map (reduced_tag (facts_view facts.now) (entity_name entity.now)) (entity_view entity.now).tags) }
    ensures restricted { IfOk result (λ m. are_restricted_parts (parts_view m.entries) ≡ true) }
{
    let mut tags: Parts = BTreeMap::new(alloc);
    'names: for name in entity.tag_keys() {
        let key = copied_name(name)?;
        let value = reduced_tag(alloc, entity, name, facts)?;
        put(&mut tags, key, value)?;
    }
    Ok(tags)
}

// The value of the tag, if it is kept, and else its unknown.
fn reduced_tag(
    alloc: Global,
    entity: &Entity,
    name: &RcStr,
    facts: &[Fact<'_>],
) -> Result<PartialValue, AllocError>
    ensures view { IfOk result (λ p. partial_view p ≡ value_at
        (is_kept (facts_view facts.now) (of_tag (entity_name entity.now) (rc_str_bytes name.now)))
        (tag_name (entity_name entity.now) (rc_str_bytes name.now))
        (part_at (rc_str_bytes name.now) (entity_view entity.now).tags)) }
    ensures restricted { IfOk result (λ p. is_restricted_part (partial_view p) ≡ true) }
{
    if is_kept(facts, Fact::Tag(entity.uid(), name)) {
        found_tag(alloc, entity, name, entity.get_tag(name.as_str()))
    } else {
        unknown_tag(alloc, entity.uid(), name)
    }
}

// The part that was found under the tag's name.
fn found_tag(
    alloc: Global,
    entity: &Entity,
    name: &RcStr,
    found: Option<&PartialValue>,
) -> Result<PartialValue, AllocError>
    requires { IfSome found (λ p. is_restricted_part (partial_view p.now) ≡ true) }
    ensures view { IfOk result (λ p. partial_view p ≡
        value_at true (tag_name (entity_name entity.now) (rc_str_bytes name.now))
        (found_part (option_copied found.entry))) }
    ensures restricted { IfOk result (λ p. is_restricted_part (partial_view p) ≡ true) }
{
    match found {
        Some(part) => Ok(part.clone()?),
        None => unknown_tag(alloc, entity.uid(), name),
    }
}

// Puts the part under the name, in the order of names.
fn put(parts: &mut Parts, name: RcStr, part: PartialValue) -> Result<(), AllocError>
    ensures parts { OnOk result (parts_view parts.new.entries ≡
        put_at (rc_str_bytes name) (partial_view part) (parts_view parts.old.entries)) }
    ensures restricted { OnOk result (is_restricted_part (partial_view part) ≡ true →
        are_restricted_parts (parts_view parts.old.entries) ≡ true →
        are_restricted_parts (parts_view parts.new.entries) ≡ true) }
{
    drop(parts.insert(name, part)?);
    Ok(())
}

fn copied_name(name: &RcStr) -> Result<RcStr, AllocError>
    ensures { IfOk result (λ t. rc_str_bytes t ≡ rc_str_bytes name.now) }
{
    Ok(name.clone()?)
}
