//! Records that look like an entity, in entities and in contexts.
ghost use Rattle.std.specs.Prelude.{◌≡◌, ◌++◌, ◌∷◌, [], IfOk, OnOk, option_copied};
ghost use Rattle.std.specs.Rc.{rc_str_bytes};
ghost use Rattle.cedar_names.specs.Leaves.{texts_view};
ghost use Rattle.cedar_names.specs.Names.{uid_name};
ghost use Rattle.cedar_values.specs.Residuals.{partial_view};
ghost use Rattle.cedar_values.specs.Sound.{whats_at};
ghost use Rattle.cedar_layers.specs.Parts.{found_part};
ghost use Rattle.cedar_layers.specs.Stores.{entity_view};
ghost use Rattle.cedar_lints.specs.Keys.{noted, noted_each, nothing};
ghost use Rattle.cedar_lints.specs.Lookalikes.{AreLookalikesOf, part_view, parts_of, paths_under, found_paths};
ghost use Rattle.cedar_lints.specs.Lookalikes.{part_paths, lookalike_key, lookalike_view, lookalikes_view, sheet_view};
ghost use Rattle.cedar_lints.specs.Lookalikes.{each_of, once, path_key, path_sheet};
ghost use Rattle.cedar_lints.specs.Paths.{alike_at, alike_below, paths_view};

use crate::keys::{copied_texts, has_key, push_texts, put_key, put_text};
use crate::knowing::copied_uid;
use crate::paths::{push_paths_at, push_paths_under};
use cedar_fallible::add_last;
use cedar_layers::policies::{Entities, Entity};
use cedar_names::EntityUID;
use cedar_values::{PartialValue, Value};
use std::alloc::{AllocError, Global};
use std::collections::{BTreeMap, BTreeSet};
use std::rc::RcStr;

/// The parts of entities that are looked at.
#[derive(Clone, Copy)]
pub enum Part {
    /// Their attributes.
    Attributes,
    /// Their tags.
    Tags,
}

/// A record that looks like an entity: where it stands.
#[derive(Drop)]
pub struct Lookalike {
    /// The entity that has it.
    pub entity: EntityUID,
    /// The name of the attribute or tag, and below it those of records, each in the one before.
    pub names: Vec<RcStr>,
}

// Those that are noted, and the keys by which each is noted once.
#[derive(Drop)]
struct Sheet {
    keys: BTreeSet<Vec<RcStr>>,
    items: Vec<Lookalike>,
}

/// The records that look like an entity in these parts of the entities, or within: in records and in sets. One whose
/// members are exactly `type` and `id`, both texts, reads like an entity and equals none. Of entities of one type one is
/// reported for each path of names: the first, in the order of the entities' names. What is stored as a residual isn't
/// looked at. Refuses only if out of memory.
pub fn lookalikes_in_entities(
    alloc: Global,
    part: Part,
    entities: &Entities,
) -> Result<Vec<Lookalike>, AllocError>
    ensures { IfOk result (λ v. AreLookalikesOf (part_view part) entities.now (lookalikes_view v.items)) }
{
    let listed = entities.by_uid(alloc)?;
    let mut sheet = fresh(alloc);
    'entities: for (uid, entity) in &listed {
        note_entity(alloc, part, uid, entity, &mut sheet)?;
    }
    Ok(taken(sheet))
}

// Nothing is noted.
fn fresh(alloc: Global) -> Sheet
    ensures { sheet_view result ≡ nothing _ }
{
    let keys: BTreeSet<Vec<RcStr>> = BTreeSet::new(alloc);
    let items: Vec<Lookalike> = Vec::new(alloc);
    Sheet { keys, items }
}

// What is noted.
fn taken(sheet: Sheet) -> Vec<Lookalike>
    ensures { lookalikes_view result.items ≡ (sheet_view sheet).items }
{
    let Sheet { keys: _, items } = sheet;
    items
}

fn note_entity(
    alloc: Global,
    part: Part,
    uid: &EntityUID,
    entity: &Entity,
    sheet: &mut Sheet,
) -> Result<(), AllocError>
    ensures { OnOk result (sheet_view sheet.new ≡ noted_each lookalike_key (sheet_view sheet.old)
        (each_of (uid_name uid.now) (paths_under (parts_of (part_view part) (entity_view entity.now))))) }
{
    let paths = paths_of(alloc, part, entity)?;
    let noted = note_each(alloc, uid, &paths, sheet);
    drop(paths);
    noted
}

fn note_each(
    alloc: Global,
    uid: &EntityUID,
    paths: &[Vec<RcStr>],
    sheet: &mut Sheet,
) -> Result<(), AllocError>
    ensures { OnOk result (sheet_view sheet.new ≡ noted_each lookalike_key (sheet_view sheet.old)
        (each_of (uid_name uid.now) (paths_view paths.now))) }
{
    'paths: for names in paths {
        note(alloc, uid, names, sheet)?;
    }
    Ok(())
}

// Notes the path of this entity, unless one of its type is noted with this path.
fn note(
    alloc: Global,
    uid: &EntityUID,
    names: &[RcStr],
    sheet: &mut Sheet,
) -> Result<(), AllocError>
    ensures { OnOk result (sheet_view sheet.new ≡ noted lookalike_key (sheet_view sheet.old)
        (record { entity = uid_name uid.now; names = texts_view names.now })) }
{
    let key = key_of(alloc, uid, names)?;
    if has_key(&sheet.keys, &key) {
        Ok(())
    } else {
        put_key(&mut sheet.keys, key)?;
        put_item(alloc, uid, names, &mut sheet.items)?;
        Ok(())
    }
}

fn put_item(
    alloc: Global,
    uid: &EntityUID,
    names: &[RcStr],
    items: &mut Vec<Lookalike>,
) -> Result<(), AllocError>
    ensures { OnOk result (lookalikes_view items.new.items ≡ lookalikes_view items.old.items
        ++ record { entity = uid_name uid.now; names = texts_view names.now } ∷ []) }
{
    let entity = copied_uid(uid)?;
    let names = copied_texts(alloc, names)?;
    add_last(items, Lookalike { entity, names })?;
    Ok(())
}

// The type of the entity, and then the names.
fn key_of(alloc: Global, uid: &EntityUID, names: &[RcStr]) -> Result<Vec<RcStr>, AllocError>
    ensures { IfOk result (λ k. texts_view k.items ≡ (uid_name uid.now).type_name ∷ texts_view names.now) }
{
    let mut key: Vec<RcStr> = Vec::new(alloc);
    put_text(uid.entity_type().text(), &mut key)?;
    push_texts(names, &mut key)?;
    Ok(key)
}

fn paths_of(alloc: Global, part: Part, entity: &Entity) -> Result<Vec<Vec<RcStr>>, AllocError>
    ensures { IfOk result (λ v.
        paths_view v.items ≡ paths_under (parts_of (part_view part) (entity_view entity.now))) }
{
    match part {
        Part::Attributes => paths_of_attributes(alloc, entity),
        Part::Tags => paths_of_tags(alloc, entity),
    }
}

fn paths_of_attributes(alloc: Global, entity: &Entity) -> Result<Vec<Vec<RcStr>>, AllocError>
    ensures { IfOk result (λ v. paths_view v.items ≡ paths_under (entity_view entity.now).attributes) }
{
    let mut found: Vec<Vec<RcStr>> = Vec::new(alloc);
    'names: for name in entity.keys() {
        push_found(alloc, name, entity.get(name.as_str()), &mut found)?;
    }
    Ok(found)
}

fn paths_of_tags(alloc: Global, entity: &Entity) -> Result<Vec<Vec<RcStr>>, AllocError>
    ensures { IfOk result (λ v. paths_view v.items ≡ paths_under (entity_view entity.now).tags) }
{
    let mut found: Vec<Vec<RcStr>> = Vec::new(alloc);
    'names: for name in entity.tag_keys() {
        push_found(alloc, name, entity.get_tag(name.as_str()), &mut found)?;
    }
    Ok(found)
}

fn push_found(
    alloc: Global,
    name: &RcStr,
    part: Option<&PartialValue>,
    found: &mut Vec<Vec<RcStr>>,
) -> Result<(), AllocError>
    ensures { OnOk result (paths_view found.new.items ≡ paths_view found.old.items
        ++ found_paths (rc_str_bytes name.now) (found_part (option_copied part.entry))) }
{
    match part {
        Some(part) => push_part(alloc, name, part, found),
        None => Ok(()),
    }
}

fn push_part(
    alloc: Global,
    name: &RcStr,
    part: &PartialValue,
    found: &mut Vec<Vec<RcStr>>,
) -> Result<(), AllocError>
    ensures { OnOk result (paths_view found.new.items ≡ paths_view found.old.items
        ++ part_paths (rc_str_bytes name.now) (partial_view part.now)) }
{
    match part {
        PartialValue::Value(value) => push_value(alloc, name, value, found),
        PartialValue::Residual(_) => Ok(()),
    }
}

fn push_value(
    alloc: Global,
    name: &RcStr,
    value: &Value,
    found: &mut Vec<Vec<RcStr>>,
) -> Result<(), AllocError>
    ensures { OnOk result (paths_view found.new.items ≡ paths_view found.old.items
        ++ alike_below (rc_str_bytes name.now ∷ []) value.now.what) }
{
    let mut path: Vec<&RcStr> = Vec::new(alloc);
    push_paths_under(alloc, name, value, &mut path, found)?;
    Ok(())
}

/// The paths of names at which records stand in a context that look like an entity, as `lookalikes_in_entities` has
/// them: each path once, in the order of the names. Refuses only if out of memory.
pub fn lookalikes_in_context(
    alloc: Global,
    values: &BTreeMap<RcStr, Value>,
) -> Result<Vec<Vec<RcStr>>, AllocError>
    ensures { IfOk result (λ v. paths_view v.items ≡ once path_key (alike_at [] (whats_at values.now.entries))) }
{
    let mut path: Vec<&RcStr> = Vec::new(alloc);
    let mut found: Vec<Vec<RcStr>> = Vec::new(alloc);
    push_paths_at(alloc, values, &mut path, &mut found)?;
    let paths = each_once(alloc, &found);
    drop(found);
    paths
}

fn each_once(alloc: Global, paths: &[Vec<RcStr>]) -> Result<Vec<Vec<RcStr>>, AllocError>
    ensures { IfOk result (λ v. paths_view v.items ≡ once path_key (paths_view paths.now)) }
{
    let mut keys: BTreeSet<Vec<RcStr>> = BTreeSet::new(alloc);
    let mut items: Vec<Vec<RcStr>> = Vec::new(alloc);
    'paths: for path in paths {
        note_path(alloc, path, &mut keys, &mut items)?;
    }
    Ok(items)
}

// Notes the path, unless it is noted.
fn note_path(
    alloc: Global,
    path: &Vec<RcStr>,
    keys: &mut BTreeSet<Vec<RcStr>>,
    items: &mut Vec<Vec<RcStr>>,
) -> Result<(), AllocError>
    ensures { OnOk result (path_sheet keys.new.keys items.new.items
        ≡ noted path_key (path_sheet keys.old.keys items.old.items) (texts_view path.now.items)) }
{
    if has_key(keys, path) {
        Ok(())
    } else {
        put_key(keys, copied_texts(alloc, path)?)?;
        put_path(alloc, path, items)?;
        Ok(())
    }
}

fn put_path(alloc: Global, path: &[RcStr], items: &mut Vec<Vec<RcStr>>) -> Result<(), AllocError>
    ensures { OnOk result
        (paths_view items.new.items ≡ paths_view items.old.items ++ texts_view path.now ∷ []) }
{
    let copy = copied_texts(alloc, path)?;
    add_last(items, copy)?;
    Ok(())
}
