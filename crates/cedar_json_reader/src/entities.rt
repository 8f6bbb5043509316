#![tactic(auto, using(crate::proofs::Refused::refusals, crate::proofs::EntityLemmas::entities))]
//! Entities.
ghost use Rattle.std.specs.Prelude.{◌≡◌, [], ◌∷◌, ◌++◌, Ok, option_map, codes, not, OnOk, IfOk, IfErr};
ghost use Rattle.json.specs.Value.{value_view, items_view, members_view};
ghost use Rattle.cedar_names.specs.Names.{uid_name};
ghost use Rattle.cedar_json_reader.specs.Paths.{at_key, at_index};
ghost use Rattle.cedar_json_reader.specs.Refusals.{IsRefusal, IsRefusedAt, IsMemory, under};
ghost use Rattle.cedar_json_reader.specs.Said as says;
ghost use Rattle.cedar_json_reader.specs.Lists.{pairs_said, IsOneMore};
ghost use Rattle.cedar_json_reader.specs.StatedEntities.{names_of, stated_view, stated_views};
ghost use Rattle.cedar_json_reader.specs.Evaluated.{PutsName, SeesEntity};
ghost use Rattle.cedar_model.specs.Settings.{is_among};
ghost use Rattle.cedar_json_reader.specs.SaidEntities as stated;
ghost use Rattle.cedar_json_reader.specs.declared.errors.RefusalReason.TheVariants as reasons;

use crate::errors::{JsonError, RefusalReason};
use crate::escapes::uid;
use crate::shapes::{array, object, sole};
use crate::values::read_members;
use cedar_names::EntityUID;
use cedar_restricted::RestrictedExpr;
use json::Value;
use std::alloc::Global;
use std::collections::BTreeSet;
use std::rc::RcStr;

/// An entity as the JSON says it, of which nothing is evaluated.
#[derive(Debug, Drop)]
pub struct StatedEntity {
    /// Its name.
    pub uid: EntityUID,
    /// Its attributes under their names, in the order of the JSON.
    pub attrs: Vec<(RcStr, RestrictedExpr)>,
    /// The entities that it is in, in the order of the JSON.
    pub parents: Vec<EntityUID>,
    /// Its tags under their names, in the order of the JSON.
    pub tags: Vec<(RcStr, RestrictedExpr)>,
}

/// The entities of an array, in order.
pub(crate) fn stated_entities_from_json_value(
    alloc: Global,
    value: &Value<'_>,
) -> Result<Vec<StatedEntity>, JsonError>
    ensures said { IfOk result (λ r. stated.entities_said (value_view value.now) ≡ Ok (stated_views r.items)) }
    ensures refused { IfErr result (IsRefusal (stated.entities_said (value_view value.now))) }
{
    match array(value) {
        Some(items) => read_entities(alloc, items),
        None => Err(JsonError::refusal(alloc, RefusalReason::NotAnArray)),
    }
}

fn read_entities(alloc: Global, items: &Vec<Value<'_>>) -> Result<Vec<StatedEntity>, JsonError>
    ensures said { IfOk result
        (λ r. stated.entities_from [] 0 (items_view items.now.items) ≡ Ok (stated_views r.items)) }
    ensures refused { IfErr result (IsRefusal (stated.entities_from [] 0 (items_view items.now.items))) }
{
    let mut entities: Vec<StatedEntity> = Vec::new(alloc);
    match put_entities(alloc, items, &mut entities) {
        Ok(()) => Ok(entities),
        Err(error) => {
            drop(entities);
            Err(error)
        }
    }
}

// Puts the entities behind those that are there.
fn put_entities(
    alloc: Global,
    items: &Vec<Value<'_>>,
    entities: &mut Vec<StatedEntity>,
) -> Result<(), JsonError>
    requires { entities.old.items ≡ [] }
    ensures said { OnOk result
        (stated.entities_from [] 0 (items_view items.now.items) ≡ Ok (stated_views entities.new.items)) }
    ensures refused { IfErr result (IsRefusal (stated.entities_from [] 0 (items_view items.now.items))) }
{
    let mut seen: BTreeSet<EntityUID> = BTreeSet::new(alloc);
    let mut index: usize = 0;
    'items: for item in items {
        match put_item(alloc, item, index, &mut seen, entities) {
            Ok(()) => index += 1,
            Err(error) => return Err(error),
        }
    }
    Ok(())
}

// Puts the entity, which has this index, behind those that are there, if it was not seen before. Now it was.
fn put_item(
    alloc: Global,
    item: &Value<'_>,
    index: usize,
    seen: &mut BTreeSet<EntityUID>,
    entities: &mut Vec<StatedEntity>,
) -> Result<(), JsonError>
    ensures said { OnOk result (IsOneMore (stated_views entities.old.items)
        (under (at_index index) (stated.new_entity (names_of seen.old.keys) (value_view item.now)))
        (stated_views entities.new.items)) }
    ensures seen { OnOk result (SeesEntity (names_of seen.old.keys) (stated.entity_said (value_view item.now))
        (names_of seen.new.keys)) }
    ensures refused { IfErr result
        (IsRefusal (under (at_index index) (stated.new_entity (names_of seen.old.keys) (value_view item.now)))) }
{
    match read_entity(alloc, item) {
        Ok(entity) => match put_entity(alloc, entity, seen, entities) {
            Ok(()) => Ok(()),
            Err(error) => Err(error.under_index(index)),
        },
        Err(error) => Err(error.under_index(index)),
    }
}

fn put_entity(
    alloc: Global,
    entity: StatedEntity,
    seen: &mut BTreeSet<EntityUID>,
    entities: &mut Vec<StatedEntity>,
) -> Result<(), JsonError>
    ensures said { OnOk result (IsOneMore (stated_views entities.old.items)
        (stated.if_new (names_of seen.old.keys) (stated_view entity)) (stated_views entities.new.items)) }
    ensures seen { OnOk result (PutsName (names_of seen.old.keys) (uid_name entity.uid) (names_of seen.new.keys)) }
    ensures refused { IfErr result (IsRefusal (stated.if_new (names_of seen.old.keys) (stated_view entity))) }
{
    match insert_new(seen, &entity.uid) {
        Ok(added) => if added {
            push_entity(entity, entities)
        } else {
            drop(entity);
            Err(refuse_repeated_entity(alloc))
        },
        Err(error) => {
            drop(entity);
            Err(error)
        }
    }
}

#[cold]
fn refuse_repeated_entity(alloc: Global) -> JsonError
    ensures { IsRefusedAt (at_key (codes "uid") ∷ []) reasons.RepeatedEntity result }
{
    JsonError::refusal(alloc, RefusalReason::RepeatedEntity).under_key(alloc, "uid")
}

fn push_entity(entity: StatedEntity, entities: &mut Vec<StatedEntity>) -> Result<(), JsonError>
    ensures said { OnOk result
        (stated_views entities.new.items ≡ stated_views entities.old.items ++ stated_view entity ∷ []) }
    ensures memory { IfErr result IsMemory }
{
    match entities.push(entity) {
        Ok(()) => Ok(()),
        Err(failed) => Err(JsonError::from(failed)),
    }
}

// Whether the entity was not seen before. Now it was.
fn insert_new(seen: &mut BTreeSet<EntityUID>, uid: &EntityUID) -> Result<bool, JsonError>
    ensures new { IfOk result (λ b. b ≡ not (is_among (uid_name uid.now) (names_of seen.old.keys))) }
    ensures seen { OnOk result (PutsName (names_of seen.old.keys) (uid_name uid.now) (names_of seen.new.keys)) }
    ensures memory { IfErr result IsMemory }
{
    match uid.clone() {
        Ok(name) => insert(seen, name),
        Err(error) => Err(JsonError::Memory(error)),
    }
}

fn insert(seen: &mut BTreeSet<EntityUID>, uid: EntityUID) -> Result<bool, JsonError>
    ensures new { IfOk result (λ b. b ≡ not (is_among (uid_name uid) (names_of seen.old.keys))) }
    ensures seen { OnOk result (PutsName (names_of seen.old.keys) (uid_name uid) (names_of seen.new.keys)) }
    ensures memory { IfErr result IsMemory }
{
    match seen.insert(uid) {
        Ok(added) => Ok(added),
        Err(failed) => Err(JsonError::from(failed)),
    }
}

fn read_entity(alloc: Global, value: &Value<'_>) -> Result<StatedEntity, JsonError>
    ensures said { IfOk result (λ r. stated.entity_said (value_view value.now) ≡ Ok (stated_view r)) }
    ensures refused { IfErr result (IsRefusal (stated.entity_said (value_view value.now))) }
{
    match object(value) {
        Some(members) => match find_unexpected(members) {
            Some(key) => Err(no_member(alloc, key)),
            None => with_uid(alloc, value),
        },
        None => Err(JsonError::refusal(alloc, RefusalReason::NotAnObject)),
    }
}

fn with_uid(alloc: Global, value: &Value<'_>) -> Result<StatedEntity, JsonError>
    ensures said { IfOk result (λ r. stated.whole_entity (value_view value.now) ≡ Ok (stated_view r)) }
    ensures refused { IfErr result (IsRefusal (stated.whole_entity (value_view value.now))) }
{
    match uid_at(alloc, value, "uid") {
        Ok(uid) => with_attrs(alloc, value, uid),
        Err(error) => Err(error),
    }
}

fn with_attrs(alloc: Global, value: &Value<'_>, uid: EntityUID) -> Result<StatedEntity, JsonError>
    ensures said { IfOk result
        (λ r. stated.with_attributes (uid_name uid) (value_view value.now) ≡ Ok (stated_view r)) }
    ensures refused { IfErr result (IsRefusal (stated.with_attributes (uid_name uid) (value_view value.now))) }
{
    match attrs_at(alloc, value) {
        Ok(attrs) => with_parents(alloc, value, uid, attrs),
        Err(error) => {
            drop(uid);
            Err(error)
        }
    }
}

fn with_parents(
    alloc: Global,
    value: &Value<'_>,
    uid: EntityUID,
    attrs: Vec<(RcStr, RestrictedExpr)>,
) -> Result<StatedEntity, JsonError>
    ensures said { IfOk result
        (λ r. stated.with_parents (uid_name uid) (pairs_said attrs.items) (value_view value.now) ≡
        Ok (stated_view r)) }
    ensures refused { IfErr result
        (IsRefusal (stated.with_parents (uid_name uid) (pairs_said attrs.items) (value_view value.now))) }
{
    match parents_at(alloc, value) {
        Ok(parents) => with_tags(alloc, value, uid, attrs, parents),
        Err(error) => {
            drop((uid, attrs));
            Err(error)
        }
    }
}

fn with_tags(
    alloc: Global,
    value: &Value<'_>,
    uid: EntityUID,
    attrs: Vec<(RcStr, RestrictedExpr)>,
    parents: Vec<EntityUID>,
) -> Result<StatedEntity, JsonError>
    ensures said { IfOk result
        (λ r. stated.with_tags (uid_name uid) (pairs_said attrs.items) (names_of parents.items)
        (value_view value.now) ≡ Ok (stated_view r)) }
    ensures refused { IfErr result
        (IsRefusal (stated.with_tags (uid_name uid) (pairs_said attrs.items) (names_of parents.items)
        (value_view value.now))) }
{
    match tags_at(alloc, value) {
        Ok(tags) => Ok(StatedEntity {
            uid,
            attrs,
            parents,
            tags,
        }),
        Err(error) => {
            drop((uid, attrs, parents));
            Err(error)
        }
    }
}

// The first key that is none of an entity's.
fn find_unexpected<'v, 'a>(members: &'v Vec<(&'a str, Value<'a>)>) -> Option<&'v str>
    ensures { option_map (λ k. k.now) result ≡
        stated.first_other stated.is_entity_key (members_view members.now.items) }
{
    'members: for member in members {
        if !is_entity_key(member.0) {
            return Some(member.0);
        }
    }
    None
}

fn is_entity_key(key: &str) -> bool
    ensures { result ≡ stated.is_entity_key key.now }
{
    key == "uid" || key == "attrs" || key == "parents" || key == "tags"
}

/// The refusal of a member that is unexpected.
#[cold]
pub(crate) fn no_member(alloc: Global, key: &str) -> JsonError
    ensures { IsRefusedAt (at_key key.now ∷ []) reasons.UnexpectedMember result }
{
    JsonError::refusal(alloc, RefusalReason::UnexpectedMember).under_key(alloc, key)
}

/// The refusal of an object that lacks the member of this key.
#[cold]
pub(crate) fn missing(alloc: Global, key: &str) -> JsonError
    ensures { IsRefusedAt (at_key key.now ∷ []) reasons.MissingMember result }
{
    JsonError::refusal(alloc, RefusalReason::MissingMember).under_key(alloc, key)
}

/// The entity that stands at this key of the object.
pub(crate) fn uid_at(alloc: Global, value: &Value<'_>, key: &str) -> Result<EntityUID, JsonError>
    ensures said { IfOk result (λ r. stated.uid_at key.now (value_view value.now) ≡ Ok (uid_name r)) }
    ensures refused { IfErr result (IsRefusal (stated.uid_at key.now (value_view value.now))) }
{
    match value.get(key) {
        Some(member) => match plain_uid(alloc, member) {
            Ok(uid) => Ok(uid),
            Err(error) => Err(error.under_key(alloc, key)),
        },
        None => Err(missing(alloc, key)),
    }
}

/// The entity, with or without `__entity` round its type and its id.
pub(crate) fn plain_uid(alloc: Global, value: &Value<'_>) -> Result<EntityUID, JsonError>
    ensures said { IfOk result (λ r. stated.plain_uid_said (value_view value.now) ≡ Ok (uid_name r)) }
    ensures refused { IfErr result (IsRefusal (stated.plain_uid_said (value_view value.now))) }
{
    match find_escape(value) {
        Some(inner) => match uid(alloc, inner) {
            Ok(uid) => Ok(uid),
            Err(error) => Err(error.under_key(alloc, "__entity")),
        },
        None => uid(alloc, value),
    }
}

// What stands at `__entity`, where it stands alone.
fn find_escape<'v, 'a>(value: &'v Value<'a>) -> Option<&'v Value<'a>>
    ensures { option_map (λ v. value_view v.now) result ≡ stated.entity_escape (value_view value.now) }
{
    match object(value) {
        Some(members) => match sole(members) {
            Some((key, inner)) => if key == "__entity" { Some(inner) } else { None },
            None => None,
        },
        None => None,
    }
}

fn attrs_at(alloc: Global, value: &Value<'_>) -> Result<Vec<(RcStr, RestrictedExpr)>, JsonError>
    ensures said { IfOk result (λ r. stated.attributes_of (value_view value.now) ≡ Ok (pairs_said r.items)) }
    ensures refused { IfErr result (IsRefusal (stated.attributes_of (value_view value.now))) }
{
    match value.get("attrs") {
        Some(member) => pairs_under(alloc, member, "attrs"),
        None => Err(missing(alloc, "attrs")),
    }
}

fn tags_at(alloc: Global, value: &Value<'_>) -> Result<Vec<(RcStr, RestrictedExpr)>, JsonError>
    ensures said { IfOk result (λ r. stated.tags_of (value_view value.now) ≡ Ok (pairs_said r.items)) }
    ensures refused { IfErr result (IsRefusal (stated.tags_of (value_view value.now))) }
{
    match value.get("tags") {
        Some(member) => pairs_under(alloc, member, "tags"),
        None => Ok(Vec::new(alloc)),
    }
}

// The attributes or tags of the object, which stands at this key.
fn pairs_under(
    alloc: Global,
    value: &Value<'_>,
    key: &str,
) -> Result<Vec<(RcStr, RestrictedExpr)>, JsonError>
    ensures said { IfOk result
        (λ r. under (at_key key.now) (stated.pairs_of (value_view value.now)) ≡ Ok (pairs_said r.items)) }
    ensures refused { IfErr result (IsRefusal (under (at_key key.now) (stated.pairs_of (value_view value.now)))) }
{
    match object(value) {
        Some(members) => match pairs(alloc, members) {
            Ok(pairs) => Ok(pairs),
            Err(error) => Err(error.under_key(alloc, key)),
        },
        None => { Err(JsonError::refusal(alloc, RefusalReason::NotAnObject).under_key(alloc, key)) }
    }
}

fn pairs<'a>(
    alloc: Global,
    members: &Vec<(&'a str, Value<'a>)>,
) -> Result<Vec<(RcStr, RestrictedExpr)>, JsonError>
    ensures said { IfOk result (λ r. says.said_members (members_view members.now.items) ≡ Ok (pairs_said r.items)) }
    ensures refused { IfErr result (IsRefusal (says.said_members (members_view members.now.items))) }
{
    let mut pairs: Vec<(RcStr, RestrictedExpr)> = Vec::new(alloc);
    match read_members(alloc, members, &mut pairs) {
        Ok(()) => Ok(pairs),
        Err(error) => {
            drop(pairs);
            Err(error)
        }
    }
}

fn parents_at(alloc: Global, value: &Value<'_>) -> Result<Vec<EntityUID>, JsonError>
    ensures said { IfOk result (λ r. stated.parents_of (value_view value.now) ≡ Ok (names_of r.items)) }
    ensures refused { IfErr result (IsRefusal (stated.parents_of (value_view value.now))) }
{
    match value.get("parents") {
        Some(member) => match uids(alloc, member) {
            Ok(uids) => Ok(uids),
            Err(error) => Err(error.under_key(alloc, "parents")),
        },
        None => Err(missing(alloc, "parents")),
    }
}

fn uids(alloc: Global, value: &Value<'_>) -> Result<Vec<EntityUID>, JsonError>
    ensures said { IfOk result (λ r. stated.uids_of (value_view value.now) ≡ Ok (names_of r.items)) }
    ensures refused { IfErr result (IsRefusal (stated.uids_of (value_view value.now))) }
{
    match array(value) {
        Some(items) => read_uids(alloc, items),
        None => Err(JsonError::refusal(alloc, RefusalReason::NotAnArray)),
    }
}

fn read_uids(alloc: Global, items: &Vec<Value<'_>>) -> Result<Vec<EntityUID>, JsonError>
    ensures said { IfOk result (λ r. stated.uids_from 0 (items_view items.now.items) ≡ Ok (names_of r.items)) }
    ensures refused { IfErr result (IsRefusal (stated.uids_from 0 (items_view items.now.items))) }
{
    let mut uids: Vec<EntityUID> = Vec::new(alloc);
    match put_uids(alloc, items, &mut uids) {
        Ok(()) => Ok(uids),
        Err(error) => {
            drop(uids);
            Err(error)
        }
    }
}

fn put_uids(
    alloc: Global,
    items: &Vec<Value<'_>>,
    uids: &mut Vec<EntityUID>,
) -> Result<(), JsonError>
    requires { uids.old.items ≡ [] }
    ensures said { OnOk result (stated.uids_from 0 (items_view items.now.items) ≡ Ok (names_of uids.new.items)) }
    ensures refused { IfErr result (IsRefusal (stated.uids_from 0 (items_view items.now.items))) }
{
    let mut index: usize = 0;
    'items: for item in items {
        put_uid(alloc, item, index, uids)?;
        index += 1;
    }
    Ok(())
}

// Puts the entity, which has this index, behind those that are there.
fn put_uid(
    alloc: Global,
    item: &Value<'_>,
    index: usize,
    uids: &mut Vec<EntityUID>,
) -> Result<(), JsonError>
    ensures said { OnOk result (IsOneMore (names_of uids.old.items)
        (under (at_index index) (stated.plain_uid_said (value_view item.now))) (names_of uids.new.items)) }
    ensures refused { IfErr result
        (IsRefusal (under (at_index index) (stated.plain_uid_said (value_view item.now)))) }
{
    match plain_uid(alloc, item) {
        Ok(uid) => push_uid(uid, uids),
        Err(error) => Err(error.under_index(index)),
    }
}

fn push_uid(uid: EntityUID, uids: &mut Vec<EntityUID>) -> Result<(), JsonError>
    ensures said { OnOk result (names_of uids.new.items ≡ names_of uids.old.items ++ uid_name uid ∷ []) }
    ensures memory { IfErr result IsMemory }
{
    match uids.push(uid) {
        Ok(()) => Ok(()),
        Err(failed) => Err(JsonError::from(failed)),
    }
}
