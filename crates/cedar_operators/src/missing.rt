//! Errors about attributes and tags that are not there: they show the first five names that are.
ghost use Rattle.std.specs.Prelude.{◌≡◌, IfOk, map};
ghost use Rattle.std.specs.Map.{keys_of};
ghost use Rattle.std.specs.Rc.{rc_str_bytes};
ghost use Rattle.cedar_model.specs.Operators.{key_is_missing, shown_names, tag_is_missing, attribute_is_missing};
ghost use Rattle.cedar_names.specs.Names.{uid_name};
ghost use Rattle.cedar_names.specs.Leaves.{texts_view};
ghost use Rattle.cedar_layers.specs.Stores.{entity_view};
ghost use Rattle.cedar_errors.specs.Failures.{failure_of};
ghost use Rattle.cedar_errors.specs.Answers.{FailsWith};

use cedar_errors::evaluator::err::{EvaluationError, evaluation_errors};
use cedar_layers::expressions::{EntityUID, Loc};
use cedar_layers::policies::Entity;
use evaluation_errors::{EntityAttrDoesNotExistError, RecordAttrDoesNotExistError};
use std::alloc::{AllocError, Global};
use std::collections::BTreeMap;
use std::collections::btree_map::Keys;
use std::rc::{Rc, RcStr};

// How many names an error about a missing attribute or tag shows at most.
const TOO_MANY_ATTRS: usize = 5;

// The error that the entity has no such attribute, at this location.
#[cold]
#[inline(never)]
pub(crate) fn no_such_attribute(
    alloc: Global,
    entity: &Entity,
    uid: &Rc<EntityUID>,
    attr: &RcStr,
    loc: Option<&Loc>,
) -> EvaluationError
    ensures { FailsWith result (attribute_is_missing (entity_view entity.now) (uid_name uid.now.value)
        (rc_str_bytes attr.now)) }
{
    match missing_attribute(alloc, entity, uid, attr, loc) {
        Ok(error) => error,
        Err(error) => EvaluationError::Memory(error),
    }
}

fn missing_attribute(
    alloc: Global,
    entity: &Entity,
    uid: &Rc<EntityUID>,
    attr: &RcStr,
    loc: Option<&Loc>,
) -> Result<EvaluationError, AllocError>
    ensures { IfOk result (λ e. failure_of e ≡ attribute_is_missing (entity_view entity.now) (uid_name uid.now.value)
        (rc_str_bytes attr.now)) }
{
    let attr_or_tag = attr.clone()?;
    let uid = uid.clone()?;
    let available_attrs_or_tags = first_names(alloc, entity.keys())?;
    Ok(EvaluationError::EntityAttrDoesNotExist(EntityAttrDoesNotExistError {
        entity: uid,
        attr_or_tag,
        was_attr: true,
        exists_the_other_kind: entity.get_tag(attr).is_some(),
        available_attrs_or_tags,
        total_attrs_or_tags: entity.attrs_len(),
        source_loc: loc.copied(),
    }))
}

// The error that the entity has no such tag, at this location.
#[cold]
#[inline(never)]
pub(crate) fn no_such_tag(
    alloc: Global,
    entity: &Entity,
    uid: &Rc<EntityUID>,
    tag: &RcStr,
    loc: Option<&Loc>,
) -> EvaluationError
    ensures { FailsWith result (tag_is_missing (entity_view entity.now) (uid_name uid.now.value)
        (rc_str_bytes tag.now)) }
{
    match missing_tag(alloc, entity, uid, tag, loc) {
        Ok(error) => error,
        Err(error) => EvaluationError::Memory(error),
    }
}

fn missing_tag(
    alloc: Global,
    entity: &Entity,
    uid: &Rc<EntityUID>,
    tag: &RcStr,
    loc: Option<&Loc>,
) -> Result<EvaluationError, AllocError>
    ensures { IfOk result (λ e. failure_of e ≡ tag_is_missing (entity_view entity.now) (uid_name uid.now.value)
        (rc_str_bytes tag.now)) }
{
    let attr_or_tag = tag.clone()?;
    let uid = uid.clone()?;
    let available_attrs_or_tags = first_names(alloc, entity.tag_keys())?;
    Ok(EvaluationError::EntityAttrDoesNotExist(EntityAttrDoesNotExistError {
        entity: uid,
        attr_or_tag,
        was_attr: false,
        exists_the_other_kind: entity.get(tag).is_some(),
        available_attrs_or_tags,
        total_attrs_or_tags: entity.tags_len(),
        source_loc: loc.copied(),
    }))
}

/// The error that the record has no such key, at this location. It shows the first five keys that are there, by bytes,
/// and how many there are.
#[cold]
#[inline(never)]
pub fn no_such_key<V>(
    alloc: Global,
    pairs: &BTreeMap<RcStr, V>,
    attr: &RcStr,
    loc: Option<&Loc>,
) -> EvaluationError
    ensures { FailsWith result (key_is_missing (rc_str_bytes attr.now) (map rc_str_bytes (keys_of pairs.now.entries))) }
{
    match missing_key(alloc, pairs, attr, loc) {
        Ok(error) => error,
        Err(error) => EvaluationError::Memory(error),
    }
}

fn missing_key<V>(
    alloc: Global,
    pairs: &BTreeMap<RcStr, V>,
    attr: &RcStr,
    loc: Option<&Loc>,
) -> Result<EvaluationError, AllocError>
    ensures { IfOk result (λ e. failure_of e ≡ key_is_missing (rc_str_bytes attr.now)
        (map rc_str_bytes (keys_of pairs.now.entries))) }
{
    let attr = attr.clone()?;
    let available_attrs = first_names(alloc, pairs.keys())?;
    Ok(EvaluationError::RecordAttrDoesNotExist(RecordAttrDoesNotExistError {
        attr,
        available_attrs,
        total_attrs: pairs.len(),
        source_loc: loc.copied(),
    }))
}

// The first five keys, by bytes.
fn first_names<V>(alloc: Global, names: Keys<'_, RcStr, V>) -> Result<Vec<RcStr>, AllocError>
    ensures { IfOk result (λ v. texts_view v.items ≡ shown_names (map rc_str_bytes names.entry)) }
{
    let mut shown: Vec<RcStr> = Vec::new(alloc);
    'names: for name in names {
        if shown.len() == TOO_MANY_ATTRS {
            return Ok(shown);
        }
        shown.push(name.clone()?)?;
    }
    Ok(shown)
}
