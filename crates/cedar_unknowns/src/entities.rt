#![tactic(auto, using(crate::proofs::Standing::standing))]
//! The unknowns that stand for entities, and those that stand for none.
ghost use Rattle.std.specs.Prelude.{◌≡◌, ◌++◌, [], Some, false, map, IfOk, OnOk, is_none, option_copied};
ghost use Rattle.std.specs.Prelude.{option_map, string_bytes};
ghost use Rattle.std.specs.Char.{encode_utf8};
ghost use Rattle.cedar_model.specs.Terms.{Text, entity_type};
ghost use Rattle.cedar_names.specs.Names.{type_text, uid_name};
ghost use Rattle.cedar_names.specs.Leaves.{type_view};
ghost use Rattle.cedar_unknowns.specs.Occurrences.{asked, asked_each, asked_eq};
ghost use Rattle.cedar_unknowns.specs.Entities.{asked_for, entity_asked, entity_if_for, entity_before};
ghost use Rattle.cedar_unknowns.specs.Entities.{asked_unless, entities_asked, others_asked};
ghost use Rattle.cedar_unknowns.specs.Quoted.{unescaped, entity_quoted, IsQuotedId, IsBetween};
ghost use Rattle.cedar_unknowns.specs.Quoted.{IsWithoutPrefix, IsWithoutSuffix};

use crate::noting::copy_unknown;
use cedar_names::{EntityType, EntityUID, Type, Unknown};
use indexmap::IndexSet;
use std::alloc::{AllocError, Global};
use std::rc::RcStr;

/// The entities that these unknowns stand for, in order.
pub(crate) fn entities_of(
    alloc: Global,
    found: &IndexSet<Unknown>,
) -> Result<Vec<EntityUID>, AllocError>
    ensures { IfOk result (λ us. map uid_name us.items ≡ entities_asked (asked_each found.now.keys)) }
{
    let mut entities: Vec<EntityUID> = Vec::new(alloc);
    'unknowns: for unknown in found.as_slice() {
        add_entity(alloc, unknown, &mut entities)?;
    }
    Ok(entities)
}

fn add_entity(
    alloc: Global,
    unknown: &Unknown,
    entities: &mut Vec<EntityUID>,
) -> Result<(), AllocError>
    ensures { OnOk result (map uid_name entities.new.items
        ≡ map uid_name entities.old.items ++ entity_before (entity_asked (asked unknown.now)) []) }
{
    match entity_of(alloc, unknown)? {
        Some(uid) => entities.push(uid)?,
        None => {}
    }
    Ok(())
}

/// Those of these unknowns that stand for no entity, in order.
pub(crate) fn others_of(
    alloc: Global,
    found: &IndexSet<Unknown>,
) -> Result<Vec<Unknown>, AllocError>
    ensures { IfOk result (λ us. asked_each us.items ≡ others_asked (asked_each found.now.keys)) }
{
    let mut others: Vec<Unknown> = Vec::new(alloc);
    'unknowns: for unknown in found.as_slice() {
        add_other(alloc, unknown, &mut others)?;
    }
    Ok(others)
}

fn add_other(alloc: Global, unknown: &Unknown, others: &mut Vec<Unknown>) -> Result<(), AllocError>
    ensures { OnOk result (asked_each others.new.items ≡ asked_each others.old.items
        ++ asked_unless (entity_asked (asked unknown.now)) (asked unknown.now) []) }
{
    if stands_for_none(alloc, unknown)? {
        others.push(copy_unknown(unknown)?)?;
    }
    Ok(())
}

fn stands_for_none(alloc: Global, unknown: &Unknown) -> Result<bool, AllocError>
    ensures { IfOk result (λ b. b ≡ is_none (entity_asked (asked unknown.now))) }
{
    let entity = entity_of(alloc, unknown)?;
    let is_none = entity.is_none();
    drop(entity);
    Ok(is_none)
}

// The entity that the unknown stands for, if it stands for one.
fn entity_of(alloc: Global, unknown: &Unknown) -> Result<Option<EntityUID>, AllocError>
    ensures { IfOk result (λ o. option_map uid_name o ≡ entity_asked (asked unknown.now)) }
{
    match &unknown.type_annotation {
        None => Ok(None),
        Some(ty) => entity_of_type(alloc, ty, unknown.name.as_str()),
    }
}

// The same of an unknown of this name that is annotated with this type: only an entity's unknown is annotated with an
// entity type.
fn entity_of_type(alloc: Global, ty: &Type, name: &str) -> Result<Option<EntityUID>, AllocError>
    ensures { IfOk result (λ o. option_map uid_name o ≡ entity_asked (name.now, Some (type_view ty.now))) }
{
    match ty {
        Type::Bool => Ok(None),
        Type::Long => Ok(None),
        Type::String => Ok(None),
        Type::Set => Ok(None),
        Type::Record => Ok(None),
        Type::Entity { ty } => entity_named(alloc, ty, name),
        Type::Extension { name: _ } => Ok(None),
    }
}

// The entity of this type whose text this is, if it is one's.
fn entity_named(alloc: Global, ty: &EntityType, name: &str) -> Result<Option<EntityUID>, AllocError>
    ensures { IfOk result
        (λ o. option_map uid_name o ≡ entity_asked (name.now, Some (entity_type (type_text ty.now)))) }
{
    match quoted_id(ty, name) {
        None => Ok(None),
        Some(quoted) => entity_if_named(alloc, ty, quoted, name),
    }
}

// What stands between the quotes, where the text is this type, two colons and something in quotes.
fn quoted_id<'a>(ty: &EntityType, text: &'a str) -> Option<&'a str>
    ensures { IsQuotedId (type_text ty.now) text.now (option_copied result) }
{
    match without_prefix(text, name_of(ty)) {
        Some(behind) => between(behind, "::\"", "\""),
        None => None,
    }
}

fn name_of(ty: &EntityType) -> &str
    ensures { result.now ≡ type_text ty.now }
{
    ty.text().as_str()
}

// The text without both, where it has both.
fn between<'a>(text: &'a str, prefix: &str, suffix: &str) -> Option<&'a str>
    ensures { IsBetween prefix.now suffix.now text.now (option_copied result) }
{
    match without_prefix(text, prefix) {
        Some(behind) => without_suffix(behind, suffix),
        None => None,
    }
}

fn without_prefix<'a>(text: &'a str, prefix: &str) -> Option<&'a str>
    ensures { IsWithoutPrefix prefix.now text.now (option_copied result) }
{
    text.strip_prefix(prefix)
}

fn without_suffix<'a>(text: &'a str, suffix: &str) -> Option<&'a str>
    ensures { IsWithoutSuffix suffix.now text.now (option_copied result) }
{
    text.strip_suffix(suffix)
}

// The entity of this type whose id stands so between quotes, if this is its text.
fn entity_if_named(
    alloc: Global,
    ty: &EntityType,
    quoted: &str,
    name: &str,
) -> Result<Option<EntityUID>, AllocError>
    ensures { IfOk result (λ o. option_map uid_name o ≡ entity_if_for (name.now, Some (entity_type (type_text ty.now)))
        (Some (entity_quoted (type_text ty.now) quoted.now))) }
{
    let uid = entity_of_quoted(alloc, ty, quoted)?;
    if is_named(alloc, &uid, name)? {
        Ok(Some(uid))
    } else {
        drop(uid);
        Ok(None)
    }
}

// Whether this is the entity's text, so that an unknown of this name and the entity's type stands for the entity.
fn is_named(alloc: Global, uid: &EntityUID, name: &str) -> Result<bool, AllocError>
    ensures { IfOk result (λ b. b ≡ asked_eq (name.now, Some (entity_type (uid_name uid.now).type_name))
        (asked_for (uid_name uid.now))) }
{
    let text = uid.to_string(alloc)?;
    Ok(text.as_str() == name)
}

fn entity_of_quoted(alloc: Global, ty: &EntityType, quoted: &str) -> Result<EntityUID, AllocError>
    ensures { IfOk result (λ u. uid_name u ≡ entity_quoted (type_text ty.now) quoted.now) }
{
    let eid = RcStr::from_string(unescape_text(alloc, quoted)?)?;
    Ok(EntityUID::new(ty.clone()?, eid, None))
}

// The text without the `\` that stand before other characters.
fn unescape_text(alloc: Global, text: &str) -> Result<String, AllocError>
    ensures { IfOk result (λ s. string_bytes s ≡ unescaped false text.now) }
{
    let mut plain = String::new(alloc);
    let mut is_escaped = false;
    'characters: for character in text.chars() {
        is_escaped = put(&mut plain, character, is_escaped)?;
    }
    Ok(plain)
}

// Puts the character behind these, unless it is a `\` that stands before another one; whether it is one.
fn put(plain: &mut String, character: char, is_escaped: bool) -> Result<bool, AllocError>
    ensures { IfOk result (λ next. (rest : Text) → string_bytes plain.new ++ unescaped next rest
        ≡ string_bytes plain.old ++ unescaped is_escaped (encode_utf8 character ++ rest)) }
{
    if is_escaped {
        plain.push(character)?;
        Ok(false)
    } else if character == '\\' {
        Ok(true)
    } else {
        plain.push(character)?;
        Ok(false)
    }
}
