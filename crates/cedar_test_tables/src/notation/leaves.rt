//! Reads leaves: places, names, entities and types.
use crate::notation::unanswered::Unanswered;
use cedar_layers::expressions::{
    EntityType, EntityUID, FirstRest, Loc, Name, SlotId, Type, Unknown, Var,
};
use cedar_text_parser::parse_entity_uid;
use std::alloc::{AllocError, Global};
use std::rc::RcStr;

/// The slot of this name.
pub fn slot(word: &str) -> Result<SlotId, Unanswered> {
    match word {
        "principal" => Ok(SlotId::Principal),
        "resource" => Ok(SlotId::Resource),
        _ => Err(Unanswered::Unreadable("no such slot")),
    }
}

/// The slot that stands for this variable, if there is one.
pub fn slot_of(var: Var) -> Option<SlotId> {
    match var {
        Var::Principal => Some(SlotId::Principal),
        Var::Resource => Some(SlotId::Resource),
        Var::Action => None,
        Var::Context => None,
    }
}

/// The place with these ends, as `1-2`; the empty text and `-` are no place.
pub fn place(text: &str) -> Result<Option<Loc>, Unanswered> {
    if text == "-" {
        return Ok(None);
    }
    match text.split_once('-') {
        Some((start, end)) => {
            let (start, end) = (start.parse::<usize>()?, end.parse::<usize>()?);
            Ok(Some(Loc { start, end }))
        }
        None => if text.is_empty() {
            Ok(None)
        } else {
            Err(Unanswered::Unreadable("a place has two ends"))
        },
    }
}

/// The name, written with its place behind `@` where it has one.
pub fn name(alloc: Global, written: &str) -> Result<Name, Unanswered> {
    match written.split_once('@') {
        Some((name, ends)) => Ok(Name::new(RcStr::from_str(alloc, name)?, place(ends)?)),
        None => Ok(Name::new(RcStr::from_str(alloc, written)?, None)),
    }
}

/// The type of entities of this name.
pub fn entity_type(alloc: Global, written: &str) -> Result<EntityType, Unanswered> {
    Ok(EntityType::new(name(alloc, written)?))
}

/// The name of an entity, as `User::"a"`.
pub fn uid(alloc: Global, text: &str) -> Result<EntityUID, Unanswered> {
    match parse_entity_uid(alloc, text) {
        Ok(read) => {
            let uid = without_place(alloc, &read);
            drop(read);
            Ok(uid?)
        }
        Err(error) => Err(Unanswered::from(error)),
    }
}

/// The entity, named at no place.
pub fn without_place(alloc: Global, uid: &EntityUID) -> Result<EntityUID, AllocError> {
    EntityUID::of(alloc, uid.entity_type().text().as_str(), uid.eid().as_str())
}

/// The type, as `Long`, `Entity:User` or `Extension:ipaddr`.
pub fn named_type(alloc: Global, written: &str) -> Result<Type, Unanswered> {
    match written.split_once(':') {
        Some(("Entity", ty)) => Ok(Type::Entity {
            ty: entity_type(alloc, ty)?,
        }),
        Some(("Extension", name_of)) => Ok(Type::Extension {
            name: name(alloc, name_of)?,
        }),
        Some(_) => Err(Unanswered::Unreadable("no such type")),
        None => Ok(plain_type(written).ok_or("no such type")?),
    }
}

fn plain_type(written: &str) -> Option<Type> {
    match written {
        "Bool" => Some(Type::Bool),
        "Long" => Some(Type::Long),
        "String" => Some(Type::String),
        "Set" => Some(Type::Set),
        "Record" => Some(Type::Record),
        _ => None,
    }
}

/// The unknown that stands for the entity where a store lacks it: it is named as the entity prints, and has the
/// entity's type.
pub fn standing_for(alloc: Global, uid: &EntityUID) -> Result<Unknown, AllocError> {
    let shown = uid.to_string(alloc)?;
    let name = RcStr::from_str(alloc, shown.as_str())?;
    let ty = uid.entity_type().clone()?;
    Ok(Unknown::new_with_type(name, Type::Entity { ty }))
}

/// The same attributes.
pub fn attributes(alloc: Global, path: &FirstRest<RcStr>) -> Result<FirstRest<RcStr>, AllocError> {
    let first = path.first.clone()?;
    let mut rest: Vec<RcStr> = Vec::new(alloc);
    for attribute in &path.rest {
        rest.push(attribute.clone()?)?;
    }
    Ok(FirstRest { first, rest })
}
