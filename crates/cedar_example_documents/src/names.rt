//! Names, entities and texts.
use cedar_policy_core::ast::{EntityType, EntityUID, Name, Type, Unknown, Value};
use std::alloc::{AllocError, Global};
use std::collections::BTreeMap;
use std::rc::RcStr;

/// The type of this name.
pub fn entity_type(alloc: Global, text: &str) -> Result<EntityType, AllocError> {
    Ok(EntityType::new(Name::new(RcStr::from_str(alloc, text)?, None)))
}

/// The unknown that the documents stand for.
pub fn row(alloc: Global) -> Result<Unknown, AllocError> {
    let ty = entity_type(alloc, "Document")?;
    let name = RcStr::from_str(alloc, "resource")?;
    Ok(Unknown::new_with_type(name, Type::Entity { ty }))
}

/// The entity of this type with this id, as a value.
pub fn entity(alloc: Global, type_name: &str, id: &str) -> Result<Value, AllocError> {
    let uid = EntityUID::of(alloc, type_name, id)?;
    Value::entity(alloc, uid)
}

/// Both, or the first error.
pub fn both<A: Drop, B: Drop>(
    first: Result<A, AllocError>,
    second: Result<B, AllocError>,
) -> Result<(A, B), AllocError> {
    let first = first?;
    let second = second?;
    Ok((first, second))
}

/// Puts the value into the map, under this name.
pub fn put(
    alloc: Global,
    map: &mut BTreeMap<RcStr, Value>,
    name: &str,
    value: Result<Value, AllocError>,
) -> Result<(), AllocError> {
    let value = value?;
    map.insert(RcStr::from_str(alloc, name)?, value)?;
    Ok(())
}
