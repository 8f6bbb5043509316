//! Names, entities and texts.
use cedar_policy_core::ast::{EntityType, EntityUID, Literal, Name, Value};
use std::alloc::{AllocError, Global};
use std::collections::BTreeMap;
use std::rc::{Rc, RcStr};

/// The name of this text.
pub fn name(alloc: Global, text: &str) -> Result<Name, AllocError> {
    Ok(Name::new(RcStr::from_str(alloc, text)?, None))
}

/// The entity of this type with this id.
pub fn uid(alloc: Global, type_name: &str, id: &str) -> Result<EntityUID, AllocError> {
    let ty = EntityType::new(name(alloc, type_name)?);
    Ok(EntityUID::new(ty, RcStr::from_str(alloc, id)?, None))
}

/// The same, as a literal.
pub fn entity(alloc: Global, type_name: &str, id: &str) -> Result<Literal, AllocError> {
    Ok(Literal::EntityUID(Rc::new(alloc, uid(alloc, type_name, id)?)?))
}

/// A text, as a value.
pub fn text_value(alloc: Global, text: &str) -> Result<Value, AllocError> {
    Ok(Value::from(RcStr::from_str(alloc, text)?))
}

/// Both, or the first error.
pub fn both<A: Drop, B: Drop>(
    first: Result<A, AllocError>,
    second: Result<B, AllocError>,
) -> Result<(A, B), AllocError> {
    let first = first?;
    let second = second?;
    Ok((first, second))
}

/// Puts the value into the map, under this name.
pub fn put<V: Drop>(
    alloc: Global,
    map: &mut BTreeMap<RcStr, V>,
    name: &str,
    value: Result<V, AllocError>,
) -> Result<(), AllocError> {
    let value = value?;
    map.insert(RcStr::from_str(alloc, name)?, value)?;
    Ok(())
}
