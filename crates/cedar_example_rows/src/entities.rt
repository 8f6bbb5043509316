//! Names and entities.
use cedar_layers::expressions::{EntityType, EntityUID, Literal, Name};
use std::alloc::{AllocError, Global};
use std::rc::{Rc, RcStr};

/// The name of this text.
pub fn name(alloc: Global, text: &str) -> Result<Name, AllocError> {
    Ok(Name::new(RcStr::from_str(alloc, text)?, None))
}

/// The entity of this type with this id.
pub fn entity(alloc: Global, type_name: &str, id: &str) -> Result<EntityUID, AllocError> {
    let ty = EntityType::new(name(alloc, type_name)?);
    Ok(EntityUID::new(ty, RcStr::from_str(alloc, id)?, None))
}

/// The same, as a literal.
pub fn literal(alloc: Global, type_name: &str, id: &str) -> Result<Literal, AllocError> {
    Ok(Literal::EntityUID(Rc::new(alloc, entity(alloc, type_name, id)?)?))
}
