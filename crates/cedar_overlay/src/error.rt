//! Why attributes were not laid over a store.
ghost use Rattle.std.specs.Prelude.{◌≡◌, Some};
ghost use Rattle.cedar_overlay.specs.declared.error.AttributesError.TheVariants.{Memory};
ghost use Rattle.cedar_overlay.specs.Texts.{error_text};

use cedar_layers::expressions::EntityUID;
use std::alloc::AllocError;
use std::error::Error;
use std::fmt;
use std::rc::RcStr;

/// Why attributes were not laid over a store.
#[derive(Debug, Drop)]
pub enum AttributesError {
    /// There is not enough memory.
    Memory(AllocError),
    /// There are attributes of this entity, and the store lacks the entity.
    NotStored(EntityUID),
    /// The stored entity has the attribute of this name already.
    HasAttribute(EntityUID, RcStr),
}

/// `out of memory`; `the entity`, the entity's name in backticks, and `is not stored`; or that and `has the attribute
/// already`, with the attribute's name as a text of Cedar between.
impl fmt::Display for AttributesError {
    ghost output = { λ error. Some (error_text error) };

    fn fmt<W: fmt::Write>(&self, f: &mut fmt::Formatter<W>) -> fmt::Result {
        match self {
            AttributesError::Memory(_) => f.write_str("out of memory"),
            AttributesError::NotStored(uid) => {
                f.write_str("the entity `")?;
                uid.fmt(f)?;
                f.write_str("` is not stored")
            }
            AttributesError::HasAttribute(uid, name) => {
                f.write_str("the entity `")?;
                uid.fmt(f)?;
                f.write_str("` has the attribute `")?;
                f.write_str(name.as_str())?;
                f.write_str("` already")
            }
        }
    }
}

impl Error for AttributesError {}

/// Running out of memory is `Memory`, so that `?` takes an `AllocError`.
impl From<AllocError> for AttributesError {
    ghost from_gives = { λ error result. result ≡ Memory error };

    fn from(error: AllocError) -> AttributesError {
        AttributesError::Memory(error)
    }
}
