//! Why entities were not added to a store.
ghost use Rattle.std.specs.Prelude.{◌≡◌, Some};
ghost use Rattle.cedar_overlay.specs.declared.entities_error.EntitiesError.TheVariants.{Memory};
ghost use Rattle.cedar_overlay.specs.Texts.{entities_error_text};

use cedar_layers::expressions::EntityUID;
use std::alloc::AllocError;
use std::error::Error;
use std::fmt;

/// Why entities were not added to a store.
#[derive(Debug, Drop)]
pub enum EntitiesError {
    /// There is not enough memory.
    Memory(AllocError),
    /// The entity is stored already.
    AlreadyStored(EntityUID),
    /// The entity is brought more than once.
    Repeated(EntityUID),
    /// The entity has a parent, the second, that is neither stored nor brought.
    NoParent(EntityUID, EntityUID),
    /// The entity has parents, and a stored entity, the second, records it as an ancestor: that one would get more.
    IsAnAncestor(EntityUID, EntityUID),
    /// The parents of the entity lead back to it.
    Cycle(EntityUID),
}

/// `out of memory`, or a sentence with the names of entities in backticks: `the entity`, the first name, and `is stored
/// already`, `is brought more than once`, `has the parent`, the second, `which is neither stored nor brought`, or `has
/// parents, and the stored entity`, the second, `records it as an ancestor`; or `the parents of the entity`, the name,
/// and `lead back to it`.
impl fmt::Display for EntitiesError {
    ghost output = { λ error. Some (entities_error_text error) };

    fn fmt<W: fmt::Write>(&self, f: &mut fmt::Formatter<W>) -> fmt::Result {
        match self {
            EntitiesError::Memory(_) => f.write_str("out of memory"),
            EntitiesError::AlreadyStored(uid) => {
                f.write_str("the entity `")?;
                uid.fmt(f)?;
                f.write_str("` is stored already")
            }
            EntitiesError::Repeated(uid) => {
                f.write_str("the entity `")?;
                uid.fmt(f)?;
                f.write_str("` is brought more than once")
            }
            EntitiesError::NoParent(uid, parent) => {
                f.write_str("the entity `")?;
                uid.fmt(f)?;
                f.write_str("` has the parent `")?;
                parent.fmt(f)?;
                f.write_str("`, which is neither stored nor brought")
            }
            EntitiesError::IsAnAncestor(uid, of) => {
                f.write_str("the entity `")?;
                uid.fmt(f)?;
                f.write_str("` has parents, and the stored entity `")?;
                of.fmt(f)?;
                f.write_str("` records it as an ancestor")
            }
            EntitiesError::Cycle(uid) => {
                f.write_str("the parents of the entity `")?;
                uid.fmt(f)?;
                f.write_str("` lead back to it")
            }
        }
    }
}

impl Error for EntitiesError {}

/// Running out of memory is `Memory`, so that `?` takes an `AllocError`.
impl From<AllocError> for EntitiesError {
    ghost from_gives = { λ error result. result ≡ Memory error };

    fn from(error: AllocError) -> EntitiesError {
        EntitiesError::Memory(error)
    }
}
