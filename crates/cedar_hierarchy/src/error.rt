//! Why a store could not be made.
ghost use Rattle.std.specs.Prelude.{◌≡◌, Some};
ghost use Rattle.cedar_hierarchy.specs.declared.error.ClosureError.TheVariants.{Memory};
ghost use Rattle.cedar_hierarchy.specs.Texts.{error_text};

use cedar_layers::expressions::EntityUID;
use std::alloc::AllocError;
use std::error::Error;
use std::fmt;

/// Why the ancestors of entities could not be computed.
#[derive(Debug, Drop)]
pub enum ClosureError {
    /// There is not enough memory.
    Memory(AllocError),
    /// The parents of this entity lead back to it.
    Cycle(EntityUID),
}

/// `out of memory`, or `the parents of the entity`, the entity's name in backticks, and `lead back to it`.
impl fmt::Display for ClosureError {
    ghost output = { λ error. Some (error_text error) };

    fn fmt<W: fmt::Write>(&self, f: &mut fmt::Formatter<W>) -> fmt::Result {
        match self {
            ClosureError::Memory(_) => f.write_str("out of memory"),
            ClosureError::Cycle(uid) => {
                f.write_str("the parents of the entity `")?;
                uid.fmt(f)?;
                f.write_str("` lead back to it")
            }
        }
    }
}

impl Error for ClosureError {}

/// Running out of memory is `Memory`, so that `?` takes an `AllocError`.
impl From<AllocError> for ClosureError {
    ghost from_gives = { λ error result. result ≡ Memory error };

    fn from(error: AllocError) -> ClosureError {
        ClosureError::Memory(error)
    }
}
