//! Why no step was taken.
ghost use Rattle.std.specs.Prelude.{◌≡◌, alloc_error};
ghost use Rattle.cedar_staged.specs.declared.errors.StageError.TheVariants as stages;

use cedar_authorizer::authorizer::ReauthorizationError;
use std::alloc::{AllocError, AllocFailed};
use thiserror::Error;

/// Why no step was taken.
#[derive(Debug, Drop, Error)]
pub enum StageError {
    /// The errors of the last response hold the recursion limit: decide the request again, with more levels.
    #[error("the recursion limit is recorded: no step is taken from this response")]
    LimitIsRecorded,
    /// The step is refused, as `reauthorize` refuses it.
    #[error(transparent)]
    Refused(ReauthorizationError),
    /// Out of memory.
    #[error("out of memory")]
    Memory(AllocError),
}

/// `Memory`.
impl From<AllocError> for StageError {
    ghost from_gives = { λ error result. result ≡ stages.Memory error };

    fn from(error: AllocError) -> StageError {
        StageError::Memory(error)
    }
}

/// `Memory`, and what found no room is dropped.
impl<T: Drop> From<AllocFailed<T>> for StageError {
    ghost from_gives = { λ _ result. result ≡ stages.Memory alloc_error };

    fn from(_failed: AllocFailed<T>) -> StageError {
        StageError::Memory(AllocError)
    }
}
