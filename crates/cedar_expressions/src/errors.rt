//! Errors of making expressions.
ghost use Rattle.std.specs.Prelude.{◌≡◌};
ghost use Rattle.cedar_expressions.specs.declared.errors.ExpressionConstructionError.TheVariants.{Memory};
ghost use Rattle.cedar_expressions.specs.Errors.{IsInContext};
ghost use Rattle.std.specs.Prelude.{alloc_error};

use std::alloc::{AllocError, AllocFailed};
use std::rc::RcStr;
use thiserror::Error;

/// Why an expression could not be made.
#[derive(Debug, Clone, PartialEq, Eq, Drop, Error)]
pub enum ExpressionConstructionError {
    /// A key comes more than once. It is the first that is a duplicate.
    #[error("duplicate key `{key}` {context}")]
    DuplicateKey { key: RcStr, context: &'static str },
    /// Out of memory.
    #[error("out of memory")]
    Memory(AllocError),
}

impl ExpressionConstructionError {
    /// The same error, which names this context in place of its own, if it names one.
    pub fn with_context(self, context: &'static str) -> ExpressionConstructionError
        ensures { IsInContext self context.entry result }
    {
        match self {
            ExpressionConstructionError::DuplicateKey { key, context: _ } => {
                ExpressionConstructionError::DuplicateKey { key, context }
            }
            ExpressionConstructionError::Memory(error) => ExpressionConstructionError::Memory(
                error,
            ),
        }
    }
}

impl From<AllocError> for ExpressionConstructionError {
    ghost from_gives = { λ error result. result ≡ Memory error };

    fn from(error: AllocError) -> ExpressionConstructionError {
        ExpressionConstructionError::Memory(error)
    }
}

impl<T: Drop> From<AllocFailed<T>> for ExpressionConstructionError {
    ghost from_gives = { λ _ result. result ≡ Memory alloc_error };

    fn from(_failed: AllocFailed<T>) -> ExpressionConstructionError {
        ExpressionConstructionError::Memory(AllocError)
    }
}
