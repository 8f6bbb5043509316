//! Why no context was made.
ghost use Rattle.std.specs.Prelude.{◌≡◌, alloc_error};
ghost use Rattle.cedar_requests.specs.Errors.{IsEvaluationRefusal, construction_refusal};
ghost use Rattle.cedar_requests.specs.declared.errors.ContextCreationError.TheVariants.{NotARecord, Memory};

use cedar_errors::evaluator::err::EvaluationError;
use cedar_expressions::ExpressionConstructionError;
use std::alloc::{AllocError, AllocFailed};
use thiserror::Error;

/// Why no context was made.
#[derive(Debug, Drop, Error)]
pub enum ContextCreationError {
    /// The expression is no record.
    #[error(transparent)]
    NotARecord(context_creation_errors::NotARecord),
    /// The evaluation of the record failed.
    #[error(transparent)]
    Evaluation(EvaluationError),
    /// The record could not be made. Only `Context::from_pairs` answers this.
    #[error(transparent)]
    ExpressionConstruction(ExpressionConstructionError),
    /// Out of memory.
    #[error("out of memory")]
    Memory(AllocError),
}

/// The structs of `ContextCreationError`.
pub mod context_creation_errors {
    use cedar_expressions::Expr;
    use thiserror::Error;

    /// The expression is no record.
    #[derive(Debug, Error)]
    #[error("expression is not a record: {expr}")]
    pub struct NotARecord {
        /// The expression, with its location.
        pub expr: Expr,
    }

    impl Drop for NotARecord {
        fn drop(self) {
            let NotARecord { expr: _ } = self;
        }
    }
}

/// `NotARecord`.
impl From<context_creation_errors::NotARecord> for ContextCreationError {
    ghost from_gives = { λ error result. result ≡ NotARecord error };

    fn from(error: context_creation_errors::NotARecord) -> ContextCreationError {
        ContextCreationError::NotARecord(error)
    }
}

/// `Evaluation`, or `Memory` if out of memory.
impl From<EvaluationError> for ContextCreationError {
    ghost from_gives = { IsEvaluationRefusal };

    fn from(error: EvaluationError) -> ContextCreationError {
        match error {
            EvaluationError::Memory(error) => ContextCreationError::Memory(error),
            other => ContextCreationError::Evaluation(other),
        }
    }
}

/// `ExpressionConstruction`, or `Memory` if out of memory.
impl From<ExpressionConstructionError> for ContextCreationError {
    ghost from_gives = { λ error result. result ≡ construction_refusal error };

    fn from(error: ExpressionConstructionError) -> ContextCreationError {
        match error {
            ExpressionConstructionError::DuplicateKey { key, context } => {
                ContextCreationError::ExpressionConstruction(
                    ExpressionConstructionError::DuplicateKey { key, context },
                )
            }
            ExpressionConstructionError::Memory(error) => ContextCreationError::Memory(error),
        }
    }
}

/// `Memory`.
impl From<AllocError> for ContextCreationError {
    ghost from_gives = { λ error result. result ≡ Memory error };

    fn from(error: AllocError) -> ContextCreationError {
        ContextCreationError::Memory(error)
    }
}

/// `Memory`, and what found no room is dropped.
impl<T: Drop> From<AllocFailed<T>> for ContextCreationError {
    ghost from_gives = { λ _ result. result ≡ Memory alloc_error };

    fn from(_failed: AllocFailed<T>) -> ContextCreationError {
        ContextCreationError::Memory(AllocError)
    }
}
