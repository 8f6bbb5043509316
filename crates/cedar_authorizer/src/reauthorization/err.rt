//! Why a partial response was not taken further.
ghost use Rattle.std.specs.Prelude.{◌≡◌, alloc_error};
ghost use Rattle.cedar_authorizer.specs.reauthorization.Errors.{IsValueRefusal, IsPolicyRefusal, IsRequestRefusal};
ghost use Rattle.cedar_authorizer.specs.declared.reauthorization.err.ConcretizationError.TheVariants as concretizations;
ghost use Rattle.cedar_authorizer.specs.declared.reauthorization.err.ReauthorizationError.TheVariants as reauthorizations;

use cedar_decisions::ErrorHandling;
use cedar_errors::evaluator::err::EvaluationError;
use cedar_layers::policies::PolicySetError;
use cedar_names::EntityType;
use cedar_values::{PartialValue, Value};
use std::alloc::{AllocError, AllocFailed};
use std::rc::RcStr;
use thiserror::Error;

/// Why a map of values for unknowns makes no request of the one that a response is to.
#[derive(Debug, Drop, Error)]
pub enum ConcretizationError {
    /// The value for a variable is of another kind than its place takes.
    #[error("invalid value {given_value} of {id}: expected type {expected_type}")]
    ValueError {
        /// The variable: `principal`, `action`, `resource` or `context`.
        id: RcStr,
        /// What its value must be: `entity` or `record`.
        expected_type: &'static str,
        /// The map's value.
        given_value: Value,
    },
    /// There is a value for a variable that is known, or for a context that is there.
    #[error("concretizing existing value {existing_value} of {id} with value {given_value}")]
    VarConfictError {
        /// The variable: `principal`, `action`, `resource` or `context`.
        id: RcStr,
        /// What is there.
        existing_value: PartialValue,
        /// The map's value.
        given_value: Value,
    },
    /// The value for an unknown entity is an entity of another type than is known of it.
    #[error("concretizing existing but unknown entity value of type {existing_value} of {id} with value {given_value}")]
    EntityTypeConfictError {
        /// The variable: `principal`, `action` or `resource`.
        id: RcStr,
        /// The type that is known.
        existing_value: EntityType,
        /// The map's value.
        given_value: Value,
    },
    /// The evaluation of the context with the map's values in it failed.
    #[error(transparent)]
    ValueEval(EvaluationError),
    /// Out of memory.
    #[error("out of memory")]
    Memory(AllocError),
}

/// Why a partial response was not taken further.
#[derive(Debug, Drop, Error)]
pub enum ReauthorizationError {
    /// The response and the authorizer handle errors in different ways. It stands at no place.
    #[error("the response and the authorizer have different error handling modes")]
    ErrorHandlingConflict {
        /// The response's.
        response: ErrorHandling,
        /// The authorizer's.
        authorizer: ErrorHandling,
    },
    /// Two of its policies have one id.
    #[error(transparent)]
    PolicySetError(PolicySetError),
    /// The map makes no request.
    #[error(transparent)]
    ConcretizationError(ConcretizationError),
    /// Out of memory.
    #[error("out of memory")]
    Memory(AllocError),
}

/// `ValueEval`, or `Memory` if out of memory.
impl From<EvaluationError> for ConcretizationError {
    ghost from_gives = { IsValueRefusal };

    fn from(error: EvaluationError) -> ConcretizationError {
        match error {
            EvaluationError::Memory(error) => ConcretizationError::Memory(error),
            other => ConcretizationError::ValueEval(other),
        }
    }
}

/// `Memory`.
impl From<AllocError> for ConcretizationError {
    ghost from_gives = { λ error result. result ≡ concretizations.Memory error };

    fn from(error: AllocError) -> ConcretizationError {
        ConcretizationError::Memory(error)
    }
}

/// `Memory`, and what found no room is dropped.
impl<T: Drop> From<AllocFailed<T>> for ConcretizationError {
    ghost from_gives = { λ _ result. result ≡ concretizations.Memory alloc_error };

    fn from(_failed: AllocFailed<T>) -> ConcretizationError {
        ConcretizationError::Memory(AllocError)
    }
}

/// `PolicySetError`, or `Memory` if out of memory.
impl From<PolicySetError> for ReauthorizationError {
    ghost from_gives = { IsPolicyRefusal };

    fn from(error: PolicySetError) -> ReauthorizationError {
        match error {
            PolicySetError::Memory(error) => ReauthorizationError::Memory(error),
            PolicySetError::Occupied { id } => {
                ReauthorizationError::PolicySetError(PolicySetError::Occupied { id })
            }
        }
    }
}

/// `ConcretizationError`, or `Memory` if out of memory, also of a `ValueEval` that holds it.
impl From<ConcretizationError> for ReauthorizationError {
    ghost from_gives = { IsRequestRefusal };

    fn from(error: ConcretizationError) -> ReauthorizationError {
        match error {
            ConcretizationError::Memory(error) => ReauthorizationError::Memory(error),
            ConcretizationError::ValueEval(error) => of_evaluation(error),
            other => ReauthorizationError::ConcretizationError(other),
        }
    }
}

// The error of a step that the evaluation of the context failed with this.
fn of_evaluation(error: EvaluationError) -> ReauthorizationError
    ensures { IsRequestRefusal (concretizations.ValueEval error) result }
{
    match error {
        EvaluationError::Memory(error) => ReauthorizationError::Memory(error),
        other => ReauthorizationError::ConcretizationError(ConcretizationError::ValueEval(other)),
    }
}

/// `Memory`.
impl From<AllocError> for ReauthorizationError {
    ghost from_gives = { λ error result. result ≡ reauthorizations.Memory error };

    fn from(error: AllocError) -> ReauthorizationError {
        ReauthorizationError::Memory(error)
    }
}

/// `Memory`, and what found no room is dropped.
impl<T: Drop> From<AllocFailed<T>> for ReauthorizationError {
    ghost from_gives = { λ _ result. result ≡ reauthorizations.Memory alloc_error };

    fn from(_failed: AllocFailed<T>) -> ReauthorizationError {
        ReauthorizationError::Memory(AllocError)
    }
}
