//! Errors that may be out of memory, which is no answer to a row.
use cedar_authorizer::authorizer::{ConcretizationError, ReauthorizationError};
use cedar_errors::evaluator::err::EvaluationError;
use cedar_layers::expressions::ExpressionConstructionError;
use cedar_layers::policies::PolicySetError;
use cedar_requests::ContextCreationError;
use cedar_restricted::{PartialValueToRestrictedExprError, RestrictedExpressionError};
use std::fmt;

/// An error that may be out of memory.
pub trait Refusal: fmt::Display + Drop {
    /// Whether it is.
    fn is_out_of_memory(&self) -> bool;
}

impl Refusal for EvaluationError {
    fn is_out_of_memory(&self) -> bool {
        matches!(self, EvaluationError::Memory(_))
    }
}

impl Refusal for ReauthorizationError {
    fn is_out_of_memory(&self) -> bool {
        match self {
            ReauthorizationError::ErrorHandlingConflict { .. } => false,
            ReauthorizationError::PolicySetError(error) => error.is_out_of_memory(),
            ReauthorizationError::ConcretizationError(error) => {
                matches!(error, ConcretizationError::Memory(_))
            }
            ReauthorizationError::Memory(_) => true,
        }
    }
}

impl Refusal for ContextCreationError {
    fn is_out_of_memory(&self) -> bool {
        match self {
            ContextCreationError::NotARecord(_) => false,
            ContextCreationError::Evaluation(error) => error.is_out_of_memory(),
            ContextCreationError::ExpressionConstruction(error) => error.is_out_of_memory(),
            ContextCreationError::Memory(_) => true,
        }
    }
}

impl Refusal for ExpressionConstructionError {
    fn is_out_of_memory(&self) -> bool {
        matches!(self, ExpressionConstructionError::Memory(_))
    }
}

impl Refusal for RestrictedExpressionError {
    fn is_out_of_memory(&self) -> bool {
        matches!(self, RestrictedExpressionError::Memory(_))
    }
}

impl Refusal for PartialValueToRestrictedExprError {
    fn is_out_of_memory(&self) -> bool {
        matches!(self, PartialValueToRestrictedExprError::Memory(_))
    }
}

impl Refusal for PolicySetError {
    fn is_out_of_memory(&self) -> bool {
        matches!(self, PolicySetError::Memory(_))
    }
}
