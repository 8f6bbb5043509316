//! Why no restricted expression was made.
ghost use Rattle.std.specs.Prelude.{◌≡◌, alloc_error};
ghost use Rattle.cedar_restricted.specs.declared.err.RestrictedExpressionError.TheVariants as refusals;
ghost use Rattle.cedar_restricted.specs.declared.err.PartialValueToRestrictedExprError.TheVariants as kinds;

use cedar_expressions::Expr;
use restricted_expr_errors::InvalidRestrictedExpressionError;
use std::alloc::{AllocError, AllocFailed};
use thiserror::Error;

/// Why an expression is refused where a restricted one is asked for.
#[derive(Debug, Clone, PartialEq, Eq, Drop, Error)]
pub enum RestrictedExpressionError {
    /// A part may not stand in a restricted expression.
    #[error(transparent)]
    InvalidRestrictedExpression(InvalidRestrictedExpressionError),
    /// Out of memory.
    #[error("out of memory")]
    Memory(AllocError),
}

/// The structs of `RestrictedExpressionError`.
pub mod restricted_expr_errors {
    use cedar_expressions::Expr;
    use thiserror::Error;

    /// A part may not stand in a restricted expression.
    #[derive(Debug, Clone, PartialEq, Eq, Drop, Error)]
    #[error("not allowed to use {feature} in a restricted expression: `{expr}`")]
    pub struct InvalidRestrictedExpressionError {
        /// What the part uses: of an operator its text, else the words for its kind.
        pub feature: &'static str,
        /// The part, with its location.
        pub expr: Expr,
    }
}

/// Why a partial value is refused where a restricted expression is asked for.
#[derive(Debug, PartialEq, Eq, Drop, Error)]
pub enum PartialValueToRestrictedExprError {
    /// A part of the residual may not stand in a restricted expression.
    #[error("residual is not a valid restricted expression: `{residual}`")]
    NontrivialResidual {
        /// That part, with its location.
        residual: Box<Expr>,
    },
    /// Out of memory.
    #[error("out of memory")]
    Memory(AllocError),
}

impl From<InvalidRestrictedExpressionError> for RestrictedExpressionError {
    ghost from_gives = { λ error result. result ≡ refusals.InvalidRestrictedExpression error };

    fn from(error: InvalidRestrictedExpressionError) -> RestrictedExpressionError {
        RestrictedExpressionError::InvalidRestrictedExpression(error)
    }
}

/// Running out of memory is `Memory`.
impl From<AllocError> for RestrictedExpressionError {
    ghost from_gives = { λ error result. result ≡ refusals.Memory error };

    fn from(error: AllocError) -> RestrictedExpressionError {
        RestrictedExpressionError::Memory(error)
    }
}

/// Running out of memory is `Memory`, and what found no room is dropped.
impl<T: Drop> From<AllocFailed<T>> for RestrictedExpressionError {
    ghost from_gives = { λ _ result. result ≡ refusals.Memory alloc_error };

    fn from(_failed: AllocFailed<T>) -> RestrictedExpressionError {
        RestrictedExpressionError::Memory(AllocError)
    }
}

/// Running out of memory is `Memory`.
impl From<AllocError> for PartialValueToRestrictedExprError {
    ghost from_gives = { λ error result. result ≡ kinds.Memory error };

    fn from(error: AllocError) -> PartialValueToRestrictedExprError {
        PartialValueToRestrictedExprError::Memory(error)
    }
}

/// Running out of memory is `Memory`, and what found no room is dropped.
impl<T: Drop> From<AllocFailed<T>> for PartialValueToRestrictedExprError {
    ghost from_gives = { λ _ result. result ≡ kinds.Memory alloc_error };

    fn from(_failed: AllocFailed<T>) -> PartialValueToRestrictedExprError {
        PartialValueToRestrictedExprError::Memory(AllocError)
    }
}
