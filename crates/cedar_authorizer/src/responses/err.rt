//! Why a policy was skipped.
use cedar_errors::evaluator::err::EvaluationError;
use cedar_layers::policies::PolicyID;
use thiserror::Error;

/// Why a policy was skipped.
#[derive(Debug, Clone, PartialEq, Eq, Drop, Error)]
pub enum AuthorizationError {
    /// The policy's condition erred.
    #[error("while evaluating policy `{id}`: {error}")]
    PolicyEvaluationError {
        /// The policy.
        id: PolicyID,
        /// The error of its condition.
        error: EvaluationError,
    },
}
