//! The evaluator, the operators that are called by themselves, and the errors of evaluation.
pub use cedar_evaluator::evaluator::{
    EvaluationError, Evaluator, Resolution, RestrictedEvaluator, binary_arith, binary_relation,
    evaluation_errors, unary_app,
};
