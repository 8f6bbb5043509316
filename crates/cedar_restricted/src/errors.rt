//! The error of a residual that is left.
ghost use Rattle.std.specs.Prelude.{◌≡◌};
ghost use Rattle.cedar_model.specs.Failures.{residual_is_left};
ghost use Rattle.cedar_values.specs.Residuals.{residual_term};
ghost use Rattle.cedar_errors.specs.Failures.{failure_of};

use cedar_errors::evaluator::err::{EvaluationError, evaluation_errors};
use cedar_names::Loc;
use cedar_values::ResidualExpr;
use evaluation_errors::NonValueError;

// The error that this residual is left, at the residual's location.
#[cold]
#[inline(never)]
pub(crate) fn residual_left(residual: ResidualExpr) -> EvaluationError
    ensures { failure_of result ≡ residual_is_left (residual_term residual) }
{
    let expr = residual.into_expr();
    let source_loc: Option<Loc> = expr.source_loc().copied();
    EvaluationError::NonValue(NonValueError { expr, source_loc })
}
