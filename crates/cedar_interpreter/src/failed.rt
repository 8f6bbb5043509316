//! Errors of the language that are neither the recursion limit nor out of memory.
ghost use Rattle.std.specs.Prelude.{◌≡◌, false};
ghost use Rattle.cedar_errors.specs.Finals.{is_final};
ghost use mathlib.Core.Bool.{Bool-set};

use cedar_errors::evaluator::err::EvaluationError;
use cedar_expressions::Expr;
use cedar_names::Loc;
use std::alloc::AllocError;

/// An error that is neither out of memory nor the recursion limit.
#[derive(Drop)]
pub struct Failed {
    error: EvaluationError,
    ghost ordinary: { is_final error ≡ false } by { Bool-set _ _ },
}

impl Failed {
    ghost use Rattle.std.specs.Prelude.{IfOk};
    ghost use Rattle.cedar_model.specs.Failures.{fails};
    ghost use Rattle.cedar_model.specs.Rules.{best, kept};
    ghost use Rattle.cedar_expressions.specs.View.{view};
    ghost use Rattle.cedar_errors.specs.Failures.{failure_of};

    // The error, which ends no evaluation as a whole.
    pub(crate) fn new(error: EvaluationError) -> Failed
        requires { is_final error ≡ false }
        ensures { result.error ≡ error }
    {
        Failed { error }
    }

    // The error.
    pub(crate) fn into_error(self) -> EvaluationError
        ensures { result ≡ self.error }
    {
        self.error
    }

    // Whether it is not known where the error arose.
    pub(crate) fn has_no_loc(&self) -> bool {
        self.error.source_loc().is_none()
    }

    // What is kept of a part that failed with this error: the part.
    pub(crate) fn original(failed: Box<Failed>, expr: &Expr) -> Result<Expr, AllocError>
        ensures { IfOk result (λ e. best (fails (failure_of failed.value.error)) (view expr.now) ≡ kept (view e)) }
    {
        Ok(expr.clone()?)
    }

    // The same error, at this location if it has none.
    pub(crate) fn within(self, loc: Option<Loc>) -> Failed
        ensures { failure_of result.error ≡ failure_of self.error }
    {
        if self.error.source_loc().is_none() {
            Failed {
                error: self.error.with_maybe_source_loc(loc),
            }
        } else {
            self
        }
    }
}
