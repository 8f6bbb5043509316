//! The evaluator of restricted expressions.
ghost use Rattle.std.specs.Prelude.{◌≡◌, ◌≢◌, ◌≤◌, ℕ, IfOk};
ghost use Rattle.cedar_model.specs.Failures.{limit};
ghost use Rattle.cedar_model.specs.Settings.{Setting};
ghost use Rattle.cedar_model.specs.Agreement.{height};
ghost use Rattle.cedar_model.specs.Rules.{Meets};
ghost use Rattle.cedar_model.specs.Restricted.{IsSoundPart};
ghost use Rattle.cedar_model.specs.laws.Restricted.{HoldsUnknown};
ghost use Rattle.cedar_restricted.specs.Views.{borrowed_expr, borrowed_term, borrowed_loc};
ghost use Rattle.cedar_values.specs.Residuals.{partial_view, partial_loc, IfValue};
ghost use Rattle.cedar_restricted.specs.Evaluations.{partial_answer, value_answer, IsBare, IsAnswerWithin};
ghost use Rattle.cedar_restricted.specs.Evaluations.{IsValueWithin, IsKnownExactly};
ghost use Rattle.cedar_restricted.specs.Evaluators.{extensions_of, extensions_read, calls_in, limit_of};
ghost use Rattle.cedar_restricted.specs.Elements.{ElementsStand};

use crate::BorrowedRestrictedExpr;
use crate::errors::residual_left;
use crate::machine::Restricted;
use cedar_errors::evaluator::err::EvaluationError;
use cedar_expressions::Expr;
use cedar_extensions::Extensions;
use cedar_values::{PartialValue, Value};
use std::alloc::Global;

/// An evaluator of restricted expressions: the extensions, and how many levels deep it goes.
#[derive(Drop)]
pub struct RestrictedEvaluator<'x, 'f> {
    extensions: &'x Extensions<'f>,
    limit: usize,
}

impl<'x, 'f> RestrictedEvaluator<'x, 'f> {
    /// The evaluator with these extensions. Evaluation goes at most `limit` levels deep: an expression is one level,
    /// its parts one more.
    pub fn new(extensions: &'x Extensions<'f>, limit: usize) -> RestrictedEvaluator<'x, 'f>
        ensures extensions { extensions_of result ≡ extensions.now }
        ensures limit { limit_of result ≡ limit }
    {
        RestrictedEvaluator { extensions, limit }
    }

    /// The value of the expression, or what is left of it where an unknown stands in it or a function answers one, at
    /// the expression's location. A call whose arguments are all values answers what the extensions' function of that
    /// name does; with an unknown among them it is left, and the function is not looked up. Fails with the first error
    /// in the order of evaluation, the arguments' before the call's: `FuncDoesNotExist` where no extension has the
    /// function, `WrongNumArguments` where it takes more or fewer, or the function's own error, at the call's location
    /// where it has none. Fails with `RecursionLimit` exactly where the evaluation goes more levels deep than the
    /// limit, which it never does for an expression that is no higher; it is at the location of the nearest expression
    /// around that has one. The elements of a set that is its value stand where the parts do of which they are the
    /// values: of equal ones the first stays, with its location; and so do those of a set in it. Where no unknown
    /// stands in the expression and its functions answer none, the value or error is what the expression means in every
    /// world, since it reads nothing of one.
    pub fn partial_interpret(
        &self,
        alloc: Global,
        e: BorrowedRestrictedExpr<'_>,
    ) -> Result<PartialValue, EvaluationError>
        ensures answer { (s : Setting) → IsBare (extensions_read self.now) s →
            Meets (IsAnswerWithin s (calls_in self.now) (limit_of self.now) (borrowed_term e.entry))
            (partial_answer result) }
        ensures known { Meets (IsKnownExactly (extensions_read self.now) (calls_in self.now) (borrowed_term e.entry))
            (partial_answer result) }
        ensures place { IfOk result (λ p. partial_loc p ≡ borrowed_loc e.entry) }
        ensures restricted { IfOk result (λ p. IsSoundPart (partial_view p)) }
        ensures unknown { IfOk result (λ p. HoldsUnknown (partial_view p)) }
        ensures elements { (n : ℕ) → IfOk result (λ p. IfValue p (ElementsStand n (borrowed_expr e.entry))) }
        ensures low { height (borrowed_term e.entry) ≤ limit_of self.now → partial_answer result ≢ limit }
    {
        match e.to_owned() {
            Ok(restricted) => {
                let expr = Expr::from(restricted);
                let machine = Restricted {
                    extensions: self.extensions,
                };
                machine.evaluate_within(alloc, expr, self.limit)
            }
            Err(error) => Err(EvaluationError::Memory(error)),
        }
    }

    /// The value of the expression, at the expression's location. Fails as `partial_interpret` does, and where
    /// something is left of the expression with `NonValue` and what is left.
    pub fn interpret(
        &self,
        alloc: Global,
        e: BorrowedRestrictedExpr<'_>,
    ) -> Result<Value, EvaluationError>
        ensures answer { (s : Setting) → IsBare (extensions_read self.now) s →
            Meets (IsValueWithin s (calls_in self.now) (limit_of self.now) (borrowed_term e.entry))
            (value_answer result) }
        ensures known { Meets (IsKnownExactly (extensions_read self.now) (calls_in self.now) (borrowed_term e.entry))
            (value_answer result) }
        ensures place { IfOk result (λ v. v.loc ≡ borrowed_loc e.entry) }
        ensures elements { (n : ℕ) → IfOk result (ElementsStand n (borrowed_expr e.entry)) }
        ensures low { height (borrowed_term e.entry) ≤ limit_of self.now → value_answer result ≢ limit }
    {
        match self.partial_interpret(alloc, e) {
            Ok(PartialValue::Value(value)) => Ok(value),
            Ok(PartialValue::Residual(residual)) => Err(residual_left(residual)),
            Err(error) => Err(error),
        }
    }
}
