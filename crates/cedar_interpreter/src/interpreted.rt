//! The call that evaluates an expression.
ghost use Rattle.std.specs.Prelude.{◌≡◌, ℕ, IfOk};
ghost use Rattle.cedar_model.specs.laws.Restricted.{HoldsUnknown};
ghost use Rattle.cedar_expressions.specs.View.{view, expr_loc};
ghost use Rattle.cedar_expressions.specs.Nodes.{parts_of};
ghost use Rattle.cedar_values.specs.Residuals.{partial_view, partial_loc, IfValue};
ghost use Rattle.cedar_restricted.specs.Elements.{ElementsStand};
ghost use Rattle.cedar_errors.specs.Answers.{partial_answer};
ghost use Rattle.cedar_errors.specs.Failures.{failure_of};
ghost use Rattle.cedar_interpreter.specs.Promises.{RunsIn, PromisedIn};

use crate::answers::loc_of;
use crate::evaluation::Evaluation;
use crate::frame::Frame;
use cedar_errors::evaluator::err::EvaluationError;
use cedar_expressions::Expr;
use cedar_frames::{Stack, interpret_on};
use cedar_values::PartialValue;
use std::alloc::{AllocError, Global};
use std::rc::Rc;

impl<'e, 'g, 'f> Evaluation<'e, 'g, 'f> {
    /// The value of the expression, or what is left of it, at the expression's location; at most `limit` levels deep,
    /// where an expression is one level and its parts one more. Fails with the first error in the order of evaluation,
    /// and with `RecursionLimit` where it would go deeper, at the location of the nearest expression around that has
    /// one. The elements of a set that is its value stand where the parts do of which they are the values: of equal
    /// ones the first stays, with its location; and so do those of a set in it.
    pub fn interpret(
        &self,
        alloc: Global,
        e: &Expr,
        limit: usize,
    ) -> Result<PartialValue, EvaluationError>
        ensures runs { RunsIn self.now limit (view e.now) (partial_answer result) }
        ensures promised { PromisedIn self.now limit (view e.now) (partial_answer result) }
        ensures place { IfOk result (λ p. partial_loc p ≡ expr_loc e.now) }
        ensures unknown { IfOk result (λ p. HoldsUnknown (partial_view p)) }
        ensures elements { (n : ℕ) → IfOk result (λ p. IfValue p (ElementsStand n e.now)) }
    {
        match copy_expression(alloc, e) {
            Ok(expr) => self.evaluate_owned(alloc, expr, limit),
            Err(error) => Err(EvaluationError::Memory(error)),
        }
    }

    // The same, of an expression that is its own.
    fn evaluate_owned(
        &self,
        alloc: Global,
        expr: Rc<Expr>,
        limit: usize,
    ) -> Result<PartialValue, EvaluationError>
        ensures answer { RunsIn self.now limit (view expr.value) (partial_answer result) }
        ensures place { IfOk result (λ p. partial_loc p ≡ expr_loc expr.value) }
        ensures elements { (n : ℕ) → IfOk result (λ p. IfValue p (ElementsStand n expr.value)) }
    {
        let mut stack = Stack::new(alloc, limit);
        match interpret_on(self, alloc, &mut stack, expr) {
            Ok(answer) => Ok(Box::into_inner(answer)),
            Err(stopped) => Err(within(stack.frames(), stopped.into_error())),
        }
    }
}

// The expression, as one that is its own.
fn copy_expression(alloc: Global, e: &Expr) -> Result<Rc<Expr>, AllocError>
    ensures view { IfOk result (λ x. view x.value ≡ view e.now) }
    ensures loc { IfOk result (λ x. expr_loc x.value ≡ expr_loc e.now) }
    ensures parts { IfOk result (λ x. parts_of x.value ≡ parts_of e.now) }
{
    Ok(Rc::new(alloc, e.clone()?)?)
}

// The error that came up in these frames, at the location of the last that has one, if the error has none.
#[cold]
#[inline(never)]
fn within(frames: &[Frame], error: EvaluationError) -> EvaluationError
    ensures { failure_of result ≡ failure_of error }
{
    error.with_enclosing_loc(frames.iter().rev().find_map(|frame| loc_of(&frame.whole)))
}
