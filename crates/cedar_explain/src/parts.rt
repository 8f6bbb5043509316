//! Parts of a condition, and what the evaluator answers for them.
ghost use Rattle.std.specs.Prelude.{◌≡◌, ◌≢◌, false, IfOk, option_copied};
ghost use Rattle.cedar_model.specs.Failures.{fails, out_of_memory};
ghost use Rattle.cedar_layers.specs.Policies.{slots_view};
ghost use Rattle.cedar_expressions.specs.View.{view, expr_loc};
ghost use Rattle.cedar_errors.specs.Answers.{value_answer};
ghost use Rattle.cedar_explain.specs.Outcomes.{answered};
ghost use Rattle.cedar_explain.specs.Views.{part_came, part_told, part_place};
ghost use Rattle.cedar_explain.specs.Reached.{IsReached};

use crate::outcomes::{PartOutcome, kind_of, of_truth};
use cedar_errors::evaluator::err::EvaluationError;
use cedar_evaluator::evaluator::Evaluator;
use cedar_layers::expressions::{Expr, Loc, SlotEnv, Value};
use cedar_operators::typed::bool_in;
use std::alloc::{AllocError, Global};

/// A part of a policy's condition: an expression that is neither `&&`, `||`, `!` or `if` nor `true` or `false`, and
/// what the evaluator answered for it.
pub struct Part {
    expression: Expr,
    answer: Result<Value, EvaluationError>,
}

impl Drop for Part {
    fn drop(self) {
        let Part {
            expression: _,
            answer: _,
        } = self;
    }
}

impl Part {
    /// The expression.
    pub fn expression(&self) -> &Expr
        ensures { view result.now ≡ (part_told self.now).term }
    {
        &self.expression
    }

    /// What the evaluator answered for it: a value, or the error with its fields.
    pub fn answer(&self) -> &Result<Value, EvaluationError>
        ensures { value_answer result.now ≡ (part_told self.now).answer }
    {
        &self.answer
    }

    /// What it came to.
    pub fn outcome(&self) -> PartOutcome
        ensures { part_came result ≡ answered (part_told self.now).answer }
    {
        match &self.answer {
            Ok(value) => of_truth(bool_in(value)),
            Err(error) => PartOutcome::Error(kind_of(error)),
        }
    }

    /// Where it stands in the text, if that is known.
    pub fn place(&self) -> Option<&Loc>
        ensures { option_copied result ≡ part_place self.now }
    {
        self.expression.source_loc()
    }
}

// The expression as a part, evaluated by itself. Refuses only if out of memory.
pub(crate) fn evaluated(
    alloc: Global,
    evaluator: &Evaluator<'_, '_>,
    slots: &SlotEnv,
    expr: &Expr,
) -> Result<Part, AllocError>
    ensures term { IfOk result (λ p. (part_told p).term ≡ view expr.now) }
    ensures reached { IfOk result (λ p. IsReached evaluator.now (slots_view slots.now) (part_told p)) }
    ensures place { IfOk result (λ p. part_place p ≡ expr_loc expr.now) }
{
    part_of(expr, evaluator.interpret(alloc, expr, slots))
}

// The expression and its answer, unless that is out of memory.
fn part_of(expr: &Expr, answer: Result<Value, EvaluationError>) -> Result<Part, AllocError>
    ensures term { IfOk result (λ p. (part_told p).term ≡ view expr.now) }
    ensures answer { IfOk result (λ p. (part_told p).answer ≡ value_answer answer) }
    ensures memory { IfOk result (λ p. (part_told p).answer ≢ fails out_of_memory) }
    ensures place { IfOk result (λ p. part_place p ≡ expr_loc expr.now) }
{
    if is_out_of_memory(&answer) {
        return Err(AllocError);
    }
    Ok(Part {
        expression: expr.clone()?,
        answer,
    })
}

// Whether memory ran out in the evaluation.
fn is_out_of_memory(answer: &Result<Value, EvaluationError>) -> bool
    ensures { result ≡ false → value_answer answer.now ≢ fails out_of_memory }
{
    match answer {
        Ok(_) => false,
        Err(error) => error.is_out_of_memory(),
    }
}
