//! `&&`, `||` and `if` beside residuals, and best effort. No residual that is made here stands at a location.
ghost use Rattle.std.specs.Prelude.{◌≡◌, ◌||◌, true, false, IfOk};
ghost use Rattle.cedar_model.specs.Terms.{if_then_else};
ghost use Rattle.cedar_model.specs.Values.{abstract_value};
ghost use Rattle.cedar_model.specs.Outcomes.{bool_of};
ghost use Rattle.cedar_model.specs.Failures.{answers, answers_residual, failure_kind};
ghost use Rattle.cedar_model.specs.Shapes.{has_unknown};
ghost use Rattle.cedar_model.specs.Rules as Rules;
ghost use Rattle.cedar_model.specs.Rules.{joined, bool_or_failure, best_of_kind};
ghost use Rattle.cedar_expressions.specs.View.{view};
ghost use Rattle.cedar_values.specs.Residuals.{partial_view, residual_term};
ghost use Rattle.cedar_errors.specs.Answers.{partial_answer, AnswersWith};
ghost use Rattle.cedar_errors.specs.Failures.{failure_of};
ghost use Rattle.cedar_operators.specs.Connectives.{deciding, neutral, joined_terms, beside_neutral};
ghost use Rattle.cedar_operators.specs.Parts.{IsBest};

use super::binary::into_expr;
use crate::failures::type_error;
use crate::typed::{bool_in, bool_part};
use cedar_errors::evaluator::err::EvaluationError;
use cedar_layers::expressions::{Expr, Literal, PartialValue, ResidualExpr, Type, Value};
use std::alloc::{AllocError, Global};

/// `&&` or `||`.
#[derive(Debug, Clone, Copy, PartialEq, Eq)]
pub enum Connective {
    /// `left && right`: false on the left decides.
    And,
    /// `left || right`: true on the left decides.
    Or,
}

impl Connective {
    /// Whether this boolean on the left decides.
    #[inline(always)]
    pub fn is_decided_by(self, left: bool) -> bool
        ensures decided { result ≡ true → left ≡ deciding self }
        ensures undecided { result ≡ false → left ≡ neutral self }
    {
        match self {
            Connective::And => !left,
            Connective::Or => left,
        }
    }

    // The boolean on the left that leaves the right side.
    fn neutral(self) -> bool
        ensures { result ≡ neutral self }
    {
        match self {
            Connective::And => true,
            Connective::Or => false,
        }
    }

    // The expression of both sides, at no location.
    fn around(self, alloc: Global, left: Expr, right: Expr) -> Result<Expr, AllocError>
        ensures view { IfOk result (λ e. view e ≡ joined_terms self (view left) (view right)) }
        ensures unknown { IfOk result
            (λ e. has_unknown (view e) ≡ has_unknown (view left) || has_unknown (view right)) }
    {
        match self {
            Connective::And => Ok(Expr::and(alloc, left, right)?),
            Connective::Or => Ok(Expr::or(alloc, left, right)?),
        }
    }
}

/// `true && part`, or `false || part`: a boolean as it is, a `TypeError` that expects one for another value, and the
/// whole itself of a residual, which may be no boolean. The result is at no location.
#[tactic(auto, unfolding(cedar_model::specs::Rules::joined))]
pub fn joined_right(
    alloc: Global,
    connective: Connective,
    part: PartialValue,
) -> Result<PartialValue, EvaluationError>
    ensures { AnswersWith result (joined (beside_neutral connective) (answers (partial_view part))) }
{
    match part {
        PartialValue::Value(value) => {
            let answer = as_bool(alloc, &value);
            drop(value);
            answer
        }
        PartialValue::Residual(residual) => residual_right(alloc, connective, residual),
    }
}

// The boolean, or a type error that expects one.
#[tactic(auto, unfolding(cedar_model::specs::Rules::bool_or_failure))]
fn as_bool(alloc: Global, value: &Value) -> Result<PartialValue, EvaluationError>
    ensures { AnswersWith result (bool_or_failure (bool_of (abstract_value value.now.what)) value.now.what) }
{
    match bool_in(value) {
        Some(b) => Ok(bool_part(b)),
        None => Err(type_error(alloc, Type::Bool, value)),
    }
}

// `true && part`, or `false || part`
fn residual_right(
    alloc: Global,
    connective: Connective,
    part: ResidualExpr,
) -> Result<PartialValue, EvaluationError>
    ensures { AnswersWith result (answers_residual (beside_neutral connective (residual_term part))) }
{
    let left = Expr::val(Literal::Bool(connective.neutral()));
    let expr = connective.around(alloc, left, part.into_expr())?;
    Ok(PartialValue::Residual(ResidualExpr::new(expr)))
}

/// `left && right`, or `left || right`, of a residual left side and what is kept of the right side, at no location.
/// Refuses only if out of memory.
pub fn residual_connective(
    alloc: Global,
    connective: Connective,
    left: ResidualExpr,
    right: Expr,
) -> Result<PartialValue, EvaluationError>
    ensures { AnswersWith result (answers_residual (joined_terms connective (residual_term left) (view right))) }
{
    let expr = connective.around(alloc, left.into_expr(), right)?;
    Ok(PartialValue::Residual(ResidualExpr::new(expr)))
}

/// `if test then .. else ..`, of a residual guard and what is kept of both branches, at no location. Refuses only if
/// out of memory.
pub fn residual_if(
    alloc: Global,
    test: ResidualExpr,
    then_expr: Expr,
    else_expr: Expr,
) -> Result<PartialValue, EvaluationError>
    ensures { AnswersWith result (answers_residual (if_then_else (residual_term test) (view then_expr)
        (view else_expr))) }
{
    let expr = Expr::ite(alloc, test.into_expr(), then_expr, else_expr)?;
    Ok(PartialValue::Residual(ResidualExpr::new(expr)))
}

/// What is kept beside a residual of an expression that answered this: the value or the residual as an expression,
/// and the original expression where it failed. `RecursionLimit` and `Memory` are handed up.
#[tactic(auto, unfolding(cedar_model::specs::Rules::best))]
pub fn best(
    alloc: Global,
    answer: Result<PartialValue, EvaluationError>,
    original: &Expr,
) -> Result<Expr, EvaluationError>
    ensures { IsBest result (Rules.best (partial_answer answer) (view original.now)) }
{
    match answer {
        Ok(part) => Ok(into_expr(alloc, part)?),
        Err(error) => best_of_error(error, original),
    }
}

// The original expression, or an error that is handed up.
#[tactic(auto, using(crate::proofs::KeptErrors::keeps, crate::proofs::KeptErrors::hands_up))]
fn best_of_error(error: EvaluationError, original: &Expr) -> Result<Expr, EvaluationError>
    ensures { IsBest result (best_of_kind (failure_kind (failure_of error)) (failure_of error) (view original.now)) }
{
    if error.is_final() {
        Err(error)
    } else {
        drop(error);
        copy_original(original)
    }
}

// A copy of the original expression.
fn copy_original(original: &Expr) -> Result<Expr, EvaluationError>
    ensures { IsBest result (Rules.kept (view original.now)) }
{
    Ok(original.clone()?)
}
