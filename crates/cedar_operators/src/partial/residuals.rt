//! Residuals: an operator around what is not known. None stands at a location.
ghost use Rattle.cedar_model.specs.Terms.{unary, like, is_of_type};
ghost use Rattle.cedar_model.specs.Failures.{answers_residual};
ghost use Rattle.cedar_names.specs.Names.{type_text};
ghost use Rattle.cedar_names.specs.Leaves.{unary_view, pattern_view};
ghost use Rattle.cedar_values.specs.Residuals.{residual_term};
ghost use Rattle.cedar_errors.specs.Answers.{AnswersWith};

use cedar_errors::evaluator::err::EvaluationError;
use cedar_fallible::beside;
use cedar_layers::expressions::{EntityType, Expr, PartialValue, Pattern, ResidualExpr, UnaryOp};
use std::alloc::Global;

// The operator on the residual.
pub(crate) fn residual_unary(
    alloc: Global,
    op: UnaryOp,
    part: ResidualExpr,
) -> Result<PartialValue, EvaluationError>
    ensures { AnswersWith result (answers_residual (unary (unary_view op) (residual_term part))) }
{
    let expr = Expr::unary_app(alloc, op, part.into_expr())?;
    Ok(PartialValue::Residual(ResidualExpr::new(expr)))
}

// `part like pattern`
pub(crate) fn residual_like(
    alloc: Global,
    part: ResidualExpr,
    pattern: &Pattern,
) -> Result<PartialValue, EvaluationError>
    ensures { AnswersWith result (answers_residual (like (residual_term part) (pattern_view pattern.now))) }
{
    let (part, pattern) = beside(part, pattern.clone())?;
    let expr = Expr::like(alloc, part.into_expr(), pattern)?;
    Ok(PartialValue::Residual(ResidualExpr::new(expr)))
}

// `part is entity_type`
pub(crate) fn residual_is(
    alloc: Global,
    part: ResidualExpr,
    entity_type: &EntityType,
) -> Result<PartialValue, EvaluationError>
    ensures { AnswersWith result (answers_residual (is_of_type (residual_term part) (type_text entity_type.now))) }
{
    let (part, entity_type) = beside(part, entity_type.clone())?;
    let expr = Expr::is_entity_type(alloc, part.into_expr(), entity_type)?;
    Ok(PartialValue::Residual(ResidualExpr::new(expr)))
}
