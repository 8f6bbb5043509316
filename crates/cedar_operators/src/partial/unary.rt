//! Operators on one part.
ghost use Rattle.cedar_model.specs.Terms.{unary, like};
ghost use Rattle.cedar_model.specs.Failures.{answers};
ghost use Rattle.cedar_model.specs.Operators.{unary_answer, like_answer};
ghost use Rattle.cedar_model.specs.Rules.{on_part, is_part, is_annotated, entity_type_of_residual};
ghost use Rattle.cedar_names.specs.Names.{type_text};
ghost use Rattle.cedar_names.specs.Leaves.{unary_view, pattern_view};
ghost use Rattle.cedar_values.specs.Residuals.{partial_view, residual_term};
ghost use Rattle.cedar_errors.specs.Answers.{AnswersWith};

use super::residuals::{residual_is, residual_like, residual_unary};
use super::shapes::type_in_residual;
use crate::operators::{is_of_type, likeness, unary_app};
use crate::typed::{as_part, bool_part};
use cedar_errors::evaluator::err::EvaluationError;
use cedar_layers::expressions::{EntityType, Loc, PartialValue, Pattern, ResidualExpr, UnaryOp};
use std::alloc::Global;

/// An operator on one part: of a value as `unary_app` answers, of a residual the operator around it. The result is at
/// no location.
#[tactic(auto, unfolding(cedar_model::specs::Rules::on_part))]
pub fn unary_of_part(
    alloc: Global,
    op: UnaryOp,
    part: PartialValue,
    loc: Option<&Loc>,
) -> Result<PartialValue, EvaluationError>
    ensures { AnswersWith result (on_part (unary_answer (unary_view op)) (unary (unary_view op)) (answers
        (partial_view part))) }
{
    match part {
        PartialValue::Value(value) => as_part(unary_app(alloc, op, value, loc)),
        PartialValue::Residual(residual) => residual_unary(alloc, op, residual),
    }
}

/// `part like pattern`: of a value whether the text is one of the pattern's, or a `TypeError` where it is no text; of
/// a residual `like` around it. The result is at no location.
#[tactic(auto, unfolding(cedar_model::specs::Rules::on_part))]
pub fn like_of_part(
    alloc: Global,
    part: PartialValue,
    pattern: &Pattern,
) -> Result<PartialValue, EvaluationError>
    ensures { AnswersWith result (on_part (like_answer (pattern_view pattern.now)) (λ r. like r
        (pattern_view pattern.now)) (answers (partial_view part))) }
{
    match part {
        PartialValue::Value(value) => {
            let answer = likeness(alloc, &value, pattern);
            drop(value);
            as_part(answer)
        }
        PartialValue::Residual(residual) => residual_like(alloc, residual, pattern),
    }
}

/// `part is entity_type`: of a value whether the entity is of the type, or a `TypeError` where it is no entity; of an
/// unknown that is annotated with an entity type whether that type is this one; of another residual `is` around it.
/// The result is at no location.
#[tactic(auto, unfolding(cedar_model::specs::Rules::is_part))]
pub fn is_of_part(
    alloc: Global,
    part: PartialValue,
    entity_type: &EntityType,
) -> Result<PartialValue, EvaluationError>
    ensures { AnswersWith result (is_part (type_text entity_type.now) (answers (partial_view part))) }
{
    match part {
        PartialValue::Value(value) => {
            let answer = is_of_type(alloc, &value, entity_type);
            drop(value);
            as_part(answer)
        }
        PartialValue::Residual(residual) => is_of_residual(alloc, residual, entity_type),
    }
}

// `residual is entity_type`
#[tactic(auto, unfolding(cedar_model::specs::Rules::is_annotated))]
fn is_of_residual(
    alloc: Global,
    residual: ResidualExpr,
    entity_type: &EntityType,
) -> Result<PartialValue, EvaluationError>
    ensures { AnswersWith result (is_annotated (entity_type_of_residual (residual_term residual))
        (residual_term residual) (type_text entity_type.now)) }
{
    match type_in_residual(residual.as_expr()) {
        Some(annotated) => {
            let is_same = annotated == entity_type;
            drop(residual);
            Ok(bool_part(is_same))
        }
        None => residual_is(alloc, residual, entity_type),
    }
}
