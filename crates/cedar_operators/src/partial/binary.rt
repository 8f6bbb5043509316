//! Operators on two parts.
ghost use Rattle.std.specs.Prelude.{◌≡◌, ◌||◌, true, IfOk};
ghost use Rattle.cedar_model.specs.Terms.{binary};
ghost use Rattle.cedar_model.specs.Failures.{part_expression, answers_residual};
ghost use Rattle.cedar_model.specs.Settings.{Setting};
ghost use Rattle.cedar_model.specs.Shapes.{has_unknown};
ghost use Rattle.cedar_model.specs.Rules as Rules;
ghost use Rattle.cedar_model.specs.Rules.{kept_binary, differ_by_type, are_apart, entity_type_of};
ghost use Rattle.cedar_names.specs.Leaves.{binary_view};
ghost use Rattle.cedar_expressions.specs.View.{view};
ghost use Rattle.cedar_values.specs.Residuals.{partial_view};
ghost use Rattle.cedar_layers.specs.Stores.{store_view};
ghost use Rattle.cedar_errors.specs.Answers.{AnswersWith};
ghost use Rattle.cedar_extensions.specs.Extensions.{extensions_view};
ghost use Rattle.cedar_operators.specs.Operands.{given};

use super::shapes::type_in_part;
use crate::binary::binary_app;
use crate::typed::bool_part;
use cedar_errors::evaluator::err::EvaluationError;
use cedar_extensions::Extensions;
use cedar_fallible::pair_of;
use cedar_layers::expressions::{BinaryOp, Expr, Loc, PartialValue, ResidualExpr};
use cedar_layers::policies::Entities;
use std::alloc::{AllocError, Global};

/// An operator on two parts: of two values as `binary_app` answers; where one is a residual, the operator around both
/// as expressions, but `false` for `==` of parts whose entity types are known and differ: an entity's, or that which
/// an unknown is annotated with. A result that is made here is at no location.
#[tactic(auto, unfolding(cedar_model::specs::Rules::binary_of_parts, cedar_model::specs::Failures::part_expression))]
pub fn binary_of_parts(
    alloc: Global,
    entities: &Entities,
    extensions: &Extensions<'_>,
    op: BinaryOp,
    first: PartialValue,
    second: PartialValue,
    loc: Option<&Loc>,
) -> Result<PartialValue, EvaluationError>
    ensures { (s : Setting) → AnswersWith result (Rules.binary_of_parts (given s (store_view entities.now)
        (extensions_view extensions.now)) (binary_view op) (partial_view first) (partial_view second)) }
{
    match first {
        PartialValue::Value(a) => match second {
            PartialValue::Value(b) => binary_app(alloc, entities, extensions, op, a, b, loc),
            PartialValue::Residual(r) => {
                keep_operator(alloc, op, PartialValue::Value(a), PartialValue::Residual(r))
            }
        },
        PartialValue::Residual(q) => match second {
            PartialValue::Value(b) => {
                keep_operator(alloc, op, PartialValue::Residual(q), PartialValue::Value(b))
            }
            PartialValue::Residual(r) => {
                keep_operator(
                    alloc,
                    op,
                    PartialValue::Residual(q),
                    PartialValue::Residual(r),
                )
            }
        },
    }
}

// The operator around both parts, of which one is a residual, unless their types decide the answer.
fn keep_operator(
    alloc: Global,
    op: BinaryOp,
    first: PartialValue,
    second: PartialValue,
) -> Result<PartialValue, EvaluationError>
    requires { has_unknown (part_expression (partial_view first)) || has_unknown (part_expression
        (partial_view second)) ≡ true }
    ensures { AnswersWith result (kept_binary (binary_view op) (partial_view first) (partial_view second)) }
{
    if differ_by_type(op, &first, &second) {
        drop((first, second));
        Ok(bool_part(false))
    } else {
        around(alloc, op, first, second)
    }
}

// The operator around both parts, of which one is a residual.
fn around(
    alloc: Global,
    op: BinaryOp,
    first: PartialValue,
    second: PartialValue,
) -> Result<PartialValue, EvaluationError>
    requires { has_unknown (part_expression (partial_view first)) || has_unknown (part_expression
        (partial_view second)) ≡ true }
    ensures { AnswersWith result (answers_residual (binary (binary_view op) (part_expression (partial_view first))
        (part_expression (partial_view second)))) }
{
    let (left, right) = pair_of(into_expr(alloc, first), into_expr(alloc, second))?;
    residual_binary(alloc, op, left, right)
}

// The operator on two expressions, of which one holds an unknown.
fn residual_binary(
    alloc: Global,
    op: BinaryOp,
    first: Expr,
    second: Expr,
) -> Result<PartialValue, EvaluationError>
    requires { has_unknown (view first) || has_unknown (view second) ≡ true }
    ensures { AnswersWith result (answers_residual (binary (binary_view op) (view first) (view second))) }
{
    let expr = Expr::binary_app(alloc, op, first, second)?;
    Ok(PartialValue::Residual(ResidualExpr::new(expr)))
}

// Whether `==` is false by the types of the parts.
#[tactic(auto, unfolding(cedar_model::specs::Rules::differ_by_type))]
fn differ_by_type(op: BinaryOp, first: &PartialValue, second: &PartialValue) -> bool
    ensures { result ≡ differ_by_type (binary_view op) (partial_view first.now) (partial_view second.now) }
{
    match op {
        BinaryOp::Eq => are_apart(first, second),
        BinaryOp::Less => false,
        BinaryOp::LessEq => false,
        BinaryOp::Add => false,
        BinaryOp::Sub => false,
        BinaryOp::Mul => false,
        BinaryOp::In => false,
        BinaryOp::Contains => false,
        BinaryOp::ContainsAll => false,
        BinaryOp::ContainsAny => false,
        BinaryOp::GetTag => false,
        BinaryOp::HasTag => false,
    }
}

// Whether both entity types are known and differ.
#[tactic(auto, unfolding(cedar_model::specs::Rules::are_apart))]
fn are_apart(first: &PartialValue, second: &PartialValue) -> bool
    ensures { result ≡ are_apart (entity_type_of (partial_view first.now)) (entity_type_of (partial_view second.now)) }
{
    match type_in_part(first) {
        Some(left) => match type_in_part(second) {
            Some(right) => left != right,
            None => false,
        },
        None => false,
    }
}

// The expression of a part.
#[tactic(auto, unfolding(cedar_model::specs::Failures::part_expression))]
pub(crate) fn into_expr(alloc: Global, part: PartialValue) -> Result<Expr, AllocError>
    ensures { IfOk result (λ e. view e ≡ part_expression (partial_view part)) }
{
    match part {
        PartialValue::Value(value) => {
            let expr = value.to_expr(alloc);
            drop(value);
            expr
        }
        PartialValue::Residual(residual) => Ok(residual.into_expr()),
    }
}
