#![tactic(auto, using(cedar_expressions::proofs::Levels::levels))]
//! The way through the connectives of a condition to its parts, in the order of evaluation.
ghost use Rattle.std.specs.Prelude.{◌≡◌, true, false, IfOk, IfSome, IfNone};
ghost use Rattle.cedar_model.specs.Terms.{bool_literal};
ghost use Rattle.cedar_names.specs.Leaves.{literal_view};
ghost use Rattle.cedar_layers.specs.Policies.{slots_view};
ghost use Rattle.cedar_expressions.specs.View.{view};
ghost use Rattle.cedar_explain.specs.Places.{is_part, is_truth};
ghost use Rattle.cedar_explain.specs.Explained.{Walked};
ghost use Rattle.cedar_explain.specs.Views.{part_came, parts_told};
ghost use Rattle.cedar_explain.specs.Reached.{IsReached};

use crate::outcomes::{ErrorKind, PartOutcome, as_side, negated, of_truth};
use crate::parts::{Part, evaluated};
use cedar_evaluator::evaluator::Evaluator;
use cedar_fallible::add_last;
use cedar_layers::expressions::{Expr, ExprKind, Literal, SlotEnv, UnaryOp};
use std::alloc::{AllocError, Global};

// What the expression comes to. Puts the parts that are reached behind the others, as they are reached.
pub(crate) fn walk(
    alloc: Global,
    evaluator: &Evaluator<'_, '_>,
    slots: &SlotEnv,
    expr: &Expr,
    parts: &mut Vec<Part>,
) -> Result<PartOutcome, AllocError>
    ensures { IfOk result (λ o. Walked (IsReached evaluator.now (slots_view slots.now)) (view expr.now)
        (parts_told parts.old.items) (parts_told parts.new.items) (part_came o)) }
{
    match expr.expr_kind() {
        ExprKind::Lit(literal) => match truth_in(literal) {
            Some(truth) => Ok(of_truth(Some(truth))),
            None => note(alloc, evaluator, slots, expr, parts),
        },
        ExprKind::Var(_) => note(alloc, evaluator, slots, expr, parts),
        ExprKind::Slot(_) => note(alloc, evaluator, slots, expr, parts),
        ExprKind::Unknown(_) => note(alloc, evaluator, slots, expr, parts),
        ExprKind::If {
            test_expr,
            then_expr,
            else_expr,
        } => match walk(alloc, evaluator, slots, test_expr, parts)? {
            PartOutcome::True => walk(alloc, evaluator, slots, then_expr, parts),
            PartOutcome::False => walk(alloc, evaluator, slots, else_expr, parts),
            PartOutcome::OtherValue => Ok(PartOutcome::Error(ErrorKind::TypeError)),
            PartOutcome::Error(kind) => Ok(PartOutcome::Error(kind)),
        },
        ExprKind::And { left, right } => match walk(alloc, evaluator, slots, left, parts)? {
            PartOutcome::True => Ok(as_side(walk(alloc, evaluator, slots, right, parts)?)),
            PartOutcome::False => Ok(PartOutcome::False),
            PartOutcome::OtherValue => Ok(PartOutcome::Error(ErrorKind::TypeError)),
            PartOutcome::Error(kind) => Ok(PartOutcome::Error(kind)),
        },
        ExprKind::Or { left, right } => match walk(alloc, evaluator, slots, left, parts)? {
            PartOutcome::True => Ok(PartOutcome::True),
            PartOutcome::False => Ok(as_side(walk(alloc, evaluator, slots, right, parts)?)),
            PartOutcome::OtherValue => Ok(PartOutcome::Error(ErrorKind::TypeError)),
            PartOutcome::Error(kind) => Ok(PartOutcome::Error(kind)),
        },
        ExprKind::UnaryApp { op, arg } => match op {
            UnaryOp::Not => Ok(negated(walk(alloc, evaluator, slots, arg, parts)?)),
            UnaryOp::Neg => note(alloc, evaluator, slots, expr, parts),
            UnaryOp::IsEmpty => note(alloc, evaluator, slots, expr, parts),
        },
        ExprKind::BinaryApp { .. } => note(alloc, evaluator, slots, expr, parts),
        ExprKind::ExtensionFunctionApp { .. } => note(alloc, evaluator, slots, expr, parts),
        ExprKind::GetAttr { .. } => note(alloc, evaluator, slots, expr, parts),
        ExprKind::HasAttr { .. } => note(alloc, evaluator, slots, expr, parts),
        ExprKind::ExtHasAttr { .. } => note(alloc, evaluator, slots, expr, parts),
        ExprKind::Like { .. } => note(alloc, evaluator, slots, expr, parts),
        ExprKind::Is { .. } => note(alloc, evaluator, slots, expr, parts),
        ExprKind::Set(_) => note(alloc, evaluator, slots, expr, parts),
        ExprKind::Record(_) => note(alloc, evaluator, slots, expr, parts),
    }
}

// What the part comes to, which is put behind the others.
fn note(
    alloc: Global,
    evaluator: &Evaluator<'_, '_>,
    slots: &SlotEnv,
    expr: &Expr,
    parts: &mut Vec<Part>,
) -> Result<PartOutcome, AllocError>
    ensures { is_part (view expr.now) ≡ true → IfOk result (λ o. Walked
        (IsReached evaluator.now (slots_view slots.now)) (view expr.now) (parts_told parts.old.items)
        (parts_told parts.new.items) (part_came o)) }
{
    let part = evaluated(alloc, evaluator, slots, expr)?;
    let outcome = part.outcome();
    add_last(parts, part)?;
    Ok(outcome)
}

// The boolean that the literal is.
fn truth_in(literal: &Literal) -> Option<bool>
    ensures is { IfSome result (λ b. literal_view literal.now ≡ bool_literal b) }
    ensures none { IfNone result (is_truth (literal_view literal.now) ≡ false) }
{
    match literal {
        Literal::Bool(truth) => Some(*truth),
        Literal::Long(_) => None,
        Literal::String(_) => None,
        Literal::EntityUID(_) => None,
    }
}
