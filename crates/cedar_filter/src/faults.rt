#![tactic(auto, using(cedar_expressions::proofs::Levels::levels))]
//! The first part of an expression that is no condition on one row.
ghost use Rattle.std.specs.Prelude.{◌≡◌, ◌&&◌, is_some, option_map, option_copied};
ghost use Rattle.std.specs.Rc.{rc_str_bytes};
ghost use Rattle.cedar_model.specs.Outcomes.{text_eq};
ghost use Rattle.cedar_names.specs.Equality.{annotation_eq};
ghost use Rattle.cedar_names.specs.Leaves.{type_view, literal_view};
ghost use Rattle.cedar_expressions.specs.View.{view};
ghost use Rattle.cedar_filter.specs.Simplifying.{known_literal};
ghost use Rattle.cedar_filter.specs.Faults.{earlier, unless, is_uid, path_fault, operand_fault, condition_fault};

use crate::simpler::{literal_in, literal_truth};
use cedar_expressions::{Expr, ExprKind};
use cedar_names::shared::{same_annotation, same_text};
use cedar_names::{BinaryOp, Literal, UnaryOp, Unknown};

// The first part that is no condition on the row which stands for the unknown.
pub(crate) fn fault_in<'a>(expr: &'a Expr, row: &Unknown) -> Option<&'a Expr>
    ensures { option_map view (option_copied result) ≡ condition_fault (rc_str_bytes row.now.name)
        (option_map type_view row.now.type_annotation) (view expr.now) }
{
    match expr.expr_kind() {
        ExprKind::Lit(literal) => {
            if literal_truth(literal).is_some() {
                None
            } else {
                Some(expr)
            }
        }
        ExprKind::Var(_) => Some(expr),
        ExprKind::Slot(_) => Some(expr),
        ExprKind::Unknown(_) => Some(expr),
        ExprKind::If {
            test_expr,
            then_expr,
            else_expr,
        } => first_of(
            fault_in(test_expr, row),
            first_of(fault_in(then_expr, row), fault_in(else_expr, row)),
        ),
        ExprKind::And { left, right } => first_of(fault_in(left, row), fault_in(right, row)),
        ExprKind::Or { left, right } => first_of(fault_in(left, row), fault_in(right, row)),
        ExprKind::UnaryApp { op, arg } => match op {
            UnaryOp::Not => fault_in(arg, row),
            UnaryOp::Neg => Some(expr),
            UnaryOp::IsEmpty => Some(expr),
        },
        ExprKind::BinaryApp { op, arg1, arg2 } => match op {
            BinaryOp::Eq => first_of(operand_fault(arg1, row), operand_fault(arg2, row)),
            BinaryOp::Less => first_of(operand_fault(arg1, row), operand_fault(arg2, row)),
            BinaryOp::LessEq => first_of(operand_fault(arg1, row), operand_fault(arg2, row)),
            BinaryOp::Add => Some(expr),
            BinaryOp::Sub => Some(expr),
            BinaryOp::Mul => Some(expr),
            BinaryOp::In => first_of(path_fault(arg1, row), entity_fault(arg2)),
            BinaryOp::Contains => first_of(path_fault(arg1, row), literal_fault(arg2)),
            BinaryOp::ContainsAll => Some(expr),
            BinaryOp::ContainsAny => Some(expr),
            BinaryOp::GetTag => Some(expr),
            BinaryOp::HasTag => Some(expr),
        },
        ExprKind::ExtensionFunctionApp { .. } => Some(expr),
        ExprKind::GetAttr { expr: of, attr: _ } => path_fault(of, row),
        ExprKind::HasAttr { expr: of, attr: _ } => path_fault(of, row),
        ExprKind::ExtHasAttr { .. } => Some(expr),
        ExprKind::Like { expr: of, .. } => path_fault(of, row),
        ExprKind::Is { expr: of, .. } => path_fault(of, row),
        ExprKind::Set(_) => Some(expr),
        ExprKind::Record(_) => Some(expr),
    }
}

fn first_of<'a>(first: Option<&'a Expr>, second: Option<&'a Expr>) -> Option<&'a Expr>
    ensures { option_map view (option_copied result) ≡ earlier (option_map view (option_copied first.entry))
        (option_map view (option_copied second.entry)) }
{
    match first {
        Some(part) => Some(part),
        None => second,
    }
}

fn operand_fault<'a>(expr: &'a Expr, row: &Unknown) -> Option<&'a Expr>
    ensures { option_map view (option_copied result) ≡ operand_fault (rc_str_bytes row.now.name)
        (option_map type_view row.now.type_annotation) (view expr.now) }
{
    if literal_in(expr).is_some() {
        None
    } else {
        path_fault(expr, row)
    }
}

fn path_fault<'a>(expr: &'a Expr, row: &Unknown) -> Option<&'a Expr>
    ensures { option_map view (option_copied result) ≡ path_fault (rc_str_bytes row.now.name)
        (option_map type_view row.now.type_annotation) (view expr.now) }
{
    match expr.expr_kind() {
        ExprKind::Lit(_) => Some(expr),
        ExprKind::Var(_) => Some(expr),
        ExprKind::Slot(_) => Some(expr),
        ExprKind::Unknown(unknown) => {
            if same_unknown(unknown, row) {
                None
            } else {
                Some(expr)
            }
        }
        ExprKind::If { .. } => Some(expr),
        ExprKind::And { .. } => Some(expr),
        ExprKind::Or { .. } => Some(expr),
        ExprKind::UnaryApp { .. } => Some(expr),
        ExprKind::BinaryApp { .. } => Some(expr),
        ExprKind::ExtensionFunctionApp { .. } => Some(expr),
        ExprKind::GetAttr { expr: of, attr: _ } => path_fault(of, row),
        ExprKind::HasAttr { .. } => Some(expr),
        ExprKind::ExtHasAttr { .. } => Some(expr),
        ExprKind::Like { .. } => Some(expr),
        ExprKind::Is { .. } => Some(expr),
        ExprKind::Set(_) => Some(expr),
        ExprKind::Record(_) => Some(expr),
    }
}

fn same_unknown(unknown: &Unknown, other: &Unknown) -> bool
    ensures { result ≡ (text_eq (rc_str_bytes unknown.now.name) (rc_str_bytes other.now.name)
        && annotation_eq (option_map type_view unknown.now.type_annotation)
        (option_map type_view other.now.type_annotation)) }
{
    same_text(&unknown.name, &other.name)
        && same_annotation(&unknown.type_annotation, &other.type_annotation)
}

fn entity_fault(expr: &Expr) -> Option<&Expr>
    ensures { option_map view (option_copied result) ≡ unless (is_uid (known_literal (view expr.now))) (view expr.now) }
{
    if names_entity(literal_in(expr)) {
        None
    } else {
        Some(expr)
    }
}

fn names_entity(literal: Option<&Literal>) -> bool
    ensures { result ≡ is_uid (option_map literal_view (option_copied literal.entry)) }
{
    match literal {
        None => false,
        Some(literal) => match literal {
            Literal::Bool(_) => false,
            Literal::Long(_) => false,
            Literal::String(_) => false,
            Literal::EntityUID(_) => true,
        },
    }
}

fn literal_fault(expr: &Expr) -> Option<&Expr>
    ensures { option_map view (option_copied result)
        ≡ unless (is_some (known_literal (view expr.now))) (view expr.now) }
{
    if literal_in(expr).is_some() {
        None
    } else {
        Some(expr)
    }
}
