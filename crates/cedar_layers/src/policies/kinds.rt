#![tactic(auto, using(cedar_expressions::proofs::Levels::levels))]
//! What an expression has as parts, if it is of a kind that stands in a scope.
ghost use Rattle.std.specs.Prelude.{◌≡◌};
ghost use Rattle.std.specs.Option.{option_map};
ghost use Rattle.cedar_names.specs.Leaves.{binary_view, slot_view};
ghost use Rattle.cedar_names.specs.Names.{type_text};
ghost use Rattle.cedar_expressions.specs.View.{view, terms_view};
ghost use Rattle.cedar_layers.specs.Kinds.{and_parts, binary_parts, type_test_parts, set_parts, slot_part};

use cedar_expressions::{Expr, ExprKind};
use cedar_names::{BinaryOp, EntityType, SlotId};

// Both sides, of `&&`.
pub(super) fn as_and(expr: &Expr) -> Option<(&Expr, &Expr)>
    ensures { option_map (λ p. (view p.0.now, view p.1.now)) result ≡ and_parts (view expr.now) }
{
    match expr.expr_kind() {
        ExprKind::And { left, right } => Some((left, right)),
        ExprKind::Lit(_) => None,
        ExprKind::Var(_) => None,
        ExprKind::Slot(_) => None,
        ExprKind::Unknown(_) => None,
        ExprKind::If { .. } => None,
        ExprKind::Or { .. } => None,
        ExprKind::UnaryApp { .. } => None,
        ExprKind::BinaryApp { .. } => None,
        ExprKind::ExtensionFunctionApp { .. } => None,
        ExprKind::GetAttr { .. } => None,
        ExprKind::HasAttr { .. } => None,
        ExprKind::ExtHasAttr { .. } => None,
        ExprKind::Like { .. } => None,
        ExprKind::Is { .. } => None,
        ExprKind::Set(_) => None,
        ExprKind::Record(_) => None,
    }
}

// The operator and both operands, of an operator of two.
pub(super) fn as_binary(expr: &Expr) -> Option<(BinaryOp, &Expr, &Expr)>
    ensures { option_map (λ p. (binary_view p.0, view p.1.now, view p.2.now)) result
        ≡ binary_parts (view expr.now) }
{
    match expr.expr_kind() {
        ExprKind::BinaryApp { op, arg1, arg2 } => Some((*op, arg1, arg2)),
        ExprKind::Lit(_) => None,
        ExprKind::Var(_) => None,
        ExprKind::Slot(_) => None,
        ExprKind::Unknown(_) => None,
        ExprKind::If { .. } => None,
        ExprKind::And { .. } => None,
        ExprKind::Or { .. } => None,
        ExprKind::UnaryApp { .. } => None,
        ExprKind::ExtensionFunctionApp { .. } => None,
        ExprKind::GetAttr { .. } => None,
        ExprKind::HasAttr { .. } => None,
        ExprKind::ExtHasAttr { .. } => None,
        ExprKind::Like { .. } => None,
        ExprKind::Is { .. } => None,
        ExprKind::Set(_) => None,
        ExprKind::Record(_) => None,
    }
}

// What is tested for a type, and the type, of `is`.
pub(super) fn as_is(expr: &Expr) -> Option<(&Expr, &EntityType)>
    ensures { option_map (λ p. (view p.0.now, type_text p.1.now)) result ≡ type_test_parts (view expr.now) }
{
    match expr.expr_kind() {
        ExprKind::Is { expr, entity_type } => Some((expr, entity_type)),
        ExprKind::Lit(_) => None,
        ExprKind::Var(_) => None,
        ExprKind::Slot(_) => None,
        ExprKind::Unknown(_) => None,
        ExprKind::If { .. } => None,
        ExprKind::And { .. } => None,
        ExprKind::Or { .. } => None,
        ExprKind::UnaryApp { .. } => None,
        ExprKind::BinaryApp { .. } => None,
        ExprKind::ExtensionFunctionApp { .. } => None,
        ExprKind::GetAttr { .. } => None,
        ExprKind::HasAttr { .. } => None,
        ExprKind::ExtHasAttr { .. } => None,
        ExprKind::Like { .. } => None,
        ExprKind::Set(_) => None,
        ExprKind::Record(_) => None,
    }
}

// The elements, of a set.
pub(super) fn as_set(expr: &Expr) -> Option<&[Expr]>
    ensures { option_map (λ parts. terms_view parts.now) result ≡ set_parts (view expr.now) }
{
    match expr.expr_kind() {
        ExprKind::Set(parts) => Some(parts),
        ExprKind::Lit(_) => None,
        ExprKind::Var(_) => None,
        ExprKind::Slot(_) => None,
        ExprKind::Unknown(_) => None,
        ExprKind::If { .. } => None,
        ExprKind::And { .. } => None,
        ExprKind::Or { .. } => None,
        ExprKind::UnaryApp { .. } => None,
        ExprKind::BinaryApp { .. } => None,
        ExprKind::ExtensionFunctionApp { .. } => None,
        ExprKind::GetAttr { .. } => None,
        ExprKind::HasAttr { .. } => None,
        ExprKind::ExtHasAttr { .. } => None,
        ExprKind::Like { .. } => None,
        ExprKind::Is { .. } => None,
        ExprKind::Record(_) => None,
    }
}

// The slot, of a slot.
pub(super) fn as_slot(expr: &Expr) -> Option<SlotId>
    ensures { option_map (λ s. slot_view s) result ≡ slot_part (view expr.now) }
{
    match expr.expr_kind() {
        ExprKind::Slot(slot) => Some(*slot),
        ExprKind::Lit(_) => None,
        ExprKind::Var(_) => None,
        ExprKind::Set(_) => None,
        ExprKind::Unknown(_) => None,
        ExprKind::If { .. } => None,
        ExprKind::And { .. } => None,
        ExprKind::Or { .. } => None,
        ExprKind::UnaryApp { .. } => None,
        ExprKind::BinaryApp { .. } => None,
        ExprKind::ExtensionFunctionApp { .. } => None,
        ExprKind::GetAttr { .. } => None,
        ExprKind::HasAttr { .. } => None,
        ExprKind::ExtHasAttr { .. } => None,
        ExprKind::Like { .. } => None,
        ExprKind::Is { .. } => None,
        ExprKind::Record(_) => None,
    }
}
