#![tactic(auto, using(cedar_expressions::proofs::Levels::levels))]
//! Which constraints stand in the scope of a policy, and how they are written there.
ghost use Rattle.std.specs.Prelude.{◌≡◌, ◌++◌, is_some, codes};
ghost use Rattle.std.specs.Fmt.{WritesOnOk};
ghost use Rattle.cedar_model.specs.Terms.{both};
ghost use Rattle.cedar_names.specs.Leaves.{literal_view, slot_view, variable_view, binary_view};
ghost use Rattle.cedar_expressions.specs.View.{view, terms_view};
ghost use Rattle.cedar_layers.specs.Policies.{slots_view};
ghost use Rattle.cedar_text_printer.specs.Scopes as texts;
ghost use Rattle.cedar_text_printer.specs.Texts.{written};

use crate::expressions::write_expr;
use crate::kinds::{as_and, as_binary, as_is, as_set};
use cedar_expressions::{Expr, ExprKind};
use cedar_names::shared::same_variable;
use cedar_names::{BinaryOp, Literal, SlotEnv, SlotId, Var};
use std::fmt;
use std::fmt::Display;

/// Whether the expression is `true`.
pub(crate) fn is_true(expr: &Expr) -> bool
    ensures { result ≡ texts.is_true (view expr.now) }
{
    match expr.as_literal() {
        Some(literal) => is_true_literal(literal),
        None => false,
    }
}

fn is_true_literal(literal: &Literal) -> bool
    ensures { result ≡ texts.is_true_literal (literal_view literal.now) }
{
    match literal {
        Literal::Bool(b) => *b,
        Literal::Long(_) => false,
        Literal::String(_) => false,
        Literal::EntityUID(_) => false,
    }
}

/// Whether the expression is this variable.
fn is_variable(var: Var, expr: &Expr) -> bool
    ensures { result ≡ texts.is_variable (variable_view var) (view expr.now) }
{
    match expr.as_variable() {
        Some(other) => same_variable(var, other),
        None => false,
    }
}

fn is_entity_literal(literal: &Literal) -> bool
    ensures { result ≡ texts.is_entity_literal (literal_view literal.now) }
{
    match literal {
        Literal::Bool(_) => false,
        Literal::Long(_) => false,
        Literal::String(_) => false,
        Literal::EntityUID(_) => true,
    }
}

/// Whether the slot stands beside this variable.
fn is_own_slot(var: Var, slot: SlotId) -> bool
    ensures { result ≡ texts.is_own_slot (variable_view var) (slot_view slot) }
{
    match var {
        Var::Principal => match slot {
            SlotId::Principal => true,
            SlotId::Resource => false,
        },
        Var::Action => false,
        Var::Resource => match slot {
            SlotId::Principal => false,
            SlotId::Resource => true,
        },
        Var::Context => false,
    }
}

/// Whether the slot is linked to an entity.
fn is_linked(slots: &SlotEnv, slot: SlotId) -> bool
    ensures { result ≡ is_some (slots_view slots.now (slot_view slot)) }
{
    match slots.get(&slot) {
        Some(_) => true,
        None => false,
    }
}

/// Whether the slot is linked to an entity, or stands beside this variable.
fn is_entity_slot(slots: &SlotEnv, var: Var, slot: SlotId) -> bool
    ensures { result ≡ texts.is_entity_slot (slots_view slots.now) (variable_view var) (slot_view slot) }
{
    is_linked(slots, slot) || is_own_slot(var, slot)
}

/// Whether the expression is an entity, a slot that is linked to one, or the variable's own slot.
fn is_entity(slots: &SlotEnv, var: Var, expr: &Expr) -> bool
    ensures { result ≡ texts.is_entity (slots_view slots.now) (variable_view var) (view expr.now) }
{
    match expr.expr_kind() {
        ExprKind::Lit(literal) => is_entity_literal(literal),
        ExprKind::Slot(slot) => is_entity_slot(slots, var, *slot),
        ExprKind::Var(_) => false,
        ExprKind::Unknown(_) => false,
        ExprKind::If { .. } => false,
        ExprKind::And { .. } => false,
        ExprKind::Or { .. } => false,
        ExprKind::UnaryApp { .. } => false,
        ExprKind::BinaryApp { .. } => false,
        ExprKind::ExtensionFunctionApp { .. } => false,
        ExprKind::GetAttr { .. } => false,
        ExprKind::HasAttr { .. } => false,
        ExprKind::ExtHasAttr { .. } => false,
        ExprKind::Like { .. } => false,
        ExprKind::Is { .. } => false,
        ExprKind::Set(_) => false,
        ExprKind::Record(_) => false,
    }
}

/// Whether all of them are entities.
fn are_entities(slots: &SlotEnv, var: Var, parts: &[Expr]) -> bool
    ensures { result ≡ texts.are_entities (slots_view slots.now) (variable_view var) (terms_view parts.now) }
{
    'parts: for part in parts {
        if !is_entity(slots, var, part) {
            return false;
        }
    }
    true
}

/// The same, beside a variable that may be `in` a set.
fn are_all_entities(slots: &SlotEnv, var: Var, parts: &[Expr]) -> bool
    ensures { result ≡ texts.are_all_entities (slots_view slots.now) (variable_view var) (terms_view parts.now) }
{
    takes_set(var) && are_entities(slots, var, parts)
}

/// Whether the expression is a set of entities, beside a variable that may be `in` one.
fn is_entity_set(slots: &SlotEnv, var: Var, expr: &Expr) -> bool
    ensures { result ≡ texts.is_entity_set (slots_view slots.now) (variable_view var) (view expr.now) }
{
    match as_set(expr) {
        Some(parts) => are_all_entities(slots, var, parts),
        None => false,
    }
}

fn takes_set(var: Var) -> bool
    ensures { result ≡ texts.takes_set (variable_view var) }
{
    match var {
        Var::Principal => false,
        Var::Action => true,
        Var::Resource => false,
        Var::Context => false,
    }
}

fn takes_type(var: Var) -> bool
    ensures { result ≡ texts.takes_type (variable_view var) }
{
    match var {
        Var::Principal => true,
        Var::Action => false,
        Var::Resource => true,
        Var::Context => false,
    }
}

/// Whether the expression may stand behind this operator.
fn is_operand(slots: &SlotEnv, var: Var, op: BinaryOp, expr: &Expr) -> bool
    ensures { result ≡ texts.is_operand (slots_view slots.now) (variable_view var) (binary_view op) (view expr.now) }
{
    match op {
        BinaryOp::Eq => is_entity(slots, var, expr),
        BinaryOp::In => is_entity(slots, var, expr) || is_entity_set(slots, var, expr),
        BinaryOp::Less => false,
        BinaryOp::LessEq => false,
        BinaryOp::Add => false,
        BinaryOp::Sub => false,
        BinaryOp::Mul => false,
        BinaryOp::Contains => false,
        BinaryOp::ContainsAll => false,
        BinaryOp::ContainsAny => false,
        BinaryOp::GetTag => false,
        BinaryOp::HasTag => false,
    }
}

fn is_in(op: BinaryOp) -> bool
    ensures { result ≡ texts.is_in (binary_view op) }
{
    match op {
        BinaryOp::Eq => false,
        BinaryOp::In => true,
        BinaryOp::Less => false,
        BinaryOp::LessEq => false,
        BinaryOp::Add => false,
        BinaryOp::Sub => false,
        BinaryOp::Mul => false,
        BinaryOp::Contains => false,
        BinaryOp::ContainsAll => false,
        BinaryOp::ContainsAny => false,
        BinaryOp::GetTag => false,
        BinaryOp::HasTag => false,
    }
}

/// Whether the expression is this variable, and one that may be `is` of a type.
fn is_typed_variable(var: Var, expr: &Expr) -> bool
    ensures { result ≡ texts.is_typed_variable (variable_view var) (view expr.now) }
{
    takes_type(var) && is_variable(var, expr)
}

/// Whether the expression is `v is T`.
fn is_type_test(var: Var, expr: &Expr) -> bool
    ensures { result ≡ texts.is_type_test (variable_view var) (view expr.now) }
{
    match as_is(expr) {
        Some(tested) => is_typed_variable(var, tested),
        None => false,
    }
}

/// Whether the operator is `in` and its parts are this variable and an entity.
fn are_in(slots: &SlotEnv, var: Var, op: BinaryOp, left: &Expr, right: &Expr) -> bool
    ensures { result ≡ texts.are_in (slots_view slots.now) (variable_view var) (binary_view op)
        (view left.now) (view right.now) }
{
    is_in(op) && is_variable(var, left) && is_entity(slots, var, right)
}

/// Whether the expression is `v in E`.
fn is_in_test(slots: &SlotEnv, var: Var, expr: &Expr) -> bool
    ensures { result ≡ texts.is_in_test (slots_view slots.now) (variable_view var) (view expr.now) }
{
    match as_binary(expr) {
        Some((op, left, right)) => are_in(slots, var, op, left, right),
        None => false,
    }
}

/// Whether the parts are this variable and what may stand behind the operator.
fn are_plain(slots: &SlotEnv, var: Var, op: BinaryOp, left: &Expr, right: &Expr) -> bool
    ensures { result ≡ texts.are_plain (slots_view slots.now) (variable_view var) (binary_view op)
        (view left.now) (view right.now) }
{
    is_variable(var, left) && is_operand(slots, var, op, right)
}

/// Whether the expression stands in a scope as it stands anywhere.
fn is_plain(slots: &SlotEnv, var: Var, expr: &Expr) -> bool
    ensures { result ≡ texts.is_plain (slots_view slots.now) (variable_view var) (view expr.now) }
{
    match as_binary(expr) {
        Some((op, left, right)) => are_plain(slots, var, op, left, right),
        None => is_type_test(var, expr),
    }
}

/// Whether they are `v is T` and `v in E`.
fn are_typed(slots: &SlotEnv, var: Var, left: &Expr, right: &Expr) -> bool
    ensures { result ≡ texts.are_typed (slots_view slots.now) (variable_view var) (view left.now) (view right.now) }
{
    is_type_test(var, left) && is_in_test(slots, var, right)
}

/// Whether the expression is `v is T && v in E`.
fn is_typed(slots: &SlotEnv, var: Var, expr: &Expr) -> bool
    ensures { result ≡ texts.is_typed (slots_view slots.now) (variable_view var) (view expr.now) }
{
    match as_and(expr) {
        Some((left, right)) => are_typed(slots, var, left, right),
        None => false,
    }
}

/// Whether a constraint on this variable stands in the scope.
#[tactic(auto, unfolding(crate::specs::Scopes::is_scope))]
pub(crate) fn is_scope(slots: &SlotEnv, var: Var, constraint: &Expr) -> bool
    ensures { result ≡ texts.is_scope (slots_view slots.now) (variable_view var) (view constraint.now) }
{
    is_true(constraint) || is_plain(slots, var, constraint) || is_typed(slots, var, constraint)
}

/// Writes a constraint that stands in the scope.
#[tactic(auto, unfolding(crate::specs::Scopes::scope_text))]
pub(crate) fn write_scope<W: fmt::Write>(
    slots: &SlotEnv,
    var: Var,
    constraint: &Expr,
    f: &mut fmt::Formatter<W>,
) -> fmt::Result
    ensures { WritesOnOk W.write_str_gives f.old result
        (texts.scope_text (slots_view slots.now) (variable_view var) (view constraint.now)) f.new }
{
    if is_plain(slots, var, constraint) {
        write_expr(constraint, slots, f)
    } else if is_typed(slots, var, constraint) {
        write_typed(constraint, slots, f)
    } else {
        var.fmt(f)
    }
}

/// Writes `v is T in E`, of `v is T && v in E`.
fn write_typed<W: fmt::Write>(
    constraint: &Expr,
    slots: &SlotEnv,
    f: &mut fmt::Formatter<W>,
) -> fmt::Result
    ensures { WritesOnOk W.write_str_gives f.old result
        (texts.typed_text (slots_view slots.now) (view constraint.now)) f.new }
{
    match as_and(constraint) {
        Some((left, right)) => write_both(left, right, slots, f),
        None => f.write_str(""),
    }
}

fn write_both<W: fmt::Write>(
    left: &Expr,
    right: &Expr,
    slots: &SlotEnv,
    f: &mut fmt::Formatter<W>,
) -> fmt::Result
    ensures { WritesOnOk W.write_str_gives f.old result
        (texts.typed_text (slots_view slots.now) (both (view left.now) (view right.now))) f.new }
{
    write_expr(left, slots, f)?;
    write_ancestor(right, slots, f)
}

/// Writes ` in E`, of `v in E`.
fn write_ancestor<W: fmt::Write>(
    expr: &Expr,
    slots: &SlotEnv,
    f: &mut fmt::Formatter<W>,
) -> fmt::Result
    ensures { WritesOnOk W.write_str_gives f.old result
        (texts.ancestor_text (slots_view slots.now) (view expr.now)) f.new }
{
    match as_binary(expr) {
        Some((_, _, ancestor)) => write_in(ancestor, slots, f),
        None => f.write_str(""),
    }
}

fn write_in<W: fmt::Write>(expr: &Expr, slots: &SlotEnv, f: &mut fmt::Formatter<W>) -> fmt::Result
    ensures { WritesOnOk W.write_str_gives f.old result
        (codes " in " ++ written (slots_view slots.now) (view expr.now)) f.new }
{
    f.write_str(" in ")?;
    write_expr(expr, slots, f)
}
