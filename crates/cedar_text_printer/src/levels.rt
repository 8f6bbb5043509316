//! Levels of expressions: which parts stand without brackets.
ghost use Rattle.std.specs.Prelude.{◌≡◌};
ghost use Rattle.cedar_names.specs.Leaves.{literal_view, unary_view, binary_view};
ghost use Rattle.cedar_expressions.specs.View.{view};
ghost use Rattle.cedar_text_printer.specs.Levels as texts;

use cedar_expressions::{Expr, ExprKind};
use cedar_names::{BinaryOp, Literal, UnaryOp};

/// Whether an expression stands without brackets where these levels are taken.
#[tactic(auto, unfolding(crate::specs::Levels::fits))]
pub(crate) fn fits(low: u8, high: u8, expr: &Expr) -> bool
    ensures { result ≡ texts.fits low high (view expr.now) }
{
    let level = level(expr);
    low <= level && level <= high
}

/// The level of an expression.
fn level(expr: &Expr) -> u8
    ensures { result ≡ texts.level (view expr.now) }
{
    match expr.expr_kind() {
        ExprKind::Lit(literal) => literal_level(literal),
        ExprKind::Var(_) => 1,
        ExprKind::Slot(_) => 1,
        ExprKind::Unknown(_) => 1,
        ExprKind::If { .. } => 8,
        ExprKind::And { .. } => 6,
        ExprKind::Or { .. } => 7,
        ExprKind::UnaryApp { op, .. } => unary_level(*op),
        ExprKind::BinaryApp { op, .. } => binary_level(*op),
        ExprKind::ExtensionFunctionApp { .. } => 1,
        ExprKind::GetAttr { .. } => 1,
        ExprKind::HasAttr { .. } => 5,
        ExprKind::ExtHasAttr { .. } => 5,
        ExprKind::Like { .. } => 5,
        ExprKind::Is { .. } => 5,
        ExprKind::Set(_) => 1,
        ExprKind::Record(_) => 1,
    }
}

fn literal_level(literal: &Literal) -> u8
    ensures { result ≡ texts.literal_level (literal_view literal.now) }
{
    match literal {
        Literal::Bool(_) => 1,
        Literal::Long(n) => number_level(*n),
        Literal::String(_) => 1,
        Literal::EntityUID(_) => 1,
    }
}

fn number_level(n: i64) -> u8
    ensures { result ≡ texts.number_level n }
{
    if n < 0 { 2 } else { 0 }
}

fn unary_level(op: UnaryOp) -> u8
    ensures { result ≡ texts.unary_level (unary_view op) }
{
    match op {
        UnaryOp::Not => 2,
        UnaryOp::Neg => 2,
        UnaryOp::IsEmpty => 1,
    }
}

fn binary_level(op: BinaryOp) -> u8
    ensures { result ≡ texts.binary_level (binary_view op) }
{
    match op {
        BinaryOp::Eq => 5,
        BinaryOp::Less => 5,
        BinaryOp::LessEq => 5,
        BinaryOp::Add => 4,
        BinaryOp::Sub => 4,
        BinaryOp::Mul => 3,
        BinaryOp::In => 5,
        BinaryOp::Contains => 1,
        BinaryOp::ContainsAll => 1,
        BinaryOp::ContainsAny => 1,
        BinaryOp::GetTag => 1,
        BinaryOp::HasTag => 1,
    }
}

/// The lowest level that a sign takes.
pub(crate) fn lowest_level(op: UnaryOp) -> u8
    ensures { result ≡ texts.lowest_level (unary_view op) }
{
    match op {
        UnaryOp::Not => 0,
        UnaryOp::Neg => 1,
        UnaryOp::IsEmpty => 0,
    }
}

/// The highest level that an operator takes on its left.
pub(crate) fn left_level(op: BinaryOp) -> u8
    ensures { result ≡ texts.left_level (binary_view op) }
{
    match op {
        BinaryOp::Eq => 4,
        BinaryOp::Less => 4,
        BinaryOp::LessEq => 4,
        BinaryOp::Add => 4,
        BinaryOp::Sub => 4,
        BinaryOp::Mul => 3,
        BinaryOp::In => 4,
        BinaryOp::Contains => 1,
        BinaryOp::ContainsAll => 1,
        BinaryOp::ContainsAny => 1,
        BinaryOp::GetTag => 1,
        BinaryOp::HasTag => 1,
    }
}

/// The highest level that an operator takes on its right.
pub(crate) fn right_level(op: BinaryOp) -> u8
    ensures { result ≡ texts.right_level (binary_view op) }
{
    match op {
        BinaryOp::Eq => 4,
        BinaryOp::Less => 4,
        BinaryOp::LessEq => 4,
        BinaryOp::Add => 3,
        BinaryOp::Sub => 3,
        BinaryOp::Mul => 2,
        BinaryOp::In => 4,
        BinaryOp::Contains => 8,
        BinaryOp::ContainsAll => 8,
        BinaryOp::ContainsAny => 8,
        BinaryOp::GetTag => 8,
        BinaryOp::HasTag => 8,
    }
}
