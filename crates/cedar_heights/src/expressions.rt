#![tactic(auto, using(cedar_expressions::proofs::Levels::levels, crate::proofs::Capping::capping))]
//! How high expressions are.
ghost use Rattle.std.specs.Prelude.{◌≡◌, max};
ghost use Rattle.cedar_model.specs.Terms.{record_of};
ghost use Rattle.cedar_model.specs.Agreement.{height, greatest_height, greatest_height_at};
ghost use Rattle.cedar_expressions.specs.View.{view, terms_view, fields_view};
ghost use Rattle.cedar_heights.specs.Capped.{capped};

use crate::numbers::above;
use cedar_expressions::{Expr, ExprKind};
use std::collections::BTreeMap;
use std::rc::RcStr;

/// How many levels the expression has: one more than the highest of its parts. It is told as `usize::MAX` where it is
/// greater.
#[cycle(height)]
pub fn expr_height(expr: &Expr) -> usize
    ensures { result ≡ capped (height (view expr.now)) }
{
    match expr.expr_kind() {
        ExprKind::Lit(_) => 1,
        ExprKind::Var(_) => 1,
        ExprKind::Slot(_) => 1,
        ExprKind::Unknown(_) => 1,
        ExprKind::If {
            test_expr,
            then_expr,
            else_expr,
        } => above(highest_of_three(test_expr, then_expr, else_expr)),
        ExprKind::And { left, right } => above(higher(left, right)),
        ExprKind::Or { left, right } => above(higher(left, right)),
        ExprKind::UnaryApp { op: _, arg } => above(expr_height(arg)),
        ExprKind::BinaryApp { op: _, arg1, arg2 } => above(higher(arg1, arg2)),
        ExprKind::ExtensionFunctionApp { fn_name: _, args } => above(highest(args)),
        ExprKind::GetAttr { expr, attr: _ } => above(expr_height(expr)),
        ExprKind::HasAttr { expr, attr: _ } => above(expr_height(expr)),
        ExprKind::ExtHasAttr { expr, attrs: _ } => above(expr_height(expr)),
        ExprKind::Like { expr, pattern: _ } => above(expr_height(expr)),
        ExprKind::Is {
            expr,
            entity_type: _,
        } => above(expr_height(expr)),
        ExprKind::Set(parts) => above(highest(parts)),
        ExprKind::Record(parts) => above(highest_at(parts)),
    }
}

/// How many levels the record of these expressions has: one more than the highest of them.
pub fn fields_height(parts: &BTreeMap<RcStr, Expr>) -> usize
    ensures { result ≡ capped (height (record_of (fields_view parts.now.entries))) }
{
    above(highest_at(parts))
}

// The height of the higher.
#[cycle(height)]
fn higher(first: &Expr, second: &Expr) -> usize
    ensures { result ≡ capped (max (height (view first.now)) (height (view second.now))) }
{
    let one = expr_height(first);
    let other = expr_height(second);
    one.max(other)
}

#[cycle(height)]
fn highest_of_three(first: &Expr, second: &Expr, third: &Expr) -> usize
    ensures { result ≡ capped (max (height (view first.now))
        (max (height (view second.now)) (height (view third.now)))) }
{
    let one = expr_height(first);
    let others = higher(second, third);
    one.max(others)
}

// The height of the highest.
#[cycle(height)]
pub(crate) fn highest(parts: &Vec<Expr>) -> usize
    ensures { result ≡ capped (greatest_height (terms_view parts.now.items)) }
{
    let mut found = 0;
    'parts: for part in parts {
        found = expr_height(part).max(found);
    }
    found
}

// The same of what stands under the keys of a record.
#[cycle(height)]
fn highest_at(parts: &BTreeMap<RcStr, Expr>) -> usize
    ensures { result ≡ capped (greatest_height_at (fields_view parts.now.entries)) }
{
    let mut found = 0;
    'parts: for (_, part) in parts {
        found = expr_height(part).max(found);
    }
    found
}
