#![tactic(auto, using(cedar_expressions::proofs::Levels::levels))]
//! What shows that a condition is never true.
ghost use Rattle.std.specs.Prelude.{◌≡◌, true};
ghost use Rattle.cedar_names.specs.Leaves.{literal_view};
ghost use Rattle.cedar_expressions.specs.View.{view};
ghost use Rattle.cedar_unsatisfiable.specs.Showing.{conjunct_clashes, clash, is_no_truth, shows_never, IsNeverTrue};

use crate::claims::contradict_each_other;
use cedar_expressions::{Expr, ExprKind};
use cedar_names::Literal;

/// Whether the expression shows that it is never `true`: a literal other than `true`, a set or a record; `a && b` where
/// one of them shows it, or where two conjuncts contradict each other; `a || b`, or the branches of an `if`, where both
/// show it. Two conjuncts contradict each other that say of one expression that it is of two types, is equal to two
/// literals, or is of a type and equal to a literal that is not.
pub fn shows_never(expr: &Expr) -> bool
    ensures shown { result ≡ shows_never (view expr.now) }
    ensures never { result ≡ true → IsNeverTrue (view expr.now) }
{
    is_shown(expr)
}

fn is_shown(expr: &Expr) -> bool
    ensures { result ≡ shows_never (view expr.now) }
{
    match expr.expr_kind() {
        ExprKind::Lit(literal) => is_no_truth(literal),
        ExprKind::Var(_) => false,
        ExprKind::Slot(_) => false,
        ExprKind::Unknown(_) => false,
        ExprKind::If {
            test_expr: _,
            then_expr,
            else_expr,
        } => is_shown(then_expr) && is_shown(else_expr),
        ExprKind::And { left, right } => is_shown(left) || (is_shown(right) || clash(left, right)),
        ExprKind::Or { left, right } => is_shown(left) && is_shown(right),
        ExprKind::UnaryApp { .. } => false,
        ExprKind::BinaryApp { .. } => false,
        ExprKind::ExtensionFunctionApp { .. } => false,
        ExprKind::GetAttr { .. } => false,
        ExprKind::HasAttr { .. } => false,
        ExprKind::ExtHasAttr { .. } => false,
        ExprKind::Like { .. } => false,
        ExprKind::Is { .. } => false,
        ExprKind::Set(_) => true,
        ExprKind::Record(_) => true,
    }
}

fn is_no_truth(literal: &Literal) -> bool
    ensures { result ≡ is_no_truth (literal_view literal.now) }
{
    match literal {
        Literal::Bool(truth) => !*truth,
        Literal::Long(_) => true,
        Literal::String(_) => true,
        Literal::EntityUID(_) => true,
    }
}

// Whether a conjunct of the first contradicts one of the second.
fn clash(first: &Expr, second: &Expr) -> bool
    ensures { result ≡ clash (view first.now) (view second.now) }
{
    match first.expr_kind() {
        ExprKind::Lit(_) => conjunct_clashes(first, second),
        ExprKind::Var(_) => conjunct_clashes(first, second),
        ExprKind::Slot(_) => conjunct_clashes(first, second),
        ExprKind::Unknown(_) => conjunct_clashes(first, second),
        ExprKind::If { .. } => conjunct_clashes(first, second),
        ExprKind::And { left, right } => clash(left, second) || clash(right, second),
        ExprKind::Or { .. } => conjunct_clashes(first, second),
        ExprKind::UnaryApp { .. } => conjunct_clashes(first, second),
        ExprKind::BinaryApp { .. } => conjunct_clashes(first, second),
        ExprKind::ExtensionFunctionApp { .. } => conjunct_clashes(first, second),
        ExprKind::GetAttr { .. } => conjunct_clashes(first, second),
        ExprKind::HasAttr { .. } => conjunct_clashes(first, second),
        ExprKind::ExtHasAttr { .. } => conjunct_clashes(first, second),
        ExprKind::Like { .. } => conjunct_clashes(first, second),
        ExprKind::Is { .. } => conjunct_clashes(first, second),
        ExprKind::Set(_) => conjunct_clashes(first, second),
        ExprKind::Record(_) => conjunct_clashes(first, second),
    }
}

// Whether the conjunct contradicts one of the conjuncts of the second.
fn conjunct_clashes(conjunct: &Expr, second: &Expr) -> bool
    ensures { result ≡ conjunct_clashes (view conjunct.now) (view second.now) }
{
    match second.expr_kind() {
        ExprKind::Lit(_) => contradict_each_other(conjunct, second),
        ExprKind::Var(_) => contradict_each_other(conjunct, second),
        ExprKind::Slot(_) => contradict_each_other(conjunct, second),
        ExprKind::Unknown(_) => contradict_each_other(conjunct, second),
        ExprKind::If { .. } => contradict_each_other(conjunct, second),
        ExprKind::And { left, right } => {
            conjunct_clashes(conjunct, left) || conjunct_clashes(conjunct, right)
        }
        ExprKind::Or { .. } => contradict_each_other(conjunct, second),
        ExprKind::UnaryApp { .. } => contradict_each_other(conjunct, second),
        ExprKind::BinaryApp { .. } => contradict_each_other(conjunct, second),
        ExprKind::ExtensionFunctionApp { .. } => contradict_each_other(conjunct, second),
        ExprKind::GetAttr { .. } => contradict_each_other(conjunct, second),
        ExprKind::HasAttr { .. } => contradict_each_other(conjunct, second),
        ExprKind::ExtHasAttr { .. } => contradict_each_other(conjunct, second),
        ExprKind::Like { .. } => contradict_each_other(conjunct, second),
        ExprKind::Is { .. } => contradict_each_other(conjunct, second),
        ExprKind::Set(_) => contradict_each_other(conjunct, second),
        ExprKind::Record(_) => contradict_each_other(conjunct, second),
    }
}
