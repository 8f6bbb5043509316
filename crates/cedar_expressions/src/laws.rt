//! When expressions are equal. The function is a law, and does nothing.
ghost use Rattle.std.specs.Prelude.{◌≡◌};
ghost use Rattle.std.specs.Bool.{Decides};
ghost use Rattle.cedar_expressions.specs.declared.expr.Expr.{Expr};
ghost use Rattle.cedar_expressions.specs.declared.expr.ExprKind.{ExprKind};
ghost use Rattle.cedar_expressions.specs.View.{view, kind_view};

use crate::expr::{Expr, ExprKind};

/// Expressions are equal exactly where they stand for the same term: locations change nothing, not even those of parts
/// and names.
pub fn expressions_are_equal_by_term()
    ensures expressions { (a b : Expr) → Decides (⟦<Expr as PartialEq>⟧.eq a b) (view a ≡ view b) }
    ensures kinds { (a b : ExprKind) → Decides (⟦<ExprKind as PartialEq>⟧.eq a b) (kind_view a ≡ kind_view b) }
{}
