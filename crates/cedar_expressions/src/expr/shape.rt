#![tactic(auto, using(crate::proofs::Levels::levels))]
//! Tests on the shape of an expression.
ghost use Rattle.std.specs.Prelude.{◌≡◌};
ghost use Rattle.cedar_model.specs.Shapes.{has_unknown, have_unknown, have_unknown_at, is_projectable};
ghost use Rattle.cedar_model.specs.Shapes.{are_projectable, are_projectable_at};
ghost use Rattle.cedar_expressions.specs.View.{view, terms_view, fields_view};

use super::{Expr, ExprKind};
use std::collections::BTreeMap;
use std::rc::RcStr;

impl Expr {
    /// Whether an unknown stands in the expression.
    #[cycle(has_unknown)]
    pub fn has_unknown(&self) -> bool
        ensures { result ≡ has_unknown (view self.now) }
    {
        match &self.expr_kind {
            ExprKind::Lit(_) => false,
            ExprKind::Var(_) => false,
            ExprKind::Slot(_) => false,
            ExprKind::Unknown(_) => true,
            ExprKind::If {
                test_expr,
                then_expr,
                else_expr,
            } => test_expr.has_unknown() || then_expr.has_unknown() || else_expr.has_unknown(),
            ExprKind::And { left, right } => left.has_unknown() || right.has_unknown(),
            ExprKind::Or { left, right } => left.has_unknown() || right.has_unknown(),
            ExprKind::UnaryApp { op: _, arg } => arg.has_unknown(),
            ExprKind::BinaryApp { op: _, arg1, arg2 } => arg1.has_unknown() || arg2.has_unknown(),
            ExprKind::ExtensionFunctionApp { fn_name: _, args } => Expr::have_unknown(args),
            ExprKind::GetAttr { expr, attr: _ } => expr.has_unknown(),
            ExprKind::HasAttr { expr, attr: _ } => expr.has_unknown(),
            ExprKind::ExtHasAttr { expr, attrs: _ } => expr.has_unknown(),
            ExprKind::Like { expr, pattern: _ } => expr.has_unknown(),
            ExprKind::Is {
                expr,
                entity_type: _,
            } => expr.has_unknown(),
            ExprKind::Set(parts) => Expr::have_unknown(parts),
            ExprKind::Record(pairs) => Expr::have_unknown_at(pairs),
        }
    }

    #[cycle(has_unknown)]
    fn have_unknown(parts: &Vec<Expr>) -> bool
        ensures { result ≡ have_unknown (terms_view parts.now.items) }
    {
        'parts: for part in parts {
            if part.has_unknown() {
                return true;
            }
        }
        false
    }

    #[cycle(has_unknown)]
    fn have_unknown_at(pairs: &BTreeMap<RcStr, Expr>) -> bool
        ensures { result ≡ have_unknown_at (fields_view pairs.now.entries) }
    {
        'pairs: for (_, part) in pairs {
            if part.has_unknown() {
                return true;
            }
        }
        false
    }

    /// Whether the expression and all its parts are literals, unknowns, sets, variables or records.
    #[cycle(is_projectable)]
    pub fn is_projectable(&self) -> bool
        ensures { result ≡ is_projectable (view self.now) }
    {
        match &self.expr_kind {
            ExprKind::Lit(_) => true,
            ExprKind::Var(_) => true,
            ExprKind::Slot(_) => false,
            ExprKind::Unknown(_) => true,
            ExprKind::If {
                test_expr: _,
                then_expr: _,
                else_expr: _,
            } => false,
            ExprKind::And { left: _, right: _ } => false,
            ExprKind::Or { left: _, right: _ } => false,
            ExprKind::UnaryApp { op: _, arg: _ } => false,
            ExprKind::BinaryApp {
                op: _,
                arg1: _,
                arg2: _,
            } => false,
            ExprKind::ExtensionFunctionApp {
                fn_name: _,
                args: _,
            } => false,
            ExprKind::GetAttr { expr: _, attr: _ } => false,
            ExprKind::HasAttr { expr: _, attr: _ } => false,
            ExprKind::ExtHasAttr { expr: _, attrs: _ } => false,
            ExprKind::Like {
                expr: _,
                pattern: _,
            } => false,
            ExprKind::Is {
                expr: _,
                entity_type: _,
            } => false,
            ExprKind::Set(parts) => Expr::are_projectable(parts),
            ExprKind::Record(pairs) => Expr::are_projectable_at(pairs),
        }
    }

    #[cycle(is_projectable)]
    fn are_projectable(parts: &Vec<Expr>) -> bool
        ensures { result ≡ are_projectable (terms_view parts.now.items) }
    {
        'parts: for part in parts {
            if !part.is_projectable() {
                return false;
            }
        }
        true
    }

    #[cycle(is_projectable)]
    fn are_projectable_at(pairs: &BTreeMap<RcStr, Expr>) -> bool
        ensures { result ≡ are_projectable_at (fields_view pairs.now.entries) }
    {
        'pairs: for (_, part) in pairs {
            if !part.is_projectable() {
                return false;
            }
        }
        true
    }
}
