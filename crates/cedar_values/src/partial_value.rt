//! What a partial evaluation gives: a value, or an expression that still holds an unknown.
ghost use Rattle.std.specs.Prelude.{◌≡◌, true};
ghost use Rattle.cedar_model.specs.Shapes.{has_unknown};
ghost use Rattle.cedar_expressions.specs.View as expressions;
ghost use Rattle.cedar_expressions.specs.View.{view};
ghost use mathlib.Core.Bool.{Bool-set};

mod equality;
mod texts;

use crate::value::Value;
use cedar_expressions::Expr;
use cedar_names::Loc;
use std::alloc::{AllocError, Global};
use std::marker::Model;

/// An expression that holds at least one unknown.
#[derive(Debug, Drop)]
pub struct ResidualExpr {
    expr: Expr,
    ghost unknown: { has_unknown (expressions.view expr) ≡ true } by { Bool-set _ _ },
}

impl Model for ResidualExpr {
    ghost use Rattle.cedar_values.specs.Left.{Left, left_code};

    ghost Value = { Left };

    ghost coded = { left_code };

    ghost view = { λ a. record { expr = a.expr; unknown = a.unknown } };
}

impl ResidualExpr {
    ghost use Rattle.cedar_expressions.specs.View.{expr_loc, expr_kind_of};
    ghost use Rattle.cedar_values.specs.Residuals.{residual_term, residual_loc, residual_expr};

    /// The residual of an expression that holds an unknown.
    pub fn new(expr: Expr) -> ResidualExpr
        requires { has_unknown (view expr) ≡ true }
        ensures view { residual_term result ≡ view expr }
        ensures loc { residual_loc result ≡ expr_loc expr }
        ensures whole { residual_expr result ≡ expr }
    {
        ResidualExpr { expr }
    }

    /// The expression.
    pub fn as_expr(&self) -> &Expr
        ensures view { view result.now ≡ residual_term self.now }
        ensures loc { expr_loc result.now ≡ residual_loc self.now }
        ensures whole { result.now ≡ residual_expr self.now }
        ensures unknown { has_unknown (view result.now) ≡ true }
    {
        &self.expr
    }

    /// The expression.
    pub fn into_expr(self) -> Expr
        ensures view { view result ≡ residual_term self }
        ensures loc { expr_loc result ≡ residual_loc self }
        ensures whole { result ≡ residual_expr self }
        ensures unknown { has_unknown (view result) ≡ true }
    {
        self.expr
    }

    /// The same residual with this location, or with none.
    pub fn with_maybe_source_loc(self, loc: Option<Loc>) -> ResidualExpr
        ensures view { residual_term result ≡ residual_term self }
        ensures kind { expr_kind_of (residual_expr result) ≡ expr_kind_of (residual_expr self) }
        ensures loc { residual_loc result ≡ loc }
    {
        ResidualExpr {
            expr: self.expr.with_maybe_source_loc(loc),
        }
    }
}

impl Clone for ResidualExpr {
    ghost use Rattle.cedar_values.specs.Residuals.{IsResidualCopy};

    ghost is_clone = { IsResidualCopy };

    fn clone(&self) -> Result<ResidualExpr, AllocError> {
        Ok(ResidualExpr {
            expr: self.expr.clone()?,
        })
    }
}

/// A value, or an expression that still holds an unknown.
#[derive(Debug, Drop)]
pub enum PartialValue {
    /// A value.
    Value(Value),
    /// An expression that holds an unknown.
    Residual(ResidualExpr),
}

impl PartialValue {
    ghost use Rattle.std.specs.Prelude.{IfOk};
    ghost use Rattle.cedar_expressions.specs.View.{expr_loc};
    ghost use Rattle.cedar_expressions.specs.Nodes.{parts_of};
    ghost use Rattle.cedar_values.specs.Residuals.{partial_view, partial_loc, partial_inside, partial_kind, partial_term};
    ghost use Rattle.cedar_values.specs.Residuals.{IfResidual, residual_parts};

    /// The same value or residual with this location, or with none.
    pub fn with_maybe_source_loc(self, loc: Option<Loc>) -> PartialValue
        ensures view { partial_view result ≡ partial_view self }
        ensures loc { partial_loc result ≡ loc }
        ensures inside { partial_inside result ≡ partial_inside self }
        ensures kind { partial_kind result ≡ partial_kind self }
    {
        match self {
            PartialValue::Value(value) => PartialValue::Value(value.with_maybe_source_loc(loc)),
            PartialValue::Residual(residual) => {
                PartialValue::Residual(residual.with_maybe_source_loc(loc))
            }
        }
    }

    /// The expression of the value, or the residual, with its location. Refuses only if out of memory.
    pub fn as_expr(&self, alloc: Global) -> Result<Expr, AllocError>
        ensures view { IfOk result (λ e. view e ≡ partial_term (partial_view self.now)) }
        ensures loc { IfOk result (λ e. expr_loc e ≡ partial_loc self.now) }
        ensures parts { IfOk result (λ e. IfResidual self.now (λ r. parts_of e ≡ residual_parts r)) }
    {
        match self {
            PartialValue::Value(value) => Ok(value.to_expr(alloc)?),
            PartialValue::Residual(residual) => Ok(residual.as_expr().clone()?),
        }
    }
}

impl Clone for PartialValue {
    ghost use Rattle.cedar_values.specs.Residuals.{IsPartialCopy};

    ghost is_clone = { IsPartialCopy };

    fn clone(&self) -> Result<PartialValue, AllocError> {
        match self {
            PartialValue::Value(value) => Ok(PartialValue::Value(value.clone()?)),
            PartialValue::Residual(residual) => Ok(PartialValue::Residual(residual.clone()?)),
        }
    }
}
