//! Restricted expressions of values and of residuals, and the expressions of restricted ones.
ghost use Rattle.std.specs.Prelude.{◌≡◌, IfOk, IfErr, None};
ghost use Rattle.cedar_model.specs.Values.{expression_of};
ghost use Rattle.cedar_model.specs.Restricted.{first_disallowed};
ghost use Rattle.cedar_values.specs.Kinds.{kind_what};
ghost use Rattle.cedar_values.specs.Residuals.{partial_view, partial_loc, partial_term, residual_expr, IfResidual};
ghost use Rattle.cedar_restricted.specs.Refusals.{IsRefusedResidual, HoldsFirstPartOfResidual};

use super::{BorrowedRestrictedExpr, RestrictedExpr};
use crate::err::{PartialValueToRestrictedExprError, RestrictedExpressionError};
use cedar_expressions::Expr;
use cedar_values::{PartialValue, Value, ValueKind};
use std::alloc::{AllocError, Global};
use std::ops::Deref;

impl RestrictedExpr {
    ghost use Rattle.cedar_restricted.specs.Views.{restricted_term, restricted_loc};

    /// The expression of the value, with its location. Refuses only if out of memory.
    #[tactic(auto, using(crate::proofs::MadeParts::value_restricted))]
    pub fn try_from_value(alloc: Global, value: Value) -> Result<RestrictedExpr, AllocError>
        ensures view { IfOk result (λ r. restricted_term r ≡ expression_of value.what) }
        ensures loc { IfOk result (λ r. restricted_loc r ≡ value.loc) }
    {
        let expr: Expr = value.to_expr(alloc)?;
        Ok(RestrictedExpr { expr })
    }

    /// The expression of a value of this kind, at no location. Refuses only if out of memory.
    pub fn try_from_value_kind(alloc: Global, kind: ValueKind) -> Result<RestrictedExpr, AllocError>
        ensures view { IfOk result (λ r. restricted_term r ≡ expression_of (kind_what kind)) }
        ensures loc { IfOk result (λ r. restricted_loc r ≡ None) }
    {
        Ok(RestrictedExpr::try_from_value(alloc, Value::new(kind, None))?)
    }

    /// The expression of the value, or the residual, with its location. Refuses a residual that is not restricted with
    /// `NontrivialResidual`, which holds the part that `new` names, with its location; and with `Memory` if
    /// out of memory.
    pub fn try_from_partial_value(
        alloc: Global,
        value: PartialValue,
    ) -> Result<RestrictedExpr, PartialValueToRestrictedExprError>
        ensures view { IfOk result (λ r. restricted_term r ≡ partial_term (partial_view value)) }
        ensures loc { IfOk result (λ r. restricted_loc r ≡ partial_loc value) }
        ensures refused { IfErr result (IsRefusedResidual (first_disallowed (partial_term (partial_view value)))) }
        ensures whole { IfErr result (λ e. IfResidual value (λ r. HoldsFirstPartOfResidual (residual_expr r) e)) }
    {
        match value {
            PartialValue::Value(value) => match RestrictedExpr::try_from_value(alloc, value) {
                Ok(expr) => Ok(expr),
                Err(error) => Err(PartialValueToRestrictedExprError::Memory(error)),
            },
            PartialValue::Residual(residual) => match RestrictedExpr::new(residual.into_expr()) {
                Ok(expr) => Ok(expr),
                Err(RestrictedExpressionError::InvalidRestrictedExpression(error)) => {
                    Err(PartialValueToRestrictedExprError::NontrivialResidual {
                        residual: Box::new(alloc, error.expr)?,
                    })
                }
                Err(RestrictedExpressionError::Memory(error)) => {
                    Err(PartialValueToRestrictedExprError::Memory(error))
                }
            },
        }
    }
}

impl From<RestrictedExpr> for Expr {
    ghost use Rattle.cedar_restricted.specs.Views.{expr_in};

    ghost from_gives = { λ r e. e ≡ expr_in r };

    fn from(restricted: RestrictedExpr) -> Expr {
        restricted.expr
    }
}

impl<'a> From<BorrowedRestrictedExpr<'a>> for &'a Expr {
    ghost use Rattle.cedar_restricted.specs.Views.{borrowed_expr};

    ghost from_gives = { λ b e. e.now ≡ borrowed_expr b };

    fn from(borrowed: BorrowedRestrictedExpr<'a>) -> &'a Expr {
        borrowed.expr
    }
}

impl AsRef<Expr> for RestrictedExpr {
    ghost use Rattle.cedar_restricted.specs.Views.{expr_in};

    fn as_ref(&self) -> &Expr
        ensures { result.now ≡ expr_in self.now }
    {
        &self.expr
    }
}

impl<'a> AsRef<Expr> for BorrowedRestrictedExpr<'a> {
    ghost use Rattle.cedar_restricted.specs.Views.{borrowed_expr};

    fn as_ref(&self) -> &Expr
        ensures { result.now ≡ borrowed_expr self.now }
    {
        self.expr
    }
}

impl Deref for RestrictedExpr {
    ghost use Rattle.cedar_restricted.specs.Views.{expr_in};

    type Target = Expr;

    ghost deref_gives = { λ r e. e ≡ expr_in r };

    fn deref(&self) -> &Expr {
        &self.expr
    }
}

impl<'a> Deref for BorrowedRestrictedExpr<'a> {
    ghost use Rattle.cedar_restricted.specs.Views.{borrowed_expr};

    type Target = Expr;

    ghost deref_gives = { λ b e. e ≡ borrowed_expr b };

    fn deref(&self) -> &Expr {
        self.expr
    }
}
