//! Copies of restricted expressions, each of one node.
ghost use Rattle.std.specs.Prelude.{◌≡◌};

use super::RestrictedExpr;
use cedar_expressions::Expr;
use std::alloc::AllocError;

impl Clone for RestrictedExpr {
    ghost use Rattle.cedar_expressions.specs.Nodes.{parts_of};
    ghost use Rattle.cedar_restricted.specs.Views.{expr_in, restricted_term, restricted_loc};

    ghost is_clone = { λ r copy. (restricted_term copy ≡ restricted_term r) ×
        (restricted_loc copy ≡ restricted_loc r) × (parts_of (expr_in copy) ≡ parts_of (expr_in r)) };

    fn clone(&self) -> Result<RestrictedExpr, AllocError> {
        let expr: Expr = self.expr.clone()?;
        Ok(RestrictedExpr { expr })
    }
}
