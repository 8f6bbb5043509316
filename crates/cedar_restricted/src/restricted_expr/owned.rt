//! Owned restricted expressions.
ghost use Rattle.std.specs.Prelude.{◌≡◌, true, IfOk, IfErr};
ghost use Rattle.cedar_model.specs.Shapes.{is_restricted};
ghost use Rattle.cedar_model.specs.Restricted.{first_disallowed};
ghost use Rattle.cedar_expressions.specs.View.{view};
ghost use Rattle.cedar_restricted.specs.Refusals.{IsRefusal, HoldsFirstPart};

use super::disallowed::check;
use super::{BorrowedRestrictedExpr, RestrictedExpr};
use crate::err::RestrictedExpressionError;
use cedar_expressions::Expr;
use cedar_names::Loc;

impl RestrictedExpr {
    ghost use Rattle.cedar_expressions.specs.View.{expr_kind_of};
    ghost use Rattle.cedar_restricted.specs.Views.{expr_in, borrowed_expr, restricted_term, restricted_loc};

    /// The expression, as a restricted one. Refuses an expression that is not restricted with
    /// `InvalidRestrictedExpression`, which names the first part that may not stand in it (such a node at once, else
    /// its parts in order, those of a record in byte order of the keys), with its location, and what it uses; and with
    /// `Memory` if out of memory.
    pub fn new(expr: Expr) -> Result<RestrictedExpr, RestrictedExpressionError>
        ensures expr { IfOk result (λ r. expr_in r ≡ expr) }
        ensures refused { IfErr result (IsRefusal (first_disallowed (view expr))) }
        ensures whole { IfErr result (HoldsFirstPart expr) }
    {
        check(&expr)?;
        Ok(RestrictedExpr::new_unchecked(expr))
    }

    /// The expression, which the caller knows to be restricted: `BorrowedRestrictedExpr::new` is the test.
    pub fn new_unchecked(expr: Expr) -> RestrictedExpr
        requires { is_restricted (view expr) ≡ true }
        ensures { expr_in result ≡ expr }
    {
        RestrictedExpr { expr }
    }

    /// The same expression with this location, or with none.
    pub fn with_maybe_source_loc(self, source_loc: Option<Loc>) -> RestrictedExpr
        ensures view { restricted_term result ≡ restricted_term self }
        ensures kind { expr_kind_of (expr_in result) ≡ expr_kind_of (expr_in self) }
        ensures loc { restricted_loc result ≡ source_loc }
    {
        RestrictedExpr {
            expr: self.expr.with_maybe_source_loc(source_loc),
        }
    }

    /// The same expression, borrowed.
    pub fn as_borrowed(&self) -> BorrowedRestrictedExpr<'_>
        ensures { borrowed_expr result ≡ expr_in self.now }
    {
        BorrowedRestrictedExpr { expr: &self.expr }
    }
}
