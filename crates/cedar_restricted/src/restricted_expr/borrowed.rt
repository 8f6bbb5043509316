//! Borrowed restricted expressions: how they are made.
ghost use Rattle.std.specs.Prelude.{◌≡◌, true, IfOk, IfErr};
ghost use Rattle.cedar_model.specs.Shapes.{is_restricted};
ghost use Rattle.cedar_model.specs.Restricted.{first_disallowed};
ghost use Rattle.cedar_expressions.specs.View.{view};
ghost use Rattle.cedar_expressions.specs.Nodes.{parts_of};
ghost use Rattle.cedar_restricted.specs.Refusals.{IsRefusal, HoldsFirstPart};

use super::disallowed::check;
use super::{BorrowedRestrictedExpr, RestrictedExpr};
use crate::err::RestrictedExpressionError;
use cedar_expressions::Expr;
use std::alloc::AllocError;

impl<'a> BorrowedRestrictedExpr<'a> {
    ghost use Rattle.cedar_restricted.specs.Views.{borrowed_expr, borrowed_term, borrowed_loc};
    ghost use Rattle.cedar_restricted.specs.Views.{expr_in, restricted_term, restricted_loc};

    /// The expression, as a restricted one. Refuses as `RestrictedExpr::new` does.
    pub fn new(expr: &'a Expr) -> Result<BorrowedRestrictedExpr<'a>, RestrictedExpressionError>
        ensures expr { IfOk result (λ b. borrowed_expr b ≡ expr.now) }
        ensures refused { IfErr result (IsRefusal (first_disallowed (view expr.now))) }
        ensures whole { IfErr result (HoldsFirstPart expr.now) }
    {
        check(expr)?;
        Ok(BorrowedRestrictedExpr::new_unchecked(expr))
    }

    /// The expression, which the caller knows to be restricted: `new` is the test.
    pub fn new_unchecked(expr: &'a Expr) -> BorrowedRestrictedExpr<'a>
        requires { is_restricted (view expr.now) ≡ true }
        ensures { borrowed_expr result ≡ expr.now }
    {
        BorrowedRestrictedExpr { expr }
    }

    /// A copy that owns its expression: of one node, whose parts are shared. Refuses only if out of memory.
    pub fn to_owned(self) -> Result<RestrictedExpr, AllocError>
        ensures view { IfOk result (λ r. restricted_term r ≡ borrowed_term self.entry) }
        ensures loc { IfOk result (λ r. restricted_loc r ≡ borrowed_loc self.entry) }
        ensures parts { IfOk result (λ r. parts_of (expr_in r) ≡ parts_of (borrowed_expr self.entry)) }
    {
        let expr: Expr = self.expr.clone()?;
        Ok(RestrictedExpr { expr })
    }
}
