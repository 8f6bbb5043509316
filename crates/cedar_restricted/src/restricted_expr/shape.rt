//! The shapes of restricted expressions.
ghost use Rattle.std.specs.Prelude.{◌≡◌};
ghost use Rattle.std.specs.Cmp.{on_equiv, on_per, partial_equiv_from_equiv};
ghost use Rattle.std.specs.Hash.{on_Alike, same_Alike};
ghost use Rattle.cedar_names.specs.Equality.{term_eq};
ghost use Rattle.cedar_names.specs.EqualityLaws.{term_eq-equivalence, term_eq-decides};
ghost use Rattle.cedar_names.specs.Hashing.{fed_term};
ghost use Rattle.cedar_restricted.specs.Shapes.{shape_term, shape_expr};
ghost use Rattle.cedar_restricted.specs.Views.{borrowed_expr};

use super::BorrowedRestrictedExpr;
use std::hash::{Hash, Hasher};

/// A restricted expression that compares and hashes by its shape: what it is but for locations.
#[derive(Debug, Clone, Drop)]
pub struct RestrictedExprShapeOnly<'a>(BorrowedRestrictedExpr<'a>);

impl<'a> RestrictedExprShapeOnly<'a> {
    /// The shape of the expression.
    pub fn new(expr: BorrowedRestrictedExpr<'a>) -> RestrictedExprShapeOnly<'a>
        ensures { shape_expr result ≡ borrowed_expr expr.entry }
    {
        RestrictedExprShapeOnly(expr)
    }
}

impl<'a> PartialEq for RestrictedExprShapeOnly<'a> {
    ghost eq = { λ a b. term_eq (shape_term a) (shape_term b) };

    ghost laws = { on_per shape_term (partial_equiv_from_equiv term_eq-equivalence) };

    fn eq(&self, other: &RestrictedExprShapeOnly<'a>) -> bool {
        self.0.expr.eq_shape(other.0.expr)
    }
}

impl<'a> Eq for RestrictedExprShapeOnly<'a> {
    ghost laws = { on_equiv shape_term term_eq-equivalence };
}

impl<'a> Hash for RestrictedExprShapeOnly<'a> {
    ghost hash_input = { λ s. fed_term (shape_term s) };

    ghost respects_eq = { (on_Alike shape_term (same_Alike fed_term term_eq-decides)).fed };

    fn hash<H: Hasher>(&self, state: &mut H) {
        self.0.expr.hash_shape(state);
    }
}
