//! Equality and hashes of restricted expressions, which ignore locations.
ghost use Rattle.std.specs.Cmp.{on_equiv, on_per, partial_equiv_from_equiv};
ghost use Rattle.std.specs.Hash.{on_Alike, same_Alike};
ghost use Rattle.cedar_names.specs.Equality.{term_eq};
ghost use Rattle.cedar_names.specs.EqualityLaws.{term_eq-equivalence, term_eq-decides};
ghost use Rattle.cedar_names.specs.Hashing.{fed_term};

use super::{BorrowedRestrictedExpr, RestrictedExpr};
use std::hash::{Hash, Hasher};

impl PartialEq for RestrictedExpr {
    ghost use Rattle.cedar_restricted.specs.Views.{restricted_term};

    ghost eq = { λ a b. term_eq (restricted_term a) (restricted_term b) };

    ghost laws = { on_per restricted_term (partial_equiv_from_equiv term_eq-equivalence) };

    fn eq(&self, other: &RestrictedExpr) -> bool {
        self.expr == other.expr
    }
}

impl Eq for RestrictedExpr {
    ghost use Rattle.cedar_restricted.specs.Views.{restricted_term};

    ghost laws = { on_equiv restricted_term term_eq-equivalence };
}

impl Hash for RestrictedExpr {
    ghost use Rattle.cedar_restricted.specs.Views.{restricted_term};

    ghost hash_input = { λ r. fed_term (restricted_term r) };

    ghost respects_eq = { (on_Alike restricted_term (same_Alike fed_term term_eq-decides)).fed };

    fn hash<H: Hasher>(&self, state: &mut H) {
        self.expr.hash(state);
    }
}

impl<'a> PartialEq for BorrowedRestrictedExpr<'a> {
    ghost use Rattle.cedar_restricted.specs.Views.{borrowed_term};

    ghost eq = { λ a b. term_eq (borrowed_term a) (borrowed_term b) };

    ghost laws = { on_per borrowed_term (partial_equiv_from_equiv term_eq-equivalence) };

    fn eq(&self, other: &BorrowedRestrictedExpr<'a>) -> bool {
        *self.expr == *other.expr
    }
}

impl<'a> Eq for BorrowedRestrictedExpr<'a> {
    ghost use Rattle.cedar_restricted.specs.Views.{borrowed_term};

    ghost laws = { on_equiv borrowed_term term_eq-equivalence };
}

impl<'a> Hash for BorrowedRestrictedExpr<'a> {
    ghost use Rattle.cedar_restricted.specs.Views.{borrowed_term};

    ghost hash_input = { λ r. fed_term (borrowed_term r) };

    ghost respects_eq = { (on_Alike borrowed_term (same_Alike fed_term term_eq-decides)).fed };

    fn hash<H: Hasher>(&self, state: &mut H) {
        Hash::hash(self.expr, state);
    }
}
