//! How restricted expressions print: as their expressions.
ghost use Rattle.std.specs.Prelude.{Some, None};
ghost use Rattle.cedar_names.specs.Texts.{shown};

use super::{BorrowedRestrictedExpr, RestrictedExpr};
use std::fmt;
use std::fmt::Display;

impl fmt::Display for RestrictedExpr {
    ghost use Rattle.cedar_restricted.specs.Views.{restricted_term};

    ghost output = { λ r. Some (shown None (restricted_term r)) };

    fn fmt<W: fmt::Write>(&self, f: &mut fmt::Formatter<W>) -> fmt::Result {
        Display::fmt(&self.expr, f)
    }
}

impl<'a> fmt::Display for BorrowedRestrictedExpr<'a> {
    ghost use Rattle.cedar_restricted.specs.Views.{borrowed_term};

    ghost output = { λ r. Some (shown None (borrowed_term r)) };

    fn fmt<W: fmt::Write>(&self, f: &mut fmt::Formatter<W>) -> fmt::Result {
        Display::fmt(self.expr, f)
    }
}
