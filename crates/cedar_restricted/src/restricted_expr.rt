//! Restricted expressions, owned and borrowed.
ghost use Rattle.std.specs.Prelude.{◌≡◌, true};
ghost use Rattle.cedar_model.specs.Shapes.{is_restricted};
ghost use Rattle.cedar_expressions.specs.View.{view};
ghost use Rattle.cedar_expressions.specs.View as expressions;
ghost use mathlib.Core.Bool.{Bool-set};

mod borrowed;
mod conversions;
mod copies;
mod disallowed;
mod equality;
mod kinds;
mod made;
mod owned;
mod parts;
mod readers;
mod shape;
mod texts;
mod types;

use cedar_expressions::Expr;
pub use parts::{CallArguments, RecordPairs, SetElements};
pub use shape::RestrictedExprShapeOnly;
use std::marker::Model;

/// A restricted expression: a literal, an unknown, or a set, a record or a call of restricted ones.
#[derive(Debug, Drop)]
pub struct RestrictedExpr {
    expr: Expr,
    ghost restricted: { is_restricted (expressions.view expr) ≡ true } by { Bool-set _ _ },
}

impl Model for RestrictedExpr {
    ghost use Rattle.cedar_restricted.specs.Restricted.{Restricted, restricted_code};

    ghost Value = { Restricted };

    ghost coded = { restricted_code };

    ghost view = { λ a. record { expr = a.expr; restricted = a.restricted } };
}

/// A restricted expression that is borrowed.
#[derive(Debug, Clone, Copy)]
pub struct BorrowedRestrictedExpr<'a> {
    expr: &'a Expr,
    ghost restricted: { is_restricted (view expr.now) ≡ true } by { Bool-set _ _ },
}
