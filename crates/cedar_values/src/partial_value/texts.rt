//! How partial values print: as their expressions.
ghost use Rattle.std.specs.Prelude.{◌≡◌, Some, None, refl};
ghost use Rattle.cedar_values.specs.Residuals.{partial_view, partial_term};
ghost use Rattle.cedar_names.specs.Texts.{shown};

use super::PartialValue;
use cedar_names::BoundedDisplay;
use std::fmt;
use std::fmt::Display;

/// The text of the value's expression, or of the residual.
impl fmt::Display for PartialValue {
    ghost output = { λ p. Some (shown None (partial_term (partial_view p))) };

    fn fmt<W: fmt::Write>(&self, f: &mut fmt::Formatter<W>) -> fmt::Result {
        match self {
            PartialValue::Value(value) => Display::fmt(value, f),
            PartialValue::Residual(residual) => Display::fmt(residual.as_expr(), f),
        }
    }
}

impl BoundedDisplay for PartialValue {
    ghost bounded_output = { λ p n. shown n (partial_term (partial_view p)) };

    ghost unbounded = { λ p. refl };

    fn fmt<W: fmt::Write>(&self, f: &mut W, n: Option<usize>) -> fmt::Result {
        match self {
            PartialValue::Value(value) => BoundedDisplay::fmt(value, f, n),
            PartialValue::Residual(residual) => BoundedDisplay::fmt(residual.as_expr(), f, n),
        }
    }
}
