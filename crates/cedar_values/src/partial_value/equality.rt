//! Equality of residuals and of partial values, which ignores locations.
ghost use Rattle.std.specs.Cmp.{on_equiv, on_per, partial_equiv_from_equiv};
ghost use Rattle.cedar_names.specs.Equality.{term_eq};
ghost use Rattle.cedar_names.specs.EqualityLaws.{term_eq-equivalence};

use super::{PartialValue, ResidualExpr};

impl PartialEq for ResidualExpr {
    ghost use Rattle.cedar_values.specs.Residuals.{residual_term};

    ghost eq = { λ a b. term_eq (residual_term a) (residual_term b) };

    ghost laws = { on_per residual_term (partial_equiv_from_equiv term_eq-equivalence) };

    fn eq(&self, other: &ResidualExpr) -> bool {
        self.expr == other.expr
    }
}

impl Eq for ResidualExpr {
    ghost use Rattle.cedar_values.specs.Residuals.{residual_term};

    ghost laws = { on_equiv residual_term term_eq-equivalence };
}

impl PartialEq for PartialValue {
    ghost use Rattle.cedar_values.specs.Residuals.{partial_view};
    ghost use Rattle.cedar_values.specs.Compared.{partial_eq, partial_eq-equivalence};

    ghost eq = { λ a b. partial_eq (partial_view a) (partial_view b) };

    ghost laws = { on_per partial_view (partial_equiv_from_equiv partial_eq-equivalence) };

    fn eq(&self, other: &PartialValue) -> bool {
        match self {
            PartialValue::Value(value) => match other {
                PartialValue::Value(other_value) => value == other_value,
                PartialValue::Residual(_) => false,
            },
            PartialValue::Residual(residual) => match other {
                PartialValue::Value(_) => false,
                PartialValue::Residual(other_residual) => residual == other_residual,
            },
        }
    }
}

impl Eq for PartialValue {
    ghost use Rattle.cedar_values.specs.Residuals.{partial_view};
    ghost use Rattle.cedar_values.specs.Compared.{partial_eq-equivalence};

    ghost laws = { on_equiv partial_view partial_eq-equivalence };
}
