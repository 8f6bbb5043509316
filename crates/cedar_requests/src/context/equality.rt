//! Equality of contexts: both of values or both residual, with the same names, and equal parts under them. Locations
//! change nothing.
ghost use Rattle.std.specs.Prelude.{◌≡◌};
ghost use Rattle.std.specs.Cmp.{on_equiv, on_per, partial_equiv_from_equiv};
ghost use Rattle.cedar_values.specs.Compared.{partial_eq-equivalence};
ghost use Rattle.cedar_requests.specs.Contexts.{context_eq, context_part_value};

use super::Context;
use super::pairs::ContextPairs;

impl PartialEq for Context {
    ghost eq = { context_eq };

    ghost laws = { on_per context_part_value (partial_equiv_from_equiv partial_eq-equivalence) };

    fn eq(&self, other: &Context) -> bool {
        match &self.pairs {
            ContextPairs::Values(values) => match &other.pairs {
                ContextPairs::Values(other_values) => values.as_map() == other_values.as_map(),
                ContextPairs::Residual(_) => false,
            },
            ContextPairs::Residual(residual) => match &other.pairs {
                ContextPairs::Values(_) => false,
                ContextPairs::Residual(other_residual) => {
                    residual.as_map() == other_residual.as_map()
                }
            },
        }
    }
}

impl Eq for Context {
    ghost laws = { on_equiv context_part_value partial_eq-equivalence };
}
