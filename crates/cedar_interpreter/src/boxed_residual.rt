//! Residuals that stay in the box in which they were answered.
ghost use Rattle.std.specs.Prelude.{◌≡◌, true};
ghost use Rattle.cedar_values.specs.Residuals.{partial_view, partial_term, residual_term};
ghost use Rattle.cedar_interpreter.specs.Kept.{is_residual};
ghost use mathlib.Core.Bool.{Bool-set};

use crate::answers::taken_out;
use cedar_values::{PartialValue, ResidualExpr};

/// A residual, in the box in which it was answered.
#[derive(Drop)]
pub struct BoxedResidual {
    part: Box<PartialValue>,
    ghost residual: { is_residual (partial_view part.value) ≡ true } by { Bool-set _ _ },
}

impl BoxedResidual {
    // The residual in this box.
    pub(crate) fn new(part: Box<PartialValue>) -> BoxedResidual
        requires { is_residual (partial_view part.value) ≡ true }
        ensures { result.part ≡ part }
    {
        BoxedResidual { part }
    }

    // The residual, and its box, for an answer to be put in.
    pub(crate) fn taken_apart(self) -> (ResidualExpr, Box<PartialValue>)
        ensures { residual_term result.0 ≡ partial_term (partial_view self.part.value) }
    {
        let mut part = self.part;
        match taken_out(&mut part) {
            PartialValue::Residual(residual) => (residual, part),
            PartialValue::Value(_) => unreachable!(),
        }
    }
}
