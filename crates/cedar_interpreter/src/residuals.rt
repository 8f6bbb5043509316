//! The stored residuals that are evaluated: those that operators read, with deep resolution.
ghost use Rattle.std.specs.Prelude.{◌≡◌, IfOk};
ghost use Rattle.std.specs.Rc.{rc_str_bytes};
ghost use Rattle.cedar_model.specs.Failures.{answers};
ghost use Rattle.cedar_model.specs.Rules.{beside_residual};
ghost use Rattle.cedar_names.specs.Leaves.{binary_view, texts_view};
ghost use Rattle.cedar_values.specs.Residuals.{partial_view};
ghost use Rattle.cedar_layers.specs.Stores.{store_view};
ghost use Rattle.cedar_operators.specs.StoredResiduals.{residual_of, path_residual_of};
ghost use Rattle.cedar_interpreter.specs.Settings.{resolution_view};
ghost use Rattle.cedar_interpreter.specs.Reads.{resolved_in, part_residual, part_path};

use crate::evaluation::{Evaluation, Resolution};
use cedar_names::{BinaryOp, FirstRest};
use cedar_operators::stored_residuals::{
    OnPath, attribute_residual, binary_residual, path_residual,
};
use cedar_values::{PartialValue, ResidualExpr};
use std::alloc::{AllocError, Global};
use std::rc::RcStr;

impl<'e, 'g, 'f> Evaluation<'e, 'g, 'f> {
    // The stored residual that an attribute of this part reads, if it is evaluated.
    #[inline(always)]
    pub(crate) fn attribute_residual(
        &self,
        container: &PartialValue,
        attr: &RcStr,
    ) -> Option<&'g ResidualExpr>
        ensures { residual_of result ≡ resolved_in (resolution_view self.now.given.now.resolution) (part_residual
            (store_view self.now.given.now.entities.now) (partial_view container.now) (rc_str_bytes attr.now)) }
    {
        match self.given.resolution {
            Resolution::Shallow => None,
            Resolution::Deep => match container {
                PartialValue::Value(value) => attribute_residual(self.given.entities, value, attr),
                PartialValue::Residual(_) => None,
            },
        }
    }

    // The stored residual that an operator on these parts reads, if it is evaluated.
    #[inline(always)]
    pub(crate) fn operands_residual(
        &self,
        op: BinaryOp,
        left: &PartialValue,
        right: &PartialValue,
    ) -> Option<&'g ResidualExpr>
        ensures { residual_of result ≡ resolved_in (resolution_view self.now.given.now.resolution) (beside_residual
            (store_view self.now.given.now.entities.now) (binary_view op) (partial_view left.now)
            (answers (partial_view right.now))) }
    {
        match self.given.resolution {
            Resolution::Shallow => None,
            Resolution::Deep => self.read_by_operator(op, left, right),
        }
    }

    // The stored residual that an operator on these parts reads.
    #[tactic(auto, unfolding(cedar_model::specs::Rules::beside_residual))]
    fn read_by_operator(
        &self,
        op: BinaryOp,
        left: &PartialValue,
        right: &PartialValue,
    ) -> Option<&'g ResidualExpr>
        ensures { residual_of result ≡ beside_residual (store_view self.now.given.now.entities.now) (binary_view op)
            (partial_view left.now) (answers (partial_view right.now)) }
    {
        match left {
            PartialValue::Value(first) => match right {
                PartialValue::Value(second) => {
                    binary_residual(self.given.entities, op, first, second)
                }
                PartialValue::Residual(_) => None,
            },
            PartialValue::Residual(_) => None,
        }
    }

    // The first stored residual that an extended `has` on this part reads, if it is evaluated, with the attributes
    // after it.
    #[inline(always)]
    pub(crate) fn path_residual(
        &self,
        alloc: Global,
        container: &PartialValue,
        attrs: &FirstRest<RcStr>,
    ) -> Result<Option<OnPath>, AllocError>
        ensures { IfOk result (λ o. path_residual_of o ≡ resolved_in (resolution_view self.now.given.now.resolution)
            (part_path (store_view self.now.given.now.entities.now) (partial_view container.now)
            (rc_str_bytes attrs.now.first) (texts_view attrs.now.rest.items))) }
    {
        match self.given.resolution {
            Resolution::Shallow => Ok(None),
            Resolution::Deep => match container {
                PartialValue::Value(value) => {
                    Ok(path_residual(alloc, self.given.entities, value, attrs)?)
                }
                PartialValue::Residual(_) => Ok(None),
            },
        }
    }
}
