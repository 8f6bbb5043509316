//! The errors that a map's value is refused with.
ghost use Rattle.std.specs.Prelude.{◌≡◌, Some, IfOk};
ghost use Rattle.cedar_model.specs.Refusals.{value_is_wrong, is_there_already, type_is_other};
ghost use Rattle.cedar_names.specs.Leaves.{variable_view};
ghost use Rattle.cedar_names.specs.Names.{type_text};
ghost use Rattle.cedar_names.specs.Texts.{variable_text};
ghost use Rattle.cedar_values.specs.Residuals.{partial_view};
ghost use Rattle.cedar_authorizer.specs.reauthorization.Errors.{refusal_of};

use crate::reauthorization::err::ConcretizationError;
use cedar_names::shared::variable_text;
use cedar_names::{EntityType, Var};
use cedar_values::{PartialValue, Value};
use std::alloc::{AllocError, Global};
use std::rc::RcStr;

// The error that the value is of another kind than this.
#[cold]
pub(super) fn value_is_wrong(
    alloc: Global,
    var: Var,
    expected_type: &'static str,
    value: &Value,
) -> Result<ConcretizationError, AllocError>
    ensures { IfOk result (λ e. refusal_of e
        ≡ Some (value_is_wrong (variable_text (variable_view var)) expected_type.now value.now.what)) }
{
    let id = RcStr::from_str(alloc, variable_text(var))?;
    let given_value = value.clone()?;
    Ok(ConcretizationError::ValueError {
        id,
        expected_type,
        given_value,
    })
}

// The error that this is there beside the value.
#[cold]
pub(super) fn is_there_already(
    alloc: Global,
    var: Var,
    existing_value: PartialValue,
    value: &Value,
) -> Result<ConcretizationError, AllocError>
    ensures { IfOk result (λ e. refusal_of e
        ≡ Some (is_there_already (variable_text (variable_view var)) (partial_view existing_value) value.now.what)) }
{
    let id = RcStr::from_str(alloc, variable_text(var))?;
    let given_value = value.clone()?;
    Ok(ConcretizationError::VarConfictError {
        id,
        existing_value,
        given_value,
    })
}

// The error that the value is an entity of another type than this.
#[cold]
pub(super) fn type_is_other(
    alloc: Global,
    var: Var,
    ty: &EntityType,
    value: &Value,
) -> Result<ConcretizationError, AllocError>
    ensures { IfOk result (λ e. refusal_of e
        ≡ Some (type_is_other (variable_text (variable_view var)) (type_text ty.now) value.now.what)) }
{
    let id = RcStr::from_str(alloc, variable_text(var))?;
    let existing_value = ty.clone()?;
    let given_value = value.clone()?;
    Ok(ConcretizationError::EntityTypeConfictError {
        id,
        existing_value,
        given_value,
    })
}
