//! Unknowns, and stored attributes that are unknowns: the map may have a value for them.
ghost use Rattle.std.specs.Prelude.{◌≡◌, true, [], Some, option_map, option_copied, IfOk};
ghost use Rattle.std.specs.Rc.{rc_str_bytes};
ghost use Rattle.cedar_model.specs.Values.{abstract_value};
ghost use Rattle.cedar_model.specs.Shapes.{has_unknown};
ghost use Rattle.cedar_model.specs.Outcomes.{type_eq};
ghost use Rattle.cedar_model.specs.Failures.{Answer, fails, answers_residual, wrong_type};
ghost use Rattle.cedar_model.specs.Operators.{typed_value};
ghost use Rattle.cedar_names.specs.Leaves.{type_view};
ghost use Rattle.cedar_expressions.specs.View.{view, expr_loc};
ghost use Rattle.cedar_expressions.specs.Readers.{unknown_term};
ghost use Rattle.cedar_values.specs.Residuals.{residual_term};
ghost use Rattle.cedar_values.specs.Sound.{Placed};
ghost use Rattle.cedar_errors.specs.Answers.{AnswersWith};
ghost use Rattle.cedar_interpreter.specs.Settings.{mapper_view};
ghost use Rattle.cedar_interpreter.specs.Tasks.{Gives};
ghost use Rattle.cedar_interpreter.specs.Stored.{remapped, mapped_unknown};

use crate::answers::{answer_part, answer_result_in, loc_of, or_out_of_memory};
use crate::evaluation::Mapper;
use crate::frame::{Next, SharedExpr};
use crate::stopped::Stopped;
use cedar_errors::evaluator::err::EvaluationError;
use cedar_expressions::Expr;
use cedar_frames::Transition;
use cedar_names::laws::leaves_are_equal_by_view;
use cedar_names::{Type, Unknown};
use cedar_operators::failures::type_error;
use cedar_values::{PartialValue, ResidualExpr, Value};
use std::alloc::{AllocError, Global};
use std::rc::RcStr;

// What a stored attribute answers, in the box of its container: one that is an unknown goes through the map.
#[tactic(auto, unfolding(crate::specs::Stored::remapped))]
pub(crate) fn stored_in(
    alloc: Global,
    whole: &SharedExpr,
    mapper: &Mapper<'_>,
    container: Box<PartialValue>,
    answer: Result<PartialValue, EvaluationError>,
) -> Next
    ensures { (b : Answer) → AnswersWith answer b
        → Gives (expr_loc whole.now.value) result (remapped (mapper_view mapper.now) b) }
{
    match answer {
        Ok(PartialValue::Value(value)) => {
            answer_result_in(alloc, whole, container, Ok(PartialValue::Value(value)))
        }
        Ok(PartialValue::Residual(residual)) => {
            or_out_of_memory(stored_residual(alloc, whole, mapper, residual))
        }
        Err(error) => answer_result_in(alloc, whole, container, Err(error)),
    }
}

// What an attribute that is stored unevaluated answers: one that is an unknown goes through the map.
#[tactic(auto, using(crate::proofs::StoredLaws::residual_stays), unfolding(crate::specs::Stored::remapped))]
fn stored_residual(
    alloc: Global,
    whole: &SharedExpr,
    mapper: &Mapper<'_>,
    residual: ResidualExpr,
) -> Result<Next, AllocError>
    ensures { IfOk result (λ n. Gives (expr_loc whole.now.value) n
        (remapped (mapper_view mapper.now) (answers_residual (residual_term residual)))) }
{
    match residual.as_expr().as_unknown() {
        Some(unknown) => {
            let next = begin_unknown_mapped(alloc, whole, mapper, residual.as_expr(), unknown);
            drop(residual);
            next
        }
        None => Ok(answer_part(alloc, whole, PartialValue::Residual(residual))),
    }
}

// The map's value for the unknown, if it is of the annotated type; without one the unknown is left.
#[tactic(auto, unfolding(cedar_model::specs::Operators::mapped, cedar_model::specs::Operators::typed_value))]
pub(crate) fn begin_unknown_mapped(
    alloc: Global,
    whole: &SharedExpr,
    mapper: &Mapper<'_>,
    e: &Expr,
    unknown: &Unknown,
) -> Result<Next, AllocError>
    requires { view e.now ≡ unknown_term unknown.now }
    ensures { IfOk result (λ n. Gives (expr_loc whole.now.value) n
        (mapped_unknown (mapper_view mapper.now) unknown.now)) }
{
    match value_of(mapper, &unknown.name) {
        Some(value) => match &unknown.type_annotation {
            Some(ty) => of_type(alloc, whole, value, ty),
            None => Ok(answer_part(alloc, whole, PartialValue::Value(value.clone()?))),
        },
        None => Ok(keep_unknown(alloc, whole, e.clone()?)),
    }
}

// The value of the unknown of this name, if there is one.
fn value_of<'v>(mapper: &Mapper<'v>, name: &RcStr) -> Option<&'v Value>
    ensures { option_map (λ (v : Placed). v.what) (option_copied result)
        ≡ mapper_view mapper.now (rc_str_bytes name.now) }
{
    match mapper {
        Mapper::Empty => None,
        Mapper::Values(map) => map.get(name),
    }
}

// The value, if it is of this type.
#[tactic(auto, unfolding(cedar_model::specs::Operators::typed_value))]
fn of_type(alloc: Global, whole: &SharedExpr, value: &Value, ty: &Type) -> Result<Next, AllocError>
    ensures { IfOk result (λ n. Gives (expr_loc whole.now.value) n
        (typed_value (Some (type_view ty.now)) value.now.what)) }
{
    if same_type(&value.type_of()?, ty) {
        Ok(answer_part(alloc, whole, PartialValue::Value(value.clone()?)))
    } else {
        Ok(wrong_type(alloc, whole, ty.clone()?, value))
    }
}

// Whether both types are the same.
fn same_type(ty: &Type, other: &Type) -> bool
    ensures { result ≡ type_eq (type_view ty.now) (type_view other.now) }
{
    leaves_are_equal_by_view();
    ty == other
}

// That a value of this type is expected.
#[cold]
#[inline(never)]
fn wrong_type(alloc: Global, whole: &SharedExpr, ty: Type, value: &Value) -> Next
    ensures { Gives (expr_loc whole.now.value) result
        (fails (wrong_type (type_view ty) [] (abstract_value value.now.what))) }
{
    Transition::Done(Err(Stopped::of(alloc, type_error(alloc, ty, value), loc_of(whole))))
}

// The unknown is left.
fn keep_unknown(alloc: Global, whole: &SharedExpr, e: Expr) -> Next
    requires { has_unknown (view e) ≡ true }
    ensures { Gives (expr_loc whole.now.value) result (answers_residual (view e)) }
{
    answer_part(alloc, whole, PartialValue::Residual(ResidualExpr::new(e)))
}
