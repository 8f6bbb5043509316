//! Errors that several operators answer.
ghost use Rattle.std.specs.Prelude.{◌≡◌, IfOk, [], ◌∷◌};
ghost use Rattle.cedar_model.specs.Values.{abstract_value};
ghost use Rattle.cedar_model.specs.Failures as Failures;
ghost use Rattle.cedar_model.specs.Failures.{wrong_type, residual_is_left};
ghost use Rattle.cedar_names.specs.Leaves.{type_view};
ghost use Rattle.cedar_expressions.specs.View.{view};
ghost use Rattle.cedar_errors.specs.Failures.{failure_of};
ghost use Rattle.cedar_errors.specs.Answers.{FailsWith};

use cedar_errors::evaluator::err::{EvaluationError, evaluation_errors};
use cedar_layers::expressions::{EntityType, Expr, FirstRest, Loc, Name, Type, Value};
use evaluation_errors::{NonValueError, TypeError};
use std::alloc::{AllocError, Global};
use std::rc::RcStr;

// The type of any entity, as errors name it. Refuses only if out of memory.
pub(crate) fn any_entity_type(alloc: Global) -> Result<Type, AllocError>
    ensures { IfOk result (λ t. type_view t ≡ Failures.any_entity) }
{
    let name = RcStr::from_str(alloc, "any_entity_type")?;
    Ok(Type::Entity {
        ty: EntityType::new(Name::new(name, None)),
    })
}

/// The error that the value is not of this type, at the value's location.
#[cold]
#[inline(never)]
pub fn type_error(alloc: Global, expected: Type, value: &Value) -> EvaluationError
    ensures { FailsWith result (wrong_type (type_view expected) [] (abstract_value value.now.what)) }
{
    match value.type_of() {
        Ok(actual) => EvaluationError::TypeError(TypeError {
            expected: FirstRest {
                first: expected,
                rest: Vec::new(alloc),
            },
            actual,
            source_loc: value.source_loc().copied(),
        }),
        Err(error) => EvaluationError::Memory(error),
    }
}

// The error that the value is no entity, at the value's location.
#[cold]
#[inline(never)]
pub(crate) fn entity_expected(alloc: Global, value: &Value) -> EvaluationError
    ensures { FailsWith result (wrong_type Failures.any_entity [] (abstract_value value.now.what)) }
{
    match any_entity_type(alloc) {
        Ok(expected) => type_error(alloc, expected, value),
        Err(error) => EvaluationError::Memory(error),
    }
}

// The error that the value is neither of this type nor an entity, at the value's location.
#[cold]
#[inline(never)]
pub(crate) fn or_entity_expected(alloc: Global, expected: Type, value: &Value) -> EvaluationError
    ensures { FailsWith result (wrong_type (type_view expected) (Failures.any_entity ∷ [])
        (abstract_value value.now.what)) }
{
    match or_entity_error(alloc, expected, value) {
        Ok(error) => error,
        Err(error) => EvaluationError::Memory(error),
    }
}

// The same, or out of memory.
fn or_entity_error(
    alloc: Global,
    expected: Type,
    value: &Value,
) -> Result<EvaluationError, AllocError>
    ensures { IfOk result (λ e. FailsWith e (wrong_type (type_view expected) (Failures.any_entity ∷ []) (abstract_value
        value.now.what))) }
{
    let actual = value.type_of()?;
    let mut rest = Vec::new(alloc);
    rest.push(any_entity_type(alloc)?)?;
    Ok(EvaluationError::TypeError(TypeError {
        expected: FirstRest {
            first: expected,
            rest,
        },
        actual,
        source_loc: value.source_loc().copied(),
    }))
}

/// The error that this expression is left, at the expression's location.
#[cold]
#[inline(never)]
pub fn non_value(e: &Expr) -> EvaluationError
    ensures { FailsWith result (residual_is_left (view e.now)) }
{
    match e.clone() {
        Ok(expr) => expression_left(expr),
        Err(error) => EvaluationError::Memory(error),
    }
}

// The error that this expression is left, at the expression's location.
#[cold]
#[inline(never)]
pub(crate) fn expression_left(expr: Expr) -> EvaluationError
    ensures { failure_of result ≡ residual_is_left (view expr) }
{
    let source_loc: Option<Loc> = expr.source_loc().copied();
    EvaluationError::NonValue(NonValueError { expr, source_loc })
}
