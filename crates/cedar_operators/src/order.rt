//! The order of two values: of longs, and of extension values of one overloaded type.
ghost use Rattle.std.specs.Prelude.{◌≡◌, ◌≢◌, Some, None, IfOk, IfErr, option_map, option_copied};
ghost use Rattle.cedar_model.specs.Values.{abstract_value};
ghost use Rattle.cedar_model.specs.Outcomes.{long_of};
ghost use Rattle.cedar_model.specs.Failures.{out_of_memory};
ghost use Rattle.cedar_errors.specs.Failures.{failure_of};
ghost use Rattle.cedar_errors.specs.Answers.{FailsWith};
ghost use Rattle.cedar_operators.specs.Orders.{compared_as, compared_in, ordering, ordering_failure};
ghost use Rattle.cedar_operators.specs.Orders.{none_comparable, not_of_type};

use crate::failures::type_error;
use crate::typed::long_in;
use cedar_errors::evaluator::err::{EvaluationError, evaluation_errors};
use cedar_extensions::Extensions;
use cedar_layers::expressions::{ExtensionValue, FirstRest, Type, Value, ValueKind};
use evaluation_errors::TypeError;
use std::alloc::{AllocError, Global};
use std::cmp::Ordering;

// How two values compare: two longs, or two extension values of one overloaded type, by their keys. Where one side is a
// long, the other is expected to be one; else where one, the left first, is of an overloaded type, the other is
// expected to be of it; else the left is expected to be a long or of an overloaded type.
#[tactic(auto, using(crate::proofs::Longs::beside_longs))]
pub(crate) fn order(
    alloc: Global,
    a: &Value,
    b: &Value,
    extensions: &Extensions<'_>,
) -> Result<Ordering, EvaluationError>
    ensures ok { IfOk result (λ o. ordering extensions.now a.now b.now ≡ Some o) }
    ensures no_order { IfErr result (λ e. failure_of e ≢ out_of_memory → ordering extensions.now a.now b.now ≡ None) }
    ensures error { IfErr result (λ e. FailsWith e (ordering_failure extensions.now a.now b.now)) }
{
    match long_in(a) {
        Some(m) => match long_in(b) {
            Some(n) => Ok(m.cmp(&n)),
            None => Err(type_error(alloc, Type::Long, b)),
        },
        None => match long_in(b) {
            Some(_) => Err(type_error(alloc, Type::Long, a)),
            None => order_of_others(alloc, a, b, extensions),
        },
    }
}

// The same where neither is a long.
#[tactic(auto, using(crate::proofs::Orders::orders))]
fn order_of_others(
    alloc: Global,
    a: &Value,
    b: &Value,
    extensions: &Extensions<'_>,
) -> Result<Ordering, EvaluationError>
    requires left { long_of (abstract_value a.now.what) ≡ None }
    requires right { long_of (abstract_value b.now.what) ≡ None }
    ensures ok { IfOk result (λ o. ordering extensions.now a.now b.now ≡ Some o) }
    ensures no_order { IfErr result (λ e. failure_of e ≢ out_of_memory → ordering extensions.now a.now b.now ≡ None) }
    ensures error { IfErr result (λ e. FailsWith e (ordering_failure extensions.now a.now b.now)) }
{
    match overloaded_in(a, extensions) {
        Some(v) => match overloaded_in(b, extensions) {
            Some(w) => {
                if v.typename == w.typename {
                    Ok(v.key.as_slice().cmp(w.key.as_slice()))
                } else {
                    Err(extension_expected(alloc, v, b))
                }
            }
            None => Err(extension_expected(alloc, v, b)),
        },
        None => match overloaded_in(b, extensions) {
            Some(w) => Err(extension_expected(alloc, w, a)),
            None => Err(comparable_expected(alloc, extensions, a)),
        },
    }
}

// The extension value, if the value is one and its type is overloaded.
fn overloaded_in<'v>(value: &'v Value, extensions: &Extensions<'_>) -> Option<&'v ExtensionValue>
    ensures { option_map compared_as (option_copied result) ≡ compared_in extensions.now value.now }
{
    match value.value_kind() {
        ValueKind::Lit(_) => None,
        ValueKind::Set(_) => None,
        ValueKind::Record(_) => None,
        ValueKind::ExtensionValue(extension) => {
            if extensions.overloads(&extension.typename) {
                Some(extension)
            } else {
                None
            }
        }
    }
}

// The error that the value is not of the type of this extension value, at the value's location.
#[cold]
#[inline(never)]
fn extension_expected(alloc: Global, expected: &ExtensionValue, value: &Value) -> EvaluationError
    ensures { FailsWith result (not_of_type expected.now value.now) }
{
    match expected.typename.clone() {
        Ok(name) => type_error(alloc, Type::Extension { name }, value),
        Err(error) => EvaluationError::Memory(error),
    }
}

// The error that the value is neither a long nor of an overloaded type, at the value's location.
#[cold]
#[inline(never)]
fn comparable_expected(alloc: Global, extensions: &Extensions<'_>, value: &Value) -> EvaluationError
    ensures { FailsWith result (none_comparable extensions.now value.now) }
{
    match comparable_error(alloc, extensions, value) {
        Ok(error) => error,
        Err(error) => EvaluationError::Memory(error),
    }
}

// The same, or out of memory.
fn comparable_error(
    alloc: Global,
    extensions: &Extensions<'_>,
    value: &Value,
) -> Result<EvaluationError, AllocError>
    ensures { IfOk result (λ e. FailsWith e (none_comparable extensions.now value.now)) }
{
    let actual = value.type_of()?;
    let rest = extensions.overloaded_types(alloc)?;
    Ok(EvaluationError::TypeError(TypeError {
        expected: FirstRest {
            first: Type::Long,
            rest,
        },
        actual,
        source_loc: value.source_loc().copied(),
    }))
}
