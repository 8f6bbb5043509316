//! Values of the types that operators take, and the type errors of others.
ghost use Rattle.std.specs.Prelude.{◌≡◌, ◌≢◌, IfOk, IfErr, Some, None, [], option_map, option_copied};
ghost use Rattle.std.specs.Rc.{rc_str_bytes};
ghost use Rattle.cedar_model.specs.Terms.{bool_type, long_type, string_type, set_type};
ghost use Rattle.cedar_model.specs.Terms as Terms;
ghost use Rattle.cedar_model.specs.Values.{abstract_value, abstract_values, plain_represented};
ghost use Rattle.cedar_model.specs.Outcomes.{bool_of, long_of, text_of, entity_of, elements_of};
ghost use Rattle.cedar_model.specs.Failures.{value, wrong_type, any_entity, out_of_memory};
ghost use Rattle.cedar_names.specs.Names.{uid_name};
ghost use Rattle.cedar_names.specs.declared.names.EntityUID.{EntityUID};
ghost use Rattle.std.specs.declared.rc.Rc.{Rc};
ghost use Rattle.std.specs.declared.alloc.Global.{Global};
ghost use Rattle.cedar_values.specs.Residuals.{partial_view};
ghost use Rattle.cedar_values.specs.Sound.{Elements};
ghost use Rattle.cedar_errors.specs.Failures.{failure_of};
ghost use Rattle.cedar_errors.specs.Answers.{value_answer, partial_answer, FailsWith};

use crate::failures::{entity_expected, type_error};
use cedar_errors::evaluator::err::EvaluationError;
use cedar_layers::expressions::{EntityUID, Literal, PartialValue, Set, Type, Value, ValueKind};
use cedar_values::{entity_in, text_in};
use std::alloc::Global;
use std::rc::{Rc, RcStr};

/// A boolean, at no known location.
#[inline(always)]
pub fn bool_value(b: bool) -> Value
    ensures { result.what ≡ plain_represented (Terms.bool_literal b) }
{
    Value::new(ValueKind::Lit(Literal::Bool(b)), None)
}

/// A boolean, at no known location.
#[inline(always)]
pub fn bool_part(b: bool) -> PartialValue
    ensures { partial_view result ≡ value (plain_represented (Terms.bool_literal b)) }
{
    PartialValue::Value(bool_value(b))
}

/// The same answer, of a call that gives a value, where a residual may be answered too.
#[inline(always)]
pub fn as_part(answer: Result<Value, EvaluationError>) -> Result<PartialValue, EvaluationError>
    ensures { partial_answer result ≡ value_answer answer }
{
    match answer {
        Ok(value) => Ok(PartialValue::Value(value)),
        Err(error) => Err(error),
    }
}

// A long, at no known location.
pub(crate) fn long_value(n: i64) -> Value
    ensures { result.what ≡ plain_represented (Terms.long_literal n) }
{
    Value::new(ValueKind::Lit(Literal::Long(n)), None)
}

/// The boolean, or a type error that expects one.
#[tactic(auto, unfolding(cedar_model::specs::Outcomes::bool_of))]
#[inline(always)]
pub fn get_as_bool(alloc: Global, value: &Value) -> Result<bool, EvaluationError>
    ensures ok { IfOk result (λ b. bool_of (abstract_value value.now.what) ≡ Some b) }
    ensures no_bool { IfErr result (λ e. failure_of e ≢ out_of_memory → bool_of
        (abstract_value value.now.what) ≡ None) }
    ensures error { IfErr result (λ e. FailsWith e (wrong_type bool_type [] (abstract_value value.now.what))) }
{
    match bool_in(value) {
        Some(x) => Ok(x),
        None => Err(type_error(alloc, Type::Bool, value)),
    }
}

/// The boolean, if the value is one.
#[tactic(auto, unfolding(cedar_model::specs::Outcomes::bool_of))]
#[inline(always)]
pub fn bool_in(value: &Value) -> Option<bool>
    ensures { result ≡ bool_of (abstract_value value.now.what) }
{
    match value.value_kind() {
        ValueKind::Lit(literal) => match literal {
            Literal::Bool(x) => Some(*x),
            Literal::Long(_) => None,
            Literal::String(_) => None,
            Literal::EntityUID(_) => None,
        },
        ValueKind::Set(_) => None,
        ValueKind::Record(_) => None,
        ValueKind::ExtensionValue(_) => None,
    }
}

// The long, or a type error that expects one.
#[tactic(auto, unfolding(cedar_model::specs::Outcomes::long_of))]
#[inline(always)]
pub(crate) fn get_as_long(alloc: Global, value: &Value) -> Result<i64, EvaluationError>
    ensures ok { IfOk result (λ n. long_of (abstract_value value.now.what) ≡ Some n) }
    ensures no_long { IfErr result (λ e. failure_of e ≢ out_of_memory → long_of
        (abstract_value value.now.what) ≡ None) }
    ensures error { IfErr result (λ e. FailsWith e (wrong_type long_type [] (abstract_value value.now.what))) }
{
    match long_in(value) {
        Some(x) => Ok(x),
        None => Err(type_error(alloc, Type::Long, value)),
    }
}

// The long, if the value is one.
#[tactic(auto, unfolding(cedar_model::specs::Outcomes::long_of))]
#[inline(always)]
pub(crate) fn long_in(value: &Value) -> Option<i64>
    ensures { result ≡ long_of (abstract_value value.now.what) }
{
    match value.value_kind() {
        ValueKind::Lit(literal) => match literal {
            Literal::Bool(_) => None,
            Literal::Long(x) => Some(*x),
            Literal::String(_) => None,
            Literal::EntityUID(_) => None,
        },
        ValueKind::Set(_) => None,
        ValueKind::Record(_) => None,
        ValueKind::ExtensionValue(_) => None,
    }
}

// The text, or a type error that expects one.
#[tactic(auto, unfolding(cedar_model::specs::Outcomes::text_of))]
#[inline(always)]
pub(crate) fn get_as_string(alloc: Global, value: &Value) -> Result<&RcStr, EvaluationError>
    ensures ok { IfOk result (λ t. text_of (abstract_value value.now.what) ≡ Some (rc_str_bytes t.now)) }
    ensures no_text { IfErr result (λ e. failure_of e ≢ out_of_memory → text_of
        (abstract_value value.now.what) ≡ None) }
    ensures error { IfErr result (λ e. FailsWith e (wrong_type string_type [] (abstract_value value.now.what))) }
{
    match text_in(value) {
        Some(x) => Ok(x),
        None => Err(type_error(alloc, Type::String, value)),
    }
}

// The entity, or a type error that expects one.
#[tactic(auto, unfolding(cedar_model::specs::Outcomes::entity_of))]
#[inline(always)]
pub(crate) fn get_as_entity(alloc: Global, value: &Value) -> Result<&Rc<EntityUID>, EvaluationError>
    ensures ok { IfOk result (λ u. entity_of (abstract_value value.now.what) ≡ Some (uid_name u.now.value)) }
    ensures no_entity { IfErr result (λ e. failure_of e ≢ out_of_memory → entity_of
        (abstract_value value.now.what) ≡ None) }
    ensures error { IfErr result (λ e. FailsWith e (wrong_type any_entity [] (abstract_value value.now.what))) }
{
    match entity_in(value) {
        Some(x) => Ok(x),
        None => Err(entity_expected(alloc, value)),
    }
}

// The set, or a type error that expects one.
#[tactic(auto, unfolding(cedar_model::specs::Outcomes::elements_of))]
#[inline(always)]
pub(crate) fn get_as_set(alloc: Global, value: &Value) -> Result<&Set, EvaluationError>
    ensures ok { IfOk result (λ s. elements_of (abstract_value value.now.what) ≡ Some (abstract_values s.now.all)) }
    ensures no_set { IfErr result (λ e. failure_of e ≢ out_of_memory → elements_of
        (abstract_value value.now.what) ≡ None) }
    ensures error { IfErr result (λ e. FailsWith e (wrong_type set_type [] (abstract_value value.now.what))) }
{
    match set_in(value) {
        Some(x) => Ok(x),
        None => Err(type_error(alloc, Type::Set, value)),
    }
}

#[tactic(auto, unfolding(cedar_model::specs::Outcomes::elements_of))]
#[inline(always)]
fn set_in(value: &Value) -> Option<&Set>
    ensures { option_map (λ (s : Elements). abstract_values s.all) (option_copied result) ≡ elements_of
        (abstract_value value.now.what) }
{
    match value.value_kind() {
        ValueKind::Lit(_) => None,
        ValueKind::Set(x) => Some(x),
        ValueKind::Record(_) => None,
        ValueKind::ExtensionValue(_) => None,
    }
}
