//! What functions of the standard extensions read of their arguments.
ghost use Rattle.std.specs.Prelude.{◌≡◌, [], Some, None, IfOk, IfErr, option_copied};
ghost use Rattle.std.specs.Rc.{rc_str_bytes};
ghost use Rattle.cedar_model.specs.Terms.{string_type, extension_type};
ghost use Rattle.cedar_model.specs.Values.{abstract_value};
ghost use Rattle.cedar_model.specs.Outcomes.{text_of};
ghost use Rattle.cedar_model.specs.Failures.{wrong_type};
ghost use Rattle.cedar_errors.specs.Answers.{FailsWith};
ghost use Rattle.cedar_errors.specs.Errors.{error_loc};
ghost use Rattle.cedar_extension_values.specs.Answered.{abstracts};
ghost use Rattle.cedar_extension_values.specs.Arguments.{key_in, first_of, second_of};

use crate::errors::{parse_name, type_error};
use cedar_errors::evaluator::err::EvaluationError;
use cedar_names::Type;
use cedar_values::{Value, ValueKind, text_in};
use std::alloc::Global;
use std::rc::RcStr;

/// The key of a value of the extension type of this name; `None` of each other value.
#[tactic(auto, unfolding(crate::specs::Arguments::key_in))]
pub fn key_in<'v>(value: &'v Value, type_name: &str) -> Option<&'v [u8]>
    ensures { option_copied result ≡ key_in type_name.now (abstract_value value.now.what) }
{
    match value.value_kind() {
        ValueKind::Lit(_) => None,
        ValueKind::Set(_) => None,
        ValueKind::Record(_) => None,
        ValueKind::ExtensionValue(value) => {
            if value.typename.text().as_str() == type_name {
                Some(value.key.as_slice())
            } else {
                None
            }
        }
    }
}

/// The text that is the first argument. A `TypeError` that expects a text, at no place, where it is no text; one that
/// is missing counts as `false`. Else the only error is `Memory`.
#[tactic(auto, unfolding(crate::specs::Arguments::first_of, cedar_model::specs::Outcomes::text_of))]
pub fn first_text(alloc: Global, args: &[Value]) -> Result<&RcStr, EvaluationError>
    ensures ok { IfOk result (λ t. text_of (first_of (abstracts args.now)) ≡ Some (rc_str_bytes t.now)) }
    ensures none { IfErr result (λ e. text_of (first_of (abstracts args.now)) ≡ None) }
    ensures failure { IfErr result (λ e. FailsWith e (wrong_type string_type [] (first_of (abstracts args.now)))) }
    ensures place { IfErr result (λ e. error_loc e ≡ None) }
{
    match args.split_first() {
        Some((value, _)) => text_of(alloc, value),
        None => Err(type_error(alloc, Type::String, &Value::from(false))),
    }
}

fn text_of(alloc: Global, value: &Value) -> Result<&RcStr, EvaluationError>
    ensures ok { IfOk result (λ t. text_of (abstract_value value.now.what) ≡ Some (rc_str_bytes t.now)) }
    ensures none { IfErr result (λ e. text_of (abstract_value value.now.what) ≡ None) }
    ensures failure { IfErr result (λ e. FailsWith e (wrong_type string_type [] (abstract_value value.now.what))) }
    ensures place { IfErr result (λ e. error_loc e ≡ None) }
{
    match text_in(value) {
        Some(text) => Ok(text),
        None => Err(type_error(alloc, Type::String, value)),
    }
}

/// The key of the first argument, which is of the extension type of this name. A `TypeError` that expects this type,
/// at no place, where it is of another; one that is missing counts as `false`. Else the only error is `Memory`.
#[tactic(auto, unfolding(crate::specs::Arguments::first_of, crate::specs::Arguments::key_in))]
pub fn first_key<'v>(
    alloc: Global,
    args: &'v [Value],
    type_name: &str,
) -> Result<&'v [u8], EvaluationError>
    ensures ok { IfOk result (λ k. key_in type_name.now (first_of (abstracts args.now)) ≡ Some k.now) }
    ensures none { IfErr result (λ e. key_in type_name.now (first_of (abstracts args.now)) ≡ None) }
    ensures failure { IfErr result (λ e.
        FailsWith e (wrong_type (extension_type type_name.now) [] (first_of (abstracts args.now)))) }
    ensures place { IfErr result (λ e. error_loc e ≡ None) }
{
    match args.split_first() {
        Some((value, _)) => key_of(alloc, value, type_name),
        None => Err(other_type(alloc, type_name, &Value::from(false))),
    }
}

/// The key of the second argument, which is of the extension type of this name. A `TypeError` that expects this type,
/// at no place, where it is of another; one that is missing counts as `false`. Else the only error is `Memory`.
#[tactic(auto, unfolding(crate::specs::Arguments::second_of, crate::specs::Arguments::key_in))]
pub fn second_key<'v>(
    alloc: Global,
    args: &'v [Value],
    type_name: &str,
) -> Result<&'v [u8], EvaluationError>
    ensures ok { IfOk result (λ k. key_in type_name.now (second_of (abstracts args.now)) ≡ Some k.now) }
    ensures none { IfErr result (λ e. key_in type_name.now (second_of (abstracts args.now)) ≡ None) }
    ensures failure { IfErr result (λ e.
        FailsWith e (wrong_type (extension_type type_name.now) [] (second_of (abstracts args.now)))) }
    ensures place { IfErr result (λ e. error_loc e ≡ None) }
{
    match args.split_first() {
        Some((_, others)) => first_key(alloc, others, type_name),
        None => Err(other_type(alloc, type_name, &Value::from(false))),
    }
}

fn key_of<'v>(alloc: Global, value: &'v Value, type_name: &str) -> Result<&'v [u8], EvaluationError>
    ensures ok { IfOk result (λ k. key_in type_name.now (abstract_value value.now.what) ≡ Some k.now) }
    ensures none { IfErr result (λ e. key_in type_name.now (abstract_value value.now.what) ≡ None) }
    ensures failure { IfErr result (λ e.
        FailsWith e (wrong_type (extension_type type_name.now) [] (abstract_value value.now.what))) }
    ensures place { IfErr result (λ e. error_loc e ≡ None) }
{
    match key_in(value, type_name) {
        Some(key) => Ok(key),
        None => Err(other_type(alloc, type_name, value)),
    }
}

// The error that the value is of another type than the extension type of this name.
fn other_type(alloc: Global, type_name: &str, value: &Value) -> EvaluationError
    ensures failure { FailsWith result
        (wrong_type (extension_type type_name.now) [] (abstract_value value.now.what)) }
    ensures place { error_loc result ≡ None }
{
    match parse_name(alloc, type_name) {
        Ok(name) => type_error(alloc, Type::Extension { name }, value),
        Err(error) => EvaluationError::Memory(error),
    }
}
