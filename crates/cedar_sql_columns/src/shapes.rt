#![tactic(auto, using(crate::proofs::Views::views, crate::proofs::Members::members, crate::proofs::Refused::refusals))]
//! The shapes of objects: the values at keys that they have, and no others.
ghost use Rattle.std.specs.Prelude.{◌≡◌, [], ◌∷◌, Ok, IfOk, IfErr, option_map};
ghost use Rattle.json.specs.Find.{as_object, as_array, get};
ghost use Rattle.json.specs.Value.{value_view, items_view, members_view};
ghost use Rattle.cedar_sql_columns.specs.Paths.{at_key};
ghost use Rattle.cedar_sql_columns.specs.Refusals.{IsRefusal, IsRefusedAt, under};
ghost use Rattle.cedar_sql_columns.specs.declared.errors.RefusalReason.TheVariants as reasons;
ghost use Rattle.cedar_sql_columns.specs.Shapes as shape;

use crate::errors::{ColumnsError, RefusalReason};
use json::Value;
use std::alloc::Global;

/// The items, where the value is an array.
pub(crate) fn array<'v, 'a>(value: &'v Value<'a>) -> Option<&'v Vec<Value<'a>>>
    ensures { option_map (λ js. items_view js.now.items) result ≡ as_array (value_view value.now) }
{
    match value {
        Value::Array(items) => Some(items),
        Value::Null => None,
        Value::Bool(_) => None,
        Value::Number(_) => None,
        Value::String(_) => None,
        Value::Object(_) => None,
    }
}

/// The members, where the value is an object.
pub(crate) fn object<'v, 'a>(value: &'v Value<'a>) -> Option<&'v Vec<(&'a str, Value<'a>)>>
    ensures { option_map (λ ms. members_view ms.now.items) result ≡ as_object (value_view value.now) }
{
    match value {
        Value::Object(members) => Some(members),
        Value::Null => None,
        Value::Bool(_) => None,
        Value::Number(_) => None,
        Value::String(_) => None,
        Value::Array(_) => None,
    }
}

/// How many members an object has.
pub(crate) fn member_count(value: &Value<'_>) -> Option<usize>
    ensures { result ≡ shape.member_count (value_view value.now) }
{
    match value {
        Value::Object(members) => Some(members.len()),
        Value::Null => None,
        Value::Bool(_) => None,
        Value::Number(_) => None,
        Value::String(_) => None,
        Value::Array(_) => None,
    }
}

// ---- one member

/// What stands at this key, where the value is an object that has no other.
pub(crate) fn one_member<'v, 'a>(
    alloc: Global,
    value: &'v Value<'a>,
    key: &str,
) -> Result<&'v Value<'a>, ColumnsError>
    ensures said { IfOk result (λ v. shape.one_at key.now (value_view value.now) ≡ Ok (value_view v.now)) }
    ensures refused { IfErr result (IsRefusal (shape.one_at key.now (value_view value.now))) }
{
    match member_count(value) {
        Some(count) => one_found(alloc, value, count, key),
        None => Err(ColumnsError::refusal(alloc, RefusalReason::NotAnObject)),
    }
}

fn one_found<'v, 'a>(
    alloc: Global,
    value: &'v Value<'a>,
    count: usize,
    key: &str,
) -> Result<&'v Value<'a>, ColumnsError>
    ensures said { IfOk result
        (λ v. shape.one_found key.now count (get key.now (value_view value.now)) ≡ Ok (value_view v.now)) }
    ensures refused { IfErr result
        (IsRefusal (shape.one_found key.now count (get key.now (value_view value.now)))) }
{
    match value.get(key) {
        Some(found) => if count == 1 {
            Ok(found)
        } else {
            Err(ColumnsError::refusal(alloc, RefusalReason::UnexpectedMember))
        },
        None => Err(missing(alloc, key)),
    }
}

// ---- two members

/// What stands at these two keys, where the value is an object that has no others.
pub(crate) fn two_members<'v, 'a>(
    alloc: Global,
    value: &'v Value<'a>,
    first_key: &str,
    second_key: &str,
) -> Result<(&'v Value<'a>, &'v Value<'a>), ColumnsError>
    ensures said { IfOk result (λ p. shape.two_at first_key.now second_key.now (value_view value.now)
        ≡ Ok (value_view p.0.now, value_view p.1.now)) }
    ensures refused { IfErr result (IsRefusal (shape.two_at first_key.now second_key.now (value_view value.now))) }
{
    match member_count(value) {
        Some(count) => two_found(alloc, value, count, first_key, second_key),
        None => Err(ColumnsError::refusal(alloc, RefusalReason::NotAnObject)),
    }
}

fn two_found<'v, 'a>(
    alloc: Global,
    value: &'v Value<'a>,
    count: usize,
    first_key: &str,
    second_key: &str,
) -> Result<(&'v Value<'a>, &'v Value<'a>), ColumnsError>
    ensures said { IfOk result (λ p. shape.two_found first_key.now second_key.now count
        (get first_key.now (value_view value.now)) (get second_key.now (value_view value.now))
        ≡ Ok (value_view p.0.now, value_view p.1.now)) }
    ensures refused { IfErr result (IsRefusal (shape.two_found first_key.now second_key.now count
        (get first_key.now (value_view value.now)) (get second_key.now (value_view value.now)))) }
{
    match value.get(first_key) {
        Some(first) => match value.get(second_key) {
            Some(second) => if count == 2 {
                Ok((first, second))
            } else {
                Err(ColumnsError::refusal(alloc, RefusalReason::UnexpectedMember))
            },
            None => Err(missing(alloc, second_key)),
        },
        None => Err(missing(alloc, first_key)),
    }
}

/// The refusal of an object that lacks the member of this key.
#[cold]
pub(crate) fn missing(alloc: Global, key: &str) -> ColumnsError
    ensures { IsRefusedAt (at_key key.now ∷ []) reasons.MissingMember result }
{
    ColumnsError::refusal_at(alloc, key, RefusalReason::MissingMember)
}

// ---- four members

/// What stands at these four keys, where the value is an object that has no others.
pub(crate) fn four_members<'v, 'a>(
    alloc: Global,
    value: &'v Value<'a>,
    first_key: &str,
    second_key: &str,
    third_key: &str,
    fourth_key: &str,
) -> Result<(&'v Value<'a>, &'v Value<'a>, &'v Value<'a>, &'v Value<'a>), ColumnsError>
    ensures said { IfOk result
        (λ p. shape.four_at first_key.now second_key.now third_key.now fourth_key.now (value_view value.now)
        ≡ Ok (value_view p.0.now, value_view p.1.now, value_view p.2.now, value_view p.3.now)) }
    ensures refused { IfErr result (IsRefusal
        (shape.four_at first_key.now second_key.now third_key.now fourth_key.now (value_view value.now))) }
{
    match member_count(value) {
        Some(count) => four_found(
            alloc, value, count, first_key, second_key, third_key, fourth_key,
        ),
        None => Err(ColumnsError::refusal(alloc, RefusalReason::NotAnObject)),
    }
}

fn four_found<'v, 'a>(
    alloc: Global,
    value: &'v Value<'a>,
    count: usize,
    first_key: &str,
    second_key: &str,
    third_key: &str,
    fourth_key: &str,
) -> Result<(&'v Value<'a>, &'v Value<'a>, &'v Value<'a>, &'v Value<'a>), ColumnsError>
    ensures said { IfOk result
        (λ p. shape.four_found first_key.now second_key.now third_key.now fourth_key.now count
        (get first_key.now (value_view value.now)) (get second_key.now (value_view value.now))
        (get third_key.now (value_view value.now)) (get fourth_key.now (value_view value.now))
        ≡ Ok (value_view p.0.now, value_view p.1.now, value_view p.2.now, value_view p.3.now)) }
    ensures refused { IfErr result (IsRefusal
        (shape.four_found first_key.now second_key.now third_key.now fourth_key.now count
        (get first_key.now (value_view value.now)) (get second_key.now (value_view value.now))
        (get third_key.now (value_view value.now)) (get fourth_key.now (value_view value.now)))) }
{
    match value.get(first_key) {
        Some(first) => match value.get(second_key) {
            Some(second) => match value.get(third_key) {
                Some(third) => match value.get(fourth_key) {
                    Some(fourth) => if count == 4 {
                        Ok((first, second, third, fourth))
                    } else {
                        Err(ColumnsError::refusal(alloc, RefusalReason::UnexpectedMember))
                    },
                    None => Err(missing(alloc, fourth_key)),
                },
                None => Err(missing(alloc, third_key)),
            },
            None => Err(missing(alloc, second_key)),
        },
        None => Err(missing(alloc, first_key)),
    }
}

// ---- texts

/// The text that the value is.
pub(crate) fn text<'a>(alloc: Global, value: &Value<'a>) -> Result<&'a str, ColumnsError>
    ensures said { IfOk result (λ t. shape.text_said (value_view value.now) ≡ Ok t.now) }
    ensures refused { IfErr result (IsRefusal (shape.text_said (value_view value.now))) }
{
    match value.as_str() {
        Some(text) => Ok(text),
        None => Err(ColumnsError::refusal(alloc, RefusalReason::NotAText)),
    }
}

/// The text that the value at this key is.
pub(crate) fn text_at<'a>(
    alloc: Global,
    key: &str,
    value: &Value<'a>,
) -> Result<&'a str, ColumnsError>
    ensures said { IfOk result (λ t. under (at_key key.now) (shape.text_said (value_view value.now)) ≡ Ok t.now) }
    ensures refused { IfErr result (IsRefusal (under (at_key key.now) (shape.text_said (value_view value.now)))) }
{
    match text(alloc, value) {
        Ok(text) => Ok(text),
        Err(error) => Err(error.under_key(alloc, key)),
    }
}
