#![tactic(auto, using(crate::proofs::Refused::refusals, cedar_policy_json_reader::proofs::Views::views, cedar_policy_json_reader::proofs::Members::members))]
//! Members of objects, arrays and texts.
ghost use Rattle.std.specs.Prelude.{◌≡◌, Ok, IfOk, IfErr, option_map};
ghost use Rattle.json.specs.Find.{as_array};
ghost use Rattle.json.specs.Value.{value_view, items_view};
ghost use Rattle.cedar_policy_json_reader.specs.Paths.{at_key};
ghost use Rattle.cedar_policy_json_reader.specs.Shapes.{member_count};
ghost use Rattle.cedar_response_json_reader.specs.Refusals.{IsRefusal, under};
ghost use Rattle.cedar_response_json_reader.specs.Shapes as shape;

use crate::errors::{ResponseJsonError, ResponseRefusal};
use json::Value;
use std::alloc::Global;

/// Why the value is no object of so many members at most, if it isn't.
pub(crate) fn over_members(value: &Value<'_>, most: usize) -> Option<ResponseRefusal>
    ensures { result ≡ shape.over_members most (value_view value.now) }
{
    match member_count(value) {
        Some(count) => if count > most {
            Some(ResponseRefusal::UnexpectedMember)
        } else {
            None
        },
        None => Some(ResponseRefusal::NotAnObject),
    }
}

fn member_count(value: &Value<'_>) -> Option<usize>
    ensures { result ≡ member_count (value_view value.now) }
{
    match value {
        Value::Object(members) => Some(members.len()),
        Value::Null => None,
        Value::Bool(_) => None,
        Value::Number(_) => None,
        Value::String(_) => None,
        Value::Array(_) => None,
    }
}

/// What stands at this key.
pub(crate) fn member_at<'v, 'a>(
    alloc: Global,
    value: &'v Value<'a>,
    key: &str,
) -> Result<&'v Value<'a>, ResponseJsonError>
    ensures said { IfOk result (λ v. shape.member_at key.now (value_view value.now) ≡ Ok (value_view v.now)) }
    ensures refused { IfErr result (IsRefusal (shape.member_at key.now (value_view value.now))) }
{
    match value.get(key) {
        Some(found) => Ok(found),
        None => Err(ResponseJsonError::refusal_at(alloc, key, ResponseRefusal::MissingMember)),
    }
}

/// The items, where the value is an array.
pub(crate) fn array<'v, 'a>(value: &'v Value<'a>) -> Option<&'v Vec<Value<'a>>>
    ensures { option_map (λ js. items_view js.now.items) result ≡ as_array (value_view value.now) }
{
    match value {
        Value::Array(items) => Some(items),
        Value::Null => None,
        Value::Bool(_) => None,
        Value::Number(_) => None,
        Value::String(_) => None,
        Value::Object(_) => None,
    }
}

/// The text that the value is.
pub(crate) fn text<'a>(alloc: Global, value: &Value<'a>) -> Result<&'a str, ResponseJsonError>
    ensures said { IfOk result (λ t. shape.text_said (value_view value.now) ≡ Ok t.now) }
    ensures refused { IfErr result (IsRefusal (shape.text_said (value_view value.now))) }
{
    match value.as_str() {
        Some(text) => Ok(text),
        None => Err(ResponseJsonError::refusal(alloc, ResponseRefusal::NotAText)),
    }
}

/// The text at this key.
pub(crate) fn text_at<'a>(
    alloc: Global,
    value: &Value<'a>,
    key: &str,
) -> Result<&'a str, ResponseJsonError>
    ensures said { IfOk result (λ t. shape.part_at key.now shape.text_said (value_view value.now) ≡ Ok t.now) }
    ensures refused { IfErr result (IsRefusal (shape.part_at key.now shape.text_said (value_view value.now))) }
{
    match member_at(alloc, value, key) {
        Ok(part) => match text(alloc, part) {
            Ok(text) => Ok(text),
            Err(error) => Err(error.under_key(alloc, key)),
        },
        Err(error) => Err(error),
    }
}
