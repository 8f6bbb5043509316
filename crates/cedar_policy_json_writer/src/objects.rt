#![tactic(auto, using(cedar_json_writer::proofs::Trees::trees))]
//! Objects of a few members, and texts that are shared.
ghost use Rattle.std.specs.Prelude.{◌≡◌, IfOk};
ghost use Rattle.std.specs.Rc.{rc_str_bytes};
ghost use Rattle.json.specs.Json.{string};
ghost use Rattle.cedar_json_writer.specs.Trees.{json_view};
ghost use Rattle.cedar_json_writer.specs.Written.{sole_member, two_members};
ghost use Rattle.cedar_policy_json_writer.specs.Objects.{three_members, operation};

use cedar_json_writer::{JsonValue, put_member};
use std::alloc::{AllocError, Global};
use std::rc::RcStr;

/// The text in JSON.
pub(crate) fn text_of(text: &RcStr) -> Result<JsonValue, AllocError>
    ensures { IfOk result (λ j. json_view j ≡ string (rc_str_bytes text.now)) }
{
    let text: RcStr = text.clone()?;
    Ok(JsonValue::String(text))
}

/// The object of this member alone.
pub(crate) fn object_of(alloc: Global, key: &str, value: JsonValue) -> Result<JsonValue, AllocError>
    ensures { IfOk result (λ j. json_view j ≡ sole_member key.now (json_view value)) }
{
    let mut members: Vec<(RcStr, JsonValue)> = Vec::new(alloc);
    put_member(alloc, key, value, &mut members)?;
    Ok(JsonValue::Object(members))
}

/// The object of these two members.
pub(crate) fn object_of_two(
    alloc: Global,
    first_key: &str,
    first: JsonValue,
    second_key: &str,
    second: JsonValue,
) -> Result<JsonValue, AllocError>
    ensures { IfOk result (λ j. json_view j
        ≡ two_members first_key.now (json_view first) second_key.now (json_view second)) }
{
    let mut members: Vec<(RcStr, JsonValue)> = Vec::new(alloc);
    put_member(alloc, first_key, first, &mut members)?;
    put_member(alloc, second_key, second, &mut members)?;
    Ok(JsonValue::Object(members))
}

/// The object of these three members.
pub(crate) fn object_of_three(
    alloc: Global,
    first_key: &str,
    first: JsonValue,
    second_key: &str,
    second: JsonValue,
    third_key: &str,
    third: JsonValue,
) -> Result<JsonValue, AllocError>
    ensures { IfOk result (λ j. json_view j ≡ three_members first_key.now (json_view first)
        second_key.now (json_view second) third_key.now (json_view third)) }
{
    let mut members: Vec<(RcStr, JsonValue)> = Vec::new(alloc);
    put_member(alloc, first_key, first, &mut members)?;
    put_member(alloc, second_key, second, &mut members)?;
    put_member(alloc, third_key, third, &mut members)?;
    Ok(JsonValue::Object(members))
}

/// The operator on what stands at `left` and at this key.
pub(crate) fn operation(
    alloc: Global,
    operator: &str,
    left: JsonValue,
    key: &str,
    right: JsonValue,
) -> Result<JsonValue, AllocError>
    ensures { IfOk result (λ j. json_view j
        ≡ operation operator.now (json_view left) key.now (json_view right)) }
{
    let operands = object_of_two(alloc, "left", left, key, right)?;
    object_of(alloc, operator, operands)
}
