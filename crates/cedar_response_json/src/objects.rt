#![tactic(auto, using(cedar_json_writer::proofs::Trees::trees))]
//! Objects of three members, and texts under keys.
ghost use Rattle.std.specs.Prelude.{◌≡◌, [], ◌∷◌, ◌++◌, map, IfOk, OnOk};
ghost use Rattle.json.specs.Json.{string};
ghost use Rattle.cedar_json_writer.specs.Trees.{json_view, members_seen};
ghost use Rattle.cedar_policy_json_writer.specs.Objects.{three_members};

use cedar_json_writer::{JsonValue, put_item, put_member, text_to_json};
use std::alloc::{AllocError, Global};
use std::rc::RcStr;

/// The object of these three members.
pub(crate) fn object_of_three(
    alloc: Global,
    first_key: &str,
    first: JsonValue,
    second_key: &str,
    second: JsonValue,
    third_key: &str,
    third: JsonValue,
) -> Result<JsonValue, AllocError>
    ensures { IfOk result (λ j. json_view j ≡ three_members first_key.now (json_view first)
        second_key.now (json_view second) third_key.now (json_view third)) }
{
    let mut members: Vec<(RcStr, JsonValue)> = Vec::new(alloc);
    put_member(alloc, first_key, first, &mut members)?;
    put_member(alloc, second_key, second, &mut members)?;
    put_member(alloc, third_key, third, &mut members)?;
    Ok(JsonValue::Object(members))
}

/// Puts the text under this key behind the members that are there.
pub(crate) fn put_text(
    alloc: Global,
    key: &str,
    text: &str,
    members: &mut Vec<(RcStr, JsonValue)>,
) -> Result<(), AllocError>
    ensures { OnOk result
        (members_seen members.new.items ≡ members_seen members.old.items ++ (key.now, string text.now) ∷ []) }
{
    let text = text_to_json(alloc, text)?;
    put_member(alloc, key, text, members)?;
    Ok(())
}

/// Puts the text behind the items that are there.
pub(crate) fn put_text_item(
    alloc: Global,
    text: &str,
    items: &mut Vec<JsonValue>,
) -> Result<(), AllocError>
    ensures { OnOk result
        (map json_view items.new.items ≡ map json_view items.old.items ++ string text.now ∷ []) }
{
    let text = text_to_json(alloc, text)?;
    put_item(text, items)?;
    Ok(())
}
