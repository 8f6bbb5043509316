#![tactic(auto, using(crate::proofs::Trees::trees))]
//! JSON values that own their parts.
ghost use Rattle.std.specs.Prelude.{◌≡◌, [], ◌∷◌, ◌++◌, map, IfOk, OnOk};
ghost use Rattle.json.specs.Json.{string};
ghost use Rattle.cedar_json_writer.specs.Trees.{json_view, members_seen};

use std::alloc::{AllocError, Global};
use std::rc::RcStr;

/// A JSON value: `null`, a boolean, an integer, a string, an array, or an object with its members in their order.
#[derive(Drop)]
pub enum JsonValue {
    Null,
    Bool(bool),
    Long(i64),
    String(RcStr),
    Array(Vec<JsonValue>),
    Object(Vec<(RcStr, JsonValue)>),
}

/// The string of this text. Refuses only if out of memory.
pub fn text_to_json(alloc: Global, text: &str) -> Result<JsonValue, AllocError>
    ensures { IfOk result (λ j. json_view j ≡ string text.now) }
{
    let text = RcStr::from_str(alloc, text)?;
    Ok(JsonValue::String(text))
}

/// Puts the value behind the items that are there. Refuses only if out of memory.
pub fn put_item(value: JsonValue, items: &mut Vec<JsonValue>) -> Result<(), AllocError>
    ensures { OnOk result
        (map json_view items.new.items ≡ map json_view items.old.items ++ json_view value ∷ []) }
{
    match items.push(value) {
        Ok(()) => Ok(()),
        Err(_) => Err(AllocError),
    }
}

/// Puts the value under this key behind the members that are there. Refuses only if out of memory.
pub fn put_member(
    alloc: Global,
    key: &str,
    value: JsonValue,
    members: &mut Vec<(RcStr, JsonValue)>,
) -> Result<(), AllocError>
    ensures { OnOk result
        (members_seen members.new.items ≡ members_seen members.old.items ++ (key.now, json_view value) ∷ []) }
{
    match RcStr::from_str(alloc, key) {
        Ok(key) => match members.push((key, value)) {
            Ok(()) => Ok(()),
            Err(_) => Err(AllocError),
        },
        Err(error) => {
            drop(value);
            Err(error)
        }
    }
}
