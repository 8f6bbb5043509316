//! Texts in JSON.
ghost use Rattle.std.specs.Prelude.{◌≡◌, [], ◌∷◌, ◌++◌, map, OnOk, string_bytes};
ghost use Rattle.json.specs.Json.{string};
ghost use Rattle.cedar_json_writer.specs.Trees.{json_view, members_seen};

use crate::{JsonValue, put_item, put_member, text_to_json};
use std::alloc::{AllocError, Global};
use std::rc::RcStr;

/// Puts the text behind the items that are there.
pub(crate) fn put_text(
    alloc: Global,
    text: &str,
    items: &mut Vec<JsonValue>,
) -> Result<(), AllocError>
    ensures { OnOk result
        (map json_view items.new.items ≡ map json_view items.old.items ++ string text.now ∷ []) }
{
    let text = text_to_json(alloc, text)?;
    put_item(text, items)?;
    Ok(())
}

/// Puts the text under this key behind the members that are there.
pub(crate) fn put_text_member(
    alloc: Global,
    key: &str,
    text: &str,
    members: &mut Vec<(RcStr, JsonValue)>,
) -> Result<(), AllocError>
    ensures { OnOk result
        (members_seen members.new.items ≡ members_seen members.old.items ++ (key.now, string text.now) ∷ []) }
{
    let text = text_to_json(alloc, text)?;
    put_member(alloc, key, text, members)?;
    Ok(())
}

/// The same of a `String`.
pub(crate) fn put_string_member(
    alloc: Global,
    key: &str,
    text: &String,
    members: &mut Vec<(RcStr, JsonValue)>,
) -> Result<(), AllocError>
    ensures { OnOk result (members_seen members.new.items
        ≡ members_seen members.old.items ++ (key.now, string (string_bytes text.now)) ∷ []) }
{
    put_text_member(alloc, key, text.as_str(), members)?;
    Ok(())
}
