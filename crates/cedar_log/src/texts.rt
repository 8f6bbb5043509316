#![tactic(auto, using(crate::proofs::Views::views))]
//! JSON as text.
ghost use Rattle.std.specs.Prelude.{◌≡◌, Some, IfOk, option_map, string_bytes};
ghost use Rattle.std.specs.Str.{IsUtf8};
ghost use Rattle.json.specs.Json.{string};
ghost use Rattle.json.specs.Tree.{HasNumbers};
ghost use Rattle.json.specs.Value.{value_view};
ghost use Rattle.cedar_log.specs.Lines.{json_text, found_text, optional_text, optional_quoted, HaveNumbers};

use json::{Value, to_vec};
use std::alloc::{AllocError, Global};

/// The value as text, on one line. Refuses only if out of memory.
pub(crate) fn value_text(alloc: Global, value: &Value<'_>) -> Result<String, AllocError>
    requires { HasNumbers (value_view value.now) }
    ensures { IfOk result (λ s. string_bytes s ≡ json_text (value_view value.now)) }
{
    let bytes = to_vec(alloc, value)?;
    Ok(string_of(bytes))
}

/// The text as a string of JSON. Refuses only if out of memory.
pub(crate) fn quoted(alloc: Global, text: &str) -> Result<String, AllocError>
    ensures { IfOk result (λ s. string_bytes s ≡ json_text (string text.now)) }
{
    let value: Value<'_> = Value::String(text);
    value_text(alloc, &value)
}

fn string_of(bytes: Vec<u8>) -> String
    requires { IsUtf8 bytes.items }
    ensures { string_bytes result ≡ bytes.items }
{
    unsafe { String::from_utf8_unchecked(bytes) }
}

/// The value as text, or `null` if there is none. Refuses only if out of memory.
pub(crate) fn found_text(alloc: Global, value: Option<&Value<'_>>) -> Result<String, AllocError>
    requires { HaveNumbers (option_map (λ v. value_view v.now) value) }
    ensures { IfOk result (λ s. string_bytes s ≡ found_text (option_map (λ v. value_view v.now) value.entry)) }
{
    match value {
        Some(value) => value_text(alloc, value),
        None => String::from_str(alloc, "null"),
    }
}

/// The value as text behind this one; nothing if there is none. Refuses only if out of memory.
pub(crate) fn optional_text(
    alloc: Global,
    before: &str,
    value: Option<&Value<'_>>,
) -> Result<String, AllocError>
    requires { HaveNumbers (option_map (λ v. value_view v.now) value) }
    ensures { IfOk result (λ s.
        string_bytes s ≡ optional_text before.now (option_map (λ v. value_view v.now) value.entry)) }
{
    match value {
        Some(value) => behind(alloc, before, value),
        None => Ok(String::new(alloc)),
    }
}

fn behind(alloc: Global, before: &str, value: &Value<'_>) -> Result<String, AllocError>
    requires { HasNumbers (value_view value.now) }
    ensures { IfOk result (λ s. string_bytes s ≡ optional_text before.now (Some (value_view value.now))) }
{
    let text = value_text(alloc, value)?;
    format!(in alloc; "{before}{text}")
}

/// The text as a string of JSON behind this one; nothing if there is none. Refuses only if out of memory.
pub(crate) fn optional_quoted(
    alloc: Global,
    before: &str,
    text: Option<&str>,
) -> Result<String, AllocError>
    ensures { IfOk result (λ s. string_bytes s ≡ optional_quoted before.now (option_map (λ t. t.now) text.entry)) }
{
    match text {
        Some(text) => quoted_behind(alloc, before, text),
        None => Ok(String::new(alloc)),
    }
}

fn quoted_behind(alloc: Global, before: &str, text: &str) -> Result<String, AllocError>
    ensures { IfOk result (λ s. string_bytes s ≡ optional_quoted before.now (Some text.now)) }
{
    let text = quoted(alloc, text)?;
    format!(in alloc; "{before}{text}")
}
