//! What is wrong with tests.
ghost use Rattle.std.specs.Prelude.{◌≡◌, ◌++◌, ◌∷◌, [], is_some, IfOk, OnOk, string_bytes};
ghost use Rattle.json.specs.Find.{get};
ghost use Rattle.json.specs.Value.{value_view, items_view};
ghost use Rattle.cedar_json_reader.specs.Paths.{at_index, at_key, path_view};
ghost use Rattle.cedar_policy_tests.specs.Faults as specs;
ghost use Rattle.cedar_policy_tests.specs.Said as said;

use crate::reading::{decision_in, first_other, reason_in, test_in, text_at};
use crate::values::items_in;
use cedar_json_reader::{JsonPath, PathStep};
use json::Value;
use std::alloc::{AllocError, Global};
use std::rc::RcStr;

/// Why the value is no array of tests: the first place where it is something else, from `$` on, and what is wrong there, as
/// `$[1].reasons: unexpected`. Refuses only if out of memory.
#[cold]
pub fn fault_in(alloc: Global, value: &Value<'_>) -> Result<String, AllocError>
    ensures { IfOk result (λ s. string_bytes s ≡ specs.fault_text (value_view value.now)) }
{
    match items_in(value) {
        Some(items) => first_fault(alloc, items),
        None => String::from_str(alloc, "$: not an array"),
    }
}

fn first_fault(alloc: Global, items: &Vec<Value<'_>>) -> Result<String, AllocError>
    ensures { IfOk result (λ s. string_bytes s ≡ specs.first_fault 0 (items_view items.now.items)) }
{
    'items: for i in 0..items.len() {
        if !is_test(&items[i]) {
            return fault_of(alloc, &items[i], i);
        }
    }
    String::from_str(alloc, "$: each item is a test")
}

// Why the item, of this index, is no test.
fn fault_of(alloc: Global, item: &Value<'_>, index: usize) -> Result<String, AllocError>
    ensures { IfOk result (λ s. string_bytes s ≡ specs.fault_of index (value_view item.now)) }
{
    match item {
        Value::Object(members) => match first_other(members) {
            Some(key) => member_text(alloc, index, key, "unexpected"),
            None => fault_of_member(alloc, item, index),
        },
        Value::Null => item_text(alloc, index, "not an object"),
        Value::Bool(_) => item_text(alloc, index, "not an object"),
        Value::Number(_) => item_text(alloc, index, "not an object"),
        Value::String(_) => item_text(alloc, index, "not an object"),
        Value::Array(_) => item_text(alloc, index, "not an object"),
    }
}

// Which member is lacking or of another kind.
fn fault_of_member(alloc: Global, item: &Value<'_>, index: usize) -> Result<String, AllocError>
    ensures { IfOk result (λ s. string_bytes s ≡ specs.fault_of_member index (value_view item.now)) }
{
    if !has_member(item, "name") {
        member_text(alloc, index, "name", "missing")
    } else if !has_text(item, "name") {
        member_text(alloc, index, "name", "not a string")
    } else if !has_member(item, "request") {
        member_text(alloc, index, "request", "missing")
    } else {
        fault_of_expected(alloc, item, index)
    }
}

// The same of what is expected.
fn fault_of_expected(alloc: Global, item: &Value<'_>, index: usize) -> Result<String, AllocError>
    ensures { IfOk result (λ s. string_bytes s ≡ specs.fault_of_expected index (value_view item.now)) }
{
    if !has_member(item, "decision") {
        member_text(alloc, index, "decision", "missing")
    } else if !has_decision(item) {
        member_text(alloc, index, "decision", "neither \"allow\" nor \"deny\"")
    } else if !has_reason(item) {
        member_text(alloc, index, "reason", "not an array of strings")
    } else {
        member_text(alloc, index, "num_errors", "not a count")
    }
}

// ---- what is well

fn is_test(item: &Value<'_>) -> bool
    ensures { result ≡ is_some (said.test_in (value_view item.now)) }
{
    match test_in(item) {
        Some(_) => true,
        None => false,
    }
}

fn has_member(item: &Value<'_>, key: &str) -> bool
    ensures { result ≡ is_some (get key.now (value_view item.now)) }
{
    match item.get(key) {
        Some(_) => true,
        None => false,
    }
}

fn has_text(item: &Value<'_>, key: &str) -> bool
    ensures { result ≡ is_some (said.text_at key.now (value_view item.now)) }
{
    match text_at(item, key) {
        Some(_) => true,
        None => false,
    }
}

fn has_decision(item: &Value<'_>) -> bool
    ensures { result ≡ is_some (said.decision_in (value_view item.now)) }
{
    match decision_in(item) {
        Some(_) => true,
        None => false,
    }
}

fn has_reason(item: &Value<'_>) -> bool
    ensures { result ≡ is_some (said.reason_in (value_view item.now)) }
{
    match reason_in(item) {
        Some(_) => true,
        None => false,
    }
}

// ---- places

fn item_text(alloc: Global, index: usize, why: &str) -> Result<String, AllocError>
    ensures { IfOk result (λ s. string_bytes s ≡ specs.place_text (at_index index ∷ []) why.now) }
{
    let path = path_to(alloc, index)?;
    place_text(alloc, path, why)
}

fn member_text(alloc: Global, index: usize, key: &str, why: &str) -> Result<String, AllocError>
    ensures { IfOk result (λ s.
        string_bytes s ≡ specs.place_text (at_index index ∷ at_key key.now ∷ []) why.now) }
{
    let mut path = path_to(alloc, index)?;
    put_key(alloc, key, &mut path)?;
    place_text(alloc, path, why)
}

fn place_text(alloc: Global, path: JsonPath, why: &str) -> Result<String, AllocError>
    ensures { IfOk result (λ s. string_bytes s ≡ specs.place_text (path_view path) why.now) }
{
    let sign = ": ";
    let text = format!(in alloc; "{path}{sign}{why}");
    drop(path);
    text
}

fn path_to(alloc: Global, index: usize) -> Result<JsonPath, AllocError>
    ensures { IfOk result (λ p. path_view p ≡ at_index index ∷ []) }
{
    let mut steps: Vec<PathStep> = Vec::new(alloc);
    match steps.push(PathStep::Index(index)) {
        Ok(()) => Ok(JsonPath { steps }),
        Err(_) => Err(AllocError),
    }
}

fn put_key(alloc: Global, key: &str, path: &mut JsonPath) -> Result<(), AllocError>
    ensures { OnOk result (path_view path.new ≡ path_view path.old ++ at_key key.now ∷ []) }
{
    let key = RcStr::from_str(alloc, key)?;
    match path.steps.push(PathStep::Key(key)) {
        Ok(()) => Ok(()),
        Err(_) => Err(AllocError),
    }
}
