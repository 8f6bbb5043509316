#![tactic(auto, using(crate::proofs::Views::views, crate::proofs::Refused::refusals))]
//! The first key that comes twice in an object.
ghost use Rattle.std.specs.Prelude.{◌≡◌, ◌<◌, ◌↔◌, Ok, map, option_map, IfErr, OnOk, IsTrue, IsSorted};
ghost use Rattle.std.specs.List.{list_any};
ghost use Rattle.std.specs.Ordering.{nat_cmp};
ghost use Rattle.std.specs.Cmp.Lexicographic.{slice_cmp};
ghost use Rattle.json.specs.Json.{array, object};
ghost use Rattle.json.specs.Strict.{AreDistinct};
ghost use Rattle.json.specs.Strict as strict;
ghost use Rattle.json.specs.Value.{value_view, items_view, members_view};
ghost use Rattle.cedar_model.specs.Outcomes.{text_eq};
ghost use Rattle.cedar_model.specs.Refusals.{first_repeated};
ghost use Rattle.cedar_policy_json_reader.specs.Paths.{at_key, at_index};
ghost use Rattle.cedar_policy_json_reader.specs.Refusals.{IsRefusal, under};
ghost use Rattle.cedar_policy_json_reader.specs.Repeats as repeats;

use crate::errors::{PolicyJsonError, RefusalReason};
use json::Value;
use std::alloc::{AllocError, Global};

/// Refuses the first key that comes twice in an object of the value: of an object first its own keys, and then what stands
/// at them. `keys` is room for the keys of one object at a time.
#[cycle(unique)]
pub(crate) fn check_keys<'a>(
    alloc: Global,
    value: &Value<'a>,
    keys: &mut Vec<&'a str>,
) -> Result<(), PolicyJsonError>
    ensures said { OnOk result (repeats.keys_said (value_view value.now) ≡ Ok tt) }
    ensures refused { IfErr result (IsRefusal (repeats.keys_said (value_view value.now))) }
{
    match value {
        Value::Array(items) => check_items(alloc, items, keys),
        Value::Object(members) => check_object(alloc, members, keys),
        Value::Null => Ok(()),
        Value::Bool(_) => Ok(()),
        Value::Number(_) => Ok(()),
        Value::String(_) => Ok(()),
    }
}

#[cycle(unique)]
fn check_items<'a>(
    alloc: Global,
    items: &Vec<Value<'a>>,
    keys: &mut Vec<&'a str>,
) -> Result<(), PolicyJsonError>
    ensures said { OnOk result (repeats.items_said 0 (items_view items.now.items) ≡ Ok tt) }
    ensures refused { IfErr result (IsRefusal (repeats.items_said 0 (items_view items.now.items))) }
{
    let mut index: usize = 0;
    'items: for item in items {
        check_item(alloc, item, index, keys)?;
        index += 1;
    }
    Ok(())
}

#[cycle(unique)]
fn check_item<'a>(
    alloc: Global,
    item: &Value<'a>,
    index: usize,
    keys: &mut Vec<&'a str>,
) -> Result<(), PolicyJsonError>
    ensures said { OnOk result (under (at_index index) (repeats.keys_said (value_view item.now)) ≡ Ok tt) }
    ensures refused { IfErr result (IsRefusal (under (at_index index) (repeats.keys_said (value_view item.now)))) }
{
    match check_keys(alloc, item, keys) {
        Ok(()) => Ok(()),
        Err(error) => Err(error.under_index(index)),
    }
}

#[cycle(unique)]
fn check_object<'a>(
    alloc: Global,
    members: &Vec<(&'a str, Value<'a>)>,
    keys: &mut Vec<&'a str>,
) -> Result<(), PolicyJsonError>
    ensures said { OnOk result (repeats.keys_said (object (members_view members.now.items)) ≡ Ok tt) }
    ensures refused { IfErr result (IsRefusal (repeats.keys_said (object (members_view members.now.items)))) }
{
    match check_own_keys(alloc, members, keys) {
        Ok(()) => check_members(alloc, members, keys),
        Err(error) => Err(error),
    }
}

#[cycle(unique)]
fn check_members<'a>(
    alloc: Global,
    members: &Vec<(&'a str, Value<'a>)>,
    keys: &mut Vec<&'a str>,
) -> Result<(), PolicyJsonError>
    ensures said { OnOk result (repeats.members_said (members_view members.now.items) ≡ Ok tt) }
    ensures refused { IfErr result (IsRefusal (repeats.members_said (members_view members.now.items))) }
{
    'members: for member in members {
        check_member(alloc, member.0, &member.1, keys)?;
    }
    Ok(())
}

#[cycle(unique)]
fn check_member<'a>(
    alloc: Global,
    key: &str,
    value: &Value<'a>,
    keys: &mut Vec<&'a str>,
) -> Result<(), PolicyJsonError>
    ensures said { OnOk result (under (at_key key.now) (repeats.keys_said (value_view value.now)) ≡ Ok tt) }
    ensures refused { IfErr result (IsRefusal (under (at_key key.now) (repeats.keys_said (value_view value.now)))) }
{
    match check_keys(alloc, value, keys) {
        Ok(()) => Ok(()),
        Err(error) => Err(error.under_key(alloc, key)),
    }
}

// ---- the keys of one object

fn check_own_keys<'a>(
    alloc: Global,
    members: &Vec<(&'a str, Value<'a>)>,
    keys: &mut Vec<&'a str>,
) -> Result<(), PolicyJsonError>
    ensures said { OnOk result
        (repeats.key_said (first_repeated (strict.keys (members_view members.now.items))) ≡ Ok tt) }
    ensures refused { IfErr result
        (IsRefusal (repeats.key_said (first_repeated (strict.keys (members_view members.now.items))))) }
{
    match copy_keys(members, keys) {
        Ok(()) => if are_distinct(keys) {
            Ok(())
        } else {
            refuse_repeated(alloc, members, keys)
        },
        Err(error) => Err(PolicyJsonError::Memory(error)),
    }
}

// Refuses the first duplicate key.
#[cold]
fn refuse_repeated<'a>(
    alloc: Global,
    members: &Vec<(&'a str, Value<'a>)>,
    keys: &mut Vec<&'a str>,
) -> Result<(), PolicyJsonError>
    ensures said { OnOk result
        (repeats.key_said (first_repeated (strict.keys (members_view members.now.items))) ≡ Ok tt) }
    ensures refused { IfErr result
        (IsRefusal (repeats.key_said (first_repeated (strict.keys (members_view members.now.items))))) }
{
    match copy_keys(members, keys) {
        Ok(()) => refuse_first(alloc, keys),
        Err(error) => Err(PolicyJsonError::Memory(error)),
    }
}

fn refuse_first(alloc: Global, keys: &[&str]) -> Result<(), PolicyJsonError>
    ensures said { OnOk result (repeats.key_said (first_repeated (map (λ k. k.now) keys.now)) ≡ Ok tt) }
    ensures refused { IfErr result (IsRefusal (repeats.key_said (first_repeated (map (λ k. k.now) keys.now)))) }
{
    match first_repeated_key(keys) {
        Some(key) => Err(PolicyJsonError::refusal_at(alloc, key, RefusalReason::RepeatedKey)),
        None => Ok(()),
    }
}

// The first key that is one of those before it.
fn first_repeated_key<'k>(keys: &'k [&'k str]) -> Option<&'k str>
    ensures { option_map (λ k. k.now) result ≡ first_repeated (map (λ k. k.now) keys.now) }
{
    for index in 0..keys.len() {
        let key = keys[index];
        if is_among(key, &keys[..index]) {
            return Some(key);
        }
    }
    None
}

fn is_among(key: &str, keys: &[&str]) -> bool
    ensures { result ≡ list_any (text_eq key.now) (map (λ k. k.now) keys.now) }
{
    for other in keys {
        if key == *other {
            return true;
        }
    }
    false
}

fn copy_keys<'a>(
    members: &Vec<(&'a str, Value<'a>)>,
    keys: &mut Vec<&'a str>,
) -> Result<(), AllocError>
    ensures { OnOk result (map (λ k. k.now) keys.new.items ≡ strict.keys (members_view members.now.items)) }
{
    keys.clear();
    keys.reserve(members.len())?;
    for member in members {
        keys.push_reserved(member.0);
    }
    Ok(())
}

// It may change the order of the keys.
fn are_distinct(keys: &mut [&str]) -> bool
    ensures { IsTrue result ↔ AreDistinct (map (λ k. k.now) keys.old) }
{
    keys.sort_unstable();
    neighbours_differ(keys)
}

fn neighbours_differ(keys: &[&str]) -> bool
    requires { IsSorted (λ a b. slice_cmp nat_cmp a.now b.now) keys.now }
    ensures { IsTrue result ↔ AreDistinct (map (λ k. k.now) keys.now) }
{
    for later in 1..keys.len() {
        if keys[later - 1] == keys[later] {
            return false;
        }
    }
    true
}
