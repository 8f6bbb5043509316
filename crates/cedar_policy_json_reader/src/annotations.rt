#![tactic(auto, using(crate::proofs::Views::views, crate::proofs::Refused::refusals, crate::proofs::Members::members))]
//! The annotations of policies.
ghost use Rattle.std.specs.Prelude.{◌≡◌, [], Ok, length, codes, OnOk, IfOk, IfErr};
ghost use Rattle.std.specs.Rc.{rc_str_bytes};
ghost use Rattle.json.specs.Find.{get};
ghost use Rattle.json.specs.Strict.{keys};
ghost use Rattle.json.specs.Value.{value_view, members_view};
ghost use Rattle.cedar_layers.specs.Policies.{annotations_view};
ghost use Rattle.cedar_policy_json_reader.specs.Annotations.{texts_under};
ghost use Rattle.cedar_policy_json_reader.specs.Paths.{at_key};
ghost use Rattle.cedar_policy_json_reader.specs.Policies as says;
ghost use Rattle.cedar_policy_json_reader.specs.Refusals.{IsRefusal, IsMemory, under, and_then, made_of};

use crate::errors::{PolicyJsonError, RefusalReason};
use crate::shapes::{object, text};
use cedar_layers::policies::Annotations;
use cedar_text_lexer::words::is_word;
use json::Value;
use std::alloc::Global;
use std::collections::BTreeMap;
use std::rc::RcStr;

/// The annotations at `annotations`; none where there is no such member.
pub(crate) fn annotations_at(
    alloc: Global,
    json: &Value<'_>,
) -> Result<Annotations, PolicyJsonError>
    ensures said { IfOk result (λ a. says.annotations_at (value_view json.now) ≡ Ok (annotations_view a)) }
    ensures refused { IfErr result (IsRefusal (says.annotations_at (value_view json.now))) }
{
    match json.get("annotations") {
        Some(annotations) => match read_annotations(alloc, annotations) {
            Ok(annotations) => Ok(annotations),
            Err(error) => Err(error.under_key(alloc, "annotations")),
        },
        None => Ok(Annotations::new(alloc)),
    }
}

fn read_annotations(alloc: Global, json: &Value<'_>) -> Result<Annotations, PolicyJsonError>
    ensures said { IfOk result (λ a. says.annotations_said (value_view json.now) ≡ Ok (annotations_view a)) }
    ensures refused { IfErr result (IsRefusal (says.annotations_said (value_view json.now))) }
{
    match object(json) {
        Some(members) => read_distinct(alloc, members),
        None => Err(PolicyJsonError::refusal(alloc, RefusalReason::NotAnObject)),
    }
}

fn read_distinct<'a>(
    alloc: Global,
    members: &Vec<(&'a str, Value<'a>)>,
) -> Result<Annotations, PolicyJsonError>
    ensures said { IfOk result
        (λ a. says.annotations_of (members_view members.now.items) ≡ Ok (annotations_view a)) }
    ensures refused { IfErr result (IsRefusal (says.annotations_of (members_view members.now.items))) }
{
    let mut map: BTreeMap<RcStr, RcStr> = BTreeMap::new(alloc);
    match put_members(alloc, members, &mut map) {
        Ok(()) => distinct(alloc, members.len(), map),
        Err(error) => {
            drop(map);
            Err(error)
        }
    }
}

// The annotations, where none took the place of another.
fn distinct(
    alloc: Global,
    count: usize,
    map: BTreeMap<RcStr, RcStr>,
) -> Result<Annotations, PolicyJsonError>
    ensures said { IfOk result (λ a. says.distinct count (texts_under map.entries) ≡ Ok (annotations_view a)) }
    ensures refused { IfErr result (IsRefusal (says.distinct count (texts_under map.entries))) }
{
    if map.len() == count {
        Ok(Annotations(map))
    } else {
        drop(map);
        Err(PolicyJsonError::refusal(alloc, RefusalReason::RepeatedKey))
    }
}

// Puts the texts of the members into the map.
fn put_members<'a>(
    alloc: Global,
    members: &Vec<(&'a str, Value<'a>)>,
    map: &mut BTreeMap<RcStr, RcStr>,
) -> Result<(), PolicyJsonError>
    requires { map.old.entries ≡ [] }
    ensures said { OnOk result
        (says.annotations_from [] (members_view members.now.items) ≡ Ok (texts_under map.new.entries)) }
    ensures refused { IfErr result (IsRefusal (says.annotations_from [] (members_view members.now.items))) }
{
    'members: for member in members {
        put_member(alloc, member.0, &member.1, map)?;
    }
    Ok(())
}

fn put_member(
    alloc: Global,
    key: &str,
    value: &Value<'_>,
    map: &mut BTreeMap<RcStr, RcStr>,
) -> Result<(), PolicyJsonError>
    ensures said { OnOk result (made_of (says.put_annotation (texts_under map.old.entries) key.now)
        (under (at_key key.now) (says.annotation_said key.now (value_view value.now)))
        ≡ Ok (texts_under map.new.entries)) }
    ensures refused { IfErr result
        (IsRefusal (under (at_key key.now) (says.annotation_said key.now (value_view value.now)))) }
{
    match annotation(alloc, key, value) {
        Ok(text) => insert(alloc, key, text, map),
        Err(error) => Err(error.under_key(alloc, key)),
    }
}

// The text, under a word.
fn annotation<'a>(alloc: Global, key: &str, value: &Value<'a>) -> Result<&'a str, PolicyJsonError>
    ensures said { IfOk result (λ t. says.annotation_said key.now (value_view value.now) ≡ Ok t.now) }
    ensures refused { IfErr result (IsRefusal (says.annotation_said key.now (value_view value.now))) }
{
    if is_word(key) {
        text(alloc, value)
    } else {
        Err(PolicyJsonError::refusal(alloc, RefusalReason::NotAWord))
    }
}

fn insert(
    alloc: Global,
    key: &str,
    text: &str,
    map: &mut BTreeMap<RcStr, RcStr>,
) -> Result<(), PolicyJsonError>
    ensures said { OnOk result
        (texts_under map.new.entries ≡ says.put_annotation (texts_under map.old.entries) key.now text.now) }
    ensures memory { IfErr result IsMemory }
{
    match RcStr::from_str(alloc, key) {
        Ok(key) => match RcStr::from_str(alloc, text) {
            Ok(text) => insert_shared(key, text, map),
            Err(error) => Err(PolicyJsonError::Memory(error)),
        },
        Err(error) => Err(PolicyJsonError::Memory(error)),
    }
}

fn insert_shared(
    key: RcStr,
    text: RcStr,
    map: &mut BTreeMap<RcStr, RcStr>,
) -> Result<(), PolicyJsonError>
    ensures said { OnOk result (texts_under map.new.entries
        ≡ says.put_annotation (texts_under map.old.entries) (rc_str_bytes key) (rc_str_bytes text)) }
    ensures memory { IfErr result IsMemory }
{
    match map.insert(key, text) {
        Ok(_) => Ok(()),
        Err(failed) => Err(PolicyJsonError::from(failed)),
    }
}
