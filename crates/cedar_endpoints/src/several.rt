#![tactic(auto, using(crate::proofs::Views::views))]
//! What a document with several evaluations asks.
ghost use Rattle.std.specs.Prelude.{◌≡◌, option_map, codes};
ghost use Rattle.json.specs.Find.{as_array, as_str, get};
ghost use Rattle.json.specs.Value.{value_view, items_view};
ghost use Rattle.cedar_endpoints.specs.Asked.{told, and_then, text_in};
ghost use Rattle.cedar_endpoints.specs.Several as several;

use crate::asked::{Fault, Keys, object_fault, text_in};
use crate::semantics::Semantic;
use json::Value;

/// Several evaluations: where they stop, and the items, of which there is one at least.
#[derive(Clone, Copy)]
pub(crate) struct Several<'v, 'a> {
    pub(crate) semantic: Semantic,
    pub(crate) items: &'v Vec<Value<'a>>,
}

/// The list of the document, if it has one with an item. Refuses what is no object, a member that is unexpected, options
/// that are wrong, and a list that is none: the first of these.
pub(crate) fn read_several<'v, 'a>(value: &'v Value<'a>) -> Result<Option<Several<'v, 'a>>, Fault>
    ensures { told (option_map several.several_view) result ≡ several.several_said (value_view value.now) }
{
    match object_fault(Keys::Evaluations, "", value) {
        Some(fault) => Err(fault),
        None => with_options(value),
    }
}

fn with_options<'v, 'a>(value: &'v Value<'a>) -> Result<Option<Several<'v, 'a>>, Fault>
    ensures { told (option_map several.several_view) result
        ≡ and_then (several.with_semantic (value_view value.now))
        (several.semantic_said (get (codes "options") (value_view value.now))) }
{
    match semantic_of(value.get("options")) {
        Ok(semantic) => with_semantic(value, semantic),
        Err(fault) => Err(fault),
    }
}

fn with_semantic<'v, 'a>(
    value: &'v Value<'a>,
    semantic: Semantic,
) -> Result<Option<Several<'v, 'a>>, Fault>
    ensures { told (option_map several.several_view) result
        ≡ several.with_semantic (value_view value.now) semantic }
{
    match items_of(value.get("evaluations")) {
        Ok(items) => Ok(listed(semantic, items)),
        Err(fault) => Err(fault),
    }
}

fn listed<'v, 'a>(semantic: Semantic, items: Option<&'v Vec<Value<'a>>>) -> Option<Several<'v, 'a>>
    ensures { option_map several.several_view result
        ≡ option_map (several.several_of semantic) (option_map (λ v. items_view v.now.items) items.entry) }
{
    match items {
        Some(items) => Some(Several { semantic, items }),
        None => None,
    }
}

// ---- options

fn semantic_of(options: Option<&Value<'_>>) -> Result<Semantic, Fault>
    ensures { told (λ s. s) result
        ≡ several.semantic_said (option_map (λ v. value_view v.now) options.entry) }
{
    match options {
        Some(options) => semantic_in(options),
        None => Ok(Semantic::ExecuteAll),
    }
}

fn semantic_in(options: &Value<'_>) -> Result<Semantic, Fault>
    ensures { told (λ s. s) result ≡ several.semantic_in (value_view options.now) }
{
    match object_fault(Keys::Options, ".options", options) {
        Some(fault) => Err(fault),
        None => semantic_at(options.get("evaluations_semantic")),
    }
}

fn semantic_at(name: Option<&Value<'_>>) -> Result<Semantic, Fault>
    ensures { told (λ s. s) result
        ≡ several.semantic_at (option_map (λ v. value_view v.now) name.entry) }
{
    match name {
        Some(name) => semantic_said(name),
        None => Ok(Semantic::ExecuteAll),
    }
}

fn semantic_said(name: &Value<'_>) -> Result<Semantic, Fault>
    ensures { told (λ s. s) result ≡ and_then several.semantic_named
        (text_in (codes ".options") (codes ".evaluations_semantic") (as_str (value_view name.now))) }
{
    match text_in(".options", ".evaluations_semantic", name) {
        Ok(name) => semantic_named(name),
        Err(fault) => Err(fault),
    }
}

fn semantic_named(name: &str) -> Result<Semantic, Fault>
    ensures { told (λ s. s) result ≡ several.semantic_named name.now }
{
    if name == "execute_all" {
        Ok(Semantic::ExecuteAll)
    } else if name == "deny_on_first_deny" {
        Ok(Semantic::DenyOnFirstDeny)
    } else if name == "permit_on_first_permit" {
        Ok(Semantic::PermitOnFirstPermit)
    } else {
        Err(Fault {
            part: ".options",
            member: ".evaluations_semantic",
            reason: "not a semantic",
        })
    }
}

// ---- the list

fn items_of<'v, 'a>(list: Option<&'v Value<'a>>) -> Result<Option<&'v Vec<Value<'a>>>, Fault>
    ensures { told (option_map (λ v. items_view v.now.items)) result
        ≡ several.items_said (option_map (λ v. value_view v.now) list.entry) }
{
    match list {
        Some(list) => items_in(list),
        None => Ok(None),
    }
}

fn items_in<'v, 'a>(list: &'v Value<'a>) -> Result<Option<&'v Vec<Value<'a>>>, Fault>
    ensures { told (option_map (λ v. items_view v.now.items)) result
        ≡ several.items_in (as_array (value_view list.now)) }
{
    match array(list) {
        Some(items) => Ok(some_items(items)),
        None => Err(Fault {
            part: ".evaluations",
            member: "",
            reason: "not an array",
        }),
    }
}

fn some_items<'v, 'a>(items: &'v Vec<Value<'a>>) -> Option<&'v Vec<Value<'a>>>
    ensures { option_map (λ v. items_view v.now.items) result ≡ several.some_items (items_view items.now.items) }
{
    if items.as_slice().is_empty() {
        None
    } else {
        Some(items)
    }
}

/// The items, where the value is an array.
pub(crate) fn array<'v, 'a>(value: &'v Value<'a>) -> Option<&'v Vec<Value<'a>>>
    ensures { option_map (λ v. items_view v.now.items) result ≡ as_array (value_view value.now) }
{
    match value {
        Value::Array(items) => Some(items),
        Value::Null => None,
        Value::Bool(_) => None,
        Value::Number(_) => None,
        Value::String(_) => None,
        Value::Object(_) => None,
    }
}
