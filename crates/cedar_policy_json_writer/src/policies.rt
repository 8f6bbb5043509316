#![tactic(auto, using(cedar_json_writer::proofs::Trees::trees))]
//! Policies and templates.
ghost use Rattle.std.specs.Prelude.{◌≡◌, [], ◌∷◌, ◌++◌, map, option_map, is_some, false, IfOk, OnOk};
ghost use Rattle.std.specs.Rc.{rc_str_bytes};
ghost use Rattle.cedar_expressions.specs.View.{view};
ghost use Rattle.cedar_layers.specs.Policies.{annotations_view, policy_view, slots_view};
ghost use Rattle.cedar_json_writer.specs.Trees.{json_view, members_seen};
ghost use Rattle.cedar_policy_json_writer.specs.Policies as policies;
ghost use Rattle.cedar_policy_json_writer.specs.Views.{scope_view};

use crate::constraints::{is_truth, scope_of};
use crate::expressions::linked_to_json;
use crate::objects::{object_of_two, text_of};
use crate::scope::Scope;
use crate::scopes::head_to_json;
use cedar_expressions::Expr;
use cedar_json_writer::{JsonValue, put_item, put_member, text_to_json};
use cedar_layers::policies::{Annotations, Policy};
use cedar_names::{SlotEnv, Var};
use cedar_text_printer::effect_text;
use std::alloc::{AllocError, Global};
use std::rc::RcStr;

/// The policy in Cedar's JSON of policies: `effect`, `principal`, `action`, `resource`, `conditions`, and `annotations`
/// where it has some. A slot that is linked to an entity is written as that entity. There is one condition, `when`, and
/// none where it is `true`; a constraint that no scope has, and each behind such a one, is a condition of its own
/// before it, so that all are asked in their order. The id is not written. Refuses only if out of memory.
pub fn policy_to_json(alloc: Global, policy: &Policy) -> Result<JsonValue, AllocError>
    ensures { IfOk result (λ j. json_view j ≡ policies.policy_json (policy_view policy.now)) }
{
    with_slots(alloc, policy, policy.env())
}

/// The same of the template that the policy is, or was linked of: its slots are written as slots. Refuses only if out
/// of memory.
pub fn template_to_json(alloc: Global, policy: &Policy) -> Result<JsonValue, AllocError>
    ensures { IfOk result (λ j. json_view j ≡ policies.template_json (policy_view policy.now)) }
{
    let slots = SlotEnv::new(alloc);
    with_slots(alloc, policy, &slots)
}

// The policy, with these entities for its slots.
fn with_slots(alloc: Global, policy: &Policy, slots: &SlotEnv) -> Result<JsonValue, AllocError>
    ensures { IfOk result (λ j. json_view j
        ≡ policies.policy_json (policies.with_slots (policy_view policy.now) (slots_view slots.now))) }
{
    let mut members: Vec<(RcStr, JsonValue)> = Vec::new(alloc);
    put_effect(alloc, policy, &mut members)?;
    put_scopes(alloc, policy, slots, &mut members)?;
    let conditions = conditions_to_json(alloc, policy, slots)?;
    put_member(alloc, "conditions", conditions, &mut members)?;
    put_annotations(alloc, policy.annotations_rc(), &mut members)?;
    Ok(JsonValue::Object(members))
}

fn put_effect(
    alloc: Global,
    policy: &Policy,
    members: &mut Vec<(RcStr, JsonValue)>,
) -> Result<(), AllocError>
    ensures { OnOk result (members_seen members.new.items
        ≡ members_seen members.old.items ++ policies.effect_member (policy_view policy.now) ∷ []) }
{
    let effect = text_to_json(alloc, effect_text(policy.effect()))?;
    put_member(alloc, "effect", effect, members)?;
    Ok(())
}

// ---- the scope

fn put_scopes(
    alloc: Global,
    policy: &Policy,
    slots: &SlotEnv,
    members: &mut Vec<(RcStr, JsonValue)>,
) -> Result<(), AllocError>
    ensures { OnOk result (members_seen members.new.items ≡ members_seen members.old.items
        ++ policies.scope_members (policies.with_slots (policy_view policy.now) (slots_view slots.now))) }
{
    put_principal(alloc, policy, slots, members)?;
    put_action(alloc, policy, slots, members)?;
    put_resource(alloc, policy, slots, members)?;
    Ok(())
}

fn put_principal(
    alloc: Global,
    policy: &Policy,
    slots: &SlotEnv,
    members: &mut Vec<(RcStr, JsonValue)>,
) -> Result<(), AllocError>
    ensures { OnOk result (members_seen members.new.items ≡ members_seen members.old.items
        ++ policies.principal_member (policies.with_slots (policy_view policy.now) (slots_view slots.now)) ∷ []) }
{
    let json = head_to_json(alloc, principal_scope(policy, slots))?;
    put_member(alloc, "principal", json, members)?;
    Ok(())
}

fn put_action(
    alloc: Global,
    policy: &Policy,
    slots: &SlotEnv,
    members: &mut Vec<(RcStr, JsonValue)>,
) -> Result<(), AllocError>
    ensures { OnOk result (members_seen members.new.items ≡ members_seen members.old.items
        ++ policies.action_member (policies.with_slots (policy_view policy.now) (slots_view slots.now)) ∷ []) }
{
    let json = head_to_json(alloc, action_scope(policy, slots))?;
    put_member(alloc, "action", json, members)?;
    Ok(())
}

fn put_resource(
    alloc: Global,
    policy: &Policy,
    slots: &SlotEnv,
    members: &mut Vec<(RcStr, JsonValue)>,
) -> Result<(), AllocError>
    ensures { OnOk result (members_seen members.new.items ≡ members_seen members.old.items
        ++ policies.resource_member (policies.with_slots (policy_view policy.now) (slots_view slots.now)) ∷ []) }
{
    let json = head_to_json(alloc, resource_scope(policy, slots))?;
    put_member(alloc, "resource", json, members)?;
    Ok(())
}

fn principal_scope<'a>(policy: &'a Policy, slots: &'a SlotEnv) -> Option<Scope<'a>>
    ensures { option_map scope_view result
        ≡ policies.principal_scope (policies.with_slots (policy_view policy.now) (slots_view slots.now)) }
{
    scope_of(slots, Var::Principal, policy.principal_constraint())
}

fn action_scope<'a>(policy: &'a Policy, slots: &'a SlotEnv) -> Option<Scope<'a>>
    ensures { option_map scope_view result
        ≡ policies.action_scope (policies.with_slots (policy_view policy.now) (slots_view slots.now)) }
{
    match principal_scope(policy, slots) {
        Some(_) => scope_of(slots, Var::Action, policy.action_constraint()),
        None => None,
    }
}

fn resource_scope<'a>(policy: &'a Policy, slots: &'a SlotEnv) -> Option<Scope<'a>>
    ensures { option_map scope_view result
        ≡ policies.resource_scope (policies.with_slots (policy_view policy.now) (slots_view slots.now)) }
{
    match action_scope(policy, slots) {
        Some(_) => scope_of(slots, Var::Resource, policy.resource_constraint()),
        None => None,
    }
}

// ---- conditions

// What no scope has, and then the policy's own condition.
fn conditions_to_json(
    alloc: Global,
    policy: &Policy,
    slots: &SlotEnv,
) -> Result<JsonValue, AllocError>
    ensures { IfOk result (λ j. json_view j
        ≡ policies.conditions_json (policies.with_slots (policy_view policy.now) (slots_view slots.now))) }
{
    let mut items: Vec<JsonValue> = Vec::new(alloc);
    put_principal_condition(alloc, policy, slots, &mut items)?;
    put_action_condition(alloc, policy, slots, &mut items)?;
    put_resource_condition(alloc, policy, slots, &mut items)?;
    put_condition(alloc, false, slots, policy.when_clause(), &mut items)?;
    Ok(JsonValue::Array(items))
}

fn put_principal_condition(
    alloc: Global,
    policy: &Policy,
    slots: &SlotEnv,
    items: &mut Vec<JsonValue>,
) -> Result<(), AllocError>
    ensures { OnOk result (map json_view items.new.items ≡ map json_view items.old.items
        ++ policies.principal_condition (policies.with_slots (policy_view policy.now) (slots_view slots.now))) }
{
    let stands = is_found(principal_scope(policy, slots));
    put_condition(alloc, stands, slots, policy.principal_constraint(), items)
}

fn put_action_condition(
    alloc: Global,
    policy: &Policy,
    slots: &SlotEnv,
    items: &mut Vec<JsonValue>,
) -> Result<(), AllocError>
    ensures { OnOk result (map json_view items.new.items ≡ map json_view items.old.items
        ++ policies.action_condition (policies.with_slots (policy_view policy.now) (slots_view slots.now))) }
{
    let stands = is_found(action_scope(policy, slots));
    put_condition(alloc, stands, slots, policy.action_constraint(), items)
}

fn put_resource_condition(
    alloc: Global,
    policy: &Policy,
    slots: &SlotEnv,
    items: &mut Vec<JsonValue>,
) -> Result<(), AllocError>
    ensures { OnOk result (map json_view items.new.items ≡ map json_view items.old.items
        ++ policies.resource_condition (policies.with_slots (policy_view policy.now) (slots_view slots.now))) }
{
    let stands = is_found(resource_scope(policy, slots));
    put_condition(alloc, stands, slots, policy.resource_constraint(), items)
}

fn is_found(scope: Option<Scope<'_>>) -> bool
    ensures { result ≡ is_some (option_map scope_view scope.entry) }
{
    match scope {
        Some(_) => true,
        None => false,
    }
}

// Puts the condition behind the items that are there, unless it stands in the scope or is `true`.
fn put_condition(
    alloc: Global,
    stands: bool,
    slots: &SlotEnv,
    condition: &Expr,
    items: &mut Vec<JsonValue>,
) -> Result<(), AllocError>
    ensures { OnOk result (map json_view items.new.items ≡ map json_view items.old.items
        ++ policies.condition_items stands (slots_view slots.now) (view condition.now)) }
{
    if stands || is_truth(condition) {
        Ok(())
    } else {
        put_when(alloc, slots, condition, items)
    }
}

fn put_when(
    alloc: Global,
    slots: &SlotEnv,
    condition: &Expr,
    items: &mut Vec<JsonValue>,
) -> Result<(), AllocError>
    ensures { OnOk result (map json_view items.new.items ≡ map json_view items.old.items
        ++ policies.when_json (slots_view slots.now) (view condition.now) ∷ []) }
{
    let kind = text_to_json(alloc, "when")?;
    let body = linked_to_json(alloc, slots, condition)?;
    let when = object_of_two(alloc, "kind", kind, "body", body)?;
    put_item(when, items)?;
    Ok(())
}

// ---- annotations

// Puts the annotations behind the members that are there, where there are some.
fn put_annotations(
    alloc: Global,
    annotations: &Annotations,
    members: &mut Vec<(RcStr, JsonValue)>,
) -> Result<(), AllocError>
    ensures { OnOk result (members_seen members.new.items ≡ members_seen members.old.items
        ++ policies.annotations_members (annotations_view annotations.now)) }
{
    if annotations.0.is_empty() {
        Ok(())
    } else {
        let annotations = annotations_to_json(alloc, annotations)?;
        put_member(alloc, "annotations", annotations, members)
    }
}

fn annotations_to_json(alloc: Global, annotations: &Annotations) -> Result<JsonValue, AllocError>
    ensures { IfOk result (λ j. json_view j ≡ policies.annotations_json (annotations_view annotations.now)) }
{
    let mut members: Vec<(RcStr, JsonValue)> = Vec::new(alloc);
    'annotations: for (key, value) in annotations.0.iter() {
        put_annotation(alloc, key, value, &mut members)?;
    }
    Ok(JsonValue::Object(members))
}

fn put_annotation(
    alloc: Global,
    key: &RcStr,
    value: &RcStr,
    members: &mut Vec<(RcStr, JsonValue)>,
) -> Result<(), AllocError>
    ensures { OnOk result (members_seen members.new.items ≡ members_seen members.old.items
        ++ policies.annotation_member (rc_str_bytes key.now, rc_str_bytes value.now) ∷ []) }
{
    let value = text_of(value)?;
    put_member(alloc, key.as_str(), value, members)?;
    Ok(())
}
