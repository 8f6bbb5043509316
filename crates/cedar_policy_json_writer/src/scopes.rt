#![tactic(auto, using(cedar_json_writer::proofs::Trees::trees))]
//! Scopes in JSON.
ghost use Rattle.std.specs.Prelude.{◌≡◌, [], ◌∷◌, ◌++◌, map, option_map, option_to_list, IfOk, OnOk};
ghost use Rattle.json.specs.Json.{string};
ghost use Rattle.cedar_expressions.specs.View.{view, terms_view};
ghost use Rattle.cedar_json_writer.specs.Trees.{json_view, members_seen};
ghost use Rattle.cedar_json_writer.specs.Written.{written_uid};
ghost use Rattle.cedar_names.specs.Names.{uid_name, type_text};
ghost use Rattle.cedar_names.specs.Leaves.{slot_view};
ghost use Rattle.cedar_policy_json_writer.specs.Scopes as scopes;
ghost use Rattle.cedar_policy_json_writer.specs.Views.{place_view, scope_view};

use crate::constraints::entity_in;
use crate::leaves::uid_to_json;
use crate::names::slot_name;
use crate::objects::{object_of, text_of};
use crate::scope::{Place, Scope};
use cedar_expressions::Expr;
use cedar_json_writer::{JsonValue, put_item, put_member, text_to_json};
use cedar_names::EntityType;
use std::alloc::{AllocError, Global};
use std::rc::RcStr;

/// What a scope says of a variable; where no scope says it, nothing.
pub(crate) fn head_to_json(alloc: Global, scope: Option<Scope<'_>>) -> Result<JsonValue, AllocError>
    ensures { IfOk result (λ j. json_view j ≡ scopes.head_json (option_map scope_view scope.entry)) }
{
    match scope {
        Some(scope) => scope_to_json(alloc, scope),
        None => scope_to_json(alloc, Scope::Any),
    }
}

fn scope_to_json(alloc: Global, scope: Scope<'_>) -> Result<JsonValue, AllocError>
    ensures { IfOk result (λ j. json_view j ≡ scopes.scope_json (scope_view scope.entry)) }
{
    match scope {
        Scope::Any => any_to_json(alloc),
        Scope::Equal(place) => compared_to_json(alloc, "==", place),
        Scope::In(place) => compared_to_json(alloc, "in", place),
        Scope::InAny(parts) => listed_to_json(alloc, parts),
        Scope::Is(ty) => type_to_json(alloc, ty),
        Scope::IsIn(ty, place) => typed_to_json(alloc, ty, place),
    }
}

fn any_to_json(alloc: Global) -> Result<JsonValue, AllocError>
    ensures { IfOk result (λ j. json_view j ≡ scopes.scope_json scopes.any) }
{
    let op = text_to_json(alloc, "All")?;
    object_of(alloc, "op", op)
}

fn compared_to_json(
    alloc: Global,
    operator: &str,
    place: Place<'_>,
) -> Result<JsonValue, AllocError>
    ensures { IfOk result (λ j. json_view j ≡ scopes.compared_json operator.now (place_view place.entry)) }
{
    let mut members: Vec<(RcStr, JsonValue)> = Vec::new(alloc);
    put_operator(alloc, operator, &mut members)?;
    put_place(alloc, place, &mut members)?;
    Ok(JsonValue::Object(members))
}

fn listed_to_json(alloc: Global, parts: &[Expr]) -> Result<JsonValue, AllocError>
    ensures { IfOk result (λ j. json_view j ≡ scopes.listed_json (scopes.entities_in (terms_view parts.now))) }
{
    let mut members: Vec<(RcStr, JsonValue)> = Vec::new(alloc);
    put_operator(alloc, "in", &mut members)?;
    let entities = entities_to_json(alloc, parts)?;
    put_member(alloc, "entities", entities, &mut members)?;
    Ok(JsonValue::Object(members))
}

fn type_to_json(alloc: Global, ty: &EntityType) -> Result<JsonValue, AllocError>
    ensures { IfOk result (λ j. json_view j ≡ scopes.scope_json (scopes.of_type (type_text ty.now))) }
{
    let mut members: Vec<(RcStr, JsonValue)> = Vec::new(alloc);
    put_type(alloc, ty, &mut members)?;
    Ok(JsonValue::Object(members))
}

fn typed_to_json(alloc: Global, ty: &EntityType, place: Place<'_>) -> Result<JsonValue, AllocError>
    ensures { IfOk result (λ j. json_view j
        ≡ scopes.scope_json (scopes.of_type_inside (type_text ty.now) (place_view place.entry))) }
{
    let mut members: Vec<(RcStr, JsonValue)> = Vec::new(alloc);
    put_type(alloc, ty, &mut members)?;
    let place = place_to_json(alloc, place)?;
    put_member(alloc, "in", place, &mut members)?;
    Ok(JsonValue::Object(members))
}

// ---- members

fn put_operator(
    alloc: Global,
    operator: &str,
    members: &mut Vec<(RcStr, JsonValue)>,
) -> Result<(), AllocError>
    ensures { OnOk result (members_seen members.new.items
        ≡ members_seen members.old.items ++ scopes.operator_member operator.now ∷ []) }
{
    let operator = text_to_json(alloc, operator)?;
    put_member(alloc, "op", operator, members)?;
    Ok(())
}

fn put_type(
    alloc: Global,
    ty: &EntityType,
    members: &mut Vec<(RcStr, JsonValue)>,
) -> Result<(), AllocError>
    ensures { OnOk result (members_seen members.new.items
        ≡ members_seen members.old.items ++ scopes.type_members (type_text ty.now)) }
{
    put_operator(alloc, "is", members)?;
    let ty = text_of(ty.text())?;
    put_member(alloc, "entity_type", ty, members)?;
    Ok(())
}

fn put_place(
    alloc: Global,
    place: Place<'_>,
    members: &mut Vec<(RcStr, JsonValue)>,
) -> Result<(), AllocError>
    ensures { OnOk result (members_seen members.new.items
        ≡ members_seen members.old.items ++ scopes.place_member (place_view place.entry) ∷ []) }
{
    match place {
        Place::Entity(uid) => {
            let uid = uid_to_json(alloc, uid)?;
            put_member(alloc, "entity", uid, members)
        }
        Place::Slot(slot) => {
            let name = text_to_json(alloc, slot_name(slot))?;
            put_member(alloc, "slot", name, members)
        }
    }
}

// The place alone.
fn place_to_json(alloc: Global, place: Place<'_>) -> Result<JsonValue, AllocError>
    ensures { IfOk result (λ j. json_view j ≡ scopes.place_json (place_view place.entry)) }
{
    let mut members: Vec<(RcStr, JsonValue)> = Vec::new(alloc);
    put_place(alloc, place, &mut members)?;
    Ok(JsonValue::Object(members))
}

// ---- entities

fn entities_to_json(alloc: Global, parts: &[Expr]) -> Result<JsonValue, AllocError>
    ensures { IfOk result (λ j. json_view j ≡ scopes.entities_json (scopes.entities_in (terms_view parts.now))) }
{
    let mut items: Vec<JsonValue> = Vec::new(alloc);
    'parts: for part in parts {
        put_entity(alloc, part, &mut items)?;
    }
    Ok(JsonValue::Array(items))
}

fn put_entity(alloc: Global, part: &Expr, items: &mut Vec<JsonValue>) -> Result<(), AllocError>
    ensures { OnOk result (map json_view items.new.items
        ≡ map json_view items.old.items ++ map written_uid (option_to_list (scopes.entity_in (view part.now)))) }
{
    match entity_in(part) {
        Some(uid) => {
            let uid = uid_to_json(alloc, uid)?;
            put_item(uid, items)
        }
        None => Ok(()),
    }
}
