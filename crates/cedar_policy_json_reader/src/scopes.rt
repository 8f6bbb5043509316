#![tactic(auto, using(crate::proofs::Views::views, crate::proofs::Refused::refusals))]
//! The scopes of policies.
ghost use Rattle.std.specs.Prelude.{◌≡◌, [], ◌∷◌, ◌++◌, None, Ok, map, option_map, codes, OnOk, IfOk, IfErr};
ghost use Rattle.std.specs.Option.{option_and_then};
ghost use Rattle.json.specs.Find.{as_array, as_str, get};
ghost use Rattle.json.specs.Value.{value_view, items_view};
ghost use Rattle.cedar_model.specs.Terms as model;
ghost use Rattle.cedar_names.specs.Leaves.{binary_view, slot_view, variable_view};
ghost use Rattle.cedar_names.specs.Names.{uid_name};
ghost use Rattle.cedar_expressions.specs.View.{view};
ghost use Rattle.cedar_policy_json_reader.specs.Lists.{IsOneMore};
ghost use Rattle.cedar_policy_json_reader.specs.Paths.{at_key, at_index};
ghost use Rattle.cedar_policy_json_reader.specs.Refusals.{IsRefusal, IsRefusedAt, IsMemory, under, made_of, and_then};
ghost use Rattle.cedar_policy_json_reader.specs.Scopes as says;
ghost use Rattle.cedar_policy_json_reader.specs.Shapes as shapes;
ghost use Rattle.cedar_policy_json_reader.specs.declared.errors.RefusalReason.TheVariants as reasons;

use crate::errors::{PolicyJsonError, RefusalReason};
use crate::leaves::{name_at, uid};
use crate::making::{is_in, is_of, put, set};
use crate::shapes::{
    array, member_count, missing, one_member, sole_member, text_at, three_members, two_members,
};
use cedar_expressions::Expr;
use cedar_names::{BinaryOp, EntityUID, Literal, SlotId, Var};
use json::Value;
use std::alloc::Global;
use std::rc::Rc;

// ---- entities and slots

/// The entity that the JSON value says: an object of `type` and `id`, with or without `__entity` round it. Refuses with
/// `Refused`, which holds the path of the part that is refused first, and the reason; `Memory` is out of memory.
pub fn plain_uid(alloc: Global, value: &Value<'_>) -> Result<EntityUID, PolicyJsonError>
    ensures said { IfOk result (λ u. says.plain_uid_said (value_view value.now) ≡ Ok (uid_name u)) }
    ensures refused { IfErr result (IsRefusal (says.plain_uid_said (value_view value.now))) }
{
    match find_escape(value) {
        Some(inner) => match uid(alloc, inner) {
            Ok(uid) => Ok(uid),
            Err(error) => Err(error.under_key(alloc, "__entity")),
        },
        None => uid(alloc, value),
    }
}

// What stands at `__entity`, the one member.
fn find_escape<'v, 'a>(value: &'v Value<'a>) -> Option<&'v Value<'a>>
    ensures { option_map (λ v. value_view v.now) result
        ≡ option_and_then says.escape_in (shapes.sole_of (value_view value.now)) }
{
    match sole_member(value) {
        Some((key, inner)) => if key == "__entity" { Some(inner) } else { None },
        None => None,
    }
}

// The expression of the entity.
fn entity(alloc: Global, value: &Value<'_>) -> Result<Expr, PolicyJsonError>
    ensures said { IfOk result (λ e. says.entity_said (value_view value.now) ≡ Ok (view e)) }
    ensures refused { IfErr result (IsRefusal (says.entity_said (value_view value.now))) }
{
    match plain_uid(alloc, value) {
        Ok(uid) => match Rc::new(alloc, uid) {
            Ok(uid) => Ok(Expr::val(Literal::EntityUID(uid))),
            Err(failed) => Err(PolicyJsonError::from(failed)),
        },
        Err(error) => Err(error),
    }
}

fn entity_at(alloc: Global, value: &Value<'_>) -> Result<Expr, PolicyJsonError>
    ensures said { IfOk result (λ e. says.entity_at (value_view value.now) ≡ Ok (view e)) }
    ensures refused { IfErr result (IsRefusal (says.entity_at (value_view value.now))) }
{
    match entity(alloc, value) {
        Ok(entity) => Ok(entity),
        Err(error) => Err(error.under_key(alloc, "entity")),
    }
}

// The variable's own slot, where the text names it.
fn slot_named(var: Var, text: &str) -> Option<SlotId>
    ensures { option_map slot_view result ≡ says.slot_named (variable_view var) text.now }
{
    match var {
        Var::Principal => if text == "?principal" {
            Some(SlotId::Principal)
        } else {
            None
        },
        Var::Action => None,
        Var::Resource => if text == "?resource" {
            Some(SlotId::Resource)
        } else {
            None
        },
        Var::Context => None,
    }
}

fn slot_in(var: Var, value: &Value<'_>) -> Option<SlotId>
    ensures { option_map slot_view result
        ≡ option_and_then (says.slot_named (variable_view var)) (as_str (value_view value.now)) }
{
    match value.as_str() {
        Some(text) => slot_named(var, text),
        None => None,
    }
}

// The expression of the variable's own slot, where slots may stand.
fn slot(alloc: Global, is_open: bool, var: Var, value: &Value<'_>) -> Result<Expr, PolicyJsonError>
    ensures said { IfOk result
        (λ e. says.slot_said is_open (variable_view var) (value_view value.now) ≡ Ok (view e)) }
    ensures refused { IfErr result
        (IsRefusal (says.slot_said is_open (variable_view var) (value_view value.now))) }
{
    if is_open {
        match slot_in(var, value) {
            Some(slot) => Ok(Expr::slot(slot)),
            None => Err(PolicyJsonError::refusal(alloc, RefusalReason::NotASlot)),
        }
    } else {
        Err(PolicyJsonError::refusal(alloc, RefusalReason::SlotInPolicy))
    }
}

fn slot_at(
    alloc: Global,
    is_open: bool,
    var: Var,
    value: &Value<'_>,
) -> Result<Expr, PolicyJsonError>
    ensures said { IfOk result
        (λ e. says.slot_at is_open (variable_view var) (value_view value.now) ≡ Ok (view e)) }
    ensures refused { IfErr result
        (IsRefusal (says.slot_at is_open (variable_view var) (value_view value.now))) }
{
    match slot(alloc, is_open, var, value) {
        Ok(slot) => Ok(slot),
        Err(error) => Err(error.under_key(alloc, "slot")),
    }
}

// What stands beside the operator, at `slot` or at `entity`.
fn target(
    alloc: Global,
    is_open: bool,
    var: Var,
    value: &Value<'_>,
) -> Result<Expr, PolicyJsonError>
    ensures said { IfOk result
        (λ e. says.target_said is_open (variable_view var) (value_view value.now) ≡ Ok (view e)) }
    ensures refused { IfErr result
        (IsRefusal (says.target_said is_open (variable_view var) (value_view value.now))) }
{
    match value.get("slot") {
        Some(_) => match two_members(alloc, value, "op", "slot") {
            Ok((_, found)) => slot_at(alloc, is_open, var, found),
            Err(error) => Err(error),
        },
        None => match two_members(alloc, value, "op", "entity") {
            Ok((_, found)) => entity_at(alloc, found),
            Err(error) => Err(error),
        },
    }
}

// What stands at `slot` or at `entity`, the one member.
fn place(alloc: Global, is_open: bool, var: Var, value: &Value<'_>) -> Result<Expr, PolicyJsonError>
    ensures said { IfOk result
        (λ e. says.place_said is_open (variable_view var) (value_view value.now) ≡ Ok (view e)) }
    ensures refused { IfErr result
        (IsRefusal (says.place_said is_open (variable_view var) (value_view value.now))) }
{
    match value.get("slot") {
        Some(_) => match one_member(alloc, value, "slot") {
            Ok(found) => slot_at(alloc, is_open, var, found),
            Err(error) => Err(error),
        },
        None => match one_member(alloc, value, "entity") {
            Ok(found) => entity_at(alloc, found),
            Err(error) => Err(error),
        },
    }
}

// ---- constraints

/// The constraint on this variable. Slots may stand in it where it is a template's.
pub(crate) fn scope(
    alloc: Global,
    is_open: bool,
    var: Var,
    value: &Value<'_>,
) -> Result<Expr, PolicyJsonError>
    ensures said { IfOk result
        (λ e. says.scope_said is_open (variable_view var) (value_view value.now) ≡ Ok (view e)) }
    ensures refused { IfErr result
        (IsRefusal (says.scope_said is_open (variable_view var) (value_view value.now))) }
{
    match operator(alloc, value) {
        Ok(op) => constraint(alloc, is_open, var, value, op),
        Err(error) => Err(error),
    }
}

// The text at `op`.
fn operator<'a>(alloc: Global, value: &Value<'a>) -> Result<&'a str, PolicyJsonError>
    ensures said { IfOk result (λ t. says.operator_by_count (shapes.member_count (value_view value.now))
        (value_view value.now) ≡ Ok t.now) }
    ensures refused { IfErr result (IsRefusal (says.operator_by_count (shapes.member_count (value_view value.now))
        (value_view value.now))) }
{
    match member_count(value) {
        Some(_) => match value.get("op") {
            Some(op) => text_at(alloc, "op", op),
            None => Err(missing(alloc, "op")),
        },
        None => Err(PolicyJsonError::refusal(alloc, RefusalReason::NotAnObject)),
    }
}

fn constraint(
    alloc: Global,
    is_open: bool,
    var: Var,
    value: &Value<'_>,
    op: &str,
) -> Result<Expr, PolicyJsonError>
    ensures said { IfOk result
        (λ e. says.constraint_said is_open (variable_view var) (value_view value.now) op.now ≡ Ok (view e)) }
    ensures refused { IfErr result
        (IsRefusal (says.constraint_said is_open (variable_view var) (value_view value.now) op.now)) }
{
    if op == "All" {
        any(alloc, value)
    } else if op == "==" {
        equal(alloc, is_open, var, value)
    } else if op == "in" {
        inside(alloc, is_open, var, value)
    } else if op == "is" {
        typed(alloc, is_open, var, value)
    } else {
        Err(no_operator(alloc))
    }
}

// The refusal of what stands at `op`.
#[cold]
fn no_operator(alloc: Global) -> PolicyJsonError
    ensures { IsRefusedAt (at_key (codes "op") ∷ []) reasons.UnknownOperator result }
{
    PolicyJsonError::refusal_at(alloc, "op", RefusalReason::UnknownOperator)
}

// No constraint: `true`.
fn any(alloc: Global, value: &Value<'_>) -> Result<Expr, PolicyJsonError>
    ensures said { IfOk result
        (λ e. made_of says.truth_of (shapes.one_at (codes "op") (value_view value.now)) ≡ Ok (view e)) }
    ensures refused { IfErr result
        (IsRefusal (made_of says.truth_of (shapes.one_at (codes "op") (value_view value.now)))) }
{
    match one_member(alloc, value, "op") {
        Ok(_) => Ok(Expr::val(Literal::Bool(true))),
        Err(error) => Err(error),
    }
}

fn equal(alloc: Global, is_open: bool, var: Var, value: &Value<'_>) -> Result<Expr, PolicyJsonError>
    ensures said { IfOk result
        (λ e. made_of (model.binary model.eq_operator (model.variable (variable_view var)))
        (says.target_said is_open (variable_view var) (value_view value.now)) ≡ Ok (view e)) }
    ensures refused { IfErr result
        (IsRefusal (made_of (model.binary model.eq_operator (model.variable (variable_view var)))
        (says.target_said is_open (variable_view var) (value_view value.now)))) }
{
    match target(alloc, is_open, var, value) {
        Ok(target) => compare(alloc, BinaryOp::Eq, var, target),
        Err(error) => Err(error),
    }
}

fn inside(
    alloc: Global,
    is_open: bool,
    var: Var,
    value: &Value<'_>,
) -> Result<Expr, PolicyJsonError>
    ensures said { IfOk result
        (λ e. made_of (model.binary model.in_operator (model.variable (variable_view var)))
        (says.inside_said is_open (variable_view var) (value_view value.now)) ≡ Ok (view e)) }
    ensures refused { IfErr result
        (IsRefusal (made_of (model.binary model.in_operator (model.variable (variable_view var)))
        (says.inside_said is_open (variable_view var) (value_view value.now)))) }
{
    match inside_of(alloc, is_open, var, value) {
        Ok(target) => compare(alloc, BinaryOp::In, var, target),
        Err(error) => Err(error),
    }
}

// The variable, compared with what is beside it.
fn compare(alloc: Global, op: BinaryOp, var: Var, target: Expr) -> Result<Expr, PolicyJsonError>
    ensures said { IfOk result
        (λ e. view e ≡ model.binary (binary_view op) (model.variable (variable_view var)) (view target)) }
    ensures memory { IfErr result IsMemory }
{
    match Expr::binary_app(alloc, op, Expr::var(var), target) {
        Ok(expr) => Ok(expr),
        Err(error) => Err(PolicyJsonError::Memory(error)),
    }
}

// An entity or a slot, or beside the action a list of entities.
fn inside_of(
    alloc: Global,
    is_open: bool,
    var: Var,
    value: &Value<'_>,
) -> Result<Expr, PolicyJsonError>
    ensures said { IfOk result
        (λ e. says.inside_said is_open (variable_view var) (value_view value.now) ≡ Ok (view e)) }
    ensures refused { IfErr result
        (IsRefusal (says.inside_said is_open (variable_view var) (value_view value.now))) }
{
    match var {
        Var::Principal => target(alloc, is_open, var, value),
        Var::Action => action_inside(alloc, is_open, value),
        Var::Resource => target(alloc, is_open, var, value),
        Var::Context => target(alloc, is_open, var, value),
    }
}

fn action_inside(alloc: Global, is_open: bool, value: &Value<'_>) -> Result<Expr, PolicyJsonError>
    ensures said { IfOk result
        (λ e. says.inside_said is_open model.action (value_view value.now) ≡ Ok (view e)) }
    ensures refused { IfErr result (IsRefusal (says.inside_said is_open model.action (value_view value.now))) }
{
    match value.get("entities") {
        Some(_) => match two_members(alloc, value, "op", "entities") {
            Ok((_, list)) => match entities(alloc, list) {
                Ok(entities) => Ok(entities),
                Err(error) => Err(error.under_key(alloc, "entities")),
            },
            Err(error) => Err(error),
        },
        None => target(alloc, is_open, Var::Action, value),
    }
}

// The set of the entities of an array.
fn entities(alloc: Global, value: &Value<'_>) -> Result<Expr, PolicyJsonError>
    ensures said { IfOk result
        (λ e. made_of says.set_of_terms (says.entities_in (as_array (value_view value.now))) ≡ Ok (view e)) }
    ensures refused { IfErr result
        (IsRefusal (made_of says.set_of_terms (says.entities_in (as_array (value_view value.now))))) }
{
    match array(value) {
        Some(items) => listed(alloc, items),
        None => Err(PolicyJsonError::refusal(alloc, RefusalReason::NotAnArray)),
    }
}

fn listed(alloc: Global, items: &Vec<Value<'_>>) -> Result<Expr, PolicyJsonError>
    ensures said { IfOk result
        (λ e. made_of says.set_of_terms (says.entities_from 0 (items_view items.now.items)) ≡ Ok (view e)) }
    ensures refused { IfErr result
        (IsRefusal (made_of says.set_of_terms (says.entities_from 0 (items_view items.now.items)))) }
{
    let mut elements: Vec<Expr> = Vec::new(alloc);
    match put_entities(alloc, items, &mut elements) {
        Ok(()) => set(alloc, elements),
        Err(error) => {
            drop(elements);
            Err(error)
        }
    }
}

// Puts the entities of the items behind those that are there.
fn put_entities(
    alloc: Global,
    items: &Vec<Value<'_>>,
    elements: &mut Vec<Expr>,
) -> Result<(), PolicyJsonError>
    requires { elements.old.items ≡ [] }
    ensures said { OnOk result
        (says.entities_from 0 (items_view items.now.items) ≡ Ok (map view elements.new.items)) }
    ensures refused { IfErr result (IsRefusal (says.entities_from 0 (items_view items.now.items))) }
{
    let mut index: usize = 0;
    'items: for item in items {
        put_entity(alloc, item, index, elements)?;
        index += 1;
    }
    Ok(())
}

fn put_entity(
    alloc: Global,
    item: &Value<'_>,
    index: usize,
    elements: &mut Vec<Expr>,
) -> Result<(), PolicyJsonError>
    ensures said { OnOk result (IsOneMore (map view elements.old.items)
        (under (at_index index) (says.entity_said (value_view item.now))) (map view elements.new.items)) }
    ensures refused { IfErr result
        (IsRefusal (under (at_index index) (says.entity_said (value_view item.now)))) }
{
    match entity(alloc, item) {
        Ok(entity) => put(entity, elements),
        Err(error) => Err(error.under_index(index)),
    }
}

// ---- tests of the type

// A test of the type, which the action has none of.
fn typed(alloc: Global, is_open: bool, var: Var, value: &Value<'_>) -> Result<Expr, PolicyJsonError>
    ensures said { IfOk result
        (λ e. says.is_scope_said is_open (variable_view var) (value_view value.now) ≡ Ok (view e)) }
    ensures refused { IfErr result
        (IsRefusal (says.is_scope_said is_open (variable_view var) (value_view value.now))) }
{
    match var {
        Var::Principal => typed_by_place(alloc, is_open, var, value),
        Var::Action => Err(no_operator(alloc)),
        Var::Resource => typed_by_place(alloc, is_open, var, value),
        Var::Context => Err(no_operator(alloc)),
    }
}

fn typed_by_place(
    alloc: Global,
    is_open: bool,
    var: Var,
    value: &Value<'_>,
) -> Result<Expr, PolicyJsonError>
    ensures said { IfOk result
        (λ e. says.is_by_place is_open (variable_view var) (get (codes "in") (value_view value.now))
        (value_view value.now) ≡ Ok (view e)) }
    ensures refused { IfErr result
        (IsRefusal (says.is_by_place is_open (variable_view var) (get (codes "in") (value_view value.now))
        (value_view value.now))) }
{
    match value.get("in") {
        Some(_) => match three_members(alloc, value, "op", "entity_type", "in") {
            Ok((_, ty, inside)) => typed_inside(alloc, is_open, var, ty, inside),
            Err(error) => Err(error),
        },
        None => match two_members(alloc, value, "op", "entity_type") {
            Ok((_, ty)) => typed_alone(alloc, var, ty),
            Err(error) => Err(error),
        },
    }
}

fn typed_alone(alloc: Global, var: Var, ty: &Value<'_>) -> Result<Expr, PolicyJsonError>
    ensures said { IfOk result
        (λ e. made_of (says.typed (variable_view var)) (says.type_at (value_view ty.now)) ≡ Ok (view e)) }
    ensures refused { IfErr result
        (IsRefusal (made_of (says.typed (variable_view var)) (says.type_at (value_view ty.now)))) }
{
    match name_at(alloc, "entity_type", ty) {
        Ok(name) => is_of(alloc, Expr::var(var), name),
        Err(error) => Err(error),
    }
}

fn typed_inside(
    alloc: Global,
    is_open: bool,
    var: Var,
    ty: &Value<'_>,
    inside: &Value<'_>,
) -> Result<Expr, PolicyJsonError>
    ensures said { IfOk result (λ e. made_of (says.typed_inside (variable_view var))
        (says.type_and_place is_open (variable_view var) (value_view ty.now) (value_view inside.now)) ≡ Ok (view e)) }
    ensures refused { IfErr result (IsRefusal (made_of (says.typed_inside (variable_view var))
        (says.type_and_place is_open (variable_view var) (value_view ty.now) (value_view inside.now)))) }
{
    match name_at(alloc, "entity_type", ty) {
        Ok(name) => match place(alloc, is_open, var, inside) {
            Ok(place) => is_in(alloc, (Expr::var(var), place), name),
            Err(error) => Err(error.under_key(alloc, "in")),
        },
        Err(error) => Err(error),
    }
}
