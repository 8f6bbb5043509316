#![tactic(auto, using(crate::proofs::Views::views, crate::proofs::Refused::refusals, crate::proofs::Lists::lists))]
//! Expressions.
ghost use Rattle.std.specs.Prelude.{◌≡◌, [], ◌∷◌, ◌++◌, Ok, map, option_map, codes, OnOk, IfOk, IfErr};
ghost use Rattle.json.specs.Find.{as_array, as_object};
ghost use Rattle.json.specs.Value.{value_view, items_view, members_view};
ghost use Rattle.cedar_model.specs.Terms as model;
ghost use Rattle.cedar_names.specs.Leaves.{unary_view};
ghost use Rattle.cedar_expressions.specs.Records.{pairs_view};
ghost use Rattle.cedar_expressions.specs.View.{view};
ghost use Rattle.cedar_functions.specs.Functions.{knowledge};
ghost use Rattle.cedar_policy_json_reader.specs.Expressions as says;
ghost use Rattle.cedar_policy_json_reader.specs.Expressions.{expression_said, part_at};
ghost use Rattle.cedar_policy_json_reader.specs.Bounds.{around, within, doubled};
ghost use Rattle.cedar_policy_json_reader.specs.Lists.{IsOneMore};
ghost use Rattle.cedar_policy_json_reader.specs.Names.{connection_view};
ghost use Rattle.cedar_policy_json_reader.specs.Paths.{at_index};
ghost use Rattle.cedar_policy_json_reader.specs.Refusals.{IsRefusal, under, both_said, made_of, and_then};
ghost use Rattle.cedar_policy_json_reader.specs.Shapes as shapes;

use crate::attributes::{has, pattern, read_attributes};
use crate::bounds::{Bounds, one_level_less};
use crate::errors::{PolicyJsonError, RefusalReason};
use crate::leaves::{name_at, unknown, value, variable};
use crate::making::{
    attribute_of, call, conditional, connected, is_in, is_of, like_of, put, put_pair, record, set,
    unary,
};
use crate::names::is_name;
use crate::operators::{Connection, connection_named, unary_named};
use crate::shapes::{array, object, one_member, sole_member, text_at, three_members, two_members};
use cedar_expressions::Expr;
use cedar_functions::{Functions, Known};
use cedar_names::UnaryOp;
use json::Value;
use std::alloc::Global;
use std::rc::RcStr;

/// The expression that the JSON value says, in Cedar's JSON of policies: an object of one member, named by the operator
/// or by one of these functions. Its levels, from the expression itself to its innermost part, are at most `limit`. No
/// `is` with an `in` stands in the left side of another. Refuses with `Refused`, which holds the path of the part that
/// is refused first, and the reason. `Memory` is out of memory.
pub fn expression_from_json(
    alloc: Global,
    json: &Value<'_>,
    functions: &Functions,
    limit: usize,
) -> Result<Expr, PolicyJsonError>
    ensures said { IfOk result
        (λ e. expression_said (knowledge functions.now) limit (value_view json.now) ≡ Ok (view e)) }
    ensures refused { IfErr result
        (IsRefusal (expression_said (knowledge functions.now) limit (value_view json.now))) }
{
    let bounds = Bounds {
        functions,
        limit,
        is_doubled: false,
    };
    read_expression(alloc, bounds, json)
}

#[cycle(expressions)]
fn read_expression(
    alloc: Global,
    bounds: Bounds<'_>,
    json: &Value<'_>,
) -> Result<Expr, PolicyJsonError>
    ensures said { IfOk result (λ e. within bounds.entry (value_view json.now) ≡ Ok (view e)) }
    ensures refused { IfErr result (IsRefusal (within bounds.entry (value_view json.now))) }
{
    if bounds.limit == 0 {
        Err(PolicyJsonError::refusal(alloc, RefusalReason::TooDeep))
    } else {
        read_level(alloc, one_level_less(bounds), json)
    }
}

// One level, over parts that are within these bounds.
#[cycle(expressions)]
fn read_level(alloc: Global, bounds: Bounds<'_>, json: &Value<'_>) -> Result<Expr, PolicyJsonError>
    ensures said { IfOk result
        (λ e. says.level_said (around bounds.entry) (within bounds.entry) (value_view json.now) ≡ Ok (view e)) }
    ensures refused { IfErr result
        (IsRefusal (says.level_said (around bounds.entry) (within bounds.entry) (value_view json.now))) }
{
    match sole_member(json) {
        Some((name, json)) => match read_operator(alloc, bounds, name, json) {
            Ok(expr) => Ok(expr),
            Err(error) => Err(error.under_key(alloc, name)),
        },
        None => Err(PolicyJsonError::refusal(alloc, RefusalReason::NotAnExpression)),
    }
}

// By the name of the operator.
#[cycle(expressions)]
fn read_operator(
    alloc: Global,
    bounds: Bounds<'_>,
    name: &str,
    json: &Value<'_>,
) -> Result<Expr, PolicyJsonError>
    ensures said { IfOk result
        (λ e. says.operator_said (around bounds.entry) (within bounds.entry) name.now (value_view json.now)
        ≡ Ok (view e)) }
    ensures refused { IfErr result
        (IsRefusal (says.operator_said (around bounds.entry) (within bounds.entry) name.now (value_view json.now))) }
{
    match connection_named(name) {
        Some(connection) => read_connected(alloc, bounds, connection, json),
        None => match unary_named(name) {
            Some(op) => read_unary(alloc, bounds, op, json),
            None => read_leaf_or_other(alloc, bounds, name, json),
        },
    }
}

#[cycle(expressions)]
fn read_leaf_or_other(
    alloc: Global,
    bounds: Bounds<'_>,
    name: &str,
    json: &Value<'_>,
) -> Result<Expr, PolicyJsonError>
    ensures said { IfOk result
        (λ e. says.leaf_or_said (around bounds.entry) (within bounds.entry) name.now (value_view json.now)
        ≡ Ok (view e)) }
    ensures refused { IfErr result
        (IsRefusal (says.leaf_or_said (around bounds.entry) (within bounds.entry) name.now (value_view json.now))) }
{
    if name == "Value" {
        value(alloc, json)
    } else if name == "Var" {
        variable(alloc, json)
    } else if name == "Slot" {
        Err(PolicyJsonError::refusal(alloc, RefusalReason::SlotOutsideScope))
    } else if name == "Unknown" {
        unknown(alloc, json)
    } else {
        read_compound(alloc, bounds, name, json)
    }
}

#[cycle(expressions)]
fn read_compound(
    alloc: Global,
    bounds: Bounds<'_>,
    name: &str,
    json: &Value<'_>,
) -> Result<Expr, PolicyJsonError>
    ensures said { IfOk result
        (λ e. says.compound_said (around bounds.entry) (within bounds.entry) name.now (value_view json.now)
        ≡ Ok (view e)) }
    ensures refused { IfErr result
        (IsRefusal (says.compound_said (around bounds.entry) (within bounds.entry) name.now (value_view json.now))) }
{
    if name == "." {
        read_get(alloc, bounds, json)
    } else if name == "has" {
        read_has(alloc, bounds, json)
    } else if name == "like" {
        read_like(alloc, bounds, json)
    } else if name == "is" {
        read_is(alloc, bounds, json)
    } else if name == "if-then-else" {
        read_if(alloc, bounds, json)
    } else {
        read_collection(alloc, bounds, name, json)
    }
}

#[cycle(expressions)]
fn read_collection(
    alloc: Global,
    bounds: Bounds<'_>,
    name: &str,
    json: &Value<'_>,
) -> Result<Expr, PolicyJsonError>
    ensures said { IfOk result
        (λ e. says.collection_said (around bounds.entry) (within bounds.entry) name.now (value_view json.now)
        ≡ Ok (view e)) }
    ensures refused { IfErr result
        (IsRefusal (says.collection_said (around bounds.entry) (within bounds.entry) name.now (value_view json.now))) }
{
    if name == "Set" {
        read_set(alloc, bounds, json)
    } else if name == "Record" {
        read_record(alloc, bounds, json)
    } else {
        read_call(alloc, bounds, name, json)
    }
}

// The part that stands at this key.
#[cycle(expressions)]
fn read_part(
    alloc: Global,
    bounds: Bounds<'_>,
    key: &str,
    json: &Value<'_>,
) -> Result<Expr, PolicyJsonError>
    ensures said { IfOk result (λ e. part_at key.now (within bounds.entry) (value_view json.now) ≡ Ok (view e)) }
    ensures refused { IfErr result (IsRefusal (part_at key.now (within bounds.entry) (value_view json.now))) }
{
    match read_expression(alloc, bounds, json) {
        Ok(expr) => Ok(expr),
        Err(error) => Err(error.under_key(alloc, key)),
    }
}

// ---- operators on parts

#[cycle(expressions)]
fn read_unary(
    alloc: Global,
    bounds: Bounds<'_>,
    op: UnaryOp,
    json: &Value<'_>,
) -> Result<Expr, PolicyJsonError>
    ensures said { IfOk result
        (λ e. says.one_part_said (within bounds.entry) (unary_view op) (value_view json.now) ≡ Ok (view e)) }
    ensures refused { IfErr result
        (IsRefusal (says.one_part_said (within bounds.entry) (unary_view op) (value_view json.now))) }
{
    match one_member(alloc, json, "arg") {
        Ok(arg) => match read_part(alloc, bounds, "arg", arg) {
            Ok(arg) => unary(alloc, op, arg),
            Err(error) => Err(error),
        },
        Err(error) => Err(error),
    }
}

#[cycle(expressions)]
fn read_connected(
    alloc: Global,
    bounds: Bounds<'_>,
    connection: Connection,
    json: &Value<'_>,
) -> Result<Expr, PolicyJsonError>
    ensures said { IfOk result
        (λ e. says.connected_said (within bounds.entry) (connection_view connection) (value_view json.now)
        ≡ Ok (view e)) }
    ensures refused { IfErr result
        (IsRefusal (says.connected_said (within bounds.entry) (connection_view connection) (value_view json.now))) }
{
    match two_members(alloc, json, "left", "right") {
        Ok((left, right)) => match read_both(alloc, bounds, "left", left, "right", right) {
            Ok(parts) => connected(alloc, connection, parts),
            Err(error) => Err(error),
        },
        Err(error) => Err(error),
    }
}

// The parts that stand at these two keys.
#[cycle(expressions)]
fn read_both(
    alloc: Global,
    bounds: Bounds<'_>,
    first_key: &str,
    first: &Value<'_>,
    second_key: &str,
    second: &Value<'_>,
) -> Result<(Expr, Expr), PolicyJsonError>
    ensures said { IfOk result
        (λ p. both_said (part_at first_key.now (within bounds.entry) (value_view first.now))
        (part_at second_key.now (within bounds.entry) (value_view second.now)) ≡ Ok (view p.0, view p.1)) }
    ensures refused { IfErr result
        (IsRefusal (both_said (part_at first_key.now (within bounds.entry) (value_view first.now))
        (part_at second_key.now (within bounds.entry) (value_view second.now)))) }
{
    match read_part(alloc, bounds, first_key, first) {
        Ok(left) => match read_part(alloc, bounds, second_key, second) {
            Ok(right) => Ok((left, right)),
            Err(error) => {
                drop(left);
                Err(error)
            }
        },
        Err(error) => Err(error),
    }
}

// ---- attributes, patterns, types, branches

#[cycle(expressions)]
fn read_get(alloc: Global, bounds: Bounds<'_>, json: &Value<'_>) -> Result<Expr, PolicyJsonError>
    ensures said { IfOk result (λ e. says.get_said (within bounds.entry) (value_view json.now) ≡ Ok (view e)) }
    ensures refused { IfErr result (IsRefusal (says.get_said (within bounds.entry) (value_view json.now))) }
{
    match two_members(alloc, json, "left", "attr") {
        Ok((left, attribute)) => read_attribute(alloc, bounds, left, attribute),
        Err(error) => Err(error),
    }
}

#[cycle(expressions)]
fn read_attribute(
    alloc: Global,
    bounds: Bounds<'_>,
    left: &Value<'_>,
    attribute: &Value<'_>,
) -> Result<Expr, PolicyJsonError>
    ensures said { IfOk result
        (λ e. says.attribute_said (within bounds.entry) (value_view left.now, value_view attribute.now) ≡ Ok (view e)) }
    ensures refused { IfErr result
        (IsRefusal (says.attribute_said (within bounds.entry) (value_view left.now, value_view attribute.now))) }
{
    match text_at(alloc, "attr", attribute) {
        Ok(attribute) => match read_part(alloc, bounds, "left", left) {
            Ok(left) => attribute_of(alloc, left, attribute),
            Err(error) => Err(error),
        },
        Err(error) => Err(error),
    }
}

#[cycle(expressions)]
fn read_has(alloc: Global, bounds: Bounds<'_>, json: &Value<'_>) -> Result<Expr, PolicyJsonError>
    ensures said { IfOk result (λ e. says.has_said (within bounds.entry) (value_view json.now) ≡ Ok (view e)) }
    ensures refused { IfErr result (IsRefusal (says.has_said (within bounds.entry) (value_view json.now))) }
{
    match two_members(alloc, json, "left", "attr") {
        Ok((left, attribute)) => read_has_of(alloc, bounds, left, attribute),
        Err(error) => Err(error),
    }
}

#[cycle(expressions)]
fn read_has_of(
    alloc: Global,
    bounds: Bounds<'_>,
    left: &Value<'_>,
    attribute: &Value<'_>,
) -> Result<Expr, PolicyJsonError>
    ensures said { IfOk result
        (λ e. says.attributes_of_said (within bounds.entry) (value_view left.now, value_view attribute.now)
        ≡ Ok (view e)) }
    ensures refused { IfErr result
        (IsRefusal (says.attributes_of_said (within bounds.entry) (value_view left.now, value_view attribute.now))) }
{
    match read_attributes(alloc, attribute) {
        Ok(attributes) => match read_part(alloc, bounds, "left", left) {
            Ok(left) => has(alloc, left, attributes),
            Err(error) => {
                drop(attributes);
                Err(error)
            }
        },
        Err(error) => Err(error.under_key(alloc, "attr")),
    }
}

#[cycle(expressions)]
fn read_like(alloc: Global, bounds: Bounds<'_>, json: &Value<'_>) -> Result<Expr, PolicyJsonError>
    ensures said { IfOk result (λ e. says.like_said (within bounds.entry) (value_view json.now) ≡ Ok (view e)) }
    ensures refused { IfErr result (IsRefusal (says.like_said (within bounds.entry) (value_view json.now))) }
{
    match two_members(alloc, json, "left", "pattern") {
        Ok((left, parts)) => read_like_of(alloc, bounds, left, parts),
        Err(error) => Err(error),
    }
}

#[cycle(expressions)]
fn read_like_of(
    alloc: Global,
    bounds: Bounds<'_>,
    left: &Value<'_>,
    parts: &Value<'_>,
) -> Result<Expr, PolicyJsonError>
    ensures said { IfOk result
        (λ e. says.pattern_of_said (within bounds.entry) (value_view left.now, value_view parts.now) ≡ Ok (view e)) }
    ensures refused { IfErr result
        (IsRefusal (says.pattern_of_said (within bounds.entry) (value_view left.now, value_view parts.now))) }
{
    match pattern(alloc, parts) {
        Ok(pattern) => match read_part(alloc, bounds, "left", left) {
            Ok(left) => like_of(alloc, left, pattern),
            Err(error) => {
                drop(pattern);
                Err(error)
            }
        },
        Err(error) => Err(error.under_key(alloc, "pattern")),
    }
}

#[cycle(expressions)]
fn read_is(alloc: Global, bounds: Bounds<'_>, json: &Value<'_>) -> Result<Expr, PolicyJsonError>
    ensures said { IfOk result
        (λ e. says.is_said (around bounds.entry).left (within bounds.entry) (value_view json.now) ≡ Ok (view e)) }
    ensures refused { IfErr result
        (IsRefusal (says.is_said (around bounds.entry).left (within bounds.entry) (value_view json.now))) }
{
    match json.get("in") {
        Some(_) => if bounds.is_doubled {
            Err(PolicyJsonError::refusal(alloc, RefusalReason::DoubledTest))
        } else {
            read_is_in(alloc, bounds, json)
        },
        None => read_is_alone(alloc, bounds, json),
    }
}

#[cycle(expressions)]
fn read_is_alone(
    alloc: Global,
    bounds: Bounds<'_>,
    json: &Value<'_>,
) -> Result<Expr, PolicyJsonError>
    ensures said { IfOk result
        (λ e. and_then (says.type_test_said (within bounds.entry))
        (shapes.two_at (codes "left") (codes "entity_type") (value_view json.now)) ≡ Ok (view e)) }
    ensures refused { IfErr result
        (IsRefusal (and_then (says.type_test_said (within bounds.entry))
        (shapes.two_at (codes "left") (codes "entity_type") (value_view json.now)))) }
{
    match two_members(alloc, json, "left", "entity_type") {
        Ok((left, ty)) => read_type_test(alloc, bounds, left, ty),
        Err(error) => Err(error),
    }
}

#[cycle(expressions)]
fn read_type_test(
    alloc: Global,
    bounds: Bounds<'_>,
    left: &Value<'_>,
    ty: &Value<'_>,
) -> Result<Expr, PolicyJsonError>
    ensures said { IfOk result
        (λ e. says.type_test_said (within bounds.entry) (value_view left.now, value_view ty.now) ≡ Ok (view e)) }
    ensures refused { IfErr result
        (IsRefusal (says.type_test_said (within bounds.entry) (value_view left.now, value_view ty.now))) }
{
    match name_at(alloc, "entity_type", ty) {
        Ok(name) => match read_part(alloc, bounds, "left", left) {
            Ok(left) => is_of(alloc, left, name),
            Err(error) => Err(error),
        },
        Err(error) => Err(error),
    }
}

#[cycle(expressions)]
fn read_is_in(alloc: Global, bounds: Bounds<'_>, json: &Value<'_>) -> Result<Expr, PolicyJsonError>
    ensures said { IfOk result
        (λ e. says.is_in_said (doubled bounds.entry) (within bounds.entry) (value_view json.now) ≡ Ok (view e)) }
    ensures refused { IfErr result
        (IsRefusal (says.is_in_said (doubled bounds.entry) (within bounds.entry) (value_view json.now))) }
{
    match three_members(alloc, json, "left", "entity_type", "in") {
        Ok((left, ty, place)) => read_type_test_in(alloc, bounds, left, ty, place),
        Err(error) => Err(error),
    }
}

#[cycle(expressions)]
fn read_type_test_in(
    alloc: Global,
    bounds: Bounds<'_>,
    left: &Value<'_>,
    ty: &Value<'_>,
    place: &Value<'_>,
) -> Result<Expr, PolicyJsonError>
    ensures said { IfOk result
        (λ e. says.type_test_in_said (doubled bounds.entry) (within bounds.entry)
        (value_view left.now, value_view ty.now, value_view place.now) ≡ Ok (view e)) }
    ensures refused { IfErr result
        (IsRefusal (says.type_test_in_said (doubled bounds.entry) (within bounds.entry)
        (value_view left.now, value_view ty.now, value_view place.now))) }
{
    match name_at(alloc, "entity_type", ty) {
        Ok(name) => match read_place(alloc, bounds, left, place) {
            Ok(parts) => is_in(alloc, parts, name),
            Err(error) => Err(error),
        },
        Err(error) => Err(error),
    }
}

#[cycle(expressions)]
fn read_place(
    alloc: Global,
    bounds: Bounds<'_>,
    left: &Value<'_>,
    place: &Value<'_>,
) -> Result<(Expr, Expr), PolicyJsonError>
    ensures said { IfOk result
        (λ p. says.place_said (doubled bounds.entry) (within bounds.entry)
        (value_view left.now, value_view place.now) ≡ Ok (view p.0, view p.1)) }
    ensures refused { IfErr result
        (IsRefusal (says.place_said (doubled bounds.entry) (within bounds.entry)
        (value_view left.now, value_view place.now))) }
{
    let doubled = Bounds {
        functions: bounds.functions,
        limit: bounds.limit,
        is_doubled: true,
    };
    match read_part(alloc, doubled, "left", left) {
        Ok(left) => match read_part(alloc, bounds, "in", place) {
            Ok(place) => Ok((left, place)),
            Err(error) => {
                drop(left);
                Err(error)
            }
        },
        Err(error) => Err(error),
    }
}

#[cycle(expressions)]
fn read_if(alloc: Global, bounds: Bounds<'_>, json: &Value<'_>) -> Result<Expr, PolicyJsonError>
    ensures said { IfOk result (λ e. says.if_said (within bounds.entry) (value_view json.now) ≡ Ok (view e)) }
    ensures refused { IfErr result (IsRefusal (says.if_said (within bounds.entry) (value_view json.now))) }
{
    match three_members(alloc, json, "if", "then", "else") {
        Ok((test, then, other)) => read_branches(alloc, bounds, test, then, other),
        Err(error) => Err(error),
    }
}

#[cycle(expressions)]
fn read_branches(
    alloc: Global,
    bounds: Bounds<'_>,
    test: &Value<'_>,
    then: &Value<'_>,
    other: &Value<'_>,
) -> Result<Expr, PolicyJsonError>
    ensures said { IfOk result
        (λ e. says.branches_said (within bounds.entry)
        (value_view test.now, value_view then.now, value_view other.now) ≡ Ok (view e)) }
    ensures refused { IfErr result
        (IsRefusal (says.branches_said (within bounds.entry)
        (value_view test.now, value_view then.now, value_view other.now))) }
{
    match read_part(alloc, bounds, "if", test) {
        Ok(test) => match read_both(alloc, bounds, "then", then, "else", other) {
            Ok(branches) => conditional(alloc, test, branches),
            Err(error) => {
                drop(test);
                Err(error)
            }
        },
        Err(error) => Err(error),
    }
}

// ---- sets, records, functions

#[cycle(expressions)]
fn read_set(alloc: Global, bounds: Bounds<'_>, json: &Value<'_>) -> Result<Expr, PolicyJsonError>
    ensures said { IfOk result (λ e. says.set_said (within bounds.entry) (value_view json.now) ≡ Ok (view e)) }
    ensures refused { IfErr result (IsRefusal (says.set_said (within bounds.entry) (value_view json.now))) }
{
    match array(json) {
        Some(items) => read_elements(alloc, bounds, items),
        None => Err(PolicyJsonError::refusal(alloc, RefusalReason::NotAnArray)),
    }
}

#[cycle(expressions)]
fn read_elements(
    alloc: Global,
    bounds: Bounds<'_>,
    items: &Vec<Value<'_>>,
) -> Result<Expr, PolicyJsonError>
    ensures said { IfOk result
        (λ e. made_of (λ ts. model.set_of (model.terms_of ts))
        (says.items_said (within bounds.entry) 0 (items_view items.now.items)) ≡ Ok (view e)) }
    ensures refused { IfErr result
        (IsRefusal (made_of (λ ts. model.set_of (model.terms_of ts))
        (says.items_said (within bounds.entry) 0 (items_view items.now.items)))) }
{
    let mut elements: Vec<Expr> = Vec::new(alloc);
    match read_items(alloc, bounds, items, &mut elements) {
        Ok(()) => set(alloc, elements),
        Err(error) => {
            drop(elements);
            Err(error)
        }
    }
}

// Puts the expressions of the items behind those that are there.
#[cycle(expressions)]
fn read_items(
    alloc: Global,
    bounds: Bounds<'_>,
    items: &Vec<Value<'_>>,
    elements: &mut Vec<Expr>,
) -> Result<(), PolicyJsonError>
    requires { elements.old.items ≡ [] }
    ensures said { OnOk result
        (says.items_said (within bounds.entry) 0 (items_view items.now.items) ≡ Ok (map view elements.new.items)) }
    ensures refused { IfErr result (IsRefusal (says.items_said (within bounds.entry) 0 (items_view items.now.items))) }
{
    let mut index: usize = 0;
    'items: for item in items {
        read_item(alloc, bounds, item, index, elements)?;
        index += 1;
    }
    Ok(())
}

#[cycle(expressions)]
fn read_item(
    alloc: Global,
    bounds: Bounds<'_>,
    item: &Value<'_>,
    index: usize,
    elements: &mut Vec<Expr>,
) -> Result<(), PolicyJsonError>
    ensures said { OnOk result
        (IsOneMore (map view elements.old.items) (under (at_index index) (within bounds.entry (value_view item.now)))
        (map view elements.new.items)) }
    ensures refused { IfErr result (IsRefusal (under (at_index index) (within bounds.entry (value_view item.now)))) }
{
    match read_expression(alloc, bounds, item) {
        Ok(element) => put(element, elements),
        Err(error) => Err(error.under_index(index)),
    }
}

#[cycle(expressions)]
fn read_record(alloc: Global, bounds: Bounds<'_>, json: &Value<'_>) -> Result<Expr, PolicyJsonError>
    ensures said { IfOk result (λ e. says.record_said (within bounds.entry) (value_view json.now) ≡ Ok (view e)) }
    ensures refused { IfErr result (IsRefusal (says.record_said (within bounds.entry) (value_view json.now))) }
{
    match object(json) {
        Some(members) => read_fields(alloc, bounds, members),
        None => Err(PolicyJsonError::refusal(alloc, RefusalReason::NotAnObject)),
    }
}

#[cycle(expressions)]
fn read_fields<'a>(
    alloc: Global,
    bounds: Bounds<'_>,
    members: &Vec<(&'a str, Value<'a>)>,
) -> Result<Expr, PolicyJsonError>
    ensures said { IfOk result
        (λ e. and_then says.record_of_pairs (says.members_said (within bounds.entry) (members_view members.now.items))
        ≡ Ok (view e)) }
    ensures refused { IfErr result
        (IsRefusal (and_then says.record_of_pairs (says.members_said (within bounds.entry)
        (members_view members.now.items)))) }
{
    let mut pairs: Vec<(RcStr, Expr)> = Vec::new(alloc);
    match read_members(alloc, bounds, members, &mut pairs) {
        Ok(()) => record(alloc, pairs),
        Err(error) => {
            drop(pairs);
            Err(error)
        }
    }
}

// Puts the expressions of the members behind those that are there, under their keys.
#[cycle(expressions)]
fn read_members<'a>(
    alloc: Global,
    bounds: Bounds<'_>,
    members: &Vec<(&'a str, Value<'a>)>,
    pairs: &mut Vec<(RcStr, Expr)>,
) -> Result<(), PolicyJsonError>
    requires { pairs.old.items ≡ [] }
    ensures said { OnOk result
        (says.members_said (within bounds.entry) (members_view members.now.items) ≡ Ok (pairs_view pairs.new.items)) }
    ensures refused { IfErr result
        (IsRefusal (says.members_said (within bounds.entry) (members_view members.now.items))) }
{
    'members: for member in members {
        read_member(alloc, bounds, member.0, &member.1, pairs)?;
    }
    Ok(())
}

#[cycle(expressions)]
fn read_member(
    alloc: Global,
    bounds: Bounds<'_>,
    key: &str,
    json: &Value<'_>,
    pairs: &mut Vec<(RcStr, Expr)>,
) -> Result<(), PolicyJsonError>
    ensures said { OnOk result
        (IsOneMore (pairs_view pairs.old.items) (says.member_said (within bounds.entry) key.now (value_view json.now))
        (pairs_view pairs.new.items)) }
    ensures refused { IfErr result (IsRefusal (says.member_said (within bounds.entry) key.now (value_view json.now))) }
{
    match read_part(alloc, bounds, key, json) {
        Ok(expr) => put_pair(alloc, key, expr, pairs),
        Err(error) => Err(error),
    }
}

#[cycle(expressions)]
fn read_call(
    alloc: Global,
    bounds: Bounds<'_>,
    name: &str,
    json: &Value<'_>,
) -> Result<Expr, PolicyJsonError>
    ensures said { IfOk result
        (λ e. says.call_said (around bounds.entry).known (within bounds.entry) name.now (value_view json.now)
        ≡ Ok (view e)) }
    ensures refused { IfErr result
        (IsRefusal (says.call_said (around bounds.entry).known (within bounds.entry) name.now (value_view json.now))) }
{
    match bounds.functions.look_up(name) {
        Known::Any => read_any(alloc, bounds, name, json),
        Known::Function(_, arguments) => read_known(alloc, bounds, name, arguments, json),
        Known::Nothing => Err(PolicyJsonError::refusal(alloc, RefusalReason::UnknownOperator)),
    }
}

// The call of a function of which nothing is known, on any number of arguments.
#[cycle(expressions)]
fn read_any(
    alloc: Global,
    bounds: Bounds<'_>,
    name: &str,
    json: &Value<'_>,
) -> Result<Expr, PolicyJsonError>
    ensures said { IfOk result
        (λ e. says.called_by_name (within bounds.entry) name.now (as_array (value_view json.now)) ≡ Ok (view e)) }
    ensures refused { IfErr result
        (IsRefusal (says.called_by_name (within bounds.entry) name.now (as_array (value_view json.now)))) }
{
    if is_name(name) {
        match array(json) {
            Some(items) => read_arguments(alloc, bounds, name, items),
            None => Err(PolicyJsonError::refusal(alloc, RefusalReason::NotAnArray)),
        }
    } else {
        Err(PolicyJsonError::refusal(alloc, RefusalReason::UnknownOperator))
    }
}

// The call of a function that takes so many arguments.
#[tactic(auto, using(crate::proofs::Members::members, crate::proofs::Refused::refusals))]
#[cycle(expressions)]
fn read_known(
    alloc: Global,
    bounds: Bounds<'_>,
    name: &str,
    arguments: usize,
    json: &Value<'_>,
) -> Result<Expr, PolicyJsonError>
    ensures said { IfOk result
        (λ e. says.called (within bounds.entry) name.now arguments (as_array (value_view json.now)) ≡ Ok (view e)) }
    ensures refused { IfErr result
        (IsRefusal (says.called (within bounds.entry) name.now arguments (as_array (value_view json.now)))) }
{
    match array(json) {
        Some(items) => if items.len() == arguments {
            read_arguments(alloc, bounds, name, items)
        } else {
            Err(PolicyJsonError::refusal(alloc, RefusalReason::WrongArguments))
        },
        None => Err(PolicyJsonError::refusal(alloc, RefusalReason::NotAnArray)),
    }
}

#[cycle(expressions)]
fn read_arguments(
    alloc: Global,
    bounds: Bounds<'_>,
    name: &str,
    items: &Vec<Value<'_>>,
) -> Result<Expr, PolicyJsonError>
    ensures said { IfOk result
        (λ e. made_of (λ ts. model.call name.now (model.terms_of ts))
        (says.items_said (within bounds.entry) 0 (items_view items.now.items)) ≡ Ok (view e)) }
    ensures refused { IfErr result
        (IsRefusal (made_of (λ ts. model.call name.now (model.terms_of ts))
        (says.items_said (within bounds.entry) 0 (items_view items.now.items)))) }
{
    let mut args: Vec<Expr> = Vec::new(alloc);
    match read_items(alloc, bounds, items, &mut args) {
        Ok(()) => call(alloc, name, args),
        Err(error) => {
            drop(args);
            Err(error)
        }
    }
}
