#![tactic(auto, using(crate::proofs::Views::views, crate::proofs::Refused::refusals, crate::proofs::Reading::reading))]
//! Values.
ghost use Rattle.std.specs.Prelude.{◌≡◌, [], ◌∷◌, ◌++◌, Ok, map, codes, OnOk, IfOk, IfErr};
ghost use Rattle.std.specs.Rc.{rc_str_bytes};
ghost use Rattle.json.specs.Value.{value_view, items_view, members_view};
ghost use Rattle.cedar_restricted.specs.Views.{restricted_term};
ghost use Rattle.json.specs.Json.{object};
ghost use Rattle.std.specs.Option.{option_and_then};
ghost use Rattle.json.specs.Find.{as_number};
ghost use Rattle.cedar_json_reader.specs.Numbers.{long_in, signed_long_of_text};
ghost use Rattle.cedar_model.specs.Terms.{literal, text_literal};
ghost use Rattle.cedar_json_reader.specs.Refusals.{IsRefusal, IsRefusedAt, IsMemory, under, made_of, and_then};
ghost use Rattle.cedar_json_reader.specs.Paths.{at_key, at_index};
ghost use Rattle.cedar_json_reader.specs.Shapes as shapes;
ghost use Rattle.cedar_json_reader.specs.Said as says;
ghost use Rattle.cedar_json_reader.specs.declared.errors.RefusalReason.TheVariants as reasons;
ghost use Rattle.cedar_json_reader.specs.Lists.{pairs_said, IsOneMore, IsUnrecorded, arguments_of, shape_said};

use crate::errors::{JsonError, RefusalReason};
use crate::escapes::{entity, is_reserved_key, make_call};
use crate::shapes::{CallShape, array, call_shape, sole};
use cedar_expressions::ExpressionConstructionError;
use cedar_names::Literal;
use cedar_restricted::RestrictedExpr;
use json::Value;
use std::alloc::Global;
use std::rc::RcStr;

/// The restricted expression that the JSON value says: a boolean, a long, a string, a set of the elements of an array,
/// a record of the members of an object, an entity, a call of an extension function, or an unknown. Refuses with
/// `Refused`, which holds the path of the first part that says none of these, in the order of the text, and the reason;
/// in a call the other members come before what stands at `fn`, if that is no name. `Memory` is out of memory.
#[cycle(values)]
pub fn restricted_expr_from_json_value(
    alloc: Global,
    value: &Value<'_>,
) -> Result<RestrictedExpr, JsonError>
    ensures said { IfOk result (λ r. says.said (value_view value.now) ≡ Ok (restricted_term r)) }
    ensures refused { IfErr result (IsRefusal (says.said (value_view value.now))) }
{
    match value {
        Value::Null => Err(JsonError::refusal(alloc, RefusalReason::Null)),
        Value::Bool(flag) => Ok(RestrictedExpr::val(Literal::Bool(*flag))),
        Value::Number(_) => read_long(alloc, value),
        Value::String(text) => read_text(alloc, text),
        Value::Array(items) => read_set(alloc, items),
        Value::Object(members) => read_object(alloc, members),
    }
}

fn read_long(alloc: Global, number: &Value<'_>) -> Result<RestrictedExpr, JsonError>
    ensures said { IfOk result
        (λ r. says.long_said (long_in (value_view number.now)) ≡ Ok (restricted_term r)) }
    ensures refused { IfErr result (IsRefusal (says.long_said (long_in (value_view number.now)))) }
{
    match long_in(number) {
        Some(long) => Ok(RestrictedExpr::val(Literal::Long(long))),
        None => Err(JsonError::refusal(alloc, RefusalReason::NotALong)),
    }
}

// The long that a number writes. `-0` is none.
fn long_in(number: &Value<'_>) -> Option<i64>
    ensures { result ≡ long_in (value_view number.now) }
{
    match number.as_number() {
        Some(text) => if text == "-0" {
            None
        } else {
            signed_long_in(number)
        },
        None => None,
    }
}

// The same, and zero for `-0`.
#[tactic(auto, using(crate::proofs::Longs::long_parsed))]
fn signed_long_in(number: &Value<'_>) -> Option<i64>
    ensures { result ≡ option_and_then signed_long_of_text (as_number (value_view number.now)) }
{
    number.as_i64()
}

fn read_text(alloc: Global, text: &str) -> Result<RestrictedExpr, JsonError>
    ensures said { IfOk result (λ r. restricted_term r ≡ literal (text_literal text.now)) }
    ensures memory { IfErr result IsMemory }
{
    match RcStr::from_str(alloc, text) {
        Ok(text) => Ok(RestrictedExpr::val(Literal::String(text))),
        Err(error) => Err(JsonError::Memory(error)),
    }
}

#[cycle(values)]
fn read_set(alloc: Global, items: &Vec<Value<'_>>) -> Result<RestrictedExpr, JsonError>
    ensures said { IfOk result
        (λ r. says.set_said (says.said_items 0 (items_view items.now.items)) ≡ Ok (restricted_term r)) }
    ensures refused { IfErr result (IsRefusal (says.set_said (says.said_items 0 (items_view items.now.items)))) }
{
    let mut elements: Vec<RestrictedExpr> = Vec::new(alloc);
    match read_items(alloc, items, &mut elements) {
        Ok(()) => match RestrictedExpr::set(alloc, elements) {
            Ok(set) => Ok(set),
            Err(error) => Err(JsonError::Memory(error)),
        },
        Err(error) => {
            drop(elements);
            Err(error)
        }
    }
}

// Puts the expressions of the items behind those that are there.
#[cycle(values)]
fn read_items(
    alloc: Global,
    items: &Vec<Value<'_>>,
    elements: &mut Vec<RestrictedExpr>,
) -> Result<(), JsonError>
    requires { elements.old.items ≡ [] }
    ensures said { OnOk result
        (says.said_items 0 (items_view items.now.items) ≡ Ok (map restricted_term elements.new.items)) }
    ensures refused { IfErr result (IsRefusal (says.said_items 0 (items_view items.now.items))) }
{
    let mut index: usize = 0;
    'items: for item in items {
        read_item(alloc, item, index, elements)?;
        index += 1;
    }
    Ok(())
}

#[cycle(values)]
fn read_item(
    alloc: Global,
    item: &Value<'_>,
    index: usize,
    elements: &mut Vec<RestrictedExpr>,
) -> Result<(), JsonError>
    ensures said { OnOk result (IsOneMore (map restricted_term elements.old.items)
        (under (at_index index) (says.said (value_view item.now))) (map restricted_term elements.new.items)) }
    ensures refused { IfErr result (IsRefusal (under (at_index index) (says.said (value_view item.now)))) }
{
    match restricted_expr_from_json_value(alloc, item) {
        Ok(element) => put(element, elements),
        Err(error) => Err(error.under_index(index)),
    }
}

#[cycle(values)]
fn read_object<'a>(
    alloc: Global,
    members: &Vec<(&'a str, Value<'a>)>,
) -> Result<RestrictedExpr, JsonError>
    ensures said { IfOk result (λ r. says.said (object (members_view members.now.items)) ≡ Ok (restricted_term r)) }
    ensures refused { IfErr result (IsRefusal (says.said (object (members_view members.now.items)))) }
{
    match sole(members) {
        Some((key, value)) => if key == "__entity" {
            entity(alloc, value)
        } else if key == "__extn" {
            read_call(alloc, value)
        } else {
            read_record(alloc, members)
        },
        None => read_record(alloc, members),
    }
}

#[cycle(values)]
pub(crate) fn read_record<'a>(
    alloc: Global,
    members: &Vec<(&'a str, Value<'a>)>,
) -> Result<RestrictedExpr, JsonError>
    ensures said { IfOk result
        (λ r. says.record_said (says.said_members (members_view members.now.items)) ≡ Ok (restricted_term r)) }
    ensures refused { IfErr result
        (IsRefusal (says.record_said (says.said_members (members_view members.now.items)))) }
{
    let mut pairs: Vec<(RcStr, RestrictedExpr)> = Vec::new(alloc);
    match read_members(alloc, members, &mut pairs) {
        Ok(()) => record(alloc, pairs),
        Err(error) => {
            drop(pairs);
            Err(error)
        }
    }
}

fn record(alloc: Global, pairs: Vec<(RcStr, RestrictedExpr)>) -> Result<RestrictedExpr, JsonError>
    ensures said { IfOk result (λ r. says.record_of_pairs (pairs_said pairs.items) ≡ Ok (restricted_term r)) }
    ensures refused { IfErr result (IsRefusal (says.record_of_pairs (pairs_said pairs.items))) }
{
    match RestrictedExpr::record(alloc, pairs) {
        Ok(record) => Ok(record),
        Err(error) => Err(refuse_record(alloc, error)),
    }
}

// Why there is no record of these pairs.
#[cold]
fn refuse_record(alloc: Global, error: ExpressionConstructionError) -> JsonError
    ensures { IsUnrecorded error result }
{
    match error {
        ExpressionConstructionError::DuplicateKey { key, context: _ } => {
            refuse_repeated_key(alloc, key.as_str())
        }
        ExpressionConstructionError::Memory(error) => JsonError::Memory(error),
    }
}

fn refuse_repeated_key(alloc: Global, key: &str) -> JsonError
    ensures { IsRefusedAt (at_key key.now ∷ []) reasons.RepeatedKey result }
{
    JsonError::refusal(alloc, RefusalReason::RepeatedKey).under_key(alloc, key)
}

// Puts the expression behind those that are there.
fn put(expr: RestrictedExpr, elements: &mut Vec<RestrictedExpr>) -> Result<(), JsonError>
    ensures said { OnOk result (map restricted_term elements.new.items ≡
        map restricted_term elements.old.items ++ restricted_term expr ∷ []) }
    ensures memory { IfErr result IsMemory }
{
    match elements.push(expr) {
        Ok(()) => Ok(()),
        Err(failed) => Err(JsonError::from(failed)),
    }
}

// Puts the expressions of the members behind those that are there, under their keys.
#[cycle(values)]
pub(crate) fn read_members<'a>(
    alloc: Global,
    members: &Vec<(&'a str, Value<'a>)>,
    pairs: &mut Vec<(RcStr, RestrictedExpr)>,
) -> Result<(), JsonError>
    requires { pairs.old.items ≡ [] }
    ensures said { OnOk result
        (says.said_members (members_view members.now.items) ≡ Ok (pairs_said pairs.new.items)) }
    ensures refused { IfErr result (IsRefusal (says.said_members (members_view members.now.items))) }
{
    'members: for member in members {
        read_member(alloc, member.0, &member.1, pairs)?;
    }
    Ok(())
}

#[cycle(values)]
fn read_member(
    alloc: Global,
    key: &str,
    value: &Value<'_>,
    pairs: &mut Vec<(RcStr, RestrictedExpr)>,
) -> Result<(), JsonError>
    ensures said { OnOk result (IsOneMore (pairs_said pairs.old.items)
        (says.member_said key.now (says.said (value_view value.now))) (pairs_said pairs.new.items)) }
    ensures refused { IfErr result (IsRefusal (says.member_said key.now (says.said (value_view value.now)))) }
{
    if is_reserved_key(key) {
        let error = JsonError::refusal(alloc, RefusalReason::ReservedKey);
        return Err(error.under_key(alloc, key));
    }
    match restricted_expr_from_json_value(alloc, value) {
        Ok(expr) => put_pair(alloc, key, expr, pairs),
        Err(error) => Err(error.under_key(alloc, key)),
    }
}

fn put_pair(
    alloc: Global,
    key: &str,
    expr: RestrictedExpr,
    pairs: &mut Vec<(RcStr, RestrictedExpr)>,
) -> Result<(), JsonError>
    ensures said { OnOk result
        (pairs_said pairs.new.items ≡ pairs_said pairs.old.items ++ (key.now, restricted_term expr) ∷ []) }
    ensures memory { IfErr result IsMemory }
{
    match RcStr::from_str(alloc, key) {
        Ok(key) => match pairs.push((key, expr)) {
            Ok(()) => Ok(()),
            Err(failed) => Err(JsonError::from(failed)),
        },
        Err(error) => {
            drop(expr);
            Err(JsonError::Memory(error))
        }
    }
}

#[cycle(values)]
fn read_call(alloc: Global, call: &Value<'_>) -> Result<RestrictedExpr, JsonError>
    ensures said { IfOk result
        (λ r. under (at_key (codes "__extn")) (says.said_call (value_view call.now)) ≡ Ok (restricted_term r)) }
    ensures refused { IfErr result
        (IsRefusal (under (at_key (codes "__extn")) (says.said_call (value_view call.now)))) }
{
    match call_shape(call) {
        Some(shape) => match read_shape(alloc, shape) {
            Ok(call) => Ok(call),
            Err(error) => Err(error.under_key(alloc, "__extn")),
        },
        None => Err(JsonError::refusal(alloc, RefusalReason::NotACall).under_key(alloc, "__extn")),
    }
}

#[cycle(values)]
fn read_shape(alloc: Global, shape: CallShape<'_, '_>) -> Result<RestrictedExpr, JsonError>
    ensures said { IfOk result (λ r. shape_said (shapes.parts_view shape.entry) ≡ Ok (restricted_term r)) }
    ensures refused { IfErr result (IsRefusal (shape_said (shapes.parts_view shape.entry))) }
{
    match shape.function.as_str() {
        Some(function) => read_called(alloc, function, shape.key, shape.argument),
        None => Err(JsonError::refusal(alloc, RefusalReason::NotACall)),
    }
}

#[cycle(values)]
fn read_called(
    alloc: Global,
    function: &str,
    key: &str,
    argument: &Value<'_>,
) -> Result<RestrictedExpr, JsonError>
    ensures said { IfOk result
        (λ r. and_then (says.called function.now) (arguments_of key.now (value_view argument.now)) ≡
        Ok (restricted_term r)) }
    ensures refused { IfErr result
        (IsRefusal (and_then (says.called function.now) (arguments_of key.now (value_view argument.now)))) }
{
    let mut args: Vec<RestrictedExpr> = Vec::new(alloc);
    match read_arguments(alloc, key, argument, &mut args) {
        Ok(()) => make_call(alloc, function, args),
        Err(error) => {
            drop(args);
            Err(error)
        }
    }
}

// Puts the arguments at `arg` or `args` behind those that are there.
#[cycle(values)]
fn read_arguments(
    alloc: Global,
    key: &str,
    argument: &Value<'_>,
    args: &mut Vec<RestrictedExpr>,
) -> Result<(), JsonError>
    requires { args.old.items ≡ [] }
    ensures said { OnOk result
        (arguments_of key.now (value_view argument.now) ≡ Ok (map restricted_term args.new.items)) }
    ensures refused { IfErr result (IsRefusal (arguments_of key.now (value_view argument.now))) }
{
    if key == "arg" {
        read_argument(alloc, argument, args)
    } else if key == "args" {
        match read_list(alloc, argument, args) {
            Ok(()) => Ok(()),
            Err(error) => Err(error.under_key(alloc, key)),
        }
    } else {
        Err(JsonError::refusal(alloc, RefusalReason::NotACall))
    }
}

#[cycle(values)]
fn read_argument(
    alloc: Global,
    argument: &Value<'_>,
    args: &mut Vec<RestrictedExpr>,
) -> Result<(), JsonError>
    requires { args.old.items ≡ [] }
    ensures said { OnOk result
        (made_of says.one (under (at_key (codes "arg")) (says.said (value_view argument.now))) ≡
        Ok (map restricted_term args.new.items)) }
    ensures refused { IfErr result
        (IsRefusal (made_of says.one (under (at_key (codes "arg")) (says.said (value_view argument.now))))) }
{
    match restricted_expr_from_json_value(alloc, argument) {
        Ok(argument) => put(argument, args),
        Err(error) => Err(error.under_key(alloc, "arg")),
    }
}

#[cycle(values)]
fn read_list(
    alloc: Global,
    list: &Value<'_>,
    args: &mut Vec<RestrictedExpr>,
) -> Result<(), JsonError>
    requires { args.old.items ≡ [] }
    ensures said { OnOk result (says.said_list (value_view list.now) ≡ Ok (map restricted_term args.new.items)) }
    ensures refused { IfErr result (IsRefusal (says.said_list (value_view list.now))) }
{
    match array(list) {
        Some(items) => read_items(alloc, items, args),
        None => Err(JsonError::refusal(alloc, RefusalReason::NotAnArray)),
    }
}
