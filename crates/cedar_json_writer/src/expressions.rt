#![tactic(auto, using(cedar_expressions::proofs::Levels::levels, crate::proofs::Trees::trees))]
//! Expressions and values.
ghost use Rattle.std.specs.Prelude.{◌≡◌, true, Ok, IfOk, OnOk};
ghost use Rattle.std.specs.Rc.{rc_str_bytes};
ghost use Rattle.cedar_model.specs.Outcomes.{is_long};
ghost use Rattle.cedar_model.specs.Terms.{long_literal, record_of};
ghost use Rattle.cedar_model.specs.Values.{expression_of};
ghost use Rattle.cedar_names.specs.Names.{uid_name};
ghost use Rattle.cedar_names.specs.Leaves.{literal_view};
ghost use Rattle.cedar_expressions.specs.View.{view, terms_view, fields_view};
ghost use Rattle.cedar_json_reader.specs.Said.{said};
ghost use Rattle.cedar_json_writer.specs.ReadBack.{HasJson, LiteralIsKept, IsKept, AreKept};
ghost use Rattle.cedar_json_writer.specs.Trees.{json_view, items_view, members_view};
ghost use Rattle.cedar_json_writer.specs.Written as writes;

use crate::tree::{JsonValue, put_item, put_member, text_to_json};
use cedar_expressions::{Expr, ExprKind};
use cedar_names::{EntityUID, Literal};
use cedar_values::Value;
use std::alloc::{AllocError, Global};
use std::collections::BTreeMap;
use std::rc::RcStr;

/// The value in Cedar's JSON, which reads back as the expression of the value where types and functions have names, no
/// function is named `unknown` and no attribute has a reserved key. Refuses only if out of memory.
pub fn value_to_json(alloc: Global, value: &Value) -> Result<JsonValue, AllocError>
    ensures written { IfOk result (λ j. json_view j ≡ writes.written (expression_of value.now.what)) }
    ensures reads_back { IfOk result (λ j. HasJson (expression_of value.now.what)
        → said (json_view j) ≡ Ok (expression_of value.now.what)) }
{
    let expr: Expr = value.to_expr(alloc)?;
    let json = expr_to_json(alloc, &expr);
    drop(expr);
    json
}

/// The restricted expression in Cedar's JSON, which reads back as the same expression where types and functions have
/// names, no function is named `unknown`, no attribute has a reserved key and no unknown an annotation. What is no
/// restricted expression, at any depth, is `null`. Refuses only if out of memory.
pub fn expr_to_json(alloc: Global, expr: &Expr) -> Result<JsonValue, AllocError>
    ensures written { IfOk result (λ j. json_view j ≡ writes.written (view expr.now)) }
    ensures reads_back { IfOk result (λ j. HasJson (view expr.now) → said (json_view j) ≡ Ok (view expr.now)) }
{
    restricted_to_json(alloc, expr)
}

/// The record of these restricted expressions under their keys, in Cedar's JSON, which reads back as `expr_to_json`
/// says. Refuses only if out of memory.
pub fn record_to_json(alloc: Global, pairs: &BTreeMap<RcStr, Expr>) -> Result<JsonValue, AllocError>
    ensures written { IfOk result (λ j. json_view j ≡ writes.written_record (fields_view pairs.now.entries)) }
    ensures reads_back { IfOk result (λ j. HasJson (record_of (fields_view pairs.now.entries))
        → said (json_view j) ≡ Ok (record_of (fields_view pairs.now.entries))) }
{
    pairs_to_json(alloc, pairs)
}

// The expression in JSON; and what its type keeps, at any depth.
#[cycle(written)]
fn restricted_to_json(alloc: Global, expr: &Expr) -> Result<JsonValue, AllocError>
    ensures written { IfOk result (λ j. json_view j ≡ writes.written (view expr.now)) }
    ensures kept { OnOk result (IsKept (view expr.now)) }
{
    match expr.expr_kind() {
        ExprKind::Lit(literal) => literal_to_json(alloc, literal),
        ExprKind::Unknown(unknown) => unknown_to_json(alloc, &unknown.name),
        ExprKind::Set(parts) => set_to_json(alloc, parts),
        ExprKind::Record(pairs) => pairs_to_json(alloc, pairs),
        ExprKind::ExtensionFunctionApp { fn_name, args } => {
            call_to_json(alloc, fn_name.text(), args)
        }
        ExprKind::Var(_) => Ok(JsonValue::Null),
        ExprKind::Slot(_) => Ok(JsonValue::Null),
        ExprKind::If {
            test_expr: _,
            then_expr: _,
            else_expr: _,
        } => Ok(JsonValue::Null),
        ExprKind::And { left: _, right: _ } => Ok(JsonValue::Null),
        ExprKind::Or { left: _, right: _ } => Ok(JsonValue::Null),
        ExprKind::UnaryApp { op: _, arg: _ } => Ok(JsonValue::Null),
        ExprKind::BinaryApp {
            op: _,
            arg1: _,
            arg2: _,
        } => Ok(JsonValue::Null),
        ExprKind::GetAttr { expr: _, attr: _ } => Ok(JsonValue::Null),
        ExprKind::HasAttr { expr: _, attr: _ } => Ok(JsonValue::Null),
        ExprKind::ExtHasAttr { expr: _, attrs: _ } => Ok(JsonValue::Null),
        ExprKind::Like {
            expr: _,
            pattern: _,
        } => Ok(JsonValue::Null),
        ExprKind::Is {
            expr: _,
            entity_type: _,
        } => Ok(JsonValue::Null),
    }
}

fn literal_to_json(alloc: Global, literal: &Literal) -> Result<JsonValue, AllocError>
    ensures kept { OnOk result (LiteralIsKept (literal_view literal.now)) }
    ensures written { IfOk result (λ j. json_view j ≡ writes.written_literal (literal_view literal.now)) }
{
    match literal {
        Literal::Bool(flag) => Ok(JsonValue::Bool(*flag)),
        Literal::Long(long) => Ok(long_of(*long)),
        Literal::String(text) => text_of(text),
        Literal::EntityUID(uid) => entity_to_json(alloc, uid),
    }
}

fn long_of(long: i64) -> JsonValue
    ensures kept { is_long long ≡ true }
    ensures written { json_view result ≡ writes.written_literal (long_literal long) }
{
    JsonValue::Long(long)
}

fn text_of(text: &RcStr) -> Result<JsonValue, AllocError>
    ensures { IfOk result (λ j. json_view j ≡ writes.written_text (rc_str_bytes text.now)) }
{
    let text: RcStr = text.clone()?;
    Ok(JsonValue::String(text))
}

fn entity_to_json(alloc: Global, uid: &EntityUID) -> Result<JsonValue, AllocError>
    ensures { IfOk result (λ j. json_view j ≡ writes.written_entity (uid_name uid.now)) }
{
    let uid = uid_to_json(alloc, uid)?;
    object_of(alloc, "__entity", uid)
}

fn uid_to_json(alloc: Global, uid: &EntityUID) -> Result<JsonValue, AllocError>
    ensures { IfOk result (λ j. json_view j ≡ writes.written_uid (uid_name uid.now)) }
{
    let ty = text_of(uid.entity_type().text())?;
    let id = text_of(uid.eid())?;
    object_of_two(alloc, "type", ty, "id", id)
}

// The object of this member alone.
fn object_of(alloc: Global, key: &str, value: JsonValue) -> Result<JsonValue, AllocError>
    ensures { IfOk result (λ j. json_view j ≡ writes.sole_member key.now (json_view value)) }
{
    let mut members: Vec<(RcStr, JsonValue)> = Vec::new(alloc);
    put_member(alloc, key, value, &mut members)?;
    Ok(JsonValue::Object(members))
}

// The object of these two members.
fn object_of_two(
    alloc: Global,
    first_key: &str,
    first: JsonValue,
    second_key: &str,
    second: JsonValue,
) -> Result<JsonValue, AllocError>
    ensures { IfOk result (λ j. json_view j
        ≡ writes.two_members first_key.now (json_view first) second_key.now (json_view second)) }
{
    let mut members: Vec<(RcStr, JsonValue)> = Vec::new(alloc);
    put_member(alloc, first_key, first, &mut members)?;
    put_member(alloc, second_key, second, &mut members)?;
    Ok(JsonValue::Object(members))
}

fn unknown_to_json(alloc: Global, name: &RcStr) -> Result<JsonValue, AllocError>
    ensures { IfOk result (λ j. json_view j ≡ writes.written_unknown (rc_str_bytes name.now)) }
{
    let function = text_to_json(alloc, "unknown")?;
    let name = text_of(name)?;
    call_object(alloc, function, "arg", name)
}

// The call of the function on what stands at the key.
fn call_object(
    alloc: Global,
    function: JsonValue,
    key: &str,
    argument: JsonValue,
) -> Result<JsonValue, AllocError>
    ensures { IfOk result (λ j. json_view j
        ≡ writes.written_call_of (json_view function) key.now (json_view argument)) }
{
    let call = object_of_two(alloc, "fn", function, key, argument)?;
    object_of(alloc, "__extn", call)
}

#[cycle(written)]
fn call_to_json(alloc: Global, name: &RcStr, args: &[Expr]) -> Result<JsonValue, AllocError>
    ensures kept { OnOk result (AreKept (terms_view args.now)) }
    ensures written { IfOk result (λ j. json_view j
        ≡ writes.written_call (rc_str_bytes name.now) (writes.written_items (terms_view args.now))) }
{
    let function = text_of(name)?;
    if args.len() == 1 {
        let arg = &args[0];
        let argument = restricted_to_json(alloc, arg)?;
        call_object(alloc, function, "arg", argument)
    } else {
        let arguments = set_to_json(alloc, args)?;
        call_object(alloc, function, "args", arguments)
    }
}

#[cycle(written)]
fn set_to_json(alloc: Global, parts: &[Expr]) -> Result<JsonValue, AllocError>
    ensures kept { OnOk result (AreKept (terms_view parts.now)) }
    ensures written { IfOk result (λ j. json_view j ≡ writes.written_set (terms_view parts.now)) }
{
    let mut items: Vec<JsonValue> = Vec::new(alloc);
    'parts: for part in parts {
        let item = restricted_to_json(alloc, part)?;
        put_item(item, &mut items)?;
    }
    Ok(JsonValue::Array(items))
}

#[cycle(written)]
fn pairs_to_json(alloc: Global, pairs: &BTreeMap<RcStr, Expr>) -> Result<JsonValue, AllocError>
    ensures kept { OnOk result (IsKept (record_of (fields_view pairs.now.entries))) }
    ensures written { IfOk result (λ j. json_view j ≡ writes.written_record (fields_view pairs.now.entries)) }
{
    let mut members: Vec<(RcStr, JsonValue)> = Vec::new(alloc);
    'pairs: for (key, part) in pairs.iter() {
        let member = restricted_to_json(alloc, part)?;
        put_member(alloc, key.as_str(), member, &mut members)?;
    }
    Ok(JsonValue::Object(members))
}
