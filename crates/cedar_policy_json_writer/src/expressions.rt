#![tactic(auto, using(cedar_expressions::proofs::Levels::levels, cedar_json_writer::proofs::Trees::trees))]
//! Expressions.
ghost use Rattle.std.specs.Prelude.{◌≡◌, IfOk};
ghost use Rattle.std.specs.Rc.{rc_str_bytes};
ghost use Rattle.json.specs.Json.{array};
ghost use Rattle.cedar_model.specs.Agreement.{no_slots};
ghost use Rattle.cedar_model.specs.Terms.{if_then_else, like, is_of_type, record_of};
ghost use Rattle.cedar_names.specs.Names.{type_text};
ghost use Rattle.cedar_names.specs.Leaves.{pattern_view};
ghost use Rattle.cedar_expressions.specs.View.{view, terms_view, fields_view, extended_has_of};
ghost use Rattle.cedar_layers.specs.Policies.{slots_view};
ghost use Rattle.cedar_json_writer.specs.Trees.{json_view};
ghost use Rattle.cedar_json_writer.specs.Written.{sole_member};
ghost use Rattle.cedar_policy_json_writer.specs.Expressions.{expression_json, items_json, one_operand, two_operands};
ghost use Rattle.cedar_policy_json_writer.specs.Expressions.{attribute_json};

use crate::leaves::{
    path_to_json, pattern_to_json, slot_to_json, unknown_to_json, value_to_json, variable_to_json,
};
use crate::names::{binary_name, unary_name};
use crate::objects::{object_of, object_of_three, operation, text_of};
use cedar_expressions::{Expr, ExprKind};
use cedar_json_writer::{JsonValue, put_item, put_member};
use cedar_names::{EntityType, FirstRest, Pattern, SlotEnv};
use std::alloc::{AllocError, Global};
use std::collections::BTreeMap;
use std::rc::RcStr;

/// The expression in Cedar's JSON of policies. `!=`, `>` and `>=` are negations, as an expression has them. Refuses
/// only if out of memory.
pub fn expression_to_json(alloc: Global, expr: &Expr) -> Result<JsonValue, AllocError>
    ensures { IfOk result (λ j. json_view j ≡ expression_json no_slots (view expr.now)) }
{
    let slots = SlotEnv::new(alloc);
    linked_to_json(alloc, &slots, expr)
}

/// The expression, with these entities for its slots.
#[cycle(expression)]
pub(crate) fn linked_to_json(
    alloc: Global,
    slots: &SlotEnv,
    expr: &Expr,
) -> Result<JsonValue, AllocError>
    ensures { IfOk result (λ j. json_view j ≡ expression_json (slots_view slots.now) (view expr.now)) }
{
    match expr.expr_kind() {
        ExprKind::Lit(literal) => value_to_json(alloc, literal),
        ExprKind::Var(var) => variable_to_json(alloc, *var),
        ExprKind::Slot(slot) => slot_to_json(alloc, slots, *slot),
        ExprKind::Unknown(unknown) => unknown_to_json(alloc, unknown),
        ExprKind::If {
            test_expr,
            then_expr,
            else_expr,
        } => if_to_json(alloc, slots, test_expr, then_expr, else_expr),
        ExprKind::And { left, right } => two_to_json(alloc, slots, "&&", left, right),
        ExprKind::Or { left, right } => two_to_json(alloc, slots, "||", left, right),
        ExprKind::UnaryApp { op, arg } => one_to_json(alloc, slots, unary_name(*op), arg),
        ExprKind::BinaryApp { op, arg1, arg2 } => {
            two_to_json(alloc, slots, binary_name(*op), arg1, arg2)
        }
        ExprKind::ExtensionFunctionApp { fn_name, args } => {
            list_to_json(alloc, slots, fn_name.text().as_str(), args)
        }
        ExprKind::GetAttr { expr, attr } => attribute_to_json(alloc, slots, ".", expr, attr),
        ExprKind::HasAttr { expr, attr } => attribute_to_json(alloc, slots, "has", expr, attr),
        ExprKind::ExtHasAttr { expr, attrs } => has_to_json(alloc, slots, expr, attrs),
        ExprKind::Like { expr, pattern } => like_to_json(alloc, slots, expr, pattern),
        ExprKind::Is { expr, entity_type } => is_to_json(alloc, slots, expr, entity_type),
        ExprKind::Set(parts) => list_to_json(alloc, slots, "Set", parts),
        ExprKind::Record(pairs) => record_to_json(alloc, slots, pairs),
    }
}

#[cycle(expression)]
fn if_to_json(
    alloc: Global,
    slots: &SlotEnv,
    test_expr: &Expr,
    then_expr: &Expr,
    else_expr: &Expr,
) -> Result<JsonValue, AllocError>
    ensures { IfOk result (λ j. json_view j ≡ expression_json (slots_view slots.now)
        (if_then_else (view test_expr.now) (view then_expr.now) (view else_expr.now))) }
{
    let test = linked_to_json(alloc, slots, test_expr)?;
    let then = linked_to_json(alloc, slots, then_expr)?;
    let other = linked_to_json(alloc, slots, else_expr)?;
    let parts = object_of_three(alloc, "if", test, "then", then, "else", other)?;
    object_of(alloc, "if-then-else", parts)
}

// An operator on one part.
#[cycle(expression)]
fn one_to_json(
    alloc: Global,
    slots: &SlotEnv,
    operator: &str,
    arg: &Expr,
) -> Result<JsonValue, AllocError>
    ensures { IfOk result (λ j. json_view j
        ≡ one_operand operator.now (expression_json (slots_view slots.now) (view arg.now))) }
{
    let arg = linked_to_json(alloc, slots, arg)?;
    let operand = object_of(alloc, "arg", arg)?;
    object_of(alloc, operator, operand)
}

// An operator on two parts.
#[cycle(expression)]
fn two_to_json(
    alloc: Global,
    slots: &SlotEnv,
    operator: &str,
    left: &Expr,
    right: &Expr,
) -> Result<JsonValue, AllocError>
    ensures { IfOk result (λ j. json_view j
        ≡ two_operands operator.now (expression_json (slots_view slots.now) (view left.now))
        (expression_json (slots_view slots.now) (view right.now))) }
{
    let left = linked_to_json(alloc, slots, left)?;
    let right = linked_to_json(alloc, slots, right)?;
    operation(alloc, operator, left, "right", right)
}

// `.` and `has`, with an attribute.
#[cycle(expression)]
fn attribute_to_json(
    alloc: Global,
    slots: &SlotEnv,
    operator: &str,
    expr: &Expr,
    attr: &RcStr,
) -> Result<JsonValue, AllocError>
    ensures { IfOk result (λ j. json_view j ≡ attribute_json operator.now
        (expression_json (slots_view slots.now) (view expr.now)) (rc_str_bytes attr.now)) }
{
    let left = linked_to_json(alloc, slots, expr)?;
    let attr = text_of(attr)?;
    operation(alloc, operator, left, "attr", attr)
}

// `has` with several attributes, one behind the other.
#[cycle(expression)]
fn has_to_json(
    alloc: Global,
    slots: &SlotEnv,
    expr: &Expr,
    attrs: &FirstRest<RcStr>,
) -> Result<JsonValue, AllocError>
    ensures { IfOk result (λ j. json_view j
        ≡ expression_json (slots_view slots.now) (extended_has_of (view expr.now) attrs.now)) }
{
    let left = linked_to_json(alloc, slots, expr)?;
    let attrs = path_to_json(alloc, attrs)?;
    operation(alloc, "has", left, "attr", attrs)
}

#[cycle(expression)]
fn like_to_json(
    alloc: Global,
    slots: &SlotEnv,
    expr: &Expr,
    pattern: &Pattern,
) -> Result<JsonValue, AllocError>
    ensures { IfOk result (λ j. json_view j
        ≡ expression_json (slots_view slots.now) (like (view expr.now) (pattern_view pattern.now))) }
{
    let left = linked_to_json(alloc, slots, expr)?;
    let pattern = pattern_to_json(alloc, pattern)?;
    operation(alloc, "like", left, "pattern", pattern)
}

#[cycle(expression)]
fn is_to_json(
    alloc: Global,
    slots: &SlotEnv,
    expr: &Expr,
    entity_type: &EntityType,
) -> Result<JsonValue, AllocError>
    ensures { IfOk result (λ j. json_view j
        ≡ expression_json (slots_view slots.now) (is_of_type (view expr.now) (type_text entity_type.now))) }
{
    let left = linked_to_json(alloc, slots, expr)?;
    let ty = text_of(entity_type.text())?;
    operation(alloc, "is", left, "entity_type", ty)
}

// The parts in order, under this name: a set, or the arguments of a function.
#[tactic(auto, using(crate::proofs::Parts::parts, cedar_json_writer::proofs::Trees::trees))]
#[cycle(expression)]
fn list_to_json(
    alloc: Global,
    slots: &SlotEnv,
    name: &str,
    parts: &[Expr],
) -> Result<JsonValue, AllocError>
    ensures { IfOk result (λ j. json_view j
        ≡ sole_member name.now (array (items_json (slots_view slots.now) (terms_view parts.now)))) }
{
    let mut items: Vec<JsonValue> = Vec::new(alloc);
    'parts: for part in parts {
        let item = linked_to_json(alloc, slots, part)?;
        put_item(item, &mut items)?;
    }
    object_of(alloc, name, JsonValue::Array(items))
}

#[tactic(auto, using(crate::proofs::Parts::parts, cedar_json_writer::proofs::Trees::trees))]
#[cycle(expression)]
fn record_to_json(
    alloc: Global,
    slots: &SlotEnv,
    pairs: &BTreeMap<RcStr, Expr>,
) -> Result<JsonValue, AllocError>
    ensures { IfOk result (λ j. json_view j
        ≡ expression_json (slots_view slots.now) (record_of (fields_view pairs.now.entries))) }
{
    let mut members: Vec<(RcStr, JsonValue)> = Vec::new(alloc);
    'pairs: for (key, part) in pairs.iter() {
        let member = linked_to_json(alloc, slots, part)?;
        put_member(alloc, key.as_str(), member, &mut members)?;
    }
    object_of(alloc, "Record", JsonValue::Object(members))
}
