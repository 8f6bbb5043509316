#![tactic(auto, using(cedar_expressions::proofs::Levels::levels))]
//! How an expression is written, part by part.
ghost use Rattle.std.specs.Prelude.{◌≡◌, true, false, ◌∷◌, ◌++◌, drop, codes, length, ◌≤◌, ◌<◌};
ghost use Rattle.std.specs.Rc.{rc_str_bytes};
ghost use Rattle.std.specs.Fmt.{WritesOnOk};
ghost use Rattle.cedar_model.specs.Terms.{if_then_else, unary, binary, call, get_attribute, has_attribute};
ghost use Rattle.cedar_model.specs.Terms.{like, is_of_type, set_of, record_of};
ghost use Rattle.cedar_names.specs.Names.{name_text, type_text};
ghost use Rattle.cedar_names.specs.Leaves.{slot_view, unary_view, binary_view, pattern_view};
ghost use Rattle.cedar_names.specs.Texts.{separator};
ghost use Rattle.cedar_expressions.specs.View.{view, terms_view, fields_view, extended_has_of};
ghost use Rattle.cedar_layers.specs.Policies.{slots_view};
ghost use Rattle.cedar_text_printer.specs.Texts as texts;
ghost use Rattle.cedar_text_printer.specs.Names.{key_text};

use crate::levels::{fits, left_level, lowest_level, right_level};
use crate::methods::is_method;
use crate::names::{
    write_attribute, write_entity, write_has, write_key, write_like, write_path, write_unknown,
    write_value,
};
use cedar_expressions::{Expr, ExprKind};
use cedar_names::shared::{after_part, before_part, between_parts, is_infix, separator, write_is};
use cedar_names::{BinaryOp, EntityType, FirstRest, Name, Pattern, SlotEnv, SlotId, UnaryOp};
use std::collections::BTreeMap;
use std::fmt;
use std::fmt::Display;
use std::rc::RcStr;

/// Writes an expression, with these entities for its slots.
#[cycle(write)]
pub(crate) fn write_expr<W: fmt::Write>(
    expr: &Expr,
    slots: &SlotEnv,
    f: &mut fmt::Formatter<W>,
) -> fmt::Result
    ensures { WritesOnOk W.write_str_gives f.old result (texts.written (slots_view slots.now) (view expr.now)) f.new }
{
    match expr.expr_kind() {
        ExprKind::Lit(literal) => write_value(literal, f),
        ExprKind::Var(var) => var.fmt(f),
        ExprKind::Slot(slot) => write_slot(*slot, slots, f),
        ExprKind::Unknown(unknown) => write_unknown(&unknown.name, f),
        ExprKind::If {
            test_expr,
            then_expr,
            else_expr,
        } => write_if(test_expr, then_expr, else_expr, slots, f),
        ExprKind::And { left, right } => write_pair(left, 6, " && ", right, 5, slots, f),
        ExprKind::Or { left, right } => write_pair(left, 7, " || ", right, 6, slots, f),
        ExprKind::UnaryApp { op, arg } => write_unary(*op, arg, slots, f),
        ExprKind::BinaryApp { op, arg1, arg2 } => write_binary(*op, arg1, arg2, slots, f),
        ExprKind::ExtensionFunctionApp { fn_name, args } => write_call(fn_name, args, slots, f),
        ExprKind::GetAttr { expr, attr } => write_get(expr, attr, slots, f),
        ExprKind::HasAttr { expr, attr } => write_test(expr, attr, slots, f),
        ExprKind::ExtHasAttr { expr, attrs } => write_path_test(expr, attrs, slots, f),
        ExprKind::Like { expr, pattern } => write_match(expr, pattern, slots, f),
        ExprKind::Is { expr, entity_type } => write_type_test(expr, entity_type, slots, f),
        ExprKind::Set(parts) => write_set(parts, slots, f),
        ExprKind::Record(pairs) => write_record(pairs, slots, f),
    }
}

/// Writes the entity that the slot is linked to, or the slot itself.
fn write_slot<W: fmt::Write>(
    slot: SlotId,
    slots: &SlotEnv,
    f: &mut fmt::Formatter<W>,
) -> fmt::Result
    ensures { WritesOnOk W.write_str_gives f.old result
        (texts.linked_text (slot_view slot) (slots_view slots.now (slot_view slot))) f.new }
{
    match slots.get(&slot) {
        Some(uid) => write_entity(uid, f),
        None => slot.fmt(f),
    }
}

/// Writes a part, in brackets where its level is none of these.
#[cycle(write)]
fn write_part<W: fmt::Write>(
    part: &Expr,
    low: u8,
    high: u8,
    slots: &SlotEnv,
    f: &mut fmt::Formatter<W>,
) -> fmt::Result
    ensures { WritesOnOk W.write_str_gives f.old result
        (texts.written_part (slots_view slots.now) low high (view part.now)) f.new }
{
    if fits(low, high, part) {
        write_expr(part, slots, f)
    } else {
        write_bracketed(part, slots, f)
    }
}

#[cycle(write)]
fn write_bracketed<W: fmt::Write>(
    part: &Expr,
    slots: &SlotEnv,
    f: &mut fmt::Formatter<W>,
) -> fmt::Result
    ensures { WritesOnOk W.write_str_gives f.old result
        (texts.bracketed false (texts.written (slots_view slots.now) (view part.now))) f.new }
{
    f.write_str("(")?;
    write_expr(part, slots, f)?;
    f.write_str(")")
}

#[cycle(write)]
fn write_if<W: fmt::Write>(
    test_expr: &Expr,
    then_expr: &Expr,
    else_expr: &Expr,
    slots: &SlotEnv,
    f: &mut fmt::Formatter<W>,
) -> fmt::Result
    ensures { WritesOnOk W.write_str_gives f.old result
        (texts.written (slots_view slots.now)
        (if_then_else (view test_expr.now) (view then_expr.now) (view else_expr.now))) f.new }
{
    f.write_str("if ")?;
    write_expr(test_expr, slots, f)?;
    f.write_str(" then ")?;
    write_expr(then_expr, slots, f)?;
    f.write_str(" else ")?;
    write_expr(else_expr, slots, f)
}

/// Writes two parts, up to these levels, with a text between them.
#[cycle(write)]
fn write_pair<W: fmt::Write>(
    left: &Expr,
    left_level: u8,
    between: &str,
    right: &Expr,
    right_level: u8,
    slots: &SlotEnv,
    f: &mut fmt::Formatter<W>,
) -> fmt::Result
    ensures { WritesOnOk W.write_str_gives f.old result
        (texts.written_part (slots_view slots.now) 0 left_level (view left.now)
        ++ (between.now ++ texts.written_part (slots_view slots.now) 0 right_level (view right.now))) f.new }
{
    write_part(left, 0, left_level, slots, f)?;
    f.write_str(between)?;
    write_part(right, 0, right_level, slots, f)
}

#[cycle(write)]
fn write_unary<W: fmt::Write>(
    op: UnaryOp,
    arg: &Expr,
    slots: &SlotEnv,
    f: &mut fmt::Formatter<W>,
) -> fmt::Result
    ensures { WritesOnOk W.write_str_gives f.old result
        (texts.written (slots_view slots.now) (unary (unary_view op) (view arg.now))) f.new }
{
    f.write_str(before_part(op))?;
    write_part(arg, lowest_level(op), 1, slots, f)?;
    f.write_str(after_part(op))
}

#[cycle(write)]
fn write_binary<W: fmt::Write>(
    op: BinaryOp,
    left: &Expr,
    right: &Expr,
    slots: &SlotEnv,
    f: &mut fmt::Formatter<W>,
) -> fmt::Result
    ensures { WritesOnOk W.write_str_gives f.old result
        (texts.written (slots_view slots.now) (binary (binary_view op) (view left.now) (view right.now))) f.new }
{
    write_pair(
        left,
        left_level(op),
        between_parts(op),
        right,
        right_level(op),
        slots,
        f,
    )?;
    f.write_str(after_parts(op))
}

/// What stands behind the second part of an operator.
fn after_parts(op: BinaryOp) -> &'static str
    ensures { result.now ≡ texts.after_parts (binary_view op) }
{
    if is_infix(op) { "" } else { ")" }
}

/// Writes a call: of a method on its first argument, where it has one.
#[cycle(write)]
fn write_call<W: fmt::Write>(
    name: &Name,
    args: &[Expr],
    slots: &SlotEnv,
    f: &mut fmt::Formatter<W>,
) -> fmt::Result
    ensures { WritesOnOk W.write_str_gives f.old result
        (texts.written (slots_view slots.now) (call (name_text name.now) (terms_view args.now))) f.new }
{
    if args.len() > 0 && is_method(name.text().as_str()) {
        write_method(name, args, slots, f)
    } else {
        write_function(name, args, slots, f)
    }
}

#[cycle(write)]
fn write_method<W: fmt::Write>(
    name: &Name,
    args: &[Expr],
    slots: &SlotEnv,
    f: &mut fmt::Formatter<W>,
) -> fmt::Result
    requires { 0 < length args.now }
    ensures { WritesOnOk W.write_str_gives f.old result
        (texts.written_method (slots_view slots.now) (name_text name.now) (terms_view args.now)) f.new }
{
    write_part(&args[0], 0, 1, slots, f)?;
    f.write_str(".")?;
    name.fmt(f)?;
    f.write_str("(")?;
    write_parts(args, 1, slots, f)?;
    f.write_str(")")
}

#[cycle(write)]
fn write_function<W: fmt::Write>(
    name: &Name,
    args: &[Expr],
    slots: &SlotEnv,
    f: &mut fmt::Formatter<W>,
) -> fmt::Result
    ensures { WritesOnOk W.write_str_gives f.old result
        (name_text name.now ++ (codes "("
        ++ (texts.written_parts (slots_view slots.now) true (terms_view args.now) ++ codes ")"))) f.new }
{
    name.fmt(f)?;
    f.write_str("(")?;
    write_parts(args, 0, slots, f)?;
    f.write_str(")")
}

#[cycle(write)]
fn write_get<W: fmt::Write>(
    expr: &Expr,
    attr: &RcStr,
    slots: &SlotEnv,
    f: &mut fmt::Formatter<W>,
) -> fmt::Result
    ensures { WritesOnOk W.write_str_gives f.old result
        (texts.written (slots_view slots.now) (get_attribute (view expr.now) (rc_str_bytes attr.now))) f.new }
{
    write_part(expr, 0, 1, slots, f)?;
    write_attribute(attr, f)
}

#[cycle(write)]
fn write_test<W: fmt::Write>(
    expr: &Expr,
    attr: &RcStr,
    slots: &SlotEnv,
    f: &mut fmt::Formatter<W>,
) -> fmt::Result
    ensures { WritesOnOk W.write_str_gives f.old result
        (texts.written (slots_view slots.now) (has_attribute (view expr.now) (rc_str_bytes attr.now))) f.new }
{
    write_part(expr, 0, 4, slots, f)?;
    write_has(attr, f)
}

#[cycle(write)]
fn write_path_test<W: fmt::Write>(
    expr: &Expr,
    attrs: &FirstRest<RcStr>,
    slots: &SlotEnv,
    f: &mut fmt::Formatter<W>,
) -> fmt::Result
    ensures { WritesOnOk W.write_str_gives f.old result
        (texts.written (slots_view slots.now) (extended_has_of (view expr.now) attrs.now)) f.new }
{
    write_part(expr, 0, 4, slots, f)?;
    write_path(attrs, f)
}

#[cycle(write)]
fn write_match<W: fmt::Write>(
    expr: &Expr,
    pattern: &Pattern,
    slots: &SlotEnv,
    f: &mut fmt::Formatter<W>,
) -> fmt::Result
    ensures { WritesOnOk W.write_str_gives f.old result
        (texts.written (slots_view slots.now) (like (view expr.now) (pattern_view pattern.now))) f.new }
{
    write_part(expr, 0, 4, slots, f)?;
    write_like(pattern, f)
}

#[cycle(write)]
fn write_type_test<W: fmt::Write>(
    expr: &Expr,
    entity_type: &EntityType,
    slots: &SlotEnv,
    f: &mut fmt::Formatter<W>,
) -> fmt::Result
    ensures { WritesOnOk W.write_str_gives f.old result
        (texts.written (slots_view slots.now) (is_of_type (view expr.now) (type_text entity_type.now))) f.new }
{
    write_part(expr, 0, 4, slots, f)?;
    write_is(entity_type, f)
}

#[cycle(write)]
fn write_set<W: fmt::Write>(
    parts: &[Expr],
    slots: &SlotEnv,
    f: &mut fmt::Formatter<W>,
) -> fmt::Result
    ensures { WritesOnOk W.write_str_gives f.old result
        (texts.written (slots_view slots.now) (set_of (terms_view parts.now))) f.new }
{
    f.write_str("[")?;
    write_parts(parts, 0, slots, f)?;
    f.write_str("]")
}

#[cycle(write)]
fn write_record<W: fmt::Write>(
    pairs: &BTreeMap<RcStr, Expr>,
    slots: &SlotEnv,
    f: &mut fmt::Formatter<W>,
) -> fmt::Result
    ensures { WritesOnOk W.write_str_gives f.old result
        (texts.written (slots_view slots.now) (record_of (fields_view pairs.now.entries))) f.new }
{
    f.write_str("{")?;
    write_fields(pairs, slots, f)?;
    f.write_str("}")
}

/// Writes the parts from this one on, with `, ` between them.
#[cycle(write)]
fn write_parts<W: fmt::Write>(
    parts: &[Expr],
    from: usize,
    slots: &SlotEnv,
    f: &mut fmt::Formatter<W>,
) -> fmt::Result
    requires { from ≤ length parts.now }
    ensures { WritesOnOk W.write_str_gives f.old result
        (texts.written_parts (slots_view slots.now) true (terms_view (drop from parts.now))) f.new }
{
    let mut is_first = true;
    'parts: for i in from..parts.len() {
        write_next(&parts[i], is_first, slots, f)?;
        is_first = false;
    }
    Ok(())
}

/// Writes parts under their keys, with `, ` between them.
#[cycle(write)]
fn write_fields<W: fmt::Write>(
    pairs: &BTreeMap<RcStr, Expr>,
    slots: &SlotEnv,
    f: &mut fmt::Formatter<W>,
) -> fmt::Result
    ensures { WritesOnOk W.write_str_gives f.old result
        (texts.written_fields (slots_view slots.now) true (fields_view pairs.now.entries)) f.new }
{
    let mut is_first = true;
    'fields: for (key, part) in pairs.iter() {
        write_next_field(key, part, is_first, slots, f)?;
        is_first = false;
    }
    Ok(())
}

#[cycle(write)]
fn write_next<W: fmt::Write>(
    part: &Expr,
    is_first: bool,
    slots: &SlotEnv,
    f: &mut fmt::Formatter<W>,
) -> fmt::Result
    ensures { WritesOnOk W.write_str_gives f.old result
        (separator is_first ++ texts.written (slots_view slots.now) (view part.now)) f.new }
{
    f.write_str(separator(is_first))?;
    write_expr(part, slots, f)
}

#[cycle(write)]
fn write_next_field<W: fmt::Write>(
    key: &RcStr,
    part: &Expr,
    is_first: bool,
    slots: &SlotEnv,
    f: &mut fmt::Formatter<W>,
) -> fmt::Result
    ensures { WritesOnOk W.write_str_gives f.old result
        (separator is_first
        ++ (key_text (rc_str_bytes key.now)
        ++ (codes ": " ++ texts.written (slots_view slots.now) (view part.now)))) f.new }
{
    f.write_str(separator(is_first))?;
    write_key(key, f)?;
    f.write_str(": ")?;
    write_expr(part, slots, f)
}
