#![tactic(auto, using(crate::proofs::Levels::levels))]
//! How expressions print.
ghost use Rattle.std.specs.Prelude.{◌≡◌, true, ◌++◌, codes};
ghost use Rattle.std.specs.Rc.{rc_str_bytes};
ghost use Rattle.std.specs.Fmt.{WritesOnOk};
ghost use Rattle.cedar_model.specs.Terms.{if_then_else, unary, binary, call, get_attribute, has_attribute};
ghost use Rattle.cedar_model.specs.Terms.{like, is_of_type, set_of, record_of};
ghost use Rattle.cedar_names.specs.Names.{name_text, type_text};
ghost use Rattle.cedar_names.specs.Leaves.{unary_view, binary_view, pattern_view};
ghost use Rattle.cedar_expressions.specs.View.{view, terms_view, fields_view, extended_has_of};
ghost use Rattle.cedar_names.specs.Texts as text;

use crate::expr::{Expr, ExprKind};
use cedar_names::shared::{
    after_part, before_part, between_parts, is_infix, is_prefix, is_spent, one_less, separator,
    write_attribute, write_extended_has, write_has, write_is, write_like, write_literal,
    write_more, write_quoted, write_unknown,
};
use cedar_names::{BinaryOp, EntityType, FirstRest, Name, Pattern, UnaryOp};
use std::collections::BTreeMap;
use std::fmt;
use std::fmt::Display;
use std::rc::RcStr;

/// Writes an expression; with a bound each set and each record shows that many parts, and `..` where it has more.
#[cycle(show)]
pub(crate) fn show<W: fmt::Write>(
    expr: &Expr,
    bound: Option<usize>,
    f: &mut fmt::Formatter<W>,
) -> fmt::Result
    ensures { WritesOnOk W.write_str_gives f.old result (text.shown bound (view expr.now)) f.new }
{
    match expr.expr_kind() {
        ExprKind::Lit(literal) => write_literal(literal, f),
        ExprKind::Var(var) => var.fmt(f),
        ExprKind::Slot(slot) => slot.fmt(f),
        ExprKind::Unknown(unknown) => write_unknown(unknown.name.as_str(), f),
        ExprKind::If {
            test_expr,
            then_expr,
            else_expr,
        } => show_if(test_expr, then_expr, else_expr, bound, f),
        ExprKind::And { left, right } => show_pair(left, " && ", right, bound, f),
        ExprKind::Or { left, right } => show_pair(left, " || ", right, bound, f),
        ExprKind::UnaryApp { op, arg } => show_unary(*op, arg, bound, f),
        ExprKind::BinaryApp { op, arg1, arg2 } => show_binary(*op, arg1, arg2, bound, f),
        ExprKind::ExtensionFunctionApp { fn_name, args } => show_call(fn_name, args, bound, f),
        ExprKind::GetAttr { expr, attr } => show_attribute(expr, attr, bound, f),
        ExprKind::HasAttr { expr, attr } => show_has(expr, attr, bound, f),
        ExprKind::ExtHasAttr { expr, attrs } => show_extended_has(expr, attrs, bound, f),
        ExprKind::Like { expr, pattern } => show_like(expr, pattern, bound, f),
        ExprKind::Is { expr, entity_type } => show_is(expr, entity_type, bound, f),
        ExprKind::Set(parts) => show_set(parts, bound, f),
        ExprKind::Record(pairs) => show_record(pairs, bound, f),
    }
}

/// Whether an expression stands in parentheses as a part of another.
fn is_compound(expr: &Expr) -> bool
    ensures { result ≡ text.is_compound (view expr.now) }
{
    match expr.expr_kind() {
        ExprKind::Lit(_) => false,
        ExprKind::Var(_) => false,
        ExprKind::Slot(_) => false,
        ExprKind::Unknown(_) => false,
        ExprKind::If { .. } => true,
        ExprKind::And { .. } => true,
        ExprKind::Or { .. } => true,
        ExprKind::UnaryApp { op, .. } => is_prefix(*op),
        ExprKind::BinaryApp { op, .. } => is_infix(*op),
        ExprKind::ExtensionFunctionApp { .. } => false,
        ExprKind::GetAttr { .. } => false,
        ExprKind::HasAttr { .. } => true,
        ExprKind::ExtHasAttr { .. } => true,
        ExprKind::Like { .. } => true,
        ExprKind::Is { .. } => true,
        ExprKind::Set(_) => false,
        ExprKind::Record(_) => false,
    }
}

/// Writes an expression as a part of another: in parentheses where it is compound.
#[cycle(show)]
fn show_part<W: fmt::Write>(
    part: &Expr,
    bound: Option<usize>,
    f: &mut fmt::Formatter<W>,
) -> fmt::Result
    ensures { WritesOnOk W.write_str_gives f.old result (text.shown_part bound (view part.now)) f.new }
{
    if is_compound(part) {
        show_enclosed(part, bound, f)
    } else {
        show(part, bound, f)
    }
}

#[cycle(show)]
fn show_enclosed<W: fmt::Write>(
    part: &Expr,
    bound: Option<usize>,
    f: &mut fmt::Formatter<W>,
) -> fmt::Result
    ensures { WritesOnOk W.write_str_gives f.old result (text.enclosed true (text.shown bound (view part.now))) f.new }
{
    f.write_str("(")?;
    show(part, bound, f)?;
    f.write_str(")")
}

#[cycle(show)]
fn show_if<W: fmt::Write>(
    test_expr: &Expr,
    then_expr: &Expr,
    else_expr: &Expr,
    bound: Option<usize>,
    f: &mut fmt::Formatter<W>,
) -> fmt::Result
    ensures { WritesOnOk W.write_str_gives f.old result
        (text.shown bound (if_then_else (view test_expr.now) (view then_expr.now) (view else_expr.now))) f.new }
{
    f.write_str("if ")?;
    show_part(test_expr, bound, f)?;
    f.write_str(" then ")?;
    show_part(then_expr, bound, f)?;
    f.write_str(" else ")?;
    show_part(else_expr, bound, f)
}

/// Writes two parts with a text between them.
#[cycle(show)]
fn show_pair<W: fmt::Write>(
    left: &Expr,
    between: &str,
    right: &Expr,
    bound: Option<usize>,
    f: &mut fmt::Formatter<W>,
) -> fmt::Result
    ensures { WritesOnOk W.write_str_gives f.old result
        (text.shown_part bound (view left.now) ++ (between.now ++ text.shown_part bound (view right.now))) f.new }
{
    show_part(left, bound, f)?;
    f.write_str(between)?;
    show_part(right, bound, f)
}

#[cycle(show)]
fn show_unary<W: fmt::Write>(
    op: UnaryOp,
    arg: &Expr,
    bound: Option<usize>,
    f: &mut fmt::Formatter<W>,
) -> fmt::Result
    ensures { WritesOnOk W.write_str_gives f.old result
        (text.shown bound (unary (unary_view op) (view arg.now))) f.new }
{
    f.write_str(before_part(op))?;
    show_part(arg, bound, f)?;
    f.write_str(after_part(op))
}

#[cycle(show)]
fn show_binary<W: fmt::Write>(
    op: BinaryOp,
    left: &Expr,
    right: &Expr,
    bound: Option<usize>,
    f: &mut fmt::Formatter<W>,
) -> fmt::Result
    ensures { WritesOnOk W.write_str_gives f.old result
        (text.shown bound (binary (binary_view op) (view left.now) (view right.now))) f.new }
{
    if is_infix(op) {
        show_pair(left, between_parts(op), right, bound, f)
    } else {
        show_method(left, between_parts(op), right, bound, f)
    }
}

/// Writes a part, a text, an argument and `)`.
#[cycle(show)]
fn show_method<W: fmt::Write>(
    left: &Expr,
    between: &str,
    right: &Expr,
    bound: Option<usize>,
    f: &mut fmt::Formatter<W>,
) -> fmt::Result
    ensures { WritesOnOk W.write_str_gives f.old result
        (text.shown_part bound (view left.now)
        ++ (between.now ++ (text.shown bound (view right.now) ++ codes ")"))) f.new }
{
    show_part(left, bound, f)?;
    f.write_str(between)?;
    show(right, bound, f)?;
    f.write_str(")")
}

/// Writes a call of this function on these arguments, none left out; the bound is for the sets and records in them.
#[cycle(show)]
pub fn show_call<W: fmt::Write>(
    name: &Name,
    args: &[Expr],
    bound: Option<usize>,
    f: &mut fmt::Formatter<W>,
) -> fmt::Result
    ensures { WritesOnOk W.write_str_gives f.old result
        (text.shown bound (call (name_text name.now) (terms_view args.now))) f.new }
{
    name.fmt(f)?;
    f.write_str("(")?;
    show_parts(args, None, bound, f)?;
    f.write_str(")")
}

#[cycle(show)]
fn show_attribute<W: fmt::Write>(
    expr: &Expr,
    attr: &RcStr,
    bound: Option<usize>,
    f: &mut fmt::Formatter<W>,
) -> fmt::Result
    ensures { WritesOnOk W.write_str_gives f.old result
        (text.shown bound (get_attribute (view expr.now) (rc_str_bytes attr.now))) f.new }
{
    show_part(expr, bound, f)?;
    write_attribute(attr, f)
}

#[cycle(show)]
fn show_has<W: fmt::Write>(
    expr: &Expr,
    attr: &RcStr,
    bound: Option<usize>,
    f: &mut fmt::Formatter<W>,
) -> fmt::Result
    ensures { WritesOnOk W.write_str_gives f.old result
        (text.shown bound (has_attribute (view expr.now) (rc_str_bytes attr.now))) f.new }
{
    show_part(expr, bound, f)?;
    write_has(attr, f)
}

#[cycle(show)]
fn show_extended_has<W: fmt::Write>(
    expr: &Expr,
    attrs: &FirstRest<RcStr>,
    bound: Option<usize>,
    f: &mut fmt::Formatter<W>,
) -> fmt::Result
    ensures { WritesOnOk W.write_str_gives f.old result
        (text.shown bound (extended_has_of (view expr.now) attrs.now)) f.new }
{
    show_part(expr, bound, f)?;
    write_extended_has(attrs, f)
}

#[cycle(show)]
fn show_like<W: fmt::Write>(
    expr: &Expr,
    pattern: &Pattern,
    bound: Option<usize>,
    f: &mut fmt::Formatter<W>,
) -> fmt::Result
    ensures { WritesOnOk W.write_str_gives f.old result
        (text.shown bound (like (view expr.now) (pattern_view pattern.now))) f.new }
{
    show_part(expr, bound, f)?;
    write_like(pattern, f)
}

#[cycle(show)]
fn show_is<W: fmt::Write>(
    expr: &Expr,
    entity_type: &EntityType,
    bound: Option<usize>,
    f: &mut fmt::Formatter<W>,
) -> fmt::Result
    ensures { WritesOnOk W.write_str_gives f.old result
        (text.shown bound (is_of_type (view expr.now) (type_text entity_type.now))) f.new }
{
    show_part(expr, bound, f)?;
    write_is(entity_type, f)
}

#[cycle(show)]
fn show_set<W: fmt::Write>(
    parts: &[Expr],
    bound: Option<usize>,
    f: &mut fmt::Formatter<W>,
) -> fmt::Result
    ensures { WritesOnOk W.write_str_gives f.old result (text.shown bound (set_of (terms_view parts.now))) f.new }
{
    f.write_str("[")?;
    show_parts(parts, bound, bound, f)?;
    f.write_str("]")
}

#[cycle(show)]
fn show_record<W: fmt::Write>(
    pairs: &BTreeMap<RcStr, Expr>,
    bound: Option<usize>,
    f: &mut fmt::Formatter<W>,
) -> fmt::Result
    ensures { WritesOnOk W.write_str_gives f.old result
        (text.shown bound (record_of (fields_view pairs.now.entries))) f.new }
{
    f.write_str("{")?;
    show_fields(pairs, bound, f)?;
    f.write_str("}")
}

/// Writes parts with `, ` between them: `left` of them, and `..` where there are more.
#[cycle(show)]
fn show_parts<W: fmt::Write>(
    parts: &[Expr],
    mut left: Option<usize>,
    bound: Option<usize>,
    f: &mut fmt::Formatter<W>,
) -> fmt::Result
    ensures { WritesOnOk W.write_str_gives f.old result
        (text.shown_parts bound left true (terms_view parts.now)) f.new }
{
    let mut is_first = true;
    'parts: for part in parts {
        if is_spent(left) {
            return write_more(is_first, f);
        }
        show_next(part, is_first, bound, f)?;
        left = one_less(left);
        is_first = false;
    }
    Ok(())
}

/// Writes parts under their keys with `, ` between them: as many as the bound says, and `..` where there are more.
#[cycle(show)]
fn show_fields<W: fmt::Write>(
    pairs: &BTreeMap<RcStr, Expr>,
    bound: Option<usize>,
    f: &mut fmt::Formatter<W>,
) -> fmt::Result
    ensures { WritesOnOk W.write_str_gives f.old result
        (text.shown_fields bound bound true (fields_view pairs.now.entries)) f.new }
{
    let mut left = bound;
    let mut is_first = true;
    'fields: for (key, part) in pairs.iter() {
        if is_spent(left) {
            return write_more(is_first, f);
        }
        show_next_field(key, part, is_first, bound, f)?;
        left = one_less(left);
        is_first = false;
    }
    Ok(())
}

#[cycle(show)]
fn show_next<W: fmt::Write>(
    part: &Expr,
    is_first: bool,
    bound: Option<usize>,
    f: &mut fmt::Formatter<W>,
) -> fmt::Result
    ensures { WritesOnOk W.write_str_gives f.old result
        (text.separator is_first ++ text.shown bound (view part.now)) f.new }
{
    f.write_str(separator(is_first))?;
    show(part, bound, f)
}

#[cycle(show)]
fn show_next_field<W: fmt::Write>(
    key: &RcStr,
    part: &Expr,
    is_first: bool,
    bound: Option<usize>,
    f: &mut fmt::Formatter<W>,
) -> fmt::Result
    ensures { WritesOnOk W.write_str_gives f.old result
        (text.separator is_first
        ++ (text.quoted (rc_str_bytes key.now) ++ (codes ": " ++ text.shown bound (view part.now)))) f.new }
{
    f.write_str(separator(is_first))?;
    write_quoted(key.as_str(), f)?;
    f.write_str(": ")?;
    show(part, bound, f)
}
