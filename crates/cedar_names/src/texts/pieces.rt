//! What stands in an expression's text beside the texts of its parts.
ghost use Rattle.std.specs.Prelude.{◌≡◌, flat_map};
ghost use Rattle.std.specs.Rc.{rc_str_bytes};
ghost use Rattle.std.specs.Fmt.{WritesOnOk};
ghost use Rattle.cedar_names.specs.Names.{type_text};
ghost use Rattle.cedar_names.specs.Leaves.{unary_view, binary_view, pattern_view, texts_view};
ghost use Rattle.cedar_names.specs.Texts as text;

use super::write_quoted;
use crate::names::EntityType;
use crate::operators::{BinaryOp, UnaryOp};
use crate::pattern::Pattern;
use crate::pattern::texts::write_pattern;
use crate::types::FirstRest;
use std::fmt;
use std::fmt::Display;
use std::rc::RcStr;

/// Whether the operator stands in front of its part.
pub fn is_prefix(op: UnaryOp) -> bool
    ensures { result ≡ text.is_prefix (unary_view op) }
{
    match op {
        UnaryOp::Not => true,
        UnaryOp::Neg => true,
        UnaryOp::IsEmpty => false,
    }
}

/// Whether the operator stands between its parts.
pub fn is_infix(op: BinaryOp) -> bool
    ensures { result ≡ text.is_infix (binary_view op) }
{
    match op {
        BinaryOp::Eq => true,
        BinaryOp::Less => true,
        BinaryOp::LessEq => true,
        BinaryOp::Add => true,
        BinaryOp::Sub => true,
        BinaryOp::Mul => true,
        BinaryOp::In => true,
        BinaryOp::Contains => false,
        BinaryOp::ContainsAll => false,
        BinaryOp::ContainsAny => false,
        BinaryOp::GetTag => false,
        BinaryOp::HasTag => false,
    }
}

/// What stands before the operator's part.
pub fn before_part(op: UnaryOp) -> &'static str
    ensures { result.now ≡ text.before_part (unary_view op) }
{
    match op {
        UnaryOp::Not => "!",
        UnaryOp::Neg => "-",
        UnaryOp::IsEmpty => "",
    }
}

/// What stands after the operator's part.
pub fn after_part(op: UnaryOp) -> &'static str
    ensures { result.now ≡ text.after_part (unary_view op) }
{
    match op {
        UnaryOp::Not => "",
        UnaryOp::Neg => "",
        UnaryOp::IsEmpty => ".isEmpty()",
    }
}

/// What stands between the operator's parts.
pub fn between_parts(op: BinaryOp) -> &'static str
    ensures { result.now ≡ text.between_parts (binary_view op) }
{
    match op {
        BinaryOp::Eq => " == ",
        BinaryOp::Less => " < ",
        BinaryOp::LessEq => " <= ",
        BinaryOp::Add => " + ",
        BinaryOp::Sub => " - ",
        BinaryOp::Mul => " * ",
        BinaryOp::In => " in ",
        BinaryOp::Contains => ".contains(",
        BinaryOp::ContainsAll => ".containsAll(",
        BinaryOp::ContainsAny => ".containsAny(",
        BinaryOp::GetTag => ".getTag(",
        BinaryOp::HasTag => ".hasTag(",
    }
}

/// Writes `unknown("name")`.
pub fn write_unknown<W: fmt::Write>(name: &str, f: &mut fmt::Formatter<W>) -> fmt::Result
    ensures { WritesOnOk W.write_str_gives f.old result (text.unknown_text name.now) f.new }
{
    f.write_str("unknown(")?;
    write_quoted(name, f)?;
    f.write_str(")")
}

/// Writes `["attr"]`, which stands after a part.
pub fn write_attribute<W: fmt::Write>(attr: &RcStr, f: &mut fmt::Formatter<W>) -> fmt::Result
    ensures { WritesOnOk W.write_str_gives f.old result (text.attribute_text (rc_str_bytes attr.now)) f.new }
{
    f.write_str("[")?;
    write_quoted(attr.as_str(), f)?;
    f.write_str("]")
}

/// Writes ` has "attr"`, which stands after a part.
pub fn write_has<W: fmt::Write>(attr: &RcStr, f: &mut fmt::Formatter<W>) -> fmt::Result
    ensures { WritesOnOk W.write_str_gives f.old result (text.presence_text (rc_str_bytes attr.now)) f.new }
{
    f.write_str(" has ")?;
    write_quoted(attr.as_str(), f)
}

/// Writes ` has "first"."second"` and so on, which stands after a part.
pub fn write_extended_has<W: fmt::Write>(
    attrs: &FirstRest<RcStr>,
    f: &mut fmt::Formatter<W>,
) -> fmt::Result
    ensures { WritesOnOk W.write_str_gives f.old result
        (text.path_text (rc_str_bytes attrs.now.first) (texts_view attrs.now.rest.items)) f.new }
{
    f.write_str(" has ")?;
    write_quoted(attrs.first.as_str(), f)?;
    write_further(&attrs.rest, f)
}

fn write_further<W: fmt::Write>(attrs: &[RcStr], f: &mut fmt::Formatter<W>) -> fmt::Result
    ensures { WritesOnOk W.write_str_gives f.old result (flat_map text.further_text (texts_view attrs.now)) f.new }
{
    'attrs: for attr in attrs {
        write_one_further(attr, f)?;
    }
    Ok(())
}

fn write_one_further<W: fmt::Write>(attr: &RcStr, f: &mut fmt::Formatter<W>) -> fmt::Result
    ensures { WritesOnOk W.write_str_gives f.old result (text.further_text (rc_str_bytes attr.now)) f.new }
{
    f.write_str(".")?;
    write_quoted(attr.as_str(), f)
}

/// Writes ` like` and the pattern, which stand after a part.
pub fn write_like<W: fmt::Write>(pattern: &Pattern, f: &mut fmt::Formatter<W>) -> fmt::Result
    ensures { WritesOnOk W.write_str_gives f.old result (text.like_text (pattern_view pattern.now)) f.new }
{
    f.write_str(" like ")?;
    write_pattern(pattern, f)
}

/// Writes ` is` and the type, which stand after a part.
pub fn write_is<W: fmt::Write>(entity_type: &EntityType, f: &mut fmt::Formatter<W>) -> fmt::Result
    ensures { WritesOnOk W.write_str_gives f.old result (text.type_test_text (type_text entity_type.now)) f.new }
{
    f.write_str(" is ")?;
    entity_type.fmt(f)
}
