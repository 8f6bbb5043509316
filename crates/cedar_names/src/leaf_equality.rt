#![tactic(auto, using(crate::proofs::Derived::leaves))]
//! Equality of what stands in an expression besides expressions: true exactly where both sides stand for the same.
ghost use Rattle.std.specs.Prelude.{◌≡◌, option_map};
ghost use Rattle.std.specs.Rc.{rc_str_bytes};
ghost use Rattle.cedar_names.specs.Names.{name_text, type_text};
ghost use Rattle.cedar_names.specs.Leaves.{slot_view, variable_view, unary_view, binary_view, pattern_view};
ghost use Rattle.cedar_names.specs.Leaves.{type_view, literal_view, texts_view};
ghost use Rattle.cedar_model.specs.Outcomes.{text_eq};
ghost use Rattle.cedar_names.specs.Equality.{texts_eq, literal_eq, annotation_eq, variable_eq};
ghost use Rattle.cedar_names.specs.Equality.{slot_eq, unary_eq, binary_eq, pattern_eq};

use crate::names::{EntityType, Name, SlotId, Var};
use crate::operators::{BinaryOp, UnaryOp};
use crate::pattern::Pattern;
use crate::types::{Literal, Type};
use std::rc::RcStr;

/// Whether both texts are the same; locations change nothing.
pub fn same_text(text: &RcStr, other: &RcStr) -> bool
    ensures { result ≡ text_eq (rc_str_bytes text.now) (rc_str_bytes other.now) }
{
    text == other
}

/// Whether both names are the same; locations change nothing.
pub fn same_name(name: &Name, other: &Name) -> bool
    ensures { result ≡ text_eq (name_text name.now) (name_text other.now) }
{
    name == other
}

/// Whether both entity types are the same; locations change nothing.
pub fn same_type(ty: &EntityType, other: &EntityType) -> bool
    ensures { result ≡ text_eq (type_text ty.now) (type_text other.now) }
{
    ty == other
}

/// Whether both literals are the same; locations change nothing.
pub fn same_literal(literal: &Literal, other: &Literal) -> bool
    ensures { result ≡ literal_eq (literal_view literal.now) (literal_view other.now) }
{
    literal == other
}

/// Whether both variables are the same; locations change nothing.
pub fn same_variable(variable: Var, other: Var) -> bool
    ensures { result ≡ variable_eq (variable_view variable) (variable_view other) }
{
    variable == other
}

/// Whether both slots are the same; locations change nothing.
pub fn same_slot(slot: SlotId, other: SlotId) -> bool
    ensures { result ≡ slot_eq (slot_view slot) (slot_view other) }
{
    slot == other
}

/// Whether both operators are the same; locations change nothing.
pub fn same_unary(op: UnaryOp, other: UnaryOp) -> bool
    ensures { result ≡ unary_eq (unary_view op) (unary_view other) }
{
    op == other
}

/// Whether both operators are the same; locations change nothing.
pub fn same_binary(op: BinaryOp, other: BinaryOp) -> bool
    ensures { result ≡ binary_eq (binary_view op) (binary_view other) }
{
    op == other
}

/// Whether both annotations are the same; locations change nothing.
pub fn same_annotation(annotation: &Option<Type>, other: &Option<Type>) -> bool
    ensures { result ≡ annotation_eq (option_map type_view annotation.now) (option_map type_view other.now) }
{
    annotation == other
}

/// Whether both lists of texts are the same; locations change nothing.
pub fn same_texts(texts: &Vec<RcStr>, other: &Vec<RcStr>) -> bool
    ensures { result ≡ texts_eq (texts_view texts.now.items) (texts_view other.now.items) }
{
    texts == other
}

/// Whether both patterns are the same; locations change nothing.
pub fn same_pattern(pattern: &Pattern, other: &Pattern) -> bool
    ensures { result ≡ pattern_eq (pattern_view pattern.now) (pattern_view other.now) }
{
    pattern == other
}
