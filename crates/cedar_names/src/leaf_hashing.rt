#![tactic(auto, using(crate::proofs::Hashing::leaves))]
//! Hashes of what stands in an expression besides expressions.
ghost use Rattle.std.specs.Prelude.{◌≡◌, pos, fold, option_map};
ghost use Rattle.std.specs.Rc.{rc_str_bytes};
ghost use Rattle.std.specs.Hash as fed;
ghost use Rattle.cedar_model.specs.lemmas.Codes.{variable_number, slot_number, unary_number, binary_number};
ghost use Rattle.cedar_names.specs.Names.{name_text, type_text};
ghost use Rattle.cedar_names.specs.Leaves.{slot_view, variable_view, unary_view, binary_view, pattern_view};
ghost use Rattle.cedar_names.specs.Leaves.{type_view, literal_view, texts_view};
ghost use Rattle.cedar_names.specs.Hashing.{fed_literal, fed_annotation, fed_pattern, fed_texts};

use crate::names::{EntityType, Name, SlotId, Var};
use crate::operators::{BinaryOp, UnaryOp};
use crate::pattern::Pattern;
use crate::types::{Literal, Type};
use std::hash::{Hash, Hasher};
use std::rc::RcStr;

/// Feeds a text to the hasher; locations change nothing.
pub fn feed_text<H: Hasher>(text: &RcStr, state: &mut H)
    ensures { state.new ≡ fold H.write state.old (fed.str (rc_str_bytes text.now)) }
{
    text.hash(state);
}

/// Feeds a name to the hasher; locations change nothing.
pub fn feed_name<H: Hasher>(name: &Name, state: &mut H)
    ensures { state.new ≡ fold H.write state.old (fed.str (name_text name.now)) }
{
    name.hash(state);
}

/// Feeds an entity type to the hasher; locations change nothing.
pub fn feed_type<H: Hasher>(ty: &EntityType, state: &mut H)
    ensures { state.new ≡ fold H.write state.old (fed.str (type_text ty.now)) }
{
    ty.hash(state);
}

/// Feeds a literal to the hasher; locations change nothing.
pub fn feed_literal<H: Hasher>(literal: &Literal, state: &mut H)
    ensures { state.new ≡ fold H.write state.old (fed_literal (literal_view literal.now)) }
{
    literal.hash(state);
}

/// Feeds a variable to the hasher; locations change nothing.
pub fn feed_variable<H: Hasher>(variable: Var, state: &mut H)
    ensures { state.new ≡ fold H.write state.old (fed.isize (pos (variable_number (variable_view variable)))) }
{
    variable.hash(state);
}

/// Feeds a slot to the hasher; locations change nothing.
pub fn feed_slot<H: Hasher>(slot: SlotId, state: &mut H)
    ensures { state.new ≡ fold H.write state.old (fed.isize (pos (slot_number (slot_view slot)))) }
{
    slot.hash(state);
}

/// Feeds an operator on one part to the hasher; locations change nothing.
pub fn feed_unary<H: Hasher>(op: UnaryOp, state: &mut H)
    ensures { state.new ≡ fold H.write state.old (fed.isize (pos (unary_number (unary_view op)))) }
{
    op.hash(state);
}

/// Feeds an operator on two parts to the hasher; locations change nothing.
pub fn feed_binary<H: Hasher>(op: BinaryOp, state: &mut H)
    ensures { state.new ≡ fold H.write state.old (fed.isize (pos (binary_number (binary_view op)))) }
{
    op.hash(state);
}

/// Feeds an annotation to the hasher; locations change nothing.
pub fn feed_annotation<H: Hasher>(annotation: &Option<Type>, state: &mut H)
    ensures { state.new ≡ fold H.write state.old (fed_annotation (option_map type_view annotation.now)) }
{
    annotation.hash(state);
}

/// Feeds a list of texts to the hasher; locations change nothing.
pub fn feed_texts<H: Hasher>(texts: &Vec<RcStr>, state: &mut H)
    ensures { state.new ≡ fold H.write state.old (fed_texts (texts_view texts.now.items)) }
{
    texts.hash(state);
}

/// Feeds a pattern to the hasher; locations change nothing.
pub fn feed_pattern<H: Hasher>(pattern: &Pattern, state: &mut H)
    ensures { state.new ≡ fold H.write state.old (fed_pattern (pattern_view pattern.now)) }
{
    pattern.hash(state);
}
