#![tactic(auto, using(crate::proofs::Levels::levels, crate::proofs::Hashing::levels))]
//! Hashes of expressions, which ignore locations.
ghost use Rattle.std.specs.Prelude.{◌≡◌, fold, option_map};
ghost use Rattle.std.specs.Rc.{rc_str_bytes};
ghost use Rattle.cedar_model.specs.Terms as terms;
ghost use Rattle.cedar_model.specs.Terms.{literal, variable, if_then_else, both, either, unary, binary};
ghost use Rattle.cedar_model.specs.Terms.{get_attribute, has_attribute, like, is_of_type, set_of, record_of};
ghost use Rattle.cedar_names.specs.Names.{type_text};
ghost use Rattle.cedar_names.specs.Leaves.{literal_view, variable_view, slot_view, unary_view, binary_view};
ghost use Rattle.cedar_names.specs.Leaves.{pattern_view, type_view};
ghost use Rattle.cedar_expressions.specs.View.{view, kind_view, terms_view, fields_view, call_of, extended_has_of};
ghost use Rattle.std.specs.Hash.{on_Alike, same_Alike};
ghost use Rattle.cedar_names.specs.EqualityLaws.{term_eq-decides};
ghost use Rattle.cedar_names.specs.Hashing.{fed_term, fed_terms, fed_fields};

use super::{Expr, ExprKind};
use cedar_names::shared::{
    feed_annotation, feed_binary, feed_literal, feed_name, feed_pattern, feed_slot, feed_text,
    feed_texts, feed_type, feed_unary, feed_variable,
};
use cedar_names::{
    BinaryOp, EntityType, FirstRest, Literal, Name, Pattern, SlotId, UnaryOp, Unknown, Var,
};
use std::collections::BTreeMap;
use std::hash::{Hash, Hasher};
use std::rc::RcStr;

impl Expr {
    /// Feeds the hasher what the expression is but for locations: the same as `hash`, so expressions of one shape hash
    /// alike.
    pub fn hash_shape<H: Hasher>(&self, state: &mut H)
        ensures { state.new ≡ fold H.write state.old (fed_term (view self.now)) }
    {
        self.feed(state);
    }

    #[cycle(feed)]
    fn feed<H: Hasher>(&self, state: &mut H)
        ensures { state.new ≡ fold H.write state.old (fed_term (view self.now)) }
    {
        self.expr_kind.feed_kind(state);
    }

    #[cycle(feed)]
    fn feed_parts<H: Hasher>(parts: &Vec<Expr>, state: &mut H)
        ensures { state.new ≡ fold H.write state.old (fed_terms (terms_view parts.now.items)) }
    {
        'parts: for part in parts {
            state.write_u8(1);
            part.feed(state);
        }
        state.write_u8(0);
    }

    #[cycle(feed)]
    fn feed_pairs<H: Hasher>(pairs: &BTreeMap<RcStr, Expr>, state: &mut H)
        ensures { state.new ≡ fold H.write state.old (fed_fields (fields_view pairs.now.entries)) }
    {
        'pairs: for (key, part) in pairs {
            state.write_u8(1);
            feed_text(key, state);
            part.feed(state);
        }
        state.write_u8(0);
    }
}

impl ExprKind {
    #[cycle(feed)]
    fn feed_kind<H: Hasher>(&self, state: &mut H)
        ensures { state.new ≡ fold H.write state.old (fed_term (kind_view self.now)) }
    {
        match self {
            ExprKind::Lit(value) => feed_value(value, state),
            ExprKind::Var(var) => feed_var(*var, state),
            ExprKind::Slot(slot) => feed_slot_id(*slot, state),
            ExprKind::Unknown(unknown) => feed_unknown(unknown, state),
            ExprKind::If {
                test_expr,
                then_expr,
                else_expr,
            } => feed_if(test_expr, then_expr, else_expr, state),
            ExprKind::And { left, right } => feed_and(left, right, state),
            ExprKind::Or { left, right } => feed_or(left, right, state),
            ExprKind::UnaryApp { op, arg } => feed_unary_app(*op, arg, state),
            ExprKind::BinaryApp { op, arg1, arg2 } => feed_binary_app(*op, arg1, arg2, state),
            ExprKind::ExtensionFunctionApp { fn_name, args } => feed_call(fn_name, args, state),
            ExprKind::GetAttr { expr, attr } => feed_attribute(expr, attr, state),
            ExprKind::HasAttr { expr, attr } => feed_has(expr, attr, state),
            ExprKind::ExtHasAttr { expr, attrs } => feed_extended_has(expr, attrs, state),
            ExprKind::Like { expr, pattern } => feed_like(expr, pattern, state),
            ExprKind::Is { expr, entity_type } => feed_type_test(expr, entity_type, state),
            ExprKind::Set(parts) => feed_set(parts, state),
            ExprKind::Record(pairs) => feed_record(pairs, state),
        }
    }
}

// ---- what a kind of these parts feeds the hasher: its number, then its parts

fn feed_value<H: Hasher>(value: &Literal, state: &mut H)
    ensures { state.new ≡ fold H.write state.old (fed_term (literal (literal_view value.now))) }
{
    state.write_u8(0);
    feed_literal(value, state);
}

fn feed_var<H: Hasher>(var: Var, state: &mut H)
    ensures { state.new ≡ fold H.write state.old (fed_term (variable (variable_view var))) }
{
    state.write_u8(1);
    feed_variable(var, state);
}

fn feed_slot_id<H: Hasher>(slot: SlotId, state: &mut H)
    ensures { state.new ≡ fold H.write state.old (fed_term (terms.slot (slot_view slot))) }
{
    state.write_u8(2);
    feed_slot(slot, state);
}

fn feed_unknown<H: Hasher>(unknown: &Unknown, state: &mut H)
    ensures { state.new ≡ fold H.write state.old
        (fed_term (terms.unknown (rc_str_bytes unknown.now.name) (option_map type_view unknown.now.type_annotation))) }
{
    state.write_u8(3);
    feed_text(&unknown.name, state);
    feed_annotation(&unknown.type_annotation, state);
}

#[cycle(feed)]
fn feed_if<H: Hasher>(test_expr: &Expr, then_expr: &Expr, else_expr: &Expr, state: &mut H)
    ensures { state.new ≡ fold H.write state.old
        (fed_term (if_then_else (view test_expr.now) (view then_expr.now) (view else_expr.now))) }
{
    state.write_u8(4);
    test_expr.feed(state);
    then_expr.feed(state);
    else_expr.feed(state);
}

#[cycle(feed)]
fn feed_and<H: Hasher>(left: &Expr, right: &Expr, state: &mut H)
    ensures { state.new ≡ fold H.write state.old (fed_term (both (view left.now) (view right.now))) }
{
    state.write_u8(5);
    left.feed(state);
    right.feed(state);
}

#[cycle(feed)]
fn feed_or<H: Hasher>(left: &Expr, right: &Expr, state: &mut H)
    ensures { state.new ≡ fold H.write state.old (fed_term (either (view left.now) (view right.now))) }
{
    state.write_u8(6);
    left.feed(state);
    right.feed(state);
}

#[cycle(feed)]
fn feed_unary_app<H: Hasher>(op: UnaryOp, arg: &Expr, state: &mut H)
    ensures { state.new ≡ fold H.write state.old (fed_term (unary (unary_view op) (view arg.now))) }
{
    state.write_u8(7);
    feed_unary(op, state);
    arg.feed(state);
}

#[cycle(feed)]
fn feed_binary_app<H: Hasher>(op: BinaryOp, arg1: &Expr, arg2: &Expr, state: &mut H)
    ensures { state.new ≡ fold H.write state.old (fed_term (binary (binary_view op) (view arg1.now) (view arg2.now))) }
{
    state.write_u8(8);
    feed_binary(op, state);
    arg1.feed(state);
    arg2.feed(state);
}

#[cycle(feed)]
fn feed_call<H: Hasher>(fn_name: &Name, args: &Vec<Expr>, state: &mut H)
    ensures { state.new ≡ fold H.write state.old (fed_term (call_of fn_name.now args.now.items)) }
{
    state.write_u8(9);
    feed_name(fn_name, state);
    Expr::feed_parts(args, state);
}

#[cycle(feed)]
fn feed_attribute<H: Hasher>(expr: &Expr, attr: &RcStr, state: &mut H)
    ensures { state.new ≡ fold H.write state.old (fed_term (get_attribute (view expr.now) (rc_str_bytes attr.now))) }
{
    state.write_u8(10);
    expr.feed(state);
    feed_text(attr, state);
}

#[cycle(feed)]
fn feed_has<H: Hasher>(expr: &Expr, attr: &RcStr, state: &mut H)
    ensures { state.new ≡ fold H.write state.old (fed_term (has_attribute (view expr.now) (rc_str_bytes attr.now))) }
{
    state.write_u8(11);
    expr.feed(state);
    feed_text(attr, state);
}

#[cycle(feed)]
fn feed_extended_has<H: Hasher>(expr: &Expr, attrs: &FirstRest<RcStr>, state: &mut H)
    ensures { state.new ≡ fold H.write state.old (fed_term (extended_has_of (view expr.now) attrs.now)) }
{
    state.write_u8(12);
    expr.feed(state);
    feed_text(&attrs.first, state);
    feed_texts(&attrs.rest, state);
}

#[cycle(feed)]
fn feed_like<H: Hasher>(expr: &Expr, pattern: &Pattern, state: &mut H)
    ensures { state.new ≡ fold H.write state.old (fed_term (like (view expr.now) (pattern_view pattern.now))) }
{
    state.write_u8(13);
    expr.feed(state);
    feed_pattern(pattern, state);
}

#[cycle(feed)]
fn feed_type_test<H: Hasher>(expr: &Expr, entity_type: &EntityType, state: &mut H)
    ensures { state.new ≡ fold H.write state.old (fed_term (is_of_type (view expr.now) (type_text entity_type.now))) }
{
    state.write_u8(14);
    expr.feed(state);
    feed_type(entity_type, state);
}

#[cycle(feed)]
fn feed_set<H: Hasher>(parts: &Vec<Expr>, state: &mut H)
    ensures { state.new ≡ fold H.write state.old (fed_term (set_of (terms_view parts.now.items))) }
{
    state.write_u8(15);
    Expr::feed_parts(parts, state);
}

#[cycle(feed)]
fn feed_record<H: Hasher>(pairs: &BTreeMap<RcStr, Expr>, state: &mut H)
    ensures { state.new ≡ fold H.write state.old (fed_term (record_of (fields_view pairs.now.entries))) }
{
    state.write_u8(16);
    Expr::feed_pairs(pairs, state);
}

impl Hash for Expr {
    ghost hash_input = { λ e. fed_term (view e) };

    ghost respects_eq = { (on_Alike view (same_Alike fed_term term_eq-decides)).fed };

    fn hash<H: Hasher>(&self, state: &mut H) {
        self.feed(state);
    }
}

impl Hash for ExprKind {
    ghost hash_input = { λ k. fed_term (kind_view k) };

    ghost respects_eq = { (on_Alike kind_view (same_Alike fed_term term_eq-decides)).fed };

    fn hash<H: Hasher>(&self, state: &mut H) {
        self.feed_kind(state);
    }
}
