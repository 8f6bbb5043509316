#![tactic(auto, using(crate::proofs::Levels::levels, crate::proofs::Equality::levels, crate::proofs::Unlike::kinds))]
//! Equality of expressions, which ignores locations.
ghost use Rattle.std.specs.Prelude.{◌≡◌, option_map};
ghost use Rattle.std.specs.Cmp.{on_equiv, on_per, partial_equiv_from_equiv};
ghost use Rattle.std.specs.Rc.{rc_str_bytes};
ghost use Rattle.cedar_model.specs.Terms as terms;
ghost use Rattle.cedar_model.specs.Terms.{literal, variable, if_then_else, both, either, unary, binary};
ghost use Rattle.cedar_model.specs.Terms.{get_attribute, has_attribute, like, is_of_type, set_of, record_of};
ghost use Rattle.cedar_names.specs.Names.{type_text};
ghost use Rattle.cedar_names.specs.Leaves.{literal_view, variable_view, slot_view, unary_view, binary_view};
ghost use Rattle.cedar_names.specs.Leaves.{pattern_view, type_view};
ghost use Rattle.cedar_expressions.specs.View.{view, kind_view, terms_view, fields_view, call_of, extended_has_of};
ghost use Rattle.cedar_names.specs.Equality.{term_eq, terms_eq, fields_eq};
ghost use Rattle.cedar_names.specs.EqualityLaws.{term_eq-equivalence};

use super::{Expr, ExprKind};
use cedar_names::shared::{
    same_annotation, same_binary, same_literal, same_name, same_pattern, same_slot, same_text,
    same_texts, same_type, same_unary, same_variable,
};
use cedar_names::{
    BinaryOp, EntityType, FirstRest, Literal, Name, Pattern, SlotId, UnaryOp, Unknown, Var,
};
use std::collections::BTreeMap;
use std::rc::RcStr;

impl Expr {
    /// Whether the expressions are the same but for locations: the same as `==`.
    pub fn eq_shape(&self, other: &Expr) -> bool
        ensures { result ≡ term_eq (view self.now) (view other.now) }
    {
        self.same(other)
    }

    #[cycle(same)]
    fn same(&self, other: &Expr) -> bool
        ensures { result ≡ term_eq (view self.now) (view other.now) }
    {
        self.expr_kind.same_kind(&other.expr_kind)
    }

    #[cycle(same)]
    fn same_parts(parts: &Vec<Expr>, others: &Vec<Expr>) -> bool
        ensures { result ≡ terms_eq (terms_view parts.now.items) (terms_view others.now.items) }
    {
        let mut rest = others.iter();
        'parts: for part in parts {
            if let Some(other) = rest.next() {
                if !part.same(other) {
                    return false;
                }
            } else {
                return false;
            }
        }
        rest.next().is_none()
    }

    #[cycle(same)]
    fn same_pairs(pairs: &BTreeMap<RcStr, Expr>, others: &BTreeMap<RcStr, Expr>) -> bool
        ensures { result ≡ fields_eq (fields_view pairs.now.entries) (fields_view others.now.entries) }
    {
        let mut rest = others.iter();
        'pairs: for (key, part) in pairs {
            if let Some((other_key, other)) = rest.next() {
                if !same_text(key, other_key) || !part.same(other) {
                    return false;
                }
            } else {
                return false;
            }
        }
        rest.next().is_none()
    }
}

impl ExprKind {
    #[cycle(same)]
    fn same_kind(&self, other: &ExprKind) -> bool
        ensures { result ≡ term_eq (kind_view self.now) (kind_view other.now) }
    {
        match self {
            ExprKind::Lit(value) => equals_literal(value, other),
            ExprKind::Var(var) => equals_variable(*var, other),
            ExprKind::Slot(slot) => equals_slot(*slot, other),
            ExprKind::Unknown(unknown) => equals_unknown(unknown, other),
            ExprKind::If {
                test_expr,
                then_expr,
                else_expr,
            } => equals_if(test_expr, then_expr, else_expr, other),
            ExprKind::And { left, right } => equals_and(left, right, other),
            ExprKind::Or { left, right } => equals_or(left, right, other),
            ExprKind::UnaryApp { op, arg } => equals_unary(*op, arg, other),
            ExprKind::BinaryApp { op, arg1, arg2 } => equals_binary(*op, arg1, arg2, other),
            ExprKind::ExtensionFunctionApp { fn_name, args } => equals_call(fn_name, args, other),
            ExprKind::GetAttr { expr, attr } => equals_attribute(expr, attr, other),
            ExprKind::HasAttr { expr, attr } => equals_has(expr, attr, other),
            ExprKind::ExtHasAttr { expr, attrs } => equals_extended_has(expr, attrs, other),
            ExprKind::Like { expr, pattern } => equals_like(expr, pattern, other),
            ExprKind::Is { expr, entity_type } => equals_type_test(expr, entity_type, other),
            ExprKind::Set(parts) => equals_set(parts, other),
            ExprKind::Record(pairs) => equals_record(pairs, other),
        }
    }
}

// ---- whether a kind is of these parts

fn equals_literal(value: &Literal, other: &ExprKind) -> bool
    ensures { result ≡ term_eq (literal (literal_view value.now)) (kind_view other.now) }
{
    if let ExprKind::Lit(other_value) = other {
        same_literal(value, other_value)
    } else {
        false
    }
}

fn equals_variable(var: Var, other: &ExprKind) -> bool
    ensures { result ≡ term_eq (variable (variable_view var)) (kind_view other.now) }
{
    if let ExprKind::Var(other_var) = other {
        same_variable(var, *other_var)
    } else {
        false
    }
}

fn equals_slot(slot: SlotId, other: &ExprKind) -> bool
    ensures { result ≡ term_eq (terms.slot (slot_view slot)) (kind_view other.now) }
{
    if let ExprKind::Slot(other_slot) = other {
        same_slot(slot, *other_slot)
    } else {
        false
    }
}

fn equals_unknown(unknown: &Unknown, other: &ExprKind) -> bool
    ensures { result
        ≡ term_eq (terms.unknown (rc_str_bytes unknown.now.name) (option_map type_view unknown.now.type_annotation))
        (kind_view other.now) }
{
    if let ExprKind::Unknown(other_unknown) = other {
        same_text(&unknown.name, &other_unknown.name)
            && same_annotation(&unknown.type_annotation, &other_unknown.type_annotation)
    } else {
        false
    }
}

#[cycle(same)]
fn equals_if(test_expr: &Expr, then_expr: &Expr, else_expr: &Expr, other: &ExprKind) -> bool
    ensures { result
        ≡ term_eq (if_then_else (view test_expr.now) (view then_expr.now) (view else_expr.now)) (kind_view other.now) }
{
    if let ExprKind::If {
        test_expr: other_test,
        then_expr: other_then,
        else_expr: other_else,
    } = other
    {
        test_expr.same(other_test) && (then_expr.same(other_then) && else_expr.same(other_else))
    } else {
        false
    }
}

#[cycle(same)]
fn equals_and(left: &Expr, right: &Expr, other: &ExprKind) -> bool
    ensures { result ≡ term_eq (both (view left.now) (view right.now)) (kind_view other.now) }
{
    if let ExprKind::And {
        left: other_left,
        right: other_right,
    } = other
    {
        left.same(other_left) && right.same(other_right)
    } else {
        false
    }
}

#[cycle(same)]
fn equals_or(left: &Expr, right: &Expr, other: &ExprKind) -> bool
    ensures { result ≡ term_eq (either (view left.now) (view right.now)) (kind_view other.now) }
{
    if let ExprKind::Or {
        left: other_left,
        right: other_right,
    } = other
    {
        left.same(other_left) && right.same(other_right)
    } else {
        false
    }
}

#[cycle(same)]
fn equals_unary(op: UnaryOp, arg: &Expr, other: &ExprKind) -> bool
    ensures { result ≡ term_eq (unary (unary_view op) (view arg.now)) (kind_view other.now) }
{
    if let ExprKind::UnaryApp {
        op: other_op,
        arg: other_arg,
    } = other
    {
        same_unary(op, *other_op) && arg.same(other_arg)
    } else {
        false
    }
}

#[cycle(same)]
fn equals_binary(op: BinaryOp, arg1: &Expr, arg2: &Expr, other: &ExprKind) -> bool
    ensures { result ≡ term_eq (binary (binary_view op) (view arg1.now) (view arg2.now)) (kind_view other.now) }
{
    if let ExprKind::BinaryApp {
        op: other_op,
        arg1: other_arg1,
        arg2: other_arg2,
    } = other
    {
        same_binary(op, *other_op) && (arg1.same(other_arg1) && arg2.same(other_arg2))
    } else {
        false
    }
}

#[cycle(same)]
fn equals_call(fn_name: &Name, args: &Vec<Expr>, other: &ExprKind) -> bool
    ensures { result ≡ term_eq (call_of fn_name.now args.now.items) (kind_view other.now) }
{
    if let ExprKind::ExtensionFunctionApp {
        fn_name: other_name,
        args: other_args,
    } = other
    {
        same_name(fn_name, other_name) && Expr::same_parts(args, other_args)
    } else {
        false
    }
}

#[cycle(same)]
fn equals_attribute(expr: &Expr, attr: &RcStr, other: &ExprKind) -> bool
    ensures { result ≡ term_eq (get_attribute (view expr.now) (rc_str_bytes attr.now)) (kind_view other.now) }
{
    if let ExprKind::GetAttr {
        expr: other_expr,
        attr: other_attr,
    } = other
    {
        same_text(attr, other_attr) && expr.same(other_expr)
    } else {
        false
    }
}

#[cycle(same)]
fn equals_has(expr: &Expr, attr: &RcStr, other: &ExprKind) -> bool
    ensures { result ≡ term_eq (has_attribute (view expr.now) (rc_str_bytes attr.now)) (kind_view other.now) }
{
    if let ExprKind::HasAttr {
        expr: other_expr,
        attr: other_attr,
    } = other
    {
        same_text(attr, other_attr) && expr.same(other_expr)
    } else {
        false
    }
}

#[cycle(same)]
fn equals_extended_has(expr: &Expr, attrs: &FirstRest<RcStr>, other: &ExprKind) -> bool
    ensures { result ≡ term_eq (extended_has_of (view expr.now) attrs.now) (kind_view other.now) }
{
    if let ExprKind::ExtHasAttr {
        expr: other_expr,
        attrs: other_attrs,
    } = other
    {
        same_text(&attrs.first, &other_attrs.first)
            && same_texts(&attrs.rest, &other_attrs.rest)
            && expr.same(other_expr)
    } else {
        false
    }
}

#[cycle(same)]
fn equals_like(expr: &Expr, pattern: &Pattern, other: &ExprKind) -> bool
    ensures { result ≡ term_eq (like (view expr.now) (pattern_view pattern.now)) (kind_view other.now) }
{
    if let ExprKind::Like {
        expr: other_expr,
        pattern: other_pattern,
    } = other
    {
        same_pattern(pattern, other_pattern) && expr.same(other_expr)
    } else {
        false
    }
}

#[cycle(same)]
fn equals_type_test(expr: &Expr, entity_type: &EntityType, other: &ExprKind) -> bool
    ensures { result ≡ term_eq (is_of_type (view expr.now) (type_text entity_type.now)) (kind_view other.now) }
{
    if let ExprKind::Is {
        expr: other_expr,
        entity_type: other_type,
    } = other
    {
        same_type(entity_type, other_type) && expr.same(other_expr)
    } else {
        false
    }
}

#[cycle(same)]
fn equals_set(parts: &Vec<Expr>, other: &ExprKind) -> bool
    ensures { result ≡ term_eq (set_of (terms_view parts.now.items)) (kind_view other.now) }
{
    if let ExprKind::Set(other_parts) = other {
        Expr::same_parts(parts, other_parts)
    } else {
        false
    }
}

#[cycle(same)]
fn equals_record(pairs: &BTreeMap<RcStr, Expr>, other: &ExprKind) -> bool
    ensures { result ≡ term_eq (record_of (fields_view pairs.now.entries)) (kind_view other.now) }
{
    if let ExprKind::Record(other_pairs) = other {
        Expr::same_pairs(pairs, other_pairs)
    } else {
        false
    }
}

/// Whether both calls are the same: of one function, on the same arguments; locations change nothing.
pub fn same_call(
    fn_name: &Name,
    args: &Vec<Expr>,
    other_name: &Name,
    other_args: &Vec<Expr>,
) -> bool
    ensures { result ≡ term_eq (call_of fn_name.now args.now.items) (call_of other_name.now other_args.now.items) }
{
    if same_name(fn_name, other_name) {
        Expr::same_parts(args, other_args)
    } else {
        false
    }
}

impl PartialEq for Expr {
    ghost eq = { λ a b. term_eq (view a) (view b) };

    ghost laws = { on_per view (partial_equiv_from_equiv term_eq-equivalence) };

    fn eq(&self, other: &Expr) -> bool {
        self.same(other)
    }
}

impl Eq for Expr {
    ghost laws = { on_equiv view term_eq-equivalence };
}

impl PartialEq for ExprKind {
    ghost eq = { λ a b. term_eq (kind_view a) (kind_view b) };

    ghost laws = { on_per kind_view (partial_equiv_from_equiv term_eq-equivalence) };

    fn eq(&self, other: &ExprKind) -> bool {
        self.same_kind(other)
    }
}

impl Eq for ExprKind {
    ghost laws = { on_equiv kind_view term_eq-equivalence };
}
