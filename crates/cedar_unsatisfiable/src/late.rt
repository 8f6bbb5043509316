#![tactic(auto, using(cedar_expressions::proofs::Levels::levels))]
//! Attributes that a policy tests after it read them.
ghost use Rattle.std.specs.Prelude.{◌≡◌, ◌++◌, ◌∷◌, [], map, option_map, IfOk, OnOk};
ghost use Rattle.std.specs.Rc.{rc_str_bytes};
ghost use Rattle.cedar_expressions.specs.View.{view, terms_view, fields_view};
ghost use Rattle.cedar_layers.specs.Policies.{policy_view, condition_term};
ghost use Rattle.cedar_unsatisfiable.specs.Late as specs;
ghost use Rattle.cedar_unsatisfiable.specs.Late.{conjuncts, is_attribute, reads, some_reads, some_field_reads, tested};
ghost use Rattle.cedar_unsatisfiable.specs.Late.{is_of, reads_untested, late_behind, attribute_view, terms_seen};

use cedar_expressions::{Expr, ExprKind};
use cedar_layers::policies::Policy;
use cedar_names::shared::same_text;
use std::alloc::{AllocError, Global};
use std::collections::BTreeMap;
use std::rc::RcStr;

// An attribute, and of which expression.
#[derive(Clone, Copy)]
pub(crate) struct Attribute<'e> {
    subject: &'e Expr,
    name: &'e RcStr,
}

/// The name of the first attribute that the policy's condition, scope included, tests after it read it: a conjunct reads
/// it in a part that is always reached, a later one tests it, and none before that read tests it. So the test can't
/// help: the policy errs where the attribute is not there. Of `e has a.b` the test of `a` alone is looked at. Refuses
/// only if out of memory.
pub fn late_test(alloc: Global, policy: &Policy) -> Result<Option<RcStr>, AllocError>
    ensures { IfOk result (λ o.
        option_map rc_str_bytes o ≡ specs.late_test (condition_term (policy_view policy.now))) }
{
    let condition = policy.condition(alloc)?;
    let late = late_in(alloc, &condition);
    drop(condition);
    late
}

fn late_in(alloc: Global, condition: &Expr) -> Result<Option<RcStr>, AllocError>
    ensures { IfOk result (λ o. option_map rc_str_bytes o ≡ specs.late_test (view condition.now)) }
{
    let mut parts: Vec<&Expr> = Vec::new(alloc);
    push_conjuncts(condition, &mut parts)?;
    match first_late(&parts) {
        Some(name) => Ok(Some(name.clone()?)),
        None => Ok(None),
    }
}

// Puts the parts of the conjunction behind the others, in their order.
fn push_conjuncts<'e>(expr: &'e Expr, parts: &mut Vec<&'e Expr>) -> Result<(), AllocError>
    ensures { OnOk result
        (terms_seen parts.new.items ≡ terms_seen parts.old.items ++ conjuncts (view expr.now)) }
{
    match expr.expr_kind() {
        ExprKind::Lit(_) => put(expr, parts),
        ExprKind::Var(_) => put(expr, parts),
        ExprKind::Slot(_) => put(expr, parts),
        ExprKind::Unknown(_) => put(expr, parts),
        ExprKind::If { .. } => put(expr, parts),
        ExprKind::And { left, right } => {
            push_conjuncts(left, parts)?;
            push_conjuncts(right, parts)?;
            Ok(())
        }
        ExprKind::Or { .. } => put(expr, parts),
        ExprKind::UnaryApp { .. } => put(expr, parts),
        ExprKind::BinaryApp { .. } => put(expr, parts),
        ExprKind::ExtensionFunctionApp { .. } => put(expr, parts),
        ExprKind::GetAttr { .. } => put(expr, parts),
        ExprKind::HasAttr { .. } => put(expr, parts),
        ExprKind::ExtHasAttr { .. } => put(expr, parts),
        ExprKind::Like { .. } => put(expr, parts),
        ExprKind::Is { .. } => put(expr, parts),
        ExprKind::Set(_) => put(expr, parts),
        ExprKind::Record(_) => put(expr, parts),
    }
}

fn put<'e>(expr: &'e Expr, parts: &mut Vec<&'e Expr>) -> Result<(), AllocError>
    ensures { OnOk result (terms_seen parts.new.items ≡ terms_seen parts.old.items ++ view expr.now ∷ []) }
{
    parts.push(expr)?;
    Ok(())
}

// The name of the first attribute that one of them tests and one before reads untested.
fn first_late<'e>(parts: &[&'e Expr]) -> Option<&'e RcStr>
    ensures { option_map (λ n. rc_str_bytes n.now) result ≡ late_behind [] (terms_seen parts.now) }
{
    'parts: for i in 0..parts.len() {
        if let Some(name) = late_at(&parts[..i], parts[i]) {
            return Some(name);
        }
    }
    None
}

// The name of the attribute that this one tests, if one of those before reads it untested.
fn late_at<'e>(before: &[&'e Expr], part: &'e Expr) -> Option<&'e RcStr>
    ensures { option_map (λ n. rc_str_bytes n.now) result ≡ specs.late_at (terms_seen before.now) (view part.now) }
{
    match tested_in(part) {
        Some(attribute) => if is_read_untested(before, attribute) {
            Some(attribute.name)
        } else {
            None
        },
        None => None,
    }
}

fn is_read_untested(parts: &[&Expr], attribute: Attribute<'_>) -> bool
    ensures { result ≡ reads_untested (attribute_view attribute.entry) (terms_seen parts.now) }
{
    'parts: for part in parts {
        if is_test_of(part, attribute) {
            return false;
        }
        if reads(part, attribute) {
            return true;
        }
    }
    false
}

fn is_test_of(part: &Expr, attribute: Attribute<'_>) -> bool
    ensures { result ≡ is_of (attribute_view attribute.entry) (tested (view part.now)) }
{
    match tested_in(part) {
        Some(other) => is_attribute(other.subject, other.name, attribute),
        None => false,
    }
}

// The attribute that the conjunct tests.
fn tested_in(part: &Expr) -> Option<Attribute<'_>>
    ensures { option_map attribute_view result ≡ tested (view part.now) }
{
    match part.expr_kind() {
        ExprKind::Lit(_) => None,
        ExprKind::Var(_) => None,
        ExprKind::Slot(_) => None,
        ExprKind::Unknown(_) => None,
        ExprKind::If { .. } => None,
        ExprKind::And { .. } => None,
        ExprKind::Or { .. } => None,
        ExprKind::UnaryApp { .. } => None,
        ExprKind::BinaryApp { .. } => None,
        ExprKind::ExtensionFunctionApp { .. } => None,
        ExprKind::GetAttr { .. } => None,
        ExprKind::HasAttr { expr, attr } => Some(Attribute {
            subject: expr,
            name: attr,
        }),
        ExprKind::ExtHasAttr { expr, attrs } => Some(Attribute {
            subject: expr,
            name: &attrs.first,
        }),
        ExprKind::Like { .. } => None,
        ExprKind::Is { .. } => None,
        ExprKind::Set(_) => None,
        ExprKind::Record(_) => None,
    }
}

fn is_attribute(subject: &Expr, name: &RcStr, attribute: Attribute<'_>) -> bool
    ensures { result ≡ is_attribute (view subject.now) (rc_str_bytes name.now) (attribute_view attribute.entry) }
{
    subject == attribute.subject && same_text(name, attribute.name)
}

// Whether it reads the attribute wherever it comes to a value: in a part that is always reached.
#[cycle(reads)]
fn reads(expr: &Expr, attribute: Attribute<'_>) -> bool
    ensures { result ≡ reads (attribute_view attribute.entry) (view expr.now) }
{
    match expr.expr_kind() {
        ExprKind::Lit(_) => false,
        ExprKind::Var(_) => false,
        ExprKind::Slot(_) => false,
        ExprKind::Unknown(_) => false,
        ExprKind::If { test_expr, .. } => reads(test_expr, attribute),
        ExprKind::And { left, right: _ } => reads(left, attribute),
        ExprKind::Or { left, right: _ } => reads(left, attribute),
        ExprKind::UnaryApp { op: _, arg } => reads(arg, attribute),
        ExprKind::BinaryApp { op: _, arg1, arg2 } => {
            reads(arg1, attribute) || reads(arg2, attribute)
        }
        ExprKind::ExtensionFunctionApp { fn_name: _, args } => some_reads(args, attribute),
        ExprKind::GetAttr { expr: of, attr } => {
            is_attribute(of, attr, attribute) || reads(of, attribute)
        }
        ExprKind::HasAttr { expr: of, attr: _ } => reads(of, attribute),
        ExprKind::ExtHasAttr { expr: of, attrs: _ } => reads(of, attribute),
        ExprKind::Like { expr: of, .. } => reads(of, attribute),
        ExprKind::Is { expr: of, .. } => reads(of, attribute),
        ExprKind::Set(parts) => some_reads(parts, attribute),
        ExprKind::Record(parts) => some_field_reads(parts, attribute),
    }
}

#[cycle(reads)]
fn some_reads(parts: &Vec<Expr>, attribute: Attribute<'_>) -> bool
    ensures { result ≡ some_reads (attribute_view attribute.entry) (terms_view parts.now.items) }
{
    'parts: for part in parts {
        if reads(part, attribute) {
            return true;
        }
    }
    false
}

#[cycle(reads)]
fn some_field_reads(parts: &BTreeMap<RcStr, Expr>, attribute: Attribute<'_>) -> bool
    ensures { result ≡ some_field_reads (attribute_view attribute.entry) (fields_view parts.now.entries) }
{
    'fields: for (_, part) in parts {
        if reads(part, attribute) {
            return true;
        }
    }
    false
}
