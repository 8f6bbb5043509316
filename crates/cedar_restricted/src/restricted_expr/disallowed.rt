#![tactic(auto, using(crate::proofs::Levels::terms), unfolding(cedar_model::specs::Restricted::first_disallowed))]
//! The first part of an expression that may not stand in a restricted one.
ghost use Rattle.std.specs.Prelude.{◌≡◌, true, Some, option_map, OnOk, IfErr, IfSome};
ghost use Rattle.cedar_model.specs.Shapes.{is_restricted};
ghost use Rattle.cedar_model.specs.Restricted.{first_disallowed, first_disallowed_of, first_disallowed_at};
ghost use Rattle.cedar_names.specs.Leaves.{unary_view, binary_view};
ghost use Rattle.cedar_names.specs.Texts.{unary_text, binary_text};
ghost use Rattle.cedar_expressions.specs.View.{view, terms_view, fields_view};
ghost use Rattle.cedar_restricted.specs.Refusals.{with_its_text, disallowed_view, IsRefusal};
ghost use Rattle.cedar_restricted.specs.Refusals.{is_disallowed, IsFirstDisallowed, IsFirstAmong};
ghost use Rattle.cedar_restricted.specs.Refusals.{HoldsFirstPart, entry_parts};

use crate::err::RestrictedExpressionError;
use crate::err::restricted_expr_errors::InvalidRestrictedExpressionError;
use cedar_expressions::{Expr, ExprKind};
use cedar_names::{BinaryOp, UnaryOp};
use std::collections::BTreeMap;
use std::rc::RcStr;

// A part that may not stand in a restricted expression, and the text of what it uses.
#[derive(Clone, Copy)]
pub(crate) struct DisallowedPart<'a> {
    feature: &'static str,
    part: &'a Expr,
}

// That the expression is restricted, or which part is the first that may not stand in it.
#[tactic(auto, using(crate::proofs::MadeParts::none_found))]
pub(crate) fn check(expr: &Expr) -> Result<(), RestrictedExpressionError>
    ensures restricted { OnOk result (is_restricted (view expr.now) ≡ true) }
    ensures refused { IfErr result (IsRefusal (first_disallowed (view expr.now))) }
    ensures whole { IfErr result (HoldsFirstPart expr.now) }
{
    match first_found(expr) {
        None => Ok(()),
        Some(found) => {
            let expr = found.part.clone()?;
            Err(RestrictedExpressionError::InvalidRestrictedExpression(
                InvalidRestrictedExpressionError {
                    feature: found.feature,
                    expr,
                },
            ))
        }
    }
}

// A node that may not stand at once, else the first of its parts in order.
#[cycle(found)]
#[tactic(auto, using(crate::proofs::Levels::terms), unfolding(cedar_model::specs::Restricted::first_disallowed, cedar_model::specs::Restricted::feature_of))]
fn first_found(expr: &Expr) -> Option<DisallowedPart<'_>>
    ensures view { option_map disallowed_view result ≡ option_map with_its_text (first_disallowed (view expr.now)) }
    ensures whole { IfSome result (λ f. IsFirstDisallowed expr.now f.part.now) }
{
    match expr.expr_kind() {
        ExprKind::Lit(_) => None,
        ExprKind::Var(_) => disallow_part("variables", expr),
        ExprKind::Slot(_) => disallow_part("template slots", expr),
        ExprKind::Unknown(_) => None,
        ExprKind::If {
            test_expr: _,
            then_expr: _,
            else_expr: _,
        } => disallow_part("if-then-else", expr),
        ExprKind::And { left: _, right: _ } => disallow_part("&&", expr),
        ExprKind::Or { left: _, right: _ } => disallow_part("||", expr),
        ExprKind::UnaryApp { op, arg: _ } => disallow_part(unary_feature(*op), expr),
        ExprKind::BinaryApp {
            op,
            arg1: _,
            arg2: _,
        } => disallow_part(binary_feature(*op), expr),
        ExprKind::ExtensionFunctionApp { fn_name: _, args } => first_found_of(args),
        ExprKind::GetAttr { expr: _, attr: _ } => disallow_part("attribute accesses", expr),
        ExprKind::HasAttr { expr: _, attr: _ } => disallow_part("'has'", expr),
        ExprKind::ExtHasAttr { expr: _, attrs: _ } => disallow_part("'has'", expr),
        ExprKind::Like {
            expr: _,
            pattern: _,
        } => disallow_part("'like'", expr),
        ExprKind::Is {
            expr: _,
            entity_type: _,
        } => disallow_part("'is'", expr),
        ExprKind::Set(parts) => first_found_of(parts),
        ExprKind::Record(pairs) => first_found_at(pairs),
    }
}

#[cycle(found)]
#[tactic(auto, unfolding(cedar_model::specs::Restricted::first_disallowed, cedar_model::specs::Restricted::or_else))]
fn first_found_of(parts: &Vec<Expr>) -> Option<DisallowedPart<'_>>
    ensures view { option_map disallowed_view result ≡
        option_map with_its_text (first_disallowed_of (terms_view parts.now.items)) }
    ensures whole { IfSome result (λ f. IsFirstAmong parts.now.items f.part.now) }
{
    'parts: for part in parts {
        if let Some(found) = first_found(part) {
            return Some(found);
        }
    }
    None
}

#[cycle(found)]
#[tactic(auto, unfolding(cedar_model::specs::Restricted::first_disallowed, cedar_model::specs::Restricted::or_else))]
fn first_found_at(pairs: &BTreeMap<RcStr, Expr>) -> Option<DisallowedPart<'_>>
    ensures view { option_map disallowed_view result ≡
        option_map with_its_text (first_disallowed_at (fields_view pairs.now.entries)) }
    ensures whole { IfSome result (λ f. IsFirstAmong (entry_parts pairs.now.entries) f.part.now) }
{
    'pairs: for (_, part) in pairs {
        if let Some(first) = first_found(part) {
            return Some(first);
        }
    }
    None
}

fn disallow_part<'a>(feature: &'static str, part: &'a Expr) -> Option<DisallowedPart<'a>>
    requires { is_disallowed part.now ≡ true }
    ensures view { option_map disallowed_view result ≡ Some (feature.now, view part.now) }
    ensures whole { IfSome result (λ f. IsFirstDisallowed part.now f.part.now) }
{
    Some(DisallowedPart { feature, part })
}

// The text of the operator.
fn unary_feature(op: UnaryOp) -> &'static str
    ensures { result.now ≡ unary_text (unary_view op) }
{
    match op {
        UnaryOp::Not => "!_",
        UnaryOp::Neg => "-_",
        UnaryOp::IsEmpty => "isEmpty",
    }
}

// The text of the operator.
fn binary_feature(op: BinaryOp) -> &'static str
    ensures { result.now ≡ binary_text (binary_view op) }
{
    match op {
        BinaryOp::Eq => "_==_",
        BinaryOp::Less => "_<_",
        BinaryOp::LessEq => "_<=_",
        BinaryOp::Add => "_+_",
        BinaryOp::Sub => "_-_",
        BinaryOp::Mul => "_*_",
        BinaryOp::In => "_in_",
        BinaryOp::Contains => "contains",
        BinaryOp::ContainsAll => "containsAll",
        BinaryOp::ContainsAny => "containsAny",
        BinaryOp::GetTag => "getTag",
        BinaryOp::HasTag => "hasTag",
    }
}
