#![tactic(auto, using(cedar_expressions::proofs::NodeLevels::nodes, crate::proofs::Levels::levels))]
//! The entities, types and action groups that policies name, each with its place.
ghost use Rattle.std.specs.Prelude.{◌≡◌, ◌++◌, ◌∷◌, [], option_copied, OnOk};
ghost use Rattle.cedar_expressions.specs.Nodes.{literal_at, node_of, uid_of_literal, uid_at};
ghost use Rattle.cedar_expressions.specs.View.{expr_loc};
ghost use Rattle.cedar_layers.specs.Policies.{policy_parts};
ghost use Rattle.cedar_lints.specs.Mentions.{mentions, mentions_each, mentions_at, literal_mentions, mentions_seen};
ghost use Rattle.cedar_lints.specs.Mentions.{mention_view, policy_mentions, action_mentions, membership_parts};
ghost use Rattle.cedar_lints.specs.Mentions.{group_mentions, is_in, pair_if, pair_seen};
ghost use Rattle.cedar_lints.specs.Mentions as specs;

use cedar_expressions::{Expr, ExprKind};
use cedar_layers::policies::Policy;
use cedar_names::{BinaryOp, EntityType, EntityUID, Literal, Loc};
use std::alloc::AllocError;
use std::collections::BTreeMap;
use std::rc::RcStr;

/// What a policy names.
#[derive(Clone, Copy)]
pub enum Named<'p> {
    /// An entity.
    Entity(&'p EntityUID),
    /// A type of entities.
    EntityType(&'p EntityType),
    /// What the action must be in: the entity of `action in`.
    Group(&'p EntityUID),
}

/// What a policy names, and where.
#[derive(Clone, Copy)]
pub struct Mention<'p> {
    /// What it names.
    pub named: Named<'p>,
    /// Where the expression stands that names it, if that is known.
    pub place: Option<Loc>,
}

// Puts what the expression names after the others.
#[cycle(mention)]
fn push_mentions<'e>(expr: &'e Expr, found: &mut Vec<Mention<'e>>) -> Result<(), AllocError>
    ensures { OnOk result
        (mentions_seen found.new.items ≡ mentions_seen found.old.items ++ mentions expr.now) }
{
    match expr.expr_kind() {
        ExprKind::Lit(literal) => push_literal(literal, place_of(expr), found),
        ExprKind::Var(_) => Ok(()),
        ExprKind::Slot(_) => Ok(()),
        ExprKind::Unknown(_) => Ok(()),
        ExprKind::If {
            test_expr,
            then_expr,
            else_expr,
        } => push_three(test_expr, then_expr, else_expr, found),
        ExprKind::And { left, right } => push_two(left, right, found),
        ExprKind::Or { left, right } => push_two(left, right, found),
        ExprKind::UnaryApp { op: _, arg } => push_mentions(arg, found),
        ExprKind::BinaryApp { op: _, arg1, arg2 } => push_two(arg1, arg2, found),
        ExprKind::ExtensionFunctionApp { fn_name: _, args } => push_each(args, found),
        ExprKind::GetAttr { expr: of, attr: _ } => push_mentions(of, found),
        ExprKind::HasAttr { expr: of, attr: _ } => push_mentions(of, found),
        ExprKind::ExtHasAttr { expr: of, attrs: _ } => push_mentions(of, found),
        ExprKind::Like {
            expr: of,
            pattern: _,
        } => push_mentions(of, found),
        ExprKind::Is {
            expr: of,
            entity_type,
        } => push_test(of, entity_type, place_of(expr), found),
        ExprKind::Set(parts) => push_each(parts, found),
        ExprKind::Record(parts) => push_at(parts, found),
    }
}

#[cycle(mention)]
fn push_two<'e>(
    first: &'e Expr,
    second: &'e Expr,
    found: &mut Vec<Mention<'e>>,
) -> Result<(), AllocError>
    ensures { OnOk result (mentions_seen found.new.items
        ≡ mentions_seen found.old.items ++ (mentions first.now ++ mentions second.now)) }
{
    push_mentions(first, found)?;
    push_mentions(second, found)?;
    Ok(())
}

#[cycle(mention)]
fn push_three<'e>(
    first: &'e Expr,
    second: &'e Expr,
    third: &'e Expr,
    found: &mut Vec<Mention<'e>>,
) -> Result<(), AllocError>
    ensures { OnOk result (mentions_seen found.new.items
        ≡ mentions_seen found.old.items ++ (mentions first.now ++ (mentions second.now ++ mentions third.now))) }
{
    push_mentions(first, found)?;
    push_two(second, third, found)?;
    Ok(())
}

// What is tested, and then the type.
#[cycle(mention)]
fn push_test<'e>(
    tested: &'e Expr,
    ty: &'e EntityType,
    place: Option<Loc>,
    found: &mut Vec<Mention<'e>>,
) -> Result<(), AllocError>
    ensures { OnOk result (mentions_seen found.new.items ≡ mentions_seen found.old.items
        ++ (mentions tested.now ++ record { named = specs.of_type ty.now; place = place } ∷ [])) }
{
    push_mentions(tested, found)?;
    put(Named::EntityType(ty), place, found)?;
    Ok(())
}

#[cycle(mention)]
fn push_each<'e>(parts: &'e Vec<Expr>, found: &mut Vec<Mention<'e>>) -> Result<(), AllocError>
    ensures { OnOk result (mentions_seen found.new.items
        ≡ mentions_seen found.old.items ++ mentions_each parts.now.items) }
{
    'parts: for part in parts {
        push_mentions(part, found)?;
    }
    Ok(())
}

#[cycle(mention)]
fn push_at<'e>(
    parts: &'e BTreeMap<RcStr, Expr>,
    found: &mut Vec<Mention<'e>>,
) -> Result<(), AllocError>
    ensures { OnOk result (mentions_seen found.new.items
        ≡ mentions_seen found.old.items ++ mentions_at parts.now.entries) }
{
    'parts: for (_, part) in parts {
        push_mentions(part, found)?;
    }
    Ok(())
}

fn push_literal<'e>(
    literal: &'e Literal,
    place: Option<Loc>,
    found: &mut Vec<Mention<'e>>,
) -> Result<(), AllocError>
    ensures { OnOk result (mentions_seen found.new.items
        ≡ mentions_seen found.old.items ++ literal_mentions literal.now place) }
{
    match literal {
        Literal::Bool(_) => Ok(()),
        Literal::Long(_) => Ok(()),
        Literal::String(_) => Ok(()),
        Literal::EntityUID(uid) => put(Named::Entity(uid), place, found),
    }
}

fn put<'e>(
    named: Named<'e>,
    place: Option<Loc>,
    found: &mut Vec<Mention<'e>>,
) -> Result<(), AllocError>
    ensures { OnOk result (mentions_seen found.new.items ≡ mentions_seen found.old.items
        ++ record { named = specs.named_view named.entry; place = place } ∷ []) }
{
    found.push(Mention { named, place })?;
    Ok(())
}

fn place_of(expr: &Expr) -> Option<Loc>
    ensures { result ≡ expr_loc expr.now }
{
    match expr.source_loc() {
        Some(loc) => Some(*loc),
        None => None,
    }
}

/// Puts what the policy names after the others: in its scope, of principal, action and resource, and then in its
/// condition.
pub(crate) fn push_policy_mentions<'p>(
    policy: &'p Policy,
    found: &mut Vec<Mention<'p>>,
) -> Result<(), AllocError>
    ensures { OnOk result (mentions_seen found.new.items
        ≡ mentions_seen found.old.items ++ policy_mentions (policy_parts policy.now)) }
{
    push_mentions(policy.principal_constraint(), found)?;
    push_action_mentions(policy.action_constraint(), found)?;
    push_two(policy.resource_constraint(), policy.when_clause(), found)?;
    Ok(())
}

// What the constraint on the action names: to the right of `in` a group.
fn push_action_mentions<'e>(
    action: &'e Expr,
    found: &mut Vec<Mention<'e>>,
) -> Result<(), AllocError>
    ensures { OnOk result (mentions_seen found.new.items
        ≡ mentions_seen found.old.items ++ action_mentions action.now) }
{
    match membership_in(action) {
        Some((left, right)) => push_membership(left, right, found),
        None => push_mentions(action, found),
    }
}

fn push_membership<'e>(
    left: &'e Expr,
    right: &'e Expr,
    found: &mut Vec<Mention<'e>>,
) -> Result<(), AllocError>
    ensures { OnOk result (mentions_seen found.new.items
        ≡ mentions_seen found.old.items ++ (mentions left.now ++ group_mentions right.now)) }
{
    push_mentions(left, found)?;
    push_group(right, found)?;
    Ok(())
}

fn push_group<'e>(expr: &'e Expr, found: &mut Vec<Mention<'e>>) -> Result<(), AllocError>
    ensures { OnOk result (mentions_seen found.new.items
        ≡ mentions_seen found.old.items ++ group_mentions expr.now) }
{
    match entity_in(expr) {
        Some(uid) => put(Named::Group(uid), place_of(expr), found),
        None => push_mentions(expr, found),
    }
}

// Both sides, of `in`.
fn membership_in(expr: &Expr) -> Option<(&Expr, &Expr)>
    ensures { pair_seen result ≡ membership_parts (node_of expr.now) }
{
    match expr.expr_kind() {
        ExprKind::BinaryApp { op, arg1, arg2 } => if_in(*op, arg1, arg2),
        ExprKind::Lit(_) => None,
        ExprKind::Var(_) => None,
        ExprKind::Slot(_) => None,
        ExprKind::Unknown(_) => None,
        ExprKind::If { .. } => None,
        ExprKind::And { .. } => None,
        ExprKind::Or { .. } => None,
        ExprKind::UnaryApp { .. } => None,
        ExprKind::ExtensionFunctionApp { .. } => None,
        ExprKind::GetAttr { .. } => None,
        ExprKind::HasAttr { .. } => None,
        ExprKind::ExtHasAttr { .. } => None,
        ExprKind::Like { .. } => None,
        ExprKind::Is { .. } => None,
        ExprKind::Set(_) => None,
        ExprKind::Record(_) => None,
    }
}

// Both sides, if the operator is `in`.
fn if_in<'e>(op: BinaryOp, left: &'e Expr, right: &'e Expr) -> Option<(&'e Expr, &'e Expr)>
    ensures { pair_seen result ≡ pair_if (is_in op) left.now right.now }
{
    if is_in(op) { Some((left, right)) } else { None }
}

fn is_in(op: BinaryOp) -> bool
    ensures { result ≡ is_in op }
{
    match op {
        BinaryOp::In => true,
        BinaryOp::Eq => false,
        BinaryOp::Less => false,
        BinaryOp::LessEq => false,
        BinaryOp::Add => false,
        BinaryOp::Sub => false,
        BinaryOp::Mul => false,
        BinaryOp::Contains => false,
        BinaryOp::ContainsAll => false,
        BinaryOp::ContainsAny => false,
        BinaryOp::GetTag => false,
        BinaryOp::HasTag => false,
    }
}

// The entity that the literal is, if the expression is one.
fn entity_in(expr: &Expr) -> Option<&EntityUID>
    ensures { option_copied result ≡ uid_at (node_of expr.now) }
{
    match literal_in(expr) {
        Some(literal) => entity_of(literal),
        None => None,
    }
}

fn entity_of(literal: &Literal) -> Option<&EntityUID>
    ensures { option_copied result ≡ uid_of_literal literal.now }
{
    match literal {
        Literal::EntityUID(uid) => Some(uid),
        Literal::Bool(_) => None,
        Literal::Long(_) => None,
        Literal::String(_) => None,
    }
}

fn literal_in(expr: &Expr) -> Option<&Literal>
    ensures { option_copied result ≡ literal_at (node_of expr.now) }
{
    match expr.expr_kind() {
        ExprKind::Lit(literal) => Some(literal),
        ExprKind::Var(_) => None,
        ExprKind::Slot(_) => None,
        ExprKind::Unknown(_) => None,
        ExprKind::If { .. } => None,
        ExprKind::And { .. } => None,
        ExprKind::Or { .. } => None,
        ExprKind::UnaryApp { .. } => None,
        ExprKind::BinaryApp { .. } => None,
        ExprKind::ExtensionFunctionApp { .. } => None,
        ExprKind::GetAttr { .. } => None,
        ExprKind::HasAttr { .. } => None,
        ExprKind::ExtHasAttr { .. } => None,
        ExprKind::Like { .. } => None,
        ExprKind::Is { .. } => None,
        ExprKind::Set(_) => None,
        ExprKind::Record(_) => None,
    }
}
