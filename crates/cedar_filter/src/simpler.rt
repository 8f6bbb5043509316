#![tactic(auto, using(cedar_expressions::proofs::Levels::levels))]
//! Expressions without what is known in them.
ghost use Rattle.std.specs.Prelude.{◌≡◌, ◌≤◌, IfOk, Option, Some, None, option_map, option_copied};
ghost use Rattle.cedar_model.specs.Agreement.{height};
ghost use Rattle.cedar_model.specs.Terms.{unary, binary, not_operator};
ghost use Rattle.cedar_names.specs.Leaves.{literal_view, unary_view, binary_view};
ghost use Rattle.cedar_expressions.specs.View.{view};
ghost use Rattle.cedar_filter.specs.Simplifying.{known_literal, known_truth, known_long, is_true, is_false, is_boolean};
ghost use Rattle.cedar_filter.specs.Simplifying.{answers_bools, answers_one_bool, literal_truth, simpler_both};
ghost use Rattle.cedar_filter.specs.Simplifying.{simpler_either, simpler_if, simpler_not, simpler_binary};
ghost use Rattle.cedar_filter.specs.Simplifying.{comparison_truth, equal_literals, longs_order, simplified};
ghost use Rattle.cedar_filter.specs.Simplifying.{negated_part, MeanTheSame};

use cedar_expressions::{Expr, ExprKind};
use cedar_fallible::pair_of;
use cedar_names::shared::same_literal;
use cedar_names::{BinaryOp, Literal, UnaryOp};
use std::alloc::{AllocError, Global};
use std::cmp::Ordering;

/// The expression without what is known in it: `true && x`, `x && true`, `false || x`, `x || false` and `!!x` are `x`
/// where `x` shows that it can only be a boolean; `false && x`, `true || x`, `!true` and comparisons of two literals
/// are literals; an `if` of a known test is its branch. It looks through `&&`, `||`, `!` and `if`, and leaves the parts
/// of other kinds as they are. The location of what is made anew is not kept. Refuses only if out of memory.
pub fn simplified(alloc: Global, expr: &Expr) -> Result<Expr, AllocError>
    ensures view { IfOk result (λ e. view e ≡ simplified (view expr.now)) }
    ensures meaning { IfOk result (λ e. MeanTheSame (view e) (view expr.now)) }
    ensures height { IfOk result (λ e. height (view e) ≤ height (view expr.now)) }
{
    simpler(alloc, expr)
}

fn simpler(alloc: Global, expr: &Expr) -> Result<Expr, AllocError>
    ensures { IfOk result (λ e. view e ≡ simplified (view expr.now)) }
{
    match expr.expr_kind() {
        ExprKind::Lit(_) => kept(expr),
        ExprKind::Var(_) => kept(expr),
        ExprKind::Slot(_) => kept(expr),
        ExprKind::Unknown(_) => kept(expr),
        ExprKind::If {
            test_expr,
            then_expr,
            else_expr,
        } => {
            let branches = pair_of(simpler(alloc, then_expr), simpler(alloc, else_expr));
            let (test_expr, (then_expr, else_expr)) = pair_of(simpler(alloc, test_expr), branches)?;
            chosen(alloc, test_expr, then_expr, else_expr)
        }
        ExprKind::And { left, right } => {
            let (left, right) = pair_of(simpler(alloc, left), simpler(alloc, right))?;
            both_of(alloc, left, right)
        }
        ExprKind::Or { left, right } => {
            let (left, right) = pair_of(simpler(alloc, left), simpler(alloc, right))?;
            either_of(alloc, left, right)
        }
        ExprKind::UnaryApp { op, arg } => match op {
            UnaryOp::Not => {
                let part = simpler(alloc, arg)?;
                let made = negated(alloc, &part);
                drop(part);
                made
            }
            UnaryOp::Neg => kept(expr),
            UnaryOp::IsEmpty => kept(expr),
        },
        ExprKind::BinaryApp { op, arg1, arg2 } => match compared(*op, arg1, arg2) {
            Some(truth) => Ok(Expr::val(Literal::Bool(truth))),
            None => kept(expr),
        },
        ExprKind::ExtensionFunctionApp { .. } => kept(expr),
        ExprKind::GetAttr { .. } => kept(expr),
        ExprKind::HasAttr { .. } => kept(expr),
        ExprKind::ExtHasAttr { .. } => kept(expr),
        ExprKind::Like { .. } => kept(expr),
        ExprKind::Is { .. } => kept(expr),
        ExprKind::Set(_) => kept(expr),
        ExprKind::Record(_) => kept(expr),
    }
}

fn kept(expr: &Expr) -> Result<Expr, AllocError>
    ensures { IfOk result (λ e. view e ≡ view expr.now) }
{
    Ok(expr.clone()?)
}

// ---- one connective

fn both_of(alloc: Global, left: Expr, right: Expr) -> Result<Expr, AllocError>
    ensures { IfOk result (λ e. view e ≡ simpler_both (view left) (view right)) }
{
    if is_false(&left) {
        Ok(first_of(left, right))
    } else if is_true(&left) && is_boolean(&right) {
        Ok(first_of(right, left))
    } else if is_true(&right) && is_boolean(&left) {
        Ok(first_of(left, right))
    } else {
        Expr::and(alloc, left, right)
    }
}

fn either_of(alloc: Global, left: Expr, right: Expr) -> Result<Expr, AllocError>
    ensures { IfOk result (λ e. view e ≡ simpler_either (view left) (view right)) }
{
    if is_true(&left) {
        Ok(first_of(left, right))
    } else if is_false(&left) && is_boolean(&right) {
        Ok(first_of(right, left))
    } else if is_false(&right) && is_boolean(&left) {
        Ok(first_of(left, right))
    } else {
        Expr::or(alloc, left, right)
    }
}

fn chosen(
    alloc: Global,
    test_expr: Expr,
    then_expr: Expr,
    else_expr: Expr,
) -> Result<Expr, AllocError>
    ensures { IfOk result (λ e. view e ≡ simpler_if (view test_expr) (view then_expr) (view else_expr)) }
{
    if is_true(&test_expr) {
        Ok(first_of(then_expr, (test_expr, else_expr)))
    } else if is_false(&test_expr) {
        Ok(first_of(else_expr, (test_expr, then_expr)))
    } else {
        Expr::ite(alloc, test_expr, then_expr, else_expr)
    }
}

fn negated(alloc: Global, part: &Expr) -> Result<Expr, AllocError>
    ensures { IfOk result (λ e. view e ≡ simpler_not (view part.now)) }
{
    match truth_in(part) {
        Some(truth) => Ok(Expr::val(Literal::Bool(!truth))),
        None => match negated_in(part) {
            Some(inner) => kept(inner),
            None => Expr::unary_app(alloc, UnaryOp::Not, part.clone()?),
        },
    }
}

// The first; the other is let go.
fn first_of<T: Drop, U: Drop>(first: T, _other: U) -> T
    ensures { result ≡ first }
{
    first
}

// ---- what is known

pub(crate) fn literal_in(expr: &Expr) -> Option<&Literal>
    ensures { option_map literal_view (option_copied result) ≡ known_literal (view expr.now) }
{
    match expr.expr_kind() {
        ExprKind::Lit(literal) => Some(literal),
        ExprKind::Var(_) => None,
        ExprKind::Slot(_) => None,
        ExprKind::Unknown(_) => None,
        ExprKind::If { .. } => None,
        ExprKind::And { .. } => None,
        ExprKind::Or { .. } => None,
        ExprKind::UnaryApp { .. } => None,
        ExprKind::BinaryApp { .. } => None,
        ExprKind::ExtensionFunctionApp { .. } => None,
        ExprKind::GetAttr { .. } => None,
        ExprKind::HasAttr { .. } => None,
        ExprKind::ExtHasAttr { .. } => None,
        ExprKind::Like { .. } => None,
        ExprKind::Is { .. } => None,
        ExprKind::Set(_) => None,
        ExprKind::Record(_) => None,
    }
}

pub(crate) fn literal_truth(literal: &Literal) -> Option<bool>
    ensures { result ≡ literal_truth (literal_view literal.now) }
{
    match literal {
        Literal::Bool(truth) => Some(*truth),
        Literal::Long(_) => None,
        Literal::String(_) => None,
        Literal::EntityUID(_) => None,
    }
}

fn truth_in(expr: &Expr) -> Option<bool>
    ensures { result ≡ known_truth (view expr.now) }
{
    match literal_in(expr) {
        Some(literal) => literal_truth(literal),
        None => None,
    }
}

fn is_true(expr: &Expr) -> bool
    ensures { result ≡ is_true (known_truth (view expr.now)) }
{
    match truth_in(expr) {
        Some(truth) => truth,
        None => false,
    }
}

fn is_false(expr: &Expr) -> bool
    ensures { result ≡ is_false (known_truth (view expr.now)) }
{
    match truth_in(expr) {
        Some(truth) => !truth,
        None => false,
    }
}

// What stands under a `!`, if it is a boolean.
fn negated_in(expr: &Expr) -> Option<&Expr>
    ensures { option_map view (option_copied result) ≡ negated_part (view expr.now) }
{
    match expr.expr_kind() {
        ExprKind::Lit(_) => None,
        ExprKind::Var(_) => None,
        ExprKind::Slot(_) => None,
        ExprKind::Unknown(_) => None,
        ExprKind::If { .. } => None,
        ExprKind::And { .. } => None,
        ExprKind::Or { .. } => None,
        ExprKind::UnaryApp { op, arg } => negated_boolean(*op, arg),
        ExprKind::BinaryApp { .. } => None,
        ExprKind::ExtensionFunctionApp { .. } => None,
        ExprKind::GetAttr { .. } => None,
        ExprKind::HasAttr { .. } => None,
        ExprKind::ExtHasAttr { .. } => None,
        ExprKind::Like { .. } => None,
        ExprKind::Is { .. } => None,
        ExprKind::Set(_) => None,
        ExprKind::Record(_) => None,
    }
}

fn negated_boolean(op: UnaryOp, part: &Expr) -> Option<&Expr>
    ensures { option_map view (option_copied result) ≡ negated_part (unary (unary_view op) (view part.now)) }
{
    match op {
        UnaryOp::Not => { if is_boolean(part) { Some(part) } else { None } }
        UnaryOp::Neg => None,
        UnaryOp::IsEmpty => None,
    }
}

// Whether the expression shows that it can only be a boolean, or err.
fn is_boolean(expr: &Expr) -> bool
    ensures { result ≡ is_boolean (view expr.now) }
{
    match expr.expr_kind() {
        ExprKind::Lit(literal) => literal_truth(literal).is_some(),
        ExprKind::Var(_) => false,
        ExprKind::Slot(_) => false,
        ExprKind::Unknown(_) => false,
        ExprKind::If {
            test_expr: _,
            then_expr,
            else_expr,
        } => is_boolean(then_expr) && is_boolean(else_expr),
        ExprKind::And { .. } => true,
        ExprKind::Or { .. } => true,
        ExprKind::UnaryApp { op, arg: _ } => answers_one_bool(*op),
        ExprKind::BinaryApp { op, .. } => answers_bools(*op),
        ExprKind::ExtensionFunctionApp { .. } => false,
        ExprKind::GetAttr { .. } => false,
        ExprKind::HasAttr { .. } => true,
        ExprKind::ExtHasAttr { .. } => true,
        ExprKind::Like { .. } => true,
        ExprKind::Is { .. } => true,
        ExprKind::Set(_) => false,
        ExprKind::Record(_) => false,
    }
}

fn answers_one_bool(op: UnaryOp) -> bool
    ensures { result ≡ answers_one_bool (unary_view op) }
{
    match op {
        UnaryOp::Not => true,
        UnaryOp::Neg => false,
        UnaryOp::IsEmpty => true,
    }
}

fn answers_bools(op: BinaryOp) -> bool
    ensures { result ≡ answers_bools (binary_view op) }
{
    match op {
        BinaryOp::Eq => true,
        BinaryOp::Less => true,
        BinaryOp::LessEq => true,
        BinaryOp::Add => false,
        BinaryOp::Sub => false,
        BinaryOp::Mul => false,
        BinaryOp::In => true,
        BinaryOp::Contains => true,
        BinaryOp::ContainsAll => true,
        BinaryOp::ContainsAny => true,
        BinaryOp::GetTag => false,
        BinaryOp::HasTag => true,
    }
}

// ---- comparisons of literals

fn compared(op: BinaryOp, first: &Expr, second: &Expr) -> Option<bool>
    ensures { result
        ≡ comparison_truth (binary_view op) (known_literal (view first.now)) (known_literal (view second.now)) }
{
    match op {
        BinaryOp::Eq => equality(literal_in(first), literal_in(second)),
        BinaryOp::Less => match order(long_in(first), long_in(second)) {
            Some(order) => Some(order.is_lt()),
            None => None,
        },
        BinaryOp::LessEq => match order(long_in(first), long_in(second)) {
            Some(order) => Some(order.is_le()),
            None => None,
        },
        BinaryOp::Add => None,
        BinaryOp::Sub => None,
        BinaryOp::Mul => None,
        BinaryOp::In => None,
        BinaryOp::Contains => None,
        BinaryOp::ContainsAll => None,
        BinaryOp::ContainsAny => None,
        BinaryOp::GetTag => None,
        BinaryOp::HasTag => None,
    }
}

#[tactic(auto, unfolding(cedar_names::specs::Equality::literal_eq))]
fn equality(first: Option<&Literal>, second: Option<&Literal>) -> Option<bool>
    ensures { result ≡ equal_literals (option_map literal_view (option_copied first.entry))
        (option_map literal_view (option_copied second.entry)) }
{
    match first {
        None => None,
        Some(first) => match second {
            None => None,
            Some(second) => Some(same_literal(first, second)),
        },
    }
}

pub(crate) fn order(first: Option<i64>, second: Option<i64>) -> Option<Ordering>
    ensures { result ≡ longs_order first second }
{
    match first {
        None => None,
        Some(first) => match second {
            None => None,
            Some(second) => Some(first.cmp(&second)),
        },
    }
}

fn long_in(expr: &Expr) -> Option<i64>
    ensures { result ≡ known_long (known_literal (view expr.now)) }
{
    match literal_in(expr) {
        None => None,
        Some(literal) => long_of(literal),
    }
}

fn long_of(literal: &Literal) -> Option<i64>
    ensures { result ≡ known_long (Some (literal_view literal.now)) }
{
    match literal {
        Literal::Bool(_) => None,
        Literal::Long(number) => Some(*number),
        Literal::String(_) => None,
        Literal::EntityUID(_) => None,
    }
}
