//! Reads expressions of Cedar's text, and drops their places. What Cedar has no syntax for is written as a call:
//! `calls` says which.
use crate::notation::calls::put_call;
use crate::notation::leaves::{attributes, without_place};
use crate::notation::unanswered::Unanswered;
use crate::notation::{Parts, add, or_memory};
use cedar_functions::Functions;
use cedar_layers::expressions::{
    BinaryOp, EntityType, EntityUID, Expr, ExprKind, ExpressionConstructionError, FirstRest,
    Literal, Name, Pattern, UnaryOp,
};
use cedar_restricted::{RestrictedExpr, RestrictedExpressionError};
use cedar_text_parser::parse_expr;
use std::alloc::{AllocError, Global};
use std::collections::BTreeMap;
use std::rc::RcStr;

/// More levels than the text of any row has.
pub const LEVELS: usize = 1000;

/// The expression that the text writes.
pub fn expression(alloc: Global, text: &str) -> Result<Expr, Unanswered> {
    match parse_expr(alloc, text, LEVELS, &Functions::any()) {
        Ok(read) => {
            let made = meant(alloc, &read);
            drop(read);
            made
        }
        Err(error) => Err(Unanswered::from(error)),
    }
}

/// The expression that is meant by what was read of Cedar's text.
pub fn meant(alloc: Global, read: &Expr) -> Result<Expr, Unanswered> {
    let mut parts: Parts<Expr> = Parts::new(alloc);
    visit(alloc, read, &mut parts);
    parts.only()
}

/// The restricted expression that the text writes.
pub fn read_restricted(alloc: Global, text: &str) -> Result<RestrictedExpr, Unanswered> {
    restricted_of(expression(alloc, text)?)
}

/// The expression, where it is restricted.
pub fn restricted_of(expr: Expr) -> Result<RestrictedExpr, Unanswered> {
    match RestrictedExpr::new(expr) {
        Ok(expr) => Ok(expr),
        Err(error) => {
            let reason = reason(&error);
            drop(error);
            Err(reason)
        }
    }
}

// Why there is no answer where the expression is refused.
fn reason(error: &RestrictedExpressionError) -> Unanswered {
    match error {
        RestrictedExpressionError::InvalidRestrictedExpression(_) => {
            Unanswered::Unreadable("not restricted")
        }
        RestrictedExpressionError::Memory(_) => Unanswered::Memory,
    }
}

// ---- what was read, part by part

// Puts what is meant by this behind the others.
#[cycle(visit)]
fn visit(alloc: Global, read: &Expr, parts: &mut Parts<Expr>) {
    match read.expr_kind() {
        ExprKind::Lit(literal) => put_literal(alloc, literal, parts),
        ExprKind::Var(var) => put(parts, Expr::var(*var)),
        ExprKind::Slot(slot) => put(parts, Expr::slot(*slot)),
        ExprKind::Unknown(_) => parts.refuse("no text writes an unknown"),
        ExprKind::If {
            test_expr,
            then_expr,
            else_expr,
        } => {
            visit(alloc, test_expr, parts);
            visit(alloc, then_expr, parts);
            visit(alloc, else_expr, parts);
            put_if(alloc, parts);
        }
        ExprKind::And { left, right } => {
            visit(alloc, left, parts);
            visit(alloc, right, parts);
            put_and(alloc, parts);
        }
        ExprKind::Or { left, right } => {
            visit(alloc, left, parts);
            visit(alloc, right, parts);
            put_or(alloc, parts);
        }
        ExprKind::UnaryApp { op, arg } => visit_unary(alloc, *op, arg, parts),
        ExprKind::BinaryApp { op, arg1, arg2 } => {
            visit(alloc, arg1, parts);
            visit(alloc, arg2, parts);
            put_binary(alloc, *op, parts);
        }
        ExprKind::ExtensionFunctionApp { fn_name, args } => {
            visit_call(alloc, fn_name, args, parts)
        }
        ExprKind::GetAttr { expr, attr } => visit_attribute(alloc, expr, attr, parts),
        ExprKind::HasAttr { expr, attr } => visit_has(alloc, expr, attr, parts),
        ExprKind::ExtHasAttr { expr, attrs } => visit_path(alloc, expr, attrs, parts),
        ExprKind::Like { expr, pattern } => visit_like(alloc, expr, pattern, parts),
        ExprKind::Is { expr, entity_type } => visit_is(alloc, expr, entity_type, parts),
        ExprKind::Set(elements) => visit_set(alloc, elements, parts),
        ExprKind::Record(pairs) => visit_record(alloc, pairs, parts),
    }
}

#[cycle(visit)]
fn visit_unary(alloc: Global, op: UnaryOp, arg: &Expr, parts: &mut Parts<Expr>) {
    visit(alloc, arg, parts);
    put_unary(alloc, op, parts);
}

#[cycle(visit)]
fn visit_call(alloc: Global, name: &Name, args: &[Expr], parts: &mut Parts<Expr>) {
    visit_each(alloc, args, parts);
    put_call(alloc, name.text().as_str(), args.len(), parts);
}

#[cycle(visit)]
fn visit_attribute(alloc: Global, expr: &Expr, attribute: &RcStr, parts: &mut Parts<Expr>) {
    visit(alloc, expr, parts);
    put_attribute(alloc, attribute, parts);
}

#[cycle(visit)]
fn visit_has(alloc: Global, expr: &Expr, attribute: &RcStr, parts: &mut Parts<Expr>) {
    visit(alloc, expr, parts);
    put_has(alloc, attribute, parts);
}

#[cycle(visit)]
fn visit_path(alloc: Global, expr: &Expr, path: &FirstRest<RcStr>, parts: &mut Parts<Expr>) {
    visit(alloc, expr, parts);
    put_path(alloc, or_memory(attributes(alloc, path)), parts);
}

#[cycle(visit)]
fn visit_like(alloc: Global, expr: &Expr, pattern: &Pattern, parts: &mut Parts<Expr>) {
    visit(alloc, expr, parts);
    put_like(alloc, pattern, parts);
}

#[cycle(visit)]
fn visit_is(alloc: Global, expr: &Expr, ty: &EntityType, parts: &mut Parts<Expr>) {
    visit(alloc, expr, parts);
    put_is(alloc, ty, parts);
}

#[cycle(visit)]
fn visit_set(alloc: Global, elements: &[Expr], parts: &mut Parts<Expr>) {
    visit_each(alloc, elements, parts);
    put_set(alloc, elements.len(), parts);
}

#[cycle(visit)]
fn visit_each(alloc: Global, each: &[Expr], parts: &mut Parts<Expr>) {
    'each: for one in each {
        visit(alloc, one, parts);
    }
}

#[cycle(visit)]
fn visit_record(alloc: Global, read: &BTreeMap<RcStr, Expr>, parts: &mut Parts<Expr>) {
    let mut pairs: Vec<(RcStr, Expr)> = Vec::new(alloc);
    'pairs: for (key, part) in read.iter() {
        visit(alloc, part, parts);
        put_pair(&mut pairs, key, parts);
    }
    put_distinct(Expr::record(alloc, pairs), parts);
}

// ---- what becomes of the parts that were put last

pub(super) fn put(parts: &mut Parts<Expr>, expr: Expr) {
    parts.push(expr);
}

pub(super) fn put_made(parts: &mut Parts<Expr>, made: Result<Expr, AllocError>) {
    match made {
        Ok(expr) => parts.push(expr),
        Err(_) => parts.lack_memory(),
    }
}

pub(super) fn pop_expression(parts: &mut Parts<Expr>) -> Expr {
    parts.pop(Expr::val(Literal::Bool(false)))
}

fn put_literal(alloc: Global, literal: &Literal, parts: &mut Parts<Expr>) {
    match literal {
        Literal::Bool(is_true) => put(parts, Expr::val(Literal::Bool(*is_true))),
        Literal::Long(number) => put(parts, Expr::val(Literal::Long(*number))),
        Literal::String(text) => put_text(text.clone(), parts),
        Literal::EntityUID(uid) => put_entity(alloc, without_place(alloc, uid), parts),
    }
}

fn put_text(text: Result<RcStr, AllocError>, parts: &mut Parts<Expr>) {
    match text {
        Ok(text) => put(parts, Expr::val(Literal::String(text))),
        Err(_) => parts.lack_memory(),
    }
}

fn put_entity(alloc: Global, uid: Result<EntityUID, AllocError>, parts: &mut Parts<Expr>) {
    match uid {
        Ok(uid) => put_made(parts, Expr::entity(alloc, uid)),
        Err(_) => parts.lack_memory(),
    }
}

fn put_if(alloc: Global, parts: &mut Parts<Expr>) {
    let else_expr = pop_expression(parts);
    let then_expr = pop_expression(parts);
    let test_expr = pop_expression(parts);
    put_made(parts, Expr::ite(alloc, test_expr, then_expr, else_expr));
}

fn put_and(alloc: Global, parts: &mut Parts<Expr>) {
    let right = pop_expression(parts);
    let left = pop_expression(parts);
    put_made(parts, Expr::and(alloc, left, right));
}

fn put_or(alloc: Global, parts: &mut Parts<Expr>) {
    let right = pop_expression(parts);
    let left = pop_expression(parts);
    put_made(parts, Expr::or(alloc, left, right));
}

pub(super) fn put_unary(alloc: Global, op: UnaryOp, parts: &mut Parts<Expr>) {
    let arg = pop_expression(parts);
    put_made(parts, Expr::unary_app(alloc, op, arg));
}

fn put_binary(alloc: Global, op: BinaryOp, parts: &mut Parts<Expr>) {
    let right = pop_expression(parts);
    let left = pop_expression(parts);
    put_made(parts, Expr::binary_app(alloc, op, left, right));
}

fn put_attribute(alloc: Global, attribute: &RcStr, parts: &mut Parts<Expr>) {
    match attribute.clone() {
        Ok(attribute) => {
            let expr = pop_expression(parts);
            put_made(parts, Expr::get_attr(alloc, expr, attribute));
        }
        Err(_) => parts.lack_memory(),
    }
}

fn put_has(alloc: Global, attribute: &RcStr, parts: &mut Parts<Expr>) {
    match attribute.clone() {
        Ok(attribute) => {
            let expr = pop_expression(parts);
            put_made(parts, Expr::has_attr(alloc, expr, attribute));
        }
        Err(_) => parts.lack_memory(),
    }
}

// Takes the last part, and puts an extended `has` of it.
pub(super) fn put_path(
    alloc: Global,
    path: Result<FirstRest<RcStr>, Unanswered>,
    parts: &mut Parts<Expr>,
) {
    match path {
        Ok(path) => {
            let expr = pop_expression(parts);
            put_made(parts, Expr::extended_has_attr(alloc, expr, path));
        }
        Err(why) => parts.fail(why),
    }
}

fn put_like(alloc: Global, pattern: &Pattern, parts: &mut Parts<Expr>) {
    match pattern.clone() {
        Ok(pattern) => {
            let expr = pop_expression(parts);
            put_made(parts, Expr::like(alloc, expr, pattern));
        }
        Err(_) => parts.lack_memory(),
    }
}

fn put_is(alloc: Global, ty: &EntityType, parts: &mut Parts<Expr>) {
    match ty.text().clone() {
        Ok(text) => {
            let expr = pop_expression(parts);
            let ty = EntityType::new(Name::new(text, None));
            put_made(parts, Expr::is_entity_type(alloc, expr, ty));
        }
        Err(_) => parts.lack_memory(),
    }
}

pub(super) fn put_set(alloc: Global, count: usize, parts: &mut Parts<Expr>) {
    match parts.last(count) {
        Ok(elements) => put_made(parts, Expr::set(alloc, elements)),
        Err(_) => parts.lack_memory(),
    }
}

// Takes the last part, and puts it behind these pairs under its key.
fn put_pair(pairs: &mut Vec<(RcStr, Expr)>, key: &RcStr, parts: &mut Parts<Expr>) {
    let part = pop_expression(parts);
    match key.clone() {
        Ok(key) => if add(pairs, (key, part)).is_err() {
            parts.lack_memory();
        },
        Err(_) => {
            drop(part);
            parts.lack_memory();
        }
    }
}

fn put_distinct(made: Result<Expr, ExpressionConstructionError>, parts: &mut Parts<Expr>) {
    match made {
        Ok(expr) => put(parts, expr),
        Err(ExpressionConstructionError::DuplicateKey { key: _, context: _ }) => {
            parts.refuse("a key twice")
        }
        Err(ExpressionConstructionError::Memory(_)) => parts.lack_memory(),
    }
}
