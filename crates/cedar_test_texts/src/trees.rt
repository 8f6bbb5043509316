//! Expressions as trees: `(HEAD PART ..)`, where what has no parts stands for itself.
use crate::answer::Answer;
use cedar_expressions::{Expr, ExprKind};
use cedar_names::{
    BinaryOp, EntityType, EntityUID, FirstRest, Literal, Name, Pattern, PatternElem, UnaryOp,
};
use std::collections::BTreeMap;
use std::rc::RcStr;

/// Writes the tree of the expression.
#[cycle(put)]
pub fn put_tree(answer: &mut Answer, expr: &Expr) {
    match expr.expr_kind() {
        ExprKind::Lit(literal) => put_literal(answer, literal),
        ExprKind::Var(var) => answer.show(var),
        ExprKind::Slot(slot) => answer.show(slot),
        ExprKind::Unknown(unknown) => put_unknown(answer, unknown.name.as_str()),
        ExprKind::If {
            test_expr,
            then_expr,
            else_expr,
        } => {
            open(answer, "if");
            put_part(answer, test_expr);
            put_part(answer, then_expr);
            put_part(answer, else_expr);
            close(answer);
        }
        ExprKind::And { left, right } => {
            open(answer, "and");
            put_part(answer, left);
            put_part(answer, right);
            close(answer);
        }
        ExprKind::Or { left, right } => {
            open(answer, "or");
            put_part(answer, left);
            put_part(answer, right);
            close(answer);
        }
        ExprKind::UnaryApp { op, arg } => put_unary(answer, *op, arg),
        ExprKind::BinaryApp { op, arg1, arg2 } => {
            open(answer, binary_head(*op));
            put_part(answer, arg1);
            put_part(answer, arg2);
            close(answer);
        }
        ExprKind::ExtensionFunctionApp { fn_name, args } => put_call(answer, fn_name, args),
        ExprKind::GetAttr { expr, attr } => put_with_text(answer, "get", expr, attr),
        ExprKind::HasAttr { expr, attr } => put_with_text(answer, "has", expr, attr),
        ExprKind::ExtHasAttr { expr, attrs } => put_extended_has(answer, expr, attrs),
        ExprKind::Like { expr, pattern } => put_like(answer, expr, pattern),
        ExprKind::Is { expr, entity_type } => put_is(answer, expr, entity_type),
        ExprKind::Set(parts) => put_set(answer, parts),
        ExprKind::Record(fields) => put_record(answer, fields),
    }
}

fn put_literal(answer: &mut Answer, literal: &Literal) {
    match literal {
        Literal::Bool(value) => answer.show(value),
        Literal::Long(value) => answer.show(value),
        Literal::String(value) => answer.put_quoted(value.as_str()),
        Literal::EntityUID(uid) => put_entity(answer, uid),
    }
}

/// Writes `(entity TYPE "id")`.
pub fn put_entity(answer: &mut Answer, uid: &EntityUID) {
    answer.put("(entity ");
    answer.show(uid.entity_type());
    answer.put(" ");
    answer.put_quoted(uid.eid().as_str());
    answer.put(")");
}

fn put_unknown(answer: &mut Answer, name: &str) {
    answer.put("(unknown ");
    answer.put_quoted(name);
    answer.put(")");
}

fn unary_head(op: UnaryOp) -> &'static str {
    match op {
        UnaryOp::Not => "not",
        UnaryOp::Neg => "neg",
        UnaryOp::IsEmpty => "isEmpty",
    }
}

fn binary_head(op: BinaryOp) -> &'static str {
    match op {
        BinaryOp::Eq => "==",
        BinaryOp::Less => "<",
        BinaryOp::LessEq => "<=",
        BinaryOp::Add => "+",
        BinaryOp::Sub => "-",
        BinaryOp::Mul => "*",
        BinaryOp::In => "in",
        BinaryOp::Contains => "contains",
        BinaryOp::ContainsAll => "containsAll",
        BinaryOp::ContainsAny => "containsAny",
        BinaryOp::GetTag => "getTag",
        BinaryOp::HasTag => "hasTag",
    }
}

fn open(answer: &mut Answer, head: &str) {
    answer.put("(");
    answer.put(head);
}

fn close(answer: &mut Answer) {
    answer.put(")");
}

#[cycle(put)]
fn put_part(answer: &mut Answer, part: &Expr) {
    answer.put(" ");
    put_tree(answer, part);
}

#[cycle(put)]
fn put_parts(answer: &mut Answer, parts: &[Expr]) {
    'parts: for part in parts {
        put_part(answer, part);
    }
}

fn put_next_text(answer: &mut Answer, text: &RcStr) {
    answer.put(" ");
    answer.put_quoted(text.as_str());
}

#[cycle(put)]
fn put_unary(answer: &mut Answer, op: UnaryOp, arg: &Expr) {
    open(answer, unary_head(op));
    put_part(answer, arg);
    close(answer);
}

#[cycle(put)]
fn put_call(answer: &mut Answer, name: &Name, args: &[Expr]) {
    open(answer, "call ");
    answer.show(name);
    put_parts(answer, args);
    close(answer);
}

#[cycle(put)]
fn put_with_text(answer: &mut Answer, head: &str, expr: &Expr, text: &RcStr) {
    open(answer, head);
    put_part(answer, expr);
    put_next_text(answer, text);
    close(answer);
}

#[cycle(put)]
fn put_extended_has(answer: &mut Answer, expr: &Expr, attrs: &FirstRest<RcStr>) {
    open(answer, "extended-has");
    put_part(answer, expr);
    put_attributes(answer, attrs);
    close(answer);
}

fn put_attributes(answer: &mut Answer, attrs: &FirstRest<RcStr>) {
    put_next_text(answer, &attrs.first);
    'attributes: for attr in &attrs.rest {
        put_next_text(answer, attr);
    }
}

#[cycle(put)]
fn put_like(answer: &mut Answer, expr: &Expr, pattern: &Pattern) {
    open(answer, "like");
    put_part(answer, expr);
    put_pattern(answer, pattern);
    close(answer);
}

fn put_pattern(answer: &mut Answer, pattern: &Pattern) {
    answer.put(" \"");
    'elements: for element in pattern.elems() {
        put_element(answer, *element);
    }
    answer.put("\"");
}

// A wildcard is a star, and a star `\*`.
fn put_element(answer: &mut Answer, element: PatternElem) {
    match element {
        PatternElem::Char('*') => answer.put("\\*"),
        PatternElem::Char(character) => answer.put_escaped(character),
        PatternElem::Wildcard => answer.put("*"),
    }
}

#[cycle(put)]
fn put_is(answer: &mut Answer, expr: &Expr, entity_type: &EntityType) {
    open(answer, "is");
    put_part(answer, expr);
    answer.put(" ");
    answer.show(entity_type);
    close(answer);
}

#[cycle(put)]
fn put_set(answer: &mut Answer, parts: &[Expr]) {
    open(answer, "set");
    put_parts(answer, parts);
    close(answer);
}

#[cycle(put)]
fn put_record(answer: &mut Answer, fields: &BTreeMap<RcStr, Expr>) {
    open(answer, "record");
    'fields: for (key, part) in fields.iter() {
        put_field(answer, key, part);
    }
    close(answer);
}

#[cycle(put)]
fn put_field(answer: &mut Answer, key: &RcStr, part: &Expr) {
    answer.put(" (");
    answer.put_quoted(key.as_str());
    put_part(answer, part);
    answer.put(")");
}
