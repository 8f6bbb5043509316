//! Reads values of Cedar's text: literals, sets and records, where `V.at(1, 2)` is `V` at this place, and
//! `decimal("1.5")` is the extension value of this type that the function of the type's name makes of the text, which
//! is its key.
use crate::notation::expressions::expression;
use crate::notation::unanswered::Unanswered;
use crate::notation::{Parts, add, both, map_of_pairs};
use cedar_layers::expressions::{
    Expr, ExprKind, ExtensionValue, Literal, Name, Representation, Value, ValueKind,
};
use std::alloc::{AllocError, Global};
use std::collections::BTreeMap;
use std::rc::{Rc, RcStr};

/// The value that the text writes.
pub fn value(alloc: Global, text: &str) -> Result<Value, Unanswered> {
    match expression(alloc, text) {
        Ok(expr) => {
            let value = value_of(alloc, &expr);
            drop(expr);
            value
        }
        Err(why) => Err(why),
    }
}

/// The two values that the text writes, with ` ~ ` between them.
pub fn two_values(alloc: Global, text: &str) -> Result<(Value, Value), Unanswered> {
    let (left, right) = text.split_once(" ~ ").ok_or("two values")?;
    both(value(alloc, left), value(alloc, right))
}

/// The value that the expression writes.
pub fn value_of(alloc: Global, expr: &Expr) -> Result<Value, Unanswered> {
    let mut parts: Parts<Value> = Parts::new(alloc);
    visit(alloc, expr, &mut parts);
    parts.only()
}

// Puts the value that the expression writes behind the others, where the expression stands.
#[cycle(visit)]
fn visit(alloc: Global, expr: &Expr, parts: &mut Parts<Value>) {
    match expr.expr_kind() {
        ExprKind::Lit(literal) => put_literal(literal.clone(), parts),
        ExprKind::Set(elements) => {
            visit_each(alloc, elements, parts);
            put_set(alloc, elements.len(), parts);
        }
        ExprKind::Record(pairs) => visit_record(alloc, pairs, parts),
        ExprKind::ExtensionFunctionApp { fn_name, args } => {
            parts.push_read(extension(alloc, fn_name.text().as_str(), args));
        }
        ExprKind::Var(_) => refuse(parts),
        ExprKind::Slot(_) => refuse(parts),
        ExprKind::Unknown(_) => refuse(parts),
        ExprKind::If { .. } => refuse(parts),
        ExprKind::And { .. } => refuse(parts),
        ExprKind::Or { .. } => refuse(parts),
        ExprKind::UnaryApp { .. } => refuse(parts),
        ExprKind::BinaryApp { .. } => refuse(parts),
        ExprKind::GetAttr { .. } => refuse(parts),
        ExprKind::HasAttr { .. } => refuse(parts),
        ExprKind::ExtHasAttr { .. } => refuse(parts),
        ExprKind::Like { .. } => refuse(parts),
        ExprKind::Is { .. } => refuse(parts),
    }
    place_last(expr, parts);
}

fn refuse(parts: &mut Parts<Value>) {
    parts.refuse("no value");
}

#[cycle(visit)]
fn visit_each(alloc: Global, each: &[Expr], parts: &mut Parts<Value>) {
    'each: for one in each {
        visit(alloc, one, parts);
    }
}

#[cycle(visit)]
fn visit_record(alloc: Global, read: &BTreeMap<RcStr, Expr>, parts: &mut Parts<Value>) {
    let mut pairs: Vec<(RcStr, Value)> = Vec::new(alloc);
    'pairs: for (key, part) in read.iter() {
        visit(alloc, part, parts);
        put_pair(&mut pairs, key, parts);
    }
    put_record(alloc, map_of_pairs(alloc, pairs), parts);
}

fn put(parts: &mut Parts<Value>, value: Value) {
    parts.push(value);
}

fn put_made(parts: &mut Parts<Value>, made: Result<Value, AllocError>) {
    match made {
        Ok(value) => parts.push(value),
        Err(_) => parts.lack_memory(),
    }
}

fn pop_value(parts: &mut Parts<Value>) -> Value {
    parts.pop(Value::from(Literal::Bool(false)))
}

// Puts the last value where the expression stands.
fn place_last(expr: &Expr, parts: &mut Parts<Value>) {
    if let Some(place) = expr.source_loc() {
        let value = pop_value(parts).with_maybe_source_loc(Some(*place));
        put(parts, value);
    }
}

fn put_literal(literal: Result<Literal, AllocError>, parts: &mut Parts<Value>) {
    match literal {
        Ok(literal) => put(parts, Value::from(literal)),
        Err(_) => parts.lack_memory(),
    }
}

fn put_set(alloc: Global, count: usize, parts: &mut Parts<Value>) {
    match parts.last(count) {
        Ok(elements) => put_made(parts, Value::set(alloc, elements, None)),
        Err(_) => parts.lack_memory(),
    }
}

// Takes the last value, and puts it behind these pairs under its key.
fn put_pair(pairs: &mut Vec<(RcStr, Value)>, key: &RcStr, parts: &mut Parts<Value>) {
    let part = pop_value(parts);
    match key.clone() {
        Ok(key) => if add(pairs, (key, part)).is_err() {
            parts.lack_memory();
        },
        Err(_) => {
            drop(part);
            parts.lack_memory();
        }
    }
}

fn put_record(
    alloc: Global,
    map: Result<BTreeMap<RcStr, Value>, AllocError>,
    parts: &mut Parts<Value>,
) {
    match map {
        Ok(map) => put_made(parts, Value::record(alloc, map, None)),
        Err(_) => parts.lack_memory(),
    }
}

fn extension(alloc: Global, ty: &str, arguments: &[Expr]) -> Result<Value, Unanswered> {
    let argument = only_text(arguments)?;
    let value = extension_value(alloc, ty, argument)?;
    Ok(Value::new(ValueKind::ExtensionValue(Rc::new(alloc, value)?), None))
}

// The text that is the only argument.
fn only_text(arguments: &[Expr]) -> Result<&str, Unanswered> {
    match arguments {
        [argument] => match argument.expr_kind() {
            ExprKind::Lit(Literal::String(text)) => Ok(text.as_str()),
            _ => Err(Unanswered::Unreadable("an extension value is made of a text")),
        },
        _ => Err(Unanswered::Unreadable("an extension value is made of one text")),
    }
}

fn extension_value(alloc: Global, ty: &str, argument: &str) -> Result<ExtensionValue, Unanswered> {
    let mut key: Vec<u8> = Vec::new(alloc);
    key.extend_from_slice(argument.as_bytes())?;
    let typename = name(alloc, ty)?;
    let representation = representation(alloc, name(alloc, ty)?, argument)?;
    Ok(ExtensionValue {
        typename,
        representation,
        key,
    })
}

fn name(alloc: Global, text: &str) -> Result<Name, AllocError> {
    Ok(Name::new(RcStr::from_str(alloc, text)?, None))
}

fn representation(
    alloc: Global,
    function: Name,
    argument: &str,
) -> Result<Representation, AllocError> {
    let argument = RcStr::from_str(alloc, argument)?;
    let arguments = vec![in alloc; Expr::val(Literal::String(argument))]?;
    Ok(Representation::new(function, Rc::new(alloc, arguments)?))
}
