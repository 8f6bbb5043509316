//! Reads what Cedar has no syntax for, which is written as a call:
//!
//! - `unknown("x")` and `unknown("x", "Long")` are unknowns, and `missing(User::"a")` is the one that stands for an
//!   entity that a partial store lacks; `slot(principal)` is a slot.
//! - `E.at(1, 2)` is `E` at this place, and `f(1).name_at(1, 2)` the call of a function that is named at this place.
//!   All else has no place.
//! - `call("f", 1)` is `f(1)`, whatever the function's name is, as `call("unknown", "x")`.
//! - `E.has_path("a")` is `E has a` as an extended `has` of this one attribute, or of more.
//! - `fields({a: 1})` is the record, made of a map.
//! - `in_sets(9, E)` is `E` in nine sets, each the only element of the next, and `negated(9, E)` is `E` behind nine
//!   `!`.
use crate::notation::Parts;
use crate::notation::expressions::{pop_expression, put, put_made, put_path, put_set, put_unary};
use crate::notation::leaves::{named_type, slot_of, standing_for};
use crate::notation::unanswered::Unanswered;
use cedar_layers::expressions::{Expr, ExprKind, FirstRest, Literal, Loc, Name, UnaryOp, Unknown};
use std::alloc::{AllocError, Global};
use std::collections::BTreeMap;
use std::rc::{Rc, RcStr};

/// Takes the last parts, so many, and puts what the call of a function of this name with them stands for.
pub(super) fn put_call(alloc: Global, name: &str, count: usize, parts: &mut Parts<Expr>) {
    match name {
        "unknown" => put_unknown(alloc, count, parts),
        "missing" => put_missing(alloc, count, parts),
        "slot" => put_slot(count, parts),
        "at" => place_last(count, parts),
        "name_at" => place_name(count, parts),
        "call" => put_named_call(alloc, count, parts),
        "has_path" => put_named_path(alloc, count, parts),
        "fields" => put_fields(alloc, count, parts),
        "in_sets" => put_sets(alloc, count, parts),
        "negated" => put_negations(alloc, count, parts),
        _ => put_plain_call(alloc, name, count, parts),
    }
}

fn put_plain_call(alloc: Global, name: &str, count: usize, parts: &mut Parts<Expr>) {
    match RcStr::from_str(alloc, name) {
        Ok(name) => put_call_of(alloc, name, count, parts),
        Err(_) => parts.lack_memory(),
    }
}

fn put_call_of(alloc: Global, name: RcStr, count: usize, parts: &mut Parts<Expr>) {
    match parts.last(count) {
        Ok(arguments) => {
            let name = Name::new(name, None);
            put_made(parts, Expr::call_extension_fn(alloc, name, arguments));
        }
        Err(_) => parts.lack_memory(),
    }
}

// The first argument is the name.
fn put_named_call(alloc: Global, count: usize, parts: &mut Parts<Expr>) {
    match parts.last(count.saturating_sub(1)) {
        Ok(arguments) => {
            let name = popped_text(alloc, parts);
            put_call_with(alloc, name, arguments, parts);
        }
        Err(_) => parts.lack_memory(),
    }
}

fn put_call_with(
    alloc: Global,
    name: Result<RcStr, Unanswered>,
    arguments: Vec<Expr>,
    parts: &mut Parts<Expr>,
) {
    match name {
        Ok(name) => {
            let name = Name::new(name, None);
            put_made(parts, Expr::call_extension_fn(alloc, name, arguments));
        }
        Err(why) => {
            drop(arguments);
            parts.fail(why);
        }
    }
}

// Refuses another number of arguments.
fn takes(count: usize, wanted: usize, parts: &mut Parts<Expr>) {
    if count != wanted {
        parts.refuse("another number of arguments");
    }
}

// The text that the last part is.
fn popped_text(alloc: Global, parts: &mut Parts<Expr>) -> Result<RcStr, Unanswered> {
    let last = pop_expression(parts);
    let text = text_of(alloc, &last);
    drop(last);
    text
}

fn text_of(alloc: Global, expr: &Expr) -> Result<RcStr, Unanswered> {
    match expr.expr_kind() {
        ExprKind::Lit(Literal::String(text)) => Ok(RcStr::from_str(alloc, text.as_str())?),
        _ => Err(Unanswered::Unreadable("no text")),
    }
}

// The number that the last part is.
fn popped_number(parts: &mut Parts<Expr>) -> usize {
    let last = pop_expression(parts);
    let number = number_of(&last);
    drop(last);
    match number {
        Some(number) => number,
        None => {
            parts.refuse("no number");
            0
        }
    }
}

fn number_of(expr: &Expr) -> Option<usize> {
    match expr.expr_kind() {
        ExprKind::Lit(Literal::Long(number)) => if *number < 0 {
            None
        } else {
            Some(*number as usize)
        },
        _ => None,
    }
}

// The place with the ends that the last two parts are.
fn popped_place(parts: &mut Parts<Expr>) -> Loc {
    let end = popped_number(parts);
    let start = popped_number(parts);
    Loc { start, end }
}

fn put_unknown(alloc: Global, count: usize, parts: &mut Parts<Expr>) {
    if count == 1 {
        let name = popped_text(alloc, parts);
        put_untyped(name, parts);
    } else {
        takes(count, 2, parts);
        let ty = popped_text(alloc, parts);
        let name = popped_text(alloc, parts);
        put_typed(alloc, name, ty, parts);
    }
}

fn put_untyped(name: Result<RcStr, Unanswered>, parts: &mut Parts<Expr>) {
    match name {
        Ok(name) => put(parts, Expr::unknown(Unknown::new_untyped(name))),
        Err(why) => parts.fail(why),
    }
}

fn put_typed(
    alloc: Global,
    name: Result<RcStr, Unanswered>,
    ty: Result<RcStr, Unanswered>,
    parts: &mut Parts<Expr>,
) {
    match type_unknown(alloc, name, ty) {
        Ok(unknown) => put(parts, Expr::unknown(unknown)),
        Err(why) => parts.fail(why),
    }
}

fn type_unknown(
    alloc: Global,
    name: Result<RcStr, Unanswered>,
    ty: Result<RcStr, Unanswered>,
) -> Result<Unknown, Unanswered> {
    let (name, ty) = (name?, ty?);
    Ok(Unknown::new_with_type(name, named_type(alloc, ty.as_str())?))
}

fn put_missing(alloc: Global, count: usize, parts: &mut Parts<Expr>) {
    takes(count, 1, parts);
    let entity = pop_expression(parts);
    let unknown = missing(alloc, &entity);
    drop(entity);
    match unknown {
        Ok(unknown) => put(parts, Expr::unknown(unknown)),
        Err(why) => parts.fail(why),
    }
}

fn missing(alloc: Global, entity: &Expr) -> Result<Unknown, Unanswered> {
    match entity.expr_kind() {
        ExprKind::Lit(Literal::EntityUID(uid)) => Ok(standing_for(alloc, uid)?),
        _ => Err(Unanswered::Unreadable("no entity is missing")),
    }
}

fn put_slot(count: usize, parts: &mut Parts<Expr>) {
    takes(count, 1, parts);
    let var = pop_expression(parts);
    let slot = match var.expr_kind() {
        ExprKind::Var(var) => slot_of(*var),
        _ => None,
    };
    drop(var);
    match slot {
        Some(slot) => put(parts, Expr::slot(slot)),
        None => parts.refuse("no such slot"),
    }
}

// Puts the first argument at the place.
fn place_last(count: usize, parts: &mut Parts<Expr>) {
    takes(count, 3, parts);
    let place = popped_place(parts);
    let expr = pop_expression(parts).with_maybe_source_loc(Some(place));
    put(parts, expr);
}

// Puts the name of the function that the first argument calls at the place.
fn place_name(count: usize, parts: &mut Parts<Expr>) {
    takes(count, 3, parts);
    let place = popped_place(parts);
    let call = pop_expression(parts);
    let named = named_there(&call, place);
    drop(call);
    match named {
        Ok(call) => put(parts, call),
        Err(why) => parts.fail(why),
    }
}

fn named_there(call: &Expr, place: Loc) -> Result<Expr, Unanswered> {
    match call.expr_kind() {
        ExprKind::ExtensionFunctionApp { fn_name, args } => {
            Ok(called_there(fn_name, args, place)?)
        }
        _ => Err(Unanswered::Unreadable("no call")),
    }
}

fn called_there(name: &Name, arguments: &Rc<Vec<Expr>>, place: Loc) -> Result<Expr, AllocError> {
    let name = Name::new(name.text().clone()?, Some(place));
    let arguments = arguments.clone()?;
    Ok(Expr::call_shared(name, arguments))
}

// The first argument is what has the attributes, which the others are.
fn put_named_path(alloc: Global, count: usize, parts: &mut Parts<Expr>) {
    match parts.last(count.saturating_sub(1)) {
        Ok(attributes) => {
            let path = path_of(alloc, &attributes);
            drop(attributes);
            put_path(alloc, path, parts);
        }
        Err(_) => parts.lack_memory(),
    }
}

fn path_of(alloc: Global, attributes: &[Expr]) -> Result<FirstRest<RcStr>, Unanswered> {
    match attributes.split_first() {
        Some((first, others)) => {
            let first = text_of(alloc, first)?;
            let rest = texts_of(alloc, others)?;
            Ok(FirstRest { first, rest })
        }
        None => Err(Unanswered::Unreadable("no attribute")),
    }
}

fn texts_of(alloc: Global, attributes: &[Expr]) -> Result<Vec<RcStr>, Unanswered> {
    let mut texts: Vec<RcStr> = Vec::new(alloc);
    for attribute in attributes {
        texts.push(text_of(alloc, attribute)?)?;
    }
    Ok(texts)
}

fn put_fields(alloc: Global, count: usize, parts: &mut Parts<Expr>) {
    takes(count, 1, parts);
    let record = pop_expression(parts);
    let fields = fields_of(alloc, &record);
    drop(record);
    match fields {
        Ok(fields) => put_made(parts, Expr::record_map(alloc, fields)),
        Err(why) => parts.fail(why),
    }
}

fn fields_of(alloc: Global, record: &Expr) -> Result<BTreeMap<RcStr, Expr>, Unanswered> {
    match record.expr_kind() {
        ExprKind::Record(pairs) => Ok(copy_fields(alloc, pairs)?),
        _ => Err(Unanswered::Unreadable("no record")),
    }
}

fn copy_fields(
    alloc: Global,
    pairs: &BTreeMap<RcStr, Expr>,
) -> Result<BTreeMap<RcStr, Expr>, AllocError> {
    let mut fields: BTreeMap<RcStr, Expr> = BTreeMap::new(alloc);
    for (key, part) in pairs.iter() {
        let key = key.clone()?;
        drop(fields.insert(key, part.clone()?)?);
    }
    Ok(fields)
}

// Takes the last part, and the number that stands before it.
fn take_repeated(count: usize, parts: &mut Parts<Expr>) -> usize {
    takes(count, 2, parts);
    let expr = pop_expression(parts);
    let times = popped_number(parts);
    put(parts, expr);
    times
}

fn put_sets(alloc: Global, count: usize, parts: &mut Parts<Expr>) {
    let times = take_repeated(count, parts);
    for _ in 0..times {
        put_set(alloc, 1, parts);
    }
}

fn put_negations(alloc: Global, count: usize, parts: &mut Parts<Expr>) {
    let times = take_repeated(count, parts);
    for _ in 0..times {
        put_unary(alloc, UnaryOp::Not, parts);
    }
}
