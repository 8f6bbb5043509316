//! Values and partial values as they are printed and copied.
use crate::answers::evaluated::put_elements_of;
use crate::notation::answer::Answer;
use crate::notation::expressions::expression;
use crate::notation::shown::{Place, put_same};
use crate::notation::unanswered::Unanswered;
use crate::notation::values::{value, value_of};
use crate::written::expressions::{cut, put_copy_of};
use cedar_layers::expressions::{PartialValue, ResidualExpr, Value};
use cedar_restricted::RestrictedExpr;
use std::alloc::{AllocError, Global};

/// What is asked of the value that is written.
pub fn ask(answer: &mut Answer, kind: &str, bound: &str, words: &str) {
    match value(answer.alloc, words) {
        Ok(value) => {
            of_value(answer, kind, bound, &value);
            drop(value);
        }
        Err(why) => answer.fail(why),
    }
}

fn of_value(answer: &mut Answer, kind: &str, bound: &str, value: &Value) {
    match kind {
        "value-text" => answer.show(value),
        "value-cut" => cut(answer, value, bound),
        "value-type" => answer.show_made(value.type_of()),
        "value-expression" => put_expression(answer, value),
        "value-copy" => put_copy(answer, value),
        "value-elements" => put_elements_of(answer, value),
        "value-kind" => put_kind(answer, value),
        "value-restricted" => put_restricted(answer, value),
        _ => answer.refuse("no such question"),
    }
}

fn put_expression(answer: &mut Answer, value: &Value) {
    match value.to_expr(answer.alloc) {
        Ok(expr) => put_copy_of(answer, &expr),
        Err(_) => answer.lack_memory(),
    }
}

fn put_copy(answer: &mut Answer, value: &Value) {
    match value.clone() {
        Ok(copy) => {
            put_same(answer, &copy, value, copy.source_loc());
            drop(copy);
        }
        Err(_) => answer.lack_memory(),
    }
}

// The restricted expression of what the value is, and where it stands.
fn put_kind(answer: &mut Answer, value: &Value) {
    match value.value_kind().clone() {
        Ok(kind) => put_expr(
            answer,
            RestrictedExpr::try_from_value_kind(answer.alloc, kind),
        ),
        Err(_) => answer.lack_memory(),
    }
}

// The restricted expression of the value, and where it stands.
fn put_restricted(answer: &mut Answer, value: &Value) {
    match value.clone() {
        Ok(copy) => put_expr(answer, RestrictedExpr::try_from_value(answer.alloc, copy)),
        Err(_) => answer.lack_memory(),
    }
}

fn put_expr(answer: &mut Answer, made: Result<RestrictedExpr, AllocError>) {
    match made {
        Ok(expr) => {
            answer.show(&expr);
            answer.put(", ");
            answer.show(&Place(expr.source_loc()));
            drop(expr);
        }
        Err(_) => answer.lack_memory(),
    }
}

/// What is asked of the partial value that is written.
pub fn ask_part(answer: &mut Answer, kind: &str, bound: &str, words: &str) {
    match partial(answer.alloc, words) {
        Ok(part) => {
            of_part(answer, kind, bound, &part);
            drop(part);
        }
        Err(why) => answer.fail(why),
    }
}

// The value that is written, or, where it has an unknown, the residual.
fn partial(alloc: Global, text: &str) -> Result<PartialValue, Unanswered> {
    match expression(alloc, text) {
        Ok(expr) => if expr.has_unknown() {
            Ok(PartialValue::Residual(ResidualExpr::new(expr)))
        } else {
            let value = value_of(alloc, &expr);
            drop(expr);
            know_value(value)
        },
        Err(why) => Err(why),
    }
}

fn know_value(value: Result<Value, Unanswered>) -> Result<PartialValue, Unanswered> {
    match value {
        Ok(value) => Ok(PartialValue::Value(value)),
        Err(why) => Err(why),
    }
}

fn of_part(answer: &mut Answer, kind: &str, bound: &str, part: &PartialValue) {
    let alloc = answer.alloc;
    match kind {
        "part-text" => answer.show(part),
        "part-cut" => cut(answer, part, bound),
        "part-copy" => put_part_copy(answer, part),
        _ => answer.show_made(part.as_expr(alloc)),
    }
}

fn put_part_copy(answer: &mut Answer, part: &PartialValue) {
    match part.clone() {
        Ok(copy) => {
            put_same(answer, &copy, part, None);
            drop(copy);
        }
        Err(_) => answer.lack_memory(),
    }
}
