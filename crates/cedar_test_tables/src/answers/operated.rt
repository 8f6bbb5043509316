//! What the operators answer that users call by themselves, and errors that are made from their fields.
use crate::answers::evaluated::{put_outcome, put_place};
use crate::notation::answer::Answer;
use crate::notation::both;
use crate::notation::errors::error;
use crate::notation::expressions::expression;
use crate::notation::shown::put_same;
use crate::notation::values::value_of;
use cedar_evaluator::evaluator::{EvaluationError, binary_arith, binary_relation, unary_app};
use cedar_extensions::Extensions;
use cedar_layers::expressions::{BinaryOp, Expr, ExprKind, Loc, UnaryOp, Value};

/// The value or the error of the operator, whose parts write values, and where it stands.
pub fn ask(answer: &mut Answer, ends: &str, text: &str) {
    let place = answer.place(ends);
    match expression(answer.alloc, text) {
        Ok(expr) => {
            of_operator(answer, &expr, place.as_ref());
            drop(expr);
        }
        Err(why) => answer.fail(why),
    }
}

fn of_operator(answer: &mut Answer, expr: &Expr, place: Option<&Loc>) {
    match expr.expr_kind() {
        ExprKind::UnaryApp { op, arg } => apply_to_one(answer, *op, arg, place),
        ExprKind::BinaryApp { op, arg1, arg2 } => apply_to_two(answer, *op, arg1, arg2, place),
        _ => answer.refuse("no operator"),
    }
}

fn apply_to_one(answer: &mut Answer, op: UnaryOp, arg: &Expr, place: Option<&Loc>) {
    match value_of(answer.alloc, arg) {
        Ok(value) => {
            let outcome = unary_app(answer.alloc, op, value, place);
            put_applied(answer, outcome);
        }
        Err(why) => answer.fail(why),
    }
}

fn apply_to_two(answer: &mut Answer, op: BinaryOp, left: &Expr, right: &Expr, place: Option<&Loc>) {
    let alloc = answer.alloc;
    match both(value_of(alloc, left), value_of(alloc, right)) {
        Ok((left, right)) => apply(answer, op, left, right, place),
        Err(why) => answer.fail(why),
    }
}

fn apply(answer: &mut Answer, op: BinaryOp, left: Value, right: Value, place: Option<&Loc>) {
    let alloc = answer.alloc;
    match op {
        BinaryOp::Add => put_applied(
            answer,
            binary_arith(alloc, BinaryOp::Add, left, right, place),
        ),
        BinaryOp::Sub => put_applied(
            answer,
            binary_arith(alloc, BinaryOp::Sub, left, right, place),
        ),
        BinaryOp::Mul => put_applied(
            answer,
            binary_arith(alloc, BinaryOp::Mul, left, right, place),
        ),
        _ => {
            relate(answer, op, &left, &right);
            drop(left);
            drop(right);
        }
    }
}

fn relate(answer: &mut Answer, op: BinaryOp, left: &Value, right: &Value) {
    let none = Extensions::none();
    let alloc = answer.alloc;
    match op {
        BinaryOp::Eq => put_applied(
            answer,
            binary_relation(alloc, BinaryOp::Eq, left, right, &none),
        ),
        BinaryOp::Less => put_applied(
            answer,
            binary_relation(alloc, BinaryOp::Less, left, right, &none),
        ),
        BinaryOp::LessEq => put_applied(
            answer,
            binary_relation(alloc, BinaryOp::LessEq, left, right, &none),
        ),
        _ => answer.refuse("no such operator"),
    }
}

fn put_applied(answer: &mut Answer, outcome: Result<Value, EvaluationError>) {
    put_outcome(answer, &outcome);
    answer.put(", ");
    put_place(answer, &outcome);
    drop(outcome);
}

/// The text of the error, once it is put at the place, and where it stands; a copy of it is equal.
pub fn ask_error(answer: &mut Answer, ends: &str, words: &str) {
    let place = answer.place(ends);
    match error(answer.alloc, words) {
        Ok(error) => put_copied(answer, error.with_maybe_source_loc(place)),
        Err(why) => answer.fail(why),
    }
}

fn put_copied(answer: &mut Answer, error: EvaluationError) {
    put_copy(answer, &error);
    drop(error);
}

fn put_copy(answer: &mut Answer, error: &EvaluationError) {
    match error.clone() {
        Ok(copy) => {
            put_same(answer, &copy, error, copy.source_loc());
            drop(copy);
        }
        Err(_) => answer.lack_memory(),
    }
}
