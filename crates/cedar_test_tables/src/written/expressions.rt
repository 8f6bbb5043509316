//! Expressions as they are printed, copied, compared and changed.
use crate::notation::answer::Answer;
use crate::notation::expressions::expression;
use crate::notation::shown::{are_equal, hash_of, put_same, put_wanted};
use crate::notation::values::two_values;
use crate::notation::{both, pair};
use crate::steps::mapping;
use cedar_layers::expressions::{
    BoundedDisplay, Expr, ExpressionConstructionError, Literal, Value,
};
use std::alloc::{AllocError, Global};
use std::cmp::Ordering;
use std::collections::HashMap;
use std::hash::{FoldHasher, Hasher};
use std::rc::RcStr;

/// What is asked of the expression that is written, of two, of keys, or of two values.
pub fn ask(answer: &mut Answer, kind: &str, bound: &str, words: &str) {
    match kind {
        "equal" => ask_equal(answer, words),
        "alike" => ask_alike(answer, words),
        "hashes" => ask_hashes(answer, words),
        "keys" => ask_record(answer, words),
        "order" => ask_order(answer, words),
        _ => match expression(answer.alloc, words) {
            Ok(expr) => of_expression(answer, kind, bound, &expr),
            Err(why) => answer.fail(why),
        },
    }
}

fn of_expression(answer: &mut Answer, kind: &str, bound: &str, expr: &Expr) {
    match kind {
        "text" => answer.show(expr),
        "cut" => cut(answer, expr, bound),
        "copy" => put_copy_of(answer, expr),
        "shape" => put_shape(answer, expr),
        _ => answer.refuse("no such question"),
    }
}

/// The text under the bound.
pub fn cut<T: BoundedDisplay>(answer: &mut Answer, shown: &T, bound: &str) {
    if bound == "all" {
        answer.show_within(shown, None);
    } else {
        let bound = answer.number(bound);
        answer.show_within(shown, Some(bound));
    }
}

/// The copy, where it stands, and whether it is equal to the expression.
pub fn put_copy_of(answer: &mut Answer, expr: &Expr) {
    match expr.clone() {
        Ok(copy) => put_same(answer, &copy, expr, copy.source_loc()),
        Err(_) => answer.lack_memory(),
    }
}

fn put_shape(answer: &mut Answer, expr: &Expr) {
    let has_unknown = expr.has_unknown();
    let is_projectable = expr.is_projectable();
    answer.put("unknown ");
    answer.show(&has_unknown);
    answer.put(", projectable ");
    answer.show(&is_projectable);
}

/// What `put_wanted` says of the expression that substitution answers.
pub fn ask_substituted(answer: &mut Answer, map: &str, words: &str, want: &str) {
    match mapping(answer.alloc, if map.is_empty() { "none" } else { map }) {
        Ok(map) => {
            substitute(answer, &map, words, want);
            drop(map);
        }
        Err(why) => answer.fail(why),
    }
}

fn substitute(answer: &mut Answer, map: &HashMap<RcStr, Value>, words: &str, want: &str) {
    match expression(answer.alloc, words) {
        Ok(expr) => {
            let replaced = expr.substitute(answer.alloc, map);
            put_replaced(answer, replaced, want);
        }
        Err(why) => answer.fail(why),
    }
}

fn put_replaced(answer: &mut Answer, replaced: Result<Expr, AllocError>, want: &str) {
    match replaced {
        Ok(expr) => put_wanted(answer, &expr, want),
        Err(_) => answer.lack_memory(),
    }
}

// Whether the two expressions are equal.
fn ask_equal(answer: &mut Answer, words: &str) {
    match words.split_once(" ~ ") {
        Some((left, right)) => put_equal(answer, left, right),
        None => answer.refuse("equality is of two"),
    }
}

fn put_equal(answer: &mut Answer, left: &str, right: &str) {
    let alloc = answer.alloc;
    match are_equal(expression(alloc, left), expression(alloc, right)) {
        Ok(is_equal) => answer.show(&is_equal),
        Err(why) => answer.fail(why),
    }
}

// Whether the two expressions have one shape, and whether they and their shapes hash alike.
fn ask_alike(answer: &mut Answer, words: &str) {
    match words.split_once(" ~ ") {
        Some((left, right)) => {
            let alloc = answer.alloc;
            match both(expression(alloc, left), expression(alloc, right)) {
                Ok((left, right)) => put_alike(answer, &left, &right),
                Err(why) => answer.fail(why),
            }
        }
        None => answer.refuse("two expressions"),
    }
}

fn put_alike(answer: &mut Answer, left: &Expr, right: &Expr) {
    answer.show(&left.eq_shape(right));
    answer.put(", hashes ");
    answer.show(&(hash_of(left) == hash_of(right)));
    answer.put(" ");
    answer.show(&(shape_hash(left) == shape_hash(right)));
}

fn shape_hash(expr: &Expr) -> u64 {
    let mut hasher = FoldHasher::default();
    expr.hash_shape(&mut hasher);
    hasher.finish()
}

// Whether the two values hash alike, and whether what they are does.
fn ask_hashes(answer: &mut Answer, words: &str) {
    match two_values(answer.alloc, words) {
        Ok((left, right)) => {
            put_hashes_of(answer, &left, &right);
            drop((left, right));
        }
        Err(why) => answer.fail(why),
    }
}

fn put_hashes_of(answer: &mut Answer, left: &Value, right: &Value) {
    let (kind, other) = (left.value_kind(), right.value_kind());
    answer.show(&(hash_of(left) == hash_of(right)));
    answer.put(" ");
    answer.show(&(hash_of(kind) == hash_of(other)));
}

// The record of `true` under these keys, or the text of its error as it is and in another context.
fn ask_record(answer: &mut Answer, keys: &str) {
    match true_under(answer.alloc, keys) {
        Ok(pairs) => {
            let made = Expr::record(answer.alloc, pairs);
            put_record(answer, made);
        }
        Err(_) => answer.lack_memory(),
    }
}

fn put_record(answer: &mut Answer, made: Result<Expr, ExpressionConstructionError>) {
    match made {
        Ok(expr) => answer.show(&expr),
        Err(error) => put_in_context(answer, error),
    }
}

fn true_under(alloc: Global, keys: &str) -> Result<Vec<(RcStr, Expr)>, AllocError> {
    let mut pairs: Vec<(RcStr, Expr)> = Vec::new(alloc);
    for key in keys.split(',') {
        let key = RcStr::from_str(alloc, key)?;
        pair(&mut pairs, key, Expr::val(Literal::Bool(true)))?;
    }
    Ok(pairs)
}

fn put_in_context(answer: &mut Answer, error: ExpressionConstructionError) {
    answer.show_refusal(&error);
    answer.put(", ");
    let error = error.with_context("in a row");
    answer.show(&error);
    drop(error);
}

// How the first value stands to the second one, and whether they are equal.
fn ask_order(answer: &mut Answer, words: &str) {
    match two_values(answer.alloc, words) {
        Ok((left, right)) => {
            put_order(answer, left.cmp(&right), left == right);
            drop((left, right));
        }
        Err(why) => answer.fail(why),
    }
}

fn put_order(answer: &mut Answer, order: Ordering, is_equal: bool) {
    answer.show_debug(&order);
    answer.put(", equal ");
    answer.show(&is_equal);
}
