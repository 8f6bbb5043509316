//! An expression that is deeper than the machine's stack would allow.
use crate::answers::evaluated::put_value_within;
use crate::notation::add;
use crate::notation::answer::Answer;
use crate::notation::settings::Setting;
use cedar_layers::expressions::{Expr, Literal, UnaryOp};
use std::alloc::{AllocError, Global};

/// What `true` evaluates to under so many negations.
pub fn ask(answer: &mut Answer, setting: &Setting<'_, '_>, limit_text: &str, count: &str) {
    let limit = answer.limit(limit_text);
    let count = answer.number(count);
    match negations(answer.alloc, count) {
        Ok(negations) => of_last(answer, setting, limit, negations),
        Err(_) => answer.lack_memory(),
    }
}

// The last of them. Who drops them takes the last first: it is no part of another, and its part is kept by the one
// before it, so that no drop goes deeper than one.
fn of_last(answer: &mut Answer, setting: &Setting<'_, '_>, limit: usize, negations: Vec<Expr>) {
    let mut negations = negations;
    match negations.last() {
        Some(expr) => put_value_within(answer, setting, limit, expr),
        None => answer.refuse("no negation"),
    }
    for _ in 0..negations.len() {
        drop(negations.pop());
    }
}

// `true`, and behind each expression its negation.
fn negations(alloc: Global, count: usize) -> Result<Vec<Expr>, AllocError> {
    let mut all: Vec<Expr> = Vec::new(alloc);
    add(&mut all, Expr::val(Literal::Bool(true)))?;
    for _ in 0..count {
        put_negation(alloc, &mut all)?;
    }
    Ok(all)
}

fn put_negation(alloc: Global, all: &mut Vec<Expr>) -> Result<(), AllocError> {
    if let Some(last) = all.last() {
        let negation = negation(alloc, last)?;
        add(all, negation)
    } else {
        Ok(())
    }
}

fn negation(alloc: Global, expr: &Expr) -> Result<Expr, AllocError> {
    let copy = expr.clone()?;
    Expr::unary_app(alloc, UnaryOp::Not, copy)
}
