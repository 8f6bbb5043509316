//! What is answered of contexts that are made of restricted expressions: what they hold, or why there is none.
//!
//! Pairs are written `b = unknown("x"); a = [1]`, in that order: names and restricted expressions, or values. `none` is
//! no pair.
use crate::levels::{Asked, Shortage, answer_within, met_by};
use crate::notation::answer::Answer;
use crate::notation::expressions::read_restricted;
use crate::notation::shown::is_equal;
use crate::notation::unanswered::Unanswered;
use crate::notation::values::value;
use crate::notation::{add, pair, split_name};
use cedar_extensions::Extensions;
use cedar_layers::expressions::{Expr, ExpressionConstructionError, PartialValue, Value};
use cedar_requests::{Context, ContextCreationError};
use cedar_restricted::RestrictedExpr;
use std::alloc::{AllocError, Global};
use std::collections::BTreeMap;
use std::rc::RcStr;

/// What is asked of the context that is written so.
pub fn ask(
    answer: &mut Answer,
    extensions: &Extensions<'_>,
    kind: &str,
    limit_text: &str,
    written: &str,
) {
    match kind {
        "expression" => of_text(answer, extensions, limit_text, written),
        "of" => of_values(answer, written),
        _ => match pairs(answer.alloc, written) {
            Ok(pairs) => of_pairs(answer, extensions, kind, limit_text, pairs),
            Err(why) => answer.fail(why),
        },
    }
}

// The context of these values under their names.
fn of_values(answer: &mut Answer, written: &str) {
    match named_values(answer.alloc, written) {
        Ok(pairs) => {
            let made = Context::of(answer.alloc, pairs);
            put_made(answer, &made);
            drop(made);
        }
        Err(why) => answer.fail(why),
    }
}

fn named_values(alloc: Global, written: &str) -> Result<Vec<(&str, Value)>, Unanswered> {
    let mut pairs: Vec<(&str, Value)> = Vec::new(alloc);
    'pairs: for written in written.split("; ") {
        if written != "none" {
            let (name, text) = split_name(written)?;
            add(&mut pairs, (name, value(alloc, text)?))?;
        }
    }
    Ok(pairs)
}

fn of_pairs(
    answer: &mut Answer,
    extensions: &Extensions<'_>,
    kind: &str,
    limit_text: &str,
    pairs: Vec<(RcStr, RestrictedExpr)>,
) {
    if kind == "record" {
        let made = RestrictedExpr::record(answer.alloc, pairs);
        of_record(answer, extensions, limit_text, made);
    } else {
        let asked = OfPairs {
            extensions,
            kind,
            pairs: &pairs,
        };
        answer_within(answer, &asked, limit_text);
        drop(pairs);
    }
}

/// The context of these pairs.
#[derive(Clone, Copy)]
struct OfPairs<'a> {
    extensions: &'a Extensions<'a>,
    kind: &'a str,
    pairs: &'a [(RcStr, RestrictedExpr)],
}

impl Asked for OfPairs<'_> {
    type Ending = Result<Context, ContextCreationError>;

    fn outcome(&self, alloc: Global, limit: usize) -> Result<Context, ContextCreationError> {
        match copy_pairs(alloc, self.pairs) {
            Ok(pairs) => Context::from_pairs(alloc, pairs, self.extensions, limit),
            Err(error) => Err(ContextCreationError::Memory(error)),
        }
    }

    fn met(&self, outcome: &Result<Context, ContextCreationError>) -> Shortage {
        met_in_creation(outcome)
    }

    fn are_equal(
        &self,
        left: &Result<Context, ContextCreationError>,
        right: &Result<Context, ContextCreationError>,
    ) -> bool {
        are_same_contexts(left, right)
    }

    fn put(&self, answer: &mut Answer, outcome: &Result<Context, ContextCreationError>) {
        match self.kind {
            "pairs" => put_made(answer, outcome),
            "converted" => put_converted(answer, outcome),
            "residual" => put_residual(answer, outcome),
            _ => answer.refuse("no such question"),
        }
    }
}

/// The context of this expression.
#[derive(Clone, Copy)]
struct OfExpression<'a> {
    extensions: &'a Extensions<'a>,
    expr: &'a RestrictedExpr,
}

impl Asked for OfExpression<'_> {
    type Ending = Result<Context, ContextCreationError>;

    fn outcome(&self, alloc: Global, limit: usize) -> Result<Context, ContextCreationError> {
        Context::from_expr(alloc, self.expr.as_borrowed(), self.extensions, limit)
    }

    fn met(&self, outcome: &Result<Context, ContextCreationError>) -> Shortage {
        met_in_creation(outcome)
    }

    fn are_equal(
        &self,
        left: &Result<Context, ContextCreationError>,
        right: &Result<Context, ContextCreationError>,
    ) -> bool {
        are_same_contexts(left, right)
    }

    fn put(&self, answer: &mut Answer, outcome: &Result<Context, ContextCreationError>) {
        put_made(answer, outcome);
    }
}

fn copy_pairs(
    alloc: Global,
    pairs: &[(RcStr, RestrictedExpr)],
) -> Result<Vec<(RcStr, RestrictedExpr)>, AllocError> {
    let mut copies: Vec<(RcStr, RestrictedExpr)> = Vec::new(alloc);
    for (name, expr) in pairs {
        put_copy(&mut copies, name, expr)?;
    }
    Ok(copies)
}

fn put_copy(
    copies: &mut Vec<(RcStr, RestrictedExpr)>,
    name: &RcStr,
    expr: &RestrictedExpr,
) -> Result<(), AllocError> {
    let name = name.clone()?;
    let expr = expr.clone()?;
    pair(copies, name, expr)
}

fn met_in_creation(outcome: &Result<Context, ContextCreationError>) -> Shortage {
    match outcome {
        Ok(_) => Shortage::Nothing,
        Err(ContextCreationError::NotARecord(_)) => Shortage::Nothing,
        Err(ContextCreationError::Evaluation(error)) => met_by(error),
        Err(ContextCreationError::ExpressionConstruction(_)) => Shortage::Nothing,
        Err(ContextCreationError::Memory(_)) => Shortage::Memory,
    }
}

// Whether the contexts are equal. Errors are compared by what is asked of them.
fn are_same_contexts(
    left: &Result<Context, ContextCreationError>,
    right: &Result<Context, ContextCreationError>,
) -> bool {
    match (left, right) {
        (Ok(left), Ok(right)) => *left == *right,
        (Err(_), Err(_)) => true,
        (_, _) => false,
    }
}

// The attributes of what is left with their expressions, or `none` of a context of values.
fn put_residual(answer: &mut Answer, made: &Result<Context, ContextCreationError>) {
    match made {
        Ok(context) => match context.as_residual() {
            Some(left) => put_left(answer, left),
            None => answer.put("none"),
        },
        Err(error) => answer.show_refusal(error),
    }
}

fn put_left(answer: &mut Answer, left: &BTreeMap<RcStr, Expr>) {
    answer.begin();
    for (name, expr) in left {
        answer.next("; ");
        answer.show(name);
        answer.put(" ");
        answer.show(expr);
    }
}

fn put_converted(answer: &mut Answer, made: &Result<Context, ContextCreationError>) {
    match made {
        Ok(context) => put_conversions(answer, context),
        Err(error) => answer.show_refusal(error),
    }
}

fn of_record(
    answer: &mut Answer,
    extensions: &Extensions<'_>,
    limit_text: &str,
    made: Result<RestrictedExpr, ExpressionConstructionError>,
) {
    match made {
        Ok(record) => {
            of_expression(answer, extensions, limit_text, &record);
            drop(record);
        }
        Err(error) => {
            answer.show_refusal(&error);
            drop(error);
        }
    }
}

fn of_text(answer: &mut Answer, extensions: &Extensions<'_>, limit_text: &str, text: &str) {
    match read_restricted(answer.alloc, text) {
        Ok(expr) => {
            of_expression(answer, extensions, limit_text, &expr);
            drop(expr);
        }
        Err(why) => answer.fail(why),
    }
}

fn pairs(alloc: Global, written: &str) -> Result<Vec<(RcStr, RestrictedExpr)>, Unanswered> {
    let mut pairs: Vec<(RcStr, RestrictedExpr)> = Vec::new(alloc);
    'pairs: for written in written.split("; ") {
        if written != "none" {
            put_pair(alloc, &mut pairs, written)?;
        }
    }
    Ok(pairs)
}

fn put_pair(
    alloc: Global,
    pairs: &mut Vec<(RcStr, RestrictedExpr)>,
    written: &str,
) -> Result<(), Unanswered> {
    let (name, text) = split_name(written)?;
    let name = RcStr::from_str(alloc, name)?;
    let value = read_restricted(alloc, text)?;
    Ok(pair(pairs, name, value)?)
}

fn of_expression(
    answer: &mut Answer,
    extensions: &Extensions<'_>,
    limit_text: &str,
    expr: &RestrictedExpr,
) {
    answer_within(answer, &OfExpression { extensions, expr }, limit_text);
}

fn put_made(answer: &mut Answer, made: &Result<Context, ContextCreationError>) {
    match made {
        Ok(context) => match context.clone() {
            Ok(copy) => put_walked(answer, copy),
            Err(_) => answer.lack_memory(),
        },
        Err(error) => put_refusal(answer, error),
    }
}

fn put_refusal(answer: &mut Answer, error: &ContextCreationError) {
    answer.put(kind(error));
    answer.put(": ");
    answer.show_refusal(error);
}

fn kind(error: &ContextCreationError) -> &'static str {
    match error {
        ContextCreationError::NotARecord(_) => "NotARecord",
        ContextCreationError::Evaluation(_) => "Evaluation",
        ContextCreationError::ExpressionConstruction(_) => "ExpressionConstruction",
        ContextCreationError::Memory(_) => "Memory",
    }
}

// The context, and what is walked.
fn put_walked(answer: &mut Answer, context: Context) {
    put_context(answer, &context);
    'attributes: for attribute in context {
        put_attribute(answer, attribute);
    }
}

// The context's text, how many attributes it has, and whether all are values.
fn put_context(answer: &mut Answer, context: &Context) {
    let (count, is_value) = (context.num_keys(), context.as_value().is_some());
    answer.show(context);
    answer.put(", ");
    answer.show(&count);
    answer.put(" keys, values ");
    answer.show(&is_value);
}

fn put_attribute(answer: &mut Answer, attribute: Result<(RcStr, RestrictedExpr), AllocError>) {
    match attribute {
        Ok((name, expr)) => {
            answer.put("; ");
            answer.show(&name);
            answer.put(" ");
            answer.show(&expr);
            drop(expr);
        }
        Err(_) => answer.lack_memory(),
    }
}

// The partial value, the restricted expression, whether a copy is equal, and the text under a bound of 1.
fn put_conversions(answer: &mut Answer, context: &Context) {
    put_value(answer, context);
    answer.put(" ~ ");
    put_restricted(answer, context);
    answer.put(" ~ ");
    put_copied(answer, context);
    answer.put(" ~ ");
    answer.show_within(context, Some(1));
}

fn put_value(answer: &mut Answer, context: &Context) {
    match context.clone() {
        Ok(copy) => answer.show_made(PartialValue::try_from(copy)),
        Err(_) => answer.lack_memory(),
    }
}

fn put_restricted(answer: &mut Answer, context: &Context) {
    match context.clone() {
        Ok(copy) => answer.show_made(RestrictedExpr::try_from(copy)),
        Err(_) => answer.lack_memory(),
    }
}

fn put_copied(answer: &mut Answer, context: &Context) {
    match is_equal(context.clone(), context) {
        Ok(is_same) => answer.show(&is_same),
        Err(_) => answer.lack_memory(),
    }
}
