//! What is answered of restricted expressions.
use crate::answers::evaluated::{put_outcome, put_partial, put_partial_place};
use crate::levels::{Asked, Shortage, answer_within, met_in};
use crate::notation::answer::Answer;
use crate::notation::expressions::{expression, read_restricted};
use crate::notation::pair;
use crate::notation::shown::{hash_of, put_same};
use crate::notation::unanswered::Unanswered;
use cedar_errors::evaluator::err::EvaluationError;
use cedar_extensions::Extensions;
use cedar_layers::expressions::{Expr, Literal, PartialValue, ResidualExpr, Unknown, Value};
use cedar_restricted::{
    BorrowedRestrictedExpr, PartialValueToRestrictedExprError, RestrictedEvaluator, RestrictedExpr,
    RestrictedExprShapeOnly, RestrictedExpressionError,
};
use std::alloc::{AllocError, Global};
use std::fmt;
use std::rc::RcStr;

/// What is asked of the words, where the answer that is wanted is this one.
pub fn ask(
    answer: &mut Answer,
    extensions: &Extensions<'_>,
    kind: &str,
    limit_text: &str,
    words: &str,
    want: &str,
) {
    match kind {
        "refused" => ask_refused(answer, words, want),
        "residual" => ask_residual(answer, words, want),
        "pairs" => ask_pairs(answer, words),
        "shape" => ask_shapes(answer, words),
        "text" => ask_text(answer, words),
        "borrowed" => ask_borrowed(answer, words),
        "residual-text" => ask_residual_text(answer, words),
        _ => match read_restricted(answer.alloc, words) {
            Ok(expr) => {
                of_restricted(answer, extensions, kind, limit_text, &expr);
                drop(expr);
            }
            Err(why) => answer.fail(why),
        },
    }
}

fn of_restricted(
    answer: &mut Answer,
    extensions: &Extensions<'_>,
    kind: &str,
    limit_text: &str,
    expr: &RestrictedExpr,
) {
    match kind {
        "type" => put_type(answer, extensions, expr),
        "read" => put_read(answer, expr.as_borrowed()),
        "copy" => put_owned(answer, expr),
        "wholly" => answer_within(answer, &Wholly { extensions, expr }, limit_text),
        _ => {
            let asked = Partly {
                extensions,
                kind,
                expr,
            };
            answer_within(answer, &asked, limit_text);
        }
    }
}

// What is owned of it, where that stands, and whether it is equal.
fn put_owned(answer: &mut Answer, expr: &RestrictedExpr) {
    match expr.as_borrowed().to_owned() {
        Ok(copy) => {
            put_same(answer, &copy, expr, copy.source_loc());
            drop(copy);
        }
        Err(_) => answer.lack_memory(),
    }
}

/// What a restricted expression partly evaluates to.
#[derive(Clone, Copy)]
struct Partly<'a> {
    extensions: &'a Extensions<'a>,
    kind: &'a str,
    expr: &'a RestrictedExpr,
}

impl Asked for Partly<'_> {
    type Ending = Result<PartialValue, EvaluationError>;

    fn outcome(&self, alloc: Global, limit: usize) -> Result<PartialValue, EvaluationError> {
        let evaluator = RestrictedEvaluator::new(self.extensions, limit);
        evaluator.partial_interpret(alloc, self.expr.as_borrowed())
    }

    fn met(&self, outcome: &Result<PartialValue, EvaluationError>) -> Shortage {
        met_in(outcome)
    }

    fn are_equal(
        &self,
        left: &Result<PartialValue, EvaluationError>,
        right: &Result<PartialValue, EvaluationError>,
    ) -> bool {
        *left == *right
    }

    fn put(&self, answer: &mut Answer, outcome: &Result<PartialValue, EvaluationError>) {
        put_partly(answer, self.kind, outcome);
    }
}

/// What a restricted expression evaluates to.
#[derive(Clone, Copy)]
struct Wholly<'a> {
    extensions: &'a Extensions<'a>,
    expr: &'a RestrictedExpr,
}

impl Asked for Wholly<'_> {
    type Ending = Result<Value, EvaluationError>;

    fn outcome(&self, alloc: Global, limit: usize) -> Result<Value, EvaluationError> {
        let evaluator = RestrictedEvaluator::new(self.extensions, limit);
        evaluator.interpret(alloc, self.expr.as_borrowed())
    }

    fn met(&self, outcome: &Result<Value, EvaluationError>) -> Shortage {
        met_in(outcome)
    }

    fn are_equal(
        &self,
        left: &Result<Value, EvaluationError>,
        right: &Result<Value, EvaluationError>,
    ) -> bool {
        *left == *right
    }

    fn put(&self, answer: &mut Answer, outcome: &Result<Value, EvaluationError>) {
        put_outcome(answer, outcome);
    }
}

fn put_partly(answer: &mut Answer, kind: &str, outcome: &Result<PartialValue, EvaluationError>) {
    match kind {
        "value" => put_partial(answer, outcome),
        "place" => put_partial_place(answer, outcome),
        _ => answer.refuse("no such question"),
    }
}

// What is wanted, where it is met.
fn put_met(answer: &mut Answer, is_met: bool, want: &str) {
    if is_met {
        answer.put(want);
    } else {
        answer.put("another");
    }
}

// ---- what is refused

// Whether the expression is refused, with this feature and part.
fn ask_refused(answer: &mut Answer, words: &str, want: &str) {
    match want.split_once("; ") {
        Some((feature, part)) => put_refused(answer, words, feature, part, want),
        None => answer.refuse("a feature and a part"),
    }
}

fn put_refused(answer: &mut Answer, words: &str, feature: &str, part: &str, want: &str) {
    match expression(answer.alloc, part) {
        Ok(part) => match is_refused_with(answer.alloc, words, feature, &part) {
            Ok(is_met) => put_met(answer, is_met, want),
            Err(why) => answer.fail(why),
        },
        Err(why) => answer.fail(why),
    }
}

fn is_refused_with(
    alloc: Global,
    words: &str,
    feature: &str,
    part: &Expr,
) -> Result<bool, Unanswered> {
    match RestrictedExpr::new(expression(alloc, words)?) {
        Err(RestrictedExpressionError::InvalidRestrictedExpression(error)) => {
            let is_met = error.feature == feature && error.expr == *part;
            drop(error);
            Ok(is_met)
        }
        Err(RestrictedExpressionError::Memory(_)) => Err(Unanswered::Memory),
        Ok(expr) => {
            drop(expr);
            Ok(false)
        }
    }
}

// Whether the residual becomes this expression, or, where `refused` stands before it, is refused with it.
fn ask_residual(answer: &mut Answer, words: &str, want: &str) {
    let (is_refused, written) = match want.strip_prefix("refused ") {
        Some(written) => (true, written),
        None => (false, want),
    };
    match expression(answer.alloc, written) {
        Ok(wanted) => match comes_to(answer.alloc, words, &wanted, is_refused) {
            Ok(is_met) => put_met(answer, is_met, want),
            Err(why) => answer.fail(why),
        },
        Err(why) => answer.fail(why),
    }
}

fn comes_to(alloc: Global, words: &str, want: &Expr, is_refused: bool) -> Result<bool, Unanswered> {
    match RestrictedExpr::try_from_partial_value(alloc, residual(alloc, words)?) {
        Ok(expr) => {
            let is_met = !is_refused && *expr == *want;
            drop(expr);
            Ok(is_met)
        }
        Err(PartialValueToRestrictedExprError::NontrivialResidual { residual }) => {
            let is_met = is_refused && *residual == *want;
            drop(residual);
            Ok(is_met)
        }
        Err(PartialValueToRestrictedExprError::Memory(_)) => Err(Unanswered::Memory),
    }
}

fn ask_text(answer: &mut Answer, words: &str) {
    match expression(answer.alloc, words) {
        Ok(expr) => answer.tell(RestrictedExpr::new(expr)),
        Err(why) => answer.fail(why),
    }
}

fn ask_borrowed(answer: &mut Answer, words: &str) {
    match expression(answer.alloc, words) {
        Ok(expr) => answer.tell(BorrowedRestrictedExpr::new(&expr)),
        Err(why) => answer.fail(why),
    }
}

fn ask_residual_text(answer: &mut Answer, words: &str) {
    let alloc = answer.alloc;
    match residual(alloc, words) {
        Ok(part) => answer.tell(RestrictedExpr::try_from_partial_value(alloc, part)),
        Err(why) => answer.fail(why),
    }
}

fn ask_pairs(answer: &mut Answer, keys: &str) {
    let alloc = answer.alloc;
    match pairs(alloc, keys) {
        Ok(pairs) => answer.tell(RestrictedExpr::record(alloc, pairs)),
        Err(_) => answer.lack_memory(),
    }
}

// ---- types, shapes, readers

fn put_type(answer: &mut Answer, extensions: &Extensions<'_>, expr: &RestrictedExpr) {
    match expr.as_borrowed().try_type_of(answer.alloc, extensions) {
        Ok(Some(ty)) => answer.show(&ty),
        Ok(None) => answer.put("none"),
        Err(_) => answer.lack_memory(),
    }
}

// Whether the two have one shape, and whether their shapes and they hash alike.
fn ask_shapes(answer: &mut Answer, words: &str) {
    match words.split_once(" ~ ") {
        Some((left, right)) => put_shapes_of(answer, left, right),
        None => answer.refuse("two expressions"),
    }
}

fn put_shapes_of(answer: &mut Answer, left: &str, right: &str) {
    match read_restricted(answer.alloc, left) {
        Ok(left) => {
            put_shape_beside(answer, &left, right);
            drop(left);
        }
        Err(why) => answer.fail(why),
    }
}

fn put_shape_beside(answer: &mut Answer, left: &RestrictedExpr, right: &str) {
    match read_restricted(answer.alloc, right) {
        Ok(right) => {
            put_shapes(answer, left.as_borrowed(), right.as_borrowed());
            drop(right);
        }
        Err(why) => answer.fail(why),
    }
}

fn put_shapes(
    answer: &mut Answer,
    left: BorrowedRestrictedExpr<'_>,
    right: BorrowedRestrictedExpr<'_>,
) {
    let are_hashed_alike = hash_of(&left) == hash_of(&right);
    let left = RestrictedExprShapeOnly::new(left);
    let right = RestrictedExprShapeOnly::new(right);
    let are_equal = left == right;
    let hash_alike = hash_of(&left) == hash_of(&right);
    answer.show(&are_equal);
    answer.put(", hashes ");
    answer.show(&hash_alike);
    answer.put(" ");
    answer.show(&are_hashed_alike);
}

// What the readers find.
fn put_read(answer: &mut Answer, expr: BorrowedRestrictedExpr<'_>) {
    put_leaf(answer, "a boolean ", expr.as_bool());
    put_leaf(answer, "a long ", expr.as_long());
    put_leaf(answer, "a text ", expr.as_string());
    put_leaf(answer, "an entity ", expr.as_euid());
    put_unknown(answer, expr.as_unknown());
    put_elements(answer, expr);
    put_pairs(answer, expr);
    put_call(answer, expr);
}

fn put_leaf<T: fmt::Display>(answer: &mut Answer, title: &str, leaf: Option<T>)
where
    T: Drop,
{
    match leaf {
        Some(leaf) => {
            answer.put(title);
            answer.show(&leaf);
        }
        None => {}
    }
}

fn put_unknown(answer: &mut Answer, unknown: Option<&Unknown>) {
    match unknown {
        Some(unknown) => {
            answer.put("an unknown ");
            answer.show(&unknown.name);
        }
        None => {}
    }
}

fn put_elements(answer: &mut Answer, expr: BorrowedRestrictedExpr<'_>) {
    if let Some(elements) = expr.as_set_elements() {
        answer.put("elements");
        for element in elements {
            answer.put(" ");
            answer.show(&element);
        }
    }
}

fn put_pairs(answer: &mut Answer, expr: BorrowedRestrictedExpr<'_>) {
    if let Some(pairs) = expr.as_record_pairs() {
        answer.put("pairs");
        for (key, part) in pairs {
            answer.put(" ");
            answer.show(key);
            answer.put(" ");
            answer.show(&part);
        }
    }
}

fn put_call(answer: &mut Answer, expr: BorrowedRestrictedExpr<'_>) {
    if let Some((fn_name, arguments)) = expr.as_extn_fn_call() {
        answer.put("a call of ");
        answer.show(fn_name);
        for argument in arguments {
            answer.put(" ");
            answer.show(&argument);
        }
    }
}

// ---- what is written

fn residual(alloc: Global, words: &str) -> Result<PartialValue, Unanswered> {
    let expr = expression(alloc, words)?;
    if expr.has_unknown() {
        Ok(PartialValue::Residual(ResidualExpr::new(expr)))
    } else {
        drop(expr);
        Err(Unanswered::Unreadable("no unknown"))
    }
}

// 37 under each of these keys.
fn pairs(alloc: Global, keys: &str) -> Result<Vec<(RcStr, RestrictedExpr)>, AllocError> {
    let mut pairs: Vec<(RcStr, RestrictedExpr)> = Vec::new(alloc);
    for key in keys.split(',') {
        let key = RcStr::from_str(alloc, key)?;
        pair(&mut pairs, key, RestrictedExpr::val(Literal::Long(37)))?;
    }
    Ok(pairs)
}
