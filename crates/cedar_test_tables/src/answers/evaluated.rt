//! What an expression evaluates to in the setting.
use crate::answers::described::describe;
use crate::levels::{Asked, Shortage, answer_within, met_in, put_within};
use crate::notation::answer::Answer;
use crate::notation::expressions::expression;
use crate::notation::settings::Setting;
use crate::notation::shown::{Place, put_error_place, put_wanted};
use cedar_evaluator::evaluator::{EvaluationError, Evaluator};
use cedar_layers::expressions::{Expr, PartialValue, Value, ValueKind};
use std::alloc::Global;

/// What an expression evaluates to.
#[derive(Clone, Copy)]
struct Wholly<'a> {
    setting: &'a Setting<'a, 'a>,
    kind: &'a str,
    expr: &'a Expr,
}

impl Asked for Wholly<'_> {
    type Ending = Result<Value, EvaluationError>;

    fn outcome(&self, alloc: Global, limit: usize) -> Result<Value, EvaluationError> {
        outcome(alloc, self.setting, limit, self.expr)
    }

    fn met(&self, outcome: &Result<Value, EvaluationError>) -> Shortage {
        met_in(outcome)
    }

    fn are_equal(
        &self,
        left: &Result<Value, EvaluationError>,
        right: &Result<Value, EvaluationError>,
    ) -> bool {
        *left == *right
    }

    fn put(&self, answer: &mut Answer, outcome: &Result<Value, EvaluationError>) {
        put_asked(answer, self.kind, outcome);
    }
}

/// What the expression evaluates to: its value or its error, the place of either, or the error's own text.
pub fn ask(
    answer: &mut Answer,
    setting: &Setting<'_, '_>,
    kind: &str,
    limit_text: &str,
    words: &str,
) {
    match expression(answer.alloc, words) {
        Ok(expr) => {
            let asked = Wholly {
                setting,
                kind,
                expr: &expr,
            };
            answer_within(answer, &asked, limit_text);
        }
        Err(why) => answer.fail(why),
    }
}

/// The value or the error within so many levels of an expression that is made.
pub fn put_value_within(answer: &mut Answer, setting: &Setting<'_, '_>, limit: usize, expr: &Expr) {
    let asked = Wholly {
        setting,
        kind: "value",
        expr,
    };
    put_within(answer, &asked, limit);
}

fn put_asked(answer: &mut Answer, kind: &str, outcome: &Result<Value, EvaluationError>) {
    match kind {
        "value" => put_outcome(answer, outcome),
        "place" => put_place(answer, outcome),
        "elements" => put_elements(answer, outcome),
        _ => put_error(answer, outcome),
    }
}

fn outcome(
    alloc: Global,
    setting: &Setting<'_, '_>,
    limit: usize,
    expr: &Expr,
) -> Result<Value, EvaluationError> {
    let request = setting.request.clone()?;
    let evaluator = Evaluator::new(alloc, request, &setting.entities, setting.extensions, limit)?
        .with_unknowns_mapper(&setting.map)
        .with_resolution(setting.resolution);
    let outcome = value_by(alloc, &evaluator, setting, expr);
    drop(evaluator);
    outcome
}

fn value_by(
    alloc: Global,
    evaluator: &Evaluator<'_, '_>,
    setting: &Setting<'_, '_>,
    expr: &Expr,
) -> Result<Value, EvaluationError> {
    evaluator.interpret(alloc, expr, &setting.slots)
}

/// The value, or the error with all its fields but the place.
pub fn put_outcome(answer: &mut Answer, outcome: &Result<Value, EvaluationError>) {
    match outcome {
        Ok(value) => answer.show(value),
        Err(error) => describe(answer, error),
    }
}

/// Where the value or the error stands.
pub fn put_place(answer: &mut Answer, outcome: &Result<Value, EvaluationError>) {
    match outcome {
        Ok(value) => {
            answer.put("value ");
            answer.show(&Place(value.source_loc()));
        }
        Err(error) => put_error_place(answer, error),
    }
}

// The elements of the value, or the error.
fn put_elements(answer: &mut Answer, outcome: &Result<Value, EvaluationError>) {
    match outcome {
        Ok(value) => put_elements_of(answer, value),
        Err(error) => describe(answer, error),
    }
}

/// Each element of the value, if it is a set, in order, and where it stands.
pub fn put_elements_of(answer: &mut Answer, value: &Value) {
    answer.put("elements");
    if let ValueKind::Set(set) = value.value_kind() {
        for element in set {
            put_element(answer, element);
        }
    }
}

fn put_element(answer: &mut Answer, element: &Value) {
    answer.put(" ");
    answer.show(element);
    answer.put(" ");
    answer.show(&Place(element.source_loc()));
}

// The error's own text.
fn put_error(answer: &mut Answer, outcome: &Result<Value, EvaluationError>) {
    match outcome {
        Ok(_) => answer.put("no error"),
        Err(error) => answer.show_refusal(error),
    }
}

/// What an expression partly evaluates to.
#[derive(Clone, Copy)]
struct Partly<'a> {
    setting: &'a Setting<'a, 'a>,
    kind: &'a str,
    expr: &'a Expr,
    want: &'a str,
}

impl Asked for Partly<'_> {
    type Ending = Result<PartialValue, EvaluationError>;

    fn outcome(&self, alloc: Global, limit: usize) -> Result<PartialValue, EvaluationError> {
        partial_outcome(alloc, self.setting, limit, self.expr)
    }

    fn met(&self, outcome: &Result<PartialValue, EvaluationError>) -> Shortage {
        met_in(outcome)
    }

    fn are_equal(
        &self,
        left: &Result<PartialValue, EvaluationError>,
        right: &Result<PartialValue, EvaluationError>,
    ) -> bool {
        *left == *right
    }

    fn put(&self, answer: &mut Answer, outcome: &Result<PartialValue, EvaluationError>) {
        put_partly(answer, self.kind, outcome, self.want);
    }
}

/// What the expression partly evaluates to: its text, or its place, or the answer that is wanted, where it writes what
/// is left.
pub fn ask_partly(
    answer: &mut Answer,
    setting: &Setting<'_, '_>,
    kind: &str,
    limit_text: &str,
    words: &str,
    want: &str,
) {
    match expression(answer.alloc, words) {
        Ok(expr) => {
            let asked = Partly {
                setting,
                kind,
                expr: &expr,
                want,
            };
            answer_within(answer, &asked, limit_text);
        }
        Err(why) => answer.fail(why),
    }
}

fn put_partly(
    answer: &mut Answer,
    kind: &str,
    outcome: &Result<PartialValue, EvaluationError>,
    want: &str,
) {
    match kind {
        "partial" => put_partial(answer, outcome),
        "partial-place" => put_partial_place(answer, outcome),
        _ => match outcome {
            Ok(PartialValue::Residual(residual)) => put_wanted(answer, residual.as_expr(), want),
            Ok(PartialValue::Value(value)) => answer.show(value),
            Err(error) => describe(answer, error),
        },
    }
}

fn partial_outcome(
    alloc: Global,
    setting: &Setting<'_, '_>,
    limit: usize,
    expr: &Expr,
) -> Result<PartialValue, EvaluationError> {
    let request = setting.request.clone()?;
    let evaluator = Evaluator::new(alloc, request, &setting.entities, setting.extensions, limit)?
        .with_unknowns_mapper(&setting.map)
        .with_resolution(setting.resolution);
    let outcome = part_by(alloc, &evaluator, setting, expr);
    drop(evaluator);
    outcome
}

fn part_by(
    alloc: Global,
    evaluator: &Evaluator<'_, '_>,
    setting: &Setting<'_, '_>,
    expr: &Expr,
) -> Result<PartialValue, EvaluationError> {
    evaluator.partial_interpret(alloc, expr, &setting.slots)
}

/// The value, the residual, or the error with all its fields but the place.
pub fn put_partial(answer: &mut Answer, outcome: &Result<PartialValue, EvaluationError>) {
    match outcome {
        Ok(part) => answer.show(part),
        Err(error) => describe(answer, error),
    }
}

/// Which of a value, a residual and an error it is, and where that stands.
pub fn put_partial_place(answer: &mut Answer, outcome: &Result<PartialValue, EvaluationError>) {
    match outcome {
        Ok(part) => {
            answer.put(kind_of(part));
            answer.put(" ");
            answer.show(&place_of(part));
        }
        Err(error) => put_error_place(answer, error),
    }
}

fn kind_of(part: &PartialValue) -> &'static str {
    match part {
        PartialValue::Value(_) => "value",
        PartialValue::Residual(_) => "residual",
    }
}

/// Where the value or the residual stands.
pub fn place_of(part: &PartialValue) -> Place<'_> {
    match part {
        PartialValue::Value(value) => Place(value.source_loc()),
        PartialValue::Residual(residual) => Place(residual.as_expr().source_loc()),
    }
}
