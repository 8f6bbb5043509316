//! What an expression evaluates to.
ghost use Rattle.std.specs.Prelude.{◌≡◌, ◌≢◌, true, IfOk, IfErr, string_bytes};
ghost use Rattle.cedar_model.specs.Failures.{out_of_memory, fails, answers_value};
ghost use Rattle.cedar_errors.specs.Failures.{failure_of};
ghost use Rattle.cedar_errors.specs.Answers.{value_answer};
ghost use Rattle.cedar_extensions.specs.Extensions.{extensions_view, calls_of};
ghost use Rattle.cedar_functions.specs.Functions.{these, signatures_of};
ghost use Rattle.cedar_text_parser.specs.Reading.{IsRead};
ghost use Rattle.cedar_cli.specs.Evaluated.{IsRequestOr, IsAnswerBy, IsAnswerOver, IsAnswerOf, IsTextLine, IsLimitOr};
ghost use Rattle.cedar_cli.specs.Evaluated.{IsValuePrinted, IsEvaluated, IsExpressionUnread, IsUnvaluedOver};
ghost use Rattle.cedar_cli.specs.Evaluated.{IsUnvalued, IsUnevaluated, IsEvaluatedUnread};
ghost use Rattle.cedar_cli.specs.Questions.{levels};
ghost use Rattle.cedar_cli.specs.Reasons.{IsToldFor};

use crate::asked::{Asked, Source};
use crate::decisions::Printed;
use crate::limits::{LEVELS, expression_limit, push_limit};
use crate::places::{Places, describe_at};
use crate::readable::readable_line;
use crate::reading::{request_with_context, whole_request};
use crate::refusal::{Refusal, refuse_unparsed, refuse_with_lines};
use crate::stores::{Store, known_store};
use crate::visible::visible;
use cedar_policy_core::ast::{Expr, Request, SlotEnv, Value};
use cedar_policy_core::entities::Entities;
use cedar_policy_core::evaluator::{EvaluationError, Evaluator};
use cedar_policy_core::extensions::Extensions;
use cedar_policy_core::parser::{Functions, parse_expr};
use cedar_policy_core::writing::to_cedar;
use std::alloc::{AllocError, Global};

/// The value of the expression, in Cedar's syntax or in Cedar's JSON. What is not said of the request is unknown, but
/// for a context, which is empty: an expression that needs what is unknown is refused. So is what is said in which an
/// unknown stands.
pub fn evaluate_expression(
    alloc: Global,
    source: Source<'_>,
    asked: &Asked<'_, '_>,
    limit: Option<usize>,
    is_json: bool,
) -> Result<Printed, Refusal>
    ensures answered { IfOk result (IsEvaluated source.entry.text.now asked.now limit is_json) }
    ensures refused { IfErr result (IsToldFor (IsUnevaluated source.entry.text.now asked.now limit is_json)) }
{
    let extensions = Extensions::all_available();
    let expr = expression(alloc, source, &extensions)?;
    let mut warnings = String::new(alloc);
    let value = evaluated_with(
        alloc,
        source,
        &expr,
        asked,
        limit,
        &extensions,
        &mut warnings,
    );
    drop(expr);
    let value = value?;
    let printed = print_value(alloc, source, &value, is_json, warnings);
    drop(value);
    printed
}

// The expression, which calls functions of these extensions alone.
fn expression(
    alloc: Global,
    source: Source<'_>,
    extensions: &Extensions<'_>,
) -> Result<Expr, Refusal>
    ensures read { IfOk result (IsRead (these (signatures_of extensions.now)) source.entry.text.now levels) }
    ensures refused { IfErr result (IsToldFor
        (IsExpressionUnread (these (signatures_of extensions.now)) source.entry.text.now)) }
{
    let functions = Functions::of(alloc, extensions)?;
    let expr = match parse_expr(alloc, source.text, LEVELS, &functions) {
        Ok(expr) => Ok(expr),
        Err(error) => Err(refuse_unparsed(alloc, source, &error)),
    };
    drop(functions);
    expr
}

fn evaluated_with(
    alloc: Global,
    source: Source<'_>,
    expr: &Expr,
    asked: &Asked<'_, '_>,
    limit: Option<usize>,
    extensions: &Extensions<'_>,
    warnings: &mut String,
) -> Result<Value, Refusal>
    ensures value { IfOk result (λ v. IsAnswerOf (extensions_view extensions.now) (calls_of extensions.now) expr.now
        asked.now limit (answers_value v.what)) }
    ensures refused { IfErr result (IsToldFor (IsUnvalued (extensions_view extensions.now) (calls_of extensions.now)
        expr.now asked.now limit)) }
{
    let store = known_store(alloc, asked, extensions, warnings)?;
    let value = evaluated_over(alloc, source, expr, &store, asked, limit, extensions);
    drop(store);
    value
}

fn evaluated_over(
    alloc: Global,
    source: Source<'_>,
    expr: &Expr,
    store: &Store,
    asked: &Asked<'_, '_>,
    limit: Option<usize>,
    extensions: &Extensions<'_>,
) -> Result<Value, Refusal>
    ensures value { IfOk result (λ v. IsAnswerOver (extensions_view extensions.now) (calls_of extensions.now) expr.now
        store.now.entities asked.now limit (answers_value v.what)) }
    ensures refused { IfErr result (IsToldFor (IsUnvaluedOver (extensions_view extensions.now)
        (calls_of extensions.now) expr.now store.now.entities asked.now limit)) }
{
    let request = request_asked(alloc, asked, extensions)?;
    let within = limit_or(limit, expr, &request, store);
    match value_of(alloc, expr, request, &store.entities, within, extensions) {
        Ok(value) => Ok(value),
        Err(error) => Err(refuse_evaluation(alloc, source, within, &error)),
    }
}

// The limit that is set, or what the expression can need.
fn limit_or(limit: Option<usize>, expr: &Expr, request: &Request, store: &Store) -> usize
    ensures { IsLimitOr limit result }
{
    match limit {
        Some(limit) => limit,
        None => expression_limit(expr, request, store.height),
    }
}

fn request_asked(
    alloc: Global,
    asked: &Asked<'_, '_>,
    extensions: &Extensions<'_>,
) -> Result<Request, Refusal>
    ensures asked { IfOk result (IsRequestOr (extensions_view extensions.now) (calls_of extensions.now)
        asked.now.request asked.now) }
    ensures refused { IfErr result (IsToldFor
        (IsEvaluatedUnread (extensions_view extensions.now) (calls_of extensions.now) asked.now.request asked.now)) }
{
    match asked.request {
        Some(_) => whole_request(alloc, asked, extensions),
        None => request_with_context(alloc, asked, extensions),
    }
}

fn value_of(
    alloc: Global,
    expr: &Expr,
    request: Request,
    entities: &Entities,
    limit: usize,
    extensions: &Extensions<'_>,
) -> Result<Value, EvaluationError>
    ensures { IsAnswerBy (extensions_view extensions.now) (calls_of extensions.now) expr.now entities.now request limit
        (value_answer result) }
{
    let evaluator = Evaluator::new(alloc, request, entities, extensions, limit)?;
    let slots = SlotEnv::new(alloc);
    let value = evaluator.interpret(alloc, expr, &slots);
    drop(slots);
    drop(evaluator);
    value
}

fn print_value(
    alloc: Global,
    source: Source<'_>,
    value: &Value,
    is_json: bool,
    warnings: String,
) -> Result<Printed, Refusal>
    ensures printed { IfOk result (IsValuePrinted is_json value.now.what) }
    ensures refused { IfErr result (IsToldFor (is_json ≡ true)) }
{
    let output = if is_json {
        readable_line(alloc, source, value)?
    } else {
        value_line(alloc, value)?
    };
    Ok(Printed {
        output,
        warnings,
        status: 0,
    })
}

// The value in Cedar's text, as `evaluate` reads it back.
fn value_line(alloc: Global, value: &Value) -> Result<String, AllocError>
    ensures { IfOk result (λ line. IsTextLine value.now.what (string_bytes line)) }
{
    let expr: Expr = value.to_expr(alloc)?;
    let text = to_cedar(alloc, &expr);
    drop(expr);
    let mut line = visible(alloc, text?.as_str())?;
    line.push_str("\n")?;
    Ok(line)
}

#[cold]
fn refuse_evaluation(
    alloc: Global,
    source: Source<'_>,
    limit: usize,
    error: &EvaluationError,
) -> Refusal
    ensures { IsToldFor (failure_of error.now ≢ out_of_memory) result }
{
    if error.is_out_of_memory() {
        Refusal::Memory
    } else {
        refuse_with_lines(failed_lines(alloc, source, limit, error))
    }
}

fn failed_lines(
    alloc: Global,
    source: Source<'_>,
    limit: usize,
    error: &EvaluationError,
) -> Result<String, AllocError> {
    let places = Places::of(alloc, source)?;
    let mut why = format!(in alloc; "{error}")?;
    if error.is_recursion_limit() {
        push_limit(alloc, Some(limit), &mut why)?;
    }
    describe_at(alloc, &places, error.source_loc().copied(), why.as_str())
}
