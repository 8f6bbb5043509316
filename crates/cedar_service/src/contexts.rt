#![tactic(auto, using(crate::proofs::Told::told))]
//! The context of a request.
ghost use Rattle.std.specs.Prelude.{◌≡◌, Ok, Err, IfOk, IfErr, option_map, codes};
ghost use Rattle.json.specs.Value.{value_view};
ghost use Rattle.cedar_extensions.specs.Extensions.{extensions_view, calls_of};
ghost use Rattle.cedar_requests.specs.Creations.{IsCreated};
ghost use Rattle.cedar_restricted.specs.Views.{restricted_term};
ghost use Rattle.cedar_json_reader.specs.SaidContexts.{context_said, IsContextOf};
ghost use Rattle.cedar_service.specs.Asked.{levels, IsContextFor, IsContextUnsaid, IsNoContext, IsNoContextOf};
ghost use Rattle.cedar_service.specs.Asked.{IsOfCreation};
ghost use Rattle.cedar_service.specs.Faults.{IsToldAs, IsFaultBelow};

use crate::faults::{Refusal, refuse_below, refuse_evaluation, refuse_json};
use cedar_extensions::Extensions;
use cedar_json_reader::restricted_expr_from_json_value;
use cedar_requests::{Context, ContextCreationError};
use cedar_restricted::RestrictedExpr;
use json::Value;
use std::alloc::Global;

/// How many levels what is read may have: each operator, call, set or record is one more than its highest part.
pub(crate) const LEVELS: usize = 4000;

/// Where the context stands.
pub(crate) const CONTEXT: &str = "$.context";

/// The context that the JSON says; where none is given, one without attributes. Refuses what says no record, and what
/// does not evaluate.
pub(crate) fn context_of(
    alloc: Global,
    context: Option<&Value<'_>>,
    extensions: &Extensions<'_>,
) -> Result<Context, Refusal>
    ensures said { IfOk result (IsContextFor (extensions_view extensions.now) (calls_of extensions.now)
        (option_map (λ v. value_view v.now) context.entry)) }
    ensures refused { IfErr result (IsToldAs
        (IsContextUnsaid (extensions_view extensions.now) (calls_of extensions.now)
        (option_map (λ v. value_view v.now) context.entry))) }
{
    match context {
        Some(value) => context_in(alloc, value, CONTEXT, extensions),
        None => Ok(Context::empty(alloc)),
    }
}

/// The same of the JSON that is given, which stands at this path.
pub(crate) fn context_in(
    alloc: Global,
    value: &Value<'_>,
    path: &str,
    extensions: &Extensions<'_>,
) -> Result<Context, Refusal>
    ensures said { IfOk result (IsContextOf (extensions_view extensions.now) (calls_of extensions.now) levels
        (context_said (value_view value.now))) }
    ensures refused { IfErr result (IsToldAs (λ t.
        IsNoContext (extensions_view extensions.now) (calls_of extensions.now) (value_view value.now)
        × IsFaultBelow path.now t)) }
{
    match restricted_expr_from_json_value(alloc, value) {
        Ok(expr) => {
            let context = evaluate(alloc, &expr, path, extensions);
            drop(expr);
            context
        }
        Err(error) => {
            let refusal = refuse_json(alloc, path, &error);
            drop(error);
            Err(refusal)
        }
    }
}

fn evaluate(
    alloc: Global,
    expr: &RestrictedExpr,
    path: &str,
    extensions: &Extensions<'_>,
) -> Result<Context, Refusal>
    ensures made { IfOk result (λ c. IsCreated (extensions_view extensions.now) (calls_of extensions.now) levels
        (restricted_term expr.now) (Ok c)) }
    ensures refused { IfErr result (IsToldAs (λ t.
        IsNoContextOf (extensions_view extensions.now) (calls_of extensions.now) (restricted_term expr.now)
        × IsFaultBelow path.now t)) }
{
    match Context::from_expr(alloc, expr.as_borrowed(), extensions, LEVELS) {
        Ok(context) => Ok(context),
        Err(error) => {
            let refusal = refuse_creation(alloc, path, &error);
            drop(error);
            Err(refusal)
        }
    }
}

#[cold]
fn refuse_creation(alloc: Global, path: &str, error: &ContextCreationError) -> Refusal
    ensures creation { IsToldAs (λ _. IsOfCreation error.now) result }
    ensures fault { IsToldAs (IsFaultBelow path.now) result }
{
    match error {
        ContextCreationError::Evaluation(error) => refuse_evaluation(alloc, path, error),
        ContextCreationError::NotARecord(_) => refuse_below(alloc, path, "not an object"),
        ContextCreationError::ExpressionConstruction(_) => {
            refuse_below(alloc, path, "not an object")
        }
        ContextCreationError::Memory(_) => Refusal::Memory,
    }
}
