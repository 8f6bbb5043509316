#![tactic(auto, using(crate::proofs::Refused::refusals, crate::proofs::ContextLemmas::contexts))]
//! Contexts.
ghost use Rattle.std.specs.Prelude.{◌≡◌, [], Ok, IfOk, IfErr};
ghost use Rattle.json.specs.Value.{value_view};
ghost use Rattle.cedar_extensions.specs.Extensions.{extensions_view, calls_of};
ghost use Rattle.cedar_restricted.specs.Views.{restricted_term};
ghost use Rattle.cedar_json_reader.specs.Refusals.{IsRefusal};
ghost use Rattle.cedar_json_reader.specs.SaidContexts.{context_said, IsContextOf, IsContextRefusal, IsUncreated};

use crate::errors::{JsonError, RefusalReason};
use crate::shapes::object;
use crate::values::read_record;
use cedar_extensions::Extensions;
use cedar_requests::{Context, ContextCreationError};
use cedar_restricted::RestrictedExpr;
use json::Value;
use std::alloc::Global;

/// The context of the members of an object, evaluated with these extensions at most `limit` levels deep.
pub(crate) fn context_from_json_value(
    alloc: Global,
    value: &Value<'_>,
    extensions: &Extensions<'_>,
    limit: usize,
) -> Result<Context, JsonError>
    ensures made { IfOk result (IsContextOf (extensions_view extensions.now) (calls_of extensions.now) limit
        (context_said (value_view value.now))) }
    ensures refused { IfErr result (IsContextRefusal (extensions_view extensions.now) (calls_of extensions.now) limit
        (context_said (value_view value.now)) []) }
{
    match record_of(alloc, value) {
        Ok(record) => match Context::from_expr(alloc, record.as_borrowed(), extensions, limit) {
            Ok(context) => Ok(context),
            Err(error) => Err(refuse_context(alloc, error)),
        },
        Err(error) => Err(error),
    }
}

/// The record of the members of an object.
pub(crate) fn record_of(alloc: Global, value: &Value<'_>) -> Result<RestrictedExpr, JsonError>
    ensures said { IfOk result (λ r. context_said (value_view value.now) ≡ Ok (restricted_term r)) }
    ensures refused { IfErr result (IsRefusal (context_said (value_view value.now))) }
{
    match object(value) {
        Some(members) => read_record(alloc, members),
        None => Err(JsonError::refusal(alloc, RefusalReason::NotAnObject)),
    }
}

// Why there is no context of a record.
#[cold]
fn refuse_context(alloc: Global, error: ContextCreationError) -> JsonError
    ensures { IsUncreated error result }
{
    match error {
        ContextCreationError::Evaluation(error) => JsonError::evaluation(alloc, error),
        ContextCreationError::Memory(error) => JsonError::Memory(error),
        ContextCreationError::NotARecord(error) => {
            drop(error);
            JsonError::refusal(alloc, RefusalReason::NotAnObject)
        }
        ContextCreationError::ExpressionConstruction(error) => {
            drop(error);
            JsonError::refusal(alloc, RefusalReason::RepeatedKey)
        }
    }
}
