#![tactic(auto, using(crate::proofs::Trees::trees))]
//! The errors of policies.
ghost use Rattle.std.specs.Prelude.{◌≡◌, ◌∷◌, [], ◌++◌, codes, IfOk, OnOk, string_bytes};
ghost use Rattle.json.specs.Json.{string};
ghost use Rattle.cedar_layers.specs.Policies.{policy_id_text};
ghost use Rattle.cedar_errors.specs.Failures.{failure_of};
ghost use Rattle.cedar_authorizer.specs.responses.Responses.{error_view, errors_view};
ghost use Rattle.cedar_json_writer.specs.Trees.{json_view, members_seen};
ghost use Rattle.cedar_json_writer.specs.Errors.{Says, AddsMessage, AddsError, IsErrorJson, AreErrorsJson};

use crate::ids::id_text;
use crate::texts::put_string_member;
use crate::{JsonValue, put_item, put_member};
use cedar_authorizer::authorizer::AuthorizationError;
use cedar_errors::evaluator::err::EvaluationError;
use cedar_layers::policies::PolicyID;
use std::alloc::{AllocError, Global};
use std::rc::RcStr;

/// The errors, in their order, each as `error_to_json` has it. Refuses only if out of memory.
pub fn errors_to_json(alloc: Global, errors: &[AuthorizationError]) -> Result<JsonValue, AllocError>
    ensures { IfOk result (λ j. AreErrorsJson (errors_view errors.now) (json_view j)) }
{
    let mut items: Vec<JsonValue> = Vec::new(alloc);
    'errors: for error in errors {
        let item = error_to_json(alloc, error)?;
        put_item(item, &mut items)?;
    }
    Ok(JsonValue::Array(items))
}

/// The error: the id of the policy that erred at `policyId`, and at `message` what its error says. Refuses only if
/// out of memory.
pub fn error_to_json(alloc: Global, error: &AuthorizationError) -> Result<JsonValue, AllocError>
    ensures { IfOk result (λ j. IsErrorJson (error_view error.now) (json_view j)) }
{
    let mut members: Vec<(RcStr, JsonValue)> = Vec::new(alloc);
    put_error(alloc, error, &mut members)?;
    Ok(JsonValue::Object(members))
}

/// Puts the two members of the error behind those that are there. Refuses only if out of memory.
pub fn put_error(
    alloc: Global,
    error: &AuthorizationError,
    members: &mut Vec<(RcStr, JsonValue)>,
) -> Result<(), AllocError>
    ensures { OnOk result
        (AddsError (error_view error.now) (members_seen members.old.items) (members_seen members.new.items)) }
{
    put_error_within(alloc, error, None, members)
}

/// The same, where the limit of levels that was set is said behind what an error says that met it, as in `recursion limit
/// reached (--limit 100)`; if none was set, it is the same. Refuses only if out of memory.
pub fn put_error_within(
    alloc: Global,
    error: &AuthorizationError,
    limit: Option<usize>,
    members: &mut Vec<(RcStr, JsonValue)>,
) -> Result<(), AllocError>
    ensures { OnOk result
        (AddsError (error_view error.now) (members_seen members.old.items) (members_seen members.new.items)) }
{
    match error {
        AuthorizationError::PolicyEvaluationError { id, error } => {
            put_evaluation_error(alloc, id, error, limit, members)
        }
    }
}

fn put_evaluation_error(
    alloc: Global,
    id: &PolicyID,
    error: &EvaluationError,
    limit: Option<usize>,
    members: &mut Vec<(RcStr, JsonValue)>,
) -> Result<(), AllocError>
    ensures { OnOk result (AddsError (policy_id_text id.now, failure_of error.now)
        (members_seen members.old.items) (members_seen members.new.items)) }
{
    put_policy_id(alloc, id, members)?;
    put_message(alloc, error, limit, members)?;
    Ok(())
}

fn put_policy_id(
    alloc: Global,
    id: &PolicyID,
    members: &mut Vec<(RcStr, JsonValue)>,
) -> Result<(), AllocError>
    ensures { OnOk result (members_seen members.new.items
        ≡ members_seen members.old.items ++ (codes "policyId", string (policy_id_text id.now)) ∷ []) }
{
    let id = id_text(alloc, id)?;
    put_string_member(alloc, "policyId", &id, members)?;
    Ok(())
}

fn put_message(
    alloc: Global,
    error: &EvaluationError,
    limit: Option<usize>,
    members: &mut Vec<(RcStr, JsonValue)>,
) -> Result<(), AllocError>
    ensures { OnOk result
        (AddsMessage (failure_of error.now) (members_seen members.old.items) (members_seen members.new.items)) }
{
    let message = message_within(alloc, error, limit)?;
    put_string_member(alloc, "message", &message, members)?;
    Ok(())
}

// What the error says, and the limit behind it, if one was set and the error met it.
fn message_within(
    alloc: Global,
    error: &EvaluationError,
    limit: Option<usize>,
) -> Result<String, AllocError>
    ensures { IfOk result (λ s. Says (failure_of error.now) (string_bytes s)) }
{
    match limit {
        Some(limit) => limited_message_of(alloc, error, limit),
        None => message_of(alloc, error),
    }
}

fn limited_message_of(
    alloc: Global,
    error: &EvaluationError,
    limit: usize,
) -> Result<String, AllocError>
    ensures { IfOk result (λ s. Says (failure_of error.now) (string_bytes s)) }
{
    match error {
        EvaluationError::RecursionLimit(_) => format!(in alloc; "{error} (--limit {limit})"),
        _ => message_of(alloc, error),
    }
}

// What the error says.
fn message_of(alloc: Global, error: &EvaluationError) -> Result<String, AllocError>
    ensures { IfOk result (λ s. Says (failure_of error.now) (string_bytes s)) }
{
    match error {
        EvaluationError::TypeError(error) => error.to_string(alloc),
        EvaluationError::EntityDoesNotExist(_) => error.to_string(alloc),
        EvaluationError::EntityAttrDoesNotExist(_) => error.to_string(alloc),
        EvaluationError::RecordAttrDoesNotExist(_) => error.to_string(alloc),
        EvaluationError::FailedExtensionFunctionLookup(_) => error.to_string(alloc),
        EvaluationError::WrongNumArguments(_) => error.to_string(alloc),
        EvaluationError::IntegerOverflow(_) => error.to_string(alloc),
        EvaluationError::UnlinkedSlot(_) => error.to_string(alloc),
        EvaluationError::FailedExtensionFunctionExecution(_) => error.to_string(alloc),
        EvaluationError::NonValue(_) => error.to_string(alloc),
        EvaluationError::RecursionLimit(_) => error.to_string(alloc),
        EvaluationError::Memory(_) => error.to_string(alloc),
    }
}
