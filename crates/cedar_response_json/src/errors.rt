#![tactic(auto, using(cedar_json_writer::proofs::Trees::trees))]
//! What is told of errors.
ghost use Rattle.std.specs.Prelude.{◌≡◌, [], ◌∷◌, ◌++◌, IfOk, OnOk, string_bytes};
ghost use Rattle.json.specs.Json.{string};
ghost use Rattle.cedar_layers.specs.Policies.{policy_id_text};
ghost use Rattle.cedar_errors.specs.Failures.{failure_of};
ghost use Rattle.cedar_names.specs.Names.{name_text};
ghost use Rattle.cedar_model.specs.Failures.{function_has_failed};
ghost use Rattle.cedar_authorizer.specs.responses.Responses.{error_view, errors_view};
ghost use Rattle.cedar_json_writer.specs.Trees.{json_view};
ghost use Rattle.cedar_response_json.specs.Errors.{IsErrorJson, AreErrorsJson, ToldAs, Says, kind_word, told_json};

use crate::objects::object_of_three;
use cedar_authorizer::authorizer::AuthorizationError;
use cedar_errors::evaluator::err::EvaluationError;
use cedar_errors::evaluator::err::evaluation_errors::ExtensionFunctionExecutionError;
use cedar_json_writer::{JsonValue, put_item, text_to_json};
use cedar_layers::policies::PolicyID;
use std::alloc::{AllocError, Global};

/// What is told of each error, in their order.
pub(crate) fn errors_to_json(
    alloc: Global,
    errors: &[AuthorizationError],
) -> Result<JsonValue, AllocError>
    ensures { IfOk result (λ j. AreErrorsJson (errors_view errors.now) (json_view j)) }
{
    let mut items: Vec<JsonValue> = Vec::new(alloc);
    'errors: for error in errors {
        let item = error_to_json(alloc, error)?;
        put_item(item, &mut items)?;
    }
    Ok(JsonValue::Array(items))
}

fn error_to_json(alloc: Global, error: &AuthorizationError) -> Result<JsonValue, AllocError>
    ensures { IfOk result (λ j. IsErrorJson (error_view error.now) (json_view j)) }
{
    let AuthorizationError::PolicyEvaluationError { id, error } = error;
    evaluation_error_to_json(alloc, id, error)
}

// The policy, the kind of its error and what the error says.
fn evaluation_error_to_json(
    alloc: Global,
    id: &PolicyID,
    error: &EvaluationError,
) -> Result<JsonValue, AllocError>
    ensures { IfOk result (λ j. IsErrorJson (policy_id_text id.now, failure_of error.now) (json_view j)) }
{
    match error {
        EvaluationError::EntityDoesNotExist(_) => said(alloc, id, "entityDoesNotExist", error),
        EvaluationError::EntityAttrDoesNotExist(_) => {
            said(alloc, id, "entityAttributeDoesNotExist", error)
        }
        EvaluationError::RecordAttrDoesNotExist(_) => {
            said(alloc, id, "recordAttributeDoesNotExist", error)
        }
        EvaluationError::FailedExtensionFunctionLookup(_) => {
            said(alloc, id, "functionDoesNotExist", error)
        }
        EvaluationError::TypeError(_) => said(alloc, id, "typeError", error),
        EvaluationError::WrongNumArguments(_) => said(alloc, id, "wrongNumberOfArguments", error),
        EvaluationError::IntegerOverflow(_) => said(alloc, id, "integerOverflow", error),
        EvaluationError::UnlinkedSlot(_) => said(alloc, id, "unlinkedSlot", error),
        EvaluationError::FailedExtensionFunctionExecution(failed) => failed_to_json(
            alloc, id, failed,
        ),
        EvaluationError::NonValue(_) => said(alloc, id, "residual", error),
        EvaluationError::RecursionLimit(_) => said(alloc, id, "recursionLimit", error),
        EvaluationError::Memory(_) => said(alloc, id, "outOfMemory", error),
    }
}

// The error as its kind and what it says.
fn said(
    alloc: Global,
    id: &PolicyID,
    kind: &str,
    error: &EvaluationError,
) -> Result<JsonValue, AllocError>
    ensures { IfOk result (ToldAs (policy_id_text id.now) kind.now) }
{
    let message = error.to_string(alloc)?;
    told_to_json(alloc, id, kind, message.as_str())
}

// The error of a function as the name of its extension, and the function's own message.
fn failed_to_json(
    alloc: Global,
    id: &PolicyID,
    error: &ExtensionFunctionExecutionError,
) -> Result<JsonValue, AllocError>
    ensures { IfOk result (λ j. json_view j ≡ told_json (policy_id_text id.now)
        (name_text error.now.extension_name) (string_bytes error.now.msg)) }
{
    told_to_json(
        alloc,
        id,
        error.extension_name().text().as_str(),
        error.msg.as_str(),
    )
}

fn told_to_json(
    alloc: Global,
    id: &PolicyID,
    kind: &str,
    message: &str,
) -> Result<JsonValue, AllocError>
    ensures { IfOk result (λ j. json_view j ≡ told_json (policy_id_text id.now) kind.now message.now) }
{
    let id = id_to_json(alloc, id)?;
    let kind = text_to_json(alloc, kind)?;
    let message = text_to_json(alloc, message)?;
    object_of_three(alloc, "policyId", id, "kind", kind, "message", message)
}

fn id_to_json(alloc: Global, id: &PolicyID) -> Result<JsonValue, AllocError>
    ensures { IfOk result (λ j. json_view j ≡ string (policy_id_text id.now)) }
{
    let text = id.to_string(alloc)?;
    text_to_json(alloc, text.as_str())
}
