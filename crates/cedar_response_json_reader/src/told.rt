#![tactic(auto, using(crate::proofs::Refused::refusals))]
//! What is told of errors.
ghost use Rattle.std.specs.Prelude.{◌≡◌, [], ◌∷◌, ◌++◌, codes, Ok, IfOk, IfErr, OnOk};
ghost use Rattle.json.specs.Value.{value_view, items_view};
ghost use Rattle.cedar_authorizer.specs.responses.Responses.{error_view, errors_view};
ghost use Rattle.cedar_policy_json_reader.specs.Paths.{at_index};
ghost use Rattle.cedar_errors.specs.Failures.{failure_of};
ghost use Rattle.cedar_layers.specs.Policies.{policy_id_text};
ghost use Rattle.cedar_model.specs.Failures.{function_has_failed};
ghost use Rattle.cedar_response_json_reader.specs.Errors as says;
ghost use Rattle.cedar_response_json_reader.specs.Refusals.{IsRefusal, IsMemory, IsOneMore, under, made_of};
ghost use Rattle.cedar_response_json_reader.specs.Shapes.{part_at};

use crate::errors::{ResponseJsonError, ResponseRefusal};
use crate::shapes::{array, member_at, over_members, text_at};
use cedar_authorizer::authorizer::AuthorizationError;
use cedar_errors::evaluator::err::EvaluationError;
use cedar_errors::evaluator::err::evaluation_errors::{
    ExtensionFunctionExecutionError, RecursionLimitError,
};
use cedar_layers::policies::PolicyID;
use cedar_names::Name;
use json::Value;
use std::alloc::{AllocError, Global};
use std::rc::RcStr;

/// The errors at `errors`.
pub(crate) fn errors_at(
    alloc: Global,
    json: &Value<'_>,
) -> Result<Vec<AuthorizationError>, ResponseJsonError>
    ensures said { IfOk result
        (λ es. part_at (codes "errors") says.errors_said (value_view json.now) ≡ Ok (errors_view es.items)) }
    ensures refused { IfErr result
        (IsRefusal (part_at (codes "errors") says.errors_said (value_view json.now))) }
{
    match member_at(alloc, json, "errors") {
        Ok(part) => match errors(alloc, part) {
            Ok(errors) => Ok(errors),
            Err(error) => Err(error.under_key(alloc, "errors")),
        },
        Err(error) => Err(error),
    }
}

fn errors(alloc: Global, json: &Value<'_>) -> Result<Vec<AuthorizationError>, ResponseJsonError>
    ensures said { IfOk result (λ es. says.errors_said (value_view json.now) ≡ Ok (errors_view es.items)) }
    ensures refused { IfErr result (IsRefusal (says.errors_said (value_view json.now))) }
{
    match array(json) {
        Some(items) => all(alloc, items),
        None => Err(ResponseJsonError::refusal(alloc, ResponseRefusal::NotAnArray)),
    }
}

fn all(alloc: Global, items: &Vec<Value<'_>>) -> Result<Vec<AuthorizationError>, ResponseJsonError>
    ensures said { IfOk result
        (λ es. says.errors_from 0 (items_view items.now.items) ≡ Ok (errors_view es.items)) }
    ensures refused { IfErr result (IsRefusal (says.errors_from 0 (items_view items.now.items))) }
{
    let mut errors: Vec<AuthorizationError> = Vec::new(alloc);
    match put_errors(alloc, items, &mut errors) {
        Ok(()) => Ok(errors),
        Err(error) => {
            drop(errors);
            Err(error)
        }
    }
}

fn put_errors(
    alloc: Global,
    items: &Vec<Value<'_>>,
    errors: &mut Vec<AuthorizationError>,
) -> Result<(), ResponseJsonError>
    requires { errors.old.items ≡ [] }
    ensures said { OnOk result
        (says.errors_from 0 (items_view items.now.items) ≡ Ok (errors_view errors.new.items)) }
    ensures refused { IfErr result (IsRefusal (says.errors_from 0 (items_view items.now.items))) }
{
    let mut index: usize = 0;
    'items: for item in items {
        put_error(alloc, item, index, errors)?;
        index += 1;
    }
    Ok(())
}

fn put_error(
    alloc: Global,
    item: &Value<'_>,
    index: usize,
    errors: &mut Vec<AuthorizationError>,
) -> Result<(), ResponseJsonError>
    ensures said { OnOk result (IsOneMore (errors_view errors.old.items)
        (under (at_index index) (says.error_said (value_view item.now))) (errors_view errors.new.items)) }
    ensures refused { IfErr result
        (IsRefusal (under (at_index index) (says.error_said (value_view item.now)))) }
{
    match error(alloc, item) {
        Ok(error) => put(error, errors),
        Err(error) => Err(error.under_index(index)),
    }
}

fn put(
    error: AuthorizationError,
    errors: &mut Vec<AuthorizationError>,
) -> Result<(), ResponseJsonError>
    ensures said { OnOk result (errors_view errors.new.items
        ≡ errors_view errors.old.items ++ error_view error ∷ []) }
    ensures memory { IfErr result IsMemory }
{
    match errors.push(error) {
        Ok(()) => Ok(()),
        Err(failed) => Err(ResponseJsonError::from(failed)),
    }
}

fn error(alloc: Global, json: &Value<'_>) -> Result<AuthorizationError, ResponseJsonError>
    ensures said { IfOk result (λ e. says.error_said (value_view json.now) ≡ Ok (error_view e)) }
    ensures refused { IfErr result (IsRefusal (says.error_said (value_view json.now))) }
{
    match over_members(json, 3) {
        Some(reason) => Err(ResponseJsonError::refusal(alloc, reason)),
        None => told(alloc, json),
    }
}

fn told(alloc: Global, json: &Value<'_>) -> Result<AuthorizationError, ResponseJsonError>
    ensures said { IfOk result
        (λ e. made_of says.told_error (says.told_said (value_view json.now)) ≡ Ok (error_view e)) }
    ensures refused { IfErr result (IsRefusal (made_of says.told_error (says.told_said (value_view json.now)))) }
{
    match text_at(alloc, json, "policyId") {
        Ok(id) => match text_at(alloc, json, "kind") {
            Ok(kind) => match text_at(alloc, json, "message") {
                Ok(message) => made(alloc, id, kind, message),
                Err(error) => Err(error),
            },
            Err(error) => Err(error),
        },
        Err(error) => Err(error),
    }
}

fn made(
    alloc: Global,
    id: &str,
    kind: &str,
    message: &str,
) -> Result<AuthorizationError, ResponseJsonError>
    ensures said { IfOk result (λ e. error_view e ≡ (id.now, says.told_failure kind.now message.now)) }
    ensures memory { IfErr result IsMemory }
{
    match RcStr::from_str(alloc, id) {
        Ok(id) => with_id(alloc, PolicyID::from_string(id), kind, message),
        Err(error) => Err(ResponseJsonError::Memory(error)),
    }
}

fn with_id(
    alloc: Global,
    id: PolicyID,
    kind: &str,
    message: &str,
) -> Result<AuthorizationError, ResponseJsonError>
    ensures said { IfOk result
        (λ e. error_view e ≡ (policy_id_text id, says.told_failure kind.now message.now)) }
    ensures memory { IfErr result IsMemory }
{
    match failure(alloc, kind, message) {
        Ok(error) => Ok(AuthorizationError::PolicyEvaluationError { id, error }),
        Err(error) => {
            drop(id);
            Err(ResponseJsonError::Memory(error))
        }
    }
}

// The recursion limit is itself, and any other error is its kind and what it said.
fn failure(alloc: Global, kind: &str, message: &str) -> Result<EvaluationError, AllocError>
    ensures { IfOk result (λ e. failure_of e ≡ says.told_failure kind.now message.now) }
{
    if kind == "recursionLimit" {
        Ok(EvaluationError::RecursionLimit(RecursionLimitError { source_loc: None }))
    } else {
        failed(alloc, kind, message)
    }
}

fn failed(alloc: Global, kind: &str, message: &str) -> Result<EvaluationError, AllocError>
    ensures { IfOk result (λ e. failure_of e ≡ function_has_failed kind.now message.now) }
{
    let msg = String::from_str(alloc, message)?;
    match RcStr::from_str(alloc, kind) {
        Ok(kind) => {
            let error = ExtensionFunctionExecutionError {
                extension_name: Name::new(kind, None),
                msg,
                source_loc: None,
            };
            Ok(EvaluationError::FailedExtensionFunctionExecution(error))
        }
        Err(error) => {
            drop(msg);
            Err(error)
        }
    }
}
