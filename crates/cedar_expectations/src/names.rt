//! How an answer calls policies, and what its errors say.
ghost use Rattle.std.specs.Prelude.{◌≡◌, ◌++◌, ◌∷◌, [], map, IfOk, OnOk, string_bytes, option_copied};
ghost use Rattle.cedar_model.specs.Outcomes.{text_eq};
ghost use Rattle.cedar_errors.specs.Failures.{failure_of};
ghost use Rattle.cedar_layers.specs.Policies.{policy_view, policy_id_text};
ghost use Rattle.cedar_layers.specs.PolicySets.{policies_view};
ghost use Rattle.cedar_authorizer.specs.responses.Responses.{has_id};
ghost use Rattle.cedar_json_writer.specs.Errors.{Says};
ghost use Rattle.cedar_expectations.specs.Answers.{answer_view};
ghost use Rattle.cedar_expectations.specs.Named.{annotated, policy_name};
ghost use Rattle.cedar_expectations.specs.Named.{called_if, called_where, name_under, IsErrorText, AddsErrorText};
ghost use Rattle.cedar_expectations.specs.Named.{AreErrorTexts, IsAnswerIn};

use crate::answers::Answer;
use cedar_authorizer::authorizer::{AuthorizationError, Response};
use cedar_errors::evaluator::err::EvaluationError;
use cedar_layers::policies::{Policy, PolicyID, PolicySet};
use std::alloc::{AllocError, Global};
use std::collections::HashSet;

/// What the response of these policies says: the decision, the names of the policies that determined it, and of each
/// that erred its name and what its error says. Refuses only if out of memory.
pub fn answer_in(
    alloc: Global,
    policies: &PolicySet,
    response: &Response,
) -> Result<Answer, AllocError>
    ensures { IfOk result (λ a. IsAnswerIn (policies_view policies.now) response.now (answer_view a)) }
{
    let reasons = reason_names(alloc, policies, &response.diagnostics.reason)?;
    let errors = error_texts(alloc, policies, &response.diagnostics.errors)?;
    Ok(Answer {
        decision: response.decision,
        reasons,
        errors,
    })
}

fn reason_names(
    alloc: Global,
    policies: &PolicySet,
    reasons: &HashSet<PolicyID>,
) -> Result<Vec<String>, AllocError>
    ensures { IfOk result
        (λ v. map string_bytes v.items ≡ called_where (has_id reasons.now) (policies_view policies.now)) }
{
    let mut names: Vec<String> = Vec::new(alloc);
    'policies: for policy in policies.policies() {
        put_reason(alloc, policy, reasons, &mut names)?;
    }
    Ok(names)
}

fn put_reason(
    alloc: Global,
    policy: &Policy,
    reasons: &HashSet<PolicyID>,
    names: &mut Vec<String>,
) -> Result<(), AllocError>
    ensures { OnOk result (map string_bytes names.new.items
        ≡ map string_bytes names.old.items ++ called_if (has_id reasons.now) (policy_view policy.now)) }
{
    if holds_id(reasons, policy.id()) {
        let name = name_of(alloc, policy)?;
        put_string(name, names)
    } else {
        Ok(())
    }
}

fn holds_id(ids: &HashSet<PolicyID>, id: &PolicyID) -> bool
    ensures { result ≡ has_id ids.now (policy_id_text id.now) }
{
    ids.contains(id)
}

fn put_string(text: String, texts: &mut Vec<String>) -> Result<(), AllocError>
    ensures { OnOk result
        (map string_bytes texts.new.items ≡ map string_bytes texts.old.items ++ string_bytes text ∷ []) }
{
    match texts.push(text) {
        Ok(()) => Ok(()),
        Err(_) => Err(AllocError),
    }
}

fn name_of(alloc: Global, policy: &Policy) -> Result<String, AllocError>
    ensures { IfOk result (λ s. string_bytes s ≡ policy_name (policy_view policy.now)) }
{
    match annotated_id(policy) {
        Some(name) => String::from_str(alloc, name),
        None => id_text(alloc, policy.id()),
    }
}

// The policy's annotation `id`, if it has one.
fn annotated_id(policy: &Policy) -> Option<&str>
    ensures { option_copied result ≡ annotated (policy_view policy.now) }
{
    match policy.annotations_rc().0.get("id") {
        Some(name) => Some(name.as_str()),
        None => None,
    }
}

// ---- errors

fn error_texts(
    alloc: Global,
    policies: &PolicySet,
    errors: &[AuthorizationError],
) -> Result<Vec<String>, AllocError>
    ensures { IfOk result
        (λ v. AreErrorTexts (policies_view policies.now) errors.now (map string_bytes v.items)) }
{
    let mut texts: Vec<String> = Vec::new(alloc);
    'errors: for error in errors {
        put_error(alloc, policies, error, &mut texts)?;
    }
    Ok(texts)
}

fn put_error(
    alloc: Global,
    policies: &PolicySet,
    error: &AuthorizationError,
    texts: &mut Vec<String>,
) -> Result<(), AllocError>
    ensures { OnOk result (AddsErrorText (policies_view policies.now) error.now (map string_bytes texts.old.items)
        (map string_bytes texts.new.items)) }
{
    let text = error_text(alloc, policies, error)?;
    put_string(text, texts)
}

fn error_text(
    alloc: Global,
    policies: &PolicySet,
    error: &AuthorizationError,
) -> Result<String, AllocError>
    ensures { IfOk result (λ s. IsErrorText (policies_view policies.now) error.now (string_bytes s)) }
{
    let AuthorizationError::PolicyEvaluationError { id, error } = error;
    let name = name_under(alloc, policies, id)?;
    let message = message_of(alloc, error)?;
    let text = format!(in alloc; "{name}: {message}")?;
    Ok(text)
}

// The name of the policy of this id; of an id that no policy has, the id.
fn name_under(alloc: Global, policies: &PolicySet, id: &PolicyID) -> Result<String, AllocError>
    ensures { IfOk result
        (λ s. string_bytes s ≡ name_under (policy_id_text id.now) (policies_view policies.now)) }
{
    'policies: for policy in policies.policies() {
        if is_of(policy, id) {
            return name_of(alloc, policy);
        }
    }
    id_text(alloc, id)
}

fn is_of(policy: &Policy, id: &PolicyID) -> bool
    ensures { result ≡ text_eq (policy_view policy.now).id (policy_id_text id.now) }
{
    policy.id() == id
}

fn id_text(alloc: Global, id: &PolicyID) -> Result<String, AllocError>
    ensures { IfOk result (λ s. string_bytes s ≡ policy_id_text id.now) }
{
    id.to_string(alloc)
}

// What the error says.
fn message_of(alloc: Global, error: &EvaluationError) -> Result<String, AllocError>
    ensures { IfOk result (λ s. Says (failure_of error.now) (string_bytes s)) }
{
    match error {
        EvaluationError::TypeError(error) => error.to_string(alloc),
        EvaluationError::EntityDoesNotExist(_) => error.to_string(alloc),
        EvaluationError::EntityAttrDoesNotExist(_) => error.to_string(alloc),
        EvaluationError::RecordAttrDoesNotExist(_) => error.to_string(alloc),
        EvaluationError::FailedExtensionFunctionLookup(_) => error.to_string(alloc),
        EvaluationError::WrongNumArguments(_) => error.to_string(alloc),
        EvaluationError::IntegerOverflow(_) => error.to_string(alloc),
        EvaluationError::UnlinkedSlot(_) => error.to_string(alloc),
        EvaluationError::FailedExtensionFunctionExecution(_) => error.to_string(alloc),
        EvaluationError::NonValue(_) => error.to_string(alloc),
        EvaluationError::RecursionLimit(_) => error.to_string(alloc),
        EvaluationError::Memory(_) => error.to_string(alloc),
    }
}
