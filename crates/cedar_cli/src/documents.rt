#![tactic(auto, using(cedar_json_writer::proofs::Trees::trees))]
//! Answers as JSON.
ghost use Rattle.std.specs.Prelude.{◌≡◌, ◌++◌, ◌||◌, [], ◌∷◌, IfOk, OnOk, map, codes};
ghost use Rattle.json.specs.Json.{string};
ghost use Rattle.cedar_model.specs.Outcomes.{text_eq, has_text};
ghost use Rattle.cedar_model.specs.Terms.{Text};
ghost use Rattle.cedar_layers.specs.Policies.{policy_view, policy_id_text};
ghost use Rattle.cedar_layers.specs.PolicySets.{policies_view};
ghost use Rattle.cedar_authorizer.specs.responses.Readers.{policies_left};
ghost use Rattle.cedar_authorizer.specs.responses.Responses.{has_id, error_view, errors_view, error_place};
ghost use Rattle.cedar_authorizer.specs.responses.Rows.{rows_view};
ghost use Rattle.cedar_json_writer.specs.Reading.{policy_ids};
ghost use Rattle.cedar_json_writer.specs.Texts.{texts_json, object_of};
ghost use Rattle.cedar_json_writer.specs.Trees.{json_view, members_seen};
ghost use Rattle.cedar_cli.specs.Named.{annotated, id_where, ids_where, erred_ids, is_named, is_told, stands_in};
ghost use Rattle.cedar_cli.specs.Documents.{IsResponseDocument, IsErrorsArray, IsPlacedError, place_members};
ghost use Rattle.cedar_cli.specs.Documents.{count_json};
ghost use Rattle.cedar_cli.specs.Documents.{name_under, name_where, names_where};
ghost use Rattle.cedar_cli.specs.Stages.{IsStageDocument, AreDocuments, AreDocumented, step_members, step_files};
ghost use Rattle.cedar_cli.specs.Inputs.{AddsDocument, AddsPlacedError, NamesNext};

use crate::asked::Step;
use crate::places::Places;
use crate::policies::annotated_id;
use crate::stages::Stages;
use crate::steps::{Taken, response_after};
use crate::warnings::Deciding;
use cedar_policy_core::ast::{Policy, PolicyID, PolicySet};
use cedar_policy_core::authorizer::json::{decision_to_json, put_error_within, put_known};
use cedar_policy_core::authorizer::{
    AuthorizationError, PartialResponse, ReportedPolicies, Response,
};
use cedar_policy_core::entities::json::{JsonValue, put_item, put_member, text_to_json};
use cedar_policy_core::parser::Loc;
use std::alloc::{AllocError, Global};
use std::collections::HashSet;
use std::rc::RcStr;

/// The decision, the policies that determined it, the errors, and the names of these policies.
pub(crate) fn response_document(
    alloc: Global,
    deciding: Deciding<'_>,
    response: &Response,
) -> Result<JsonValue, AllocError>
    ensures { IfOk result (λ d. IsResponseDocument deciding.entry.places.now.source.text.now
        (policies_view deciding.entry.policies.now) response.now (json_view d)) }
{
    let mut members: Vec<(RcStr, JsonValue)> = Vec::new(alloc);
    let decision = decision_to_json(alloc, Some(response.decision))?;
    put_member(alloc, "decision", decision, &mut members)?;
    let reasons = reasons_as_json(alloc, deciding.policies, &response.diagnostics.reason)?;
    put_member(alloc, "reason", reasons, &mut members)?;
    let errors = errors_as_json(alloc, deciding, &response.diagnostics.errors)?;
    put_member(alloc, "errors", errors, &mut members)?;
    let names = response_names(alloc, deciding.policies, response)?;
    put_member(alloc, "names", names, &mut members)?;
    Ok(JsonValue::Object(members))
}

// The names of the policies that determined the decision, and of those that erred.
fn response_names(
    alloc: Global,
    policies: &PolicySet,
    response: &Response,
) -> Result<JsonValue, AllocError>
    ensures { IfOk result (λ j. json_view j ≡ object_of (names_where (is_named (has_id response.now.diagnostics.reason)
        (errors_view response.now.diagnostics.errors.items)) (policies_view policies.now))) }
{
    let erred = ids_of_errors(alloc, &response.diagnostics.errors)?;
    let names = names_of_two(alloc, policies, &response.diagnostics.reason, &erred);
    drop(erred);
    names
}

/// What is known of one stage, or of each, in an array, where there are steps.
pub(crate) fn stages_document(
    alloc: Global,
    deciding: Deciding<'_>,
    stages: &Stages<'_>,
) -> Result<JsonValue, AllocError>
    ensures { IfOk result (λ d. AreDocumented deciding.entry.places.now.source.text.now
        (policies_view deciding.entry.policies.now) stages.now.first stages.now.later.items (json_view d)) }
{
    let first = stage_document(alloc, deciding, None, &stages.first)?;
    if stages.later.as_slice().is_empty() {
        return Ok(first);
    }
    let mut all: Vec<JsonValue> = Vec::new(alloc);
    put_item(first, &mut all)?;
    put_stages(alloc, deciding, &stages.first, &stages.later, &mut all)?;
    Ok(JsonValue::Array(all))
}

fn put_stages(
    alloc: Global,
    deciding: Deciding<'_>,
    first: &PartialResponse,
    later: &[Taken<'_>],
    all: &mut Vec<JsonValue>,
) -> Result<(), AllocError>
    ensures { AreDocuments deciding.entry.places.now.source.text.now (policies_view deciding.entry.policies.now)
        first.now [] (map json_view all.old.items)
        → OnOk result (AreDocuments deciding.entry.places.now.source.text.now
        (policies_view deciding.entry.policies.now) first.now later.now (map json_view all.new.items)) }
{
    let mut response = first;
    'later: for taken in later {
        response = response_after(&taken.response, response);
        put_stage(alloc, deciding, &taken.step, response, all)?;
    }
    Ok(())
}

fn put_stage(
    alloc: Global,
    deciding: Deciding<'_>,
    step: &Step<'_>,
    response: &PartialResponse,
    all: &mut Vec<JsonValue>,
) -> Result<(), AllocError>
    ensures { OnOk result (AddsDocument deciding.entry.places.now.source.text.now
        (policies_view deciding.entry.policies.now) step.now response.now (map json_view all.old.items)
        (map json_view all.new.items)) }
{
    let stage = stage_document(alloc, deciding, Some(*step), response)?;
    put_item(stage, all)
}

fn stage_document(
    alloc: Global,
    deciding: Deciding<'_>,
    step: Option<Step<'_>>,
    response: &PartialResponse,
) -> Result<JsonValue, AllocError>
    ensures { IfOk result (λ d. IsStageDocument deciding.entry.places.now.source.text.now
        (policies_view deciding.entry.policies.now) step.entry response.now (json_view d)) }
{
    let mut members: Vec<(RcStr, JsonValue)> = Vec::new(alloc);
    put_step(alloc, step, &mut members)?;
    put_known(alloc, response, &mut members)?;
    let errors = errors_as_json(alloc, deciding, &response.errors)?;
    put_member(alloc, "errors", errors, &mut members)?;
    let names = stage_names(alloc, deciding.policies, response)?;
    put_member(alloc, "names", names, &mut members)?;
    Ok(JsonValue::Object(members))
}

// The names of the policies whose ids stand in what is known of a response.
fn stage_names(
    alloc: Global,
    policies: &PolicySet,
    response: &PartialResponse,
) -> Result<JsonValue, AllocError>
    ensures { IfOk result (λ j. json_view j ≡ object_of (names_where
        (is_told (rows_view response.now) (errors_view response.now.errors.items)) (policies_view policies.now))) }
{
    let told = told_ids(alloc, response)?;
    let erred = ids_of_errors(alloc, &response.errors)?;
    let names = names_of_two(alloc, policies, &told, &erred);
    drop((told, erred));
    names
}

// The ids of the policies that may and that must determine the decision, and of those of which something is left.
fn told_ids(alloc: Global, response: &PartialResponse) -> Result<HashSet<PolicyID>, AllocError>
    ensures { IfOk result (λ s. (t : Text) → has_id s t ≡ stands_in (rows_view response.now) t) }
{
    let mut told: HashSet<PolicyID> = HashSet::new(alloc);
    name_policies(response.may_be_determining(), &mut told)?;
    name_policies(response.must_be_determining(), &mut told)?;
    name_policies(response.nontrivial_residuals(), &mut told)?;
    Ok(told)
}

// The files of the step, at `step`.
fn put_step(
    alloc: Global,
    step: Option<Step<'_>>,
    members: &mut Vec<(RcStr, JsonValue)>,
) -> Result<(), AllocError>
    ensures { OnOk result (members_seen members.new.items ≡ members_seen members.old.items ++ step_members step.entry) }
{
    match step {
        Some(step) => {
            let files = step_files(alloc, step)?;
            put_member(alloc, "step", files, members)
        }
        None => Ok(()),
    }
}

fn step_files(alloc: Global, step: Step<'_>) -> Result<JsonValue, AllocError>
    ensures { IfOk result (λ j. json_view j ≡ object_of (step_files step.entry)) }
{
    let mut files: Vec<(RcStr, JsonValue)> = Vec::new(alloc);
    put_text(alloc, "values", step.values.name, &mut files)?;
    if let Some(entities) = step.entities {
        put_text(alloc, "entities", entities.name, &mut files)?;
    }
    Ok(JsonValue::Object(files))
}

pub(crate) fn put_text(
    alloc: Global,
    key: &str,
    text: &str,
    members: &mut Vec<(RcStr, JsonValue)>,
) -> Result<(), AllocError>
    ensures { OnOk result
        (members_seen members.new.items ≡ members_seen members.old.items ++ (key.now, string text.now) ∷ []) }
{
    let text = text_to_json(alloc, text)?;
    put_member(alloc, key, text, members)
}

// The ids of the policies that determined the decision, in the order of the text.
fn reasons_as_json(
    alloc: Global,
    policies: &PolicySet,
    reasons: &HashSet<PolicyID>,
) -> Result<JsonValue, AllocError>
    ensures { IfOk result
        (λ j. json_view j ≡ texts_json (ids_where (has_id reasons.now) (policies_view policies.now))) }
{
    let mut ids: Vec<JsonValue> = Vec::new(alloc);
    'policies: for policy in policies.policies() {
        put_reason(alloc, policy, reasons, &mut ids)?;
    }
    Ok(JsonValue::Array(ids))
}

fn put_reason(
    alloc: Global,
    policy: &Policy,
    reasons: &HashSet<PolicyID>,
    ids: &mut Vec<JsonValue>,
) -> Result<(), AllocError>
    ensures { OnOk result (map json_view ids.new.items
        ≡ map json_view ids.old.items ++ map string (id_where (has_id reasons.now) (policy_view policy.now))) }
{
    if holds_id(reasons, policy.id()) {
        put_id(alloc, policy.id(), ids)
    } else {
        Ok(())
    }
}

/// Whether the id is one of these.
pub(crate) fn holds_id(ids: &HashSet<PolicyID>, id: &PolicyID) -> bool
    ensures { result ≡ has_id ids.now (policy_id_text id.now) }
{
    ids.contains(id)
}

fn put_id(alloc: Global, id: &PolicyID, ids: &mut Vec<JsonValue>) -> Result<(), AllocError>
    ensures { OnOk result
        (map json_view ids.new.items ≡ map json_view ids.old.items ++ string (policy_id_text id.now) ∷ []) }
{
    let text = id.to_string(alloc)?;
    put_item(text_to_json(alloc, text.as_str())?, ids)
}

// The names of the policies of these ids: the annotation `id` of each that has one, under its id.
fn names_of_two(
    alloc: Global,
    policies: &PolicySet,
    some: &HashSet<PolicyID>,
    erred: &HashSet<PolicyID>,
) -> Result<JsonValue, AllocError>
    ensures { IfOk result (λ j. json_view j ≡ object_of
        (names_where (λ t. has_id erred.now t || has_id some.now t) (policies_view policies.now))) }
{
    let mut names: Vec<(RcStr, JsonValue)> = Vec::new(alloc);
    'policies: for policy in policies.policies() {
        put_name_of(alloc, policy, some, erred, &mut names)?;
    }
    Ok(JsonValue::Object(names))
}

fn put_name_of(
    alloc: Global,
    policy: &Policy,
    some: &HashSet<PolicyID>,
    erred: &HashSet<PolicyID>,
    names: &mut Vec<(RcStr, JsonValue)>,
) -> Result<(), AllocError>
    ensures { OnOk result (members_seen names.new.items ≡ members_seen names.old.items
        ++ name_where (λ t. has_id erred.now t || has_id some.now t) (policy_view policy.now)) }
{
    if holds_id(erred, policy.id()) || holds_id(some, policy.id()) {
        put_name(alloc, policy, names)
    } else {
        Ok(())
    }
}

fn put_name(
    alloc: Global,
    policy: &Policy,
    names: &mut Vec<(RcStr, JsonValue)>,
) -> Result<(), AllocError>
    ensures { OnOk result (members_seen names.new.items ≡ members_seen names.old.items
        ++ name_under (policy_view policy.now).id (annotated (policy_view policy.now))) }
{
    match annotated_id(policy) {
        Some(name) => put_text(alloc, policy.id().to_string(alloc)?.as_str(), name, names),
        None => Ok(()),
    }
}

// The ids of the policies that erred.
fn ids_of_errors(
    alloc: Global,
    errors: &[AuthorizationError],
) -> Result<HashSet<PolicyID>, AllocError>
    ensures { IfOk result (λ s. (t : Text) → has_id s t ≡ has_text t (erred_ids (errors_view errors.now))) }
{
    let mut ids: HashSet<PolicyID> = HashSet::new(alloc);
    'errors: for error in errors {
        put_named(erred_id(error), &mut ids)?;
    }
    Ok(ids)
}

// The id of the policy that erred.
fn erred_id(error: &AuthorizationError) -> &PolicyID
    ensures { policy_id_text result.now ≡ (error_view error.now).0 }
{
    let AuthorizationError::PolicyEvaluationError { id, error: _ } = error;
    id
}

// Puts the ids of the policies among these.
fn name_policies(
    policies: ReportedPolicies<'_>,
    named: &mut HashSet<PolicyID>,
) -> Result<(), AllocError>
    ensures { OnOk result ((t : Text) → has_id named.new t
        ≡ (has_text t (policy_ids (policies_left policies.entry)) || has_id named.old t)) }
{
    'policies: for policy in policies {
        name_policy(policy, named)?;
    }
    Ok(())
}

fn name_policy(
    policy: Result<Policy, AllocError>,
    named: &mut HashSet<PolicyID>,
) -> Result<(), AllocError>
    ensures { OnOk result (NamesNext policy (has_id named.old) (has_id named.new)) }
{
    match policy {
        Ok(policy) => {
            let put = put_named(policy.id(), named);
            drop(policy);
            put
        }
        Err(error) => Err(error),
    }
}

fn put_named(id: &PolicyID, named: &mut HashSet<PolicyID>) -> Result<(), AllocError>
    ensures { OnOk result ((t : Text) → has_id named.new t
        ≡ (text_eq t (policy_id_text id.now) || has_id named.old t)) }
{
    let id: PolicyID = id.clone()?;
    named.insert(id)?;
    Ok(())
}

// The errors, each with its place in the text of the policies. What one says that met the limit that was set names it.
fn errors_as_json(
    alloc: Global,
    deciding: Deciding<'_>,
    errors: &[AuthorizationError],
) -> Result<JsonValue, AllocError>
    ensures { IfOk result (λ j. IsErrorsArray deciding.entry.places.now.source.text.now errors.now (json_view j)) }
{
    let mut items: Vec<JsonValue> = Vec::new(alloc);
    'errors: for error in errors {
        put_error_item(alloc, deciding, error, &mut items)?;
    }
    Ok(JsonValue::Array(items))
}

fn put_error_item(
    alloc: Global,
    deciding: Deciding<'_>,
    error: &AuthorizationError,
    items: &mut Vec<JsonValue>,
) -> Result<(), AllocError>
    ensures { OnOk result (AddsPlacedError deciding.entry.places.now.source.text.now error.now
        (map json_view items.old.items) (map json_view items.new.items)) }
{
    let item = error_item(alloc, deciding, error)?;
    put_item(item, items)
}

fn error_item(
    alloc: Global,
    deciding: Deciding<'_>,
    error: &AuthorizationError,
) -> Result<JsonValue, AllocError>
    ensures { IfOk result
        (λ j. IsPlacedError deciding.entry.places.now.source.text.now error.now (json_view j)) }
{
    let mut members: Vec<(RcStr, JsonValue)> = Vec::new(alloc);
    put_error_within(alloc, error, deciding.way.limit, &mut members)?;
    put_place(alloc, deciding.places, place_of(error), &mut members)?;
    Ok(JsonValue::Object(members))
}

// Where the error arose.
fn place_of(error: &AuthorizationError) -> Option<Loc>
    ensures { result ≡ error_place error.now }
{
    let AuthorizationError::PolicyEvaluationError { id: _, error } = error;
    error.source_loc().copied()
}

// The line and the column of the place, at `line` and `column`, if the place is known.
fn put_place(
    alloc: Global,
    places: &Places<'_>,
    loc: Option<Loc>,
    members: &mut Vec<(RcStr, JsonValue)>,
) -> Result<(), AllocError>
    ensures { OnOk result (members_seen members.new.items
        ≡ members_seen members.old.items ++ place_members places.now.source.text.now loc) }
{
    match loc {
        Some(loc) => {
            let (line, column) = places.place_of(loc);
            put_member(alloc, "line", number(line), members)?;
            put_member(alloc, "column", number(column), members)
        }
        None => Ok(()),
    }
}

pub(crate) fn number(count: usize) -> JsonValue
    ensures { json_view result ≡ count_json count }
{
    match i64::try_from(count) {
        Ok(count) => JsonValue::Long(count),
        Err(_) => JsonValue::Long(i64::MAX),
    }
}
