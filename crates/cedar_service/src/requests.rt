#![tactic(auto, using(crate::proofs::Held::held))]
//! The request that is asked.
ghost use Rattle.std.specs.Prelude.{◌≡◌, Ok, IfOk, IfErr};
ghost use Rattle.cedar_extensions.specs.Extensions.{extensions_view, calls_of};
ghost use Rattle.cedar_names.specs.Names.{uid_name};
ghost use Rattle.cedar_model.specs.Settings.{known_entry};
ghost use Rattle.cedar_requests.specs.Contexts.{context_view};
ghost use Rattle.cedar_requests.specs.Requests.{request_view};
ghost use Rattle.cedar_endpoints.specs.Asked.{evaluation_view, named_view};
ghost use Rattle.json.specs.Value.{value_view};
ghost use Rattle.cedar_service.specs.Documents.{IsReadAs, IsWritable};
ghost use Rattle.cedar_service.specs.Asked.{IsAsked, IsUnasked, AreUnnamed, IsSaid, IsUnsaid};
ghost use Rattle.cedar_service.specs.Asked.{IsSaidBy, IsUnsaidBy, IsSaidBeside, IsUnsaidBeside};
ghost use Rattle.cedar_service.specs.Asked.{entity_said, action_named, has_beside, has_known_context, is_known_part};
ghost use Rattle.cedar_service.specs.Faults.{IsToldAs};

use crate::contexts::{LEVELS, context_of};
use crate::documents::rest_text;
use crate::faults::{Refusal, refuse_json};
use crate::names::{action_of, entity_of};
use cedar_endpoints::Evaluation;
use cedar_extensions::Extensions;
use cedar_json_reader::request_from_json_str;
use cedar_names::EntityUID;
use cedar_requests::{Context, Request};
use json::Value;
use std::alloc::{AllocError, Global};

// The three entities of a request.
#[derive(Drop)]
struct Entities {
    principal: EntityUID,
    action: EntityUID,
    resource: EntityUID,
}

/// The request that the evaluation asks. Refuses the first of these: a subject whose type is no name, such a resource,
/// a context that says no record or does not evaluate.
pub(crate) fn request_of(
    alloc: Global,
    question: &Evaluation<'_, '_>,
    action_type: &str,
    extensions: &Extensions<'_>,
) -> Result<Request, Refusal>
    ensures asked { IfOk result (IsAsked (extensions_view extensions.now) (calls_of extensions.now)
        action_type.now (evaluation_view question.now)) }
    ensures refused { IfErr result (IsToldAs
        (IsUnasked (extensions_view extensions.now) (calls_of extensions.now) (evaluation_view question.now))) }
{
    match entities_of(alloc, question, action_type) {
        Ok(entities) => with_context(alloc, question, action_type, entities, extensions),
        Err(refusal) => Err(refusal),
    }
}

fn with_context(
    alloc: Global,
    question: &Evaluation<'_, '_>,
    action_type: &str,
    entities: Entities,
    extensions: &Extensions<'_>,
) -> Result<Request, Refusal>
    requires principal { entity_said (named_view question.now.subject) ≡ Ok (uid_name entities.principal) }
    requires resource { entity_said (named_view question.now.resource) ≡ Ok (uid_name entities.resource) }
    requires action { uid_name entities.action ≡ action_named action_type.now question.now.action.now }
    ensures asked { IfOk result (IsAsked (extensions_view extensions.now) (calls_of extensions.now)
        action_type.now (evaluation_view question.now)) }
    ensures refused { IfErr result (IsToldAs
        (IsUnasked (extensions_view extensions.now) (calls_of extensions.now) (evaluation_view question.now))) }
{
    match context_of(alloc, question.context, extensions) {
        Ok(context) => Ok(request_with(entities, context)),
        Err(refusal) => {
            drop(entities);
            Err(refusal)
        }
    }
}

// The entities of the request.
fn entities_of(
    alloc: Global,
    question: &Evaluation<'_, '_>,
    action_type: &str,
) -> Result<Entities, Refusal>
    ensures principal { IfOk result (λ e.
        entity_said (named_view question.now.subject) ≡ Ok (uid_name e.principal)) }
    ensures resource { IfOk result (λ e.
        entity_said (named_view question.now.resource) ≡ Ok (uid_name e.resource)) }
    ensures action { IfOk result (λ e. uid_name e.action ≡ action_named action_type.now question.now.action.now) }
    ensures refused { IfErr result (IsToldAs (AreUnnamed (evaluation_view question.now))) }
{
    match entity_of(alloc, question.subject, "$.subject.type") {
        Ok(principal) => with_resource(alloc, question, action_type, principal),
        Err(refusal) => Err(refusal),
    }
}

fn with_resource(
    alloc: Global,
    question: &Evaluation<'_, '_>,
    action_type: &str,
    principal: EntityUID,
) -> Result<Entities, Refusal>
    requires { entity_said (named_view question.now.subject) ≡ Ok (uid_name principal) }
    ensures principal { IfOk result (λ e.
        entity_said (named_view question.now.subject) ≡ Ok (uid_name e.principal)) }
    ensures resource { IfOk result (λ e.
        entity_said (named_view question.now.resource) ≡ Ok (uid_name e.resource)) }
    ensures action { IfOk result (λ e. uid_name e.action ≡ action_named action_type.now question.now.action.now) }
    ensures refused { IfErr result (IsToldAs (AreUnnamed (evaluation_view question.now))) }
{
    match entity_of(alloc, question.resource, "$.resource.type") {
        Ok(resource) => with_action(alloc, question, action_type, principal, resource),
        Err(refusal) => {
            drop(principal);
            Err(refusal)
        }
    }
}

fn with_action(
    alloc: Global,
    question: &Evaluation<'_, '_>,
    action_type: &str,
    principal: EntityUID,
    resource: EntityUID,
) -> Result<Entities, Refusal>
    requires principal { entity_said (named_view question.now.subject) ≡ Ok (uid_name principal) }
    requires resource { entity_said (named_view question.now.resource) ≡ Ok (uid_name resource) }
    ensures principal { IfOk result (λ e.
        entity_said (named_view question.now.subject) ≡ Ok (uid_name e.principal)) }
    ensures resource { IfOk result (λ e.
        entity_said (named_view question.now.resource) ≡ Ok (uid_name e.resource)) }
    ensures action { IfOk result (λ e. uid_name e.action ≡ action_named action_type.now question.now.action.now) }
    ensures refused { IfErr result (IsToldAs (AreUnnamed (evaluation_view question.now))) }
{
    match action_of(alloc, action_type, question.action) {
        Ok(action) => Ok(Entities {
            principal,
            action,
            resource,
        }),
        Err(AllocError) => {
            drop(principal);
            drop(resource);
            Err(Refusal::Memory)
        }
    }
}

fn request_with(entities: Entities, context: Context) -> Request
    ensures { request_view result ≡ record {
      principal_entry = known_entry (uid_name entities.principal);
      action_entry = known_entry (uid_name entities.action);
      resource_entry = known_entry (uid_name entities.resource);
      context_part = context_view context;
    } }
{
    let Entities {
        principal,
        action,
        resource,
    } = entities;
    Request::of(principal, action, resource, context)
}

/// The request that the text says, which is this JSON, in Cedar's JSON, but for the entities that it brings and its id.
/// Refuses what says none, and a context that does not evaluate.
pub(crate) fn request_said(
    alloc: Global,
    text: &str,
    value: Value<'_>,
    extensions: &Extensions<'_>,
) -> Result<Request, Refusal>
    requires read { IsReadAs text.now (value_view value) }
    ensures said { IfOk result (IsSaid (extensions_view extensions.now) (calls_of extensions.now) text.now) }
    ensures refused { IfErr result (IsToldAs
        (IsUnsaid (extensions_view extensions.now) (calls_of extensions.now) text.now)) }
{
    if has_beside(&value) {
        said_beside(alloc, value, extensions)
    } else {
        drop(value);
        said_by(alloc, text, extensions)
    }
}

// Whether it brings entities, or has an id.
fn has_beside(value: &Value<'_>) -> bool
    ensures { result ≡ has_beside (value_view value.now) }
{
    value.get("entities").is_some() || value.get("id").is_some()
}

// The request that the text says.
fn said_by(alloc: Global, text: &str, extensions: &Extensions<'_>) -> Result<Request, Refusal>
    ensures said { IfOk result (IsSaidBy (extensions_view extensions.now) (calls_of extensions.now) text.now) }
    ensures refused { IfErr result (IsToldAs
        (IsUnsaidBy (extensions_view extensions.now) (calls_of extensions.now) text.now)) }
{
    match request_from_json_str(alloc, text, extensions, LEVELS) {
        Ok(request) => Ok(request),
        Err(error) => {
            let refusal = refuse_json(alloc, "$", &error);
            drop(error);
            Err(refusal)
        }
    }
}

// The request that the JSON says beside entities and an id.
fn said_beside(
    alloc: Global,
    value: Value<'_>,
    extensions: &Extensions<'_>,
) -> Result<Request, Refusal>
    requires { IsWritable (value_view value) }
    ensures said { IfOk result (IsSaidBeside (extensions_view extensions.now) (calls_of extensions.now)
        (value_view value.entry)) }
    ensures refused { IfErr result (IsToldAs (IsUnsaidBeside (extensions_view extensions.now)
        (calls_of extensions.now) (value_view value.entry))) }
{
    match rest_text(alloc, value) {
        Ok(text) => {
            let said = said_by(alloc, text.as_str(), extensions);
            drop(text);
            said
        }
        Err(AllocError) => Err(Refusal::Memory),
    }
}

/// Whether no unknown stands in the context of the request.
pub(crate) fn has_known_context(request: &Request) -> bool
    ensures { result ≡ has_known_context request.now }
{
    match request.context() {
        Some(context) => is_known(context),
        None => false,
    }
}

fn is_known(context: &Context) -> bool
    ensures { result ≡ is_known_part (context_view context.now) }
{
    context.as_value().is_some()
}
