//! Requests.
ghost use Rattle.std.specs.Prelude.{◌≡◌, true, None, [], IfOk, OnOk, IfErr, IfSome, IfNone, is_some};
ghost use Rattle.cedar_extensions.specs.Extensions.{extensions_view, calls_of};
ghost use Rattle.cedar_model.specs.Agreement.{IsKnownContext};
ghost use Rattle.cedar_requests.specs.Contexts.{context_view};
ghost use Rattle.cedar_requests.specs.Requests.{request_parts, request_view};
ghost use Rattle.cedar_names.specs.Names.{type_name_of};
ghost use Rattle.cedar_text_parser.specs.Paths.{IsEntityRead, IsNameRead};
ghost use Rattle.cedar_json_reader.specs.JsonTexts.{SaysSo};
ghost use Rattle.cedar_json_reader.specs.SaidContexts.{context_said, IsContextOf};
ghost use Rattle.cedar_json_reader.specs.SaidRequests.{IsRequestOf};
ghost use Rattle.cedar_cli.specs.Reasons.{IsToldFor, IsPathUnread, IsJsonUnread, IsEntryUnread, IsContextUnread};
ghost use Rattle.cedar_cli.specs.Reasons.{IsPartialContextUnread, ArePartialPartsUnread};
ghost use Rattle.cedar_cli.specs.Reasons.{AreEntriesUnread, ArePartsUnread, IsRequestUnread, IsPartialUnread};
ghost use Rattle.cedar_json_reader.specs.SaidContexts.{IsContextRefusal};
ghost use Rattle.cedar_json_reader.specs.SaidRequests.{IsRequestRefusal};
ghost use Rattle.cedar_json_reader.specs.NothingUnknown.{IsKnownRequest, IsKnownContextRefusal, IsKnownRequestRefusal};
ghost use Rattle.cedar_cli.specs.Questions.{levels, IsEntryOf, AreGiven, IsContextSaid, IsOfParts, IsWholeRequest};
ghost use Rattle.cedar_cli.specs.Questions.{IsContextGiven, IsOfGivenParts, IsPartialRequest};

use crate::asked::{Asked, Source};
use crate::limits::LEVELS;
use crate::refusal::{Refusal, refuse_with_line, unread, unread_json};
use cedar_policy_core::ast::{Context, EntityType, EntityUID, EntityUIDEntry, Request};
use cedar_policy_core::entities::json::{
    context_from_json_str, known_context_from_json_str, known_request_from_json_str,
    request_from_json_str,
};
use cedar_policy_core::extensions::Extensions;
use cedar_policy_core::parser::{parse_entity_uid, parse_name};
use std::alloc::Global;

// The entities of a request.
#[derive(Drop)]
struct Entries {
    principal: EntityUIDEntry,
    action: EntityUIDEntry,
    resource: EntityUIDEntry,
}

/// The request that is asked, each part of which is to be given, except the context, which is else empty. Refused where
/// a part is not given, where what is given can't be read, and where an unknown stands in it.
pub fn whole_request(
    alloc: Global,
    asked: &Asked<'_, '_>,
    extensions: &Extensions<'_>,
) -> Result<Request, Refusal>
    ensures asked { IfOk result (IsWholeRequest (extensions_view extensions.now) (calls_of extensions.now) asked.now) }
    ensures refused { IfErr result (IsToldFor
        (IsRequestUnread (extensions_view extensions.now) (calls_of extensions.now) asked.now)) }
{
    match asked.request {
        Some(source) => known_request_of(alloc, source, extensions),
        None => {
            all_given(alloc, asked)?;
            request_with_context(alloc, asked, extensions)
        }
    }
}

fn all_given(alloc: Global, asked: &Asked<'_, '_>) -> Result<(), Refusal>
    ensures given { OnOk result (AreGiven asked.now) }
    ensures refused { IfErr result (IsToldFor (¬ AreGiven asked.now)) }
{
    match missing(asked) {
        None => Ok(()),
        Some(option) => Err(refuse_with_line(alloc, format!(in alloc; "{option} is missing"))),
    }
}

// The option of the first entity that is not given.
fn missing(asked: &Asked<'_, '_>) -> Option<&'static str>
    ensures none { IfNone result (AreGiven asked.now) }
    ensures some { IfSome result (λ option. ¬ AreGiven asked.now) }
{
    if asked.principal.is_none() {
        Some("--principal")
    } else if asked.action.is_none() {
        Some("--action")
    } else if asked.resource.is_none() {
        Some("--resource")
    } else {
        None
    }
}

/// The request that is asked, where an entity that is not given is unknown, and a context that is not given empty. One
/// in which an unknown stands is refused.
pub(crate) fn request_with_context(
    alloc: Global,
    asked: &Asked<'_, '_>,
    extensions: &Extensions<'_>,
) -> Result<Request, Refusal>
    ensures parts { IfOk result (IsOfParts (extensions_view extensions.now) (calls_of extensions.now) asked.now) }
    ensures refused { IfErr result (IsToldFor
        (ArePartsUnread (extensions_view extensions.now) (calls_of extensions.now) asked.now)) }
{
    let context = given_context(alloc, asked.context, extensions)?;
    let entries = entries_of(alloc, asked)?;
    Ok(request_of_parts(entries, Some(context)))
}

// The context that is given, or one without attributes.
fn given_context(
    alloc: Global,
    context: Option<Source<'_>>,
    extensions: &Extensions<'_>,
) -> Result<Context, Refusal>
    ensures said { IfOk result
        (IsContextSaid (extensions_view extensions.now) (calls_of extensions.now) context.entry) }
    ensures refused { IfErr result (IsToldFor
        (IsContextUnread (extensions_view extensions.now) (calls_of extensions.now) context.entry)) }
{
    match context {
        Some(source) => known_context_of(alloc, source, extensions),
        None => Ok(Context::empty(alloc)),
    }
}

/// The request that is asked, where what is not given is unknown.
pub(crate) fn partial_request(
    alloc: Global,
    asked: &Asked<'_, '_>,
    extensions: &Extensions<'_>,
) -> Result<Request, Refusal>
    ensures asked { IfOk result
        (IsPartialRequest (extensions_view extensions.now) (calls_of extensions.now) asked.now) }
    ensures refused { IfErr result (IsToldFor
        (IsPartialUnread (extensions_view extensions.now) (calls_of extensions.now) asked.now)) }
{
    match asked.request {
        Some(source) => request_of(alloc, source, extensions),
        None => request_of_given(alloc, asked, extensions),
    }
}

// The request of the parts that are given.
fn request_of_given(
    alloc: Global,
    asked: &Asked<'_, '_>,
    extensions: &Extensions<'_>,
) -> Result<Request, Refusal>
    ensures parts { IfOk result
        (IsOfGivenParts (extensions_view extensions.now) (calls_of extensions.now) asked.now) }
    ensures refused { IfErr result (IsToldFor
        (ArePartialPartsUnread (extensions_view extensions.now) (calls_of extensions.now) asked.now)) }
{
    let context = context_if_given(alloc, asked.context, extensions)?;
    let entries = entries_of(alloc, asked)?;
    Ok(request_of_parts(entries, context))
}

fn context_if_given(
    alloc: Global,
    context: Option<Source<'_>>,
    extensions: &Extensions<'_>,
) -> Result<Option<Context>, Refusal>
    ensures said { IfOk result
        (IsContextGiven (extensions_view extensions.now) (calls_of extensions.now) context.entry) }
    ensures refused { IfErr result (IsToldFor
        (IsPartialContextUnread (extensions_view extensions.now) (calls_of extensions.now) context.entry)) }
{
    match context {
        Some(source) => Ok(Some(context_of(alloc, source, extensions)?)),
        None => Ok(None),
    }
}

fn request_of_parts(entries: Entries, context: Option<Context>) -> Request
    ensures { request_parts result ≡ (entries.principal, entries.action, entries.resource, context) }
{
    let Entries {
        principal,
        action,
        resource,
    } = entries;
    Request::new_with_unknowns(principal, action, resource, context)
}

fn entries_of(alloc: Global, asked: &Asked<'_, '_>) -> Result<Entries, Refusal>
    ensures principal { IfOk result (λ e. IsEntryOf asked.now.principal asked.now.principal_type e.principal) }
    ensures action { IfOk result (λ e. IsEntryOf asked.now.action None e.action) }
    ensures resource { IfOk result (λ e. IsEntryOf asked.now.resource asked.now.resource_type e.resource) }
    ensures refused { IfErr result (IsToldFor (AreEntriesUnread asked.now)) }
{
    let principal = entry(
        alloc,
        asked.principal,
        "--principal",
        asked.principal_type,
        "--principal-type",
    )?;
    let action = entry(alloc, asked.action, "--action", None, "--action")?;
    let resource = entry(
        alloc,
        asked.resource,
        "--resource",
        asked.resource_type,
        "--resource-type",
    )?;
    Ok(Entries {
        principal,
        action,
        resource,
    })
}

// The entity that is given or, where none is, one of this type or of any.
fn entry<'x>(
    alloc: Global,
    entity: Option<&'x str>,
    option: &'x str,
    type_name: Option<&'x str>,
    type_option: &'x str,
) -> Result<EntityUIDEntry, Refusal>
    ensures is { IfOk result (IsEntryOf entity.entry type_name.entry) }
    ensures refused { IfErr result (IsToldFor (IsEntryUnread entity.entry type_name.entry)) }
{
    match entity {
        Some(text) => {
            let source = Source { name: option, text };
            Ok(EntityUIDEntry::known(entity_of(alloc, source)?, None))
        }
        None => unknown_entry(alloc, type_name, type_option),
    }
}

// One of this type or, where none is given, of any.
fn unknown_entry<'x>(
    alloc: Global,
    type_name: Option<&'x str>,
    option: &'x str,
) -> Result<EntityUIDEntry, Refusal>
    ensures is { IfOk result (IsEntryOf None type_name.entry) }
    ensures refused { IfErr result (IsToldFor (IsEntryUnread None type_name.entry)) }
{
    match type_name {
        Some(text) => {
            let source = Source { name: option, text };
            Ok(EntityUIDEntry::unknown_with_type(type_of(alloc, source)?, None))
        }
        None => Ok(EntityUIDEntry::unknown()),
    }
}

fn entity_of(alloc: Global, source: Source<'_>) -> Result<EntityUID, Refusal>
    ensures read { IfOk result (IsEntityRead source.entry.text.now) }
    ensures refused { IfErr result (IsToldFor (IsPathUnread source.entry.text.now)) }
{
    match parse_entity_uid(alloc, source.text) {
        Ok(uid) => Ok(uid),
        Err(error) => Err(unread(alloc, source, error)),
    }
}

fn type_of(alloc: Global, source: Source<'_>) -> Result<EntityType, Refusal>
    ensures read { IfOk result (λ t. IsNameRead source.entry.text.now (type_name_of t)) }
    ensures refused { IfErr result (IsToldFor (IsPathUnread source.entry.text.now)) }
{
    match parse_name(alloc, source.text) {
        Ok(name) => Ok(EntityType::new(name)),
        Err(error) => Err(unread(alloc, source, error)),
    }
}

/// The context that the text writes.
pub(crate) fn context_of(
    alloc: Global,
    source: Source<'_>,
    extensions: &Extensions<'_>,
) -> Result<Context, Refusal>
    ensures said { IfOk result (λ c. SaysSo source.entry.text.now (λ j.
        IsContextOf (extensions_view extensions.now) (calls_of extensions.now) levels (context_said j) c)) }
    ensures refused { IfErr result (IsToldFor (IsJsonUnread source.entry.text.now (λ j e.
        IsContextRefusal (extensions_view extensions.now) (calls_of extensions.now) levels (context_said j) [] e))) }
{
    match context_from_json_str(alloc, source.text, extensions, LEVELS) {
        Ok(context) => Ok(context),
        Err(error) => Err(unread_json(alloc, source, error)),
    }
}

// The context that the text writes, in which nothing may be unknown.
fn known_context_of(
    alloc: Global,
    source: Source<'_>,
    extensions: &Extensions<'_>,
) -> Result<Context, Refusal>
    ensures said { IfOk result (λ c. SaysSo source.entry.text.now (λ j.
        IsContextOf (extensions_view extensions.now) (calls_of extensions.now) levels (context_said j) c)) }
    ensures known { IfOk result (λ c. IsKnownContext (context_view c)) }
    ensures refused { IfErr result (IsToldFor (IsJsonUnread source.entry.text.now (λ j e.
        IsKnownContextRefusal (extensions_view extensions.now) (calls_of extensions.now) levels (context_said j) []
        e))) }
{
    match known_context_from_json_str(alloc, source.text, extensions, LEVELS) {
        Ok(context) => Ok(context),
        Err(error) => Err(unread_json(alloc, source, error)),
    }
}

fn request_of(
    alloc: Global,
    source: Source<'_>,
    extensions: &Extensions<'_>,
) -> Result<Request, Refusal>
    ensures said { IfOk result (λ r. SaysSo source.entry.text.now (λ j.
        IsRequestOf (extensions_view extensions.now) (calls_of extensions.now) levels j r)) }
    ensures refused { IfErr result (IsToldFor (IsJsonUnread source.entry.text.now (λ j e.
        IsRequestRefusal (extensions_view extensions.now) (calls_of extensions.now) levels j e))) }
{
    match request_from_json_str(alloc, source.text, extensions, LEVELS) {
        Ok(request) => Ok(request),
        Err(error) => Err(unread_json(alloc, source, error)),
    }
}

// The request that the text writes, in which nothing may be unknown.
fn known_request_of(
    alloc: Global,
    source: Source<'_>,
    extensions: &Extensions<'_>,
) -> Result<Request, Refusal>
    ensures said { IfOk result (λ r. SaysSo source.entry.text.now (λ j.
        IsRequestOf (extensions_view extensions.now) (calls_of extensions.now) levels j r)) }
    ensures known { IfOk result (λ r. IsKnownRequest (request_view r)) }
    ensures refused { IfErr result (IsToldFor (IsJsonUnread source.entry.text.now (λ j e.
        IsKnownRequestRefusal (extensions_view extensions.now) (calls_of extensions.now) levels j e))) }
{
    match known_request_from_json_str(alloc, source.text, extensions, LEVELS) {
        Ok(request) => Ok(request),
        Err(error) => Err(unread_json(alloc, source, error)),
    }
}
