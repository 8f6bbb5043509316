//! Requests of which parts may be unknown.
ghost use Rattle.std.specs.Prelude.{◌≡◌, false, None, Some, IfOk, IfErr, option_map, codes};
ghost use Rattle.json.specs.Value.{value_view};
ghost use Rattle.cedar_extensions.specs.Extensions.{extensions_view, calls_of};
ghost use Rattle.cedar_requests.specs.Requests.{entry_view, context_given, request_view};
ghost use Rattle.cedar_endpoints.specs.Asked.{named_view};
ghost use Rattle.cedar_endpoints.specs.Partials as asked;
ghost use Rattle.cedar_service.specs.Asked.{IsContextUnsaid};
ghost use Rattle.cedar_service.specs.Faults.{IsToldAs, IsFaultBelow};
ghost use Rattle.cedar_service.specs.Searched.{type_alone, sample_named};
ghost use Rattle.cedar_service.specs.Started.{is_read_memory};
ghost use Rattle.cedar_service.specs.Left.{IsEntryOf, IsKnownEntry, IsOpenEntry, IsTextEntry, IsNoEntry, IsNoName};
ghost use Rattle.cedar_service.specs.Left.{IsNoText, IsContextIfGiven, AreUnentered, IsAskedPartly, IsUnaskedPartly};

use crate::contexts::{CONTEXT, context_in};
use crate::faults::{Refusal, refuse_reason};
use crate::names::entity_of;
use crate::opened::type_alone;
use crate::searching::sample_named;
use cedar_endpoints::{Entry, Named, Partial};
use cedar_extensions::Extensions;
use cedar_json_reader::RefusalReason;
use cedar_requests::{Context, EntityUIDEntry, Request};
use cedar_text_lexer::errors::{Expected, ReadError};
use cedar_text_parser::parse_entity_uid;
use json::Value;
use std::alloc::{AllocError, Global};

// The three entities of a request, each of which may be unknown.
#[derive(Drop)]
struct Entries {
    principal: EntityUIDEntry,
    action: EntityUIDEntry,
    resource: EntityUIDEntry,
}

/// The request that is asked. Refuses the first of these: a principal, an action, a resource whose type is no name or
/// whose text is no entity's, a context that says no record or does not evaluate.
pub(crate) fn partial_request(
    alloc: Global,
    question: &Partial<'_, '_>,
    extensions: &Extensions<'_>,
) -> Result<Request, Refusal>
    ensures asked { IfOk result (IsAskedPartly (extensions_view extensions.now) (calls_of extensions.now)
        (asked.partial_view question.now)) }
    ensures refused { IfErr result (IsToldAs
        (IsUnaskedPartly (extensions_view extensions.now) (calls_of extensions.now)
        (asked.partial_view question.now))) }
{
    match entries_of(alloc, question) {
        Ok(entries) => with_context(alloc, question, entries, extensions),
        Err(refusal) => Err(refusal),
    }
}

fn with_context(
    alloc: Global,
    question: &Partial<'_, '_>,
    entries: Entries,
    extensions: &Extensions<'_>,
) -> Result<Request, Refusal>
    requires principal { IsEntryOf (asked.entry_view question.now.principal) (entry_view entries.principal) }
    requires action { IsEntryOf (asked.entry_view question.now.action) (entry_view entries.action) }
    requires resource { IsEntryOf (asked.entry_view question.now.resource) (entry_view entries.resource) }
    ensures asked { IfOk result (IsAskedPartly (extensions_view extensions.now) (calls_of extensions.now)
        (asked.partial_view question.now)) }
    ensures refused { IfErr result (IsToldAs
        (IsUnaskedPartly (extensions_view extensions.now) (calls_of extensions.now)
        (asked.partial_view question.now))) }
{
    match context_if_given(alloc, question.context, extensions) {
        Ok(context) => Ok(request_with(entries, context)),
        Err(refusal) => {
            drop(entries);
            Err(refusal)
        }
    }
}

fn request_with(entries: Entries, context: Option<Context>) -> Request
    ensures { request_view result ≡ record {
      principal_entry = entry_view entries.principal;
      action_entry = entry_view entries.action;
      resource_entry = entry_view entries.resource;
      context_part = context_given context;
    } }
{
    let Entries {
        principal,
        action,
        resource,
    } = entries;
    Request::new_with_unknowns(principal, action, resource, context)
}

// ---- the context

fn context_if_given(
    alloc: Global,
    context: Option<&Value<'_>>,
    extensions: &Extensions<'_>,
) -> Result<Option<Context>, Refusal>
    ensures said { IfOk result (λ c. IsContextIfGiven (extensions_view extensions.now) (calls_of extensions.now)
        (option_map (λ v. value_view v.now) context.entry) (context_given c)) }
    ensures refused { IfErr result (IsToldAs
        (IsContextUnsaid (extensions_view extensions.now) (calls_of extensions.now)
        (option_map (λ v. value_view v.now) context.entry))) }
{
    match context {
        Some(value) => given_context(alloc, value, extensions),
        None => Ok(None),
    }
}

fn given_context(
    alloc: Global,
    value: &Value<'_>,
    extensions: &Extensions<'_>,
) -> Result<Option<Context>, Refusal>
    ensures said { IfOk result (λ c. IsContextIfGiven (extensions_view extensions.now) (calls_of extensions.now)
        (Some (value_view value.now)) (context_given c)) }
    ensures refused { IfErr result (IsToldAs
        (IsContextUnsaid (extensions_view extensions.now) (calls_of extensions.now) (Some (value_view value.now)))) }
{
    match context_in(alloc, value, CONTEXT, extensions) {
        Ok(context) => Ok(Some(context)),
        Err(refusal) => Err(refusal),
    }
}

// ---- the entities

fn entries_of(alloc: Global, question: &Partial<'_, '_>) -> Result<Entries, Refusal>
    ensures principal { IfOk result (λ e.
        IsEntryOf (asked.entry_view question.now.principal) (entry_view e.principal)) }
    ensures action { IfOk result (λ e. IsEntryOf (asked.entry_view question.now.action) (entry_view e.action)) }
    ensures resource { IfOk result (λ e.
        IsEntryOf (asked.entry_view question.now.resource) (entry_view e.resource)) }
    ensures refused { IfErr result (IsToldAs (AreUnentered (asked.partial_view question.now))) }
{
    match entry_of(alloc, question.principal, "$.principal") {
        Ok(principal) => with_action(alloc, question, principal),
        Err(refusal) => Err(refusal),
    }
}

fn with_action(
    alloc: Global,
    question: &Partial<'_, '_>,
    principal: EntityUIDEntry,
) -> Result<Entries, Refusal>
    requires { IsEntryOf (asked.entry_view question.now.principal) (entry_view principal) }
    ensures principal { IfOk result (λ e.
        IsEntryOf (asked.entry_view question.now.principal) (entry_view e.principal)) }
    ensures action { IfOk result (λ e. IsEntryOf (asked.entry_view question.now.action) (entry_view e.action)) }
    ensures resource { IfOk result (λ e.
        IsEntryOf (asked.entry_view question.now.resource) (entry_view e.resource)) }
    ensures refused { IfErr result (IsToldAs (AreUnentered (asked.partial_view question.now))) }
{
    match entry_of(alloc, question.action, "$.action") {
        Ok(action) => with_resource(alloc, question, principal, action),
        Err(refusal) => {
            drop(principal);
            Err(refusal)
        }
    }
}

fn with_resource(
    alloc: Global,
    question: &Partial<'_, '_>,
    principal: EntityUIDEntry,
    action: EntityUIDEntry,
) -> Result<Entries, Refusal>
    requires principal { IsEntryOf (asked.entry_view question.now.principal) (entry_view principal) }
    requires action { IsEntryOf (asked.entry_view question.now.action) (entry_view action) }
    ensures principal { IfOk result (λ e.
        IsEntryOf (asked.entry_view question.now.principal) (entry_view e.principal)) }
    ensures action { IfOk result (λ e. IsEntryOf (asked.entry_view question.now.action) (entry_view e.action)) }
    ensures resource { IfOk result (λ e.
        IsEntryOf (asked.entry_view question.now.resource) (entry_view e.resource)) }
    ensures refused { IfErr result (IsToldAs (AreUnentered (asked.partial_view question.now))) }
{
    match entry_of(alloc, question.resource, "$.resource") {
        Ok(resource) => Ok(Entries {
            principal,
            action,
            resource,
        }),
        Err(refusal) => {
            drop(principal);
            drop(action);
            Err(refusal)
        }
    }
}

// What stands at this path.
fn entry_of(alloc: Global, entry: Entry<'_>, path: &str) -> Result<EntityUIDEntry, Refusal>
    ensures entered { IfOk result (λ e. IsEntryOf (asked.entry_view entry.entry) (entry_view e)) }
    ensures refused { IfErr result (IsToldAs (IsNoEntry (asked.entry_view entry.entry) path.now)) }
{
    match entry {
        Entry::OfAny => Ok(EntityUIDEntry::unknown()),
        Entry::OfType { type_name } => open_entry(alloc, type_name, path),
        Entry::Known(named) => known_entry(alloc, named, path),
        Entry::Text { text } => text_entry(alloc, text, path),
    }
}

fn known_entry(alloc: Global, named: Named<'_>, path: &str) -> Result<EntityUIDEntry, Refusal>
    ensures known { IfOk result (λ e. IsKnownEntry (named_view named.entry) (entry_view e)) }
    ensures refused { IfErr result (IsToldAs (IsNoName (named_view named.entry) path.now)) }
{
    match entity_of(alloc, named, path) {
        Ok(uid) => Ok(EntityUIDEntry::known(uid, None)),
        Err(refusal) => Err(refusal),
    }
}

fn open_entry(alloc: Global, type_name: &str, path: &str) -> Result<EntityUIDEntry, Refusal>
    ensures opened { IfOk result (λ e. IsOpenEntry type_name.now (entry_view e)) }
    ensures refused { IfErr result (IsToldAs (IsNoName (sample_named type_name.now) path.now)) }
{
    match known_entry(alloc, sample_named(type_name), path) {
        Ok(entry) => alone(entry),
        Err(refusal) => Err(refusal),
    }
}

// Of the entry the type alone.
fn alone(entry: EntityUIDEntry) -> Result<EntityUIDEntry, Refusal>
    ensures alone { IfOk result (λ e. entry_view e ≡ type_alone (entry_view entry)) }
    ensures memory { IfErr result (IsToldAs (λ _. ⊥)) }
{
    let alone = type_alone(&entry);
    drop(entry);
    match alone {
        Ok(alone) => Ok(alone),
        Err(AllocError) => Err(Refusal::Memory),
    }
}

fn text_entry(alloc: Global, text: &str, path: &str) -> Result<EntityUIDEntry, Refusal>
    ensures known { IfOk result (λ e. IsTextEntry text.now (entry_view e)) }
    ensures refused { IfErr result (IsToldAs (IsNoText text.now path.now)) }
{
    match parse_entity_uid(alloc, text) {
        Ok(uid) => Ok(EntityUIDEntry::known(uid, None)),
        Err(error) => Err(refuse_text(alloc, path, error)),
    }
}

// The refusal of a text that is no entity's.
#[cold]
fn refuse_text(alloc: Global, path: &str, error: ReadError) -> Refusal
    ensures reading { IsToldAs (λ _. is_read_memory error ≡ false) result }
    ensures fault { IsToldAs (IsFaultBelow path.now) result }
{
    match error {
        ReadError::Memory => Refusal::Memory,
        ReadError::Expected {
            what,
            found: _,
            start,
            end,
        } => refuse_reason(alloc, path, not_expected(what, start, end)),
        ReadError::TooDeep { start, end, .. } => {
            refuse_reason(alloc, path, not_expected(Expected::Entity, start, end))
        }
    }
}

fn not_expected(expected: Expected, start: usize, end: usize) -> RefusalReason {
    RefusalReason::NotAnEntityText {
        expected,
        start,
        end,
    }
}
