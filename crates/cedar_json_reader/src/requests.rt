#![tactic(auto, using(crate::proofs::Refused::refusals, crate::proofs::ContextLemmas::contexts, crate::proofs::RequestLemmas::requests))]
//! Requests.
ghost use Rattle.std.specs.Prelude.{◌≡◌, [], ◌∷◌, Some, Ok, codes, option_map, OnOk, IfOk, IfErr};
ghost use Rattle.json.specs.Find.{as_str};
ghost use Rattle.json.specs.Value.{value_view, members_view};
ghost use Rattle.cedar_extensions.specs.Extensions.{extensions_view, calls_of};
ghost use Rattle.cedar_names.specs.Names.{uid_name};
ghost use Rattle.cedar_json_reader.specs.Paths.{at_key};
ghost use Rattle.cedar_json_reader.specs.Refusals.{IsRefusal};
ghost use Rattle.cedar_json_reader.specs.SaidContexts.{IsContextOf, IsContextRefusal};
ghost use Rattle.cedar_json_reader.specs.SaidEntities.{first_other};
ghost use Rattle.cedar_json_reader.specs.SaidRequests as asked;
ghost use Rattle.cedar_json_reader.specs.SaidRequests.{IsRequestOf, IsRequestRefusal};
ghost use Rattle.cedar_json_reader.specs.NamedEntities as naming;
ghost use Rattle.cedar_json_reader.specs.declared.errors.RefusalReason.TheVariants as reasons;
ghost use Rattle.cedar_requests.specs.Requests.{request_parts};

use crate::contexts::context_from_json_value;
use crate::entities::{missing, no_member, plain_uid};
use crate::errors::{JsonError, RefusalReason};
use crate::shapes::object;
use cedar_extensions::Extensions;
use cedar_names::EntityUID;
use cedar_requests::{Context, EntityUIDEntry, Request};
use cedar_text_lexer::errors::{Expected, ReadError};
use cedar_text_parser::parse_entity_uid;
use json::Value;
use std::alloc::{AllocError, Global};

/// The three entities of a request.
#[derive(Drop)]
struct RequestEntities {
    principal: EntityUID,
    action: EntityUID,
    resource: EntityUID,
}

/// The request of an object that has a `principal`, an `action`, a `resource` and a `context`, which is evaluated with
/// these extensions at most `limit` levels deep.
pub(crate) fn request_from_json_value(
    alloc: Global,
    value: &Value<'_>,
    extensions: &Extensions<'_>,
    limit: usize,
) -> Result<Request, JsonError>
    ensures made { IfOk result (IsRequestOf (extensions_view extensions.now) (calls_of extensions.now) limit
        (value_view value.now)) }
    ensures refused { IfErr result (IsRequestRefusal (extensions_view extensions.now) (calls_of extensions.now) limit
        (value_view value.now)) }
{
    match check_members(alloc, value) {
        Ok(()) => of_members(alloc, value, extensions, limit),
        Err(error) => Err(error),
    }
}

// Refuses what is no object, and a member that a request does not have.
fn check_members(alloc: Global, value: &Value<'_>) -> Result<(), JsonError>
    ensures whole { OnOk result (asked.object_said (value_view value.now) ≡ Ok (value_view value.now)) }
    ensures refused { IfErr result (IsRefusal (asked.object_said (value_view value.now))) }
{
    match object(value) {
        Some(members) => match find_unexpected(members) {
            Some(key) => Err(no_member(alloc, key)),
            None => Ok(()),
        },
        None => Err(JsonError::refusal(alloc, RefusalReason::NotAnObject)),
    }
}

// The first key that is none of a request's.
fn find_unexpected<'v, 'a>(members: &'v Vec<(&'a str, Value<'a>)>) -> Option<&'v str>
    ensures { option_map (λ k. k.now) result ≡ first_other asked.is_request_key (members_view members.now.items) }
{
    'members: for member in members {
        if !is_request_key(member.0) {
            return Some(member.0);
        }
    }
    None
}

fn is_request_key(key: &str) -> bool
    ensures { result ≡ asked.is_request_key key.now }
{
    key == "principal" || key == "action" || key == "resource" || key == "context"
}

fn of_members(
    alloc: Global,
    value: &Value<'_>,
    extensions: &Extensions<'_>,
    limit: usize,
) -> Result<Request, JsonError>
    requires { asked.object_said (value_view value.now) ≡ Ok (value_view value.now) }
    ensures made { IfOk result (IsRequestOf (extensions_view extensions.now) (calls_of extensions.now) limit
        (value_view value.now)) }
    ensures refused { IfErr result (IsRequestRefusal (extensions_view extensions.now) (calls_of extensions.now) limit
        (value_view value.now)) }
{
    match entities_of(alloc, value) {
        Ok(entities) => with_context(alloc, value, extensions, limit, entities),
        Err(error) => Err(error),
    }
}

// The entities of the request, in the order principal, action, resource.
fn entities_of(alloc: Global, value: &Value<'_>) -> Result<RequestEntities, JsonError>
    ensures principal { IfOk result
        (λ n. naming.IsNamedAt (codes "principal") (value_view value.now) (uid_name n.principal)) }
    ensures action { IfOk result (λ n. naming.IsNamedAt (codes "action") (value_view value.now) (uid_name n.action)) }
    ensures resource { IfOk result
        (λ n. naming.IsNamedAt (codes "resource") (value_view value.now) (uid_name n.resource)) }
    ensures refused { IfErr result (asked.AreUnnamed (value_view value.now)) }
{
    match entity_at(alloc, value, "principal") {
        Ok(principal) => with_action(alloc, value, principal),
        Err(error) => Err(error),
    }
}

fn with_action(
    alloc: Global,
    value: &Value<'_>,
    principal: EntityUID,
) -> Result<RequestEntities, JsonError>
    requires { naming.IsNamedAt (codes "principal") (value_view value.now) (uid_name principal) }
    ensures principal { IfOk result
        (λ n. naming.IsNamedAt (codes "principal") (value_view value.now) (uid_name n.principal)) }
    ensures action { IfOk result (λ n. naming.IsNamedAt (codes "action") (value_view value.now) (uid_name n.action)) }
    ensures resource { IfOk result
        (λ n. naming.IsNamedAt (codes "resource") (value_view value.now) (uid_name n.resource)) }
    ensures refused { IfErr result (asked.AreUnnamed (value_view value.now)) }
{
    match entity_at(alloc, value, "action") {
        Ok(action) => with_resource(alloc, value, principal, action),
        Err(error) => {
            drop(principal);
            Err(error)
        }
    }
}

fn with_resource(
    alloc: Global,
    value: &Value<'_>,
    principal: EntityUID,
    action: EntityUID,
) -> Result<RequestEntities, JsonError>
    requires principal { naming.IsNamedAt (codes "principal") (value_view value.now) (uid_name principal) }
    requires action { naming.IsNamedAt (codes "action") (value_view value.now) (uid_name action) }
    ensures principal { IfOk result
        (λ n. naming.IsNamedAt (codes "principal") (value_view value.now) (uid_name n.principal)) }
    ensures action { IfOk result (λ n. naming.IsNamedAt (codes "action") (value_view value.now) (uid_name n.action)) }
    ensures resource { IfOk result
        (λ n. naming.IsNamedAt (codes "resource") (value_view value.now) (uid_name n.resource)) }
    ensures refused { IfErr result (asked.AreUnnamed (value_view value.now)) }
{
    match entity_at(alloc, value, "resource") {
        Ok(resource) => Ok(RequestEntities {
            principal,
            action,
            resource,
        }),
        Err(error) => {
            drop((principal, action));
            Err(error)
        }
    }
}

// The entity that stands at this key of the object: a type and an id, or Cedar's text of it.
fn entity_at(alloc: Global, value: &Value<'_>, key: &str) -> Result<EntityUID, JsonError>
    ensures named { IfOk result (λ u. naming.IsNamedAt key.now (value_view value.now) (uid_name u)) }
    ensures refused { IfErr result (naming.IsUnnamedAt key.now (value_view value.now)) }
{
    match value.get(key) {
        Some(member) => entity_under(alloc, member, key),
        None => Err(missing(alloc, key)),
    }
}

// The same of the member, which has this key.
fn entity_under(alloc: Global, member: &Value<'_>, key: &str) -> Result<EntityUID, JsonError>
    ensures named { IfOk result
        (λ u. naming.IsNamedBy (as_str (value_view member.now)) (value_view member.now) (uid_name u)) }
    ensures refused { IfErr result
        (naming.IsUnnamedBy key.now (as_str (value_view member.now)) (value_view member.now)) }
{
    match member.as_str() {
        Some(text) => match entity_of_text(alloc, text) {
            Ok(uid) => Ok(uid),
            Err(error) => Err(error.under_key(alloc, key)),
        },
        None => match plain_uid(alloc, member) {
            Ok(uid) => Ok(uid),
            Err(error) => Err(error.under_key(alloc, key)),
        },
    }
}

// The entity that Cedar's text names.
fn entity_of_text(alloc: Global, text: &str) -> Result<EntityUID, JsonError>
    ensures named { IfOk result (λ u. naming.IsTextOf text.now (uid_name u)) }
    ensures refused { IfErr result (naming.IsNoEntityText text.now []) }
{
    match parse_entity_uid(alloc, text) {
        Ok(uid) => Ok(uid),
        Err(error) => Err(no_entity_text(alloc, error)),
    }
}

// What is told of an error of reading.
#[cold]
fn no_entity_text(alloc: Global, error: ReadError) -> JsonError
    ensures { naming.IsTold error result }
{
    match error {
        ReadError::Memory => JsonError::Memory(AllocError),
        ReadError::Expected {
            what,
            found: _,
            start,
            end,
        } => JsonError::refusal(alloc, not_expected(what, start, end)),
        ReadError::TooDeep { start, end, .. } => {
            JsonError::refusal(alloc, not_expected(Expected::Entity, start, end))
        }
    }
}

fn not_expected(expected: Expected, start: usize, end: usize) -> RefusalReason
    ensures { result ≡ reasons.NotAnEntityText expected start end }
{
    RefusalReason::NotAnEntityText {
        expected,
        start,
        end,
    }
}

fn with_context(
    alloc: Global,
    value: &Value<'_>,
    extensions: &Extensions<'_>,
    limit: usize,
    entities: RequestEntities,
) -> Result<Request, JsonError>
    ensures principal { IfOk result (λ q. asked.IsKnownAs (uid_name entities.principal) (request_parts q).0) }
    ensures action { IfOk result (λ q. asked.IsKnownAs (uid_name entities.action) (request_parts q).1) }
    ensures resource { IfOk result (λ q. asked.IsKnownAs (uid_name entities.resource) (request_parts q).2) }
    ensures context { IfOk result
        (λ q. asked.IsGivenContext (extensions_view extensions.now) (calls_of extensions.now) limit
        (asked.context_at (value_view value.now)) (request_parts q).3) }
    ensures refused { IfErr result (IsContextRefusal (extensions_view extensions.now) (calls_of extensions.now) limit
        (asked.context_at (value_view value.now)) (at_key (codes "context") ∷ [])) }
{
    match context_at(alloc, value, extensions, limit) {
        Ok(context) => Ok(request_of(entities, context)),
        Err(error) => {
            drop(entities);
            Err(error)
        }
    }
}

fn request_of(entities: RequestEntities, context: Context) -> Request
    ensures principal { asked.IsKnownAs (uid_name entities.principal) (request_parts result).0 }
    ensures action { asked.IsKnownAs (uid_name entities.action) (request_parts result).1 }
    ensures resource { asked.IsKnownAs (uid_name entities.resource) (request_parts result).2 }
    ensures context { (request_parts result).3 ≡ Some context }
{
    let RequestEntities {
        principal,
        action,
        resource,
    } = entities;
    Request::new_with_unknowns(
        EntityUIDEntry::known(principal, None),
        EntityUIDEntry::known(action, None),
        EntityUIDEntry::known(resource, None),
        Some(context),
    )
}

fn context_at(
    alloc: Global,
    value: &Value<'_>,
    extensions: &Extensions<'_>,
    limit: usize,
) -> Result<Context, JsonError>
    ensures made { IfOk result (IsContextOf (extensions_view extensions.now) (calls_of extensions.now) limit
        (asked.context_at (value_view value.now))) }
    ensures refused { IfErr result (IsContextRefusal (extensions_view extensions.now) (calls_of extensions.now) limit
        (asked.context_at (value_view value.now)) (at_key (codes "context") ∷ [])) }
{
    match value.get("context") {
        Some(member) => match context_from_json_value(alloc, member, extensions, limit) {
            Ok(context) => Ok(context),
            Err(error) => Err(error.under_key(alloc, "context")),
        },
        None => Err(missing(alloc, "context")),
    }
}
