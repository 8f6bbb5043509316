#![tactic(auto, using(crate::proofs::Views::views, crate::proofs::Identified::identified))]
//! What Cedar's own request asks, of which parts may be unknown.
ghost use Rattle.std.specs.Prelude.{◌≡◌, Ok, Some, IfOk, option_map, codes};
ghost use Rattle.json.specs.Find.{get};
ghost use Rattle.json.specs.Tree.{HasNumbers};
ghost use Rattle.json.specs.Value.{value_view};
ghost use Rattle.cedar_endpoints.specs.Asked.{told, and_then, text_said};
ghost use Rattle.cedar_endpoints.specs.Partials as partials;

use crate::answers::Status;
use crate::asked::{Fault, Keys, Named, context_of, object_fault, text_in, text_of};
use crate::decider::Decider;
use crate::ids::{given_id, put_id};
use crate::replies::{Remainder, Reply, faulty, plain, refused};
use json::Value;
use std::alloc::{AllocError, Global};

/// An entity of a request, which may be unknown.
#[derive(Clone, Copy)]
pub enum Entry<'v> {
    /// It is unknown, and can be of any type.
    OfAny,
    /// It is unknown, and of this type.
    OfType { type_name: &'v str },
    /// The one of this type and this id.
    Known(Named<'v>),
    /// The one that Cedar's text writes.
    Text { text: &'v str },
}

/// The three entities of a request, and its context, which is unknown where none is given.
#[derive(Clone, Copy)]
pub struct Partial<'v, 'a> {
    pub principal: Entry<'v>,
    pub action: Entry<'v>,
    pub resource: Entry<'v>,
    pub context: Option<&'v Value<'a>>,
}

/// What the document asks. An entity that is left out is unknown; one without an `id` is unknown and of its `type`.
/// Refuses what is no object, a member that is unexpected, one that is missing or of another kind: the first of these,
/// in the order principal, action, resource, context. A member `entities` is not looked at.
pub fn read_partial<'v, 'a>(value: &'v Value<'a>) -> Result<Partial<'v, 'a>, Fault>
    ensures { told partials.partial_view result ≡ partials.partial_said (value_view value.now) }
{
    match object_fault(Keys::Request, "", value) {
        Some(fault) => Err(fault),
        None => parts_of(value),
    }
}

fn parts_of<'v, 'a>(value: &'v Value<'a>) -> Result<Partial<'v, 'a>, Fault>
    ensures { told partials.partial_view result
        ≡ and_then (partials.with_action (value_view value.now)) (partials.principal_said (value_view value.now)) }
{
    match entry_of(".principal", ".principal.__entity", value.get("principal")) {
        Ok(principal) => with_action(value, principal),
        Err(fault) => Err(fault),
    }
}

fn with_action<'v, 'a>(value: &'v Value<'a>, principal: Entry<'v>) -> Result<Partial<'v, 'a>, Fault>
    ensures { told partials.partial_view result
        ≡ partials.with_action (value_view value.now) (partials.entry_view principal.entry) }
{
    match entry_of(".action", ".action.__entity", value.get("action")) {
        Ok(action) => with_resource(value, principal, action),
        Err(fault) => Err(fault),
    }
}

fn with_resource<'v, 'a>(
    value: &'v Value<'a>,
    principal: Entry<'v>,
    action: Entry<'v>,
) -> Result<Partial<'v, 'a>, Fault>
    ensures { told partials.partial_view result
        ≡ partials.with_resource (value_view value.now) (partials.entry_view principal.entry)
        (partials.entry_view action.entry) }
{
    match entry_of(".resource", ".resource.__entity", value.get("resource")) {
        Ok(resource) => with_context(value, principal, action, resource),
        Err(fault) => Err(fault),
    }
}

fn with_context<'v, 'a>(
    value: &'v Value<'a>,
    principal: Entry<'v>,
    action: Entry<'v>,
    resource: Entry<'v>,
) -> Result<Partial<'v, 'a>, Fault>
    ensures { told partials.partial_view result
        ≡ partials.with_context (value_view value.now) (partials.entry_view principal.entry)
        (partials.entry_view action.entry) (partials.entry_view resource.entry) }
{
    match context_of(value.get("context")) {
        Ok(context) => Ok(Partial {
            principal,
            action,
            resource,
            context,
        }),
        Err(fault) => Err(fault),
    }
}

// ---- an entity

// `within` is where its type and its id are, if they stand at `__entity`.
fn entry_of<'v>(
    part: &'static str,
    within: &'static str,
    value: Option<&'v Value<'_>>,
) -> Result<Entry<'v>, Fault>
    ensures { told partials.entry_view result
        ≡ partials.entry_said part.now within.now (option_map (λ v. value_view v.now) value.entry) }
{
    match value {
        Some(value) => entry_in(part, within, value),
        None => Ok(Entry::OfAny),
    }
}

fn entry_in<'v>(
    part: &'static str,
    within: &'static str,
    value: &'v Value<'_>,
) -> Result<Entry<'v>, Fault>
    ensures { told partials.entry_view result ≡ partials.entry_in part.now within.now (value_view value.now) }
{
    match value.as_str() {
        Some(text) => Ok(Entry::Text { text }),
        None => escaped_in(part, within, value, value.get("__entity")),
    }
}

fn escaped_in<'v>(
    part: &'static str,
    within: &'static str,
    value: &'v Value<'_>,
    escaped: Option<&'v Value<'_>>,
) -> Result<Entry<'v>, Fault>
    ensures { told partials.entry_view result
        ≡ partials.escaped_in part.now within.now (value_view value.now)
        (option_map (λ v. value_view v.now) escaped.entry) }
{
    match escaped {
        Some(inner) => unescaped(part, within, value, inner),
        None => plain_in(part, value),
    }
}

fn unescaped<'v>(
    part: &'static str,
    within: &'static str,
    value: &'v Value<'_>,
    inner: &'v Value<'_>,
) -> Result<Entry<'v>, Fault>
    ensures { told partials.entry_view result
        ≡ partials.escaped_in part.now within.now (value_view value.now) (Some (value_view inner.now)) }
{
    match object_fault(Keys::Escape, part, value) {
        Some(fault) => Err(fault),
        None => plain_in(within, inner),
    }
}

fn plain_in<'v>(part: &'static str, value: &'v Value<'_>) -> Result<Entry<'v>, Fault>
    ensures { told partials.entry_view result ≡ partials.plain_in part.now (value_view value.now) }
{
    match object_fault(Keys::Uid, part, value) {
        Some(fault) => Err(fault),
        None => type_and_id(part, value),
    }
}

fn type_and_id<'v>(part: &'static str, value: &'v Value<'_>) -> Result<Entry<'v>, Fault>
    ensures { told partials.entry_view result
        ≡ and_then (partials.type_then_id part.now (value_view value.now))
        (text_said part.now (codes ".type") (get (codes "type") (value_view value.now))) }
{
    match text_of(part, ".type", value.get("type")) {
        Ok(type_name) => with_id(part, type_name, value.get("id")),
        Err(fault) => Err(fault),
    }
}

fn with_id<'v>(
    part: &'static str,
    type_name: &'v str,
    id: Option<&'v Value<'_>>,
) -> Result<Entry<'v>, Fault>
    ensures { told partials.entry_view result
        ≡ partials.id_said part.now type_name.now (option_map (λ v. value_view v.now) id.entry) }
{
    match id {
        Some(id) => known_as(part, type_name, id),
        None => Ok(Entry::OfType { type_name }),
    }
}

fn known_as<'v>(
    part: &'static str,
    type_name: &'v str,
    id: &'v Value<'_>,
) -> Result<Entry<'v>, Fault>
    ensures { told partials.entry_view result
        ≡ partials.id_said part.now type_name.now (Some (value_view id.now)) }
{
    match text_in(part, ".id", id) {
        Ok(id) => Ok(Entry::Known(Named { type_name, id })),
        Err(fault) => Err(fault),
    }
}

// ---- what is replied

/// What is left of the policies for the document's request, which the text writes, or 400 for what is wrong; with the
/// request's `id` first, if it has one. Refuses only if out of memory.
pub(crate) fn answer_partly<D: Decider>(
    alloc: Global,
    decider: &D,
    text: &str,
    value: &Value<'_>,
) -> Result<Reply, AllocError>
    requires { HasNumbers (value_view value.now) }
    ensures { IfOk result (partials.IsPartlyAnswered (D.leaves decider.now) text.now (value_view value.now)) }
{
    let id = given_id(alloc, value)?;
    let reply = answer_said(alloc, decider, text, read_partial(value))?;
    put_id(alloc, id, reply)
}

fn answer_said<D: Decider>(
    alloc: Global,
    decider: &D,
    text: &str,
    said: Result<Partial<'_, '_>, Fault>,
) -> Result<Reply, AllocError>
    ensures { IfOk result
        (partials.IsLeft (D.leaves decider.now) text.now (told partials.partial_view said.entry)) }
{
    match said {
        Ok(asked) => answer(alloc, decider, text, &asked),
        Err(fault) => faulty(alloc, Status::BadRequest, fault),
    }
}

fn answer<D: Decider>(
    alloc: Global,
    decider: &D,
    text: &str,
    asked: &Partial<'_, '_>,
) -> Result<Reply, AllocError>
    ensures { IfOk result (partials.IsLeft (D.leaves decider.now) text.now (Ok (partials.partial_view asked.now))) }
{
    let remainder = decider.authorize_partially(alloc, asked, text)?;
    reply_of(alloc, &remainder)
}

fn reply_of(alloc: Global, remainder: &Remainder) -> Result<Reply, AllocError>
    ensures { IfOk result (partials.IsRemainder remainder.now) }
{
    match remainder {
        Remainder::Told { response } => plain(alloc, response.as_str()),
        Remainder::Refused { error } => refused(alloc, Status::BadRequest, error.as_str()),
        Remainder::TooLarge { error } => refused(alloc, Status::TooLarge, error.as_str()),
    }
}
