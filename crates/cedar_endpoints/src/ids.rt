#![tactic(auto, using(crate::proofs::Views::views, crate::proofs::Identified::identified))]
//! The id that one of Cedar's own requests may have, which is handed back.
ghost use Rattle.std.specs.Prelude.{◌≡◌, IfOk, Some, option_map, option_copied, string_bytes};
ghost use Rattle.std.specs.Str.{IsUtf8};
ghost use Rattle.json.specs.Tree.{HasNumbers};
ghost use Rattle.json.specs.Value.{value_view};
ghost use Rattle.cedar_endpoints.specs.Ids.{HaveNumbers, given_id, id_text, json_text, inside, put_first, with_id};
ghost use Rattle.cedar_endpoints.specs.Ids.{IsIdIn, IsIdUnread};
ghost use Rattle.cedar_endpoints.specs.Replies.{Replies};

use crate::documents::{Unread, parse_json};
use crate::replies::Reply;
use json::{Scratch, Value, to_vec};
use std::alloc::{AllocError, Global};

/// The id of the request that the text is, as text; none, where it is no request, or one that has none. Refuses only if
/// out of memory.
pub(crate) fn id_in(alloc: Global, text: &str) -> Result<Option<String>, AllocError>
    ensures { IfOk result (λ o. IsIdIn text.now (option_map string_bytes o)) }
{
    let mut scratch = Scratch::new(alloc);
    match parse_json(alloc, text, &mut scratch) {
        Ok(value) => {
            let id = given_id(alloc, &value);
            drop(value);
            id
        }
        Err(unread) => no_id(unread),
    }
}

fn no_id(unread: Unread) -> Result<Option<String>, AllocError>
    ensures { IfOk result (λ o. IsIdUnread unread (option_map string_bytes o)) }
{
    match unread {
        Unread::Syntax => Ok(None),
        Unread::DuplicateKey => Ok(None),
        Unread::Memory => Err(AllocError),
    }
}

/// The id of the request, as text, if it has one. Refuses only if out of memory.
pub(crate) fn given_id(alloc: Global, value: &Value<'_>) -> Result<Option<String>, AllocError>
    requires { HasNumbers (value_view value.now) }
    ensures { IfOk result (λ o. option_map string_bytes o ≡ given_id (value_view value.now)) }
{
    id_text(alloc, value.get("id"))
}

fn id_text(alloc: Global, id: Option<&Value<'_>>) -> Result<Option<String>, AllocError>
    requires { HaveNumbers (option_map (λ v. value_view v.now) id) }
    ensures { IfOk result (λ o. option_map string_bytes o ≡ id_text (option_map (λ v. value_view v.now) id.entry)) }
{
    match id {
        Some(id) => Ok(Some(value_text(alloc, id)?)),
        None => Ok(None),
    }
}

fn value_text(alloc: Global, value: &Value<'_>) -> Result<String, AllocError>
    requires { HasNumbers (value_view value.now) }
    ensures { IfOk result (λ s. string_bytes s ≡ json_text (value_view value.now)) }
{
    let bytes = to_vec(alloc, value)?;
    Ok(string_of(bytes))
}

fn string_of(bytes: Vec<u8>) -> String
    requires { IsUtf8 bytes.items }
    ensures { string_bytes result ≡ bytes.items }
{
    unsafe { String::from_utf8_unchecked(bytes) }
}

// ---- in a reply

/// The reply with this id, which is JSON, first of all in its object; without one, as it is. Refuses only if out of
/// memory.
pub(crate) fn put_id(alloc: Global, id: Option<String>, reply: Reply) -> Result<Reply, AllocError>
    ensures { IfOk result (Replies reply.status (with_id (option_map string_bytes id) (string_bytes reply.body))) }
{
    match id {
        Some(id) => put_some(alloc, id.as_str(), reply),
        None => Ok(reply),
    }
}

fn put_some(alloc: Global, id: &str, reply: Reply) -> Result<Reply, AllocError>
    ensures { IfOk result (Replies reply.status (with_id (Some id.now) (string_bytes reply.body))) }
{
    let body = put_first(alloc, id, reply.body.as_str())?;
    Ok(Reply {
        status: reply.status,
        body,
    })
}

// The text of an object with this id first of all; one that is none stays.
fn put_first(alloc: Global, id: &str, text: &str) -> Result<String, AllocError>
    ensures { IfOk result (λ s. string_bytes s ≡ put_first id.now text.now (inside text.now)) }
{
    match inside(text) {
        Some(rest) => put_before(alloc, id, rest),
        None => String::from_str(alloc, text),
    }
}

fn put_before(alloc: Global, id: &str, rest: &str) -> Result<String, AllocError>
    ensures { IfOk result (λ s. string_bytes s ≡ put_first id.now rest.now (Some rest.now)) }
{
    let open = "{\"id\":";
    let between = ",";
    format!(in alloc; "{open}{id}{between}{rest}")
}

// What stands behind the opening of an object.
fn inside(text: &str) -> Option<&str>
    ensures { option_copied result ≡ inside text.now }
{
    text.strip_prefix("{")
}
