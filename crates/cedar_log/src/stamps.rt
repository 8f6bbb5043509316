//! The version and the id that a response names.
ghost use Rattle.std.specs.Prelude.{◌≡◌, Some, IfOk, option_map, string_bytes};
ghost use Rattle.http_server.specs.Response.{fields, fields_of};
ghost use Rattle.cedar_log.specs.Exchanges.{field_named, IsShown, IsStamp};

use crate::lines::stamp_text;
use http::{HeaderName, HeaderValue};
use http_server::Response;
use std::alloc::{AllocError, Global};

/// What each line names beside the decision: the version and the id that the response names. Refuses only if out of
/// memory.
pub(crate) fn stamp_of(alloc: Global, response: &Response) -> Result<String, AllocError>
    ensures { IfOk result (λ s. IsStamp response.now (string_bytes s)) }
{
    let version = shown(field_named(&response.headers, "cedar-version"));
    let id = shown(field_named(&response.headers, "x-request-id"));
    stamp_text(alloc, version, id)
}

// The value of the first field of this name.
fn field_named<'r>(
    headers: &'r Vec<(HeaderName, HeaderValue)>,
    name: &str,
) -> Option<&'r HeaderValue>
    ensures { option_map (λ v. v.now.bytes) result ≡ field_named name.now (fields headers.now.items) }
{
    'headers: for header in headers {
        if header.0.as_str() == name {
            return Some(&header.1);
        }
    }
    None
}

// The value as text, if it is one.
fn shown<'r>(value: Option<&'r HeaderValue>) -> Option<&'r str>
    ensures { IsShown (option_map (λ v. v.now.bytes) value.entry) (option_map (λ t. t.now) result) }
{
    match value {
        Some(value) => text_of(value),
        None => None,
    }
}

fn text_of<'r>(value: &'r HeaderValue) -> Option<&'r str>
    ensures { IsShown (Some value.now.bytes) (option_map (λ t. t.now) result) }
{
    match str::from_utf8(value.as_bytes()) {
        Ok(text) => Some(text),
        Err(_) => None,
    }
}
