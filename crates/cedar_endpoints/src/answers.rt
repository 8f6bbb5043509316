//! How an answer is sent.
ghost use Rattle.std.specs.Prelude.{◌≡◌, ◌++◌, ◌∷◌, [], OnOk, option_copied, codes};
ghost use Rattle.http_server.specs.Response.{IsBlank, fields_of};
ghost use Rattle.cedar_endpoints.specs.Answers.{status_code, allowed, id_fields, AddsVersion, IsSent};

use bytes::BufMut;
use http::header::{ALLOW, CONTENT_TYPE, HeaderValueError};
use http::{HeaderName, HeaderValue, StatusCode};
use http_server::Response;
use std::alloc::{AllocError, Global};

/// How a request is answered.
#[derive(Clone, Copy, Debug, PartialEq, Eq)]
pub enum Status {
    /// 200.
    Ok,
    /// 400: nothing is asked, for what the body has is wrong.
    BadRequest,
    /// 404: nothing is there.
    NotFound,
    /// 413: more is asked or brought than a request may.
    TooLarge,
    /// 405: there is `POST` alone.
    PostOnly,
    /// 405: there are `GET` and `HEAD` alone.
    GetOnly,
    /// 405: there is `PUT` alone.
    PutOnly,
}

// Puts the status, the body, which is JSON, the version and the request's id, where it has one, into a response that
// has nothing yet. Refuses only if out of memory.
pub(crate) fn send(
    alloc: Global,
    status: Status,
    version: &str,
    id: Option<&HeaderValue>,
    body: &str,
    response: &mut Response,
) -> Result<(), AllocError>
    requires { IsBlank response.old }
    ensures { OnOk result (IsSent status version.now (option_copied id.entry) body.now response.new) }
{
    response.status = code_of(status);
    response.add_header(CONTENT_TYPE, HeaderValue::from_static("application/json"))?;
    add_version(alloc, version, response)?;
    add_allowed(status, response)?;
    add_id(id, response)?;
    response.body.put_slice(body.as_bytes())
}

fn code_of(status: Status) -> StatusCode
    ensures { result ≡ status_code status }
{
    match status {
        Status::Ok => StatusCode::OK,
        Status::BadRequest => StatusCode::BAD_REQUEST,
        Status::NotFound => StatusCode::NOT_FOUND,
        Status::TooLarge => StatusCode::PAYLOAD_TOO_LARGE,
        Status::PostOnly => StatusCode::METHOD_NOT_ALLOWED,
        Status::GetOnly => StatusCode::METHOD_NOT_ALLOWED,
        Status::PutOnly => StatusCode::METHOD_NOT_ALLOWED,
    }
}

// The version, if a field can hold it.
fn add_version(alloc: Global, version: &str, response: &mut Response) -> Result<(), AllocError>
    ensures fields { OnOk result (AddsVersion version.now (fields_of response.old) (fields_of response.new)) }
    ensures status { response.new.status ≡ response.old.status }
    ensures body { response.new.body ≡ response.old.body }
{
    match HeaderValue::from_str(alloc, version) {
        Ok(value) => put_version(value, response),
        Err(error) => unnamed(error),
    }
}

// That a field can't hold it is no error.
fn unnamed(error: HeaderValueError) -> Result<(), AllocError>
    ensures { OnOk result (error ≡ HeaderValueError.Invalid) }
{
    match error {
        HeaderValueError::Invalid => Ok(()),
        HeaderValueError::OutOfMemory => Err(AllocError),
    }
}

fn put_version(version: HeaderValue, response: &mut Response) -> Result<(), AllocError>
    ensures fields { OnOk result
        (fields_of response.new ≡ fields_of response.old ++ (codes "cedar-version", version.bytes) ∷ []) }
    ensures status { response.new.status ≡ response.old.status }
    ensures body { response.new.body ≡ response.old.body }
{
    response.add_header(HeaderName::from_static("cedar-version"), version)
}

fn add_allowed(status: Status, response: &mut Response) -> Result<(), AllocError>
    ensures fields { OnOk result (fields_of response.new ≡ fields_of response.old ++ allowed status) }
    ensures status { response.new.status ≡ response.old.status }
    ensures body { response.new.body ≡ response.old.body }
{
    match status {
        Status::Ok => Ok(()),
        Status::BadRequest => Ok(()),
        Status::NotFound => Ok(()),
        Status::TooLarge => Ok(()),
        Status::PostOnly => response.add_header(ALLOW, HeaderValue::from_static("POST")),
        Status::GetOnly => add_shown(response),
        Status::PutOnly => response.add_header(ALLOW, HeaderValue::from_static("PUT")),
    }
}

fn add_shown(response: &mut Response) -> Result<(), AllocError>
    ensures fields { OnOk result
        (fields_of response.new ≡ fields_of response.old ++ (codes "allow", codes "GET, HEAD") ∷ []) }
    ensures status { response.new.status ≡ response.old.status }
    ensures body { response.new.body ≡ response.old.body }
{
    response.add_header(ALLOW, HeaderValue::from_static("GET, HEAD"))
}

fn add_id(id: Option<&HeaderValue>, response: &mut Response) -> Result<(), AllocError>
    ensures fields { OnOk result
        (fields_of response.new ≡ fields_of response.old ++ id_fields (option_copied id.entry)) }
    ensures status { response.new.status ≡ response.old.status }
    ensures body { response.new.body ≡ response.old.body }
{
    match id {
        Some(id) => add_copy(id, response),
        None => Ok(()),
    }
}

fn add_copy(id: &HeaderValue, response: &mut Response) -> Result<(), AllocError>
    ensures fields { OnOk result
        (fields_of response.new ≡ fields_of response.old ++ (codes "x-request-id", id.now.bytes) ∷ []) }
    ensures status { response.new.status ≡ response.old.status }
    ensures body { response.new.body ≡ response.old.body }
{
    let copy = id.clone()?;
    response.add_header(HeaderName::from_static("x-request-id"), copy)
}
