//! JSON documents, and texts of their parts.
ghost use Rattle.std.specs.Prelude.{◌≡◌, ◌∷◌, [], ◌++◌, IfOk, IfErr, OnOk, string_bytes};
ghost use Rattle.json.specs.Value.{value_view, members_view};
ghost use Rattle.cedar_json_reader.specs.JsonTexts.{IsUnread};
ghost use Rattle.cedar_service.specs.Documents.{IsReadAs, IsWritable, IsTextFor, without, without_beside, with_asked, is_beside};

use cedar_fallible::add_last;
use cedar_json_reader::JsonError;
use json::{Error, Scratch, Value, to_vec};
use std::alloc::{AllocError, Global};

/// The JSON value that the text is, in which no object has a key twice.
pub(crate) fn parse_json<'a>(
    alloc: Global,
    text: &'a str,
    scratch: &'a mut Scratch,
) -> Result<Value<'a>, JsonError>
    ensures read { IfOk result (λ v. IsReadAs text.now (value_view v)) }
    ensures unread { IfErr result (IsUnread text.now) }
{
    match Value::parse_strict(alloc, text, scratch) {
        Ok(value) => Ok(value),
        Err(Error::Invalid) => Err(JsonError::Syntax),
        Err(Error::TooLong) => Err(JsonError::Syntax),
        Err(Error::DuplicateKey) => Err(JsonError::DuplicateKey),
        Err(Error::OutOfMemory) => Err(JsonError::Memory(AllocError)),
    }
}

/// A text that is this JSON.
pub(crate) fn text_of(alloc: Global, value: &Value<'_>) -> Result<String, AllocError>
    requires { IsWritable (value_view value.now) }
    ensures { IfOk result (λ s. IsTextFor (value_view value.now) (string_bytes s)) }
{
    let bytes = to_vec(alloc, value)?;
    match String::from_utf8(bytes) {
        Ok(text) => Ok(text),
        Err(_) => unreachable!(),
    }
}

/// A text that is this JSON but for its members `entities` and `id`.
pub(crate) fn rest_text(alloc: Global, value: Value<'_>) -> Result<String, AllocError>
    requires { IsWritable (value_view value) }
    ensures { IfOk result (λ s. IsTextFor (without_beside (value_view value.entry)) (string_bytes s)) }
{
    let rest = rest_of(alloc, value)?;
    let text = text_of(alloc, &rest);
    drop(rest);
    text
}

fn rest_of<'a>(alloc: Global, value: Value<'a>) -> Result<Value<'a>, AllocError>
    ensures { IfOk result (λ v. value_view v ≡ without_beside (value_view value.entry)) }
{
    match value {
        Value::Object(members) => Ok(Value::Object(members_asked(alloc, members)?)),
        Value::Null => Ok(Value::Null),
        Value::Bool(flag) => Ok(Value::Bool(flag)),
        Value::Number(number) => Ok(Value::Number(number)),
        Value::String(text) => Ok(Value::String(text)),
        Value::Array(items) => Ok(Value::Array(items)),
    }
}

// The members but for `entities` and `id`.
fn members_asked<'a>(
    alloc: Global,
    members: Vec<(&'a str, Value<'a>)>,
) -> Result<Vec<(&'a str, Value<'a>)>, AllocError>
    ensures { IfOk result (λ ms.
        members_view ms.items ≡ without (members_view members.entry.items)) }
{
    let mut rest: Vec<(&'a str, Value<'a>)> = Vec::new(alloc);
    'members: for member in members {
        put_asked(member, &mut rest)?;
    }
    Ok(rest)
}

// Puts the member behind those that are there, unless it is `entities` or `id`.
fn put_asked<'a>(
    member: (&'a str, Value<'a>),
    rest: &mut Vec<(&'a str, Value<'a>)>,
) -> Result<(), AllocError>
    ensures { OnOk result (rest.new.items ≡ with_asked rest.old.items member.entry) }
{
    if is_beside(member.0) {
        drop(member);
        Ok(())
    } else {
        add_last(rest, member)
    }
}

fn is_beside(key: &str) -> bool
    ensures { result ≡ is_beside key.now }
{
    key == "entities" || key == "id"
}
