#![tactic(auto, using(crate::proofs::Numbers::numbers))]
//! What a line of a log asks.
ghost use Rattle.std.specs.Prelude.{◌≡◌, None, Some, IfOk, IfErr, option_map, string_bytes};
ghost use Rattle.json.specs.Json.{document};
ghost use Rattle.json.specs.Find.{get};
ghost use Rattle.json.specs.Tree.{HasNumbers};
ghost use Rattle.json.specs.Value.{value_view};
ghost use Rattle.cedar_log.specs.Lines.{json_text, HaveNumbers};
ghost use Rattle.cedar_log.specs.Reading.{answered, logged_request, IsAsked, IsUnread};

use crate::parts::within;
use crate::texts::value_text;
use json::{Error, Scratch, Value};
use std::alloc::{AllocError, Global};

// Why a text was not read.
#[derive(Clone, Copy)]
pub(crate) enum Unread {
    // It is no JSON, or nests deeper than 128 levels.
    Syntax,
    // Out of memory.
    Memory,
}

/// The request of which the line of a log has the answer, as text. None, where the line has no `request` beside an
/// `answer`: then it asks for itself. Refuses only if out of memory.
pub fn logged_request(alloc: Global, line: &str) -> Result<Option<String>, AllocError>
    ensures { IfOk result (λ o. IsAsked line.now (option_map string_bytes o)) }
{
    let mut scratch = Scratch::new(alloc);
    match parse_text(alloc, line, &mut scratch) {
        Ok(value) => request_of(alloc, &value),
        Err(Unread::Syntax) => Ok(None),
        Err(Unread::Memory) => Err(AllocError),
    }
}

/// The text as JSON. Refuses one that is none, or if out of memory.
pub(crate) fn parse_text<'a>(
    alloc: Global,
    text: &'a str,
    scratch: &'a mut Scratch,
) -> Result<Value<'a>, Unread>
    ensures read { IfOk result (λ v. document text.now ≡ Some (value_view v)) }
    ensures numbers { IfOk result (λ v. HasNumbers (value_view v)) }
    ensures unread { IfErr result (IsUnread text.now) }
{
    match Value::parse(alloc, text, scratch) {
        Ok(value) => Ok(value),
        Err(Error::Invalid) => Err(Unread::Syntax),
        Err(Error::TooLong) => Err(Unread::Syntax),
        Err(Error::DuplicateKey) => Err(Unread::Syntax),
        Err(Error::OutOfMemory) => Err(Unread::Memory),
    }
}

fn request_of(alloc: Global, value: &Value<'_>) -> Result<Option<String>, AllocError>
    requires { HasNumbers (value_view value.now) }
    ensures { IfOk result (λ o. option_map string_bytes o
        ≡ option_map json_text (logged_request (Some (value_view value.now)))) }
{
    if value.get("answer").is_some() {
        text_of(alloc, within(Some(value), "request"))
    } else {
        Ok(None)
    }
}

fn text_of(alloc: Global, value: Option<&Value<'_>>) -> Result<Option<String>, AllocError>
    requires { HaveNumbers (option_map (λ v. value_view v.now) value) }
    ensures { IfOk result (λ o. option_map string_bytes o
        ≡ option_map json_text (option_map (λ v. value_view v.now) value.entry)) }
{
    match value {
        Some(value) => {
            let text = value_text(alloc, value)?;
            Ok(Some(text))
        }
        None => Ok(None),
    }
}
