#![tactic(auto, using(crate::proofs::Unread::unread))]
//! JSON documents.
ghost use Rattle.std.specs.Prelude.{IfOk, IfErr};
ghost use Rattle.json.specs.Tree.{HasNumbers};
ghost use Rattle.json.specs.Value.{value_view};
ghost use Rattle.cedar_endpoints.specs.Documents.{IsDocument, IsUnread};

use json::{Error, Scratch, Value};
use std::alloc::Global;

/// Why a text was not read.
#[derive(Clone, Copy)]
pub(crate) enum Unread {
    /// It is no JSON, or nests deeper than 128 levels.
    Syntax,
    /// An object in it has a key twice.
    DuplicateKey,
    /// Out of memory.
    Memory,
}

/// The JSON value that the text is, in which no object has a key twice.
pub(crate) fn parse_json<'a>(
    alloc: Global,
    text: &'a str,
    scratch: &'a mut Scratch,
) -> Result<Value<'a>, Unread>
    ensures read { IfOk result (λ v. IsDocument text.now (value_view v)) }
    ensures numbers { IfOk result (λ v. HasNumbers (value_view v)) }
    ensures unread { IfErr result (IsUnread text.now) }
{
    match Value::parse_strict(alloc, text, scratch) {
        Ok(value) => Ok(value),
        Err(Error::Invalid) => Err(Unread::Syntax),
        Err(Error::TooLong) => Err(Unread::Syntax),
        Err(Error::DuplicateKey) => Err(Unread::DuplicateKey),
        Err(Error::OutOfMemory) => Err(Unread::Memory),
    }
}
