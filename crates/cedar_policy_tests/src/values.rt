#![tactic(auto, using(cedar_json_reader::proofs::Views::views))]
//! JSON values of tests.
ghost use Rattle.std.specs.Prelude.{◌≡◌, Some, IfOk, IfErr, option_map};
ghost use Rattle.json.specs.Find.{as_array};
ghost use Rattle.json.specs.Json.{document};
ghost use Rattle.json.specs.Strict.{HasUniqueKeys};
ghost use Rattle.json.specs.Tree.{HasNumbers};
ghost use Rattle.json.specs.Value.{value_view, items_view};
ghost use Rattle.cedar_policy_tests.specs.Texts.{IsUnread};

use json::{Error, Scratch, Value};
use std::alloc::{AllocError, Global};

/// Why a text is no JSON.
#[derive(Clone, Copy, Debug, Drop)]
pub enum TestsError {
    /// The text is no JSON, or nests deeper than 128 levels.
    Syntax,
    /// The text is JSON, and an object of it has a key twice.
    DuplicateKey,
    /// Out of memory.
    Memory,
}

/// The JSON value that the text is, in which no object has a key twice.
pub fn parse_tests<'a>(
    alloc: Global,
    text: &'a str,
    scratch: &'a mut Scratch,
) -> Result<Value<'a>, TestsError>
    ensures said { IfOk result (λ v. document text.now ≡ Some (value_view v)) }
    ensures unique { IfOk result (λ v. HasUniqueKeys (value_view v)) }
    ensures writable { IfOk result (λ v. HasNumbers (value_view v)) }
    ensures unread { IfErr result (IsUnread text.now) }
{
    match Value::parse_strict(alloc, text, scratch) {
        Ok(value) => Ok(value),
        Err(Error::Invalid) => Err(TestsError::Syntax),
        Err(Error::TooLong) => Err(TestsError::Syntax),
        Err(Error::DuplicateKey) => Err(TestsError::DuplicateKey),
        Err(Error::OutOfMemory) => Err(TestsError::Memory),
    }
}

/// The items, where the value is an array.
pub(crate) fn items_in<'v, 'a>(value: &'v Value<'a>) -> Option<&'v Vec<Value<'a>>>
    ensures { option_map (λ js. items_view js.now.items) result ≡ as_array (value_view value.now) }
{
    match value {
        Value::Array(items) => Some(items),
        Value::Null => None,
        Value::Bool(_) => None,
        Value::Number(_) => None,
        Value::String(_) => None,
        Value::Object(_) => None,
    }
}
