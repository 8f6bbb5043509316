#![tactic(auto, using(crate::proofs::TextLemmas::text_lemmas))]
//! JSON texts.
ghost use Rattle.std.specs.Prelude.{◌≡◌, ◌≢◌, Some, None, Ok, Err, IfOk, IfErr};
ghost use Rattle.json.specs.Json.{document};
ghost use Rattle.json.specs.Strict.{HasUniqueKeys};
ghost use Rattle.json.specs.Value.{value_view};
ghost use Rattle.cedar_expressions.specs.View.{view};
ghost use Rattle.cedar_functions.specs.Functions.{knowledge};
ghost use Rattle.cedar_policy_json_reader.specs.Expressions.{expression_said};
ghost use Rattle.cedar_policy_json_reader.specs.Refusals.{IsRefusal};
ghost use Rattle.cedar_policy_json_reader.specs.Repeats.{keys_said};
ghost use Rattle.cedar_policy_json_reader.specs.JsonTexts.{document_within, depth_for, IsUnread, IsUnreadWithin, Says, IsTextRefusal};

use crate::errors::PolicyJsonError;
use crate::expressions::expression_from_json;
use crate::unique::check_keys;
use cedar_expressions::Expr;
use cedar_functions::Functions;
use json::{Error, Reader, Scratch, Value};
use std::alloc::{AllocError, Global};

/// The most levels of an expression that are read of JSON.
pub const MOST_LEVELS: usize = 1000;

/// The expression that the text says, as `expression_from_json` reads it. `Syntax` where the text is no JSON or nests
/// deeper than `json_depth` of the limit, `Refused` where an object of it has a key twice, with the way to the first such key,
/// and as `expression_from_json` answers.
pub fn expression_from_json_str(
    alloc: Global,
    text: &str,
    functions: &Functions,
    limit: usize,
) -> Result<Expr, PolicyJsonError>
    ensures said { IfOk result
        (λ e. Says (depth_for limit) text.now (expression_said (knowledge functions.now) limit) (view e)) }
    ensures refused { IfErr result
        (IsTextRefusal (depth_for limit) text.now (expression_said (knowledge functions.now) limit)) }
{
    let mut scratch = Scratch::new(alloc);
    match parse_deep_json(alloc, text, &mut scratch, json_depth(limit)) {
        Ok(value) => expression_from_json(alloc, &value, functions, limit),
        Err(error) => Err(error),
    }
}

/// How deep the JSON may nest of which expressions of at most so many levels are read: a level of an expression takes
/// two, and eight are round it. It is that of 1,000 levels at most, which the machine's stack holds.
pub fn json_depth(limit: usize) -> usize
    ensures { result ≡ depth_for limit }
{
    2 * limit.min(MOST_LEVELS) + 8
}

/// The JSON value that the text is. `Syntax` where it is no JSON or nests deeper than 128 levels, `DuplicateKey` where an
/// object of it has a key twice, `Memory` if out of memory.
pub fn parse_json<'a>(
    alloc: Global,
    text: &'a str,
    scratch: &'a mut Scratch,
) -> Result<Value<'a>, PolicyJsonError>
    ensures said { IfOk result (λ v. document text.now ≡ Some (value_view v)) }
    ensures unique { IfOk result (λ v. HasUniqueKeys (value_view v)) }
    ensures unread { IfErr result (IsUnread text.now) }
{
    match Value::parse_strict(alloc, text, scratch) {
        Ok(value) => Ok(value),
        Err(Error::Invalid) => Err(PolicyJsonError::Syntax),
        Err(Error::TooLong) => Err(PolicyJsonError::Syntax),
        Err(Error::DuplicateKey) => Err(PolicyJsonError::DuplicateKey),
        Err(Error::OutOfMemory) => Err(PolicyJsonError::Memory(AllocError)),
    }
}

/// The JSON value that the text is, whose arrays and objects nest at most so deep. `Syntax` where it is no JSON or nests
/// deeper, `Refused` where an object of it has a key twice, with the way to the first such key and `RepeatedKey`, `Memory`
/// if out of memory.
pub fn parse_deep_json<'a>(
    alloc: Global,
    text: &'a str,
    scratch: &'a mut Scratch,
    depth: usize,
) -> Result<Value<'a>, PolicyJsonError>
    ensures said { IfOk result (λ v. document_within depth text.now ≡ Some (value_view v)) }
    ensures unique { IfOk result (λ v. HasUniqueKeys (value_view v)) }
    ensures unrefused { IfOk result (λ v. keys_said (value_view v) ≡ Ok tt) }
    ensures unread { IfErr result (IsUnreadWithin depth text.now) }
{
    match read_whole(alloc, text, scratch, depth) {
        Ok(value) => with_unique_keys(alloc, value),
        Err(Error::Invalid) => Err(PolicyJsonError::Syntax),
        Err(Error::TooLong) => Err(PolicyJsonError::Syntax),
        Err(Error::DuplicateKey) => Err(PolicyJsonError::Syntax),
        Err(Error::OutOfMemory) => Err(PolicyJsonError::Memory(AllocError)),
    }
}

// The value of the whole text.
fn read_whole<'a>(
    alloc: Global,
    text: &'a str,
    scratch: &'a mut Scratch,
    depth: usize,
) -> Result<Value<'a>, Error>
    ensures said { IfOk result (λ v. document_within depth text.now ≡ Some (value_view v)) }
    ensures invalid { result ≡ Err Error.Invalid → document_within depth text.now ≡ None }
    ensures never_too_long { result ≢ Err Error.TooLong }
    ensures never_duplicate { result ≢ Err Error.DuplicateKey }
{
    let mut reader = Reader::new(text, scratch)?;
    let value = Value::read(alloc, &mut reader, depth)?;
    if reader.next().is_some() {
        return Err(Error::Invalid);
    }
    Ok(value)
}

// The value, if no object of it has a key twice.
fn with_unique_keys<'a>(alloc: Global, value: Value<'a>) -> Result<Value<'a>, PolicyJsonError>
    ensures same { IfOk result (λ v. value_view v ≡ value_view value.entry) }
    ensures unique { IfOk result (λ v. HasUniqueKeys (value_view v)) }
    ensures unrefused { IfOk result (λ v. keys_said (value_view v) ≡ Ok tt) }
    ensures refused { IfErr result (IsRefusal (keys_said (value_view value.entry))) }
{
    let mut keys: Vec<&'a str> = Vec::new(alloc);
    match check_keys(alloc, &value, &mut keys) {
        Ok(()) => Ok(value),
        Err(error) => Err(error),
    }
}
