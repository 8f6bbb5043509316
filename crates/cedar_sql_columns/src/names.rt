#![tactic(auto, using(crate::proofs::Refused::refusals))]
//! Names of tables and of columns.
ghost use Rattle.std.specs.Prelude.{◌≡◌, Ok, IfOk, IfErr};
ghost use Rattle.json.specs.Value.{value_view};
ghost use Rattle.cedar_sql_columns.specs.Paths.{at_key};
ghost use Rattle.cedar_sql_columns.specs.Refusals.{IsRefusal, and_then, under};
ghost use Rattle.cedar_sql_columns.specs.Said as says;
ghost use Rattle.cedar_sql_columns.specs.Shapes.{text_said};

use crate::errors::{ColumnsError, RefusalReason};
use crate::shapes::text;
use json::Value;
use std::alloc::Global;

/// The name that stands at this key.
pub(crate) fn name_at<'a>(
    alloc: Global,
    key: &str,
    value: &Value<'a>,
) -> Result<&'a str, ColumnsError>
    ensures said { IfOk result (λ t. says.name_under key.now (value_view value.now) ≡ Ok t.now) }
    ensures refused { IfErr result (IsRefusal (says.name_under key.now (value_view value.now))) }
{
    match read_name(alloc, value) {
        Ok(name) => Ok(name),
        Err(error) => Err(error.under_key(alloc, key)),
    }
}

fn read_name<'a>(alloc: Global, value: &Value<'a>) -> Result<&'a str, ColumnsError>
    ensures said { IfOk result
        (λ t. and_then says.name_said (text_said (value_view value.now)) ≡ Ok t.now) }
    ensures refused { IfErr result (IsRefusal (and_then says.name_said (text_said (value_view value.now)))) }
{
    match text(alloc, value) {
        Ok(name) => checked_name(alloc, name),
        Err(error) => Err(error),
    }
}

/// The text, where it can be a name: one that is not empty, and has neither a NUL nor a `.`.
pub(crate) fn checked_name(alloc: Global, name: &str) -> Result<&str, ColumnsError>
    ensures said { IfOk result (λ t. says.name_said name.now ≡ Ok t.now) }
    ensures refused { IfErr result (IsRefusal (says.name_said name.now)) }
{
    if is_empty(name) {
        Err(ColumnsError::refusal(alloc, RefusalReason::EmptyName))
    } else if has_byte(0, name) {
        Err(ColumnsError::refusal(alloc, RefusalReason::NulInName))
    } else if has_byte(b'.', name) {
        Err(ColumnsError::refusal(alloc, RefusalReason::PointInName))
    } else {
        Ok(name)
    }
}

fn is_empty(name: &str) -> bool
    ensures { result ≡ says.is_empty name.now }
{
    match name.as_bytes().first() {
        Some(_) => false,
        None => true,
    }
}

fn has_byte(byte: u8, name: &str) -> bool
    ensures { result ≡ says.has_byte byte name.now }
{
    name.as_bytes().contains(&byte)
}
