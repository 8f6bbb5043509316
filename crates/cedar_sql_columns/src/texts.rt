#![tactic(auto, using(crate::proofs::TextLemmas::text_lemmas))]
//! JSON texts.
ghost use Rattle.std.specs.Prelude.{◌≡◌, Some, IfOk, IfErr};
ghost use Rattle.json.specs.Json.{document};
ghost use Rattle.json.specs.Strict.{HasUniqueKeys};
ghost use Rattle.json.specs.Value.{value_view};
ghost use Rattle.cedar_sql_columns.specs.JsonTexts.{IsUnread, Says, IsTextRefusal};
ghost use Rattle.cedar_sql_columns.specs.Said.{table_said};
ghost use Rattle.cedar_sql_columns.specs.Tables.{table_view};

use crate::errors::ColumnsError;
use crate::tables::{SqlTable, read_table};
use json::{Error, Scratch, Value};
use std::alloc::{AllocError, Global};

/// The table that the text says. `Syntax` where the text is no JSON or nests deeper than 128 levels, `DuplicateKey` where
/// an object of it has a key twice; else the first refusal, in the order of `table`, `id`, `type` and `columns`, and in a
/// column in the order of its name, `attribute` and `holds`; a member too many is refused before what the others hold.
pub fn sql_table_from_json_str(alloc: Global, text: &str) -> Result<SqlTable, ColumnsError>
    ensures said { IfOk result (λ t. Says text.now table_said (table_view t)) }
    ensures refused { IfErr result (IsTextRefusal text.now table_said) }
{
    let mut scratch = Scratch::new(alloc);
    match parse_json(alloc, text, &mut scratch) {
        Ok(value) => read_table(alloc, &value),
        Err(error) => Err(error),
    }
}

// The JSON value that the text is.
fn parse_json<'a>(
    alloc: Global,
    text: &'a str,
    scratch: &'a mut Scratch,
) -> Result<Value<'a>, ColumnsError>
    ensures said { IfOk result (λ v. document text.now ≡ Some (value_view v)) }
    ensures unique { IfOk result (λ v. HasUniqueKeys (value_view v)) }
    ensures unread { IfErr result (IsUnread text.now) }
{
    match Value::parse_strict(alloc, text, scratch) {
        Ok(value) => Ok(value),
        Err(Error::Invalid) => Err(ColumnsError::Syntax),
        Err(Error::TooLong) => Err(ColumnsError::Syntax),
        Err(Error::DuplicateKey) => Err(ColumnsError::DuplicateKey),
        Err(Error::OutOfMemory) => Err(ColumnsError::Memory(AllocError)),
    }
}
