//! The columns of the table that is asked about.
ghost use Rattle.std.specs.Prelude.{IfOk, IfErr};
ghost use Rattle.cedar_cli.specs.Reasons.{IsToldFor};
ghost use Rattle.cedar_cli_sql.specs.Unplanned.{IsOfTable, IsTableUnread};
ghost use Rattle.cedar_sql_columns.specs.JsonTexts.{Says};
ghost use Rattle.cedar_sql_columns.specs.Said.{table_said};
ghost use Rattle.cedar_sql_columns.specs.Tables.{table_view};

use cedar_cli::{Refusal, Source, refuse_with_line, unread_json};
use cedar_policy_core::entities::json::JsonError;
use cedar_sql_columns::{ColumnsError, SqlTable, sql_table_from_json_str};
use std::alloc::Global;

/// The table that the text says. Refused as `sql_table_from_json_str` refuses it: `NAME: $.path: why`, or where it is no
/// JSON, the line and the column.
pub(crate) fn read_table(alloc: Global, source: Source<'_>) -> Result<SqlTable, Refusal>
    ensures said { IfOk result (λ t. Says source.entry.text.now table_said (table_view t)) }
    ensures refused { IfErr result (IsToldFor (IsTableUnread source.entry.text.now)) }
{
    match sql_table_from_json_str(alloc, source.text) {
        Ok(table) => Ok(table),
        Err(error) => Err(unread_table(alloc, source, error)),
    }
}

#[cold]
fn unread_table(alloc: Global, source: Source<'_>, error: ColumnsError) -> Refusal
    ensures { IsToldFor (IsOfTable error) result }
{
    match error {
        ColumnsError::Memory(_) => Refusal::Memory,
        ColumnsError::Syntax => unread_json(alloc, source, JsonError::Syntax),
        ColumnsError::DuplicateKey => unread_json(alloc, source, JsonError::DuplicateKey),
        ColumnsError::Refused { path, reason } => {
            let name = source.name;
            let line = format!(in alloc; "{name}: {path}: {reason}");
            drop(path);
            refuse_with_line(alloc, line)
        }
    }
}
