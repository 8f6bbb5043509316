//! Conditions on one row as SQL: what is left of policies, asked of a table whose rows stand for entities.
//!
//! - `columns`: which columns of a table hold what of an entity (`Columns`), and what they are called (`TableNames`).
//! - `terms`: SQL expressions on one row (`SqlTerm`). `texts`: how they are written (`term_to_sql`).
//! - `answers`: a condition, or a filter, as such an expression (`sql_of`, `sql_of_filter`), or the first part of it
//!   that is none (`NoSql`, `unsaid_in`). Below it: `sides`, how an operand is written; `leaves`, what operands are asked;
//!   `likes`, what they are asked by `like`, and `patterns`, which patterns are.
//! - `laws`: entities have rows; what columns hold.
//!
//! The promise: on each row that is an entity's (`Represents` in `specs/Columns.antt`), the expression is worth 1, 0
//! or NULL as the condition is true of the entity, false or errs (`meaning`, over `told_value` in
//! `specs/Meaning.antt`): the row side is what `cedar_filter` says an entity tells, and the SQL side is `eval` of the
//! kit's `sqlite_sql`. A refusal names the first part that is no expression (`refused`, over `unsaid` in
//! `specs/Said.antt`). The text of an expression is exact (`term_text` in `specs/Texts.antt`), each column with its table
//! (`column_text`): that a reader of SQL reads the expression of it is tested, not proved. Entities whose attributes the
//! columns can hold have rows (`entities_have_rows`).
#![tactic(auto)]

mod answers;
mod columns;
pub mod laws;
mod leaves;
mod likes;
mod patterns;
mod sides;
mod terms;
mod texts;

pub use answers::{NoSql, sql_of, sql_of_filter, unsaid_in};
pub use columns::{Column, ColumnType, Columns, RowType, TableNames};
pub use terms::SqlTerm;
pub use texts::term_to_sql;
