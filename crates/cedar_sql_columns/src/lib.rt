//! The columns of a table whose rows stand for entities, read from JSON: which column holds which attribute, and what.
//!
//! ```json
//! {
//!   "table": "photo",
//!   "id": "id",
//!   "type": "Photo",
//!   "columns": {
//!     "size": {"attribute": ["size"], "holds": "Long"},
//!     "owner": {"attribute": ["owner"], "holds": {"entity": "User"}},
//!     "has_place": {"attribute": ["place"], "holds": "Record"},
//!     "city": {"attribute": ["place", "city"], "holds": "String"}
//!   }
//! }
//! ```
//!
//! `table` is the name of the table in the query, or its alias: each column is written with it, so that one which the table
//! lacks is an error of the database. `id` names the column of the entity's id. `type` is the type of all entities in the table, or `{"column": NAME}` names
//! the column that holds the type of each. `columns` has a member for each column that holds an attribute of the entity, or
//! of a record in it: the names from the entity to the attribute, and what the column holds, as `ColumnType` of `cedar_sql`
//! says it. Each object has these members and no others, and no key stands twice. No name is empty, nor has it a NUL or a
//! `.`: a table's stands alone, without that of its database.
//!
//! Files: `texts` has the call on JSON texts; `tables`, `columns` what is said; `names`, `shapes` the names and the members of
//! objects; `paths`, `errors` of refusals.
//!
//! The promise: the call answers exactly what the JSON says (`said`, over `table_said` in `specs/Said.antt`), or the refusal
//! that is due first with the way to that part (`refused`).
#![tactic(auto)]

mod columns;
mod errors;
mod names;
mod paths;
mod shapes;
mod tables;
mod texts;

pub use errors::{ColumnsError, RefusalReason};
pub use paths::{JsonPath, PathStep};
pub use tables::SqlTable;
pub use texts::sql_table_from_json_str;
