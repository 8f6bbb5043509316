//! What Cedar's command line answers where a whole table is asked about: the SQL expression of the rows that policies
//! allow, where each row is an entity that may stand for the resource or the principal.
//!
//! - `answers`: the call (`plan_as_sql`). Below it: `tables`, the columns of the table; `rows`, which unknown the rows stand
//!   for; `printing`, the expression as it is printed; `rest`, what is told of policies that SQL does not say.
//!
//! The promise, from the texts and the options on: what is printed is the text of an expression which `cedar_sql_plan`
//! promises of the plan of the partial response to the question that the texts say (`specs/Planned`, over `Stages` and
//! `Questions` of `cedar_cli`). So a row that it shows is of the type that is asked for and is allowed, whatever the policies
//! decide that SQL does not say; with candidates, a row of that type that it leaves out is denied. It is refused for the
//! reasons of `specs/Unplanned` alone. That a reader of SQL reads this expression of the text is tested, not proved
//! (`docs/PROVED.md`). What is reported on standard error is tested by `cedar_test_cli`.
#![tactic(auto)]

mod answers;
mod printing;
mod rest;
mod rows;
mod tables;

pub use answers::plan_as_sql;
