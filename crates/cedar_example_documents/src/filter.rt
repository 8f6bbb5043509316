//! The rows that a user may see: what is left of the policies before it is known which document is asked for, as a
//! plan, and the plan as conditions of SQL.
use crate::naive::naive_sql_of_plan;
use crate::names::{both, row};
use crate::stop::Stop;
use crate::table::rows_where;
use cedar_policy_core::authorizer::PartialResponse;
use cedar_policy_core::filters::Plan;
use cedar_sql::{Columns, TableNames, term_to_sql};
use cedar_sql_plan::sql_of_plan;
use sqlite::{Alter, Connection};
use std::alloc::{AllocError, Global};

/// Which documents each condition is true of, by their numbers.
#[derive(Drop)]
pub struct Found {
    /// Those that are allowed.
    pub allowed: Vec<bool>,
    /// Those that may be allowed.
    pub candidates: Vec<bool>,
    /// Those of the translation that first comes to mind.
    pub naive: Vec<bool>,
}

/// What the response tells of each document.
pub fn plan_of(alloc: Global, response: &PartialResponse) -> Result<Plan, Stop> {
    let row = row(alloc)?;
    let plan = Plan::of(alloc, response, &row)?;
    Ok(plan)
}

/// The plan as two conditions on a table with these columns: the first is true of the rows that are allowed, whatever
/// the policies do that SQL can't say, and the second false of the rows that are denied, whatever they do.
pub fn conditions_of(
    alloc: Global,
    plan: &Plan,
    columns: &Columns,
    names: &TableNames,
) -> Result<(String, String), AllocError> {
    let terms = sql_of_plan(alloc, plan, columns)?;
    both(
        term_to_sql(alloc, &terms.allowed, names),
        term_to_sql(alloc, &terms.candidates, names),
    )
}

/// The translation that first comes to mind, in place of the first of them.
pub fn naive_condition_of(
    alloc: Global,
    plan: &Plan,
    columns: &Columns,
    names: &TableNames,
) -> Result<String, AllocError> {
    let term = naive_sql_of_plan(alloc, plan, columns)?;
    term_to_sql(alloc, &term, names)
}

/// The documents of which these conditions are true, where the greatest number of a document is `count`.
pub fn find<S: Alter>(
    alloc: Global,
    conn: &mut Connection<S>,
    conditions: &(String, String),
    naive: &str,
    count: usize,
) -> Result<Found, Stop> {
    let allowed = rows_where(alloc, conn, conditions.0.as_str(), count)?;
    let candidates = rows_where(alloc, conn, conditions.1.as_str(), count)?;
    let naive = rows_where(alloc, conn, naive, count)?;
    Ok(Found {
        allowed,
        candidates,
        naive,
    })
}
