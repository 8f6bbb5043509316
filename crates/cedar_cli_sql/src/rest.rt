//! What is told of policies that SQL does not say.
use cedar_cli::{push_visible_name, push_warning, with_id};
use cedar_policy_core::ast::{PolicyID, PolicySet};
use cedar_policy_core::filters::{Plan, RowCondition, RowPolicy};
use cedar_policy_core::writing::to_cedar;
use cedar_sql::unsaid_in;
use cedar_sql_columns::SqlTable;
use std::alloc::{AllocError, Global};

/// Tells of each policy of the plan that SQL does not say on the columns of this table, and why.
pub(crate) fn push_rest(
    alloc: Global,
    policies: &PolicySet,
    table: &SqlTable,
    plan: &Plan,
    warnings: &mut String,
) -> Result<(), AllocError> {
    push_unsaid(alloc, policies, table, plan.permits().residuals(), warnings)?;
    push_unsaid(alloc, policies, table, plan.forbids().residuals(), warnings)
}

fn push_unsaid(
    alloc: Global,
    policies: &PolicySet,
    table: &SqlTable,
    rows: &[RowPolicy],
    warnings: &mut String,
) -> Result<(), AllocError> {
    'rows: for row in rows {
        push_one(alloc, policies, table, row, warnings)?;
    }
    Ok(())
}

fn push_one(
    alloc: Global,
    policies: &PolicySet,
    table: &SqlTable,
    row: &RowPolicy,
    warnings: &mut String,
) -> Result<(), AllocError> {
    match &row.condition {
        RowCondition::Rest(part) => {
            let part = to_cedar(alloc, part)?;
            let why = format!(in alloc; "one row does not tell `{part}`")?;
            push_line(alloc, policies, &row.id, why.as_str(), warnings)
        }
        RowCondition::Filter(filter) => match unsaid_in(filter.condition(), &table.columns) {
            Some(_) => push_line(
                alloc,
                policies,
                &row.id,
                "the columns do not hold what it asks, or SQL has no expression for it",
                warnings,
            ),
            None => Ok(()),
        },
    }
}

fn push_line(
    alloc: Global,
    policies: &PolicySet,
    id: &PolicyID,
    why: &str,
    warnings: &mut String,
) -> Result<(), AllocError> {
    let mut line = String::new(alloc);
    line.push_str("the policy `")?;
    if let Some(policy) = with_id(policies, id) {
        push_visible_name(alloc, policy, &mut line)?;
    }
    line.push_str("` is left to the rest: ")?;
    line.push_str(why)?;
    push_warning(alloc, line.as_str(), warnings)
}
