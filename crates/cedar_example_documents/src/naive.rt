//! The translation that first comes to mind: SQL's `AND` for `&&`, and `OR` for `||`. It is wrong where the first
//! part errs: `a && false` errs then, and counts for nothing, also under a `!`; of SQL's `AND` it is false.
use crate::names::both;
use cedar_policy_core::authorizer::ErrorHandling;
use cedar_policy_core::filters::{Condition, Plan, PlannedPolicies, RowCondition, RowPolicy};
use cedar_sql::{Columns, NoSql, SqlTerm, sql_of};
use std::alloc::{AllocError, Global};

/// The plan as an expression on the rows, each `&&` as `AND` and each `||` as `OR`; all else as `sql_of_plan` has it: a
/// condition that errs counts as false, and in `ForbidOnError` that of a forbid as true; of what SQL can't say, a
/// permit shows no row, and a forbid leaves none.
pub fn naive_sql_of_plan(
    alloc: Global,
    plan: &Plan,
    columns: &Columns,
) -> Result<SqlTerm, AllocError> {
    let errs_count = forbid_errs_count(plan.error_handling());
    let permits = some_of(alloc, plan.permits(), columns, false, false);
    let forbids = some_of(alloc, plan.forbids(), columns, errs_count, true);
    let (permits, forbids) = both(permits, forbids)?;
    unless(alloc, permits, forbids)
}

fn forbid_errs_count(mode: ErrorHandling) -> bool {
    match mode {
        ErrorHandling::Skip => false,
        ErrorHandling::ForbidOnError => true,
    }
}

// ---- policies

// Whether one of the policies counts.
fn some_of(
    alloc: Global,
    policies: &PlannedPolicies,
    columns: &Columns,
    errs_count: bool,
    open_counts: bool,
) -> Result<SqlTerm, AllocError> {
    let is_known = !policies.satisfied().is_empty();
    let mut chain = truth(is_known);
    for policy in policies.residuals() {
        let counted = counted(alloc, policy, columns, errs_count, open_counts);
        chain = with_policy(alloc, chain, counted)?;
    }
    Ok(chain)
}

fn with_policy(
    alloc: Global,
    chain: SqlTerm,
    counted: Result<SqlTerm, AllocError>,
) -> Result<SqlTerm, AllocError> {
    let (chain, counted) = both(Ok(chain), counted)?;
    either(alloc, chain, counted)
}

// Whether this policy counts.
fn counted(
    alloc: Global,
    policy: &RowPolicy,
    columns: &Columns,
    errs_count: bool,
    open_counts: bool,
) -> Result<SqlTerm, AllocError> {
    match &policy.condition {
        RowCondition::Filter(filter) => match said(alloc, filter.condition(), columns) {
            Ok(Some(term)) => truth_of(alloc, term, errs_count),
            Ok(None) => Ok(truth(open_counts)),
            Err(error) => Err(error),
        },
        RowCondition::Rest(_) => Ok(truth(open_counts)),
    }
}

// Whether a condition is true; or, if an error counts, not false.
fn truth_of(alloc: Global, term: SqlTerm, errs_count: bool) -> Result<SqlTerm, AllocError> {
    let held = Box::new(alloc, term)?;
    if errs_count {
        negated(alloc, SqlTerm::Is(held, false))
    } else {
        Ok(SqlTerm::Is(held, true))
    }
}

// ---- conditions

// The condition, if SQL can say it.
fn said(
    alloc: Global,
    condition: &Condition,
    columns: &Columns,
) -> Result<Option<SqlTerm>, AllocError> {
    match condition {
        Condition::And(left, right) => {
            let parts = both(said(alloc, left, columns), said(alloc, right, columns))?;
            joined(alloc, parts, true)
        }
        Condition::Or(left, right) => {
            let parts = both(said(alloc, left, columns), said(alloc, right, columns))?;
            joined(alloc, parts, false)
        }
        Condition::Not(part) => match said(alloc, part, columns) {
            Ok(Some(term)) => some(negated(alloc, term)),
            Ok(None) => Ok(None),
            Err(error) => Err(error),
        },
        Condition::If(test, yes, no) => {
            let branches = both(said(alloc, yes, columns), said(alloc, no, columns));
            let (test, (yes, no)) = both(said(alloc, test, columns), branches)?;
            chosen(alloc, test, yes, no)
        }
        Condition::Known(_) => leaf(alloc, condition, columns),
        Condition::Holds(_) => leaf(alloc, condition, columns),
        Condition::Compare(_, _, _) => leaf(alloc, condition, columns),
        Condition::In(_, _) => leaf(alloc, condition, columns),
        Condition::Has(_, _) => leaf(alloc, condition, columns),
        Condition::Like(_, _) => leaf(alloc, condition, columns),
        Condition::Is(_, _) => leaf(alloc, condition, columns),
        Condition::Contains(_, _) => leaf(alloc, condition, columns),
    }
}

fn leaf(
    alloc: Global,
    condition: &Condition,
    columns: &Columns,
) -> Result<Option<SqlTerm>, AllocError> {
    match sql_of(alloc, condition, columns) {
        Ok(term) => Ok(Some(term)),
        Err(NoSql::Part(_)) => Ok(None),
        Err(NoSql::Memory) => Err(AllocError),
    }
}

fn joined(
    alloc: Global,
    parts: (Option<SqlTerm>, Option<SqlTerm>),
    is_and: bool,
) -> Result<Option<SqlTerm>, AllocError> {
    let (left, right) = parts;
    match left.zip(right) {
        Some(pair) => some(connected(alloc, pair, is_and)),
        None => Ok(None),
    }
}

fn connected(alloc: Global, pair: (SqlTerm, SqlTerm), is_and: bool) -> Result<SqlTerm, AllocError> {
    let (left, right) = pair;
    if is_and {
        and(alloc, left, right)
    } else {
        either(alloc, left, right)
    }
}

fn chosen(
    alloc: Global,
    test: Option<SqlTerm>,
    yes: Option<SqlTerm>,
    no: Option<SqlTerm>,
) -> Result<Option<SqlTerm>, AllocError> {
    match test.zip(yes.zip(no)) {
        Some(parts) => some(choice(alloc, parts)),
        None => Ok(None),
    }
}

// ---- expressions of parts

fn truth(holds: bool) -> SqlTerm {
    SqlTerm::Number(if holds { 1 } else { 0 })
}

fn some(term: Result<SqlTerm, AllocError>) -> Result<Option<SqlTerm>, AllocError> {
    let term = term?;
    Ok(Some(term))
}

fn negated(alloc: Global, part: SqlTerm) -> Result<SqlTerm, AllocError> {
    Ok(SqlTerm::Not(Box::new(alloc, part)?))
}

fn and(alloc: Global, first: SqlTerm, second: SqlTerm) -> Result<SqlTerm, AllocError> {
    let first = Box::new(alloc, first)?;
    Ok(SqlTerm::And(first, Box::new(alloc, second)?))
}

fn either(alloc: Global, first: SqlTerm, second: SqlTerm) -> Result<SqlTerm, AllocError> {
    let first = Box::new(alloc, first)?;
    Ok(SqlTerm::Or(first, Box::new(alloc, second)?))
}

fn choice(alloc: Global, parts: (SqlTerm, (SqlTerm, SqlTerm))) -> Result<SqlTerm, AllocError> {
    let (test, branches) = parts;
    let (yes, no) = branches;
    let test = Box::new(alloc, test)?;
    let yes = Box::new(alloc, yes)?;
    Ok(SqlTerm::Choice(test, yes, Box::new(alloc, no)?))
}

fn unless(alloc: Global, first: SqlTerm, second: SqlTerm) -> Result<SqlTerm, AllocError> {
    let second = negated(alloc, second);
    let (first, second) = both(Ok(first), second)?;
    and(alloc, first, second)
}
