//! The policies of one effect as SQL.
ghost use Rattle.std.specs.Prelude.{◌≡◌, not, IfOk};
ghost use Rattle.cedar_plan.specs.Planned.{some_of};
ghost use Rattle.cedar_sql.specs.Terms.{sql_term};
ghost use Rattle.cedar_filter.specs.Filters.{filter_condition};
ghost use Rattle.cedar_sql.specs.Said.{unsaid};
ghost use Rattle.cedar_plan.specs.declared.conditions.RowCondition.TheVariants as conditions;
ghost use Rattle.cedar_sql_plan.specs.Said.{is_said, some_unsaid, some_open};
ghost use Rattle.cedar_sql_plan.specs.Meaning.{IsCount, IsCountOf, AddsCount, IsPart, counted, joined};
ghost use Rattle.cedar_sql_plan.specs.Meaning.{is_known};

use crate::terms::{either, is_truth, negated};
use cedar_fallible::pair_of;
use cedar_filter::Filter;
use cedar_plan::{PlannedPolicies, RowCondition, RowPolicy};
use cedar_sql::{Columns, NoSql, SqlTerm, sql_of_filter, unsaid_in};
use std::alloc::{AllocError, Global};

// ---- what is known, whatever the row is

#[tactic(auto, unfolding(cedar_plan::specs::Planned::some_of))]
fn is_some_of<T>(items: &[T]) -> bool
    ensures { result ≡ some_of items.now }
{
    match items.first() {
        Some(_) => true,
        None => false,
    }
}

// Whether of one of the policies there is no SQL.
fn is_open(policies: &PlannedPolicies, columns: &Columns) -> bool
    ensures { result ≡ some_open columns.now policies.now }
{
    has_unsaid(policies.residuals(), columns)
}

#[tactic(auto, unfolding(crate::specs::Said::some_unsaid))]
fn has_unsaid(policies: &[RowPolicy], columns: &Columns) -> bool
    ensures { result ≡ some_unsaid columns.now policies.now }
{
    'policies: for policy in policies {
        if is_unsaid(&policy.condition, columns) {
            return true;
        }
    }
    false
}

fn is_unsaid(condition: &RowCondition, columns: &Columns) -> bool
    ensures { result ≡ not (is_said columns.now condition.now) }
{
    match condition {
        RowCondition::Filter(filter) => unsaid_in(filter.condition(), columns).is_some(),
        RowCondition::Rest(_) => true,
    }
}

// ---- as expressions

// Whether one of the policies counts as satisfied, where an erring one counts so or not, and one of which there is no SQL
// does not; or, `with_open`, it does.
#[tactic(auto, using(crate::proofs::Counting::counting))]
pub(crate) fn count_term(
    alloc: Global,
    policies: &PlannedPolicies,
    columns: &Columns,
    errs_count: bool,
    with_open: bool,
) -> Result<SqlTerm, AllocError>
    ensures { IfOk result (λ t. IsCountOf columns.now errs_count with_open policies.now (sql_term t)) }
{
    if is_known(policies, columns, with_open) {
        Ok(SqlTerm::Number(1))
    } else {
        counts(alloc, policies.residuals(), columns, errs_count)
    }
}

// Whether one is satisfied, whatever the row is, or is open and counts so.
fn is_known(policies: &PlannedPolicies, columns: &Columns, with_open: bool) -> bool
    ensures { result ≡ is_known columns.now with_open policies.now }
{
    is_some_of(policies.satisfied()) || (with_open && is_open(policies, columns))
}

// Whether one of the policies counts as satisfied, of which there is SQL.
fn counts(
    alloc: Global,
    policies: &[RowPolicy],
    columns: &Columns,
    errs_count: bool,
) -> Result<SqlTerm, AllocError>
    ensures { IfOk result (λ t. IsCount columns.now errs_count policies.now (sql_term t)) }
{
    let mut chain = SqlTerm::Number(0);
    'policies: for policy in policies {
        chain = with_policy(alloc, chain, &policy.condition, columns, errs_count)?;
    }
    Ok(chain)
}

// The chain, with one policy more.
#[tactic(auto, using(crate::proofs::Adding::adds_rest))]
fn with_policy(
    alloc: Global,
    chain: SqlTerm,
    condition: &RowCondition,
    columns: &Columns,
    errs_count: bool,
) -> Result<SqlTerm, AllocError>
    ensures { IfOk result (λ t. AddsCount columns.now errs_count condition.now (sql_term chain) (sql_term t)) }
{
    match condition {
        RowCondition::Filter(filter) => with_filter(alloc, chain, filter, columns, errs_count),
        RowCondition::Rest(_) => Ok(chain),
    }
}

fn with_filter(
    alloc: Global,
    chain: SqlTerm,
    filter: &Filter,
    columns: &Columns,
    errs_count: bool,
) -> Result<SqlTerm, AllocError>
    ensures { IfOk result (λ t. AddsCount columns.now errs_count
        (conditions.Filter filter.now) (sql_term chain) (sql_term t)) }
{
    match sql_of_filter(alloc, filter, columns) {
        Ok(term) => joined(alloc, chain, term, errs_count),
        Err(refusal) => unchanged(chain, refusal),
    }
}

// The chain as it was, where there is no SQL.
fn unchanged(chain: SqlTerm, refusal: NoSql<'_>) -> Result<SqlTerm, AllocError>
    ensures same { IfOk result (λ t. t ≡ chain) }
    ensures part { IfOk result (λ t. IsPart refusal.entry) }
{
    match refusal {
        NoSql::Part(_) => Ok(chain),
        NoSql::Memory => {
            drop(chain);
            Err(AllocError)
        }
    }
}

// One more, where the condition's term is this one.
fn joined(
    alloc: Global,
    chain: SqlTerm,
    condition: SqlTerm,
    errs_count: bool,
) -> Result<SqlTerm, AllocError>
    ensures { IfOk result (λ t. sql_term t ≡ joined (sql_term chain) (counted errs_count (sql_term condition))) }
{
    let counted = counted(alloc, condition, errs_count);
    let (chain, counted) = pair_of(Ok(chain), counted)?;
    either(alloc, chain, counted)
}

// Whether a condition counts: where it is true; or, if an erring one counts, where it is not false.
fn counted(alloc: Global, condition: SqlTerm, errs_count: bool) -> Result<SqlTerm, AllocError>
    ensures { IfOk result (λ t. sql_term t ≡ counted errs_count (sql_term condition)) }
{
    if errs_count {
        let fails = is_truth(alloc, condition, false)?;
        negated(alloc, fails)
    } else {
        is_truth(alloc, condition, true)
    }
}
