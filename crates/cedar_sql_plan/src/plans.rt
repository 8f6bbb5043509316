//! A plan as two SQL expressions.
ghost use Rattle.std.specs.Prelude.{◌≡◌, IfOk};
ghost use Rattle.cedar_model.specs.Policies.{forbid};
ghost use Rattle.cedar_decisions.specs.Decisions.{mode_view};
ghost use Rattle.cedar_plan.specs.Told.{errs_count};
ghost use Rattle.cedar_sql.specs.Terms.{sql_term};
ghost use Rattle.cedar_sql_plan.specs.Meaning.{IsTruthOn, permitted, permitted_row, but_not, IsAllowedTerm};
ghost use Rattle.cedar_sql_plan.specs.Meaning.{IsCandidateTerm, ShowsAllowed, LeavesOutDenied};

use crate::effects::count_term;
use crate::terms::{both, negated};
use crate::types::of_type;
use cedar_decisions::ErrorHandling;
use cedar_fallible::pair_of;
use cedar_plan::Plan;
use cedar_sql::{Columns, SqlTerm};
use std::alloc::{AllocError, Global};

/// A plan as SQL expressions on the rows of a table, each 1 or 0 on every row that is an entity's.
#[derive(Drop)]
pub struct PlanTerms {
    /// 1 on the rows of the plan's type at which the policies that SQL can say decide Allow, whatever the others do; 0
    /// on each other row.
    pub allowed: SqlTerm,
    /// 0 on the rows of the plan's type at which they decide Deny, whatever the others do, and on each row of another
    /// type; 1 on each other row.
    pub candidates: SqlTerm,
}

/// The plan as two SQL expressions on the rows of a table with these columns. A policy that is no filter, or of whose
/// filter some part is none in SQL (`sql_of_filter` of `cedar_sql` refuses it), may do either: a permit of this kind shows
/// no row as `allowed`, and a forbid of this kind leaves none, so that `allowed` is 0 on each row then. On a row where the
/// two differ, ask the plan (`allows`), or for that row alone.
///
/// The plan's type is that of its unknown (`row`), and each type where that has none. Where the table holds several types,
/// both expressions test the row's; where it holds one other, both are 0. No SQL reads a type with a NUL, which no text of
/// a policy names. Refuses only if out of memory.
pub fn sql_of_plan(alloc: Global, plan: &Plan, columns: &Columns) -> Result<PlanTerms, AllocError>
    ensures allowed { IfOk result (λ t. IsAllowedTerm plan.now columns.now (sql_term t.allowed)) }
    ensures candidates { IfOk result (λ t. IsCandidateTerm plan.now columns.now (sql_term t.candidates)) }
    ensures shown { IfOk result (λ t. ShowsAllowed plan.now columns.now (sql_term t.allowed)) }
    ensures left_out { IfOk result (λ t. LeavesOutDenied plan.now columns.now (sql_term t.candidates)) }
{
    let allowed = allowed_term(alloc, plan, columns);
    let candidates = candidates_term(alloc, plan, columns);
    let (allowed, candidates) = pair_of(allowed, candidates)?;
    Ok(PlanTerms {
        allowed,
        candidates,
    })
}

fn allowed_term(alloc: Global, plan: &Plan, columns: &Columns) -> Result<SqlTerm, AllocError>
    ensures allowed { IfOk result (λ t. IsAllowedTerm plan.now columns.now (sql_term t)) }
    ensures shown { IfOk result (λ t. ShowsAllowed plan.now columns.now (sql_term t)) }
{
    permitted_row(alloc, plan, columns, false)
}

fn candidates_term(alloc: Global, plan: &Plan, columns: &Columns) -> Result<SqlTerm, AllocError>
    ensures candidates { IfOk result (λ t. IsCandidateTerm plan.now columns.now (sql_term t)) }
    ensures left_out { IfOk result (λ t. LeavesOutDenied plan.now columns.now (sql_term t)) }
{
    permitted_row(alloc, plan, columns, true)
}

// Whether the row can stand for the unknown, and is permitted.
fn permitted_row(
    alloc: Global,
    plan: &Plan,
    columns: &Columns,
    may_be: bool,
) -> Result<SqlTerm, AllocError>
    ensures { IfOk result (λ t. IsTruthOn columns.now (permitted_row columns.now plan.now may_be) (sql_term t)) }
{
    let term = permitted(alloc, plan, columns, may_be)?;
    of_type(
        alloc,
        &plan.row().type_annotation,
        &columns.entity_type,
        term,
    )
}

// Whether a permit counts and no forbid does: of those that are open no permit and each forbid or, of candidates, each
// permit and no forbid.
fn permitted(
    alloc: Global,
    plan: &Plan,
    columns: &Columns,
    may_be: bool,
) -> Result<SqlTerm, AllocError>
    ensures { IfOk result (λ t. IsTruthOn columns.now (permitted columns.now plan.now may_be) (sql_term t)) }
{
    let permits = count_term(alloc, plan.permits(), columns, false, may_be);
    let errs_count = forbid_errs_count(plan.error_handling());
    let forbids = count_term(alloc, plan.forbids(), columns, errs_count, !may_be);
    let (permits, forbids) = pair_of(permits, forbids)?;
    unless(alloc, permits, forbids)
}

// The first, and not the second.
fn unless(alloc: Global, first: SqlTerm, second: SqlTerm) -> Result<SqlTerm, AllocError>
    ensures { IfOk result (λ t. sql_term t ≡ but_not (sql_term first) (sql_term second)) }
{
    let (first, second) = pair_of(Ok(first), negated(alloc, second))?;
    both(alloc, first, second)
}

// Whether a forbid that errs counts as satisfied.
fn forbid_errs_count(mode: ErrorHandling) -> bool
    ensures { result ≡ errs_count (mode_view mode) forbid }
{
    match mode {
        ErrorHandling::Skip => false,
        ErrorHandling::ForbidOnError => true,
    }
}
