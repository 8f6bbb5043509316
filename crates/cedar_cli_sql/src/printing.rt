//! An expression as it is printed.
ghost use Rattle.std.specs.Prelude.{◌≡◌, IfOk, string_bytes};
ghost use Rattle.cedar_cli_sql.specs.Planned.{first_line, sql_line, IsTermOf, IsPrintedOf, IsOfAllowed, IsOfCandidates};

use cedar_cli::Printed;
use cedar_policy_core::filters::Plan;
use cedar_sql::{SqlTerm, term_to_sql};
use cedar_sql_columns::SqlTable;
use cedar_sql_plan::{PlanTerms, sql_of_plan};
use std::alloc::{AllocError, Global};

/// The expression of the rows that the plan allows or, of those that it may, on a line of its own, with these warnings.
pub(crate) fn print_plan(
    alloc: Global,
    table: &SqlTable,
    is_candidates: bool,
    plan: &Plan,
    warnings: String,
) -> Result<Printed, AllocError>
    ensures { IfOk result (IsPrintedOf table.now is_candidates plan.now) }
{
    let term = plan_term(alloc, table, is_candidates, plan)?;
    let printed = print_term(alloc, table, is_candidates, &term, warnings);
    drop(term);
    printed
}

fn plan_term(
    alloc: Global,
    table: &SqlTable,
    is_candidates: bool,
    plan: &Plan,
) -> Result<SqlTerm, AllocError>
    ensures { IfOk result (IsTermOf is_candidates plan.now table.now.columns) }
{
    if is_candidates {
        candidates_term(alloc, table, plan)
    } else {
        allowed_term(alloc, table, plan)
    }
}

fn allowed_term(alloc: Global, table: &SqlTable, plan: &Plan) -> Result<SqlTerm, AllocError>
    ensures { IfOk result (IsOfAllowed plan.now table.now.columns) }
{
    let terms = sql_of_plan(alloc, plan, &table.columns)?;
    let PlanTerms {
        allowed,
        candidates,
    } = terms;
    drop(candidates);
    Ok(allowed)
}

fn candidates_term(alloc: Global, table: &SqlTable, plan: &Plan) -> Result<SqlTerm, AllocError>
    ensures { IfOk result (IsOfCandidates plan.now table.now.columns) }
{
    let terms = sql_of_plan(alloc, plan, &table.columns)?;
    let PlanTerms {
        allowed,
        candidates,
    } = terms;
    drop(allowed);
    Ok(candidates)
}

fn print_term(
    alloc: Global,
    table: &SqlTable,
    is_candidates: bool,
    term: &SqlTerm,
    warnings: String,
) -> Result<Printed, AllocError>
    ensures output { IfOk result (λ p. string_bytes p.output ≡ sql_line table.now is_candidates term.now) }
    ensures status { IfOk result (λ p. p.status ≡ 0) }
{
    let first = first_line(is_candidates);
    let text = term_to_sql(alloc, term, &table.names)?;
    let output = format!(in alloc; "{first}{text}\n")?;
    Ok(Printed {
        output,
        warnings,
        status: 0,
    })
}

fn first_line(is_candidates: bool) -> &'static str
    ensures { result.now ≡ first_line is_candidates }
{
    if is_candidates {
        "-- candidates: rows that may be allowed\n"
    } else {
        ""
    }
}
