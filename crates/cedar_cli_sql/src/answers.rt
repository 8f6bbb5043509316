//! Which rows of a table the policies allow, as SQL.
ghost use Rattle.std.specs.Prelude.{◌≡◌, true, false, Some, IfOk, OnOk, IfErr};
ghost use Rattle.cedar_model.specs.Chains.{has_limit};
ghost use Rattle.cedar_functions.specs.Functions.{these, signatures_of};
ghost use Rattle.cedar_extensions.specs.Extensions.{extensions_view, calls_of};
ghost use Rattle.cedar_requests.specs.Requests.{request_view};
ghost use Rattle.cedar_authorizer.specs.Running.{errors_of, request_of};
ghost use Rattle.cedar_filter.specs.Filters.{row_term};
ghost use Rattle.cedar_cli.specs.Reasons.{IsToldFor, IsPartialUnread};
ghost use Rattle.cedar_cli_sql.specs.Planned.{IsPlanned, IsPlannedWith, IsPlannedBy, IsPlannedOver, IsPlannedOf};
ghost use Rattle.cedar_cli_sql.specs.Planned.{IsPlannedFor, IsFirstOf, IsPrintedOf};
ghost use Rattle.cedar_cli_sql.specs.Rows.{row_in};
ghost use Rattle.cedar_cli_sql.specs.Unplanned.{IsUnplanned, IsUnplannedWith, IsUnplannedBy, IsUnplannedOver};
ghost use Rattle.cedar_cli_sql.specs.Unplanned.{IsUnplannedOf};

use crate::printing::print_plan;
use crate::rest::push_rest;
use crate::rows::{fits, row_of};
use crate::tables::read_table;
use cedar_cli::{
    Asked, Printed, Refusal, Source, Store, Way, first_stage, given_store, levels_within,
    read_over, refuse_with_line, tell_errors, tell_templates,
};
use cedar_policy_core::ast::{PolicySet, Unknown};
use cedar_policy_core::authorizer::{Authorizer, PartialResponse};
use cedar_policy_core::extensions::Extensions;
use cedar_policy_core::filters::{NoPlan, Plan};
use cedar_policy_core::parser::ParsedPolicies;
use cedar_sql_columns::SqlTable;
use std::alloc::Global;

/// The policies that are planned, the text that they stand in, the table, in which way they are asked, and whether the
/// rows are candidates.
#[derive(Clone, Copy)]
struct Planning<'p> {
    source: Source<'p>,
    policies: &'p PolicySet,
    table: &'p SqlTable,
    way: Way,
    is_candidates: bool,
}

/// The SQL expression of the rows that the policies allow, where these are the functions, and each row of the table is an
/// entity that may stand for the resource, which is not known; or for the principal, where the resource is. On a row of the
/// table it is 1 where the row is of the type that is asked for and the policies that SQL can say decide Allow, whatever
/// the others do, each of which is reported as a warning; else it is 0. Of candidates it is 0 where the row is of another
/// type or they decide Deny, whatever the others do; and a comment above it says so. Refused where the entities are said to
/// be all that there are, since the rows are not among them; where the table, the policies or what is asked can't be read,
/// where neither resource nor principal is unknown, where the table is of one type whose entities can't stand for it, and
/// where a policy met the limit of levels.
pub fn plan_as_sql(
    alloc: Global,
    extensions: &Extensions<'_>,
    policies: Source<'_>,
    asked: &Asked<'_, '_>,
    columns: Source<'_>,
    way: Way,
    is_candidates: bool,
) -> Result<Printed, Refusal>
    ensures answered { IfOk result (IsPlanned (these (signatures_of extensions.now)) (extensions_view extensions.now)
        (calls_of extensions.now) policies.entry.text.now asked.now columns.entry.text.now way is_candidates) }
    ensures refused { IfErr result (IsToldFor (IsUnplanned (these (signatures_of extensions.now))
        (extensions_view extensions.now) (calls_of extensions.now) policies.entry.text.now asked.now
        columns.entry.text.now way)) }
{
    refuse_whole(alloc, asked)?;
    let table = read_table(alloc, columns)?;
    let printed = plan_with_table(
        alloc,
        extensions,
        policies,
        asked,
        &table,
        way,
        is_candidates,
    );
    drop(table);
    printed
}

// Refuses a store that is said to have all entities: it has no rows.
fn refuse_whole(alloc: Global, asked: &Asked<'_, '_>) -> Result<(), Refusal>
    ensures partial { OnOk result (asked.now.is_partial ≡ true) }
    ensures refused { IfErr result (IsToldFor (asked.now.is_partial ≡ false)) }
{
    if asked.is_partial {
        Ok(())
    } else {
        let line = String::from_str(
            alloc,
            "--sql: the rows of the table are not among the entities that are given, so add --partial",
        );
        Err(refuse_with_line(alloc, line))
    }
}

fn plan_with_table(
    alloc: Global,
    extensions: &Extensions<'_>,
    policies: Source<'_>,
    asked: &Asked<'_, '_>,
    table: &SqlTable,
    way: Way,
    is_candidates: bool,
) -> Result<Printed, Refusal>
    ensures answered { IfOk result (IsPlannedWith (these (signatures_of extensions.now))
        (extensions_view extensions.now) (calls_of extensions.now) policies.entry.text.now asked.now table.now way
        is_candidates) }
    ensures refused { IfErr result (IsToldFor (IsUnplannedWith (these (signatures_of extensions.now))
        (extensions_view extensions.now) (calls_of extensions.now) policies.entry.text.now asked.now table.now way)) }
{
    let parsed = read_over(alloc, policies, extensions)?;
    let planning = Planning {
        source: policies,
        policies: &parsed.policies,
        table,
        way,
        is_candidates,
    };
    let printed = plan_parsed(alloc, planning, &parsed, asked, extensions);
    drop(parsed);
    printed
}

fn plan_parsed(
    alloc: Global,
    planning: Planning<'_>,
    parsed: &ParsedPolicies,
    asked: &Asked<'_, '_>,
    extensions: &Extensions<'_>,
) -> Result<Printed, Refusal>
    ensures answered { IfOk result (IsPlannedBy (extensions_view extensions.now) (calls_of extensions.now)
        planning.entry.policies.now asked.now planning.entry.table.now planning.entry.way
        planning.entry.is_candidates) }
    ensures refused { IfErr result (IsToldFor (IsUnplannedBy (extensions_view extensions.now)
        (calls_of extensions.now) planning.entry.policies.now asked.now planning.entry.table.now planning.entry.way)) }
{
    let mut warnings = String::new(alloc);
    tell_templates(
        alloc,
        planning.source,
        parsed.templates.as_slice(),
        &mut warnings,
    )?;
    plan_over_given_store(alloc, planning, asked, extensions, warnings)
}

fn plan_over_given_store(
    alloc: Global,
    planning: Planning<'_>,
    asked: &Asked<'_, '_>,
    extensions: &Extensions<'_>,
    mut warnings: String,
) -> Result<Printed, Refusal>
    ensures answered { IfOk result (IsPlannedBy (extensions_view extensions.now) (calls_of extensions.now)
        planning.entry.policies.now asked.now planning.entry.table.now planning.entry.way
        planning.entry.is_candidates) }
    ensures refused { IfErr result (IsToldFor (IsUnplannedBy (extensions_view extensions.now)
        (calls_of extensions.now) planning.entry.policies.now asked.now planning.entry.table.now planning.entry.way)) }
{
    let store = given_store(alloc, asked, extensions, &mut warnings)?;
    let printed = plan_over_store(alloc, planning, &store, asked, extensions, warnings);
    drop(store);
    printed
}

fn plan_over_store(
    alloc: Global,
    planning: Planning<'_>,
    store: &Store,
    asked: &Asked<'_, '_>,
    extensions: &Extensions<'_>,
    warnings: String,
) -> Result<Printed, Refusal>
    ensures answered { IfOk result (IsPlannedOver (extensions_view extensions.now) (calls_of extensions.now)
        planning.entry.policies.now store.now.entities asked.now planning.entry.table.now planning.entry.way
        planning.entry.is_candidates) }
    ensures refused { IfErr result (IsToldFor (IsUnplannedOver (extensions_view extensions.now)
        (calls_of extensions.now) planning.entry.policies.now store.now.entities asked.now planning.entry.table.now
        planning.entry.way)) }
{
    let response = response_to(alloc, planning, store, asked, extensions)?;
    let printed = plan_response(alloc, planning, &response, warnings);
    drop(response);
    printed
}

fn response_to(
    alloc: Global,
    planning: Planning<'_>,
    store: &Store,
    asked: &Asked<'_, '_>,
    extensions: &Extensions<'_>,
) -> Result<PartialResponse, Refusal>
    ensures first { IfOk result (IsFirstOf (extensions_view extensions.now) (calls_of extensions.now)
        planning.entry.policies.now store.now.entities asked.now planning.entry.way) }
    ensures refused { IfErr result (IsToldFor
        (IsPartialUnread (extensions_view extensions.now) (calls_of extensions.now) asked.now)) }
{
    let way = planning.way;
    let authorizer = Authorizer::new(extensions, levels_within(way.limit)).with_error_handling(
        way.error_handling,
    );
    first_stage(
        alloc,
        &authorizer,
        planning.policies,
        store,
        asked,
        extensions,
    )
}

fn plan_response(
    alloc: Global,
    planning: Planning<'_>,
    response: &PartialResponse,
    warnings: String,
) -> Result<Printed, Refusal>
    ensures answered { IfOk result
        (IsPlannedOf planning.entry.table.now planning.entry.is_candidates response.now) }
    ensures refused { IfErr result (IsToldFor (IsUnplannedOf planning.entry.table.now response.now)) }
{
    match row_of(alloc, &response.request)? {
        Some(row) => {
            let printed = plan_row(alloc, planning, response, &row, warnings);
            drop(row);
            printed
        }
        None => Err(no_row(alloc)),
    }
}

#[cold]
fn no_row(alloc: Global) -> Refusal {
    let line = String::from_str(
        alloc,
        "--sql: rows stand for the resource or the principal, and both are known",
    );
    refuse_with_line(alloc, line)
}

fn plan_row(
    alloc: Global,
    planning: Planning<'_>,
    response: &PartialResponse,
    row: &Unknown,
    warnings: String,
) -> Result<Printed, Refusal>
    requires { row_in (request_view (request_of response.now)) ≡ Some (row_term row.now) }
    ensures answered { IfOk result
        (IsPlannedOf planning.entry.table.now planning.entry.is_candidates response.now) }
    ensures refused { IfErr result (IsToldFor (IsUnplannedOf planning.entry.table.now response.now)) }
{
    if fits(row, &planning.table.columns.entity_type) {
        plan_for(alloc, planning, response, row, warnings)
    } else {
        Err(no_fit(alloc))
    }
}

#[cold]
fn no_fit(alloc: Global) -> Refusal {
    let line = String::from_str(
        alloc,
        "--sql: the rows are of another type than the one that is asked",
    );
    refuse_with_line(alloc, line)
}

fn plan_for(
    alloc: Global,
    planning: Planning<'_>,
    response: &PartialResponse,
    row: &Unknown,
    mut warnings: String,
) -> Result<Printed, Refusal>
    ensures answered { IfOk result
        (IsPlannedFor planning.entry.table.now planning.entry.is_candidates response.now row.now) }
    ensures refused { IfErr result (IsToldFor (has_limit (errors_of response.now) ≡ true)) }
{
    let (source, way) = (planning.source, planning.way);
    tell_errors(
        alloc,
        source,
        planning.policies,
        way,
        &response.errors,
        &mut warnings,
    )?;
    match Plan::of(alloc, response, row) {
        Ok(plan) => {
            let printed = print_told(alloc, planning, &plan, warnings);
            drop(plan);
            printed
        }
        Err(NoPlan::RecursionLimit) => Err(at_limit(alloc)),
        Err(NoPlan::Memory) => Err(Refusal::Memory),
    }
}

#[cold]
fn at_limit(alloc: Global) -> Refusal {
    let line = String::from_str(
        alloc,
        "--sql: a policy met the limit of levels, so that nothing is known of it (--limit)",
    );
    refuse_with_line(alloc, line)
}

// The expression, beside what is told of the policies that it does not say.
fn print_told(
    alloc: Global,
    planning: Planning<'_>,
    plan: &Plan,
    mut warnings: String,
) -> Result<Printed, Refusal>
    ensures printed { IfOk result (IsPrintedOf planning.entry.table.now planning.entry.is_candidates plan.now) }
    ensures memory { IfErr result (IsToldFor ⊥) }
{
    push_rest(
        alloc,
        planning.policies,
        planning.table,
        plan,
        &mut warnings,
    )?;
    Ok(print_plan(
        alloc,
        planning.table,
        planning.is_candidates,
        plan,
        warnings,
    )?)
}
