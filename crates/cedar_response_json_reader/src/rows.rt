#![tactic(auto, using(crate::proofs::Refused::refusals))]
//! What is reported of policies.
ghost use Rattle.std.specs.Prelude.{◌≡◌, [], ◌∷◌, ◌++◌, Ok, IfOk, IfErr, OnOk, map, codes};
ghost use Rattle.std.specs.Option.{option_and_then};
ghost use Rattle.json.specs.Find.{as_str};
ghost use Rattle.json.specs.Value.{value_view, items_view};
ghost use Rattle.cedar_model.specs.Terms.{bool_literal};
ghost use Rattle.cedar_expressions.specs.View.{view};
ghost use Rattle.cedar_functions.specs.Functions.{knowledge};
ghost use Rattle.cedar_layers.specs.Policies.{policy_view};
ghost use Rattle.cedar_names.specs.Leaves.{literal_view};
ghost use Rattle.cedar_policy_json_reader.specs.Paths.{at_key, at_index};
ghost use Rattle.cedar_policy_json_reader.specs.Policies.{policy_said};
ghost use Rattle.cedar_response_json_reader.specs.Rows as says;
ghost use Rattle.cedar_response_json_reader.specs.Refusals.{IsRefusal, IsMemory, IsOneMore, under, made_of, of_policies};
ghost use Rattle.cedar_response_json_reader.specs.Shapes.{part_at};

use crate::errors::{ResponseJsonError, ResponseRefusal};
use crate::reports::Report;
use crate::requests::literal_in;
use crate::shapes::{array, member_at, over_members, text_at};
use cedar_expressions::Expr;
use cedar_functions::Functions;
use cedar_layers::policies::{Policy, PolicyID};
use cedar_names::Literal;
use cedar_policy_json_reader::policy_from_json;
use json::Value;
use std::alloc::Global;
use std::rc::RcStr;

/// What is reported of the policies at `policies`.
pub(crate) fn rows_in(
    alloc: Global,
    json: &Value<'_>,
    functions: &Functions,
    limit: usize,
) -> Result<Vec<(Report, Policy)>, ResponseJsonError>
    ensures said { IfOk result (λ rs. says.listed_rows (knowledge functions.now) limit (value_view json.now)
        ≡ Ok (map says.held_row rs.items)) }
    ensures refused { IfErr result
        (IsRefusal (says.listed_rows (knowledge functions.now) limit (value_view json.now))) }
{
    match array(json) {
        Some(items) => all(alloc, items, functions, limit),
        None => Err(ResponseJsonError::refusal(alloc, ResponseRefusal::NotAnArray)),
    }
}

fn all(
    alloc: Global,
    items: &Vec<Value<'_>>,
    functions: &Functions,
    limit: usize,
) -> Result<Vec<(Report, Policy)>, ResponseJsonError>
    ensures said { IfOk result (λ rs. says.rows_from (knowledge functions.now) limit 0 (items_view items.now.items)
        ≡ Ok (map says.held_row rs.items)) }
    ensures refused { IfErr result
        (IsRefusal (says.rows_from (knowledge functions.now) limit 0 (items_view items.now.items))) }
{
    let mut rows: Vec<(Report, Policy)> = Vec::new(alloc);
    match put_rows(alloc, items, functions, limit, &mut rows) {
        Ok(()) => Ok(rows),
        Err(error) => {
            drop(rows);
            Err(error)
        }
    }
}

fn put_rows(
    alloc: Global,
    items: &Vec<Value<'_>>,
    functions: &Functions,
    limit: usize,
    rows: &mut Vec<(Report, Policy)>,
) -> Result<(), ResponseJsonError>
    requires { rows.old.items ≡ [] }
    ensures said { OnOk result (says.rows_from (knowledge functions.now) limit 0 (items_view items.now.items)
        ≡ Ok (map says.held_row rows.new.items)) }
    ensures refused { IfErr result
        (IsRefusal (says.rows_from (knowledge functions.now) limit 0 (items_view items.now.items))) }
{
    let mut index: usize = 0;
    'items: for item in items {
        put_row(alloc, item, index, functions, limit, rows)?;
        index += 1;
    }
    Ok(())
}

fn put_row(
    alloc: Global,
    item: &Value<'_>,
    index: usize,
    functions: &Functions,
    limit: usize,
    rows: &mut Vec<(Report, Policy)>,
) -> Result<(), ResponseJsonError>
    ensures said { OnOk result (IsOneMore (map says.held_row rows.old.items)
        (under (at_index index) (says.row_said (knowledge functions.now) limit (value_view item.now)))
        (map says.held_row rows.new.items)) }
    ensures refused { IfErr result (IsRefusal (under (at_index index)
        (says.row_said (knowledge functions.now) limit (value_view item.now)))) }
{
    match row(alloc, item, functions, limit) {
        Ok(row) => put(row, rows),
        Err(error) => Err(error.under_index(index)),
    }
}

fn put(row: (Report, Policy), rows: &mut Vec<(Report, Policy)>) -> Result<(), ResponseJsonError>
    ensures said { OnOk result
        (map says.held_row rows.new.items ≡ map says.held_row rows.old.items ++ says.held_row row ∷ []) }
    ensures memory { IfErr result IsMemory }
{
    match rows.push(row) {
        Ok(()) => Ok(()),
        Err(failed) => Err(ResponseJsonError::from(failed)),
    }
}

// ---- one row

fn row(
    alloc: Global,
    json: &Value<'_>,
    functions: &Functions,
    limit: usize,
) -> Result<(Report, Policy), ResponseJsonError>
    ensures said { IfOk result (λ r. says.row_said (knowledge functions.now) limit (value_view json.now)
        ≡ Ok (says.held_row r)) }
    ensures refused { IfErr result
        (IsRefusal (says.row_said (knowledge functions.now) limit (value_view json.now))) }
{
    match over_members(json, 3) {
        Some(reason) => Err(ResponseJsonError::refusal(alloc, reason)),
        None => row_parts(alloc, json, functions, limit),
    }
}

fn row_parts(
    alloc: Global,
    json: &Value<'_>,
    functions: &Functions,
    limit: usize,
) -> Result<(Report, Policy), ResponseJsonError>
    ensures said { IfOk result (λ r. says.row_parts (knowledge functions.now) limit (value_view json.now)
        ≡ Ok (says.held r)) }
    ensures refused { IfErr result
        (IsRefusal (says.row_parts (knowledge functions.now) limit (value_view json.now))) }
{
    match text_at(alloc, json, "id") {
        Ok(id) => report_and_policy(alloc, json, id, functions, limit),
        Err(error) => Err(error),
    }
}

fn report_and_policy(
    alloc: Global,
    json: &Value<'_>,
    id: &str,
    functions: &Functions,
    limit: usize,
) -> Result<(Report, Policy), ResponseJsonError>
    ensures said { IfOk result
        (λ r. says.report_and_policy (knowledge functions.now) limit id.now (value_view json.now)
        ≡ Ok (says.held r)) }
    ensures refused { IfErr result
        (IsRefusal (says.report_and_policy (knowledge functions.now) limit id.now (value_view json.now))) }
{
    match report_at(alloc, json) {
        Ok(report) => match policy_at(alloc, json, id, functions, limit) {
            Ok(policy) => match carried_on(alloc, report, policy) {
                Ok(row) => Ok(row),
                Err(error) => Err(error.under_key(alloc, "policy")),
            },
            Err(error) => Err(error),
        },
        Err(error) => Err(error),
    }
}

fn report_at(alloc: Global, json: &Value<'_>) -> Result<Report, ResponseJsonError>
    ensures said { IfOk result
        (λ r. part_at (codes "reported") says.report_said (value_view json.now) ≡ Ok r) }
    ensures refused { IfErr result
        (IsRefusal (part_at (codes "reported") says.report_said (value_view json.now))) }
{
    match member_at(alloc, json, "reported") {
        Ok(part) => match report(alloc, part) {
            Ok(report) => Ok(report),
            Err(error) => Err(error.under_key(alloc, "reported")),
        },
        Err(error) => Err(error),
    }
}

fn report(alloc: Global, json: &Value<'_>) -> Result<Report, ResponseJsonError>
    ensures said { IfOk result (λ r. says.report_said (value_view json.now) ≡ Ok r) }
    ensures refused { IfErr result (IsRefusal (says.report_said (value_view json.now))) }
{
    match report_in(json) {
        Some(report) => Ok(report),
        None => Err(ResponseJsonError::refusal(alloc, ResponseRefusal::NotAReport)),
    }
}

fn report_in(json: &Value<'_>) -> Option<Report>
    ensures { result ≡ option_and_then says.report_named (as_str (value_view json.now)) }
{
    match json.as_str() {
        Some(word) => report_named(word),
        None => None,
    }
}

fn report_named(word: &str) -> Option<Report>
    ensures { result ≡ says.report_named word.now }
{
    if word == "satisfied" {
        Some(Report::Satisfied)
    } else if word == "unsatisfied" {
        Some(Report::Unsatisfied)
    } else if word == "erring" {
        Some(Report::Erring)
    } else if word == "residual" {
        Some(Report::Residual)
    } else {
        None
    }
}

fn policy_at(
    alloc: Global,
    json: &Value<'_>,
    id: &str,
    functions: &Functions,
    limit: usize,
) -> Result<Policy, ResponseJsonError>
    ensures said { IfOk result (λ p. says.policy_at (knowledge functions.now) limit id.now (value_view json.now)
        ≡ Ok (policy_view p)) }
    ensures refused { IfErr result
        (IsRefusal (says.policy_at (knowledge functions.now) limit id.now (value_view json.now))) }
{
    match member_at(alloc, json, "policy") {
        Ok(part) => match policy(alloc, part, id, functions, limit) {
            Ok(policy) => Ok(policy),
            Err(error) => Err(error.under_key(alloc, "policy")),
        },
        Err(error) => Err(error),
    }
}

fn policy(
    alloc: Global,
    json: &Value<'_>,
    id: &str,
    functions: &Functions,
    limit: usize,
) -> Result<Policy, ResponseJsonError>
    ensures said { IfOk result
        (λ p. of_policies (policy_said (knowledge functions.now) limit id.now (value_view json.now))
        ≡ Ok (policy_view p)) }
    ensures refused { IfErr result
        (IsRefusal (of_policies (policy_said (knowledge functions.now) limit id.now (value_view json.now)))) }
{
    match RcStr::from_str(alloc, id) {
        Ok(id) => {
            let id = PolicyID::from_string(id);
            match policy_from_json(alloc, json, id, functions, limit) {
                Ok(policy) => Ok(policy),
                Err(error) => Err(ResponseJsonError::of_policies(error)),
            }
        }
        Err(error) => Err(ResponseJsonError::Memory(error)),
    }
}

// ---- as it is reported

fn carried_on(
    alloc: Global,
    report: Report,
    policy: Policy,
) -> Result<(Report, Policy), ResponseJsonError>
    ensures said { IfOk result (λ r. says.carried_on (report, policy_view policy) ≡ Ok (says.held r)) }
    ensures refused { IfErr result (IsRefusal (says.carried_on (report, policy_view policy))) }
{
    if has_no_scope(&policy) {
        if fits(report, policy.when_clause()) {
            Ok((report, policy))
        } else {
            drop(policy);
            Err(ResponseJsonError::refusal(alloc, ResponseRefusal::NotAsReported))
        }
    } else {
        drop(policy);
        Err(ResponseJsonError::refusal(alloc, ResponseRefusal::HasAScope))
    }
}

fn has_no_scope(policy: &Policy) -> bool
    ensures { result ≡ says.has_no_scope (policy_view policy.now) }
{
    is_bool(true, policy.principal_constraint())
        && (is_bool(true, policy.action_constraint())
            && is_bool(true, policy.resource_constraint()))
}

fn fits(report: Report, clause: &Expr) -> bool
    ensures { result ≡ says.fits report (view clause.now) }
{
    match report {
        Report::Satisfied => is_bool(true, clause),
        Report::Unsatisfied => is_bool(false, clause),
        Report::Erring => is_bool(false, clause),
        Report::Residual => clause.has_unknown(),
    }
}

// Whether the expression is this truth.
fn is_bool(is_true: bool, expr: &Expr) -> bool
    ensures { result ≡ says.is_bool is_true (view expr.now) }
{
    match literal_in(expr) {
        Some(literal) => is_bool_literal(is_true, literal),
        None => false,
    }
}

fn is_bool_literal(is_true: bool, literal: &Literal) -> bool
    ensures { result ≡ says.is_bool_literal is_true (literal_view literal.now) }
{
    match literal {
        Literal::Bool(found) => same(is_true, *found),
        Literal::Long(_) => false,
        Literal::String(_) => false,
        Literal::EntityUID(_) => false,
    }
}

fn same(one: bool, other: bool) -> bool
    ensures { result ≡ says.is_bool_literal one (bool_literal other) }
{
    if one { other } else { !other }
}
