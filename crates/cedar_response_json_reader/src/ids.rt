#![tactic(auto, using(crate::proofs::Refused::refusals))]
//! No two policies of a response have one id.
ghost use Rattle.std.specs.Prelude.{◌≡◌, ◌∷◌, [], ◌++◌, Ok, IfOk, IfErr, OnOk, map, codes, None, is_none};
ghost use Rattle.json.specs.Value.{value_view};
ghost use Rattle.cedar_functions.specs.Functions.{knowledge};
ghost use Rattle.cedar_layers.specs.Policies.{policy_view, first_repeated_id};
ghost use Rattle.cedar_model.specs.Refusals.{first_repeated};
ghost use Rattle.cedar_response_json_reader.specs.Rows as says;
ghost use Rattle.cedar_response_json_reader.specs.Refusals.{IsRefusal};
ghost use Rattle.cedar_response_json_reader.specs.Shapes.{part_at};

use crate::errors::{ResponseJsonError, ResponseRefusal};
use crate::reports::Report;
use crate::rows::rows_in;
use crate::shapes::member_at;
use cedar_functions::Functions;
use cedar_layers::policies::{Policy, PolicySet, PolicySetError};
use json::Value;
use std::alloc::{AllocError, Global};

/// What is reported of the policies at `policies`, no two of which have one id.
pub(crate) fn rows_at(
    alloc: Global,
    json: &Value<'_>,
    functions: &Functions,
    limit: usize,
) -> Result<Vec<(Report, Policy)>, ResponseJsonError>
    ensures said { IfOk result (λ rs. part_at (codes "policies") (says.rows_said (knowledge functions.now) limit)
        (value_view json.now) ≡ Ok (map says.held_row rs.items)) }
    ensures refused { IfErr result (IsRefusal (part_at (codes "policies")
        (says.rows_said (knowledge functions.now) limit) (value_view json.now))) }
    ensures apart { IfOk result (λ rs. says.repeated_in rs.items ≡ None) }
{
    match member_at(alloc, json, "policies") {
        Ok(part) => match rows(alloc, part, functions, limit) {
            Ok(rows) => Ok(rows),
            Err(error) => Err(error.under_key(alloc, "policies")),
        },
        Err(error) => Err(error),
    }
}

fn rows(
    alloc: Global,
    json: &Value<'_>,
    functions: &Functions,
    limit: usize,
) -> Result<Vec<(Report, Policy)>, ResponseJsonError>
    ensures said { IfOk result (λ rs. says.rows_said (knowledge functions.now) limit (value_view json.now)
        ≡ Ok (map says.held_row rs.items)) }
    ensures refused { IfErr result
        (IsRefusal (says.rows_said (knowledge functions.now) limit (value_view json.now))) }
    ensures apart { IfOk result (λ rs. says.repeated_in rs.items ≡ None) }
{
    match rows_in(alloc, json, functions, limit) {
        Ok(rows) => all_once(alloc, rows),
        Err(error) => Err(error),
    }
}

// These rows, where no two have one id.
fn all_once(
    alloc: Global,
    rows: Vec<(Report, Policy)>,
) -> Result<Vec<(Report, Policy)>, ResponseJsonError>
    ensures said { IfOk result
        (λ rs. says.once (says.repeated_in rows.items) (map says.held_row rows.items)
        ≡ Ok (map says.held_row rs.items)) }
    ensures refused { IfErr result
        (IsRefusal (says.once (says.repeated_in rows.items) (map says.held_row rows.items))) }
    ensures apart { IfOk result (λ rs. says.repeated_in rs.items ≡ None) }
{
    match are_apart(alloc, &rows) {
        Ok(true) => Ok(rows),
        Ok(false) => {
            drop(rows);
            Err(ResponseJsonError::refusal(alloc, ResponseRefusal::RepeatedId))
        }
        Err(error) => {
            drop(rows);
            Err(ResponseJsonError::Memory(error))
        }
    }
}

// Whether no two rows have one id.
fn are_apart(alloc: Global, rows: &Vec<(Report, Policy)>) -> Result<bool, AllocError>
    ensures { IfOk result (λ b. b ≡ is_none (says.repeated_in rows.now.items)) }
{
    let copies = policies_of(alloc, rows)?;
    make_a_set(alloc, copies)
}

fn make_a_set(alloc: Global, policies: Vec<Policy>) -> Result<bool, AllocError>
    ensures { IfOk result (λ b. b ≡ is_none (first_repeated_id policies.items)) }
{
    match PolicySet::try_from_iter(alloc, policies) {
        Ok(set) => {
            drop(set);
            Ok(true)
        }
        Err(PolicySetError::Occupied { id }) => {
            drop(id);
            Ok(false)
        }
        Err(PolicySetError::Memory(error)) => Err(error),
    }
}

// Copies of the policies.
fn policies_of(alloc: Global, rows: &Vec<(Report, Policy)>) -> Result<Vec<Policy>, AllocError>
    ensures { IfOk result (λ ps. map policy_view ps.items ≡ map says.view_of rows.now.items) }
{
    let mut copies: Vec<Policy> = Vec::new(alloc);
    'rows: for row in rows {
        put_copy(&row.1, &mut copies)?;
    }
    Ok(copies)
}

fn put_copy(policy: &Policy, copies: &mut Vec<Policy>) -> Result<(), AllocError>
    ensures { OnOk result (map policy_view copies.new.items
        ≡ map policy_view copies.old.items ++ policy_view policy.now ∷ []) }
{
    copies.push(policy.clone()?)?;
    Ok(())
}
