//! What a partial response knows.
ghost use Rattle.std.specs.Prelude.{◌≡◌, [], ◌∷◌, ◌++◌, codes, IfOk, OnOk};
ghost use Rattle.cedar_model.specs.Reports.{ids, must_determine, may_determine};
ghost use Rattle.cedar_requests.specs.Requests.{request_view};
ghost use Rattle.cedar_authorizer.specs.responses.Rows.{rows_view};
ghost use Rattle.cedar_json_writer.specs.Trees.{json_view, members_seen};
ghost use Rattle.cedar_json_writer.specs.Texts.{texts_json};
ghost use Rattle.cedar_json_writer.specs.Responses.{known_members, residuals_json, unknowns_json, entities_json};

use crate::decisions::put_decision;
use crate::ids::policy_ids_to_json;
use crate::left::{entities_to_json, unknowns_to_json};
use crate::residuals::policies_to_json;
use crate::{JsonValue, put_member};
use cedar_authorizer::authorizer::PartialResponse;
use std::alloc::{AllocError, Global};
use std::rc::RcStr;

/// Puts what the response knows behind the members that are there: all that `partial_response_to_json` has but the
/// errors. Refuses only if out of memory.
pub fn put_known(
    alloc: Global,
    response: &PartialResponse,
    members: &mut Vec<(RcStr, JsonValue)>,
) -> Result<(), AllocError>
    ensures { OnOk result (members_seen members.new.items ≡ members_seen members.old.items
        ++ known_members (request_view response.now.request.value) (rows_view response.now)) }
{
    put_decision(alloc, response.decision(), members)?;
    put_must(alloc, response, members)?;
    put_may(alloc, response, members)?;
    put_residuals(alloc, response, members)?;
    put_unknowns(alloc, response, members)?;
    put_entities(alloc, response, members)?;
    Ok(())
}

// The ids of the policies that must determine the decision.
fn put_must(
    alloc: Global,
    response: &PartialResponse,
    members: &mut Vec<(RcStr, JsonValue)>,
) -> Result<(), AllocError>
    ensures { OnOk result (members_seen members.new.items ≡ members_seen members.old.items
        ++ (codes "mustBeDetermining", texts_json (ids (must_determine (rows_view response.now)))) ∷ []) }
{
    let must = must_to_json(alloc, response)?;
    put_member(alloc, "mustBeDetermining", must, members)?;
    Ok(())
}

// Of those that may.
fn put_may(
    alloc: Global,
    response: &PartialResponse,
    members: &mut Vec<(RcStr, JsonValue)>,
) -> Result<(), AllocError>
    ensures { OnOk result (members_seen members.new.items ≡ members_seen members.old.items
        ++ (codes "mayBeDetermining", texts_json (ids (may_determine (rows_view response.now)))) ∷ []) }
{
    let may = may_to_json(alloc, response)?;
    put_member(alloc, "mayBeDetermining", may, members)?;
    Ok(())
}

fn must_to_json(alloc: Global, response: &PartialResponse) -> Result<JsonValue, AllocError>
    ensures { IfOk result (λ j. json_view j ≡ texts_json (ids (must_determine (rows_view response.now)))) }
{
    let ids = policy_ids_to_json(alloc, response.must_be_determining())?;
    Ok(ids)
}

fn may_to_json(alloc: Global, response: &PartialResponse) -> Result<JsonValue, AllocError>
    ensures { IfOk result (λ j. json_view j ≡ texts_json (ids (may_determine (rows_view response.now)))) }
{
    let ids = policy_ids_to_json(alloc, response.may_be_determining())?;
    Ok(ids)
}

// What is left of each policy.
fn put_residuals(
    alloc: Global,
    response: &PartialResponse,
    members: &mut Vec<(RcStr, JsonValue)>,
) -> Result<(), AllocError>
    ensures { OnOk result (members_seen members.new.items ≡ members_seen members.old.items
        ++ (codes "residuals", residuals_json (rows_view response.now)) ∷ []) }
{
    let residuals = residuals_to_json(alloc, response)?;
    put_member(alloc, "residuals", residuals, members)?;
    Ok(())
}

fn residuals_to_json(alloc: Global, response: &PartialResponse) -> Result<JsonValue, AllocError>
    ensures { IfOk result (λ j. json_view j ≡ residuals_json (rows_view response.now)) }
{
    let residuals = policies_to_json(alloc, response.nontrivial_residuals())?;
    Ok(residuals)
}

// The unknowns that are left.
fn put_unknowns(
    alloc: Global,
    response: &PartialResponse,
    members: &mut Vec<(RcStr, JsonValue)>,
) -> Result<(), AllocError>
    ensures { OnOk result (members_seen members.new.items ≡ members_seen members.old.items
        ++ (codes "unknowns", unknowns_json (request_view response.now.request.value) (rows_view response.now)) ∷ []) }
{
    let unknowns = unknowns_to_json(alloc, response)?;
    put_member(alloc, "unknowns", unknowns, members)?;
    Ok(())
}

// The entities that a store lacked.
fn put_entities(
    alloc: Global,
    response: &PartialResponse,
    members: &mut Vec<(RcStr, JsonValue)>,
) -> Result<(), AllocError>
    ensures { OnOk result (members_seen members.new.items ≡ members_seen members.old.items
        ++ (codes "missingEntities", entities_json (request_view response.now.request.value) (rows_view response.now))
        ∷ []) }
{
    let entities = entities_to_json(alloc, response)?;
    put_member(alloc, "missingEntities", entities, members)?;
    Ok(())
}
