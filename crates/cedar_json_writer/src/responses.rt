#![tactic(auto, using(crate::proofs::Trees::trees))]
//! Responses.
ghost use Rattle.std.specs.Prelude.{◌≡◌, [], ◌∷◌, ◌++◌, codes, map, IfOk, OnOk};
ghost use Rattle.cedar_json_writer.specs.Texts.{texts_json};
ghost use Rattle.cedar_decisions.specs.Decisions.{decision_view};
ghost use Rattle.cedar_layers.specs.Policies.{policy_id_text};
ghost use Rattle.cedar_requests.specs.Requests.{request_view};
ghost use Rattle.cedar_authorizer.specs.responses.Responses.{errors_view};
ghost use Rattle.cedar_authorizer.specs.responses.Rows.{rows_view};
ghost use Rattle.cedar_json_writer.specs.Trees.{json_view, members_seen};
ghost use Rattle.cedar_json_writer.specs.Errors.{AddsErrors};
ghost use Rattle.cedar_json_writer.specs.Responses.{IsResponseJson, IsPartialResponseJson};

use crate::decisions::put_decision;
use crate::errors::errors_to_json;
use crate::ids::ids_to_json;
use crate::known::put_known;
use crate::{JsonValue, put_member};
use cedar_authorizer::authorizer::{AuthorizationError, PartialResponse, Response};
use cedar_layers::policies::PolicyID;
use std::alloc::{AllocError, Global};
use std::collections::HashSet;
use std::rc::RcStr;

/// The response: the decision at `decision`; at `reason` the ids of its reasons, in the order in which they were put
/// into their set; and at `errors` its errors in their order, as `errors_to_json` has them. Refuses only if
/// out of memory.
pub fn response_to_json(alloc: Global, response: &Response) -> Result<JsonValue, AllocError>
    ensures { IfOk result (λ j. IsResponseJson (decision_view response.now.decision)
        (map policy_id_text response.now.diagnostics.reason.keys)
        (errors_view response.now.diagnostics.errors.items) (json_view j)) }
{
    let mut members: Vec<(RcStr, JsonValue)> = Vec::new(alloc);
    put_decision(alloc, Some(response.decision), &mut members)?;
    put_reasons(alloc, &response.diagnostics.reason, &mut members)?;
    put_errors(alloc, &response.diagnostics.errors, &mut members)?;
    Ok(JsonValue::Object(members))
}

/// The partial response: its decision at `decision`, `null` where none is given; at `mustBeDetermining` and
/// `mayBeDetermining` the ids of the policies that must and that may determine it, in the order of
/// `must_be_determining` and `may_be_determining`; at `residuals` what is left of each policy, permits before forbids,
/// as `policy_to_cedar` writes it, under the policy's id; at `unknowns` the names of the unknowns that are left, each
/// once, in the order in which `unknowns` of `cedar_unknowns` has them, and at `missingEntities` the entities that a
/// store lacked, in that of `unknown_entities`; and at `errors` its errors in their order, as `errors_to_json` has
/// them. Refuses only if out of memory.
pub fn partial_response_to_json(
    alloc: Global,
    response: &PartialResponse,
) -> Result<JsonValue, AllocError>
    ensures { IfOk result (λ j. IsPartialResponseJson (request_view response.now.request.value)
        (rows_view response.now) (errors_view response.now.errors.items) (json_view j)) }
{
    let mut members: Vec<(RcStr, JsonValue)> = Vec::new(alloc);
    put_known(alloc, response, &mut members)?;
    put_errors(alloc, &response.errors, &mut members)?;
    Ok(JsonValue::Object(members))
}

fn put_reasons(
    alloc: Global,
    reasons: &HashSet<PolicyID>,
    members: &mut Vec<(RcStr, JsonValue)>,
) -> Result<(), AllocError>
    ensures { OnOk result (members_seen members.new.items ≡ members_seen members.old.items
        ++ (codes "reason", texts_json (map policy_id_text reasons.now.keys)) ∷ []) }
{
    let reasons = ids_to_json(alloc, reasons)?;
    put_member(alloc, "reason", reasons, members)?;
    Ok(())
}

fn put_errors(
    alloc: Global,
    errors: &[AuthorizationError],
    members: &mut Vec<(RcStr, JsonValue)>,
) -> Result<(), AllocError>
    ensures { OnOk result
        (AddsErrors (errors_view errors.now) (members_seen members.old.items) (members_seen members.new.items)) }
{
    let errors = errors_to_json(alloc, errors)?;
    put_member(alloc, "errors", errors, members)?;
    Ok(())
}
