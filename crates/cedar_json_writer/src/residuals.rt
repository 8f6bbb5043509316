#![tactic(auto, using(crate::proofs::Trees::trees))]
//! What is left of policies.
ghost use Rattle.std.specs.Prelude.{◌≡◌, [], ◌∷◌, ◌++◌, map, IfOk, OnOk};
ghost use Rattle.json.specs.Json.{string};
ghost use Rattle.cedar_layers.specs.Policies.{policy_view};
ghost use Rattle.cedar_text_printer.specs.Policies.{policy_text};
ghost use Rattle.cedar_authorizer.specs.responses.Readers.{policies_left};
ghost use Rattle.cedar_json_writer.specs.Trees.{json_view, members_seen};
ghost use Rattle.cedar_json_writer.specs.Texts.{object_of};
ghost use Rattle.cedar_json_writer.specs.Reading.{AddsResidual, policy_members};

use crate::JsonValue;
use crate::ids::id_text;
use crate::texts::put_text_member;
use cedar_authorizer::authorizer::ReportedPolicies;
use cedar_layers::policies::Policy;
use cedar_text_printer::policy_to_cedar;
use std::alloc::{AllocError, Global};
use std::rc::RcStr;

/// The policies, each as Cedar's text under its id, in their order.
pub(crate) fn policies_to_json(
    alloc: Global,
    policies: ReportedPolicies<'_>,
) -> Result<JsonValue, AllocError>
    ensures { IfOk result (λ j. json_view j ≡ object_of (policy_members (policies_left policies.entry))) }
{
    let mut members: Vec<(RcStr, JsonValue)> = Vec::new(alloc);
    'policies: for policy in policies {
        put_next_policy(alloc, policy, &mut members)?;
    }
    Ok(JsonValue::Object(members))
}

// Puts the policy behind the members that are there, or refuses where memory ran out for the policy.
fn put_next_policy(
    alloc: Global,
    policy: Result<Policy, AllocError>,
    members: &mut Vec<(RcStr, JsonValue)>,
) -> Result<(), AllocError>
    ensures { OnOk result (AddsResidual policy (members_seen members.old.items) (members_seen members.new.items)) }
{
    match policy {
        Ok(policy) => {
            let put = put_policy(alloc, &policy, members);
            drop(policy);
            put
        }
        Err(error) => Err(error),
    }
}

fn put_policy(
    alloc: Global,
    policy: &Policy,
    members: &mut Vec<(RcStr, JsonValue)>,
) -> Result<(), AllocError>
    ensures { OnOk result (members_seen members.new.items ≡ members_seen members.old.items
        ++ ((policy_view policy.now).id, string (policy_text (policy_view policy.now))) ∷ []) }
{
    let id = id_text(alloc, policy.id())?;
    let text = policy_to_cedar(alloc, policy)?;
    put_text_member(alloc, id.as_str(), text.as_str(), members)?;
    Ok(())
}
