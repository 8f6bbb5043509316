#![tactic(auto, using(crate::proofs::Trees::trees))]
//! The ids of policies.
ghost use Rattle.std.specs.Prelude.{◌≡◌, [], ◌∷◌, ◌++◌, map, IfOk, OnOk, string_bytes};
ghost use Rattle.json.specs.Json.{string};
ghost use Rattle.cedar_layers.specs.Policies.{policy_id_text, policy_view};
ghost use Rattle.cedar_model.specs.Policies as model;
ghost use Rattle.cedar_authorizer.specs.responses.Readers.{policies_left};
ghost use Rattle.cedar_json_writer.specs.Trees.{json_view};
ghost use Rattle.cedar_json_writer.specs.Texts.{texts_json};
ghost use Rattle.cedar_json_writer.specs.Reading.{AddsId, policy_ids};

use crate::JsonValue;
use crate::texts::put_text;
use cedar_authorizer::authorizer::ReportedPolicies;
use cedar_layers::policies::{Policy, PolicyID};
use std::alloc::{AllocError, Global};
use std::collections::HashSet;

/// The text of the id.
pub(crate) fn id_text(alloc: Global, id: &PolicyID) -> Result<String, AllocError>
    ensures { IfOk result (λ s. string_bytes s ≡ policy_id_text id.now) }
{
    id.to_string(alloc)
}

/// The ids, in the order in which they were put into the set.
pub(crate) fn ids_to_json(alloc: Global, ids: &HashSet<PolicyID>) -> Result<JsonValue, AllocError>
    ensures { IfOk result (λ j. json_view j ≡ texts_json (map policy_id_text ids.now.keys)) }
{
    let mut texts: Vec<JsonValue> = Vec::new(alloc);
    'ids: for id in ids {
        put_id(alloc, id, &mut texts)?;
    }
    Ok(JsonValue::Array(texts))
}

/// The ids of the policies, in their order.
pub(crate) fn policy_ids_to_json(
    alloc: Global,
    policies: ReportedPolicies<'_>,
) -> Result<JsonValue, AllocError>
    ensures { IfOk result (λ j. json_view j ≡ texts_json (policy_ids (policies_left policies.entry))) }
{
    let mut texts: Vec<JsonValue> = Vec::new(alloc);
    'policies: for policy in policies {
        put_next_id(alloc, policy, &mut texts)?;
    }
    Ok(JsonValue::Array(texts))
}

// Puts the id of the policy behind the texts that are there, or refuses where memory ran out for the policy.
fn put_next_id(
    alloc: Global,
    policy: Result<Policy, AllocError>,
    texts: &mut Vec<JsonValue>,
) -> Result<(), AllocError>
    ensures { OnOk result (AddsId policy (map json_view texts.old.items) (map json_view texts.new.items)) }
{
    match policy {
        Ok(policy) => {
            let put = put_id_of(alloc, &policy, texts);
            drop(policy);
            put
        }
        Err(error) => Err(error),
    }
}

fn put_id_of(alloc: Global, policy: &Policy, texts: &mut Vec<JsonValue>) -> Result<(), AllocError>
    ensures { OnOk result (map json_view texts.new.items
        ≡ map json_view texts.old.items ++ string (policy_view policy.now).id ∷ []) }
{
    put_id(alloc, policy.id(), texts)?;
    Ok(())
}

fn put_id(alloc: Global, id: &PolicyID, texts: &mut Vec<JsonValue>) -> Result<(), AllocError>
    ensures { OnOk result
        (map json_view texts.new.items ≡ map json_view texts.old.items ++ string (policy_id_text id.now) ∷ []) }
{
    let text = id_text(alloc, id)?;
    put_text(alloc, text.as_str(), texts)?;
    Ok(())
}
