#![tactic(auto, using(cedar_json_writer::proofs::Trees::trees))]
//! Explained policies as JSON.
ghost use Rattle.std.specs.Prelude.{◌≡◌, [], map, IfOk, OnOk};
ghost use Rattle.cedar_json_writer.specs.Trees.{json_view, members_seen};
ghost use Rattle.cedar_places.specs.Texts.{text_in};
ghost use Rattle.cedar_explain.specs.Reached.{IsReached};
ghost use Rattle.cedar_explain_json.specs.Documents.{IsPolicyJson, AddsPolicy, IsArrayOfPolicies, policy_members};

use crate::members::{put_id, put_name, put_place, put_text};
use crate::parts::parts_to_json;
use crate::words::put_policy_outcome;
use cedar_evaluator::evaluator::Evaluator;
use cedar_explain::ExplainedPolicy;
use cedar_json_writer::{JsonValue, put_item, put_member};
use cedar_places::Places;
use cedar_text_printer::effect_text;
use std::alloc::{AllocError, Global};
use std::rc::RcStr;

// An array of the policies, in their order.
pub(crate) fn policies_to_json(
    alloc: Global,
    places: &Places<'_>,
    evaluator: &Evaluator<'_, '_>,
    explained: &[ExplainedPolicy<'_>],
    has_values: bool,
) -> Result<JsonValue, AllocError>
    ensures { IfOk result (λ j. IsArrayOfPolicies (text_in places.now) has_values (IsReached evaluator.now)
        explained.now (json_view j)) }
{
    let mut items: Vec<JsonValue> = Vec::new(alloc);
    'policies: for policy in explained {
        add_policy(alloc, places, evaluator, policy, has_values, &mut items)?;
    }
    Ok(JsonValue::Array(items))
}

fn add_policy(
    alloc: Global,
    places: &Places<'_>,
    evaluator: &Evaluator<'_, '_>,
    explained: &ExplainedPolicy<'_>,
    has_values: bool,
    items: &mut Vec<JsonValue>,
) -> Result<(), AllocError>
    ensures { OnOk result (AddsPolicy (text_in places.now) has_values (IsReached evaluator.now) explained.now
        (map json_view items.old.items) (map json_view items.new.items)) }
{
    let item = policy_to_json(alloc, places, evaluator, explained, has_values)?;
    put_item(item, items)?;
    Ok(())
}

fn policy_to_json(
    alloc: Global,
    places: &Places<'_>,
    evaluator: &Evaluator<'_, '_>,
    explained: &ExplainedPolicy<'_>,
    has_values: bool,
) -> Result<JsonValue, AllocError>
    ensures { IfOk result (λ j. IsPolicyJson (text_in places.now) has_values (IsReached evaluator.now) explained.now
        (json_view j)) }
{
    let mut members: Vec<(RcStr, JsonValue)> = Vec::new(alloc);
    put_head(alloc, places, explained, &mut members)?;
    let parts = parts_to_json(
        alloc,
        places,
        evaluator,
        explained.policy().env(),
        explained.explanation().parts(),
        has_values,
    )?;
    put_member(alloc, "parts", parts, &mut members)?;
    Ok(JsonValue::Object(members))
}

// Puts what is said of the policy itself.
fn put_head(
    alloc: Global,
    places: &Places<'_>,
    explained: &ExplainedPolicy<'_>,
    members: &mut Vec<(RcStr, JsonValue)>,
) -> Result<(), AllocError>
    requires { members_seen members.old.items ≡ [] }
    ensures { OnOk result (members_seen members.new.items ≡ policy_members (text_in places.now) explained.now) }
{
    put_id(alloc, explained.id(), members)?;
    put_name(alloc, explained.policy(), members)?;
    put_text(alloc, "effect", effect_text(explained.effect()), members)?;
    put_place(alloc, places, explained.policy().loc(), members)?;
    put_policy_outcome(alloc, explained.explanation().outcome(), members)?;
    Ok(())
}
