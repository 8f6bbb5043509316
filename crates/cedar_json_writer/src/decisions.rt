#![tactic(auto, using(crate::proofs::Trees::trees))]
//! Decisions.
ghost use Rattle.std.specs.Prelude.{◌≡◌, ◌∷◌, [], ◌++◌, Some, codes, IfOk, OnOk, option_map};
ghost use Rattle.cedar_decisions.specs.Decisions.{decision_view};
ghost use Rattle.cedar_json_writer.specs.Trees.{json_view, members_seen};
ghost use Rattle.cedar_json_writer.specs.Responses.{decision_json};

use crate::{JsonValue, put_member, text_to_json};
use cedar_decisions::Decision;
use std::alloc::{AllocError, Global};
use std::rc::RcStr;

/// `"allow"` or `"deny"`, or `null` where no decision is given. Refuses only if out of memory.
pub fn decision_to_json(alloc: Global, decision: Option<Decision>) -> Result<JsonValue, AllocError>
    ensures { IfOk result (λ j. json_view j ≡ decision_json (option_map decision_view decision)) }
{
    match decision {
        Some(decision) => write_decision(alloc, decision),
        None => Ok(JsonValue::Null),
    }
}

fn write_decision(alloc: Global, decision: Decision) -> Result<JsonValue, AllocError>
    ensures { IfOk result (λ j. json_view j ≡ decision_json (Some (decision_view decision))) }
{
    match decision {
        Decision::Allow => text_to_json(alloc, "allow"),
        Decision::Deny => text_to_json(alloc, "deny"),
    }
}

/// Puts the decision at `decision` behind the members that are there.
pub(crate) fn put_decision(
    alloc: Global,
    decision: Option<Decision>,
    members: &mut Vec<(RcStr, JsonValue)>,
) -> Result<(), AllocError>
    ensures { OnOk result (members_seen members.new.items ≡ members_seen members.old.items
        ++ (codes "decision", decision_json (option_map decision_view decision)) ∷ []) }
{
    let decision = decision_to_json(alloc, decision)?;
    put_member(alloc, "decision", decision, members)?;
    Ok(())
}
