#![tactic(auto, using(cedar_json_writer::proofs::Trees::trees))]
//! What differs between two answers, as JSON.
ghost use Rattle.std.specs.Prelude.{◌≡◌, Some, IfOk, not, map, string_bytes};
ghost use Rattle.cedar_model.specs.Policies.{allow, deny};
ghost use Rattle.cedar_decisions.specs.Decisions.{decision_view};
ghost use Rattle.cedar_json_writer.specs.Responses.{decision_json};
ghost use Rattle.cedar_json_writer.specs.Trees.{json_view};
ghost use Rattle.cedar_expectations.specs.Answers.{answer_view};
ghost use Rattle.cedar_expectations.specs.Differences.{is_same_decision, is_same, count_json, pair_json, both_json};
ghost use Rattle.cedar_expectations.specs.Differences.{each_only, difference_json};

use crate::answers::Answer;
use crate::lists::{have_same, only_in};
use cedar_decisions::Decision;
use cedar_json_writer::{JsonValue, decision_to_json, put_member};
use std::alloc::{AllocError, Global};
use std::rc::RcStr;

/// Whether nothing differs between the answers.
pub(crate) fn is_same(old: &Answer, new: &Answer) -> bool
    ensures { result ≡ is_same (answer_view old.now) (answer_view new.now) }
{
    is_same_decision(old.decision, new.decision)
        && (have_same(&old.reasons, &new.reasons) && have_same(&old.errors, &new.errors))
}

/// Whether the decisions are the same.
pub fn is_same_decision(old: Decision, new: Decision) -> bool
    ensures { result ≡ is_same_decision (decision_view old) (decision_view new) }
{
    match old {
        Decision::Allow => is_allow(new),
        Decision::Deny => !is_allow(new),
    }
}

fn is_allow(decision: Decision) -> bool
    ensures allow { is_same_decision allow (decision_view decision) ≡ result }
    ensures deny { is_same_decision deny (decision_view decision) ≡ not result }
{
    match decision {
        Decision::Allow => true,
        Decision::Deny => false,
    }
}

/// What differs between the answers to the request of this line.
pub(crate) fn difference_to_json(
    alloc: Global,
    line: usize,
    old: &Answer,
    new: &Answer,
) -> Result<JsonValue, AllocError>
    ensures { IfOk result
        (λ j. json_view j ≡ difference_json line (answer_view old.now) (answer_view new.now)) }
{
    let mut members: Vec<(RcStr, JsonValue)> = Vec::new(alloc);
    put_member(alloc, "line", count_to_json(line), &mut members)?;
    let decisions = decisions_to_json(alloc, old.decision, new.decision)?;
    put_member(alloc, "decision", decisions, &mut members)?;
    let reasons = each_only(alloc, &old.reasons, &new.reasons)?;
    put_member(alloc, "reason", reasons, &mut members)?;
    let errors = each_only(alloc, &old.errors, &new.errors)?;
    put_member(alloc, "errors", errors, &mut members)?;
    Ok(JsonValue::Object(members))
}

/// The count, or the greatest integer of 64 bits, where it is greater.
pub fn count_to_json(count: usize) -> JsonValue
    ensures { json_view result ≡ count_json count }
{
    match i64::try_from(count) {
        Ok(count) => JsonValue::Long(count),
        Err(_) => JsonValue::Long(i64::MAX),
    }
}

fn decisions_to_json(alloc: Global, old: Decision, new: Decision) -> Result<JsonValue, AllocError>
    ensures { IfOk result (λ j. json_view j
        ≡ both_json (decision_json (Some (decision_view old))) (decision_json (Some (decision_view new)))) }
{
    let old = decision_to_json(alloc, Some(old))?;
    let new = decision_to_json(alloc, Some(new))?;
    pair_to_json(alloc, "old", old, "new", new)
}

fn each_only(alloc: Global, old: &[String], new: &[String]) -> Result<JsonValue, AllocError>
    ensures { IfOk result
        (λ j. json_view j ≡ each_only (map string_bytes old.now) (map string_bytes new.now)) }
{
    let of_old = only_in(alloc, old, new)?;
    let of_new = only_in(alloc, new, old)?;
    pair_to_json(alloc, "old", of_old, "new", of_new)
}

/// An object of these two members. Refuses only if out of memory.
pub fn pair_to_json(
    alloc: Global,
    first_key: &str,
    first: JsonValue,
    second_key: &str,
    second: JsonValue,
) -> Result<JsonValue, AllocError>
    ensures { IfOk result (λ j. json_view j
        ≡ pair_json first_key.now (json_view first) second_key.now (json_view second)) }
{
    let mut members: Vec<(RcStr, JsonValue)> = Vec::new(alloc);
    put_member(alloc, first_key, first, &mut members)?;
    put_member(alloc, second_key, second, &mut members)?;
    Ok(JsonValue::Object(members))
}
