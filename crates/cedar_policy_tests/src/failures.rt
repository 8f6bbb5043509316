#![tactic(auto, using(cedar_json_writer::proofs::Trees::trees, crate::proofs::Lists::mapped_length))]
//! What tests fail in.
ghost use Rattle.std.specs.Prelude.{◌≡◌, ◌++◌, ◌∷◌, [], Some, map, length, IfOk, OnOk, codes};
ghost use Rattle.std.specs.Prelude.{string_bytes, option_map};
ghost use Rattle.json.specs.Json.{string};
ghost use Rattle.json.specs.Value.{value_view, items_view};
ghost use Rattle.cedar_decisions.specs.Decisions.{decision_view};
ghost use Rattle.cedar_json_writer.specs.Responses.{decision_json};
ghost use Rattle.cedar_json_writer.specs.Texts.{texts_json};
ghost use Rattle.cedar_json_writer.specs.Trees.{json_view, members_seen};
ghost use Rattle.cedar_expectations.specs.Answers.{answer_view};
ghost use Rattle.cedar_expectations.specs.Differences.{count_json};
ghost use Rattle.cedar_policy_tests.specs.Failures as specs;
ghost use Rattle.cedar_policy_tests.specs.Said.{text_list, text_of};
ghost use Rattle.cedar_policy_tests.specs.Views.{test_view, reason_view};

use crate::reading::PolicyTest;
use cedar_decisions::Decision;
use cedar_expectations::{
    Answer, count_to_json, have_same, is_same_decision, only_in, pair_to_json,
};
use cedar_json_writer::{JsonValue, decision_to_json, put_member, text_to_json};
use json::Value;
use std::alloc::{AllocError, Global};
use std::rc::RcStr;

/// What the test, which has this number, fails in, where this is answered: the number, at `test`, its `name`, and of
/// `decision`, `reason` and `num_errors` each that is not as it expects. None, where the test passes: the decision is the
/// one that it expects, the reasons are those that it names, where it names any, and as many policies err as it says,
/// where it says how many. Refuses only if out of memory.
pub fn failure_to_json(
    alloc: Global,
    number: usize,
    test: PolicyTest<'_, '_>,
    found: &Answer,
) -> Result<Option<JsonValue>, AllocError>
    ensures { IfOk result (λ o. option_map json_view o
        ≡ specs.failure number (test_view test.entry) (answer_view found.now)) }
{
    let is_passed = passes(alloc, test, found)?;
    let told = failure_if(alloc, is_passed, number, test, found)?;
    Ok(told)
}

fn failure_if(
    alloc: Global,
    is_passed: bool,
    number: usize,
    test: PolicyTest<'_, '_>,
    found: &Answer,
) -> Result<Option<JsonValue>, AllocError>
    ensures { IfOk result (λ o. option_map json_view o
        ≡ specs.failure_if is_passed number (test_view test.entry) (answer_view found.now)) }
{
    if is_passed {
        Ok(None)
    } else {
        let failure = failure_of(alloc, number, test, found)?;
        Ok(Some(failure))
    }
}

/// Why the test of this number and name can't be asked, as an object: the number, at `test`, the `name`, and the reason, at
/// `error`. Refuses only if out of memory.
pub fn refusal_to_json(
    alloc: Global,
    number: usize,
    name: &str,
    why: &str,
) -> Result<JsonValue, AllocError>
    ensures { IfOk result (λ j. json_view j ≡ specs.refusal_json number name.now why.now) }
{
    let mut members: Vec<(RcStr, JsonValue)> = Vec::new(alloc);
    put_test(alloc, number, name, &mut members)?;
    let why = text_to_json(alloc, why)?;
    put_member(alloc, "error", why, &mut members)?;
    Ok(JsonValue::Object(members))
}

/// How many tests pass and fail, as an object of `passed` and `failed`. Refuses only if out of memory.
pub fn counts_to_json(alloc: Global, passed: usize, failed: usize) -> Result<JsonValue, AllocError>
    ensures { IfOk result (λ j. json_view j ≡ specs.counts_json passed failed) }
{
    pair_to_json(
        alloc,
        "passed",
        count_to_json(passed),
        "failed",
        count_to_json(failed),
    )
}

// ---- what passes

fn passes(alloc: Global, test: PolicyTest<'_, '_>, found: &Answer) -> Result<bool, AllocError>
    ensures { IfOk result (λ b. b ≡ specs.passes (test_view test.entry) (answer_view found.now)) }
{
    let has_named = has_reasons(alloc, test.reason, &found.reasons)?;
    Ok(
        is_same_decision(test.decision, found.decision)
            && (has_named && has_count(test.num_errors, &found.errors)),
    )
}

fn has_reasons(
    alloc: Global,
    reason: Option<&Vec<Value<'_>>>,
    found: &[String],
) -> Result<bool, AllocError>
    ensures { IfOk result (λ b. b
        ≡ specs.has_reasons (option_map reason_view reason.entry) (map string_bytes found.now)) }
{
    match reason {
        Some(names) => has_names(alloc, names, found),
        None => Ok(true),
    }
}

fn has_names(alloc: Global, names: &Vec<Value<'_>>, found: &[String]) -> Result<bool, AllocError>
    ensures { IfOk result
        (λ b. b ≡ specs.has_reasons (Some (text_list (items_view names.now.items))) (map string_bytes found.now)) }
{
    let names = names_of(alloc, names)?;
    let has_same = have_same(&names, found);
    drop(names);
    Ok(has_same)
}

fn has_count(count: Option<i64>, found: &[String]) -> bool
    ensures { result ≡ specs.has_count count (length (map string_bytes found.now)) }
{
    match count {
        Some(count) => is_count(count, found.len()),
        None => true,
    }
}

fn is_count(count: i64, found: usize) -> bool
    ensures { result ≡ specs.is_count count found }
{
    match usize::try_from(count) {
        Ok(count) => count == found,
        Err(_) => false,
    }
}

// ---- what differs

fn failure_of(
    alloc: Global,
    number: usize,
    test: PolicyTest<'_, '_>,
    found: &Answer,
) -> Result<JsonValue, AllocError>
    ensures { IfOk result
        (λ j. json_view j ≡ specs.failure_json number (test_view test.entry) (answer_view found.now)) }
{
    let mut members: Vec<(RcStr, JsonValue)> = Vec::new(alloc);
    put_test(alloc, number, test.name, &mut members)?;
    put_decision(alloc, test.decision, found.decision, &mut members)?;
    put_reason(alloc, test.reason, &found.reasons, &mut members)?;
    put_count(alloc, test.num_errors, &found.errors, &mut members)?;
    Ok(JsonValue::Object(members))
}

fn put_test(
    alloc: Global,
    number: usize,
    name: &str,
    members: &mut Vec<(RcStr, JsonValue)>,
) -> Result<(), AllocError>
    ensures { OnOk result (members_seen members.new.items
        ≡ members_seen members.old.items ++ specs.test_members number name.now) }
{
    put_number(alloc, number, members)?;
    put_name(alloc, name, members)?;
    Ok(())
}

fn put_number(
    alloc: Global,
    number: usize,
    members: &mut Vec<(RcStr, JsonValue)>,
) -> Result<(), AllocError>
    ensures { OnOk result (members_seen members.new.items
        ≡ members_seen members.old.items ++ (codes "test", count_json number) ∷ []) }
{
    put_member(alloc, "test", count_to_json(number), members)?;
    Ok(())
}

fn put_name(
    alloc: Global,
    name: &str,
    members: &mut Vec<(RcStr, JsonValue)>,
) -> Result<(), AllocError>
    ensures { OnOk result (members_seen members.new.items
        ≡ members_seen members.old.items ++ (codes "name", string name.now) ∷ []) }
{
    let name = text_to_json(alloc, name)?;
    put_member(alloc, "name", name, members)?;
    Ok(())
}

fn put_decision(
    alloc: Global,
    expected: Decision,
    found: Decision,
    members: &mut Vec<(RcStr, JsonValue)>,
) -> Result<(), AllocError>
    ensures { OnOk result (members_seen members.new.items ≡ members_seen members.old.items
        ++ specs.decision_differs (decision_view expected) (decision_view found)) }
{
    if is_same_decision(expected, found) {
        Ok(())
    } else {
        let decisions = decisions_to_json(alloc, expected, found)?;
        put_member(alloc, "decision", decisions, members)?;
        Ok(())
    }
}

fn decisions_to_json(
    alloc: Global,
    expected: Decision,
    found: Decision,
) -> Result<JsonValue, AllocError>
    ensures { IfOk result (λ j. json_view j ≡ specs.expected_json (decision_json (Some (decision_view expected)))
        (decision_json (Some (decision_view found)))) }
{
    let expected = decision_to_json(alloc, Some(expected))?;
    let found = decision_to_json(alloc, Some(found))?;
    pair_to_json(alloc, "expected", expected, "found", found)
}

fn put_reason(
    alloc: Global,
    reason: Option<&Vec<Value<'_>>>,
    found: &[String],
    members: &mut Vec<(RcStr, JsonValue)>,
) -> Result<(), AllocError>
    ensures { OnOk result (members_seen members.new.items ≡ members_seen members.old.items
        ++ specs.reason_differs (option_map reason_view reason.entry) (map string_bytes found.now)) }
{
    match reason {
        Some(names) => put_names(alloc, names, found, members),
        None => Ok(()),
    }
}

fn put_names(
    alloc: Global,
    names: &Vec<Value<'_>>,
    found: &[String],
    members: &mut Vec<(RcStr, JsonValue)>,
) -> Result<(), AllocError>
    ensures { OnOk result (members_seen members.new.items ≡ members_seen members.old.items
        ++ specs.reason_differs (Some (text_list (items_view names.now.items))) (map string_bytes found.now)) }
{
    let names = names_of(alloc, names)?;
    put_unless_same(alloc, &names, found, members)?;
    Ok(())
}

fn put_unless_same(
    alloc: Global,
    expected: &[String],
    found: &[String],
    members: &mut Vec<(RcStr, JsonValue)>,
) -> Result<(), AllocError>
    ensures { OnOk result (members_seen members.new.items ≡ members_seen members.old.items
        ++ specs.reason_differs (Some (map string_bytes expected.now)) (map string_bytes found.now)) }
{
    if have_same(expected, found) {
        Ok(())
    } else {
        let reasons = reasons_to_json(alloc, expected, found)?;
        put_member(alloc, "reason", reasons, members)?;
        Ok(())
    }
}

fn reasons_to_json(
    alloc: Global,
    expected: &[String],
    found: &[String],
) -> Result<JsonValue, AllocError>
    ensures { IfOk result
        (λ j. json_view j ≡ specs.reasons_json (map string_bytes expected.now) (map string_bytes found.now)) }
{
    let missing = only_in(alloc, expected, found)?;
    let unexpected = only_in(alloc, found, expected)?;
    pair_to_json(alloc, "missing", missing, "unexpected", unexpected)
}

fn put_count(
    alloc: Global,
    count: Option<i64>,
    found: &[String],
    members: &mut Vec<(RcStr, JsonValue)>,
) -> Result<(), AllocError>
    ensures { OnOk result (members_seen members.new.items ≡ members_seen members.old.items
        ++ specs.count_differs count (map string_bytes found.now)) }
{
    match count {
        Some(count) => put_unless_count(alloc, count, found, members),
        None => Ok(()),
    }
}

fn put_unless_count(
    alloc: Global,
    count: i64,
    found: &[String],
    members: &mut Vec<(RcStr, JsonValue)>,
) -> Result<(), AllocError>
    ensures { OnOk result (members_seen members.new.items ≡ members_seen members.old.items
        ++ specs.count_differs (Some count) (map string_bytes found.now)) }
{
    if is_count(count, found.len()) {
        Ok(())
    } else {
        let errors = errors_to_json(alloc, count, found)?;
        put_member(alloc, "num_errors", errors, members)?;
        Ok(())
    }
}

fn errors_to_json(alloc: Global, count: i64, found: &[String]) -> Result<JsonValue, AllocError>
    ensures { IfOk result (λ j. json_view j ≡ specs.errors_json count (map string_bytes found.now)) }
{
    let errors = texts_to_json(alloc, found)?;
    let mut members: Vec<(RcStr, JsonValue)> = Vec::new(alloc);
    put_member(alloc, "expected", JsonValue::Long(count), &mut members)?;
    put_member(alloc, "found", count_to_json(found.len()), &mut members)?;
    put_member(alloc, "errors", errors, &mut members)?;
    Ok(JsonValue::Object(members))
}

// ---- lists of texts

// Each of the texts, since none is in no list.
fn texts_to_json(alloc: Global, texts: &[String]) -> Result<JsonValue, AllocError>
    ensures { IfOk result (λ j. json_view j ≡ texts_json (map string_bytes texts.now)) }
{
    let all = only_in(alloc, texts, &[])?;
    Ok(all)
}

fn names_of(alloc: Global, names: &Vec<Value<'_>>) -> Result<Vec<String>, AllocError>
    ensures { IfOk result (λ v. map string_bytes v.items ≡ text_list (items_view names.now.items)) }
{
    let mut texts: Vec<String> = Vec::new(alloc);
    'names: for name in names {
        put_text(alloc, name, &mut texts)?;
    }
    Ok(texts)
}

fn put_text(alloc: Global, name: &Value<'_>, texts: &mut Vec<String>) -> Result<(), AllocError>
    ensures { OnOk result (map string_bytes texts.new.items
        ≡ map string_bytes texts.old.items ++ text_of (value_view name.now) ∷ []) }
{
    let text = String::from_str(alloc, name.as_str().unwrap_or(""))?;
    match texts.push(text) {
        Ok(()) => Ok(()),
        Err(_) => Err(AllocError),
    }
}
