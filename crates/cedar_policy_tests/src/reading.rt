#![tactic(auto, using(cedar_json_reader::proofs::Views::views))]
//! Tests of policies.
ghost use Rattle.std.specs.Prelude.{◌≡◌, not, is_some, option_map};
ghost use Rattle.std.specs.Option.{option_and_then};
ghost use Rattle.json.specs.Find.{as_number, as_object, as_str, get};
ghost use Rattle.json.specs.Value.{value_view, items_view, members_view};
ghost use Rattle.cedar_decisions.specs.Decisions.{decision_view};
ghost use Rattle.cedar_json_reader.specs.Numbers.{long_in, signed_long_of_text};
ghost use Rattle.cedar_policy_tests.specs.Said as specs;
ghost use Rattle.cedar_policy_tests.specs.Views.{test_view, reason_view, text_seen, json_seen};

use crate::values::items_in;
use cedar_decisions::Decision;
use json::Value;

/// A test of policies.
#[derive(Clone, Copy)]
pub struct PolicyTest<'v, 'a> {
    /// What it is called.
    pub name: &'a str,
    /// The request that is asked.
    pub request: &'v Value<'a>,
    /// The entities over which it is asked, if it has its own.
    pub entities: Option<&'v Value<'a>>,
    /// The decision that is expected.
    pub decision: Decision,
    /// The names of the policies that are to determine it, all of them texts, if they are named.
    pub reason: Option<&'v Vec<Value<'a>>>,
    /// How many policies are to err, if that is said.
    pub num_errors: Option<i64>,
}

/// The test that the value says. None where it is no object, has another member than those of a test, lacks one that each
/// test has, or has one that is of another kind.
pub(crate) fn test_in<'v, 'a>(value: &'v Value<'a>) -> Option<PolicyTest<'v, 'a>>
    ensures { option_map test_view result ≡ specs.test_in (value_view value.now) }
{
    test_of(
        has_test_keys(value),
        text_at(value, "name"),
        value.get("request"),
        value.get("entities"),
        decision_in(value),
        reason_in(value),
        count_in(value),
    )
}

// The test of these members, none of which is lacking, but for the entities, where no member is too much.
fn test_of<'v, 'a>(
    has_test_keys: bool,
    name: Option<&'a str>,
    request: Option<&'v Value<'a>>,
    entities: Option<&'v Value<'a>>,
    decision: Option<Decision>,
    reason: Option<Option<&'v Vec<Value<'a>>>>,
    num_errors: Option<Option<i64>>,
) -> Option<PolicyTest<'v, 'a>>
    ensures { option_map test_view result ≡ specs.test_of has_test_keys (option_map text_seen name.entry)
        (option_map json_seen request.entry) (option_map json_seen entities.entry) (option_map decision_view decision)
        (option_map (option_map reason_view) reason.entry) num_errors }
{
    if !has_test_keys {
        return None;
    }
    match name {
        Some(name) => match request {
            Some(request) => match decision {
                Some(decision) => match reason {
                    Some(reason) => match num_errors {
                        Some(num_errors) => Some(PolicyTest {
                            name,
                            request,
                            entities,
                            decision,
                            reason,
                            num_errors,
                        }),
                        None => None,
                    },
                    None => None,
                },
                None => None,
            },
            None => None,
        },
        None => None,
    }
}

// Whether the value is an object that has no member besides those of a test.
fn has_test_keys(value: &Value<'_>) -> bool
    ensures { result ≡ specs.has_test_keys (as_object (value_view value.now)) }
{
    match value {
        Value::Object(members) => has_no_other(members),
        Value::Null => false,
        Value::Bool(_) => false,
        Value::Number(_) => false,
        Value::String(_) => false,
        Value::Array(_) => false,
    }
}

fn has_no_other<'a>(members: &Vec<(&'a str, Value<'a>)>) -> bool
    ensures { result ≡ not (is_some (specs.first_other (members_view members.now.items))) }
{
    match first_other(members) {
        Some(_) => false,
        None => true,
    }
}

/// The first key that is none of a test's.
pub(crate) fn first_other<'v, 'a>(members: &'v Vec<(&'a str, Value<'a>)>) -> Option<&'v str>
    ensures { option_map (λ k. k.now) result ≡ specs.first_other (members_view members.now.items) }
{
    'members: for member in members {
        if !is_test_key(member.0) {
            return Some(member.0);
        }
    }
    None
}

fn is_test_key(key: &str) -> bool
    ensures { result ≡ specs.is_test_key key.now }
{
    key == "name"
        || key == "request"
        || key == "entities"
        || key == "decision"
        || key == "reason"
        || key == "num_errors"
}

/// The text at this key.
pub(crate) fn text_at<'a>(value: &Value<'a>, key: &str) -> Option<&'a str>
    ensures { option_map (λ t. t.now) result ≡ specs.text_at key.now (value_view value.now) }
{
    match value.get(key) {
        Some(found) => found.as_str(),
        None => None,
    }
}

/// The decision at `decision`.
pub(crate) fn decision_in(value: &Value<'_>) -> Option<Decision>
    ensures { option_map decision_view result ≡ specs.decision_in (value_view value.now) }
{
    match text_at(value, "decision") {
        Some(word) => decision_of(word),
        None => None,
    }
}

fn decision_of(word: &str) -> Option<Decision>
    ensures { option_map decision_view result ≡ specs.decision_of word.now }
{
    if word == "allow" {
        Some(Decision::Allow)
    } else if word == "deny" {
        Some(Decision::Deny)
    } else {
        None
    }
}

/// The names at `reason`, if there are any: none where something else stands there than an array of texts.
pub(crate) fn reason_in<'v, 'a>(value: &'v Value<'a>) -> Option<Option<&'v Vec<Value<'a>>>>
    ensures { option_map (option_map reason_view) result ≡ specs.reason_in (value_view value.now) }
{
    match value.get("reason") {
        Some(found) => names_in(found),
        None => Some(None),
    }
}

fn names_in<'v, 'a>(value: &'v Value<'a>) -> Option<Option<&'v Vec<Value<'a>>>>
    ensures { option_map (option_map reason_view) result ≡ specs.names_in (value_view value.now) }
{
    match items_in(value) {
        Some(items) => if are_texts(items) {
            Some(Some(items))
        } else {
            None
        },
        None => None,
    }
}

fn are_texts(items: &Vec<Value<'_>>) -> bool
    ensures { result ≡ specs.are_texts (items_view items.now.items) }
{
    'items: for item in items {
        if item.as_str().is_none() {
            return false;
        }
    }
    true
}

/// The count at `num_errors`, if there is one: none where something else stands there than an integer that is not negative.
pub(crate) fn count_in(value: &Value<'_>) -> Option<Option<i64>>
    ensures { result ≡ specs.count_in (value_view value.now) }
{
    match value.get("num_errors") {
        Some(found) => natural_in(found),
        None => Some(None),
    }
}

fn natural_in(number: &Value<'_>) -> Option<Option<i64>>
    ensures { result ≡ specs.natural_in (value_view number.now) }
{
    match long_in(number) {
        Some(long) => if long >= 0 { Some(Some(long)) } else { None },
        None => None,
    }
}

// The long that a number writes. `-0` is none.
fn long_in(number: &Value<'_>) -> Option<i64>
    ensures { result ≡ long_in (value_view number.now) }
{
    match number.as_number() {
        Some(text) => if text == "-0" {
            None
        } else {
            signed_long_in(number)
        },
        None => None,
    }
}

// The same, and zero for `-0`.
fn signed_long_in(number: &Value<'_>) -> Option<i64>
    ensures { result ≡ option_and_then signed_long_of_text (as_number (value_view number.now)) }
{
    number.as_i64()
}
