#![tactic(auto, using(crate::proofs::Views::views, crate::proofs::Numbers::numbers))]
//! Where a document has what is told.
ghost use Rattle.std.specs.Prelude.{◌≡◌, option_map};
ghost use Rattle.json.specs.Tree.{HasNumbers};
ghost use Rattle.json.specs.Value.{value_view, members_view};
ghost use Rattle.json.specs.Json.{object};
ghost use Rattle.cedar_log.specs.Lines.{within, nth, part, given, is_empty_object, HaveNumbers};

use json::Value;

/// The member of this name, if there is one.
pub(crate) fn within<'v, 'a>(value: Option<&'v Value<'a>>, name: &str) -> Option<&'v Value<'a>>
    requires { HaveNumbers (option_map (λ v. value_view v.now) value) }
    ensures value { option_map (λ v. value_view v.now) result
        ≡ within name.now (option_map (λ v. value_view v.now) value.entry) }
    ensures numbers { HaveNumbers (option_map (λ v. value_view v.now) result) }
{
    match value {
        Some(value) => value.get(name),
        None => None,
    }
}

/// The item at this place, if there is one.
pub(crate) fn nth<'v, 'a>(value: Option<&'v Value<'a>>, index: usize) -> Option<&'v Value<'a>>
    requires { HaveNumbers (option_map (λ v. value_view v.now) value) }
    ensures value { option_map (λ v. value_view v.now) result
        ≡ nth index (option_map (λ v. value_view v.now) value.entry) }
    ensures numbers { HaveNumbers (option_map (λ v. value_view v.now) result) }
{
    match value {
        Some(value) => value.at(index),
        None => None,
    }
}

/// The item's own member, or else the whole document's.
pub(crate) fn part<'v, 'a>(
    item: Option<&'v Value<'a>>,
    whole: &'v Value<'a>,
    name: &str,
) -> Option<&'v Value<'a>>
    requires item { HaveNumbers (option_map (λ v. value_view v.now) item) }
    requires whole { HasNumbers (value_view whole.now) }
    ensures value { option_map (λ v. value_view v.now) result
        ≡ part name.now (option_map (λ v. value_view v.now) item.entry) (value_view whole.now) }
    ensures numbers { HaveNumbers (option_map (λ v. value_view v.now) result) }
{
    match within(item, name) {
        Some(own) => Some(own),
        None => whole.get(name),
    }
}

/// What is there, but for an object that has nothing.
pub(crate) fn given<'v, 'a>(value: Option<&'v Value<'a>>) -> Option<&'v Value<'a>>
    requires { HaveNumbers (option_map (λ v. value_view v.now) value) }
    ensures value { option_map (λ v. value_view v.now) result
        ≡ given (option_map (λ v. value_view v.now) value.entry) }
    ensures numbers { HaveNumbers (option_map (λ v. value_view v.now) result) }
{
    match value {
        Some(value) => {
            if is_empty_object(value) {
                None
            } else {
                Some(value)
            }
        }
        None => None,
    }
}

fn is_empty_object(value: &Value<'_>) -> bool
    ensures { result ≡ is_empty_object (value_view value.now) }
{
    match value {
        Value::Object(members) => has_none(members),
        Value::Null => false,
        Value::Bool(_) => false,
        Value::Number(_) => false,
        Value::String(_) => false,
        Value::Array(_) => false,
    }
}

fn has_none(members: &Vec<(&str, Value<'_>)>) -> bool
    ensures { result ≡ is_empty_object (object (members_view members.now.items)) }
{
    members.as_slice().is_empty()
}
