#![tactic(auto, using(crate::proofs::Views::views))]
//! The shapes of the objects that stand for something else than a record.
ghost use Rattle.std.specs.Prelude.{◌≡◌, option_map};
ghost use Rattle.json.specs.Find.{as_object, as_array};
ghost use Rattle.json.specs.Value.{value_view, items_view, members_view};
ghost use Rattle.cedar_json_reader.specs.Shapes as shape;

use json::Value;

/// Two members.
#[derive(Clone, Copy)]
pub(crate) struct Two<'v, 'a> {
    first_key: &'v str,
    first: &'v Value<'a>,
    second_key: &'v str,
    second: &'v Value<'a>,
}

/// What a call is made of: what stands at `fn`, and the key and the value of the other member.
#[derive(Clone, Copy)]
pub(crate) struct CallShape<'v, 'a> {
    pub(crate) function: &'v Value<'a>,
    pub(crate) key: &'v str,
    pub(crate) argument: &'v Value<'a>,
}

/// The members, where the value is an object.
pub(crate) fn object<'v, 'a>(value: &'v Value<'a>) -> Option<&'v Vec<(&'a str, Value<'a>)>>
    ensures { option_map (λ ms. members_view ms.now.items) result ≡ as_object (value_view value.now) }
{
    match value {
        Value::Object(members) => Some(members),
        Value::Null => None,
        Value::Bool(_) => None,
        Value::Number(_) => None,
        Value::String(_) => None,
        Value::Array(_) => None,
    }
}

/// The items, where the value is an array.
pub(crate) fn array<'v, 'a>(value: &'v Value<'a>) -> Option<&'v Vec<Value<'a>>>
    ensures { option_map (λ js. items_view js.now.items) result ≡ as_array (value_view value.now) }
{
    match value {
        Value::Array(items) => Some(items),
        Value::Null => None,
        Value::Bool(_) => None,
        Value::Number(_) => None,
        Value::String(_) => None,
        Value::Object(_) => None,
    }
}

/// The member, where there is one alone.
pub(crate) fn sole<'v, 'a>(
    members: &'v Vec<(&'a str, Value<'a>)>,
) -> Option<(&'v str, &'v Value<'a>)>
    ensures { option_map (λ m. (m.0.now, value_view m.1.now)) result ≡ shape.sole (members_view members.now.items) }
{
    if members.len() == 1 {
        let member = &members[0];
        Some((member.0, &member.1))
    } else {
        None
    }
}

// The members, where there are two.
fn two_in<'v, 'a>(members: &'v Vec<(&'a str, Value<'a>)>) -> Option<Two<'v, 'a>>
    ensures { option_map shape.two_view result ≡ shape.two_in (members_view members.now.items) }
{
    if members.len() == 2 {
        let first = &members[0];
        let second = &members[1];
        Some(Two {
            first_key: first.0,
            first: &first.1,
            second_key: second.0,
            second: &second.1,
        })
    } else {
        None
    }
}

fn two_of<'v, 'a>(value: &'v Value<'a>) -> Option<Two<'v, 'a>>
    ensures { option_map shape.two_view result ≡ shape.two_of (value_view value.now) }
{
    match object(value) {
        Some(members) => two_in(members),
        None => None,
    }
}

/// The function and the argument of a call, in either order.
pub(crate) fn call_shape<'v, 'a>(call: &'v Value<'a>) -> Option<CallShape<'v, 'a>>
    ensures { option_map shape.parts_view result ≡ shape.call_shape (value_view call.now) }
{
    match two_of(call) {
        Some(two) => call_of(two),
        None => None,
    }
}

fn call_of<'v, 'a>(two: Two<'v, 'a>) -> Option<CallShape<'v, 'a>>
    ensures { option_map shape.parts_view result ≡ shape.call_of (shape.two_view two.entry) }
{
    if two.first_key == "fn" {
        Some(CallShape {
            function: two.first,
            key: two.second_key,
            argument: two.second,
        })
    } else if two.second_key == "fn" {
        Some(CallShape {
            function: two.second,
            key: two.first_key,
            argument: two.first,
        })
    } else {
        None
    }
}

/// The type and the id of an entity, in either order.
pub(crate) fn uid_shape<'v, 'a>(value: &'v Value<'a>) -> Option<(&'v str, &'v str)>
    ensures { shape.texts_in result ≡ shape.uid_shape (value_view value.now) }
{
    match two_of(value) {
        Some(two) => uid_of(two),
        None => None,
    }
}

fn uid_of<'v, 'a>(two: Two<'v, 'a>) -> Option<(&'v str, &'v str)>
    ensures { shape.texts_in result ≡ shape.uid_of (shape.two_view two.entry) }
{
    if two.first_key == "type" && two.second_key == "id" {
        both_texts(two.first.as_str(), two.second.as_str())
    } else if two.first_key == "id" && two.second_key == "type" {
        both_texts(two.second.as_str(), two.first.as_str())
    } else {
        None
    }
}

fn both_texts<'v>(ty: Option<&'v str>, id: Option<&'v str>) -> Option<(&'v str, &'v str)>
    ensures { shape.texts_in result ≡ shape.both_texts (shape.text_in ty.entry) (shape.text_in id.entry) }
{
    match ty {
        Some(ty) => match id {
            Some(id) => Some((ty, id)),
            None => None,
        },
        None => None,
    }
}
