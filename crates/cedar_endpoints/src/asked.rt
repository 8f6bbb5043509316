#![tactic(auto, using(crate::proofs::Views::views))]
//! What an AuthZEN document asks.
ghost use Rattle.std.specs.Prelude.{◌≡◌, option_map, Some};
ghost use Rattle.std.specs.Option.{option_or};
ghost use Rattle.json.specs.Find.{as_object, as_str, get};
ghost use Rattle.json.specs.Value.{value_view, members_view};
ghost use Rattle.cedar_endpoints.specs.Asked as asked;

use json::Value;

/// What is wrong with a document.
#[derive(Clone, Copy, Debug)]
pub struct Fault {
    /// The part that is at fault, such as `.subject`; empty for the whole.
    pub part: &'static str,
    /// The member of it, such as `.type`; empty for the part itself.
    pub member: &'static str,
    /// Why.
    pub reason: &'static str,
}

/// A type and an id.
#[derive(Clone, Copy)]
pub struct Named<'v> {
    pub type_name: &'v str,
    pub id: &'v str,
}

/// Who asks, the name of what is to be done, what it is to be done with, the context, where one is given, and properties.
#[derive(Clone, Copy)]
pub struct Evaluation<'v, 'a> {
    pub subject: Named<'v>,
    pub action: &'v str,
    pub resource: Named<'v>,
    pub context: Option<&'v Value<'a>>,
    pub properties: Properties<'v, 'a>,
}

/// The properties that are given of each part: where there are some, an object with a member at least.
#[derive(Clone, Copy)]
pub struct Properties<'v, 'a> {
    /// Of who asks.
    pub subject: Option<&'v Value<'a>>,
    /// Of what is to be done.
    pub action: Option<&'v Value<'a>>,
    /// Of what it is to be done with.
    pub resource: Option<&'v Value<'a>>,
}

/// Which members an object may have.
#[derive(Clone, Copy)]
pub enum Keys {
    /// Those of an evaluation.
    Evaluation,
    /// Those, and the ones of several evaluations.
    Evaluations,
    /// Those of a search for subjects or resources.
    Search,
    /// Those of a search for actions.
    ActionSearch,
    /// Those of the page that is asked for.
    Page,
    /// Those of a subject and of a resource.
    Entity,
    /// Those of an action.
    Action,
    /// Those of the options of several evaluations.
    Options,
    /// Those of Cedar's own request.
    Request,
    /// Those of an entity in it.
    Uid,
    /// That of an entity which stands at `__entity`.
    Escape,
}

/// What the document asks by itself. Refuses what is no object, and a member that is unexpected, missing or of another
/// kind: the first of these, in the order subject, action, resource, context. What stands in properties is not looked
/// at; empty ones are none.
pub fn read_evaluation<'v, 'a>(value: &'v Value<'a>) -> Result<Evaluation<'v, 'a>, Fault>
    ensures { asked.told asked.evaluation_view result ≡ asked.evaluation_said (value_view value.now) }
{
    evaluation_of(Keys::Evaluation, value, None)
}

/// What the object of these members asks, with the members of `all` where it has none.
pub(crate) fn evaluation_of<'v, 'a>(
    keys: Keys,
    value: &'v Value<'a>,
    all: Option<&'v Value<'a>>,
) -> Result<Evaluation<'v, 'a>, Fault>
    ensures { asked.told asked.evaluation_view result
        ≡ asked.evaluation_of keys (value_view value.now) (option_map (λ v. value_view v.now) all.entry) }
{
    match object_fault(keys, "", value) {
        Some(fault) => Err(fault),
        None => parts_of(value, all),
    }
}

fn parts_of<'v, 'a>(
    value: &'v Value<'a>,
    all: Option<&'v Value<'a>>,
) -> Result<Evaluation<'v, 'a>, Fault>
    ensures { asked.told asked.evaluation_view result
        ≡ asked.parts_said (value_view value.now) (option_map (λ v. value_view v.now) all.entry) }
{
    match entity_of(".subject", member_of("subject", value, all)) {
        Ok(subject) => with_action(value, all, subject),
        Err(fault) => Err(fault),
    }
}

fn with_action<'v, 'a>(
    value: &'v Value<'a>,
    all: Option<&'v Value<'a>>,
    subject: Named<'v>,
) -> Result<Evaluation<'v, 'a>, Fault>
    ensures { asked.told asked.evaluation_view result
        ≡ asked.with_action (value_view value.now) (option_map (λ v. value_view v.now) all.entry)
        (asked.named_view subject.entry) }
{
    match action_of(member_of("action", value, all)) {
        Ok(action) => with_resource(value, all, subject, action),
        Err(fault) => Err(fault),
    }
}

fn with_resource<'v, 'a>(
    value: &'v Value<'a>,
    all: Option<&'v Value<'a>>,
    subject: Named<'v>,
    action: &'v str,
) -> Result<Evaluation<'v, 'a>, Fault>
    ensures { asked.told asked.evaluation_view result
        ≡ asked.with_resource (value_view value.now) (option_map (λ v. value_view v.now) all.entry)
        (asked.named_view subject.entry) action.now }
{
    match entity_of(".resource", member_of("resource", value, all)) {
        Ok(resource) => with_context(value, all, subject, action, resource),
        Err(fault) => Err(fault),
    }
}

fn with_context<'v, 'a>(
    value: &'v Value<'a>,
    all: Option<&'v Value<'a>>,
    subject: Named<'v>,
    action: &'v str,
    resource: Named<'v>,
) -> Result<Evaluation<'v, 'a>, Fault>
    ensures { asked.told asked.evaluation_view result
        ≡ asked.with_context (value_view value.now) (option_map (λ v. value_view v.now) all.entry)
        (asked.named_view subject.entry) action.now (asked.named_view resource.entry) }
{
    match context_of(member_of("context", value, all)) {
        Ok(context) => Ok(Evaluation {
            subject,
            action,
            resource,
            context,
            properties: properties_of(value, all),
        }),
        Err(fault) => Err(fault),
    }
}

// The item's own member or, where it has none, the one that stands for all.
fn member_of<'v, 'a>(
    key: &str,
    value: &'v Value<'a>,
    all: Option<&'v Value<'a>>,
) -> Option<&'v Value<'a>>
    ensures { option_map (λ v. value_view v.now) result
        ≡ asked.member_of key.now (value_view value.now) (option_map (λ v. value_view v.now) all.entry) }
{
    match all {
        Some(all) => member_or(key, value, all),
        None => value.get(key),
    }
}

fn member_or<'v, 'a>(key: &str, value: &'v Value<'a>, all: &'v Value<'a>) -> Option<&'v Value<'a>>
    ensures { option_map (λ v. value_view v.now) result
        ≡ option_or (get key.now (value_view value.now)) (get key.now (value_view all.now)) }
{
    match value.get(key) {
        Some(own) => Some(own),
        None => all.get(key),
    }
}

// ---- parts

pub(crate) fn entity_of<'v, 'a>(
    part: &'static str,
    value: Option<&'v Value<'a>>,
) -> Result<Named<'v>, Fault>
    ensures { asked.told asked.named_view result
        ≡ asked.entity_said part.now (option_map (λ v. value_view v.now) value.entry) }
{
    match value {
        Some(value) => entity_in(part, value),
        None => Err(Fault {
            part,
            member: "",
            reason: "missing",
        }),
    }
}

fn entity_in<'v>(part: &'static str, value: &'v Value<'_>) -> Result<Named<'v>, Fault>
    ensures { asked.told asked.named_view result ≡ asked.entity_in part.now (value_view value.now) }
{
    match shape_fault(Keys::Entity, part, value) {
        Some(fault) => Err(fault),
        None => type_and_id(part, value),
    }
}

fn type_and_id<'v>(part: &'static str, value: &'v Value<'_>) -> Result<Named<'v>, Fault>
    ensures { asked.told asked.named_view result ≡ asked.type_and_id part.now (value_view value.now) }
{
    match text_of(part, ".type", value.get("type")) {
        Ok(type_name) => match text_of(part, ".id", value.get("id")) {
            Ok(id) => Ok(Named { type_name, id }),
            Err(fault) => Err(fault),
        },
        Err(fault) => Err(fault),
    }
}

pub(crate) fn action_of<'v>(value: Option<&'v Value<'_>>) -> Result<&'v str, Fault>
    ensures { asked.told (λ t. t.now) result
        ≡ asked.action_said (option_map (λ v. value_view v.now) value.entry) }
{
    match value {
        Some(value) => action_in(value),
        None => Err(Fault {
            part: ".action",
            member: "",
            reason: "missing",
        }),
    }
}

fn action_in<'v>(value: &'v Value<'_>) -> Result<&'v str, Fault>
    ensures { asked.told (λ t. t.now) result ≡ asked.action_in (value_view value.now) }
{
    match shape_fault(Keys::Action, ".action", value) {
        Some(fault) => Err(fault),
        None => text_of(".action", ".name", value.get("name")),
    }
}

pub(crate) fn context_of<'v, 'a>(
    value: Option<&'v Value<'a>>,
) -> Result<Option<&'v Value<'a>>, Fault>
    ensures { asked.told (option_map (λ v. value_view v.now)) result
        ≡ asked.context_said (option_map (λ v. value_view v.now) value.entry) }
{
    match value {
        Some(value) => context_in(value),
        None => Ok(None),
    }
}

fn context_in<'v, 'a>(value: &'v Value<'a>) -> Result<Option<&'v Value<'a>>, Fault>
    ensures { asked.told (option_map (λ v. value_view v.now)) result
        ≡ asked.context_in (value_view value.now) (as_object (value_view value.now)) }
{
    match object(value) {
        Some(_) => Ok(Some(value)),
        None => Err(Fault {
            part: ".context",
            member: "",
            reason: "not an object",
        }),
    }
}

pub(crate) fn text_of<'v>(
    part: &'static str,
    member: &'static str,
    value: Option<&'v Value<'_>>,
) -> Result<&'v str, Fault>
    ensures { asked.told (λ t. t.now) result
        ≡ asked.text_said part.now member.now (option_map (λ v. value_view v.now) value.entry) }
{
    match value {
        Some(value) => text_in(part, member, value),
        None => Err(Fault {
            part,
            member,
            reason: "missing",
        }),
    }
}

pub(crate) fn text_in<'v>(
    part: &'static str,
    member: &'static str,
    value: &'v Value<'_>,
) -> Result<&'v str, Fault>
    ensures { asked.told (λ t. t.now) result
        ≡ asked.text_in part.now member.now (as_str (value_view value.now)) }
{
    match value.as_str() {
        Some(text) => Ok(text),
        None => Err(Fault {
            part,
            member,
            reason: "not a string",
        }),
    }
}

// ---- shapes

// What is wrong with the shape of an object that may have properties.
fn shape_fault(keys: Keys, part: &'static str, value: &Value<'_>) -> Option<Fault>
    ensures { option_map asked.fault_view result ≡ asked.shape_fault keys part.now (value_view value.now) }
{
    match object_fault(keys, part, value) {
        Some(fault) => Some(fault),
        None => properties_fault(part, value.get("properties")),
    }
}

// The same of an object that may have none but empty ones.
pub(crate) fn bare_fault(keys: Keys, part: &'static str, value: &Value<'_>) -> Option<Fault>
    ensures { option_map asked.fault_view result ≡ asked.bare_fault keys part.now (value_view value.now) }
{
    match object_fault(keys, part, value) {
        Some(fault) => Some(fault),
        None => given_fault(part, value.get("properties")),
    }
}

// That it is no object, or has another member than these.
pub(crate) fn object_fault(keys: Keys, part: &'static str, value: &Value<'_>) -> Option<Fault>
    ensures { option_map asked.fault_view result ≡ asked.object_fault keys part.now (value_view value.now) }
{
    match object(value) {
        Some(members) => members_fault(keys, part, members),
        None => Some(Fault {
            part,
            member: "",
            reason: "not an object",
        }),
    }
}

fn members_fault(keys: Keys, part: &'static str, members: &Vec<(&str, Value<'_>)>) -> Option<Fault>
    ensures { option_map asked.fault_view result
        ≡ asked.other_fault part.now (asked.has_other keys (members_view members.now.items)) }
{
    if has_other(keys, members) {
        Some(Fault {
            part,
            member: "",
            reason: "an unexpected member",
        })
    } else {
        None
    }
}

fn has_other(keys: Keys, members: &Vec<(&str, Value<'_>)>) -> bool
    ensures { result ≡ asked.has_other keys (members_view members.now.items) }
{
    'members: for member in members {
        if !knows(keys, member.0) {
            return true;
        }
    }
    false
}

fn knows(keys: Keys, key: &str) -> bool
    ensures { result ≡ asked.knows keys key.now }
{
    match keys {
        Keys::Evaluation => is_evaluation_key(key),
        Keys::Evaluations => is_evaluation_key(key) || key == "evaluations" || key == "options",
        Keys::Search => is_evaluation_key(key) || key == "page",
        Keys::ActionSearch => is_action_search_key(key),
        Keys::Page => key == "token",
        Keys::Entity => key == "type" || key == "id" || key == "properties",
        Keys::Action => key == "name" || key == "properties",
        Keys::Options => key == "evaluations_semantic",
        Keys::Request => is_request_key(key),
        Keys::Uid => key == "type" || key == "id",
        Keys::Escape => key == "__entity",
    }
}

fn is_request_key(key: &str) -> bool
    ensures { result ≡ asked.is_request_key key.now }
{
    key == "principal"
        || key == "action"
        || key == "resource"
        || key == "context"
        || key == "entities"
        || key == "id"
}

fn is_evaluation_key(key: &str) -> bool
    ensures { result ≡ asked.is_evaluation_key key.now }
{
    key == "subject" || key == "action" || key == "resource" || key == "context"
}

fn is_action_search_key(key: &str) -> bool
    ensures { result ≡ asked.is_action_search_key key.now }
{
    key == "subject" || key == "resource" || key == "context" || key == "page"
}

fn properties_fault(part: &'static str, value: Option<&Value<'_>>) -> Option<Fault>
    ensures { option_map asked.fault_view result
        ≡ asked.properties_fault part.now (option_map (λ v. value_view v.now) value.entry) }
{
    match value {
        Some(value) => kind_fault(part, value),
        None => None,
    }
}

fn kind_fault(part: &'static str, value: &Value<'_>) -> Option<Fault>
    ensures { option_map asked.fault_view result
        ≡ asked.kind_fault part.now (as_object (value_view value.now)) }
{
    match object(value) {
        Some(_) => None,
        None => Some(Fault {
            part,
            member: ".properties",
            reason: "not an object",
        }),
    }
}

fn given_fault(part: &'static str, value: Option<&Value<'_>>) -> Option<Fault>
    ensures { option_map asked.fault_view result
        ≡ asked.given_fault part.now (option_map (λ v. value_view v.now) value.entry) }
{
    match value {
        Some(value) => some_fault(part, value),
        None => None,
    }
}

fn some_fault(part: &'static str, value: &Value<'_>) -> Option<Fault>
    ensures { option_map asked.fault_view result
        ≡ asked.some_fault part.now (as_object (value_view value.now)) }
{
    match object(value) {
        Some(members) => members_given_fault(part, members.as_slice()),
        None => Some(Fault {
            part,
            member: ".properties",
            reason: "not an object",
        }),
    }
}

fn members_given_fault(part: &'static str, members: &[(&str, Value<'_>)]) -> Option<Fault>
    ensures { option_map asked.fault_view result ≡ asked.some_fault part.now (Some (members_view members.now)) }
{
    if members.is_empty() {
        None
    } else {
        Some(Fault {
            part,
            member: ".properties",
            reason: "properties of what is searched for",
        })
    }
}

// ---- properties

// Those of the item's own members or, where it has none, of the ones that stand for all.
fn properties_of<'v, 'a>(value: &'v Value<'a>, all: Option<&'v Value<'a>>) -> Properties<'v, 'a>
    ensures { asked.properties_view result
        ≡ asked.properties_of (value_view value.now) (option_map (λ v. value_view v.now) all.entry) }
{
    Properties {
        subject: given_in(member_of("subject", value, all)),
        action: given_in(member_of("action", value, all)),
        resource: given_in(member_of("resource", value, all)),
    }
}

/// The properties of the part, unless there are none.
pub(crate) fn given_in<'v, 'a>(part: Option<&'v Value<'a>>) -> Option<&'v Value<'a>>
    ensures { option_map (λ v. value_view v.now) result
        ≡ asked.given_in (option_map (λ v. value_view v.now) part.entry) }
{
    match part {
        Some(part) => given_at(part.get("properties")),
        None => None,
    }
}

fn given_at<'v, 'a>(properties: Option<&'v Value<'a>>) -> Option<&'v Value<'a>>
    ensures { option_map (λ v. value_view v.now) result
        ≡ asked.given_at (option_map (λ v. value_view v.now) properties.entry) }
{
    match properties {
        Some(properties) => some_given(properties),
        None => None,
    }
}

fn some_given<'v, 'a>(properties: &'v Value<'a>) -> Option<&'v Value<'a>>
    ensures { option_map (λ v. value_view v.now) result ≡ asked.given_at (Some (value_view properties.now)) }
{
    if has_members(properties) {
        Some(properties)
    } else {
        None
    }
}

fn has_members(value: &Value<'_>) -> bool
    ensures { result ≡ asked.has_members (as_object (value_view value.now)) }
{
    match object(value) {
        Some(members) => has_some(members.as_slice()),
        None => false,
    }
}

fn has_some(members: &[(&str, Value<'_>)]) -> bool
    ensures { result ≡ asked.has_members (Some (members_view members.now)) }
{
    if members.is_empty() { false } else { true }
}

// The members, where the value is an object.
fn object<'v, 'a>(value: &'v Value<'a>) -> Option<&'v Vec<(&'a str, Value<'a>)>>
    ensures { option_map (λ ms. members_view ms.now.items) result ≡ as_object (value_view value.now) }
{
    match value {
        Value::Object(members) => Some(members),
        Value::Null => None,
        Value::Bool(_) => None,
        Value::Number(_) => None,
        Value::String(_) => None,
        Value::Array(_) => None,
    }
}
