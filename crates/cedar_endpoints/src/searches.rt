#![tactic(auto, using(crate::proofs::Views::views))]
//! What a document asks that searches.
ghost use Rattle.std.specs.Prelude.{◌≡◌, option_map, codes};
ghost use Rattle.json.specs.Find.{as_str, get};
ghost use Rattle.json.specs.Value.{value_view};
ghost use Rattle.cedar_endpoints.specs.Asked.{told, and_then, named_view, entity_said, action_said};
ghost use Rattle.cedar_endpoints.specs.Asked.{context_said, text_in, properties_view};
ghost use Rattle.cedar_endpoints.specs.Searches as searches;

use crate::asked::{
    Fault, Keys, Named, Properties, action_of, bare_fault, context_of, entity_of, given_in,
    object_fault, text_in, text_of,
};
use json::Value;

/// Which part of an evaluation is searched for.
#[derive(Clone, Copy, Debug, PartialEq, Eq)]
pub enum Sought {
    /// Who may do it.
    Subject,
    /// What may be done.
    Action,
    /// What it may be done with.
    Resource,
}

/// What is known of an evaluation of which one part is searched for.
#[derive(Clone, Copy)]
pub enum Parts<'v> {
    /// Subjects of this type are searched for.
    Subject {
        type_name: &'v str,
        action: &'v str,
        resource: Named<'v>,
    },
    /// Actions are searched for.
    Action {
        subject: Named<'v>,
        resource: Named<'v>,
    },
    /// Resources of this type are searched for.
    Resource {
        subject: Named<'v>,
        action: &'v str,
        type_name: &'v str,
    },
}

/// What is searched for, the context, where one is given, and the properties of the parts that are known.
#[derive(Clone, Copy)]
pub struct Search<'v, 'a> {
    pub parts: Parts<'v>,
    pub context: Option<&'v Value<'a>>,
    pub properties: Properties<'v, 'a>,
}

/// A search, and the token of the page that is asked for, where that is not the first.
#[derive(Clone, Copy)]
pub struct PageSearch<'v, 'a> {
    pub search: Search<'v, 'a>,
    pub token: Option<&'v str>,
}

/// What the document searches for. Refuses what is no object, a member that is unexpected, missing or of another kind,
/// and properties of what is searched for, unless they are empty: the first of these, in the order subject, action,
/// resource, context, page. The id of a subject or a resource that is searched for is not looked at.
pub fn read_search<'v, 'a>(
    sought: Sought,
    value: &'v Value<'a>,
) -> Result<PageSearch<'v, 'a>, Fault>
    ensures { told searches.page_search_view result ≡ searches.search_said sought (value_view value.now) }
{
    match object_fault(keys_of(sought), "", value) {
        Some(fault) => Err(fault),
        None => search_in(sought, value),
    }
}

fn keys_of(sought: Sought) -> Keys
    ensures { result ≡ searches.keys_of sought }
{
    match sought {
        Sought::Subject => Keys::Search,
        Sought::Action => Keys::ActionSearch,
        Sought::Resource => Keys::Search,
    }
}

fn search_in<'v, 'a>(sought: Sought, value: &'v Value<'a>) -> Result<PageSearch<'v, 'a>, Fault>
    ensures { told searches.page_search_view result
        ≡ and_then (searches.with_context (value_view value.now)) (searches.parts_said sought (value_view value.now)) }
{
    match parts_of(sought, value) {
        Ok(parts) => with_context(value, parts),
        Err(fault) => Err(fault),
    }
}

fn parts_of<'v, 'a>(sought: Sought, value: &'v Value<'a>) -> Result<Parts<'v>, Fault>
    ensures { told searches.parts_view result ≡ searches.parts_said sought (value_view value.now) }
{
    match sought {
        Sought::Subject => subject_parts(value),
        Sought::Action => action_parts(value),
        Sought::Resource => resource_parts(value),
    }
}

// ---- subjects

fn subject_parts<'v, 'a>(value: &'v Value<'a>) -> Result<Parts<'v>, Fault>
    ensures { told searches.parts_view result ≡ searches.subject_parts (value_view value.now) }
{
    match type_of(".subject", value.get("subject")) {
        Ok(type_name) => subject_by(value, type_name),
        Err(fault) => Err(fault),
    }
}

fn subject_by<'v, 'a>(value: &'v Value<'a>, type_name: &'v str) -> Result<Parts<'v>, Fault>
    ensures { told searches.parts_view result ≡ searches.subject_by (value_view value.now) type_name.now }
{
    match action_of(value.get("action")) {
        Ok(action) => subject_with(value, type_name, action),
        Err(fault) => Err(fault),
    }
}

fn subject_with<'v, 'a>(
    value: &'v Value<'a>,
    type_name: &'v str,
    action: &'v str,
) -> Result<Parts<'v>, Fault>
    ensures { told searches.parts_view result
        ≡ searches.subject_with (value_view value.now) type_name.now action.now }
{
    match entity_of(".resource", value.get("resource")) {
        Ok(resource) => Ok(Parts::Subject {
            type_name,
            action,
            resource,
        }),
        Err(fault) => Err(fault),
    }
}

// ---- actions

fn action_parts<'v, 'a>(value: &'v Value<'a>) -> Result<Parts<'v>, Fault>
    ensures { told searches.parts_view result ≡ searches.action_parts (value_view value.now) }
{
    match entity_of(".subject", value.get("subject")) {
        Ok(subject) => action_with(value, subject),
        Err(fault) => Err(fault),
    }
}

fn action_with<'v, 'a>(value: &'v Value<'a>, subject: Named<'v>) -> Result<Parts<'v>, Fault>
    ensures { told searches.parts_view result
        ≡ searches.action_with (value_view value.now) (named_view subject.entry) }
{
    match entity_of(".resource", value.get("resource")) {
        Ok(resource) => Ok(Parts::Action { subject, resource }),
        Err(fault) => Err(fault),
    }
}

// ---- resources

fn resource_parts<'v, 'a>(value: &'v Value<'a>) -> Result<Parts<'v>, Fault>
    ensures { told searches.parts_view result ≡ searches.resource_parts (value_view value.now) }
{
    match entity_of(".subject", value.get("subject")) {
        Ok(subject) => resource_by(value, subject),
        Err(fault) => Err(fault),
    }
}

fn resource_by<'v, 'a>(value: &'v Value<'a>, subject: Named<'v>) -> Result<Parts<'v>, Fault>
    ensures { told searches.parts_view result
        ≡ searches.resource_by (value_view value.now) (named_view subject.entry) }
{
    match action_of(value.get("action")) {
        Ok(action) => resource_with(value, subject, action),
        Err(fault) => Err(fault),
    }
}

fn resource_with<'v, 'a>(
    value: &'v Value<'a>,
    subject: Named<'v>,
    action: &'v str,
) -> Result<Parts<'v>, Fault>
    ensures { told searches.parts_view result
        ≡ searches.resource_with (value_view value.now) (named_view subject.entry) action.now }
{
    match type_of(".resource", value.get("resource")) {
        Ok(type_name) => Ok(Parts::Resource {
            subject,
            action,
            type_name,
        }),
        Err(fault) => Err(fault),
    }
}

// ---- a type

fn type_of<'v>(part: &'static str, value: Option<&'v Value<'_>>) -> Result<&'v str, Fault>
    ensures { told (λ t. t.now) result
        ≡ searches.type_said part.now (option_map (λ v. value_view v.now) value.entry) }
{
    match value {
        Some(value) => type_in(part, value),
        None => Err(Fault {
            part,
            member: "",
            reason: "missing",
        }),
    }
}

fn type_in<'v>(part: &'static str, value: &'v Value<'_>) -> Result<&'v str, Fault>
    ensures { told (λ t. t.now) result ≡ searches.type_in part.now (value_view value.now) }
{
    match bare_fault(Keys::Entity, part, value) {
        Some(fault) => Err(fault),
        None => text_of(part, ".type", value.get("type")),
    }
}

// ---- the context and the page

fn with_context<'v, 'a>(value: &'v Value<'a>, parts: Parts<'v>) -> Result<PageSearch<'v, 'a>, Fault>
    ensures { told searches.page_search_view result
        ≡ searches.with_context (value_view value.now) (searches.parts_view parts.entry) }
{
    match context_of(value.get("context")) {
        Ok(context) => with_page(value, search_of(value, parts, context)),
        Err(fault) => Err(fault),
    }
}

fn search_of<'v, 'a>(
    value: &'v Value<'a>,
    parts: Parts<'v>,
    context: Option<&'v Value<'a>>,
) -> Search<'v, 'a>
    ensures { searches.search_view result
        ≡ searches.search_of (value_view value.now) (searches.parts_view parts.entry)
        (option_map (λ v. value_view v.now) context.entry) }
{
    Search {
        parts,
        context,
        properties: known_properties(parts, value),
    }
}

// Of the parts that are known.
fn known_properties<'v, 'a>(parts: Parts<'v>, value: &'v Value<'a>) -> Properties<'v, 'a>
    ensures { properties_view result
        ≡ searches.known_properties (searches.parts_view parts.entry) (value_view value.now) }
{
    match parts {
        Parts::Subject { .. } => Properties {
            subject: None,
            action: given_in(value.get("action")),
            resource: given_in(value.get("resource")),
        },
        Parts::Action { .. } => Properties {
            subject: given_in(value.get("subject")),
            action: None,
            resource: given_in(value.get("resource")),
        },
        Parts::Resource { .. } => Properties {
            subject: given_in(value.get("subject")),
            action: given_in(value.get("action")),
            resource: None,
        },
    }
}

fn with_page<'v, 'a>(
    value: &'v Value<'a>,
    search: Search<'v, 'a>,
) -> Result<PageSearch<'v, 'a>, Fault>
    ensures { told searches.page_search_view result
        ≡ searches.with_page (value_view value.now) (searches.search_view search.entry) }
{
    match token_of(value.get("page")) {
        Ok(token) => Ok(PageSearch { search, token }),
        Err(fault) => Err(fault),
    }
}

fn token_of<'v>(page: Option<&'v Value<'_>>) -> Result<Option<&'v str>, Fault>
    ensures { told (option_map (λ t. t.now)) result
        ≡ searches.token_said (option_map (λ v. value_view v.now) page.entry) }
{
    match page {
        Some(page) => token_in(page),
        None => Ok(None),
    }
}

fn token_in<'v>(page: &'v Value<'_>) -> Result<Option<&'v str>, Fault>
    ensures { told (option_map (λ t. t.now)) result ≡ searches.token_in (value_view page.now) }
{
    match object_fault(Keys::Page, ".page", page) {
        Some(fault) => Err(fault),
        None => token_at(page.get("token")),
    }
}

fn token_at<'v>(token: Option<&'v Value<'_>>) -> Result<Option<&'v str>, Fault>
    ensures { told (option_map (λ t. t.now)) result
        ≡ searches.token_at (option_map (λ v. value_view v.now) token.entry) }
{
    match token {
        Some(token) => token_text(token),
        None => Ok(None),
    }
}

fn token_text<'v>(token: &'v Value<'_>) -> Result<Option<&'v str>, Fault>
    ensures { told (option_map (λ t. t.now)) result
        ≡ and_then searches.some_token (text_in (codes ".page") (codes ".token") (as_str (value_view token.now))) }
{
    match text_in(".page", ".token", token) {
        Ok(token) => Ok(Some(token)),
        Err(fault) => Err(fault),
    }
}
