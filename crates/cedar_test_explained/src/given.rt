//! Policies, stores and requests of the facts of a setting.
use crate::answer::Unanswered;
use crate::setting::Setting;
use cedar_decisions::ErrorHandling;
use cedar_extensions::Extensions;
use cedar_functions::Functions;
use cedar_hierarchy::{ClosureError, close_hierarchy};
use cedar_json_reader::{JsonError, context_from_json_str, entities_from_json_str};
use cedar_layers::policies::{Entities, Entity, Policy, PolicyID};
use cedar_names::{EntityType, EntityUID};
use cedar_requests::{Context, EntityUIDEntry, Request};
use cedar_text_lexer::errors::ReadError;
use cedar_text_parser::{
    ParseError, ParsedPolicies, parse_entity_uid, parse_name, parse_policies, parse_policy,
};
use std::alloc::Global;
use std::rc::RcStr;

/// More levels than any text of a row has.
pub const LEVELS: usize = 1000;

/// The policies and templates of the text.
pub fn read_policies(alloc: Global, text: &str) -> Result<ParsedPolicies, Unanswered> {
    match parse_policies(alloc, text, LEVELS, &Functions::any()) {
        Ok(parsed) => Ok(parsed),
        Err(errors) => {
            let why = why_unparsed(&errors.first);
            drop(errors);
            Err(why)
        }
    }
}

/// The only policy or template of the text.
pub fn read_policy(alloc: Global, text: &str) -> Result<Policy, Unanswered> {
    let id = read_id(alloc, "policy0")?;
    match parse_policy(alloc, id, text, LEVELS, &Functions::any()) {
        Ok(policy) => Ok(policy),
        Err(error) => {
            let why = why_unparsed(&error);
            drop(error);
            Err(why)
        }
    }
}

/// The id.
pub fn read_id(alloc: Global, text: &str) -> Result<PolicyID, Unanswered> {
    let id = RcStr::from_str(alloc, text)?;
    Ok(PolicyID::from_string(id))
}

/// Why the text is no policy or expression.
pub fn why_unparsed(error: &ParseError) -> Unanswered {
    match error {
        ParseError::Read(error) => why_unread(*error),
        _ => Unanswered::Unreadable("a call is refused"),
    }
}

fn why_unread(error: ReadError) -> Unanswered {
    match error {
        ReadError::Memory => Unanswered::Memory,
        _ => Unanswered::Unreadable("the text can't be read"),
    }
}

/// The entity.
pub fn read_uid(alloc: Global, text: &str) -> Result<EntityUID, Unanswered> {
    match parse_entity_uid(alloc, text) {
        Ok(uid) => Ok(uid),
        Err(error) => Err(why_unread(error)),
    }
}

/// The type.
pub fn read_type(alloc: Global, text: &str) -> Result<EntityType, Unanswered> {
    match parse_name(alloc, text) {
        Ok(name) => Ok(EntityType::new(name)),
        Err(error) => Err(why_unread(error)),
    }
}

/// The store of the entities that stand in JSON.
pub fn read_store(alloc: Global, text: &str) -> Result<Entities, Unanswered> {
    match entities_from_json_str(alloc, text, &Extensions::all_available(), LEVELS) {
        Ok(entities) => closed(alloc, entities),
        Err(error) => Err(why_no_json(error)),
    }
}

fn closed(alloc: Global, entities: Vec<Entity>) -> Result<Entities, Unanswered> {
    match close_hierarchy(alloc, entities) {
        Ok(entities) => Ok(entities),
        Err(error) => {
            let why = match &error {
                ClosureError::Memory(_) => Unanswered::Memory,
                ClosureError::Cycle(_) => Unanswered::Unreadable("parents lead back"),
            };
            drop(error);
            Err(why)
        }
    }
}

fn why_no_json(error: JsonError) -> Unanswered {
    let why = match &error {
        JsonError::Memory(_) => Unanswered::Memory,
        _ => Unanswered::Unreadable("the JSON can't be read"),
    };
    drop(error);
    why
}

/// The request of the setting, with this resource.
pub fn read_request(
    alloc: Global,
    setting: Setting<'_>,
    resource: EntityUIDEntry,
) -> Result<Request, Unanswered> {
    let principal = read_entry(alloc, setting.principal)?;
    let action = read_entry(alloc, setting.action)?;
    let context = read_context(alloc, setting.context)?;
    Ok(Request::new_with_unknowns(principal, action, resource, Some(context)))
}

/// The entity, as an entry of a request.
pub fn read_entry(alloc: Global, text: &str) -> Result<EntityUIDEntry, Unanswered> {
    let uid = read_uid(alloc, text)?;
    Ok(EntityUIDEntry::known(uid, None))
}

fn read_context(alloc: Global, text: &str) -> Result<Context, Unanswered> {
    match context_from_json_str(alloc, text, &Extensions::all_available(), LEVELS) {
        Ok(context) => Ok(context),
        Err(error) => Err(why_no_json(error)),
    }
}

/// How errors are handled.
pub fn mode_of(setting: Setting<'_>) -> ErrorHandling {
    if setting.errors == "forbid" {
        ErrorHandling::ForbidOnError
    } else {
        ErrorHandling::Skip
    }
}
