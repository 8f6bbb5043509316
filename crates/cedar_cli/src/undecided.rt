//! Why the decision on a request stays open of which nothing is unknown.
use crate::left::{entities_left, unknown_names};
use crate::warnings::{first_of, others, push_warning};
use cedar_policy_core::ast::{EntityUID, EntityUIDEntry, Request};
use cedar_policy_core::authorizer::PartialResponse;
use std::alloc::{AllocError, Global};
use std::rc::RcStr;

/// Tells why the decision stays open, where it does and nothing of the request is unknown: the entities that are not
/// there, or the unknowns that stand in the policies or in the entities.
pub(crate) fn push_why_open(
    alloc: Global,
    response: &PartialResponse,
    warnings: &mut String,
) -> Result<(), AllocError> {
    if response.decision().is_some() || !is_known(&response.request) {
        return Ok(());
    }
    let mut line = String::new(alloc);
    line.push_str("the request is known, and its decision stays open:")?;
    let entities = entities_left(alloc, response)?;
    let pushed = push_entities(alloc, &entities, &mut line);
    drop(entities);
    pushed?;
    let names = unknown_names(alloc, response)?;
    let pushed = push_names(alloc, &names, &mut line);
    drop(names);
    pushed?;
    push_warning(alloc, line.as_str(), warnings)
}

fn is_known(request: &Request) -> bool {
    is_entity(request.principal())
        && is_entity(request.action())
        && is_entity(request.resource())
        && has_values(request)
}

fn is_entity(entry: &EntityUIDEntry) -> bool {
    entry.uid().is_some()
}

fn has_values(request: &Request) -> bool {
    match request.context() {
        Some(context) => context.as_value().is_some(),
        None => false,
    }
}

fn push_entities(
    alloc: Global,
    entities: &[EntityUID],
    line: &mut String,
) -> Result<(), AllocError> {
    if entities.is_empty() {
        return Ok(());
    }
    line.push_str(" of these entities it is not known what they have and what they are in:")?;
    'entities: for entity in first_of(entities) {
        line.push_str(format!(in alloc; " {entity}")?.as_str())?;
    }
    push_more(alloc, entities.len(), line)
}

fn push_names(alloc: Global, names: &[RcStr], line: &mut String) -> Result<(), AllocError> {
    if names.is_empty() {
        return Ok(());
    }
    line.push_str(" these unknowns have no value:")?;
    'names: for name in first_of(names) {
        line.push_str(" ")?;
        line.push_str(name.as_str())?;
    }
    push_more(alloc, names.len(), line)
}

fn push_more(alloc: Global, count: usize, line: &mut String) -> Result<(), AllocError> {
    match others(count) {
        Some(others) => line.push_str(format!(in alloc; " and {others} more")?.as_str()),
        None => Ok(()),
    }
}
