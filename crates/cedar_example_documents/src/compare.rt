//! What is answered of one document: by the rows that SQL finds, by the plan, by a step that brings the document, and
//! by one whole request.
use crate::documents::Document;
use crate::filter::Found;
use crate::requests::Asked;
use crate::stop::Stop;
use cedar_policy_core::ast::{Entity, EntityUID, PolicySet, Value};
use cedar_policy_core::authorizer::{Authorizer, Decision, PartialResponse};
use cedar_policy_core::entities::Entities;
use cedar_policy_core::filters::Plan;
use std::alloc::{AllocError, Global};
use std::collections::HashMap;
use std::rc::RcStr;

/// What is answered of one document.
#[derive(Clone, Copy)]
pub struct Answers {
    /// By one whole request.
    pub whole: Decision,
    /// By a step that says which document it is.
    pub stepped: Option<Decision>,
    /// By the plan, if it tells.
    pub told: Option<Decision>,
    /// By SQL, if it tells: allowed, or no candidate.
    pub found: Option<Decision>,
    /// As a caller decides: by SQL, else by the plan, else by a request of its own.
    pub filtered: Decision,
    /// Whether the translation that first comes to mind shows it.
    pub naive: bool,
}

impl Answers {
    /// Whether two of the answers differ.
    pub fn differ(&self) -> bool {
        self.stepped != Some(self.whole)
            || self.filtered != self.whole
            || self.is_other(self.told)
            || self.is_other(self.found)
    }

    fn is_other(&self, told: Option<Decision>) -> bool {
        match told {
            Some(decision) => decision != self.whole,
            None => false,
        }
    }

    /// Whether the translation that first comes to mind shows a document that is denied, or none that SQL shows.
    pub fn naive_is_wrong(&self) -> bool {
        if self.naive {
            self.whole == Decision::Deny
        } else {
            self.found == Some(Decision::Allow)
        }
    }
}

/// The policies, and what is known when a document is.
#[derive(Drop)]
pub struct Service<'a> {
    /// The policies.
    pub policies: &'a PolicySet,
    /// The store with the documents.
    pub all: &'a Entities,
}

/// What is answered of this document, which is this entity.
pub fn answer(
    alloc: Global,
    service: &Service<'_>,
    authorizer: &Authorizer<'_>,
    asked: &Asked,
    response: &PartialResponse,
    plan: &Plan,
    found: &Found,
    document: &Document,
    entity: &Entity,
) -> Result<Answers, Stop> {
    let whole = decided(alloc, service, authorizer, asked, entity)?;
    let stepped = decided_after(alloc, service, authorizer, response, entity)?;
    let by_sql = decision_found(found, document.number);
    let filtered = filtered(alloc, service, authorizer, asked, by_sql, plan, entity)?;
    Ok(Answers {
        whole,
        stepped,
        told: plan.allows(entity),
        found: by_sql,
        filtered,
        naive: has(&found.naive, document.number),
    })
}

// As a caller decides of a row: what SQL tells, else what the plan tells, else by a request of its own.
fn filtered(
    alloc: Global,
    service: &Service<'_>,
    authorizer: &Authorizer<'_>,
    asked: &Asked,
    found: Option<Decision>,
    plan: &Plan,
    entity: &Entity,
) -> Result<Decision, AllocError> {
    match found.or(plan.allows(entity)) {
        Some(decision) => Ok(decision),
        None => decided(alloc, service, authorizer, asked, entity),
    }
}

// By one whole request.
fn decided(
    alloc: Global,
    service: &Service<'_>,
    authorizer: &Authorizer<'_>,
    asked: &Asked,
    entity: &Entity,
) -> Result<Decision, AllocError> {
    let request = asked.of(alloc, entity.uid().clone()?)?;
    let response = authorizer.is_authorized(alloc, request, service.policies, service.all)?;
    Ok(response.decision)
}

// By a step that says which document it is, over a store that has it.
fn decided_after(
    alloc: Global,
    service: &Service<'_>,
    authorizer: &Authorizer<'_>,
    response: &PartialResponse,
    entity: &Entity,
) -> Result<Option<Decision>, Stop> {
    let values = values_of(alloc, entity.uid())?;
    let stepped = step(alloc, service, authorizer, response, &values);
    drop(values);
    stepped
}

fn step(
    alloc: Global,
    service: &Service<'_>,
    authorizer: &Authorizer<'_>,
    response: &PartialResponse,
    values: &HashMap<RcStr, Value>,
) -> Result<Option<Decision>, Stop> {
    match response.reauthorize(alloc, values, authorizer, service.all) {
        Ok(after) => {
            let decision = after.decision();
            drop(after);
            Ok(decision)
        }
        Err(error) => Err(Stop::from(error)),
    }
}

fn values_of(alloc: Global, uid: &EntityUID) -> Result<HashMap<RcStr, Value>, AllocError> {
    let mut values: HashMap<RcStr, Value> = HashMap::new(alloc);
    let value = Value::entity(alloc, uid.clone()?)?;
    values.insert(RcStr::from_str(alloc, "resource")?, value)?;
    Ok(values)
}

// What SQL tells of the document of this number.
fn decision_found(found: &Found, number: usize) -> Option<Decision> {
    if has(&found.allowed, number) {
        Some(Decision::Allow)
    } else if has(&found.candidates, number) {
        None
    } else {
        Some(Decision::Deny)
    }
}

fn has(flags: &Vec<bool>, number: usize) -> bool {
    match flags.get(number) {
        Some(flag) => *flag,
        None => false,
    }
}
