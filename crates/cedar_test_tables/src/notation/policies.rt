//! Reads policies, of which each is a fact of the setting.
//!
//! - `policy p permit(principal, action, resource) when { .. };` is a policy of Cedar's text, at no place.
//! - `constraint p action EXPRESSION` is its constraint on the action, where no scope can write it; the same of the
//!   principal and of the resource.
//! - `clause p 3-5 forbid(principal, action, resource) when { .. };` is a policy made from its when clause alone, at a
//!   place.
use crate::notation::expressions::{LEVELS, expression, meant};
use crate::notation::leaves::place;
use crate::notation::settings::{fact_of, slots};
use crate::notation::unanswered::{Noted, Unanswered};
use crate::notation::{Parts, both, fact, or_memory, split_first_word};
use cedar_functions::Functions;
use cedar_layers::expressions::{Expr, Literal, SlotEnv};
use cedar_layers::policies::{Effect, Policy, PolicyID, PolicySet, PolicySetError};
use cedar_text_parser::parse_policy;
use std::alloc::{AllocError, Global};
use std::rc::{Rc, RcStr};

/// The policies of these ids, in order; `none` is no policy.
pub fn policies(alloc: Global, setting: &str, ids: &str) -> Result<Vec<Policy>, Unanswered> {
    let mut policies: Vec<Policy> = Vec::new(alloc);
    if ids == "none" {
        return Ok(policies);
    }
    for id in ids.split(' ') {
        let policy = policy(alloc, setting, id)?;
        policies.push(policy)?;
    }
    Ok(policies)
}

/// The set of the policies of these ids.
pub fn policy_set(alloc: Global, setting: &str, ids: &str) -> Result<PolicySet, Unanswered> {
    match PolicySet::try_from_iter(alloc, policies(alloc, setting, ids)?) {
        Ok(set) => Ok(set),
        Err(PolicySetError::Occupied { id: _ }) => Err(Unanswered::Unreadable("an id twice")),
        Err(PolicySetError::Memory(_)) => Err(Unanswered::Memory),
    }
}

/// The policy of this id.
pub fn policy(alloc: Global, setting: &str, id: &str) -> Result<Policy, Unanswered> {
    match find_stated(setting, "clause", id) {
        Some(rest) => clause(alloc, id, rest),
        None => {
            let text = find_stated(setting, "policy", id).ok_or("no such policy")?;
            of_text(alloc, setting, id, text)
        }
    }
}

fn find_stated<'a>(setting: &'a str, keyword: &str, id: &str) -> Option<&'a str> {
    for line in setting.lines() {
        if let Some(rest) = fact_of(line, keyword, id) {
            return Some(rest);
        }
    }
    None
}

fn clause(alloc: Global, id: &str, stated: &str) -> Result<Policy, Unanswered> {
    let (ends, text) = split_first_word(stated);
    match read(alloc, id, text) {
        Ok(read) => {
            let made = of_clause(alloc, id, ends, &read);
            drop(read);
            made
        }
        Err(why) => Err(why),
    }
}

// The policy as the text writes it, with the places of the text.
fn read(alloc: Global, id: &str, text: &str) -> Result<Policy, Unanswered> {
    match parse_policy(
        alloc,
        policy_id(alloc, id)?,
        text,
        LEVELS,
        &Functions::any(),
    ) {
        Ok(policy) => Ok(policy),
        Err(error) => Err(Unanswered::from(error)),
    }
}

fn of_clause(alloc: Global, id: &str, ends: &str, read: &Policy) -> Result<Policy, Unanswered> {
    let place = place(ends)?;
    let ((annotations, id), clause) = both(
        both(
            or_memory(read.annotations_rc().clone()),
            or_memory(policy_id(alloc, id)),
        ),
        share_part(alloc, meant(alloc, read.when_clause())),
    )?;
    or_memory(Policy::from_when_clause_annos(alloc, read.effect(), clause, id, place, annotations))
}

// The part, to be shared.
fn share_part<T: Drop>(alloc: Global, part: Result<T, Unanswered>) -> Result<Rc<T>, Unanswered> {
    let part = part?;
    Ok(Rc::new(alloc, part)?)
}

fn of_text(alloc: Global, setting: &str, id: &str, text: &str) -> Result<Policy, Unanswered> {
    match read(alloc, id, text) {
        Ok(read) => {
            let made = of_parts(alloc, setting, id, &read);
            drop(read);
            made
        }
        Err(why) => Err(why),
    }
}

fn of_parts(alloc: Global, setting: &str, id: &str, read: &Policy) -> Result<Policy, Unanswered> {
    let ((annotations, slots), (policy_id, conjuncts)) = both(
        both(
            or_memory(read.annotations_rc().as_ref().clone()),
            read_links(alloc, setting),
        ),
        both(
            or_memory(policy_id(alloc, id)),
            conjuncts(alloc, setting, id, read),
        ),
    )?;
    let mut parts = conjuncts;
    let when = part(&mut parts);
    let (resource, action, principal) = (part(&mut parts), part(&mut parts), part(&mut parts));
    drop(parts);
    or_memory(Policy::new(
        alloc,
        read.effect(),
        policy_id,
        annotations,
        principal,
        action,
        resource,
        when,
        slots,
    ))
}

fn read_links(alloc: Global, setting: &str) -> Result<SlotEnv, Unanswered> {
    let mut noted = Noted::none();
    let slots = slots(alloc, setting, &mut noted);
    match noted.why() {
        None => Ok(slots),
        Some(why) => Err(why),
    }
}

// The constraints on the principal, the action and the resource, and the when clause.
fn conjuncts(
    alloc: Global,
    setting: &str,
    id: &str,
    read: &Policy,
) -> Result<Vec<Expr>, Unanswered> {
    let mut parts: Parts<Expr> = Parts::new(alloc);
    let (principal, action) = (read.principal_constraint(), read.action_constraint());
    parts.push_read(constraint(alloc, setting, id, "principal", principal));
    parts.push_read(constraint(alloc, setting, id, "action", action));
    parts.push_read(constraint(alloc, setting, id, "resource", read.resource_constraint()));
    parts.push_read(meant(alloc, read.when_clause()));
    parts.all()
}

// The constraint on this variable: the one that a fact states, or else that of the scope.
fn constraint(
    alloc: Global,
    setting: &str,
    id: &str,
    variable: &str,
    in_scope: &Expr,
) -> Result<Expr, Unanswered> {
    for line in setting.lines() {
        if let Some(text) = constraint_in(line, id, variable) {
            return expression(alloc, text);
        }
    }
    meant(alloc, in_scope)
}

fn constraint_in<'a>(line: &'a str, id: &str, variable: &str) -> Option<&'a str> {
    match fact_of(line, "constraint", id) {
        Some(rest) => fact(rest, variable),
        None => None,
    }
}

// The last part; a constraint that is not written is `true`.
fn part(parts: &mut Vec<Expr>) -> Expr {
    match parts.pop() {
        Some(part) => part,
        None => Expr::val(Literal::Bool(true)),
    }
}

/// The id that is written so.
pub fn policy_id(alloc: Global, id: &str) -> Result<PolicyID, AllocError> {
    Ok(PolicyID::from_string(RcStr::from_str(alloc, id)?))
}

/// The effect of this name.
pub fn effect(word: &str) -> Result<Effect, Unanswered> {
    match word {
        "permit" => Ok(Effect::Permit),
        "forbid" => Ok(Effect::Forbid),
        _ => Err(Unanswered::Unreadable("no such effect")),
    }
}
