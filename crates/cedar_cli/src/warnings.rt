//! What is told on standard error beside an answer.
ghost use Rattle.std.specs.Prelude.{◌≡◌, ◌+◌, ◌++◌, ◌≤◌, IfSome, IfNone, OnOk, string_bytes};
ghost use Rattle.cedar_cli.specs.Strict.{IsWarning};

use crate::asked::{Source, Way};
use crate::limits::push_limit;
use crate::places::{Places, describe_at};
use crate::policies::{push_id, push_name, with_id};
use crate::visible::push_visible;
use cedar_policy_core::ast::{EntityUID, Policy, PolicyID, PolicySet};
use cedar_policy_core::authorizer::AuthorizationError;
use cedar_policy_core::evaluator::EvaluationError;
use std::alloc::{AllocError, Global};
use std::collections::BTreeSet;
use std::rc::RcStr;

/// How many things of a kind are told one by one; of those behind them their number is told.
pub(crate) const MOST: usize = 20;

/// Puts `warning: LINE` behind the others.
pub fn push_warning(alloc: Global, line: &str, warnings: &mut String) -> Result<(), AllocError>
    ensures { OnOk result ((told : _) × IsWarning line.now told
        × (string_bytes warnings.new ≡ string_bytes warnings.old ++ told)) }
{
    warnings.push_str("warning: ")?;
    push_visible(alloc, line, warnings)?;
    warnings.push_str("\n")?;
    Ok(())
}

/// The policies that decide, the places of the text that they stand in, and in which way they do.
#[derive(Clone, Copy)]
pub(crate) struct Deciding<'p> {
    pub(crate) places: &'p Places<'p>,
    pub(crate) policies: &'p PolicySet,
    pub(crate) way: Way,
}

/// Tells why policies of this text erred, each with its place.
pub fn tell_errors(
    alloc: Global,
    source: Source<'_>,
    policies: &PolicySet,
    way: Way,
    errors: &[AuthorizationError],
    warnings: &mut String,
) -> Result<(), AllocError> {
    let places = Places::of(alloc, source)?;
    let deciding = Deciding {
        places: &places,
        policies,
        way,
    };
    let told = push_errors(alloc, deciding, errors, warnings);
    drop(places);
    told
}

/// Puts the errors of policies behind the others, each with its place in the text of the policies.
pub(crate) fn push_errors(
    alloc: Global,
    deciding: Deciding<'_>,
    errors: &[AuthorizationError],
    warnings: &mut String,
) -> Result<(), AllocError> {
    'errors: for error in first_of(errors) {
        push_error(alloc, deciding, error, warnings)?;
    }
    push_others(alloc, errors.len(), "policies erred", warnings)
}

fn push_error(
    alloc: Global,
    deciding: Deciding<'_>,
    error: &AuthorizationError,
    warnings: &mut String,
) -> Result<(), AllocError> {
    match error {
        AuthorizationError::PolicyEvaluationError { id, error } => {
            let why = why(alloc, deciding, id, error)?;
            let loc = error.source_loc().copied();
            let lines = describe_at(alloc, deciding.places, loc, why.as_str())?;
            warnings.push_str(lines.as_str())
        }
    }
}

// `error while evaluating policy `NAME`: ERROR`
fn why(
    alloc: Global,
    deciding: Deciding<'_>,
    id: &PolicyID,
    error: &EvaluationError,
) -> Result<String, AllocError> {
    let mut why = String::new(alloc);
    why.push_str("error while evaluating policy `")?;
    match with_id(deciding.policies, id) {
        Some(policy) => push_name(alloc, policy, &mut why)?,
        None => push_id(alloc, id, &mut why)?,
    }
    why.push_str("`: ")?;
    why.push_str(format!(in alloc; "{error}")?.as_str())?;
    if error.is_recursion_limit() {
        push_limit(alloc, deciding.way.limit, &mut why)?;
    }
    Ok(why)
}

/// Tells of each template, of the policies of this text, that it decides nothing.
pub fn tell_templates(
    alloc: Global,
    source: Source<'_>,
    templates: &[Policy],
    warnings: &mut String,
) -> Result<(), AllocError> {
    let places = Places::of(alloc, source)?;
    let told = push_templates(alloc, &places, templates, warnings);
    drop(places);
    told
}

/// Tells of each template that it decides nothing.
pub(crate) fn push_templates(
    alloc: Global,
    places: &Places<'_>,
    templates: &[Policy],
    warnings: &mut String,
) -> Result<(), AllocError> {
    'templates: for template in first_of(templates) {
        push_template(alloc, places, template, warnings)?;
    }
    push_others(alloc, templates.len(), "templates decide nothing", warnings)
}

fn push_template(
    alloc: Global,
    places: &Places<'_>,
    template: &Policy,
    warnings: &mut String,
) -> Result<(), AllocError> {
    let mut line = String::new(alloc);
    line.push_str(places.name())?;
    if let Some(loc) = template.loc() {
        let (number, column) = places.place_of(loc);
        line.push_str(format!(in alloc; ": line {number}, column {column}")?.as_str())?;
    }
    line.push_str(": the template `")?;
    push_name(alloc, template, &mut line)?;
    line.push_str("` decides nothing: it has no link")?;
    push_warning(alloc, line.as_str(), warnings)
}

/// Tells of each entity that it is left out.
pub(crate) fn push_left_out(
    alloc: Global,
    source: Source<'_>,
    left_out: &BTreeSet<EntityUID>,
    warnings: &mut String,
) -> Result<(), AllocError> {
    let name = source.name;
    let mut told: usize = 0;
    'entities: for entity in left_out.iter() {
        if told < MOST {
            let line = format!(in alloc;
                "{name}: the entity `{entity}` is left out: its parents lead to one that is not there"
            )?;
            push_warning(alloc, line.as_str(), warnings)?;
            told += 1;
        }
    }
    push_others(alloc, left_out.len(), "entities are left out", warnings)
}

/// Tells of each name for which a step gives a value that it is no unknown of the answer before.
pub(crate) fn push_strays(
    alloc: Global,
    number: usize,
    source: Source<'_>,
    strays: &BTreeSet<RcStr>,
    warnings: &mut String,
) -> Result<(), AllocError> {
    let file = source.name;
    let mut told: usize = 0;
    'strays: for name in strays.iter() {
        if told < MOST {
            let line = format!(in alloc;
                "step {number}: {file}: `{name}` is no unknown of the answer before"
            )?;
            push_warning(alloc, line.as_str(), warnings)?;
            told += 1;
        }
    }
    push_others(alloc, strays.len(), "names are no unknowns", warnings)
}

/// Tells that a step is not taken.
pub(crate) fn push_idle_step(
    alloc: Global,
    number: usize,
    source: Source<'_>,
    warnings: &mut String,
) -> Result<(), AllocError> {
    let file = source.name;
    let line = format!(in alloc;
        "step {number}: {file}: the step names no unknown and brings no entities: it is not taken"
    )?;
    push_warning(alloc, line.as_str(), warnings)
}

// Of more than are told one by one, how many there are besides.
fn push_others(
    alloc: Global,
    count: usize,
    what: &str,
    warnings: &mut String,
) -> Result<(), AllocError> {
    match others(count) {
        Some(others) => {
            let line = format!(in alloc; "{others} more {what}")?;
            push_warning(alloc, line.as_str(), warnings)
        }
        None => Ok(()),
    }
}

/// Of so many of which more are than are told one by one, how many are not.
pub(crate) fn others(count: usize) -> Option<usize>
    ensures some { IfSome result (λ n. n + 20 ≡ count) }
    ensures none { IfNone result (count ≤ 20) }
{
    if count > MOST {
        Some(count - MOST)
    } else {
        None
    }
}

/// Those that are told one by one.
pub(crate) fn first_of<T>(items: &[T]) -> &[T] {
    match items.get(..MOST) {
        Some(first) => first,
        None => items,
    }
}
