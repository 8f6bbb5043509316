//! The line of a row.
ghost use Rattle.std.specs.Prelude.{◌≡◌, None};
ghost use Rattle.cedar_layers.specs.Policies.{first_repeated};
ghost use Rattle.cedar_example_rows.specs.Ids.{ids_of};

use crate::policies::policies_of;
use crate::requests::request_of;
use crate::rows::Row;
use crate::steps::{c_and_d, number_of, principal_and_u, resource_is_b, truth_of};
use crate::stop::{Stop, step_refused};
use crate::stores::store_of_e;
use cedar_authorizer::authorizer::{
    AuthorizationError, Authorizer, Decision, PartialResponse, ReauthorizationError, Response,
};
use cedar_extensions::Extensions;
use cedar_layers::expressions::Value;
use cedar_layers::policies::{Entities, Policy, PolicyID, PolicySet, PolicySetError};
use std::alloc::{AllocError, Global};
use std::collections::{HashMap, HashSet};
use std::io::Write;
use std::rc::RcStr;

/// How many levels deep the rows are evaluated.
pub const LIMIT: usize = 1000;

/// Decides the row and prints its line.
pub fn print_line<W: Write>(
    alloc: Global,
    row: Row,
    extensions: &Extensions<'_>,
    out: &mut W,
) -> Result<(), Stop> {
    match decide(alloc, row, extensions) {
        Ok(response) => {
            let line = line(alloc, row, &response);
            drop(response);
            write_line(line?.as_str(), out)
        }
        Err(stop) => Err(stop),
    }
}

fn write_line<W: Write>(line: &str, out: &mut W) -> Result<(), Stop> {
    writeln!(out, "{line}")?;
    Ok(())
}

// `NAME DECISION [reasons] [error ids]`
fn line(alloc: Global, row: Row, response: &Response) -> Result<String, AllocError> {
    let name = row.name();
    let decision = decision_text(response.decision);
    let reasons = reasons_text(alloc, &response.diagnostics.reason)?;
    let errors = errors_text(alloc, &response.diagnostics.errors)?;
    format!(in alloc; "{name} {decision} [{reasons}] [{errors}]")
}

fn decide(alloc: Global, row: Row, extensions: &Extensions<'_>) -> Result<Response, Stop> {
    let policies = set_of(alloc, policies_of(alloc, row)?)?;
    let authorizer = Authorizer::new(extensions, LIMIT)
        .with_error_handling(row.error_handling())
        .with_resolution(row.resolution());
    let response = decide_by(alloc, row, &authorizer, &policies);
    drop(policies);
    response
}

// What the policies decide for the row's request, after the row's steps.
fn decide_by(
    alloc: Global,
    row: Row,
    authorizer: &Authorizer<'_>,
    policies: &PolicySet,
) -> Result<Response, Stop> {
    match row {
        Row::Empty => at_once(alloc, row, authorizer, policies),
        Row::Skip2 => at_once(alloc, row, authorizer, policies),
        Row::Skip3 => at_once(alloc, row, authorizer, policies),
        Row::Skip4 => at_once(alloc, row, authorizer, policies),
        Row::Residual => at_once(alloc, row, authorizer, policies),
        Row::Strict3 => at_once(alloc, row, authorizer, policies),
        Row::StrictResidual => at_once(alloc, row, authorizer, policies),
        Row::Early => without_steps(alloc, row, authorizer, policies),
        Row::Chain => in_two_steps(alloc, row, authorizer, policies),
        Row::Deep => over_store(alloc, row, authorizer, policies),
        Row::StepFalse => {
            let step = truth_of(alloc, "test", false)?;
            after(alloc, row, authorizer, policies, step)
        }
        Row::StepTrue => {
            let step = truth_of(alloc, "test", true)?;
            after(alloc, row, authorizer, policies, step)
        }
        Row::Kept => {
            let step = truth_of(alloc, "x", true)?;
            after(alloc, row, authorizer, policies, step)
        }
        Row::NonBool => {
            let step = number_of(alloc, "r", 1)?;
            after(alloc, row, authorizer, policies, step)
        }
        Row::Stored => {
            let step = number_of(alloc, "n", 4)?;
            after(alloc, row, authorizer, policies, step)
        }
    }
}

// What the policies decide after this step, which is done with then.
fn after(
    alloc: Global,
    row: Row,
    authorizer: &Authorizer<'_>,
    policies: &PolicySet,
    step: HashMap<RcStr, Value>,
) -> Result<Response, Stop> {
    let response = in_one_step(alloc, row, authorizer, policies, &step);
    drop(step);
    response
}

fn at_once(
    alloc: Global,
    row: Row,
    authorizer: &Authorizer<'_>,
    policies: &PolicySet,
) -> Result<Response, Stop> {
    match request_of(alloc, row) {
        Ok(request) => {
            let none = Entities::new(alloc);
            let response = authorizer.is_authorized(alloc, request, policies, &none);
            drop(none);
            Ok(response?)
        }
        Err(stop) => Err(stop),
    }
}

// What the core call answers, made concrete.
fn without_steps(
    alloc: Global,
    row: Row,
    authorizer: &Authorizer<'_>,
    policies: &PolicySet,
) -> Result<Response, Stop> {
    match request_of(alloc, row) {
        Ok(request) => {
            let none = Entities::new(alloc);
            let response = authorizer.is_authorized_core(alloc, request, policies, &none);
            drop(none);
            Ok(Response::try_from(response?)?)
        }
        Err(stop) => Err(stop),
    }
}

/// What the policies decide for the row's request after this step.
pub fn in_one_step(
    alloc: Global,
    row: Row,
    authorizer: &Authorizer<'_>,
    policies: &PolicySet,
    step: &HashMap<RcStr, Value>,
) -> Result<Response, Stop> {
    let none = Entities::new(alloc);
    let response = in_one_step_over(alloc, row, authorizer, policies, step, &none);
    drop(none);
    response
}

// The same over this store.
fn in_one_step_over(
    alloc: Global,
    row: Row,
    authorizer: &Authorizer<'_>,
    policies: &PolicySet,
    step: &HashMap<RcStr, Value>,
    store: &Entities,
) -> Result<Response, Stop> {
    match request_of(alloc, row) {
        Ok(request) => {
            let steps = [(step, store)];
            let answer = authorizer.authorize_in_steps(alloc, request, policies, store, &steps);
            concrete(alloc, answer)
        }
        Err(stop) => Err(stop),
    }
}

// What the policies decide over the row's store, after its step.
fn over_store(
    alloc: Global,
    row: Row,
    authorizer: &Authorizer<'_>,
    policies: &PolicySet,
) -> Result<Response, Stop> {
    let store = store_of_e(alloc)?;
    let response = after_over(alloc, row, authorizer, policies, &store);
    drop(store);
    response
}

fn after_over(
    alloc: Global,
    row: Row,
    authorizer: &Authorizer<'_>,
    policies: &PolicySet,
    store: &Entities,
) -> Result<Response, Stop> {
    let step = principal_and_u(alloc)?;
    let response = in_one_step_over(alloc, row, authorizer, policies, &step, store);
    drop(step);
    response
}

// What is answered after both steps of the chain, made concrete.
fn in_two_steps(
    alloc: Global,
    row: Row,
    authorizer: &Authorizer<'_>,
    policies: &PolicySet,
) -> Result<Response, Stop> {
    let first = resource_is_b(alloc)?;
    let response = behind(alloc, row, authorizer, policies, &first);
    drop(first);
    response
}

fn behind(
    alloc: Global,
    row: Row,
    authorizer: &Authorizer<'_>,
    policies: &PolicySet,
    first: &HashMap<RcStr, Value>,
) -> Result<Response, Stop> {
    let second = c_and_d(alloc)?;
    let response = after_both(alloc, row, authorizer, policies, first, &second);
    drop(second);
    response
}

fn after_both(
    alloc: Global,
    row: Row,
    authorizer: &Authorizer<'_>,
    policies: &PolicySet,
    first: &HashMap<RcStr, Value>,
    second: &HashMap<RcStr, Value>,
) -> Result<Response, Stop> {
    match request_of(alloc, row) {
        Ok(request) => {
            let none = Entities::new(alloc);
            let steps = [(first, &none), (second, &none)];
            let answer = authorizer.authorize_in_steps(alloc, request, policies, &none, &steps);
            drop(none);
            concrete(alloc, answer)
        }
        Err(stop) => Err(stop),
    }
}

fn concrete(
    alloc: Global,
    answer: Result<PartialResponse, ReauthorizationError>,
) -> Result<Response, Stop> {
    match answer {
        Ok(response) => Ok(response.concretize(alloc)?),
        Err(error) => {
            let stop = step_refused(alloc, &error);
            drop(error);
            Err(stop)
        }
    }
}

// No two policies have one id, so only memory can run out.
fn set_of(alloc: Global, policies: Vec<Policy>) -> Result<PolicySet, AllocError>
    requires { first_repeated (ids_of policies.items) ≡ None }
{
    match PolicySet::try_from_iter(alloc, policies) {
        Ok(policies) => Ok(policies),
        Err(PolicySetError::Occupied { id: _ }) => unreachable!(),
        Err(PolicySetError::Memory(error)) => Err(error),
    }
}

/// The name of the decision.
pub fn decision_text(decision: Decision) -> &'static str {
    match decision {
        Decision::Allow => "Allow",
        Decision::Deny => "Deny",
    }
}

/// The ids sorted by bytes, joined by commas.
pub fn reasons_text(alloc: Global, reasons: &HashSet<PolicyID>) -> Result<String, AllocError> {
    let mut ids: Vec<String> = Vec::new(alloc);
    for id in reasons.iter() {
        ids.push(format!(in alloc; "{id}")?)?;
    }
    ids.sort()?;
    join_texts(alloc, &ids, ",")
}

// The ids of the policies that erred, in order, joined by commas.
fn errors_text(alloc: Global, errors: &[AuthorizationError]) -> Result<String, AllocError> {
    let mut ids: Vec<String> = Vec::new(alloc);
    for error in errors {
        let AuthorizationError::PolicyEvaluationError { id, error: _ } = error;
        ids.push(format!(in alloc; "{id}")?)?;
    }
    join_texts(alloc, &ids, ",")
}

/// The texts, with this one between them.
pub fn join_texts(alloc: Global, texts: &[String], between: &str) -> Result<String, AllocError> {
    let mut all = String::new(alloc);
    for (i, text) in texts.iter().enumerate() {
        if i > 0 {
            all.push_str(between)?;
        }
        all.push_str(text.as_str())?;
    }
    Ok(all)
}
