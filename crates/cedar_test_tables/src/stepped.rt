//! What is known of policies, and what becomes of that in steps.
use crate::answers::described::kind;
use crate::answers::documents::{put_partial_response, put_whole_response};
use crate::answers::unknowns::put_unknowns;
use crate::judged::{put_decision, put_named};
use crate::levels::{Asked, Shortage, answer_within, met_in};
use crate::notation::answer::Answer;
use crate::notation::policies::{policy_id, policy_set};
use crate::notation::settings::Setting;
use crate::notation::shown::is_equal;
use crate::notation::unanswered::Unanswered;
use crate::notation::{add, both, split_first_word};
use crate::steps::{Step, mapping, sheet, steps};
use cedar_authorizer::authorizer::{
    AuthorizationError, Authorizer, ConcretizationError, Decision, ErrorHandling, PartialResponse,
    ReauthorizationError, ReportedIds, ReportedPolicies, Response,
};
use cedar_authorizer::responses::Sheet;
use cedar_evaluator::evaluator::EvaluationError;
use cedar_example_rows::lines::decision_text;
use cedar_extensions::Extensions;
use cedar_layers::expressions::Value;
use cedar_layers::policies::{Entities, Policy, PolicyID, PolicySet};
use cedar_requests::{Context, Request};
use indexmap::IndexMap;
use std::alloc::{AllocError, Global};
use std::collections::HashMap;
use std::rc::{Rc, RcStr};

/// What is known after the steps, or why one of them was refused.
pub fn ask(
    answer: &mut Answer,
    facts: &str,
    setting: &Setting<'_, '_>,
    question: &str,
    argument: &str,
    words: &str,
) {
    let (first, written) = match words.split_once(" / ") {
        Some((first, written)) => (first, written),
        None => (words, ""),
    };
    match steps(answer.alloc, facts, written) {
        Ok(steps) => {
            ask_after(answer, facts, setting, question, argument, first, &steps);
            drop(steps);
        }
        Err(why) => answer.fail(why),
    }
}

// The same after these steps.
fn ask_after(
    answer: &mut Answer,
    facts: &str,
    setting: &Setting<'_, '_>,
    question: &str,
    argument: &str,
    first: &str,
    steps: &[Step],
) {
    if question == "made" {
        of_notes(answer, setting, argument, first, steps);
    } else {
        of_policies(answer, facts, setting, question, argument, first, steps);
    }
}

// What is asked after these steps of the response that is made of these notes.
fn of_notes(
    answer: &mut Answer,
    setting: &Setting<'_, '_>,
    asked: &str,
    notes: &str,
    steps: &[Step],
) {
    let limit = answer.limit("");
    match make_response(answer.alloc, setting, notes) {
        Ok(response) => {
            let outcome = one_by_one(answer.alloc, setting, limit, response, steps);
            put_answered(answer, asked, &outcome);
            drop(outcome);
        }
        Err(why) => answer.fail(why),
    }
}

// What is known after these steps of the policies of these ids.
fn of_policies(
    answer: &mut Answer,
    facts: &str,
    setting: &Setting<'_, '_>,
    question: &str,
    argument: &str,
    ids: &str,
    steps: &[Step],
) {
    let (asked, limit_text) = asked_and_limit(argument);
    let limit = answer.limit(limit_text);
    match policy_set(answer.alloc, facts, ids) {
        Ok(policies) => {
            put_chained(answer, setting, question, asked, limit, &policies, steps);
            drop(policies);
        }
        Err(why) => answer.fail(why),
    }
}

// What is asked of the response, if something else than what is known, and the limit, if it is written.
fn asked_and_limit(argument: &str) -> (&str, &str) {
    match split_first_word(argument) {
        ("get", _) => (argument, ""),
        ("request", _) => (argument, ""),
        ("readers", _) => (argument, ""),
        ("mode", _) => (argument, ""),
        ("unknowns", _) => (argument, ""),
        ("json", _) => (argument, ""),
        ("whole", _) => (argument, ""),
        (_, _) => ("", argument),
    }
}

fn put_chained(
    answer: &mut Answer,
    setting: &Setting<'_, '_>,
    question: &str,
    asked: &str,
    limit: usize,
    policies: &PolicySet,
    steps: &[Step],
) {
    match question {
        "in-steps" => put_in_steps(answer, setting, asked, limit, policies, steps),
        "one-by-one" => put_one_by_one(answer, setting, asked, limit, policies, steps),
        _ => {
            let mut text = Answer::new(answer.alloc);
            put_in_steps(&mut text, setting, asked, limit, policies, steps);
            let mut other = Answer::new(answer.alloc);
            put_one_by_one(&mut other, setting, asked, limit, policies, steps);
            put_alike(answer, text.finish(), other.finish());
        }
    }
}

fn put_in_steps(
    answer: &mut Answer,
    setting: &Setting<'_, '_>,
    asked: &str,
    limit: usize,
    policies: &PolicySet,
    steps: &[Step],
) {
    let outcome = in_steps(answer.alloc, setting, limit, policies, steps);
    put_answered(answer, asked, &outcome);
    drop(outcome);
}

fn put_one_by_one(
    answer: &mut Answer,
    setting: &Setting<'_, '_>,
    asked: &str,
    limit: usize,
    policies: &PolicySet,
    steps: &[Step],
) {
    let outcome = from_core(answer.alloc, setting, limit, policies, steps);
    put_answered(answer, asked, &outcome);
    drop(outcome);
}

// The text of both ways, or that of each where they differ.
fn put_alike(
    answer: &mut Answer,
    text: Result<String, Unanswered>,
    other: Result<String, Unanswered>,
) {
    match both(text, other) {
        Ok((text, other)) => {
            answer.put(text.as_str());
            if text.as_str() != other.as_str() {
                answer.put(", but one by one ");
                answer.put(other.as_str());
            }
        }
        Err(why) => answer.fail(why),
    }
}

fn in_steps(
    alloc: Global,
    setting: &Setting<'_, '_>,
    limit: usize,
    policies: &PolicySet,
    steps: &[Step],
) -> Result<PartialResponse, ReauthorizationError> {
    match lend_steps(alloc, steps) {
        Ok(steps) => after(alloc, setting, limit, policies, steps.as_slice()),
        Err(error) => Err(ReauthorizationError::Memory(error)),
    }
}

// The maps and the stores of these steps.
fn lend_steps(
    alloc: Global,
    steps: &[Step],
) -> Result<Vec<(&HashMap<RcStr, Value>, &Entities)>, AllocError> {
    let mut all: Vec<(&HashMap<RcStr, Value>, &Entities)> = Vec::new(alloc);
    for step in steps {
        add(&mut all, (&step.map, &step.entities))?;
    }
    Ok(all)
}

// What is known after these steps.
fn after(
    alloc: Global,
    setting: &Setting<'_, '_>,
    limit: usize,
    policies: &PolicySet,
    steps: &[(&HashMap<RcStr, Value>, &Entities)],
) -> Result<PartialResponse, ReauthorizationError> {
    let authorizer = Authorizer::new(setting.extensions, limit)
        .with_error_handling(setting.error_handling)
        .with_resolution(setting.resolution);
    let request = setting.request.clone()?;
    authorizer.authorize_in_steps(alloc, request, policies, &setting.entities, steps)
}

fn from_core(
    alloc: Global,
    setting: &Setting<'_, '_>,
    limit: usize,
    policies: &PolicySet,
    steps: &[Step],
) -> Result<PartialResponse, ReauthorizationError> {
    let response = core(alloc, setting, limit, policies)?;
    one_by_one(alloc, setting, limit, response, steps)
}

// What is known before any step.
fn core(
    alloc: Global,
    setting: &Setting<'_, '_>,
    limit: usize,
    policies: &PolicySet,
) -> Result<PartialResponse, AllocError> {
    let authorizer = Authorizer::new(setting.extensions, limit)
        .with_error_handling(setting.error_handling)
        .with_resolution(setting.resolution);
    let request = setting.request.clone()?;
    authorizer.is_authorized_core(alloc, request, policies, &setting.entities)
}

fn one_by_one(
    alloc: Global,
    setting: &Setting<'_, '_>,
    limit: usize,
    first: PartialResponse,
    steps: &[Step],
) -> Result<PartialResponse, ReauthorizationError> {
    let mut outcome: Result<PartialResponse, ReauthorizationError> = Ok(first);
    for step in steps {
        outcome = further(alloc, setting, limit, outcome, step);
    }
    outcome
}

// What is known after this step, where none before it was refused.
fn further(
    alloc: Global,
    setting: &Setting<'_, '_>,
    limit: usize,
    outcome: Result<PartialResponse, ReauthorizationError>,
    step: &Step,
) -> Result<PartialResponse, ReauthorizationError> {
    match outcome {
        Ok(response) => take_step(alloc, setting, limit, response, step),
        Err(error) => Err(error),
    }
}

// What is known once the response is taken further by this step.
fn take_step(
    alloc: Global,
    setting: &Setting<'_, '_>,
    limit: usize,
    response: PartialResponse,
    step: &Step,
) -> Result<PartialResponse, ReauthorizationError> {
    let authorizer = Authorizer::new(setting.extensions, limit)
        .with_error_handling(step.error_handling)
        .with_resolution(step.resolution);
    let next = response.reauthorize(alloc, &step.map, &authorizer, &step.entities);
    drop(response);
    next
}

// The response that is made of these notes.
fn make_response(
    alloc: Global,
    setting: &Setting<'_, '_>,
    notes: &str,
) -> Result<PartialResponse, Unanswered> {
    let sheet = sheet(alloc, setting.error_handling, notes)?;
    match shared_request(alloc, &setting.request) {
        Ok(request) => Ok(made_of(alloc, setting.error_handling, sheet, request)?),
        Err(error) => {
            drop(sheet);
            Err(error.into())
        }
    }
}

fn shared_request(alloc: Global, request: &Request) -> Result<Rc<Request>, AllocError> {
    Ok(Rc::new(alloc, request.clone()?)?)
}

fn made_of(
    alloc: Global,
    mode: ErrorHandling,
    sheet: Sheet,
    request: Rc<Request>,
) -> Result<PartialResponse, AllocError> {
    match mode {
        ErrorHandling::Skip => made_new(alloc, sheet, request),
        ErrorHandling::ForbidOnError => made_in_mode(alloc, mode, sheet, request),
    }
}

fn made_new(
    alloc: Global,
    sheet: Sheet,
    request: Rc<Request>,
) -> Result<PartialResponse, AllocError> {
    PartialResponse::new(
        alloc,
        sheet.true_permits.into_iter(),
        sheet.false_permits.into_iter(),
        sheet.residual_permits.into_iter(),
        sheet.true_forbids.into_iter(),
        sheet.false_forbids.into_iter(),
        sheet.residual_forbids.into_iter(),
        sheet.errors.into_iter(),
        request,
    )
}

fn made_in_mode(
    alloc: Global,
    mode: ErrorHandling,
    sheet: Sheet,
    request: Rc<Request>,
) -> Result<PartialResponse, AllocError> {
    PartialResponse::new_in_mode(
        alloc,
        mode,
        sheet.true_permits.into_iter(),
        sheet.false_permits.into_iter(),
        sheet.residual_permits.into_iter(),
        sheet.true_forbids.into_iter(),
        sheet.false_forbids.into_iter(),
        sheet.residual_forbids.into_iter(),
        sheet.errors.into_iter(),
        request,
    )
}

// What is asked of the response, or why there is none.
fn put_answered(
    answer: &mut Answer,
    asked: &str,
    outcome: &Result<PartialResponse, ReauthorizationError>,
) {
    match outcome {
        Ok(response) => put_asked(answer, asked, response),
        Err(error) => {
            answer.put(refusal(error));
            answer.put(": ");
            answer.show_refusal(error);
            put_conflict(answer, error);
        }
    }
}

fn put_asked(answer: &mut Answer, asked: &str, response: &PartialResponse) {
    match split_first_word(asked) {
        ("get", id) => put_got(answer, response, id),
        ("readers", _) => put_readers(answer, response),
        ("mode", _) => put_modes(answer, response),
        ("unknowns", _) => put_unknowns(answer, response),
        ("json", _) => put_partial_response(answer, response),
        ("whole", _) => put_whole_response(answer, response),
        ("request", _) => answer.show(response.request.as_ref()),
        (_, _) => {
            put_concrete(answer, response);
            put_known(answer, response);
        }
    }
}

fn refusal(error: &ReauthorizationError) -> &'static str {
    match error {
        ReauthorizationError::ErrorHandlingConflict { .. } => "ErrorHandlingConflict",
        ReauthorizationError::PolicySetError(_) => "PolicySetError",
        ReauthorizationError::ConcretizationError(error) => match error {
            ConcretizationError::ValueError { .. } => "ValueError",
            ConcretizationError::VarConfictError { .. } => "VarConfictError",
            ConcretizationError::EntityTypeConfictError { .. } => "EntityTypeConfictError",
            ConcretizationError::ValueEval(_) => "ValueEval",
            ConcretizationError::Memory(_) => "Memory",
        },
        ReauthorizationError::Memory(_) => "Memory",
    }
}

// Behind a conflict the response's mode and the authorizer's.
fn put_conflict(answer: &mut Answer, error: &ReauthorizationError) {
    if let ReauthorizationError::ErrorHandlingConflict {
        response,
        authorizer,
    } = error
    {
        answer.put(", response ");
        answer.show_debug(response);
        answer.put(", authorizer ");
        answer.show_debug(authorizer);
    }
}

// How the response handles errors, and how a copy of it does.
fn put_modes(answer: &mut Answer, response: &PartialResponse) {
    match response.clone() {
        Ok(copy) => {
            put_both_modes(answer, response.error_handling(), copy.error_handling());
            drop(copy);
        }
        Err(_) => answer.lack_memory(),
    }
}

fn put_both_modes(answer: &mut Answer, mode: ErrorHandling, copy: ErrorHandling) {
    let is_same = mode == copy;
    answer.show_debug(&mode);
    answer.put(", of a copy ");
    answer.show_debug(&copy);
    answer.put(", the same ");
    answer.show(&is_same);
}

// The decision, and the response made concrete, as `Allow; Allow [reasons] [errors]`. Both ways to make it concrete
// must answer the same.
fn put_concrete(answer: &mut Answer, response: &PartialResponse) {
    answer.put(given_text(response.decision()));
    match concrete_of(answer.alloc, response) {
        Ok(concrete) => {
            put_converted(answer, response, &concrete);
            drop(concrete);
        }
        Err(_) => answer.lack_memory(),
    }
}

fn concrete_of(alloc: Global, response: &PartialResponse) -> Result<Response, AllocError> {
    let copy = response.clone()?;
    copy.concretize(alloc)
}

fn put_converted(answer: &mut Answer, response: &PartialResponse, concrete: &Response) {
    match is_equal(convert_response(response), concrete) {
        Ok(true) => {
            answer.put("; ");
            put_decision(answer, concrete);
            put_errors(answer, &concrete.diagnostics.errors);
        }
        Ok(false) => answer.refuse("it is made concrete in two ways"),
        Err(_) => answer.lack_memory(),
    }
}

fn convert_response(response: &PartialResponse) -> Result<Response, AllocError> {
    let copy = response.clone()?;
    Response::try_from(copy)
}

fn given_text(decision: Option<Decision>) -> &'static str {
    match decision {
        Some(decision) => decision_text(decision),
        None => "none",
    }
}

// ` [errors]`: the kind of each error behind its policy.
fn put_errors(answer: &mut Answer, errors: &[AuthorizationError]) {
    answer.put(" [");
    answer.begin();
    for error in errors {
        let AuthorizationError::PolicyEvaluationError { id, error } = error;
        answer.next(", ");
        answer.show(id);
        answer.put(" ");
        answer.put(kind(error));
    }
    answer.put("]");
}

// The permits that are satisfied, those that are not, and those of which something is left; the same of forbids; those
// that erred; those that must determine the decision, and those that may.
fn put_known(answer: &mut Answer, response: &PartialResponse) {
    put_in(answer, "; permits", &response.satisfied_permits);
    put_in(answer, "", &response.false_permits);
    put_in(answer, "", &response.residual_permits);
    put_in(answer, "; forbids", &response.satisfied_forbids);
    put_in(answer, "", &response.false_forbids);
    put_in(answer, "", &response.residual_forbids);
    put_ids(answer, "; erred", response.definitely_errored());
    put_ids_of(answer, "; must", response.must_be_determining());
    put_ids_of(answer, "; may", response.may_be_determining());
}

// What the other readers name.
fn put_readers(answer: &mut Answer, response: &PartialResponse) {
    answer.put("read");
    put_ids_of(answer, ": satisfied", response.definitely_satisfied());
    put_ids_of(answer, "; left", response.nontrivial_residuals());
    put_ids(answer, "; ids left", response.nontrivial_residual_ids());
    put_ids_of(answer, "; forbids left", response.nontrivial_forbids());
    put_ids_of(answer, "; all", response.all_residuals());
}

// The title, and these ids behind it.
fn put_in<V>(answer: &mut Answer, title: &str, entries: &IndexMap<PolicyID, V>) {
    begin(answer, title);
    for id in entries.keys() {
        answer.next(",");
        answer.show(id);
    }
    answer.put("]");
}

fn put_ids(answer: &mut Answer, title: &str, reported: ReportedIds<'_>) {
    begin(answer, title);
    for id in reported {
        answer.next(",");
        answer.show(id);
    }
    answer.put("]");
}

fn put_ids_of(answer: &mut Answer, title: &str, reported: ReportedPolicies<'_>) {
    begin(answer, title);
    for policy in reported {
        answer.next(",");
        put_id(answer, policy);
    }
    answer.put("]");
}

fn begin(answer: &mut Answer, title: &str) {
    answer.put(title);
    answer.put(" [");
    answer.begin();
}

fn put_id(answer: &mut Answer, policy: Result<Policy, AllocError>) {
    match policy {
        Ok(policy) => {
            answer.show(policy.id());
            drop(policy);
        }
        Err(_) => answer.lack_memory(),
    }
}

// The policy under the id: its effect, its condition and its annotations.
fn put_got(answer: &mut Answer, response: &PartialResponse, id: &str) {
    match policy_id(answer.alloc, id) {
        Ok(id) => put_under(answer, response.get(answer.alloc, &id)),
        Err(_) => answer.lack_memory(),
    }
}

fn put_under(answer: &mut Answer, got: Result<Option<Policy>, AllocError>) {
    match got {
        Ok(Some(policy)) => {
            put_policy(answer, &policy);
            drop(policy);
        }
        Ok(None) => answer.put("none"),
        Err(_) => answer.lack_memory(),
    }
}

fn put_policy(answer: &mut Answer, policy: &Policy) {
    let condition = policy.condition(answer.alloc);
    put_named(answer, policy);
    answer.put(" ");
    answer.show_made(condition);
    answer.put(" ");
    answer.show_debug(&policy.annotations_rc().0);
}

/// The context of the setting with these values for unknowns, or the error that it evaluates to.
pub fn ask_context(answer: &mut Answer, setting: &Setting<'_, '_>, limit_text: &str, values: &str) {
    match setting.request.context() {
        Some(context) => put_context_with(answer, setting, limit_text, context, values),
        None => answer.refuse("no context"),
    }
}

fn put_context_with(
    answer: &mut Answer,
    setting: &Setting<'_, '_>,
    limit_text: &str,
    context: &Context,
    values: &str,
) {
    match mapping(answer.alloc, values) {
        Ok(map) => {
            let asked = Substituted {
                extensions: setting.extensions,
                context,
                map: &map,
            };
            answer_within(answer, &asked, limit_text);
            drop(map);
        }
        Err(why) => answer.fail(why),
    }
}

/// A context with these values for unknowns.
#[derive(Clone, Copy)]
struct Substituted<'a> {
    extensions: &'a Extensions<'a>,
    context: &'a Context,
    map: &'a HashMap<RcStr, Value>,
}

impl Asked for Substituted<'_> {
    type Ending = Result<Context, EvaluationError>;

    fn outcome(&self, alloc: Global, limit: usize) -> Result<Context, EvaluationError> {
        match self.context.clone() {
            Ok(copy) => copy.substitute(alloc, self.map, self.extensions, limit),
            Err(error) => Err(EvaluationError::Memory(error)),
        }
    }

    fn met(&self, outcome: &Result<Context, EvaluationError>) -> Shortage {
        met_in(outcome)
    }

    fn are_equal(
        &self,
        left: &Result<Context, EvaluationError>,
        right: &Result<Context, EvaluationError>,
    ) -> bool {
        match (left, right) {
            (Ok(left), Ok(right)) => *left == *right,
            (Err(left), Err(right)) => *left == *right,
            (_, _) => false,
        }
    }

    fn put(&self, answer: &mut Answer, outcome: &Result<Context, EvaluationError>) {
        match outcome {
            Ok(context) => answer.show(context),
            Err(error) => answer.show_refusal(error),
        }
    }
}
