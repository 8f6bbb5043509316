//! What policies decide, and what a policy holds.
use crate::answers::described::describe;
use crate::answers::documents::put_response;
use crate::levels::{Asked, Shortage, answer_within, met_in};
use crate::notation::answer::Answer;
use crate::notation::policies::{policies, policy, policy_set};
use crate::notation::settings::Setting;
use crate::notation::shown::{LIMIT, Place, is_equal};
use cedar_authorizer::authorizer::{
    AuthorizationError, Authorizer, ErrorHandling, Resolution, Response,
};
use cedar_evaluator::evaluator::{EvaluationError, Evaluator};
use cedar_example_rows::lines::{decision_text, reasons_text};
use cedar_layers::expressions::{Expr, ExprKind};
use cedar_layers::policies::{Policy, PolicySet};
use cedar_text_printer::effect_text;
use either::Either;
use std::alloc::{AllocError, Global};

/// What the policies decide for the request.
pub fn ask(
    answer: &mut Answer,
    facts: &str,
    setting: &Setting<'_, '_>,
    kind: &str,
    limit_text: &str,
    ids: &str,
) {
    let limit = answer.limit(limit_text);
    match policy_set(answer.alloc, facts, ids) {
        Ok(policies) => {
            decide(answer, setting, kind, limit, &policies);
            drop(policies);
        }
        Err(why) => answer.fail(why),
    }
}

fn decide(
    answer: &mut Answer,
    setting: &Setting<'_, '_>,
    kind: &str,
    limit: usize,
    policies: &PolicySet,
) {
    match response(answer.alloc, setting, limit, policies) {
        Ok(response) => {
            put_decided(answer, kind, &response);
            drop(response);
        }
        Err(_) => answer.lack_memory(),
    }
}

fn response(
    alloc: Global,
    setting: &Setting<'_, '_>,
    limit: usize,
    policies: &PolicySet,
) -> Result<Response, AllocError> {
    let authorizer = Authorizer::new(setting.extensions, limit)
        .with_error_handling(setting.error_handling)
        .with_resolution(setting.resolution);
    let request = setting.request.clone()?;
    authorizer.is_authorized(alloc, request, policies, &setting.entities)
}

fn put_decided(answer: &mut Answer, kind: &str, response: &Response) {
    match kind {
        "decide" => {
            put_decision(answer, response);
            put_errors(answer, &response.diagnostics.errors);
        }
        "decide-texts" => {
            put_decision(answer, response);
            put_texts(answer, &response.diagnostics.errors);
        }
        "decide-extensions" => {
            put_decision(answer, response);
            put_extensions(answer, &response.diagnostics.errors);
        }
        "decide-json" => put_response(answer, response),
        _ => put_is_copied(answer, response),
    }
}

/// How errors are handled by default, by a new authorizer, or by that of the setting.
pub fn ask_mode(answer: &mut Answer, setting: &Setting<'_, '_>, words: &str) {
    match words {
        "default" => answer.show_debug(&ErrorHandling::default()),
        "new" => answer.show_debug(&mode_of_new(setting)),
        "setting" => answer.show_debug(&mode_of(setting)),
        _ => answer.refuse("no such authorizer"),
    }
}

// How a new authorizer handles errors.
fn mode_of_new(setting: &Setting<'_, '_>) -> ErrorHandling {
    let authorizer = Authorizer::new(setting.extensions, LIMIT);
    authorizer.error_handling()
}

// How one that handles errors as the setting says does.
fn mode_of(setting: &Setting<'_, '_>) -> ErrorHandling {
    let authorizer = Authorizer::new(setting.extensions, LIMIT).with_error_handling(
        setting.error_handling,
    );
    authorizer.error_handling()
}

/// What reading a stored residual answers by default, or by a new authorizer and a new evaluator, or by those of the
/// setting.
pub fn ask_resolution(answer: &mut Answer, setting: &Setting<'_, '_>, words: &str) {
    match words {
        "default" => answer.show_debug(&Resolution::default()),
        "new" => put_resolutions(answer, setting, resolution_of_new(setting), None),
        "setting" => {
            let chosen = Some(setting.resolution);
            put_resolutions(answer, setting, resolution_of(setting), chosen);
        }
        _ => answer.refuse("no such authorizer"),
    }
}

// The resolution of a new authorizer.
fn resolution_of_new(setting: &Setting<'_, '_>) -> Resolution {
    let authorizer = Authorizer::new(setting.extensions, LIMIT);
    authorizer.resolution()
}

// That of one which has the setting's.
fn resolution_of(setting: &Setting<'_, '_>) -> Resolution {
    let authorizer = Authorizer::new(setting.extensions, LIMIT).with_resolution(setting.resolution);
    authorizer.resolution()
}

// That of an authorizer, and that of an evaluator that is new or has the chosen one.
fn put_resolutions(
    answer: &mut Answer,
    setting: &Setting<'_, '_>,
    of_authorizer: Resolution,
    chosen: Option<Resolution>,
) {
    answer.show_debug(&of_authorizer);
    answer.put(", of an evaluator ");
    match resolution_of_evaluator(answer.alloc, setting, chosen) {
        Ok(resolution) => answer.show_debug(&resolution),
        Err(_) => answer.lack_memory(),
    }
}

fn resolution_of_evaluator(
    alloc: Global,
    setting: &Setting<'_, '_>,
    chosen: Option<Resolution>,
) -> Result<Resolution, AllocError> {
    let request = setting.request.clone()?;
    let evaluator = Evaluator::new(alloc, request, &setting.entities, setting.extensions, LIMIT)?;
    let evaluator = match chosen {
        Some(resolution) => evaluator.with_resolution(resolution),
        None => evaluator,
    };
    let resolution = evaluator.resolution();
    drop(evaluator);
    Ok(resolution)
}

// Whether a copy of the response is equal to it.
fn put_is_copied(answer: &mut Answer, response: &Response) {
    match is_equal(response.clone(), response) {
        Ok(is_same) => answer.show(&is_same),
        Err(_) => answer.lack_memory(),
    }
}

/// `Allow [reasons]`
pub fn put_decision(answer: &mut Answer, response: &Response) {
    let reasons = reasons_text(answer.alloc, &response.diagnostics.reason);
    answer.put(decision_text(response.decision));
    answer.put(" [");
    answer.show_made(reasons);
    answer.put("]");
}

// ` [errors]`: each error behind its policy, and its place.
fn put_errors(answer: &mut Answer, errors: &[AuthorizationError]) {
    answer.put(" [");
    answer.begin();
    for error in errors {
        answer.next("; ");
        put_error(answer, error);
    }
    answer.put("]");
}

fn put_error(answer: &mut Answer, error: &AuthorizationError) {
    let AuthorizationError::PolicyEvaluationError { id, error } = error;
    answer.show(id);
    answer.put(": ");
    describe(answer, error);
    answer.put(" ");
    answer.show(&Place(error.source_loc()));
}

// The same with the errors' own texts, of copies of them.
fn put_texts(answer: &mut Answer, errors: &[AuthorizationError]) {
    answer.put(" [");
    answer.begin();
    for error in errors {
        answer.next("; ");
        answer.show_made(error.clone());
    }
    answer.put("]");
}

// ` [extensions]`: behind each policy that erred the extension of which a function failed, if one did.
fn put_extensions(answer: &mut Answer, errors: &[AuthorizationError]) {
    answer.put(" [");
    answer.begin();
    for error in errors {
        let AuthorizationError::PolicyEvaluationError { id, error } = error;
        answer.next("; ");
        answer.show(id);
        if let EvaluationError::FailedExtensionFunctionExecution(error) = error {
            answer.put(" ");
            answer.show(error.extension_name());
        }
    }
    answer.put("]");
}

/// What the condition of the policy comes out as, or partly comes out as.
pub fn ask_condition(
    answer: &mut Answer,
    facts: &str,
    setting: &Setting<'_, '_>,
    kind: &str,
    limit_text: &str,
    id: &str,
) {
    match policy(answer.alloc, facts, id) {
        Ok(policy) => {
            put_condition_of(answer, setting, kind, limit_text, &policy);
            drop(policy);
        }
        Err(why) => answer.fail(why),
    }
}

fn put_condition_of(
    answer: &mut Answer,
    setting: &Setting<'_, '_>,
    kind: &str,
    limit_text: &str,
    policy: &Policy,
) {
    if kind == "evaluate" {
        answer_within(answer, &Wholly { setting, policy }, limit_text);
    } else {
        answer_within(answer, &Partly { setting, policy }, limit_text);
    }
}

/// What the condition of a policy comes out as.
#[derive(Clone, Copy)]
struct Wholly<'a> {
    setting: &'a Setting<'a, 'a>,
    policy: &'a Policy,
}

impl Asked for Wholly<'_> {
    type Ending = Result<bool, EvaluationError>;

    fn outcome(&self, alloc: Global, limit: usize) -> Result<bool, EvaluationError> {
        let request = self.setting.request.clone()?;
        let (entities, extensions) = (&self.setting.entities, self.setting.extensions);
        let evaluator = Evaluator::new(alloc, request, entities, extensions, limit)?
            .with_unknowns_mapper(&self.setting.map)
            .with_resolution(self.setting.resolution);
        let outcome = evaluator.evaluate(alloc, self.policy);
        drop(evaluator);
        outcome
    }

    fn met(&self, outcome: &Result<bool, EvaluationError>) -> Shortage {
        met_in(outcome)
    }

    fn are_equal(
        &self,
        left: &Result<bool, EvaluationError>,
        right: &Result<bool, EvaluationError>,
    ) -> bool {
        *left == *right
    }

    fn put(&self, answer: &mut Answer, outcome: &Result<bool, EvaluationError>) {
        put_truth(answer, outcome);
    }
}

/// What the condition of a policy partly comes out as.
#[derive(Clone, Copy)]
struct Partly<'a> {
    setting: &'a Setting<'a, 'a>,
    policy: &'a Policy,
}

impl Asked for Partly<'_> {
    type Ending = Result<Either<bool, Expr>, EvaluationError>;

    fn outcome(&self, alloc: Global, limit: usize) -> Result<Either<bool, Expr>, EvaluationError> {
        let request = self.setting.request.clone()?;
        let (entities, extensions) = (&self.setting.entities, self.setting.extensions);
        let evaluator = Evaluator::new(alloc, request, entities, extensions, limit)?
            .with_unknowns_mapper(&self.setting.map)
            .with_resolution(self.setting.resolution);
        let outcome = evaluator.partial_evaluate(alloc, self.policy);
        drop(evaluator);
        outcome
    }

    fn met(&self, outcome: &Result<Either<bool, Expr>, EvaluationError>) -> Shortage {
        met_in(outcome)
    }

    fn are_equal(
        &self,
        left: &Result<Either<bool, Expr>, EvaluationError>,
        right: &Result<Either<bool, Expr>, EvaluationError>,
    ) -> bool {
        *left == *right
    }

    fn put(&self, answer: &mut Answer, outcome: &Result<Either<bool, Expr>, EvaluationError>) {
        put_left(answer, outcome);
    }
}

fn put_truth(answer: &mut Answer, outcome: &Result<bool, EvaluationError>) {
    match outcome {
        Ok(is_true) => answer.show(is_true),
        Err(error) => describe(answer, error),
    }
}

fn put_left(answer: &mut Answer, outcome: &Result<Either<bool, Expr>, EvaluationError>) {
    match outcome {
        Ok(Either::Left(is_true)) => answer.show(is_true),
        Ok(Either::Right(expr)) => answer.show(expr),
        Err(error) => describe(answer, error),
    }
}

/// The ids of the set of these policies with their effects, in order, or why there is no such set.
pub fn ask_set(answer: &mut Answer, facts: &str, kind: &str, ids: &str) {
    match policies(answer.alloc, facts, ids) {
        Ok(policies) => put_set(answer, kind, policies),
        Err(why) => answer.fail(why),
    }
}

fn put_set(answer: &mut Answer, kind: &str, policies: Vec<Policy>) {
    match PolicySet::try_from_iter(answer.alloc, policies) {
        Ok(set) => {
            put_set_of(answer, kind, &set);
            drop(set);
        }
        Err(error) => {
            answer.show_refusal(&error);
            drop(error);
        }
    }
}

fn put_set_of(answer: &mut Answer, kind: &str, set: &PolicySet) {
    if kind == "set" {
        put_policies(answer, set);
    } else {
        answer.show_debug(set);
    }
}

fn put_policies(answer: &mut Answer, set: &PolicySet) {
    answer.begin();
    for policy in set {
        answer.next(",");
        put_named(answer, policy);
    }
}

/// The effect and the id.
pub fn put_named(answer: &mut Answer, policy: &Policy) {
    answer.put(effect_text(policy.effect()));
    answer.put(" ");
    answer.show(policy.id());
}

/// What the policy holds, or its condition.
pub fn ask_policy(answer: &mut Answer, facts: &str, kind: &str, id: &str) {
    match policy(answer.alloc, facts, id) {
        Ok(policy) => {
            put_copied(answer, kind, policy.clone());
            drop(policy);
        }
        Err(why) => answer.fail(why),
    }
}

fn put_copied(answer: &mut Answer, kind: &str, copy: Result<Policy, AllocError>) {
    match copy {
        Ok(copy) => {
            put_copy(answer, kind, &copy);
            drop(copy);
        }
        Err(_) => answer.lack_memory(),
    }
}

fn put_copy(answer: &mut Answer, kind: &str, copy: &Policy) {
    if kind == "policy" {
        put_policy(answer, copy);
    } else {
        put_condition(answer, copy);
    }
}

// The effect, the id, the annotations and the slots.
fn put_policy(answer: &mut Answer, policy: &Policy) {
    put_named(answer, policy);
    answer.put(" ");
    answer.show_debug(&policy.annotations_rc().0);
    answer.put(" ");
    answer.show_debug(policy.env());
}

// The condition, where each of its conjunctions stands, and where the first constraint does.
fn put_condition(answer: &mut Answer, policy: &Policy) {
    match policy.condition(answer.alloc) {
        Ok(condition) => put_places(answer, &condition),
        Err(_) => answer.lack_memory(),
    }
}

fn put_places(answer: &mut Answer, condition: &Expr) {
    let both = left_of(condition);
    let scope = left_of(both);
    answer.show(condition);
    put_place(answer, condition);
    put_place(answer, both);
    put_place(answer, scope);
    put_place(answer, left_of(scope));
}

fn put_place(answer: &mut Answer, expr: &Expr) {
    answer.put(", ");
    answer.show(&Place(expr.source_loc()));
}

// The left side of a conjunction, and else the expression.
fn left_of(expr: &Expr) -> &Expr {
    match expr.expr_kind() {
        ExprKind::And { left, .. } => left.as_ref(),
        _ => expr,
    }
}
