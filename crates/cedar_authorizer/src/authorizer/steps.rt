//! Reauthorization: a response taken further, by values for its unknowns and another store.
ghost use Rattle.std.specs.Prelude.{◌≡◌, ◌≢◌, true, Option, Some, IfOk, IfErr, IfSome};
ghost use Rattle.cedar_model.specs.Chains.{Response, is_limit, has_limit, is_same_mode};
ghost use Rattle.cedar_model.specs.Failures.{recursion_limit, failure_kind};
ghost use Rattle.cedar_model.specs.Refusals.{context_fails};
ghost use Rattle.cedar_authorizer.specs.Steps.{IsConflict};
ghost use Rattle.cedar_decisions.specs.Decisions.{mode_view};
ghost use Rattle.cedar_names.specs.declared.names.Loc.{Loc};
ghost use Rattle.cedar_requests.specs.Requests.{request_view};
ghost use Rattle.cedar_requests.specs.Substitutions.{values_for};
ghost use Rattle.cedar_authorizer.specs.responses.Responses.{error_view, errors_view};
ghost use Rattle.cedar_authorizer.specs.reauthorization.Concretizations.{entity_locs, concrete_locs};
ghost use Rattle.cedar_authorizer.specs.reauthorization.Concretizations.{IsResidualNoHigher};
ghost use Rattle.cedar_authorizer.specs.reauthorization.Errors.{step_refusal, IsUnwrapped};
ghost use Rattle.cedar_authorizer.specs.responses.Rows as rows;
ghost use Rattle.cedar_authorizer.specs.Configured.{configuration, limit_of, mode_of, resolution_of};
ghost use Rattle.cedar_authorizer.specs.Headline.{steps_view, IsTakenFurther};
ghost use Rattle.cedar_authorizer.specs.Responding.{considered};
ghost use Rattle.cedar_authorizer.specs.Running.{request_of, IsRun, IsNotedBy};
ghost use Rattle.cedar_authorizer.specs.Running.{ResidualsStand, ResidualsStay, ResidualsAreNoted};
ghost use Rattle.cedar_layers.specs.PolicySets.{stored_policies};
ghost use Rattle.cedar_authorizer.specs.Steps.{step_answer, response_said, step_by, under, IsDecidedAgain, IsStep};
ghost use Rattle.cedar_authorizer.specs.Steps.{KeepsCompletions, KeepsWhatStands};
ghost use Rattle.cedar_authorizer.specs.Steps.{TakesNothingBack, Finishes, StepIsDeepEnough};

use super::{Authorizer, response_of, run_all};
use crate::reauthorization::{ReauthorizationError, concretize_request, residual_policies};
use crate::responses::{AuthorizationError, ErrorHandling, PartialResponse, Sheet};
use cedar_evaluator::evaluator::Evaluator;
use cedar_evaluator::request::Request;
use cedar_layers::policies::{Entities, PolicySet};
use cedar_values::Value;
use std::alloc::{AllocError, Global};
use std::collections::HashMap;
use std::rc::{Rc, RcStr};

impl PartialResponse {
    /// The response that follows by the map's values for unknowns, over this store. All policies are decided again,
    /// each with what was reported of it as its condition: the satisfied permits, those that are not, the residual
    /// ones, and then the forbids. Refuses, in this order: with `ErrorHandlingConflict`, before anything is allocated,
    /// where the response and the authorizer handle errors in different ways; with `PolicySetError` where two of the
    /// policies have one id; with `ConcretizationError` where the map makes no request of the response's (`ValueError`,
    /// `VarConfictError`, `EntityTypeConfictError`, of principal, action, resource and context in turn), or where the
    /// evaluation of the context with the map's values in it fails (`ValueEval`); or if out of memory. Evaluation
    /// goes at most the authorizer's limit of levels deep.
    ///
    /// Do not take a response further whose errors hold the recursion limit: a forbid that met it is not known to be
    /// false, but the next step carries it on as false, so that a decision may be given that is not so.
    /// `Authorizer::authorize_in_steps` stops there.
    pub fn reauthorize(
        &self,
        alloc: Global,
        map: &HashMap<RcStr, Value>,
        authorizer: &Authorizer<'_>,
        entities: &Entities,
    ) -> Result<PartialResponse, ReauthorizationError>
        ensures conflict { IsConflict (mode_of authorizer.now) (response_said self.now).mode (step_answer result) }
        ensures step { IfSome (step_answer result)
            (IsStep (configuration authorizer.now) (step_by map.now entities.now) (response_said self.now)) }
        ensures memory { IfErr result IsUnwrapped }
        ensures places { IfOk result (λ r. entity_locs (request_of r)
            ≡ concrete_locs (values_for map.now.entries) (entity_locs (request_of self.now))) }
        ensures residual_places { IfOk result (ResidualsStay (rows.located_view self.now)) }
        ensures completes { IfOk result
            (KeepsCompletions (configuration authorizer.now) (step_by map.now entities.now) (response_said self.now)) }
        ensures stands { IfOk result
            (KeepsWhatStands (configuration authorizer.now) (step_by map.now entities.now) (response_said self.now)) }
        ensures kept { IfOk result
            (TakesNothingBack (configuration authorizer.now) (step_by map.now entities.now) (response_said self.now)) }
        ensures finishes { IfOk result
            (Finishes (configuration authorizer.now) (step_by map.now entities.now) (response_said self.now)) }
        ensures deep_enough { IfSome (step_answer result)
            (StepIsDeepEnough (configuration authorizer.now) (step_by map.now entities.now) (response_said self.now)) }
    {
        let mode = self.error_handling();
        if is_same_mode(authorizer.error_handling, mode) {
            in_same_mode(alloc, self, map, authorizer, entities)
        } else {
            Err(ReauthorizationError::ErrorHandlingConflict {
                response: mode,
                authorizer: authorizer.error_handling,
            })
        }
    }
}

// Whether both handle errors in the same way.
#[tactic(auto, unfolding(cedar_model::specs::Chains::is_same_mode))]
fn is_same_mode(one: ErrorHandling, other: ErrorHandling) -> bool
    ensures { result ≡ is_same_mode (mode_view one) (mode_view other) }
{
    match (one, other) {
        (ErrorHandling::Skip, ErrorHandling::Skip) => true,
        (ErrorHandling::Skip, ErrorHandling::ForbidOnError) => false,
        (ErrorHandling::ForbidOnError, ErrorHandling::Skip) => false,
        (ErrorHandling::ForbidOnError, ErrorHandling::ForbidOnError) => true,
    }
}

// The policies of the response, decided again, where both handle errors in the same way.
fn in_same_mode(
    alloc: Global,
    response: &PartialResponse,
    map: &HashMap<RcStr, Value>,
    authorizer: &Authorizer<'_>,
    entities: &Entities,
) -> Result<PartialResponse, ReauthorizationError>
    requires { is_same_mode (mode_of authorizer.now) (rows.mode_of response.now) ≡ true }
    ensures step { IfSome (step_answer result)
        (IsStep (configuration authorizer.now) (step_by map.now entities.now) (response_said response.now)) }
    ensures memory { IfErr result IsUnwrapped }
    ensures places { IfOk result (λ r. entity_locs r.request.value
        ≡ concrete_locs (values_for map.now.entries) (entity_locs response.now.request.value)) }
    ensures residual_places { IfOk result (ResidualsStay (rows.located_view response.now)) }
    ensures low { IsResidualNoHigher (values_for map.now.entries) (limit_of authorizer.now)
        (request_view response.now.request.value).context_part
        → IfErr result (λ e. step_refusal e ≢ Some (context_fails recursion_limit)) }
{
    match residual_policies(alloc, response) {
        Ok(policies) => {
            with_policies(
                alloc,
                &response.request,
                &policies,
                map,
                authorizer,
                entities,
            )
        }
        Err(error) => Err(error),
    }
}

// The same, where the policies are made.
#[tactic(auto, using(crate::proofs::Joined::memory_unwrapped, crate::proofs::Unwrapped::request_unwrapped))]
fn with_policies(
    alloc: Global,
    request: &Request,
    policies: &PolicySet,
    map: &HashMap<RcStr, Value>,
    authorizer: &Authorizer<'_>,
    entities: &Entities,
) -> Result<PartialResponse, ReauthorizationError>
    ensures step { IfSome (step_answer result)
        (IsDecidedAgain (configuration authorizer.now) (step_by map.now entities.now) (request_view request.now)
        (considered policies.now)) }
    ensures memory { IfErr result IsUnwrapped }
    ensures places { IfOk result (λ r. entity_locs r.request.value
        ≡ concrete_locs (values_for map.now.entries) (entity_locs request.now)) }
    ensures residual_places { IfOk result (ResidualsStand (stored_policies policies.now)) }
    ensures low { IsResidualNoHigher (values_for map.now.entries) (limit_of authorizer.now)
        (request_view request.now).context_part
        → IfErr result (λ e. step_refusal e ≢ Some (context_fails recursion_limit)) }
{
    match concretize_request(
        alloc,
        request,
        map,
        &authorizer.extensions,
        authorizer.limit,
    ) {
        Ok(request) => Ok(decided_again(alloc, request, policies, map, authorizer, entities)?),
        Err(error) => Err(ReauthorizationError::from(error)),
    }
}

// The response to the policies for the request that the map makes.
fn decided_again(
    alloc: Global,
    request: Request,
    policies: &PolicySet,
    map: &HashMap<RcStr, Value>,
    authorizer: &Authorizer<'_>,
    entities: &Entities,
) -> Result<PartialResponse, AllocError>
    ensures run { IfOk result (IsRun (configuration authorizer.now)
        (under (configuration authorizer.now) (step_by map.now entities.now) (request_view request))
        (considered policies.now)) }
    ensures residual_places { IfOk result (ResidualsStand (stored_policies policies.now)) }
    ensures request { IfOk result (λ r. r.request.value ≡ request) }
{
    let sheet = next_sheet(alloc, &request, policies, map, authorizer, entities)?;
    response_of(
        alloc,
        authorizer.error_handling,
        sheet,
        Rc::new(alloc, request)?,
    )
}

// How each policy comes out, in their order, with the map's values for unknowns.
fn next_sheet(
    alloc: Global,
    request: &Request,
    policies: &PolicySet,
    map: &HashMap<RcStr, Value>,
    authorizer: &Authorizer<'_>,
    entities: &Entities,
) -> Result<Sheet, AllocError>
    ensures run { IfOk result (IsNotedBy (configuration authorizer.now)
        (under (configuration authorizer.now) (step_by map.now entities.now) (request_view request.now))
        (considered policies.now)) }
    ensures places { IfOk result (ResidualsAreNoted (stored_policies policies.now)) }
{
    let evaluator = Evaluator::new(
        alloc,
        request.clone()?,
        entities,
        &authorizer.extensions,
        authorizer.limit,
    )?;
    let evaluator = evaluator
        .with_unknowns_mapper(map)
        .with_resolution(authorizer.resolution);
    let sheet = run_all(alloc, authorizer.error_handling, &evaluator, policies);
    drop(evaluator);
    sheet
}

// The response, taken further by each step in turn, up to one whose errors hold the recursion limit.
pub(super) fn take_steps(
    alloc: Global,
    first: PartialResponse,
    authorizer: &Authorizer<'_>,
    steps: &[(&HashMap<RcStr, Value>, &Entities)],
) -> Result<PartialResponse, ReauthorizationError>
    ensures memory { IfErr result IsUnwrapped }
    ensures taken { IfSome (step_answer result)
        (IsTakenFurther (configuration authorizer.now) (steps_view (resolution_of authorizer.now) steps.now) first) }
{
    let mut response = first;
    'steps: for step in steps {
        if has_recursion_limit(&response) {
            return Ok(response);
        }
        let (map, store) = step;
        match take_step(alloc, response, map, authorizer, store) {
            Ok(next) => response = next,
            Err(error) => return Err(error),
        }
    }
    Ok(response)
}

// One step from the response, which is done with.
fn take_step(
    alloc: Global,
    response: PartialResponse,
    map: &HashMap<RcStr, Value>,
    authorizer: &Authorizer<'_>,
    entities: &Entities,
) -> Result<PartialResponse, ReauthorizationError>
    ensures memory { IfErr result IsUnwrapped }
    ensures step { IfSome (step_answer result)
        (IsStep (configuration authorizer.now) (step_by map.now entities.now) (response_said response)) }
{
    let next = response.reauthorize(alloc, map, authorizer, entities);
    drop(response);
    next
}

// Whether the recursion limit is among the response's errors.
fn has_recursion_limit(response: &PartialResponse) -> bool
    ensures { result ≡ has_limit (errors_view response.now.errors.items) }
{
    has_limit(&response.errors)
}

// Whether the recursion limit is among these errors.
fn has_limit(errors: &[AuthorizationError]) -> bool
    ensures { result ≡ has_limit (errors_view errors.now) }
{
    'errors: for error in errors {
        if is_recursion_limit(error) {
            return true;
        }
    }
    false
}

// Whether the policy met the recursion limit.
fn is_recursion_limit(error: &AuthorizationError) -> bool
    ensures { result ≡ is_limit (failure_kind (error_view error.now).1) }
{
    let AuthorizationError::PolicyEvaluationError { id: _, error } = error;
    error.is_recursion_limit()
}
