//! The authorizer.
ghost use Rattle.std.specs.Prelude.{◌≡◌, ◌≢◌, true, false, Option, IfOk, IfSome};
ghost use Rattle.cedar_model.specs.Agreement.{no_slots};
ghost use Rattle.cedar_model.specs.Failures.{out_of_memory};
ghost use Rattle.cedar_model.specs.Policies.{skip};
ghost use Rattle.cedar_model.specs.Settings.{shallow};
ghost use Rattle.cedar_interpreter.specs.Settings.{resolution_view};
ghost use Rattle.cedar_decisions.specs.Decisions.{mode_view};
ghost use Rattle.cedar_model.specs.Responses.{errs_with};
ghost use Rattle.cedar_names.specs.declared.names.Loc.{Loc};
ghost use Rattle.cedar_layers.specs.Policies.{policy_location};
ghost use Rattle.cedar_layers.specs.PolicySets.{stored_policies};
ghost use Rattle.cedar_errors.specs.Failures.{failure_of};
ghost use Rattle.cedar_evaluator.specs.Evaluations.{setting_of, calls_in, IsPromisedOf};
ghost use Rattle.cedar_evaluator.specs.Evaluations as evaluations;
ghost use Rattle.cedar_authorizer.specs.responses.Responses.{response_view};
ghost use Rattle.cedar_authorizer.specs.responses.Rows.{rows_view};
ghost use Rattle.cedar_authorizer.specs.responses.Rows as rows;
ghost use Rattle.cedar_authorizer.specs.responses.Sheets.{outcome_view};
ghost use Rattle.cedar_authorizer.specs.Configured.{configuration, asked};
ghost use Rattle.cedar_authorizer.specs.Responding.{considered};
ghost use Rattle.cedar_authorizer.specs.Running.{errors_of, request_of, IsRun, ResponseStands};
ghost use Rattle.cedar_authorizer.specs.Running.{IsDeepEnough, IsConcreteRun};
ghost use Rattle.cedar_authorizer.specs.Running.{ComesOutBy, IsNotedRun, KeepsSheet};
ghost use Rattle.cedar_authorizer.specs.Running.{ResidualsStand, ResidualsAreNoted, IsLeftAt};

pub use crate::reauthorization::{ConcretizationError, ReauthorizationError};
pub use crate::responses::{
    AuthorizationError, Decision, Diagnostics, ErrorHandling, ErrorState, PartialResponse,
    ReportedIds, ReportedPolicies, Response,
};
use crate::responses::{ConditionOutcome, Sheet};
pub use cedar_evaluator::evaluator::Resolution;
use cedar_evaluator::evaluator::{EvaluationError, Evaluator};
use cedar_evaluator::request::Request;
use cedar_extensions::Extensions;
use cedar_layers::policies::{Entities, Policy, PolicyID, PolicySet};
use cedar_values::Value;
use either::{Left, Right};
use sheets::first_sheet;
use std::alloc::{AllocError, Global};
use std::collections::{HashMap, HashSet};
use std::rc::{Rc, RcStr};
use steps::take_steps;
use telling::told_sheet;

pub mod laws;
mod reaching;
mod sheets;
mod steps;
mod telling;

/// Why a policy was skipped, and why a response could not be taken further.
pub mod err {
    pub use crate::reauthorization::{ConcretizationError, ReauthorizationError};
    pub use crate::responses::AuthorizationError;
}

/// How policies came out, effect by effect, as plain data.
#[derive(Drop)]
pub struct EvaluationResponse {
    /// The permits that are satisfied.
    pub satisfied_permits: HashSet<PolicyID>,
    /// The forbids that are satisfied.
    pub satisfied_forbids: HashSet<PolicyID>,
    /// The error of each policy that erred.
    pub errors: Vec<AuthorizationError>,
    /// The permits of which a residual is left.
    pub permit_residuals: PolicySet,
    /// The forbids of which a residual is left.
    pub forbid_residuals: PolicySet,
}

/// Decides requests, with these extensions, within so many levels of evaluation, in one of two ways to handle errors
/// and in one of two to answer what reads a stored residual.
#[derive(Clone, Copy)]
pub struct Authorizer<'f> {
    extensions: Extensions<'f>,
    limit: usize,
    error_handling: ErrorHandling,
    resolution: Resolution,
}

impl<'f> Authorizer<'f> {
    ghost use Rattle.std.specs.Prelude.{IfErr};
    ghost use Rattle.cedar_authorizer.specs.reauthorization.Errors.{IsUnwrapped};
    ghost use Rattle.cedar_authorizer.specs.Steps.{step_answer};
    ghost use Rattle.cedar_authorizer.specs.Configured.{extensions_of, limit_of, mode_of, resolution_of};
    ghost use Rattle.cedar_authorizer.specs.Responding.{IsKnownResponse, IsKnownRun, MeetsNoLimit};
    ghost use Rattle.cedar_authorizer.specs.Responding.{OwnWorldCompletesCall};
    ghost use Rattle.cedar_authorizer.specs.Headline.{steps_view, IsChain, IsHeadline, LeavesNothing};

    /// The authorizer that uses these extensions, skips errors, and answers stored residuals as they are stored. A
    /// condition whose evaluation goes more than `limit` levels deep counts as erring, with `RecursionLimit`: an
    /// expression is one level and its parts one more, and a part that is not read takes none.
    pub fn new(extensions: &Extensions<'f>, limit: usize) -> Authorizer<'f>
        ensures extensions { extensions_of result ≡ extensions.now }
        ensures limit { limit_of result ≡ limit }
        ensures mode { mode_of result ≡ skip }
        ensures resolution { resolution_of result ≡ shallow }
    {
        Authorizer {
            extensions: *extensions,
            limit,
            error_handling: ErrorHandling::Skip,
            resolution: Resolution::Shallow,
        }
    }

    /// The same authorizer, which handles errors so.
    pub fn with_error_handling(self, error_handling: ErrorHandling) -> Authorizer<'f>
        ensures extensions { extensions_of result ≡ extensions_of self.entry }
        ensures limit { limit_of result ≡ limit_of self.entry }
        ensures mode { mode_of result ≡ mode_view error_handling }
        ensures resolution { resolution_of result ≡ resolution_of self.entry }
    {
        Authorizer {
            error_handling,
            ..self
        }
    }

    /// The same authorizer, which answers so what reads a stored residual.
    pub fn with_resolution(self, resolution: Resolution) -> Authorizer<'f>
        ensures extensions { extensions_of result ≡ extensions_of self.entry }
        ensures limit { limit_of result ≡ limit_of self.entry }
        ensures mode { mode_of result ≡ mode_of self.entry }
        ensures resolution { resolution_of result ≡ resolution_view resolution }
    {
        Authorizer { resolution, ..self }
    }

    /// How it handles errors.
    pub fn error_handling(&self) -> ErrorHandling
        ensures { mode_view result ≡ mode_of self.now }
    {
        self.error_handling
    }

    /// What reading a stored residual answers.
    pub fn resolution(&self) -> Resolution
        ensures { resolution_view result ≡ resolution_of self.now }
    {
        self.resolution
    }

    /// What the policies decide for the request over this store: a satisfied forbid denies, else a satisfied permit
    /// allows, else it is denied. A policy that errs is skipped, and its error is recorded; so is one of whose
    /// condition something is left, with `NonValue`. In `ForbidOnError` a forbid that errs, or of whose condition
    /// something is left, denies too. It is what `is_authorized_core` answers, made concrete. Refuses only if
    /// out of memory.
    pub fn is_authorized(
        &self,
        alloc: Global,
        request: Request,
        policies: &PolicySet,
        entities: &Entities,
    ) -> Result<Response, AllocError>
        ensures response { IfOk result (λ r.
            IsConcreteRun (configuration self.now) (asked self.now request entities.now) (considered policies.now)
            (response_view r)) }
        ensures known { IfOk result (λ r.
            IsKnownResponse (configuration self.now) (asked self.now request entities.now) (considered policies.now)
            (response_view r)) }
        ensures limit { IfOk result (λ r.
            MeetsNoLimit (configuration self.now) (asked self.now request entities.now) (considered policies.now)
            (response_view r).errors) }
        ensures own_world { OwnWorldCompletesCall (asked self.now request entities.now) (considered policies.now) }
    {
        let sheet = told_sheet(alloc, self, &request, policies, entities)?;
        let shared = Rc::new(alloc, request)?;
        let response = response_of(alloc, self.error_handling, sheet, shared)?;
        response.concretize(alloc)
    }

    /// What is known of each policy for the request over this store: whether it is satisfied, or what is left of its
    /// condition. A policy that errs is false with `ErrorState::Error`, and its error is recorded, the recursion limit
    /// included; in `ForbidOnError` a forbid that errs is satisfied, and its error recorded. In every completion of the
    /// request and the store what is reported stands, if no recursion limit is recorded. Where nothing is unknown no
    /// residual is left, and the decision is given. Refuses only if out of memory.
    pub fn is_authorized_core(
        &self,
        alloc: Global,
        request: Request,
        policies: &PolicySet,
        entities: &Entities,
    ) -> Result<PartialResponse, AllocError>
        ensures run { IfOk result
            (IsRun (configuration self.now) (asked self.now request entities.now) (considered policies.now)) }
        ensures stands { IfOk result (ResponseStands (configuration self.now) (asked self.now request entities.now)
            (considered policies.now)) }
        ensures known { IfOk result (λ r. IsKnownRun (configuration self.now) (asked self.now request entities.now)
            (considered policies.now) (rows_view r) (errors_of r)) }
        ensures limit { IfOk result (λ r. MeetsNoLimit (configuration self.now) (asked self.now request entities.now)
            (considered policies.now) (errors_of r)) }
        ensures deep_enough { IfOk result (IsDeepEnough (configuration self.now) (asked self.now request entities.now)
            (considered policies.now)) }
        ensures places { IfOk result (ResidualsStand (stored_policies policies.now)) }
        ensures request { IfOk result (λ r. request_of r ≡ request) }
    {
        let sheet = first_sheet(alloc, self, &request, policies, entities)?;
        response_of(alloc, self.error_handling, sheet, Rc::new(alloc, request)?)
    }

    /// The core call, and then one `reauthorize` a step, each with the step's map of values for unknowns and its store.
    /// Where the errors of a response hold the recursion limit, that response is the answer, and no step after it is
    /// taken: the limit can stand for a forbid that errs, which a further step would carry on as false. Refuses as the
    /// first step that is refused, or if out of memory.
    #[tactic(auto, using(crate::proofs::Joined::memory_unwrapped))]
    pub fn authorize_in_steps(
        &self,
        alloc: Global,
        request: Request,
        policies: &PolicySet,
        entities: &Entities,
        steps: &[(&HashMap<RcStr, Value>, &Entities)],
    ) -> Result<PartialResponse, ReauthorizationError>
        ensures chain { IfSome (step_answer result)
            (IsChain (configuration self.now) (asked self.now request entities.now)
            (considered policies.now) (steps_view (resolution_of self.now) steps.now)) }
        ensures memory { IfErr result IsUnwrapped }
        ensures headline { IfOk result (IsHeadline (configuration self.now) (asked self.now request entities.now)
            (considered policies.now) (steps_view (resolution_of self.now) steps.now)) }
        ensures known { IfOk result (LeavesNothing (configuration self.now) (asked self.now request entities.now)
            (considered policies.now)) }
    {
        let response = self.is_authorized_core(alloc, request, policies, entities)?;
        take_steps(alloc, response, self, steps)
    }
}

// How each policy comes out by this evaluator, in their order.
fn run_all(
    alloc: Global,
    mode: ErrorHandling,
    evaluator: &Evaluator<'_, '_>,
    policies: &PolicySet,
) -> Result<Sheet, AllocError>
    ensures run { IfOk result (IsNotedRun (mode_view mode) (setting_of evaluator.now no_slots) (calls_in evaluator.now)
        (evaluations.limit_of evaluator.now) (considered policies.now)) }
    ensures places { IfOk result (ResidualsAreNoted (stored_policies policies.now)) }
{
    let mut sheet = Sheet::new(alloc);
    'policies: for policy in policies.policies() {
        let outcome = outcome_of(alloc, evaluator, policy)?;
        sheet.place(mode, policy, outcome)?;
    }
    Ok(sheet)
}

// How the policy's condition comes out. Running out of memory is no outcome.
fn outcome_of(
    alloc: Global,
    evaluator: &Evaluator<'_, '_>,
    policy: &Policy,
) -> Result<ConditionOutcome, AllocError>
    ensures outcome { IfOk result (λ o. ComesOutBy (IsPromisedOf evaluator.now policy.now) (outcome_view o)) }
    ensures place { IfOk result (IsLeftAt (policy_location policy.now)) }
{
    match evaluator.partial_evaluate(alloc, policy) {
        Ok(Left(is_true)) => Ok(ConditionOutcome::Decided(is_true)),
        Ok(Right(residual)) => Ok(ConditionOutcome::Residual(Rc::new(alloc, residual)?)),
        Err(error) => failed_outcome(error),
    }
}

// Running out of memory is never recorded.
#[tactic(auto, using(crate::proofs::Wanting::is_not_memory))]
fn failed_outcome(error: EvaluationError) -> Result<ConditionOutcome, AllocError>
    ensures memory { IfOk result (λ o. failure_of error ≢ out_of_memory) }
    ensures outcome { IfOk result (λ o. outcome_view o ≡ errs_with (failure_of error)) }
    ensures place { (l : Option Loc) → IfOk result (IsLeftAt l) }
{
    if error.is_out_of_memory() {
        return Err(AllocError);
    }
    Ok(ConditionOutcome::Failed(error))
}

// The response of what is noted.
fn response_of(
    alloc: Global,
    mode: ErrorHandling,
    sheet: Sheet,
    request: Rc<Request>,
) -> Result<PartialResponse, AllocError>
    ensures mode { IfOk result (λ r. rows.mode_of r ≡ mode_view mode) }
    ensures kept { IfOk result (λ r. KeepsSheet sheet r) }
    ensures request { IfOk result (λ r. r.request ≡ request) }
{
    PartialResponse::new_in_mode(
        alloc,
        mode,
        sheet.true_permits.into_iter(),
        sheet.false_permits.into_iter(),
        sheet.residual_permits.into_iter(),
        sheet.true_forbids.into_iter(),
        sheet.false_forbids.into_iter(),
        sheet.residual_forbids.into_iter(),
        sheet.errors.into_iter(),
        request,
    )
}
