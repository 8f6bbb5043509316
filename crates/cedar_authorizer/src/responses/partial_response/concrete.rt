//! A partial response made concrete.
ghost use Rattle.std.specs.Prelude.{◌≡◌, ◌||◌, [], ◌∷◌, ◌++◌, Ok, IfOk, OnOk};
ghost use Rattle.cedar_model.specs.Outcomes.{has_text};
ghost use Rattle.cedar_layers.specs.Policies.{policy_id_text};
ghost use Rattle.cedar_expressions.specs.View.{view, expr_loc};
ghost use Rattle.cedar_model.specs.Failures.{residual_is_left};
ghost use Rattle.cedar_decisions.specs.Decisions.{decision_view, mode_view};
ghost use Rattle.cedar_authorizer.specs.responses.Responses.{error_view, errors_view, error_place, error_places};
ghost use Rattle.cedar_authorizer.specs.responses.Responses.{has_id};
ghost use Rattle.cedar_authorizer.specs.responses.Responses.{response_view, response_places};
ghost use Rattle.cedar_authorizer.specs.responses.Rows.{rows_view};
ghost use Rattle.cedar_authorizer.specs.responses.Promises.{KeepsDecision, IsDecidedByPolicies};
ghost use Rattle.cedar_authorizer.specs.responses.Concrete.{concrete_response, concrete_places, IsConcreteOf};
ghost use Rattle.cedar_authorizer.specs.responses.Concrete.{id_texts, reason_texts, errors_left, places_left};
ghost use Rattle.cedar_authorizer.specs.responses.Readers.{entry_ids};

use super::PartialResponse;
use crate::responses::err::AuthorizationError;
use crate::responses::response::{Diagnostics, Response};
use cedar_decisions::ErrorHandling;
use cedar_errors::evaluator::err::EvaluationError;
use cedar_errors::evaluator::err::evaluation_errors::NonValueError;
use cedar_expressions::Expr;
use cedar_fallible::{add_last, beside, pair_of};
use cedar_layers::policies::{Annotations, PolicyID};
use indexmap::IndexMap;
use std::alloc::{AllocError, Global};
use std::collections::HashSet;
use std::rc::Rc;

impl PartialResponse {
    /// The response where each residual counts as an error, `NonValue` at the residual's location: `Allow` where a
    /// permit is satisfied and no forbid is, for the reasons that must determine the decision; with the errors of
    /// residual forbids, then of residual permits, then those recorded. Where a forbid that errs forbids, a residual
    /// forbid denies too, and the reasons are the satisfied and the residual forbids or, with none, the satisfied
    /// permits. A decision that is given stays. Where no residual is left, decision and reasons are those of the
    /// policies, wherever what is reported of them stands. Refuses only if out of memory.
    pub fn concretize(self, alloc: Global) -> Result<Response, AllocError>
        ensures response { IfOk result (λ r. response_view r ≡ concrete_response self) }
        ensures places { IfOk result (λ r. response_places r ≡ concrete_places self) }
        ensures given { IfOk result (λ r. KeepsDecision (rows_view self) (decision_view r.decision)) }
        ensures decided { IfOk result (λ r. IsDecidedByPolicies (rows_view self) (response_view r)) }
    {
        let decision = self.concrete_decision();
        let may_forbid = self.may_forbid();
        let PartialResponse {
            satisfied_permits,
            false_permits,
            residual_permits,
            satisfied_forbids,
            false_forbids,
            residual_forbids,
            errors,
            request,
            error_handling,
        } = self;
        drop(false_permits);
        drop(false_forbids);
        drop(request);
        let reason: Result<HashSet<PolicyID>, AllocError> = reasons(
            alloc,
            error_handling,
            may_forbid,
            satisfied_permits,
            satisfied_forbids,
            &residual_forbids,
        );
        let errors: Result<Vec<AuthorizationError>, AllocError> = all_errors(
            alloc,
            residual_forbids,
            residual_permits,
            errors,
        );
        let diagnostics = diagnostics_of(reason, errors)?;
        Ok(Response {
            decision,
            diagnostics,
        })
    }
}

/// The response where each residual counts as an error, as `concretize` makes it.
impl TryFrom<PartialResponse> for Response {
    type Error = AllocError;

    ghost try_from_gives = { λ p r. IfOk r (IsConcreteOf p) };

    fn try_from(response: PartialResponse) -> Result<Response, AllocError> {
        let alloc = *response.satisfied_permits.allocator();
        response.concretize(alloc)
    }
}

// Both, or the first that is refused.
fn diagnostics_of(
    reason: Result<HashSet<PolicyID>, AllocError>,
    errors: Result<Vec<AuthorizationError>, AllocError>,
) -> Result<Diagnostics, AllocError>
    ensures reason { IfOk result (λ d. reason ≡ Ok d.reason) }
    ensures errors { IfOk result (λ d. errors ≡ Ok d.errors) }
{
    let (reason, errors) = pair_of(reason, errors)?;
    Ok(Diagnostics { reason, errors })
}

// The ids of the satisfied forbids where a forbid is satisfied or may be, else of the satisfied permits; where a forbid
// that errs forbids, those of the residual forbids beside the satisfied ones.
fn reasons(
    alloc: Global,
    mode: ErrorHandling,
    may_forbid: bool,
    permits: IndexMap<PolicyID, Rc<Annotations>>,
    forbids: IndexMap<PolicyID, Rc<Annotations>>,
    residual_forbids: &IndexMap<PolicyID, (Rc<Expr>, Rc<Annotations>)>,
) -> Result<HashSet<PolicyID>, AllocError>
    ensures { IfOk result (λ s. has_id s
        ≡ (λ t. has_text t (reason_texts (mode_view mode) may_forbid (id_texts permits.entries)
        (id_texts forbids.entries) (entry_ids residual_forbids.now.entries)))) }
{
    match (may_forbid, mode) {
        (true, ErrorHandling::Skip) => {
            drop(permits);
            ids_of(alloc, forbids)
        }
        (true, ErrorHandling::ForbidOnError) => {
            drop(permits);
            all_forbids(alloc, forbids, residual_forbids)
        }
        (false, _) => {
            drop(forbids);
            ids_of(alloc, permits)
        }
    }
}

// The ids of both.
fn all_forbids(
    alloc: Global,
    forbids: IndexMap<PolicyID, Rc<Annotations>>,
    residual_forbids: &IndexMap<PolicyID, (Rc<Expr>, Rc<Annotations>)>,
) -> Result<HashSet<PolicyID>, AllocError>
    ensures { IfOk result (λ s. has_id s
        ≡ (λ t. has_text t (id_texts forbids.entries ++ entry_ids residual_forbids.now.entries))) }
{
    let mut ids = ids_of(alloc, forbids)?;
    'residuals: for id in residual_forbids.keys() {
        ids.insert(id.clone()?)?;
    }
    Ok(ids)
}

fn ids_of(
    alloc: Global,
    entries: IndexMap<PolicyID, Rc<Annotations>>,
) -> Result<HashSet<PolicyID>, AllocError>
    ensures { IfOk result (λ s. has_id s ≡ (λ t. has_text t (id_texts entries.entries))) }
{
    entries.into_keys().collect(alloc)
}

// The errors of residual forbids, then of residual permits, then those recorded.
fn all_errors(
    alloc: Global,
    residual_forbids: IndexMap<PolicyID, (Rc<Expr>, Rc<Annotations>)>,
    residual_permits: IndexMap<PolicyID, (Rc<Expr>, Rc<Annotations>)>,
    mut recorded: Vec<AuthorizationError>,
) -> Result<Vec<AuthorizationError>, AllocError>
    ensures places { IfOk result (λ es. error_places es.items
        ≡ places_left residual_forbids.entries
        ++ (places_left residual_permits.entries ++ error_places recorded.items)) }
    ensures errors { IfOk result (λ es. errors_view es.items
        ≡ errors_left residual_forbids.entries
        ++ (errors_left residual_permits.entries ++ errors_view recorded.items)) }
{
    let mut errors = Vec::new(alloc);
    let (residual_permits, ()) = beside(
        residual_permits,
        add_errors(&mut errors, residual_forbids),
    )?;
    add_errors(&mut errors, residual_permits)?;
    errors.append(&mut recorded)?;
    Ok(errors)
}

fn add_errors(
    errors: &mut Vec<AuthorizationError>,
    entries: IndexMap<PolicyID, (Rc<Expr>, Rc<Annotations>)>,
) -> Result<(), AllocError>
    ensures places { OnOk result (error_places errors.new.items
        ≡ error_places errors.old.items ++ places_left entries.entries) }
    ensures errors { OnOk result (errors_view errors.new.items
        ≡ errors_view errors.old.items ++ errors_left entries.entries) }
{
    'residuals: for (id, entry) in entries {
        let added = add_error(errors, id, &entry.0);
        drop(entry);
        added?;
    }
    Ok(())
}

fn add_error(
    errors: &mut Vec<AuthorizationError>,
    id: PolicyID,
    residual: &Expr,
) -> Result<(), AllocError>
    ensures place { OnOk result (error_places errors.new.items
        ≡ error_places errors.old.items ++ (expr_loc residual.now ∷ [])) }
    ensures error { OnOk result (errors_view errors.new.items
        ≡ errors_view errors.old.items ++ ((policy_id_text id, residual_is_left (view residual.now)) ∷ [])) }
{
    let error = residual_error(id, residual)?;
    add_last(errors, error)
}

// The error that a residual is left, at the residual's location.
fn residual_error(id: PolicyID, residual: &Expr) -> Result<AuthorizationError, AllocError>
    ensures place { IfOk result (λ e. error_place e ≡ expr_loc residual.now) }
    ensures error { IfOk result (λ e. error_view e ≡ (policy_id_text id, residual_is_left (view residual.now))) }
{
    let expr = residual.clone()?;
    let source_loc = residual.source_loc().copied();
    Ok(AuthorizationError::PolicyEvaluationError {
        id,
        error: EvaluationError::NonValue(NonValueError { expr, source_loc }),
    })
}
