//! A partial response as a plan for rows.
ghost use Rattle.std.specs.Prelude.{◌≡◌, true, false, Some, IfOk, IfErr, IfSome, IfNone, option_map};
ghost use Rattle.cedar_model.specs.Policies.{forbid};
ghost use Rattle.cedar_model.specs.Authorizations.{HaveNoLimit};
ghost use Rattle.cedar_decisions.specs.Decisions.{decision_view, mode_view};
ghost use Rattle.cedar_names.specs.Leaves.{type_view};
ghost use Rattle.cedar_layers.specs.Stores.{entity_name, entity_view};
ghost use Rattle.cedar_authorizer.specs.Running.{errors_of};
ghost use Rattle.cedar_filter.specs.Faults.{can_stand_for};
ghost use Rattle.cedar_filter.specs.Filters.{row_term};
ghost use Rattle.cedar_plan.specs.Planned.{plan_row, plan_mode, plan_permits, plan_forbids, plan_errors, IsPlanOf};
ghost use Rattle.cedar_plan.specs.Planned.{IsNoPlan, row_policies_view, residuals_in};
ghost use Rattle.std.specs.Rc.{rc_str_bytes};
ghost use Rattle.cedar_model.specs.Chains.{has_limit};
ghost use Rattle.cedar_authorizer.specs.responses.Responses.{errors_view};
ghost use Rattle.cedar_plan.specs.Planned.{row_type, ids_view, satisfied_in};
ghost use Rattle.cedar_plan.specs.Entries.{true_ids, planned_entries};
ghost use Rattle.cedar_plan.specs.Told.{errs_count};
ghost use Rattle.cedar_plan.specs.Worlds.{IsToldOf, DecidesAt, IsOpenAt, IsGiven, IsToldOfEach, DecidesAlways};

use crate::planning::{NoPlan, copied_errors, copied_row, has_limit, planned_policies};
use crate::policies::PlannedPolicies;
use cedar_authorizer::authorizer::{AuthorizationError, Decision, ErrorHandling, PartialResponse};
use cedar_decisions::decide;
use cedar_fallible::{beside, pair_of};
use cedar_layers::policies::Entity;
use cedar_names::shared::same_type;
use cedar_names::{Type, Unknown};
use std::alloc::{AllocError, Global};

/// What a partial response tells of each row, where a row is an entity that stands for an unknown, as the resource.
#[derive(Drop)]
pub struct Plan {
    row: Unknown,
    error_handling: ErrorHandling,
    permits: PlannedPolicies,
    forbids: PlannedPolicies,
    errors: Vec<AuthorizationError>,
}

impl Plan {
    /// The plan of this response for the rows that stand for this unknown: its satisfied policies, and of each residual
    /// one its condition, simplified, as one on rows; or, where it is none, the first part that is none. Refuses a
    /// response whose errors hold the recursion limit, and if out of memory.
    pub fn of(alloc: Global, response: &PartialResponse, row: &Unknown) -> Result<Plan, NoPlan>
        ensures plan { IfOk result (IsPlanOf response.now) }
        ensures row { IfOk result (λ p. row_term (plan_row p) ≡ row_term row.now) }
        ensures limit { IfOk result (λ p. HaveNoLimit (errors_of response.now)) }
        ensures refused { IfErr result (IsNoPlan response.now) }
    {
        if has_limit(&response.errors) {
            Err(NoPlan::RecursionLimit)
        } else {
            unlimited(alloc, response, row)
        }
    }

    /// What the policies decide at this entity, which stands for the unknown, with all its ancestors: the decision
    /// where what is known and what the entity tells gives one, whatever the policies do of which it does not tell.
    /// A policy of which a filter is `Untold` is one of these, as each that is no filter. `None` where they leave the
    /// decision open, and if the entity cannot stand for the unknown.
    pub fn allows(&self, entity: &Entity) -> Option<Decision>
        ensures told { IsToldOf self.now (entity_name entity.now) (entity_view entity.now)
            (option_map decision_view result) }
        ensures decision { IfSome result (λ d.
            DecidesAt self.now (entity_name entity.now) (entity_view entity.now) (decision_view d)) }
        ensures undecided { IfNone result (IsOpenAt self.now (entity_name entity.now) (entity_view entity.now)) }
    {
        self.told(entity)
    }

    // What is told of the entity.
    #[tactic(auto, using(crate::proofs::Answering::answering))]
    fn told(&self, entity: &Entity) -> Option<Decision>
        ensures { IsToldOf self.now (entity_name entity.now) (entity_view entity.now)
            (option_map decision_view result) }
    {
        if can_stand_for(&self.row.type_annotation, entity) {
            self.told_of_row(entity)
        } else {
            None
        }
    }

    // The same of an entity that can stand for the unknown.
    fn told_of_row(&self, entity: &Entity) -> Option<Decision>
        requires { can_stand_for (row_type self.now) (entity_name entity.now) ≡ true }
        ensures { IsToldOf self.now (entity_name entity.now) (entity_view entity.now)
            (option_map decision_view result) }
    {
        let errs_count = forbid_errs_count(self.error_handling);
        let permits = self.permits.standing(entity, false);
        let forbids = self.forbids.standing(entity, errs_count);
        decide(
            permits.counts,
            permits.is_open,
            forbids.counts,
            forbids.is_open,
        )
    }

    /// The decision that is known already, the same of every row: `Deny` with a satisfied forbid, or where no permit is
    /// satisfied or residual; else none beside a residual forbid; else `Allow` with a satisfied permit; else none.
    pub fn known(&self) -> Option<Decision>
        ensures given { IsGiven self.now (option_map decision_view result) }
        ensures told { IfSome result (λ d. IsToldOfEach self.now (decision_view d)) }
        ensures decision { IfSome result (λ d. DecidesAlways self.now (decision_view d)) }
    {
        self.given()
    }

    // What is given whatever the row is.
    fn given(&self) -> Option<Decision>
        ensures { IsGiven self.now (option_map decision_view result) }
    {
        let true_permit = self.permits.is_satisfied();
        let residual_permit = self.permits.is_residual();
        let true_forbid = self.forbids.is_satisfied();
        let residual_forbid = self.forbids.is_residual();
        decide(true_permit, residual_permit, true_forbid, residual_forbid)
    }

    /// The unknown that the rows stand for.
    pub fn row(&self) -> &Unknown
        ensures { result.now ≡ plan_row self.now }
    {
        &self.row
    }

    /// How errors are handled.
    pub fn error_handling(&self) -> ErrorHandling
        ensures { mode_view result ≡ plan_mode self.now }
    {
        self.error_handling
    }

    /// The permits.
    pub fn permits(&self) -> &PlannedPolicies
        ensures { result.now ≡ plan_permits self.now }
    {
        &self.permits
    }

    /// The forbids.
    pub fn forbids(&self) -> &PlannedPolicies
        ensures { result.now ≡ plan_forbids self.now }
    {
        &self.forbids
    }

    /// The error of each policy that erred, whatever the row is.
    pub fn errors(&self) -> &[AuthorizationError]
        ensures { result.now ≡ plan_errors self.now }
    {
        &self.errors
    }
}

// The plan, where no recursion limit is recorded.
#[tactic(auto, using(crate::proofs::Entered::quiet))]
fn unlimited(alloc: Global, response: &PartialResponse, row: &Unknown) -> Result<Plan, NoPlan>
    requires { has_limit (errors_of response.now) ≡ false }
    ensures plan { IfOk result (IsPlanOf response.now) }
    ensures row { IfOk result (λ p. row_term (plan_row p) ≡ row_term row.now) }
    ensures limit { IfOk result (λ p. HaveNoLimit (errors_of response.now)) }
    ensures refused { IfErr result (IsNoPlan response.now) }
{
    match copied_plan(alloc, response, row) {
        Ok(plan) => Ok(plan),
        Err(_) => Err(NoPlan::Memory),
    }
}

fn copied_plan(alloc: Global, response: &PartialResponse, row: &Unknown) -> Result<Plan, AllocError>
    ensures plan { IfOk result (IsPlanOf response.now) }
    ensures row { IfOk result (λ p. row_term (plan_row p) ≡ row_term row.now) }
{
    let copy = copied_row(row)?;
    made(alloc, response, copy)
}

fn made(alloc: Global, response: &PartialResponse, row: Unknown) -> Result<Plan, AllocError>
    ensures plan { IfOk result (IsPlanOf response.now) }
    ensures row { IfOk result (λ p. row_term (plan_row p) ≡ row_term row) }
{
    let permits = planned_policies(
        alloc,
        &response.satisfied_permits,
        &response.residual_permits,
        &row,
    );
    let forbids = planned_policies(
        alloc,
        &response.satisfied_forbids,
        &response.residual_forbids,
        &row,
    );
    let errors = copied_errors(&response.errors);
    let (row, (errors, (permits, forbids))) = beside(
        row,
        pair_of(errors, pair_of(permits, forbids)),
    )?;
    Ok(entered(response, row, permits, forbids, errors))
}

// The plan of these parts.
fn entered(
    response: &PartialResponse,
    row: Unknown,
    permits: PlannedPolicies,
    forbids: PlannedPolicies,
    errors: Vec<AuthorizationError>,
) -> Plan
    requires true_permits { ids_view (satisfied_in permits) ≡ true_ids response.now.satisfied_permits.entries }
    requires residual_permits { row_policies_view (residuals_in permits)
        ≡ planned_entries (rc_str_bytes row.name) (option_map type_view row.type_annotation)
        response.now.residual_permits.entries }
    requires true_forbids { ids_view (satisfied_in forbids) ≡ true_ids response.now.satisfied_forbids.entries }
    requires residual_forbids { row_policies_view (residuals_in forbids)
        ≡ planned_entries (rc_str_bytes row.name) (option_map type_view row.type_annotation)
        response.now.residual_forbids.entries }
    requires errors { errors_view errors.items ≡ errors_of response.now }
    ensures plan { IsPlanOf response.now result }
    ensures row { plan_row result ≡ row }
{
    Plan {
        row,
        error_handling: response.error_handling(),
        permits,
        forbids,
        errors,
    }
}

// Whether a forbid that errs counts as satisfied.
fn forbid_errs_count(mode: ErrorHandling) -> bool
    ensures { result ≡ errs_count (mode_view mode) forbid }
{
    match mode {
        ErrorHandling::Skip => false,
        ErrorHandling::ForbidOnError => true,
    }
}

fn can_stand_for(annotation: &Option<Type>, entity: &Entity) -> bool
    ensures { result ≡ can_stand_for (option_map type_view annotation.now) (entity_name entity.now) }
{
    match annotation {
        None => true,
        Some(ty) => is_of_type(ty, entity),
    }
}

fn is_of_type(ty: &Type, entity: &Entity) -> bool
    ensures { result ≡ can_stand_for (Some (type_view ty.now)) (entity_name entity.now) }
{
    match ty {
        Type::Bool => false,
        Type::Long => false,
        Type::String => false,
        Type::Set => false,
        Type::Record => false,
        Type::Entity { ty } => same_type(entity.uid().entity_type(), ty),
        Type::Extension { .. } => false,
    }
}
