//! The sheets that a response is made of: how each policy of a set comes out, in their order. Where only some of them
//! are within reach of the request, the others are false, and are noted without a look at their conditions.
ghost use Rattle.std.specs.Prelude.{◌≡◌, map, IfOk, IfSome, slice_get};
ghost use Rattle.cedar_model.specs.Agreement.{no_slots};
ghost use Rattle.cedar_decisions.specs.Decisions.{mode_view};
ghost use Rattle.cedar_layers.specs.Policies.{policy_view};
ghost use Rattle.cedar_layers.specs.PolicySets.{stored_policies};
ghost use Rattle.cedar_evaluator.specs.Evaluations.{setting_of, calls_in};
ghost use Rattle.cedar_evaluator.specs.Evaluations as evaluations;
ghost use Rattle.cedar_authorizer.specs.Configured.{configuration, asked};
ghost use Rattle.cedar_authorizer.specs.Reaching.{AreFalseBut, is_of_id};
ghost use Rattle.cedar_authorizer.specs.Responding.{considered};
ghost use Rattle.cedar_authorizer.specs.Running.{IsNotedBy, IsNotedRun, ResidualsAreNoted};

use super::reaching::policies_within_reach;
use super::{Authorizer, outcome_of, run_all};
use crate::responses::{ConditionOutcome, ErrorHandling, Sheet};
use cedar_evaluator::evaluator::Evaluator;
use cedar_evaluator::request::Request;
use cedar_layers::policies::{Entities, Policy, PolicySet};
use std::alloc::{AllocError, Global};

// How each policy comes out, in their order, where no unknown has a value.
pub(super) fn first_sheet(
    alloc: Global,
    authorizer: &Authorizer<'_>,
    request: &Request,
    policies: &PolicySet,
    entities: &Entities,
) -> Result<Sheet, AllocError>
    ensures run { IfOk result (IsNotedBy (configuration authorizer.now) (asked authorizer.now request.now entities.now)
        (considered policies.now)) }
    ensures places { IfOk result (ResidualsAreNoted (stored_policies policies.now)) }
{
    let within = policies_within_reach(alloc, authorizer, request, policies, entities)?;
    let evaluator = Evaluator::new(
        alloc,
        request.clone()?,
        entities,
        &authorizer.extensions,
        authorizer.limit,
    )?;
    let evaluator = evaluator.with_resolution(authorizer.resolution);
    let sheet = run(
        alloc,
        authorizer.error_handling,
        &evaluator,
        policies,
        within,
    );
    drop(evaluator);
    sheet
}

// How each policy comes out by this evaluator, in their order; those that are not within reach, if that is known, are
// false.
fn run(
    alloc: Global,
    mode: ErrorHandling,
    evaluator: &Evaluator<'_, '_>,
    policies: &PolicySet,
    within: Option<Vec<&Policy>>,
) -> Result<Sheet, AllocError>
    requires { IfSome within (λ v. AreFalseBut (setting_of evaluator.now no_slots) (calls_in evaluator.now)
        (evaluations.limit_of evaluator.now) (stored_policies policies.now) (map (λ p. p.now) v.items)) }
    ensures run { IfOk result (IsNotedRun (mode_view mode) (setting_of evaluator.now no_slots) (calls_in evaluator.now)
        (evaluations.limit_of evaluator.now) (considered policies.now)) }
    ensures places { IfOk result (ResidualsAreNoted (stored_policies policies.now)) }
{
    match within {
        Some(within) => run_within(alloc, mode, evaluator, policies, &within),
        None => run_all(alloc, mode, evaluator, policies),
    }
}

// The same, where all policies but these are false.
fn run_within(
    alloc: Global,
    mode: ErrorHandling,
    evaluator: &Evaluator<'_, '_>,
    policies: &PolicySet,
    within: &[&Policy],
) -> Result<Sheet, AllocError>
    requires { AreFalseBut (setting_of evaluator.now no_slots) (calls_in evaluator.now)
        (evaluations.limit_of evaluator.now) (stored_policies policies.now) (map (λ p. p.now) within.now) }
    ensures run { IfOk result (IsNotedRun (mode_view mode) (setting_of evaluator.now no_slots) (calls_in evaluator.now)
        (evaluations.limit_of evaluator.now) (considered policies.now)) }
    ensures places { IfOk result (ResidualsAreNoted (stored_policies policies.now)) }
{
    let mut sheet = Sheet::new(alloc);
    let mut next: usize = 0;
    'policies: for policy in policies.policies() {
        if is_at(within, next, policy) {
            let outcome = outcome_of(alloc, evaluator, policy)?;
            sheet.place(mode, policy, outcome)?;
            next += 1;
        } else {
            sheet.place(mode, policy, ConditionOutcome::Decided(false))?;
        }
    }
    Ok(sheet)
}

// Whether a policy of this one's id is at this place.
fn is_at(policies: &[&Policy], at: usize, policy: &Policy) -> bool
    ensures { result ≡ is_of_id (policy_view policy.now).id (slice_get (map (λ p. p.now) policies.now) at) }
{
    match policies.get(at) {
        Some(other) => policy.id() == other.id(),
        None => false,
    }
}
