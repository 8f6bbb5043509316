//! The run of policies whose response is made concrete. A policy that is false without an error tells nothing there, so
//! it is not noted.
ghost use Rattle.std.specs.Prelude.{◌≡◌, IfOk, IfSome, OnOk, map};
ghost use Rattle.cedar_model.specs.Agreement.{no_slots};
ghost use Rattle.cedar_decisions.specs.Decisions.{mode_view};
ghost use Rattle.cedar_layers.specs.Policies.{policy_view};
ghost use Rattle.cedar_layers.specs.PolicySets.{stored_policies};
ghost use Rattle.cedar_evaluator.specs.Evaluations.{setting_of, calls_in};
ghost use Rattle.cedar_evaluator.specs.Evaluations as evaluations;
ghost use Rattle.cedar_authorizer.specs.responses.Sheets.{sheet_view, outcome_view};
ghost use Rattle.cedar_authorizer.specs.Configured.{configuration, asked};
ghost use Rattle.cedar_authorizer.specs.Reaching.{AreFalseBut};
ghost use Rattle.cedar_authorizer.specs.Responding.{considered};
ghost use Rattle.cedar_authorizer.specs.Telling.{tells_nothing, noting_what_tells, IsToldRun, IsToldBy, deciding_these};

use super::reaching::policies_within_reach;
use super::{Authorizer, outcome_of};
use crate::responses::{ConditionOutcome, ErrorHandling, Sheet};
use cedar_evaluator::evaluator::Evaluator;
use cedar_evaluator::request::Request;
use cedar_layers::policies::{Entities, Policy, PolicySet};
use std::alloc::{AllocError, Global};

// How each policy comes out that tells something, in their order, where no unknown has a value.
pub(super) fn told_sheet(
    alloc: Global,
    authorizer: &Authorizer<'_>,
    request: &Request,
    policies: &PolicySet,
    entities: &Entities,
) -> Result<Sheet, AllocError>
    ensures { IfOk result (IsToldBy (configuration authorizer.now) (asked authorizer.now request.now entities.now)
        (considered policies.now)) }
{
    let within = policies_within_reach(alloc, authorizer, request, policies, entities)?;
    let evaluator = Evaluator::new(
        alloc,
        request.clone()?,
        entities,
        &authorizer.extensions,
        authorizer.limit,
    )?;
    let evaluator = evaluator.with_resolution(authorizer.resolution);
    let sheet = tell(
        alloc,
        authorizer.error_handling,
        &evaluator,
        policies,
        within,
    );
    drop(evaluator);
    sheet
}

// The same by this evaluator, where the policies that are not within reach, if that is known, are false.
fn tell(
    alloc: Global,
    mode: ErrorHandling,
    evaluator: &Evaluator<'_, '_>,
    policies: &PolicySet,
    within: Option<Vec<&Policy>>,
) -> Result<Sheet, AllocError>
    requires { IfSome within (λ v. AreFalseBut (setting_of evaluator.now no_slots) (calls_in evaluator.now)
        (evaluations.limit_of evaluator.now) (stored_policies policies.now) (map (λ p. p.now) v.items)) }
    ensures { IfOk result (IsToldRun (mode_view mode) (setting_of evaluator.now no_slots) (calls_in evaluator.now)
        (evaluations.limit_of evaluator.now) (considered policies.now)) }
{
    match within {
        Some(within) => tell_these(alloc, mode, evaluator, &within),
        None => tell_all(alloc, mode, evaluator, policies),
    }
}

// The same of these policies.
fn tell_these(
    alloc: Global,
    mode: ErrorHandling,
    evaluator: &Evaluator<'_, '_>,
    policies: &[&Policy],
) -> Result<Sheet, AllocError>
    ensures { IfOk result (IsToldRun (mode_view mode) (setting_of evaluator.now no_slots) (calls_in evaluator.now)
        (evaluations.limit_of evaluator.now) (deciding_these (map (λ p. p.now) policies.now))) }
{
    let mut sheet = Sheet::new(alloc);
    'policies: for policy in policies {
        let outcome = outcome_of(alloc, evaluator, policy)?;
        place_what_tells(&mut sheet, mode, policy, outcome)?;
    }
    Ok(sheet)
}

// The same of all.
fn tell_all(
    alloc: Global,
    mode: ErrorHandling,
    evaluator: &Evaluator<'_, '_>,
    policies: &PolicySet,
) -> Result<Sheet, AllocError>
    ensures { IfOk result (IsToldRun (mode_view mode) (setting_of evaluator.now no_slots) (calls_in evaluator.now)
        (evaluations.limit_of evaluator.now) (considered policies.now)) }
{
    let mut sheet = Sheet::new(alloc);
    'policies: for policy in policies.policies() {
        let outcome = outcome_of(alloc, evaluator, policy)?;
        place_what_tells(&mut sheet, mode, policy, outcome)?;
    }
    Ok(sheet)
}

// Notes how one more policy came out, if that tells something.
fn place_what_tells(
    sheet: &mut Sheet,
    mode: ErrorHandling,
    policy: &Policy,
    outcome: ConditionOutcome,
) -> Result<(), AllocError>
    ensures { OnOk result (sheet_view sheet.new
        ≡ noting_what_tells (mode_view mode) (sheet_view sheet.old) (policy_view policy.now) outcome) }
{
    if tells_nothing(&outcome) {
        drop(outcome);
        Ok(())
    } else {
        sheet.place(mode, policy, outcome)
    }
}

// Whether the condition is false.
#[tactic(auto, unfolding(crate::specs::Telling::tells_nothing))]
fn tells_nothing(outcome: &ConditionOutcome) -> bool
    ensures { result ≡ tells_nothing (outcome_view outcome.now) }
{
    match outcome {
        ConditionOutcome::Decided(is_true) => !*is_true,
        ConditionOutcome::Residual(_) => false,
        ConditionOutcome::Failed(_) => false,
    }
}
