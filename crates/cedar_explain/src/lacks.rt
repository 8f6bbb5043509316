//! What keeps the permits of a denied request from applying.
ghost use Rattle.std.specs.Prelude.{◌≡◌, true, [], All, IfOk, OnOk};
ghost use Rattle.cedar_model.specs.Policies.{permit, erring, counted_verdict};
ghost use Rattle.cedar_layers.specs.Policies.{policy_view, condition_term, effect_view};
ghost use Rattle.cedar_expressions.specs.View.{view};
ghost use Rattle.cedar_decisions.specs.Decisions.{mode_view};
ghost use Rattle.cedar_explain.specs.Outcomes.{came_true};
ghost use Rattle.cedar_explain.specs.Views.{policy_came};
ghost use Rattle.cedar_explain.specs.Lacking.{lacking_policy, lacking_part, lacking_truth, is_met, counts, is_reason};
ghost use Rattle.cedar_explain.specs.Lacking.{has_reason, IsOfPermit, WouldApply, IsLack};

use crate::assumed::assumed;
use crate::outcomes::PolicyOutcome;
use crate::parts::Part;
use crate::policies::explained;
use crate::requests::ExplainedPolicy;
use cedar_decisions::ErrorHandling;
use cedar_evaluator::evaluator::Evaluator;
use cedar_fallible::add_last;
use cedar_layers::expressions::{Expr, SlotEnv};
use cedar_layers::policies::{Effect, Policy};
use std::alloc::{AllocError, Global};

/// A part that alone keeps a permit from applying.
#[derive(Clone, Copy)]
pub struct Lack<'x> {
    policy: &'x Policy,
    part: &'x Part,
    truth: bool,
}

impl<'x> Lack<'x> {
    /// The permit.
    pub fn policy(&self) -> &'x Policy
        ensures { result.now ≡ lacking_policy self.now }
    {
        self.policy
    }

    /// The part of its condition.
    pub fn part(&self) -> &'x Part
        ensures { result.now ≡ lacking_part self.now }
    {
        self.part
    }

    /// What the part would have to come to, so that the permit applied.
    pub fn truth(&self) -> bool
        ensures { result ≡ lacking_truth self.now }
    {
        self.truth
    }
}

/// Of a request that is denied for want of a permit, of which these are the explained policies: the parts that alone
/// keep a permit from applying, in the order of the policies and of their parts. Were such a part true (or false, as
/// `truth` says) and each other one as the evaluator answers it, the permit would apply. None where a forbid forbids or
/// a permit applies already; with `ForbidOnError` a forbid that errs forbids. Refuses only if out of memory.
pub fn lacking<'x>(
    alloc: Global,
    evaluator: &Evaluator<'_, '_>,
    explained: &'x [ExplainedPolicy<'_>],
    error_handling: ErrorHandling,
) -> Result<Vec<Lack<'x>>, AllocError>
    ensures permits { IfOk result (λ v. All IsOfPermit v.items) }
    ensures applies { IfOk result (λ v. All (WouldApply evaluator.now) v.items) }
    ensures reason { has_reason (mode_view error_handling) explained.now ≡ true →
        IfOk result (λ v. v.items ≡ []) }
{
    if has_reason(error_handling, explained) {
        Ok(Vec::new(alloc))
    } else {
        lacks_of(alloc, evaluator, explained)
    }
}

fn lacks_of<'x>(
    alloc: Global,
    evaluator: &Evaluator<'_, '_>,
    explained: &'x [ExplainedPolicy<'_>],
) -> Result<Vec<Lack<'x>>, AllocError>
    ensures permits { IfOk result (λ v. All IsOfPermit v.items) }
    ensures applies { IfOk result (λ v. All (WouldApply evaluator.now) v.items) }
{
    let mut lacks: Vec<Lack<'x>> = Vec::new(alloc);
    'policies: for policy in explained {
        add_lacks(alloc, evaluator, policy, &mut lacks)?;
    }
    Ok(lacks)
}

// Whether a forbid forbids, or a permit applies.
fn has_reason(mode: ErrorHandling, explained: &[ExplainedPolicy<'_>]) -> bool
    ensures { result ≡ has_reason (mode_view mode) explained.now }
{
    explained.iter().any(|policy| is_reason(mode, policy))
}

fn is_reason(mode: ErrorHandling, explained: &ExplainedPolicy<'_>) -> bool
    ensures { result ≡ is_reason (mode_view mode) explained.now }
{
    counts(mode, explained.effect(), explained.explanation.outcome())
}

// Whether a policy of this effect that comes to this counts as satisfied.
#[tactic(auto, unfolding(cedar_model::specs::Policies::counted_verdict))]
fn counts(mode: ErrorHandling, effect: Effect, outcome: PolicyOutcome) -> bool
    ensures { result ≡ counts (mode_view mode) (effect_view effect) (policy_came outcome) }
{
    match outcome {
        PolicyOutcome::Satisfied => true,
        PolicyOutcome::Unsatisfied => false,
        PolicyOutcome::Error(_) => error_counts(mode, effect),
    }
}

#[tactic(auto, unfolding(cedar_model::specs::Policies::counted_verdict))]
fn error_counts(mode: ErrorHandling, effect: Effect) -> bool
    ensures { result ≡ is_met (counted_verdict (mode_view mode) (effect_view effect) erring) }
{
    match effect {
        Effect::Permit => match mode {
            ErrorHandling::Skip => false,
            ErrorHandling::ForbidOnError => false,
        },
        Effect::Forbid => match mode {
            ErrorHandling::Skip => false,
            ErrorHandling::ForbidOnError => true,
        },
    }
}

// Puts what the policy lacks behind the others, if it is a permit.
fn add_lacks<'x>(
    alloc: Global,
    evaluator: &Evaluator<'_, '_>,
    explained: &'x ExplainedPolicy<'_>,
    lacks: &mut Vec<Lack<'x>>,
) -> Result<(), AllocError>
    ensures { OnOk result (All (IsLack evaluator.now) lacks.old.items → All (IsLack evaluator.now) lacks.new.items) }
{
    match explained.effect() {
        Effect::Permit => {
            let condition = explained.policy.condition(alloc)?;
            let parts = explained.explanation.parts();
            let added = add_parts(alloc, evaluator, explained.policy, &condition, parts, lacks);
            drop(condition);
            added
        }
        Effect::Forbid => Ok(()),
    }
}

// Of its parts those that alone keep the permit of this condition from applying.
fn add_parts<'x>(
    alloc: Global,
    evaluator: &Evaluator<'_, '_>,
    policy: &'x Policy,
    condition: &Expr,
    parts: &'x [Part],
    lacks: &mut Vec<Lack<'x>>,
) -> Result<(), AllocError>
    requires condition { view condition.now ≡ condition_term (policy_view policy.now) }
    requires permit { (policy_view policy.now).effect ≡ permit }
    ensures { OnOk result (All (IsLack evaluator.now) lacks.old.items → All (IsLack evaluator.now) lacks.new.items) }
{
    'parts: for part in parts {
        add_part(alloc, evaluator, policy, condition, part, lacks)?;
    }
    Ok(())
}

fn add_part<'x>(
    alloc: Global,
    evaluator: &Evaluator<'_, '_>,
    policy: &'x Policy,
    condition: &Expr,
    part: &'x Part,
    lacks: &mut Vec<Lack<'x>>,
) -> Result<(), AllocError>
    requires condition { view condition.now ≡ condition_term (policy_view policy.now) }
    requires permit { (policy_view policy.now).effect ≡ permit }
    ensures { OnOk result (All (IsLack evaluator.now) lacks.old.items → All (IsLack evaluator.now) lacks.new.items) }
{
    let would_be_true = Lack {
        policy,
        part,
        truth: true,
    };
    add_if(alloc, evaluator, condition, would_be_true, lacks)?;
    let would_be_false = Lack {
        policy,
        part,
        truth: false,
    };
    add_if(alloc, evaluator, condition, would_be_false, lacks)
}

// Puts it behind the others, if the permit would apply so.
fn add_if<'x>(
    alloc: Global,
    evaluator: &Evaluator<'_, '_>,
    condition: &Expr,
    lack: Lack<'x>,
    lacks: &mut Vec<Lack<'x>>,
) -> Result<(), AllocError>
    requires condition { view condition.now ≡ condition_term (policy_view (lacking_policy lack)) }
    requires permit { IsOfPermit lack }
    ensures { OnOk result (All (IsLack evaluator.now) lacks.old.items → All (IsLack evaluator.now) lacks.new.items) }
{
    let applies = would_apply(alloc, evaluator, condition, lack)?;
    if applies {
        add_last(lacks, lack)
    } else {
        Ok(())
    }
}

// Whether the condition is satisfied where the part is taken to be so.
fn would_apply(
    alloc: Global,
    evaluator: &Evaluator<'_, '_>,
    condition: &Expr,
    lack: Lack<'_>,
) -> Result<bool, AllocError>
    requires { view condition.now ≡ condition_term (policy_view (lacking_policy lack)) }
    ensures { IfOk result (λ b. b ≡ true → WouldApply evaluator.now lack.entry) }
{
    let taken = assumed(alloc, condition, lack.part.expression(), lack.truth)?;
    let answer = explained(alloc, evaluator, lack.policy.env(), &taken);
    drop(taken);
    let explanation = answer?;
    Ok(is_satisfied(explanation.outcome()))
}

fn is_satisfied(outcome: PolicyOutcome) -> bool
    ensures { result ≡ true → policy_came outcome ≡ came_true }
{
    match outcome {
        PolicyOutcome::Satisfied => true,
        PolicyOutcome::Unsatisfied => false,
        PolicyOutcome::Error(_) => false,
    }
}
