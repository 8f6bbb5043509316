//! Why the policies of a set came to what they did.
ghost use Rattle.std.specs.Prelude.{◌≡◌, ◌∷◌, ◌++◌, [], All, map, IfOk, OnOk};
ghost use Rattle.cedar_layers.specs.Policies.{effect_view, policy_id_text};
ghost use Rattle.cedar_layers.specs.PolicySets.{stored_policies};
ghost use Rattle.cedar_explain.specs.Requests.{explained_policy, explanation_of, its_view, NamesParts, HasReached};
ghost use Rattle.cedar_explain.specs.Requests.{HasDecided, HasNeeded, IsWellExplained};

use crate::explanations::Explanation;
use crate::policies::explain_policy;
use cedar_evaluator::evaluator::Evaluator;
use cedar_fallible::add_last;
use cedar_layers::policies::{Effect, Policy, PolicyID, PolicySet};
use std::alloc::{AllocError, Global};

/// A policy, and what it came to on a request.
#[derive(Drop)]
pub struct ExplainedPolicy<'p> {
    pub(crate) policy: &'p Policy,
    pub(crate) explanation: Explanation,
}

impl<'p> ExplainedPolicy<'p> {
    /// The policy.
    pub fn policy(&self) -> &'p Policy
        ensures { result.now ≡ explained_policy self.now }
    {
        self.policy
    }

    /// The policy's id.
    pub fn id(&self) -> &'p PolicyID
        ensures { policy_id_text result.now ≡ (its_view self.now).id }
    {
        self.policy.id()
    }

    /// The policy's effect.
    pub fn effect(&self) -> Effect
        ensures { effect_view result ≡ (its_view self.now).effect }
    {
        self.policy.effect()
    }

    /// What the policy came to, and the parts that decide it.
    pub fn explanation(&self) -> &Explanation
        ensures { result.now ≡ explanation_of self.now }
    {
        &self.explanation
    }
}

/// What each policy of the set comes to on the evaluator's request, and the parts that decide it: in the order of the
/// set, each as `explain_policy` answers it. Refuses only if out of memory.
pub fn explain_request<'p>(
    alloc: Global,
    evaluator: &Evaluator<'_, '_>,
    policies: &'p PolicySet,
) -> Result<Vec<ExplainedPolicy<'p>>, AllocError>
    ensures policies { IfOk result (λ v. map explained_policy v.items ≡ stored_policies policies.now) }
    ensures parts { IfOk result (λ v. All NamesParts v.items) }
    ensures reached { IfOk result (λ v. All (HasReached evaluator.now) v.items) }
    ensures decides { IfOk result (λ v. All HasDecided v.items) }
    ensures needed { IfOk result (λ v. All HasNeeded v.items) }
{
    let mut explained: Vec<ExplainedPolicy<'p>> = Vec::new(alloc);
    'policies: for policy in policies.policies() {
        add_explained(alloc, evaluator, policy, &mut explained)?;
    }
    Ok(explained)
}

// Puts the explained policy behind the others.
fn add_explained<'p>(
    alloc: Global,
    evaluator: &Evaluator<'_, '_>,
    policy: &'p Policy,
    explained: &mut Vec<ExplainedPolicy<'p>>,
) -> Result<(), AllocError>
    ensures policies { OnOk result
        (map explained_policy explained.new.items ≡ map explained_policy explained.old.items ++ (policy.now ∷ [])) }
    ensures each { OnOk result (All (IsWellExplained evaluator.now) explained.old.items →
        All (IsWellExplained evaluator.now) explained.new.items) }
{
    let policy = explained_one(alloc, evaluator, policy)?;
    add_last(explained, policy)
}

fn explained_one<'p>(
    alloc: Global,
    evaluator: &Evaluator<'_, '_>,
    policy: &'p Policy,
) -> Result<ExplainedPolicy<'p>, AllocError>
    ensures policy { IfOk result (λ x. explained_policy x ≡ policy.now) }
    ensures each { IfOk result (IsWellExplained evaluator.now) }
{
    let explanation = explain_policy(alloc, evaluator, policy)?;
    Ok(ExplainedPolicy {
        policy,
        explanation,
    })
}
