//! Why a policy came to what it did.
ghost use Rattle.std.specs.Prelude.{◌≡◌, true, IfOk};
ghost use Rattle.cedar_layers.specs.Policies.{slots_view, policy_view, condition_term};
ghost use Rattle.cedar_expressions.specs.View.{view};
ghost use Rattle.cedar_explain.specs.Places.{is_part};
ghost use Rattle.cedar_explain.specs.Explained.{OfEach, Decide, AreNeeded};
ghost use Rattle.cedar_explain.specs.Views.{named_parts, told_outcome};
ghost use Rattle.cedar_explain.specs.Reached.{IsReached, IsExplained};

use crate::explanations::Explanation;
use crate::outcomes::of_policy;
use crate::walking::walk;
use cedar_evaluator::evaluator::Evaluator;
use cedar_layers::expressions::{Expr, SlotEnv};
use cedar_layers::policies::Policy;
use std::alloc::{AllocError, Global};

/// What the policy comes to on the evaluator's request, and the parts of its condition that decide it, in the order of
/// evaluation: of the scope and then of the clause, inside `&&`, `||`, `!` and `if` alone, but for `true` and `false`,
/// which are so in every world. Each is evaluated by itself, with all of the evaluator's levels: where a part goes
/// deeper, or holds an unknown, it is the last part, and the policy errs so. Connectives are walked through as deep as
/// they are, one call inside another, whatever the limit. Refuses only if out of memory.
pub fn explain_policy(
    alloc: Global,
    evaluator: &Evaluator<'_, '_>,
    policy: &Policy,
) -> Result<Explanation, AllocError>
    ensures parts { IfOk result (λ x. OfEach (λ p. is_part p.term ≡ true) (named_parts x)) }
    ensures reached { IfOk result
        (λ x. OfEach (IsReached evaluator.now (policy_view policy.now).slots) (named_parts x)) }
    ensures decides { IfOk result
        (λ x. Decide (condition_term (policy_view policy.now)) (named_parts x) (told_outcome x)) }
    ensures needed { IfOk result
        (λ x. AreNeeded (condition_term (policy_view policy.now)) (named_parts x) (told_outcome x)) }
{
    let condition = policy.condition(alloc)?;
    let explained = explained(alloc, evaluator, policy.env(), &condition);
    drop(condition);
    explained
}

// The same of a condition under these slots.
pub(crate) fn explained(
    alloc: Global,
    evaluator: &Evaluator<'_, '_>,
    slots: &SlotEnv,
    condition: &Expr,
) -> Result<Explanation, AllocError>
    ensures { IfOk result (IsExplained (IsReached evaluator.now (slots_view slots.now)) (view condition.now)) }
{
    let mut parts = Vec::new(alloc);
    let outcome = walk(alloc, evaluator, slots, condition, &mut parts)?;
    Ok(Explanation {
        outcome: of_policy(outcome),
        parts,
    })
}
