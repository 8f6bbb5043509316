//! Policies that apply in no world.
ghost use Rattle.std.specs.Prelude.{◌≡◌, true, IfOk};
ghost use Rattle.cedar_layers.specs.Policies.{policy_view, condition_term};
ghost use Rattle.cedar_filter.specs.Simplifying.{simplified};
ghost use Rattle.cedar_expressions.specs.View.{view};
ghost use Rattle.cedar_unsatisfiable.specs.Showing.{shows_never, IsNeverSatisfied};

use crate::showing::shows_never;
use cedar_expressions::Expr;
use cedar_filter::simplified;
use cedar_layers::policies::Policy;
use std::alloc::{AllocError, Global};

/// Whether the policy's text shows that it applies in no world: its condition, without what is known in it
/// (`simplified`), shows that it is never true (`shows_never`). Where this is told, the policy is satisfied in no
/// world, whatever its slots are linked to; a policy of which it is not told may still apply in none. Refuses only if
/// out of memory.
pub fn is_unsatisfiable(alloc: Global, policy: &Policy) -> Result<bool, AllocError>
    ensures shown { IfOk result (λ b. b ≡ shows_never (simplified (condition_term (policy_view policy.now)))) }
    ensures never { IfOk result (λ b. b ≡ true → IsNeverSatisfied (condition_term (policy_view policy.now))) }
{
    let condition = policy.condition(alloc)?;
    let told = is_never_satisfied(alloc, &condition);
    drop(condition);
    told
}

// The same of its condition.
fn is_never_satisfied(alloc: Global, condition: &Expr) -> Result<bool, AllocError>
    ensures shown { IfOk result (λ b. b ≡ shows_never (simplified (view condition.now))) }
    ensures never { IfOk result (λ b. b ≡ true → IsNeverSatisfied (view condition.now)) }
{
    let simple = simplified(alloc, condition)?;
    let told = shows_never(&simple);
    drop(simple);
    Ok(told)
}
