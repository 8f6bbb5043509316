#![tactic(auto, using(crate::proofs::Capping::capping))]
//! How high the conditions of policies are, and what is left of them.
ghost use Rattle.std.specs.Prelude.{◌≡◌, map};
ghost use Rattle.cedar_model.specs.Agreement.{height};
ghost use Rattle.cedar_layers.specs.Policies.{policy_view, condition_term, decides_as};
ghost use Rattle.cedar_layers.specs.PolicySets.{policies_view};
ghost use Rattle.cedar_heights.specs.Capped.{capped};
ghost use Rattle.cedar_heights.specs.Heights.{greatest_condition, greatest_residual};

use crate::expressions::expr_height;
use crate::numbers::above;
use cedar_expressions::Expr;
use cedar_layers::policies::{Annotations, Policy, PolicyID, PolicySet};
use indexmap::IndexMap;
use std::rc::Rc;

/// How many levels the policy's condition has, its scope included.
pub fn condition_height(policy: &Policy) -> usize
    ensures { result ≡ capped (height (condition_term (policy_view policy.now))) }
{
    let principal = expr_height(policy.principal_constraint());
    let action = expr_height(policy.action_constraint());
    let resource = expr_height(policy.resource_constraint());
    let clause = expr_height(policy.when_clause());
    let pair = above(principal.max(action));
    let scope = above(pair.max(resource));
    above(scope.max(clause))
}

/// How many levels the highest of the policies' conditions has; 0 where there is none.
pub fn policies_height(policies: &PolicySet) -> usize
    ensures { result ≡ capped (greatest_condition (map decides_as (policies_view policies.now))) }
{
    let mut found = 0;
    'policies: for policy in policies.policies() {
        found = condition_height(policy).max(found);
    }
    found
}

/// How many levels the highest of these residuals has, as a response keeps them by the ids of their policies; 0 where
/// there is none.
pub fn residuals_height(residuals: &IndexMap<PolicyID, (Rc<Expr>, Rc<Annotations>)>) -> usize
    ensures { result ≡ capped (greatest_residual residuals.now.entries) }
{
    let mut found = 0;
    'residuals: for (_, residual) in residuals {
        found = expr_height(&residual.0).max(found);
    }
    found
}
