//! The policies of a partial response that are decided again.
ghost use Rattle.std.specs.Prelude.{◌≡◌, map, IfErr, IfOk, IfSome};
ghost use Rattle.cedar_model.specs.Chains.{all_residuals};
ghost use Rattle.cedar_layers.specs.Policies.{policy_view, decides_as};
ghost use Rattle.cedar_layers.specs.PolicySets.{stored_policies};
ghost use Rattle.cedar_authorizer.specs.responses.Rows.{located_view, rows_view};
ghost use Rattle.cedar_authorizer.specs.reauthorization.Errors.{step_answer_by, IsUnwrapped};
ghost use Rattle.cedar_authorizer.specs.Responding.{considered};
ghost use Rattle.cedar_authorizer.specs.reauthorization.Policies.{all_once, AreCarriedFrom};

use crate::reauthorization::err::ReauthorizationError;
use crate::responses::PartialResponse;
use cedar_layers::policies::{Policy, PolicySet};
use std::alloc::{AllocError, Global};

/// The set of every policy of the response, permits first: the satisfied ones, those that are not satisfied, and the
/// residual ones, each with what is reported of it as its clause. Refuses the first duplicate id with
/// `PolicySetError`, or if out of memory with `Memory` alone.
pub fn residual_policies(
    alloc: Global,
    response: &PartialResponse,
) -> Result<PolicySet, ReauthorizationError>
    ensures set { IfSome (step_answer_by considered result)
        (λ a. a ≡ all_once (all_residuals (rows_view response.now))) }
    ensures places { IfOk result (λ s. AreCarriedFrom (located_view response.now) (stored_policies s)) }
    ensures memory { IfErr result IsUnwrapped }
{
    let policies = carry_policies(alloc, response)?;
    match PolicySet::try_from_iter(alloc, policies) {
        Ok(set) => Ok(set),
        Err(error) => Err(ReauthorizationError::from(error)),
    }
}

// Every policy of the response.
fn carry_policies(alloc: Global, response: &PartialResponse) -> Result<Vec<Policy>, AllocError>
    ensures policies { IfOk result (λ v. map decides_as (map policy_view v.items)
        ≡ all_residuals (rows_view response.now)) }
    ensures places { IfOk result (λ v. AreCarriedFrom (located_view response.now) v.items) }
{
    let mut policies = Vec::new(alloc);
    'policies: for policy in response.all_residuals() {
        policies.push(policy?)?;
    }
    Ok(policies)
}
