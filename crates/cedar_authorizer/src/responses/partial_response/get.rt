//! The policy under an id.
ghost use Rattle.std.specs.Prelude.{◌≡◌, ◌++◌, IfOk};
ghost use Rattle.cedar_model.specs.Policies.{permit, forbid};
ghost use Rattle.cedar_model.specs.Reports as reports;
ghost use Rattle.cedar_layers.specs.Policies.{effect_view, policy_id_text};
ghost use Rattle.cedar_authorizer.specs.responses.Found.{as_found};
ghost use Rattle.cedar_authorizer.specs.responses.Rows.{located_view, rows_view, true_rows, false_rows, residual_rows};
ghost use Rattle.cedar_authorizer.specs.responses.Readers.{found_policy, IsPolicyFound, first_at, in_order_of_get};
ghost use Rattle.cedar_authorizer.specs.responses.Readers.{located_at};

use super::made::{policy_of_residual, policy_of_truth};
use super::{ErrorState, PartialResponse};
use cedar_expressions::Expr;
use cedar_layers::policies::{Annotations, Effect, Policy, PolicyID};
use indexmap::IndexMap;
use std::alloc::{AllocError, Global};
use std::rc::Rc;

impl PartialResponse {
    /// The policy under an id, as the iterators of policies make it, where there is one: among the residual, the
    /// satisfied and the other permits, then among the same of forbids. The clause of a residual policy is the
    /// residual, with its own locations. Refuses only if out of memory.
    pub fn get(&self, alloc: Global, id: &PolicyID) -> Result<Option<Policy>, AllocError>
        ensures policy { IfOk result (λ o. found_policy o ≡ reports.get (policy_id_text id.now) (rows_view self.now)) }
        ensures located { IfOk result (IsPolicyFound (located_at (policy_id_text id.now) (located_view self.now))) }
    {
        match self.get_permit(alloc, id)? {
            Some(policy) => Ok(Some(policy)),
            None => self.get_forbid(alloc, id),
        }
    }

    fn get_permit(&self, alloc: Global, id: &PolicyID) -> Result<Option<Policy>, AllocError>
        ensures { IfOk result
            (IsPolicyFound (first_at (policy_id_text id.now) (in_order_of_get permit (located_view self.now)))) }
    {
        get_of(
            alloc,
            Effect::Permit,
            id,
            &self.residual_permits,
            &self.satisfied_permits,
            &self.false_permits,
        )
    }

    fn get_forbid(&self, alloc: Global, id: &PolicyID) -> Result<Option<Policy>, AllocError>
        ensures { IfOk result
            (IsPolicyFound (first_at (policy_id_text id.now) (in_order_of_get forbid (located_view self.now)))) }
    {
        get_of(
            alloc,
            Effect::Forbid,
            id,
            &self.residual_forbids,
            &self.satisfied_forbids,
            &self.false_forbids,
        )
    }
}

// The policy under an id among those of an effect.
fn get_of(
    alloc: Global,
    effect: Effect,
    id: &PolicyID,
    residual: &IndexMap<PolicyID, (Rc<Expr>, Rc<Annotations>)>,
    satisfied: &IndexMap<PolicyID, Rc<Annotations>>,
    unsatisfied: &IndexMap<PolicyID, (ErrorState, Rc<Annotations>)>,
) -> Result<Option<Policy>, AllocError>
    ensures { IfOk result (IsPolicyFound (first_at (policy_id_text id.now)
        (residual_rows (effect_view effect) residual.now.entries
        ++ (true_rows (effect_view effect) satisfied.now.entries
        ++ false_rows (effect_view effect) unsatisfied.now.entries)))) }
{
    if let Some(entry) = residual.get(id) {
        return find_made(policy_of_residual(alloc, effect, &entry.0, id, &entry.1));
    }
    if let Some(annotations) = satisfied.get(id) {
        return find_made(policy_of_truth(alloc, effect, true, id, annotations));
    }
    if let Some(entry) = unsatisfied.get(id) {
        return find_made(policy_of_truth(alloc, effect, false, id, &entry.1));
    }
    Ok(None)
}

// What was made, as what is found.
fn find_made<T: Drop>(made: Result<T, AllocError>) -> Result<Option<T>, AllocError>
    ensures { result ≡ as_found made }
{
    match made {
        Ok(made) => Ok(Some(made)),
        Err(refused) => Err(refused),
    }
}
