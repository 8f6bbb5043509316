//! Copies of partial responses.
ghost use Rattle.std.specs.Prelude.{◌≡◌, IfOk};
ghost use Rattle.cedar_authorizer.specs.responses.Copies.{IsCopyOfPartialResponse, AreSameTrue, AreSameFalse};
ghost use Rattle.cedar_authorizer.specs.responses.Copies.{AreSameResidual};
ghost use Rattle.cedar_authorizer.specs.responses.Responses.{errors_view, error_places};

use super::{EffectEntries, ErrorState, PartialResponse};
use crate::responses::err::AuthorizationError;
use cedar_expressions::Expr;
use cedar_fallible::all_four;
use cedar_layers::policies::{Annotations, PolicyID};
use indexmap::IndexMap;
use std::alloc::AllocError;
use std::rc::Rc;

/// The copy handles errors in the same way, and has the same policies and, in order, the same errors, each with its
/// fields and its location; it shares the residuals, the annotations and the request.
impl Clone for PartialResponse {
    ghost is_clone = { IsCopyOfPartialResponse };

    fn clone(&self) -> Result<PartialResponse, AllocError> {
        let permits = copied_entries(
            &self.satisfied_permits,
            &self.false_permits,
            &self.residual_permits,
        );
        let forbids = copied_entries(
            &self.satisfied_forbids,
            &self.false_forbids,
            &self.residual_forbids,
        );
        let errors = copied_errors(&self.errors);
        let request = share_held(&self.request);
        let copied = all_four(permits, forbids, errors, request)?;
        let (permits, forbids, errors, request) = copied;
        Ok(PartialResponse {
            satisfied_permits: permits.satisfied,
            false_permits: permits.unsatisfied,
            residual_permits: permits.residual,
            satisfied_forbids: forbids.satisfied,
            false_forbids: forbids.unsatisfied,
            residual_forbids: forbids.residual,
            errors,
            request,
            error_handling: self.error_handling,
        })
    }
}

fn copied_entries(
    trues: &IndexMap<PolicyID, Rc<Annotations>>,
    falses: &IndexMap<PolicyID, (ErrorState, Rc<Annotations>)>,
    residuals: &IndexMap<PolicyID, (Rc<Expr>, Rc<Annotations>)>,
) -> Result<EffectEntries, AllocError>
    ensures trues { IfOk result (λ m. AreSameTrue trues.now.entries m.satisfied.entries) }
    ensures falses { IfOk result (λ m. AreSameFalse falses.now.entries m.unsatisfied.entries) }
    ensures residuals { IfOk result (λ m. AreSameResidual residuals.now.entries m.residual.entries) }
{
    let satisfied = copied_trues(trues)?;
    let unsatisfied = copied_falses(falses)?;
    let residual = copied_residuals(residuals)?;
    Ok(EffectEntries {
        satisfied,
        unsatisfied,
        residual,
    })
}

fn copied_trues(
    entries: &IndexMap<PolicyID, Rc<Annotations>>,
) -> Result<IndexMap<PolicyID, Rc<Annotations>>, AllocError>
    ensures { IfOk result (λ m. AreSameTrue entries.now.entries m.entries) }
{
    entries.clone()
}

fn copied_falses(
    entries: &IndexMap<PolicyID, (ErrorState, Rc<Annotations>)>,
) -> Result<IndexMap<PolicyID, (ErrorState, Rc<Annotations>)>, AllocError>
    ensures { IfOk result (λ m. AreSameFalse entries.now.entries m.entries) }
{
    entries.clone()
}

fn copied_residuals(
    entries: &IndexMap<PolicyID, (Rc<Expr>, Rc<Annotations>)>,
) -> Result<IndexMap<PolicyID, (Rc<Expr>, Rc<Annotations>)>, AllocError>
    ensures { IfOk result (λ m. AreSameResidual entries.now.entries m.entries) }
{
    entries.clone()
}

// The same, shared.
fn share_held<T: Drop>(held: &Rc<T>) -> Result<Rc<T>, AllocError>
    ensures { IfOk result (λ r. r.value ≡ held.now.value) }
{
    held.clone()
}

fn copied_errors(errors: &Vec<AuthorizationError>) -> Result<Vec<AuthorizationError>, AllocError>
    ensures errors { IfOk result (λ es. errors_view es.items ≡ errors_view errors.now.items) }
    ensures places { IfOk result (λ es. error_places es.items ≡ error_places errors.now.items) }
{
    errors.clone()
}
