//! Copies of responses.
use super::{Diagnostics, Response};
use std::alloc::AllocError;

/// The copy has the reasons and, in order, the errors, each with its fields and its location.
impl Clone for Diagnostics {
    ghost use Rattle.cedar_authorizer.specs.responses.Copies.{IsCopyOfDiagnostics};

    ghost is_clone = { IsCopyOfDiagnostics };

    fn clone(&self) -> Result<Diagnostics, AllocError> {
        let reason = self.reason.clone()?;
        let errors = self.errors.clone()?;
        Ok(Diagnostics { reason, errors })
    }
}

/// The copy has the decision, the reasons and, in order, the errors, each with its fields and its location.
impl Clone for Response {
    ghost use Rattle.cedar_authorizer.specs.responses.Copies.{IsCopyOfResponse};

    ghost is_clone = { IsCopyOfResponse };

    fn clone(&self) -> Result<Response, AllocError> {
        let diagnostics = self.diagnostics.clone()?;
        Ok(Response {
            decision: self.decision,
            diagnostics,
        })
    }
}
