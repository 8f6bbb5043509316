//! A decision, and what led to it.
ghost use Rattle.std.specs.Prelude.{◌≡◌};

mod copies;

use crate::responses::err::AuthorizationError;
use cedar_decisions::Decision;
use cedar_layers::policies::PolicyID;
use std::collections::HashSet;

/// A decision with what led to it. Equality is that of the parts.
#[derive(Debug, PartialEq, Eq, Drop)]
pub struct Response {
    /// Whether the request is allowed.
    pub decision: Decision,
    /// What led to it.
    pub diagnostics: Diagnostics,
}

/// The policies that must determine a decision, and the errors met, as an authorizer and `concretize` answer them; of a
/// response that `Response::new` makes they are what it was handed. Equality compares the reasons as a set, and the
/// errors in order, with the locations that they hold.
#[derive(Debug, PartialEq, Eq, Drop)]
pub struct Diagnostics {
    /// The satisfied forbids or, where no forbid is satisfied and of none a residual was left, the satisfied permits.
    /// With nothing left these are the policies that determine the decision; beside residuals they determine it
    /// whatever the unknowns are.
    pub reason: HashSet<PolicyID>,
    /// The error of each policy that erred, in the order of the policies; before these, of a response that was made
    /// concrete, the `NonValue` of each forbid of which a residual was left, and then of each such permit.
    pub errors: Vec<AuthorizationError>,
}

impl Response {
    /// The response of exactly these parts.
    pub fn new(
        decision: Decision,
        reason: HashSet<PolicyID>,
        errors: Vec<AuthorizationError>,
    ) -> Response
        ensures { result ≡ record { decision = decision; diagnostics = record { reason = reason; errors = errors } } }
    {
        Response {
            decision,
            diagnostics: Diagnostics { reason, errors },
        }
    }
}
