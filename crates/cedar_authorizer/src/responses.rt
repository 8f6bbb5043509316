//! Responses: what is answered to a request, also where parts of it are unknown. Users name them by `authorizer`; the
//! sheet, which an authorizer fills policy by policy, they don't need.
mod err;
pub mod laws;
mod partial_response;
mod response;
mod sheet;

pub use cedar_decisions::{Decision, ErrorHandling};
pub use err::AuthorizationError;
pub use partial_response::{ErrorState, PartialResponse, ReportedIds, ReportedPolicies};
pub use response::{Diagnostics, Response};
pub use sheet::{ConditionOutcome, Sheet};
