//! Reauthorization: what a partial response is taken further with, before its policies are decided again.
mod err;
mod policies;
mod request;

pub use err::{ConcretizationError, ReauthorizationError};
pub(crate) use policies::residual_policies;
pub(crate) use request::concretize_request;
