//! Requests: who asks to do what with what, and in which context.
pub use cedar_requests::{
    Context, ContextCreationError, EntityUIDEntry, IntoIter, Request, RequestType,
    context_creation_errors,
};
