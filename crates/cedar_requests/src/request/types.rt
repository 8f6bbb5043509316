//! The types of a request.
ghost use Rattle.std.specs.Prelude.{◌≡◌, IfOk, IfSome, option_map};
ghost use Rattle.cedar_requests.specs.Requests.{request_parts, request_view};
ghost use Rattle.cedar_requests.specs.Types.{request_type_view, request_type, IsTypeOf, IsEntityOf};

use super::Request;
use cedar_names::{EntityType, EntityUID};
use std::alloc::AllocError;

/// The types of the principal and the resource of a request, and its action.
#[derive(Debug, Clone, PartialEq, Eq, Hash, Drop)]
pub struct RequestType {
    /// The type of who asks.
    pub principal: EntityType,
    /// What is to be done.
    pub action: EntityUID,
    /// The type of what it is to be done with.
    pub resource: EntityType,
}

impl Request {
    /// The types of the principal and the resource, and the action, each with its location: `None` unless all three are
    /// known. Refuses only if out of memory.
    pub fn to_request_type(&self) -> Result<Option<RequestType>, AllocError>
        ensures view { IfOk result (λ t. option_map request_type_view t ≡ request_type (request_view self.now)) }
        ensures principal { IfOk result (λ t. IfSome t (λ k. IsTypeOf (request_parts self.now).0 k.principal)) }
        ensures action { IfOk result (λ t. IfSome t (λ k. IsEntityOf (request_parts self.now).1 k.action)) }
        ensures resource { IfOk result (λ t. IfSome t (λ k. IsTypeOf (request_parts self.now).2 k.resource)) }
    {
        let Some(principal) = self.principal.uid() else {
            return Ok(None);
        };
        let Some(action) = self.action.uid() else {
            return Ok(None);
        };
        let Some(resource) = self.resource.uid() else {
            return Ok(None);
        };
        Ok(Some(RequestType {
            principal: principal.entity_type().clone()?,
            action: action.clone()?,
            resource: resource.entity_type().clone()?,
        }))
    }
}
