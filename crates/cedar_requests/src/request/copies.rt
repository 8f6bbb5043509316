//! Copies of requests.
ghost use Rattle.std.specs.Prelude.{◌≡◌, IfOk};
ghost use Rattle.cedar_requests.specs.Requests.{entry_view, entry_loc, context_given, given_locs};

use super::Request;
use crate::context::Context;
use crate::entry::EntityUIDEntry;
use cedar_fallible::beside;
use std::alloc::AllocError;

impl Clone for Request {
    ghost use Rattle.cedar_requests.specs.Requests.{request_view, request_locs};

    ghost is_clone = { λ r copy. (request_view copy ≡ request_view r) × (request_locs copy ≡ request_locs r) };

    fn clone(&self) -> Result<Request, AllocError> {
        let principal = copy_entry(&self.principal)?;
        let entities = beside(principal, copy_entry(&self.action))?;
        let entities = beside(entities, copy_entry(&self.resource))?;
        let (((principal, action), resource), context) = beside(
            entities,
            copied_context(&self.context),
        )?;
        Ok(Request {
            principal,
            action,
            resource,
            context,
        })
    }
}

fn copy_entry(entry: &EntityUIDEntry) -> Result<EntityUIDEntry, AllocError>
    ensures view { IfOk result (λ e. entry_view e ≡ entry_view entry.now) }
    ensures loc { IfOk result (λ e. entry_loc e ≡ entry_loc entry.now) }
{
    Ok(entry.clone()?)
}

fn copied_context(context: &Option<Context>) -> Result<Option<Context>, AllocError>
    ensures view { IfOk result (λ c. context_given c ≡ context_given context.now) }
    ensures locs { IfOk result (λ c. given_locs c ≡ given_locs context.now) }
{
    match context {
        Some(context) => Ok(Some(context.clone()?)),
        None => Ok(None),
    }
}
