//! Requests in which one part can be each entity of its type.
ghost use Rattle.std.specs.Prelude.{◌≡◌, IfOk};
ghost use Rattle.cedar_requests.specs.Requests.{entry_view, request_view};
ghost use Rattle.cedar_search.specs.Questions.{sought};
ghost use Rattle.cedar_service.specs.Searched.{opened, type_alone, with_entry};

use cedar_fallible::beside;
use cedar_requests::{EntityUIDEntry, Request};
use cedar_search::Part;
use std::alloc::AllocError;

/// The request, in which the part can be each entity of its type.
pub(crate) fn opened(part: Part, request: Request) -> Result<Request, AllocError>
    ensures { IfOk result (λ r. request_view r ≡ opened part (request_view request)) }
{
    let entry = entry_of(part, &request);
    let (request, entry) = beside(request, entry)?;
    Ok(with_entry(part, entry, request))
}

// Of the part's entry the type alone.
fn entry_of(part: Part, request: &Request) -> Result<EntityUIDEntry, AllocError>
    ensures { IfOk result (λ e. entry_view e ≡ type_alone (sought part (request_view request.now))) }
{
    match part {
        Part::Principal => type_alone(request.principal()),
        Part::Action => type_alone(request.action()),
        Part::Resource => type_alone(request.resource()),
    }
}

/// Of the entry the type alone.
pub(crate) fn type_alone(entry: &EntityUIDEntry) -> Result<EntityUIDEntry, AllocError>
    ensures { IfOk result (λ e. entry_view e ≡ type_alone (entry_view entry.now)) }
{
    match entry.get_type() {
        Some(ty) => Ok(EntityUIDEntry::unknown_with_type(ty.clone()?, None)),
        None => Ok(EntityUIDEntry::unknown()),
    }
}

fn with_entry(part: Part, entry: EntityUIDEntry, request: Request) -> Request
    ensures { request_view result ≡ with_entry part (entry_view entry) (request_view request) }
{
    let (principal, action, resource, context) = request.into_parts();
    match part {
        Part::Principal => Request::new_with_unknowns(entry, action, resource, context),
        Part::Action => Request::new_with_unknowns(principal, entry, resource, context),
        Part::Resource => Request::new_with_unknowns(principal, action, entry, context),
    }
}
