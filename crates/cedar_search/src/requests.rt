//! The request with a candidate in it, and what the part of a request can be.
ghost use Rattle.std.specs.Prelude.{◌≡◌, IfOk};
ghost use Rattle.cedar_model.specs.Outcomes.{entity_eq};
ghost use Rattle.cedar_names.specs.Names.{uid_name};
ghost use Rattle.cedar_requests.specs.Requests.{entry_view, request_view};
ghost use Rattle.cedar_search.specs.Questions.{can_be, with_entity};

use crate::searches::Part;
use cedar_fallible::pair_of;
use cedar_names::EntityUID;
use cedar_names::shared::{same_text, same_type};
use cedar_requests::{EntityUIDEntry, Request};
use std::alloc::AllocError;

/// Whether the entry can be this entity: a known entity that one alone, an unknown each of its type, if that is known.
pub(crate) fn can_be(entry: &EntityUIDEntry, candidate: &EntityUID) -> bool
    ensures { result ≡ can_be (entry_view entry.now) (uid_name candidate.now) }
{
    match entry {
        EntityUIDEntry::Known { euid, loc: _ } => same_entity(euid, candidate),
        EntityUIDEntry::Unknown { ty, loc: _ } => match ty {
            Some(ty) => same_type(ty, candidate.entity_type()),
            None => true,
        },
    }
}

fn same_entity(one: &EntityUID, other: &EntityUID) -> bool
    ensures { result ≡ entity_eq (uid_name one.now) (uid_name other.now) }
{
    same_type(one.entity_type(), other.entity_type()) && same_text(one.eid(), other.eid())
}

/// The request with the candidate as its part.
pub(crate) fn request_with(
    part: Part,
    request: &Request,
    candidate: &EntityUID,
) -> Result<Request, AllocError>
    ensures { IfOk result (λ r. request_view r ≡ with_entity part (uid_name candidate.now) (request_view request.now)) }
{
    let (entity, copy) = pair_of(candidate.clone(), request.clone())?;
    Ok(with_entity(part, entity, copy))
}

fn with_entity(part: Part, entity: EntityUID, request: Request) -> Request
    ensures { request_view result ≡ with_entity part (uid_name entity) (request_view request) }
{
    let entry = EntityUIDEntry::from(entity);
    let (principal, action, resource, context) = request.into_parts();
    match part {
        Part::Principal => Request::new_with_unknowns(entry, action, resource, context),
        Part::Action => Request::new_with_unknowns(principal, entry, resource, context),
        Part::Resource => Request::new_with_unknowns(principal, action, entry, context),
    }
}
