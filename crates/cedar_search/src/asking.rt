//! Whether a candidate is permitted: the whole request with it is asked.
ghost use Rattle.std.specs.Prelude.{◌≡◌, IfOk};
ghost use Rattle.cedar_decisions.specs.Decisions.{decision_view};
ghost use Rattle.cedar_names.specs.Names.{uid_name};
ghost use Rattle.cedar_authorizer.specs.responses.Responses.{response_view};
ghost use Rattle.cedar_requests.specs.Requests.{entry_view, request_view};
ghost use Rattle.cedar_search.specs.Questions.{question, sought};
ghost use Rattle.cedar_search.specs.Found.{IsDecided, IsAllowedAs, IsResponseTo, is_allow};

use crate::requests::{can_be, request_with};
use crate::searches::{Part, Search};
use cedar_authorizer::authorizer::{Authorizer, Decision, Response};
use cedar_names::EntityUID;
use cedar_requests::{EntityUIDEntry, Request};
use std::alloc::{AllocError, Global};

/// Whether the part can be the candidate, and the whole request with it is allowed.
pub(crate) fn is_permitted(
    alloc: Global,
    authorizer: &Authorizer<'_>,
    search: &Search<'_>,
    candidate: &EntityUID,
) -> Result<bool, AllocError>
    ensures { IfOk result (IsDecided (question authorizer.now search.now) (uid_name candidate.now)) }
{
    if can_be(sought(search.part, search.request), candidate) {
        is_allowed(alloc, authorizer, search, candidate)
    } else {
        Ok(false)
    }
}

// The entry of the part.
fn sought(part: Part, request: &Request) -> &EntityUIDEntry
    ensures { entry_view result.now ≡ sought part (request_view request.now) }
{
    match part {
        Part::Principal => request.principal(),
        Part::Action => request.action(),
        Part::Resource => request.resource(),
    }
}

// Whether the whole request with the candidate is allowed.
fn is_allowed(
    alloc: Global,
    authorizer: &Authorizer<'_>,
    search: &Search<'_>,
    candidate: &EntityUID,
) -> Result<bool, AllocError>
    ensures { IfOk result (IsAllowedAs (question authorizer.now search.now) (uid_name candidate.now)) }
{
    let response = response_to(alloc, authorizer, search, candidate)?;
    let decision = response.decision;
    drop(response);
    Ok(is_allow(decision))
}

fn response_to(
    alloc: Global,
    authorizer: &Authorizer<'_>,
    search: &Search<'_>,
    candidate: &EntityUID,
) -> Result<Response, AllocError>
    ensures { IfOk result (λ r. IsResponseTo (question authorizer.now search.now) (uid_name candidate.now)
        (response_view r)) }
{
    let request = request_with(search.part, search.request, candidate)?;
    authorizer.is_authorized(alloc, request, search.policies, search.entities)
}

fn is_allow(decision: Decision) -> bool
    ensures { result ≡ is_allow (decision_view decision) }
{
    match decision {
        Decision::Allow => true,
        Decision::Deny => false,
    }
}
