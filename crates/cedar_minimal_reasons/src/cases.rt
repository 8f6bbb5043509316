//! What is decided, and what is decided of it where some facts alone are kept.
ghost use Rattle.std.specs.Prelude.{◌≡◌, option_map, IfOk};
ghost use Rattle.cedar_decisions.specs.Decisions.{decision_view};
ghost use Rattle.cedar_reasons.specs.Facts.{facts_view};
ghost use Rattle.cedar_minimal_reasons.specs.Questions.{question, Answers, IsResponseTo, settled};

use crate::limits::has_limit;
use cedar_authorizer::authorizer::{Authorizer, Decision, PartialResponse};
use cedar_layers::policies::{Entity, PolicySet};
use cedar_reasons::{Fact, reduced};
use cedar_requests::Request;
use std::alloc::{AllocError, Global};

/// What is decided: a request, by these policies, over the store that has these entities and no others.
#[derive(Clone, Copy)]
pub struct Case<'x> {
    /// What is asked.
    pub request: &'x Request,
    /// The policies that decide.
    pub policies: &'x PolicySet,
    /// The entities, each with all of its ancestors. Of those of one uid the last counts.
    pub entities: &'x [&'x Entity],
}

// The decision that is given by these facts alone, if one is.
pub(crate) fn decided_by(
    alloc: Global,
    authorizer: &Authorizer<'_>,
    case: &Case<'_>,
    facts: &[Fact<'_>],
) -> Result<Option<Decision>, AllocError>
    ensures { IfOk result (λ o.
        Answers (question authorizer.now case.now) (facts_view facts.now) (option_map decision_view o)) }
{
    let response = response_by(alloc, authorizer, case, facts)?;
    Ok(settled(&response))
}

// What is answered by these facts alone.
pub(crate) fn response_by(
    alloc: Global,
    authorizer: &Authorizer<'_>,
    case: &Case<'_>,
    facts: &[Fact<'_>],
) -> Result<PartialResponse, AllocError>
    ensures { IfOk result (IsResponseTo (question authorizer.now case.now) (facts_view facts.now)) }
{
    let (request, store) = reduced(alloc, case.request, case.entities, facts)?;
    authorizer.is_authorized_core(alloc, request, case.policies, &store)
}

// The decision that the response gives; none, where the recursion limit is recorded.
pub(crate) fn settled(response: &PartialResponse) -> Option<Decision>
    ensures { option_map decision_view result ≡ settled response.now }
{
    if has_limit(&response.errors) {
        None
    } else {
        response.decision()
    }
}
