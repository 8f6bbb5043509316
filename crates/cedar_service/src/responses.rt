//! Decisions, and their responses as JSON.
ghost use Rattle.std.specs.Prelude.{◌≡◌, IfOk, string_bytes};
ghost use Rattle.cedar_decisions.specs.Decisions.{decision_view};
ghost use Rattle.cedar_extensions.specs.Extensions.{extensions_view, calls_of};
ghost use Rattle.cedar_authorizer.specs.responses.Responses.{response_view};
ghost use Rattle.cedar_service.specs.Decided.{is_allow};
ghost use Rattle.cedar_service.specs.Engines.{policies_of};
ghost use Rattle.cedar_service.specs.Decided.{IsResponseTo, IsResponseText, IsOutcomeOf};

use crate::contexts::LEVELS;
use crate::engine::Engine;
use cedar_authorizer::authorizer::{Authorizer, Decision, Response};
use cedar_endpoints::Outcome;
use cedar_extensions::Extensions;
use cedar_json_writer::response_to_json;
use cedar_layers::policies::Entities;
use cedar_requests::Request;
use std::alloc::{AllocError, Global};

/// How many levels the condition of a policy that was read has at most: one more than its clauses.
pub(crate) const LIMIT: usize = LEVELS + 1;

/// What the engine's policies decide for the request over this store.
pub(crate) fn response_to(
    alloc: Global,
    engine: &Engine,
    store: &Entities,
    request: Request,
    extensions: &Extensions<'_>,
) -> Result<Response, AllocError>
    ensures { IfOk result (λ a. IsResponseTo (extensions_view extensions.now) (calls_of extensions.now)
        (policies_of engine.now) store.now request (response_view a)) }
{
    let authorizer = Authorizer::new(extensions, LIMIT);
    authorizer.is_authorized(alloc, request, &engine.policies.policies, store)
}

/// The decision, and the response that it is due to as JSON.
pub(crate) fn outcome_of(alloc: Global, response: &Response) -> Result<Outcome, AllocError>
    ensures { IfOk result (IsOutcomeOf response.now) }
{
    let context = response_text(alloc, response)?;
    let is_allowed = is_allow(response.decision);
    Ok(Outcome::Decided {
        is_allowed,
        context,
    })
}

fn is_allow(decision: Decision) -> bool
    ensures { result ≡ is_allow (decision_view decision) }
{
    match decision {
        Decision::Allow => true,
        Decision::Deny => false,
    }
}

fn response_text(alloc: Global, response: &Response) -> Result<String, AllocError>
    ensures { IfOk result (λ s. IsResponseText response.now (string_bytes s)) }
{
    let json = response_to_json(alloc, response)?;
    let text = json.to_text(alloc);
    drop(json);
    text
}
