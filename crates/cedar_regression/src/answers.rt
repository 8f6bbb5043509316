//! What policies answer to one request.
ghost use Rattle.std.specs.Prelude.{◌≡◌, IfOk, IfErr};
ghost use Rattle.cedar_extensions.specs.Extensions.{extensions_view, calls_of};
ghost use Rattle.cedar_authorizer.specs.responses.Responses.{response_view};
ghost use Rattle.cedar_expectations.specs.Answers.{answer_view};
ghost use Rattle.cedar_cli.specs.Authorized.{IsResponseTo};
ghost use Rattle.cedar_cli.specs.Reasons.{IsToldFor, IsRequestUnread};
ghost use Rattle.cedar_regression.specs.Answered.{IsAnswerOver};
ghost use Rattle.cedar_regression.specs.Compared.{AreBothOver};

use cedar_cli::{Asked, Refusal, Way, text_limit, whole_request};
use cedar_expectations::{Answer, answer_in};
use cedar_policy_core::ast::{PolicySet, Request};
use cedar_policy_core::authorizer::{Authorizer, Response};
use cedar_policy_core::entities::Entities;
use cedar_policy_core::extensions::Extensions;
use std::alloc::{AllocError, Global};

/// The answers of the old policies and of the new ones to one request.
#[derive(Drop)]
pub(crate) struct Both {
    pub(crate) old: Answer,
    pub(crate) new: Answer,
}

/// What the old and the new policies answer to the request that is asked.
pub(crate) fn both_answers(
    alloc: Global,
    old: &PolicySet,
    new: &PolicySet,
    entities: &Entities,
    way: Way,
    asked: &Asked<'_, '_>,
    extensions: &Extensions<'_>,
) -> Result<Both, Refusal>
    ensures answered { IfOk result (AreBothOver (extensions_view extensions.now) (calls_of extensions.now) old.now
        new.now entities.now way asked.now) }
    ensures refused { IfErr result (IsToldFor
        (IsRequestUnread (extensions_view extensions.now) (calls_of extensions.now) asked.now)) }
{
    let old = answer_of(alloc, old, entities, way, asked, extensions)?;
    let new = answer_of(alloc, new, entities, way, asked, extensions)?;
    Ok(Both { old, new })
}

/// What the policies answer to the request that is asked. Refused where it can't be read.
pub fn answer_of(
    alloc: Global,
    policies: &PolicySet,
    entities: &Entities,
    way: Way,
    asked: &Asked<'_, '_>,
    extensions: &Extensions<'_>,
) -> Result<Answer, Refusal>
    ensures answered { IfOk result (λ a. IsAnswerOver (extensions_view extensions.now) (calls_of extensions.now)
        policies.now entities.now way asked.now (answer_view a)) }
    ensures refused { IfErr result (IsToldFor
        (IsRequestUnread (extensions_view extensions.now) (calls_of extensions.now) asked.now)) }
{
    let request = whole_request(alloc, asked, extensions)?;
    let response = respond(alloc, request, policies, entities, way, extensions)?;
    let answer = answer_in(alloc, policies, &response);
    drop(response);
    Ok(answer?)
}

// The response to the request. Nothing is unknown in what is decided here, so that no condition that was read meets the
// limit of the text.
fn respond(
    alloc: Global,
    request: Request,
    policies: &PolicySet,
    entities: &Entities,
    way: Way,
    extensions: &Extensions<'_>,
) -> Result<Response, AllocError>
    ensures { IfOk result (λ r. IsResponseTo (extensions_view extensions.now) (calls_of extensions.now)
        policies.now entities.now request way (response_view r)) }
{
    let limit = way.limit.unwrap_or(text_limit());
    let authorizer = Authorizer::new(extensions, limit).with_error_handling(way.error_handling);
    authorizer.is_authorized(alloc, request, policies, entities)
}
