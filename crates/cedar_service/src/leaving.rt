//! What is left of an engine's policies.
ghost use Rattle.std.specs.Prelude.{◌≡◌, IfOk, string_bytes};
ghost use Rattle.cedar_extensions.specs.Extensions.{extensions_view, calls_of};
ghost use Rattle.cedar_endpoints.specs.Partials.{partial_view};
ghost use Rattle.cedar_service.specs.Engines.{policies_of, entities_of};
ghost use Rattle.cedar_service.specs.Brought.{laid_or};
ghost use Rattle.cedar_service.specs.Left.{IsLeft, IsLeftWith, IsLeftOver, IsAskedPartly, IsPartialTo, IsPartialText};
ghost use Rattle.cedar_service.specs.Left.{IsRemainderOf, IsUntoldFor, IsUnbroughtRemainder, LeavesFor};
ghost use Rattle.cedar_service.specs.Ways.{ways_view};

use crate::brought::{Unbrought, brought_by};
use crate::engine::Engine;
use crate::faults::Refusal;
use crate::partials::partial_request;
use crate::ways::Ways;
use cedar_authorizer::authorizer::{Authorizer, PartialResponse};
use cedar_endpoints::{Partial, Remainder};
use cedar_extensions::Extensions;
use cedar_json_writer::partial_response_to_json;
use cedar_layers::policies::Entities;
use cedar_requests::Request;
use std::alloc::{AllocError, Global};

/// What is left of the engine's policies for the request, over its entities and those that the text brings, which writes
/// the request; or why nothing is told.
pub(crate) fn leave(
    engine: &Engine,
    alloc: Global,
    question: &Partial<'_, '_>,
    text: &str,
    ways: Ways<'_>,
) -> Result<Remainder, AllocError>
    ensures { IfOk result (IsLeft engine.now (ways_view ways.entry) (partial_view question.now) text.now) }
{
    let extensions = Extensions::all_available();
    leave_with(engine, alloc, question, text, ways, &extensions)
}

fn leave_with(
    engine: &Engine,
    alloc: Global,
    question: &Partial<'_, '_>,
    text: &str,
    ways: Ways<'_>,
    extensions: &Extensions<'_>,
) -> Result<Remainder, AllocError>
    ensures { IfOk result (IsLeftWith (extensions_view extensions.now) (calls_of extensions.now) engine.now
        (ways_view ways.entry) (partial_view question.now) text.now) }
{
    match partial_request(alloc, question, extensions) {
        Ok(request) => leave_over(engine, alloc, text, ways, request, extensions),
        Err(refusal) => untold(refusal),
    }
}

// The same for this request.
fn leave_over(
    engine: &Engine,
    alloc: Global,
    text: &str,
    ways: Ways<'_>,
    request: Request,
    extensions: &Extensions<'_>,
) -> Result<Remainder, AllocError>
    ensures { IfOk result (IsLeftOver (extensions_view extensions.now) (calls_of extensions.now) engine.now
        (ways_view ways.entry) text.now request) }
{
    match brought_by(alloc, &engine.base, text, ways, extensions) {
        Ok(brought) => leave_laid(engine, alloc, brought, request, extensions),
        Err(unbrought) => {
            drop(request);
            unbrought_remainder(unbrought)
        }
    }
}

// Over what was laid over the engine's entities, if something was.
fn leave_laid(
    engine: &Engine,
    alloc: Global,
    laid: Option<Entities>,
    request: Request,
    extensions: &Extensions<'_>,
) -> Result<Remainder, AllocError>
    ensures { IfOk result (LeavesFor (extensions_view extensions.now) (calls_of extensions.now) engine.now
        (laid_or (entities_of engine.now) laid) request) }
{
    match laid {
        Some(store) => {
            let remainder = remainder(engine, alloc, &store, request, extensions);
            drop(store);
            remainder
        }
        None => remainder(engine, alloc, engine.entities(), request, extensions),
    }
}

fn remainder(
    engine: &Engine,
    alloc: Global,
    store: &Entities,
    request: Request,
    extensions: &Extensions<'_>,
) -> Result<Remainder, AllocError>
    ensures { IfOk result (LeavesFor (extensions_view extensions.now) (calls_of extensions.now) engine.now store.now
        request) }
{
    let response = partial_response(alloc, engine, store, request, extensions)?;
    let remainder = remainder_of(alloc, &response);
    drop(response);
    remainder
}

// What the engine's policies leave for the request. Conditions and what is left of them are as high as they are.
fn partial_response(
    alloc: Global,
    engine: &Engine,
    store: &Entities,
    request: Request,
    extensions: &Extensions<'_>,
) -> Result<PartialResponse, AllocError>
    ensures { IfOk result (IsPartialTo (extensions_view extensions.now) (calls_of extensions.now)
        (policies_of engine.now) store.now request) }
{
    let authorizer = Authorizer::new(extensions, usize::MAX);
    authorizer.is_authorized_core(alloc, request, &engine.policies.policies, store)
}

fn remainder_of(alloc: Global, response: &PartialResponse) -> Result<Remainder, AllocError>
    ensures { IfOk result (IsRemainderOf response.now) }
{
    let response = response_text(alloc, response)?;
    Ok(Remainder::Told { response })
}

fn response_text(alloc: Global, response: &PartialResponse) -> Result<String, AllocError>
    ensures { IfOk result (λ s. IsPartialText response.now (string_bytes s)) }
{
    let json = partial_response_to_json(alloc, response)?;
    let text = json.to_text(alloc);
    drop(json);
    text
}

// Nothing is told, since no entities are brought.
#[cold]
fn unbrought_remainder(unbrought: Unbrought) -> Result<Remainder, AllocError>
    ensures { IfOk result (IsUnbroughtRemainder unbrought) }
{
    match unbrought {
        Unbrought::Refused(refusal) => untold(refusal),
        Unbrought::TooLarge(error) => Ok(Remainder::TooLarge { error }),
    }
}

// Nothing is told, for what is wrong.
#[cold]
fn untold(refusal: Refusal) -> Result<Remainder, AllocError>
    ensures { IfOk result (IsUntoldFor refusal) }
{
    match refusal {
        Refusal::Told(error) => Ok(Remainder::Refused { error }),
        Refusal::Memory => Err(AllocError),
    }
}
