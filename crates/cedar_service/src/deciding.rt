//! What an engine answers.
ghost use Rattle.std.specs.Prelude.{◌≡◌, true, IfOk};
ghost use Rattle.cedar_extensions.specs.Extensions.{extensions_view, calls_of};
ghost use Rattle.cedar_endpoints.specs.Asked.{evaluation_view};
ghost use Rattle.cedar_service.specs.Asked.{has_known_context};
ghost use Rattle.cedar_service.specs.Brought.{laid_or};
ghost use Rattle.cedar_service.specs.Decided.{IsDecided, IsDecidedWith, IsDecidedOver, IsAuthorized, IsAuthorizedWith};
ghost use Rattle.cedar_service.specs.Decided.{IsAuthorizedOver, IsAnswered, IsRefusalOf, IsUnbroughtOutcome};
ghost use Rattle.cedar_service.specs.Documents.{IsReadAs};
ghost use Rattle.cedar_service.specs.Engines.{version_of, candidate_count, entities_of};
ghost use Rattle.json.specs.Value.{value_view};
ghost use Rattle.cedar_service.specs.Left.{IsLeft};
ghost use Rattle.cedar_service.specs.Loaded.{engine_of, loaded_ways, Remakes, Refuses};
ghost use Rattle.cedar_service.specs.Searched.{IsFound};
ghost use Rattle.cedar_service.specs.Ways.{ways_view};

use crate::brought::{Unbrought, brought_for};
use crate::documents::parse_json;
use crate::engine::Engine;
use crate::faults::{Refusal, refuse, refuse_json};
use crate::leaving::leave;
use crate::loaded::{Loaded, remade, ways_of};
use crate::properties::laid_over;
use crate::requests::{has_known_context, request_of, request_said};
use crate::responses::{outcome_of, response_to};
use crate::searching::search;
use crate::ways::Ways;
use cedar_endpoints::{
    Decider, Evaluation, Finding, NotRemade, Outcome, Partial, Remainder, Replaced, Search,
};
use cedar_extensions::Extensions;
use cedar_layers::policies::Entities;
use cedar_requests::Request;
use json::{Scratch, Value};
use std::alloc::{AllocError, Global};

/// An evaluation is decided as the engine's policies decide its request, or refused with the path of what is wrong in
/// it; and so is a text of Cedar's JSON. What takes its place has the engine of the texts, of which one is another.
impl Decider for Loaded {
    ghost decides = { λ l. IsDecided (engine_of l) (loaded_ways l) };

    ghost authorizes = { λ l. IsAuthorized (engine_of l) (loaded_ways l) };

    ghost leaves = { λ l. IsLeft (engine_of l) (loaded_ways l) };

    ghost finds = { λ l. IsFound (engine_of l) (loaded_ways l) };

    ghost version = { λ l. version_of (engine_of l) };

    ghost count = { λ l. candidate_count (engine_of l) };

    ghost remakes = { Remakes };

    ghost refuses = { Refuses };

    fn decide(&self, alloc: Global, question: &Evaluation<'_, '_>) -> Result<Outcome, AllocError> {
        decide(&self.engine, alloc, question, ways_of(&self.texts))
    }

    fn authorize(&self, alloc: Global, text: &str) -> Result<Outcome, AllocError> {
        authorize(&self.engine, alloc, text, ways_of(&self.texts))
    }

    fn authorize_partially(
        &self,
        alloc: Global,
        request: &Partial<'_, '_>,
        text: &str,
    ) -> Result<Remainder, AllocError> {
        leave(&self.engine, alloc, request, text, ways_of(&self.texts))
    }

    fn remake(&self, alloc: Global, replaced: Replaced, text: &str) -> Result<Loaded, NotRemade> {
        remade(alloc, self, replaced, text)
    }

    fn search(
        &self,
        alloc: Global,
        question: &Search<'_, '_>,
        after: usize,
        most: usize,
    ) -> Result<Finding, AllocError> {
        search(
            &self.engine,
            alloc,
            question,
            ways_of(&self.texts),
            after,
            most,
        )
    }

    fn version_text(&self) -> &str {
        self.engine.version.as_str()
    }

    fn candidate_count(&self) -> usize {
        self.engine.candidates.len()
    }
}

fn decide(
    engine: &Engine,
    alloc: Global,
    question: &Evaluation<'_, '_>,
    ways: Ways<'_>,
) -> Result<Outcome, AllocError>
    ensures { IfOk result (IsDecided engine.now (ways_view ways.entry) (evaluation_view question.now)) }
{
    let extensions = Extensions::all_available();
    decide_with(engine, alloc, question, ways, &extensions)
}

fn authorize(
    engine: &Engine,
    alloc: Global,
    text: &str,
    ways: Ways<'_>,
) -> Result<Outcome, AllocError>
    ensures { IfOk result (IsAuthorized engine.now (ways_view ways.entry) text.now) }
{
    let extensions = Extensions::all_available();
    authorize_with(engine, alloc, text, ways, &extensions)
}

// ---- an evaluation

fn decide_with(
    engine: &Engine,
    alloc: Global,
    question: &Evaluation<'_, '_>,
    ways: Ways<'_>,
    extensions: &Extensions<'_>,
) -> Result<Outcome, AllocError>
    ensures { IfOk result (IsDecidedWith (extensions_view extensions.now) (calls_of extensions.now) engine.now
        (ways_view ways.entry) (evaluation_view question.now)) }
{
    match request_of(alloc, question, ways.action_type, extensions) {
        Ok(request) => decide_over(engine, alloc, question, ways, request, extensions),
        Err(refusal) => refused(refusal),
    }
}

// The same for this request.
fn decide_over(
    engine: &Engine,
    alloc: Global,
    question: &Evaluation<'_, '_>,
    ways: Ways<'_>,
    request: Request,
    extensions: &Extensions<'_>,
) -> Result<Outcome, AllocError>
    ensures { IfOk result (IsDecidedOver (extensions_view extensions.now) (calls_of extensions.now) engine.now
        (ways_view ways.entry) (evaluation_view question.now) request) }
{
    match laid_over(alloc, engine.entities(), question, ways, extensions) {
        Ok(laid) => answer_laid(engine, alloc, laid, request, extensions),
        Err(refusal) => {
            drop(request);
            refused(refusal)
        }
    }
}

// ---- a text

fn authorize_with(
    engine: &Engine,
    alloc: Global,
    text: &str,
    ways: Ways<'_>,
    extensions: &Extensions<'_>,
) -> Result<Outcome, AllocError>
    ensures { IfOk result (IsAuthorizedWith (extensions_view extensions.now) (calls_of extensions.now) engine.now
        (ways_view ways.entry) text.now) }
{
    let mut scratch = Scratch::new(alloc);
    match parse_json(alloc, text, &mut scratch) {
        Ok(value) => authorize_value(engine, alloc, text, value, ways, extensions),
        Err(error) => {
            let refusal = refuse_json(alloc, "$", &error);
            drop(error);
            refused(refusal)
        }
    }
}

// The same for what the text is.
fn authorize_value(
    engine: &Engine,
    alloc: Global,
    text: &str,
    value: Value<'_>,
    ways: Ways<'_>,
    extensions: &Extensions<'_>,
) -> Result<Outcome, AllocError>
    requires read { IsReadAs text.now (value_view value) }
    ensures { IfOk result (IsAuthorizedWith (extensions_view extensions.now) (calls_of extensions.now) engine.now
        (ways_view ways.entry) text.now) }
{
    match brought_for(alloc, &engine.base, &value, ways, extensions) {
        Ok(brought) => authorize_over(engine, alloc, text, value, brought, extensions),
        Err(unbrought) => {
            drop(value);
            unbrought_outcome(unbrought)
        }
    }
}

// The same over what was laid over the engine's entities, if something was.
fn authorize_over(
    engine: &Engine,
    alloc: Global,
    text: &str,
    value: Value<'_>,
    laid: Option<Entities>,
    extensions: &Extensions<'_>,
) -> Result<Outcome, AllocError>
    requires read { IsReadAs text.now (value_view value) }
    ensures { IfOk result (IsAuthorizedOver (extensions_view extensions.now) (calls_of extensions.now) engine.now
        (laid_or (entities_of engine.now) laid) text.now) }
{
    match request_said(alloc, text, value, extensions) {
        Ok(request) => answer_laid(engine, alloc, laid, request, extensions),
        Err(refusal) => {
            drop(laid);
            refused(refusal)
        }
    }
}

// ---- what is answered

// Over what was laid over the engine's entities, if something was.
fn answer_laid(
    engine: &Engine,
    alloc: Global,
    laid: Option<Entities>,
    request: Request,
    extensions: &Extensions<'_>,
) -> Result<Outcome, AllocError>
    ensures { IfOk result (IsAnswered (extensions_view extensions.now) (calls_of extensions.now) engine.now
        (laid_or (entities_of engine.now) laid) request) }
{
    match laid {
        Some(store) => {
            let outcome = answer(engine, alloc, &store, request, extensions);
            drop(store);
            outcome
        }
        None => answer(engine, alloc, engine.entities(), request, extensions),
    }
}

fn answer(
    engine: &Engine,
    alloc: Global,
    store: &Entities,
    request: Request,
    extensions: &Extensions<'_>,
) -> Result<Outcome, AllocError>
    ensures { IfOk result (IsAnswered (extensions_view extensions.now) (calls_of extensions.now) engine.now store.now
        request) }
{
    if has_known_context(&request) {
        answer_known(engine, alloc, store, request, extensions)
    } else {
        drop(request);
        refused(refuse(alloc, "$.context", "an unknown stands in it"))
    }
}

fn answer_known(
    engine: &Engine,
    alloc: Global,
    store: &Entities,
    request: Request,
    extensions: &Extensions<'_>,
) -> Result<Outcome, AllocError>
    requires { has_known_context request ≡ true }
    ensures { IfOk result (IsAnswered (extensions_view extensions.now) (calls_of extensions.now) engine.now store.now
        request) }
{
    let response = response_to(alloc, engine, store, request, extensions)?;
    let outcome = outcome_of(alloc, &response);
    drop(response);
    outcome
}

// No decision, since no entities are brought.
#[cold]
fn unbrought_outcome(unbrought: Unbrought) -> Result<Outcome, AllocError>
    ensures { IfOk result (IsUnbroughtOutcome unbrought) }
{
    match unbrought {
        Unbrought::Refused(refusal) => refused(refusal),
        Unbrought::TooLarge(error) => Ok(Outcome::TooLarge { error }),
    }
}

// No decision, for what is told.
#[cold]
fn refused(refusal: Refusal) -> Result<Outcome, AllocError>
    ensures { IfOk result (IsRefusalOf refusal) }
{
    match refusal {
        Refusal::Told(error) => Ok(Outcome::Refused { error }),
        Refusal::Memory => Err(AllocError),
    }
}
