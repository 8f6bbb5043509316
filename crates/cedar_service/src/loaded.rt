//! Engines with the texts that they are made of, so that one of these can be replaced.
ghost use Rattle.std.specs.Prelude.{◌≡◌, IfOk, IfErr, codes};
ghost use Rattle.cedar_endpoints.specs.Reloads.{IsNotRemade};
ghost use Rattle.cedar_service.specs.Faults.{IsToldAs, IsFaultBelow};
ghost use Rattle.cedar_service.specs.Loaded.{both_texts, texts_of, texts_view, replaced_with, IsLoadedOf, Remakes};
ghost use Rattle.cedar_service.specs.Loaded.{Refuses, IsRefusedFor, IsOfTexts, IsSameRefusal};
ghost use Rattle.cedar_service.specs.Ways.{ways_view};

use crate::engine::{Engine, NotStarted};
use crate::faults::{Refusal, refuse_below, refuse_json};
use crate::reasons::policies_reason;
use crate::ways::{RequestEntities, RequestProperties, Ways};
use cedar_endpoints::{Bounds, NotRemade, Replaced};
use cedar_hierarchy::ClosureError;
use cedar_names::FirstRest;
use cedar_text_parser::ParseError;
use std::alloc::{AllocError, Global};

// What an engine is made of.
#[derive(Drop)]
pub(crate) struct Texts {
    // The policies, in Cedar's text.
    pub(crate) policies: String,
    // The entities, in Cedar's JSON.
    pub(crate) entities: String,
    // Of which entities the properties of an evaluation are taken.
    pub(crate) properties: RequestProperties,
    // Whether a request may bring entities.
    pub(crate) brings: RequestEntities,
    // How much a request may ask and bring.
    pub(crate) bounds: Bounds,
    // The type of the actions.
    pub(crate) action_type: String,
}

/// An engine, and the texts that it is made of.
#[derive(Drop)]
pub struct Loaded {
    pub(crate) engine: Engine,
    pub(crate) texts: Texts,
}

impl Loaded {
    ghost use Rattle.cedar_service.specs.Loaded.{engine_of};
    ghost use Rattle.cedar_service.specs.Started.{IsNotStarted};

    /// The engine of the policies that the first text writes, in Cedar's text, over the entities that the second one
    /// says, in Cedar's JSON, with copies of both. Requests are taken in these ways, which say of which entities they may
    /// have properties, whether they may bring entities, and how much they may ask and bring. Refuses as `Engine::of_texts` does.
    pub fn of_texts(
        alloc: Global,
        policies: &str,
        entities: &str,
        ways: Ways<'_>,
    ) -> Result<Loaded, NotStarted>
        ensures loaded { IfOk result (IsLoadedOf (both_texts policies.now entities.now (ways_view ways.entry))) }
        ensures refused { IfErr result (IsNotStarted policies.now entities.now) }
    {
        match copied(alloc, policies, entities, ways) {
            Ok(texts) => with_engine(alloc, policies, entities, texts),
            Err(AllocError) => Err(NotStarted::Memory),
        }
    }

    /// The engine.
    pub fn engine(&self) -> &Engine
        ensures { result.now ≡ engine_of self.now }
    {
        &self.engine
    }
}

ghost use Rattle.cedar_service.specs.Started.{IsNotStarted};

/// How requests are taken.
pub(crate) fn ways_of(texts: &Texts) -> Ways<'_>
    ensures { ways_view result ≡ (texts_view texts.now).ways }
{
    Ways {
        properties: texts.properties,
        entities: texts.brings,
        bounds: texts.bounds,
        action_type: texts.action_type.as_str(),
    }
}

fn with_engine(
    alloc: Global,
    policies: &str,
    entities: &str,
    texts: Texts,
) -> Result<Loaded, NotStarted>
    requires { texts_view texts ≡ both_texts policies.now entities.now (texts_view texts).ways }
    ensures loaded { IfOk result (IsLoadedOf (both_texts policies.now entities.now (texts_view texts).ways)) }
    ensures refused { IfErr result (IsNotStarted policies.now entities.now) }
{
    match Engine::of_texts(alloc, policies, entities) {
        Ok(engine) => Ok(Loaded { engine, texts }),
        Err(reason) => {
            drop(texts);
            Err(reason)
        }
    }
}

fn copied(
    alloc: Global,
    policies: &str,
    entities: &str,
    ways: Ways<'_>,
) -> Result<Texts, AllocError>
    ensures { IfOk result (λ t. texts_view t ≡ both_texts policies.now entities.now (ways_view ways.entry)) }
{
    let policies = String::from_str(alloc, policies)?;
    let entities = String::from_str(alloc, entities)?;
    let action_type = String::from_str(alloc, ways.action_type)?;
    Ok(Texts {
        policies,
        entities,
        properties: ways.properties,
        brings: ways.entities,
        bounds: ways.bounds,
        action_type,
    })
}

/// What takes its place where this text is taken in place of its policies or its entities; all else is the same. Refuses
/// a text that is wrong, with the reason and where in it that is.
pub(crate) fn remade(
    alloc: Global,
    loaded: &Loaded,
    replaced: Replaced,
    text: &str,
) -> Result<Loaded, NotRemade>
    ensures remade { IfOk result (Remakes loaded.now replaced text.now) }
    ensures refused { IfErr result (IsNotRemade (Refuses loaded.now replaced text.now)) }
{
    let texts = &loaded.texts;
    match replaced {
        Replaced::Policies => made_of(alloc, text, texts.entities.as_str(), ways_of(texts)),
        Replaced::Entities => made_of(alloc, texts.policies.as_str(), text, ways_of(texts)),
    }
}

fn made_of(
    alloc: Global,
    policies: &str,
    entities: &str,
    ways: Ways<'_>,
) -> Result<Loaded, NotRemade>
    ensures made { IfOk result (IsLoadedOf (both_texts policies.now entities.now (ways_view ways.entry))) }
    ensures refused { IfErr result (IsNotRemade
        (IsRefusedFor (both_texts policies.now entities.now (ways_view ways.entry)))) }
{
    match Loaded::of_texts(alloc, policies, entities, ways) {
        Ok(loaded) => Ok(loaded),
        Err(reason) => {
            let refusal = refuse_reason(alloc, policies, &reason);
            drop(reason);
            Err(same_refusal(refusal))
        }
    }
}

fn same_refusal(refusal: Refusal) -> NotRemade
    ensures { IsSameRefusal refusal result }
{
    match refusal {
        Refusal::Memory => NotRemade::Memory,
        Refusal::Told(error) => NotRemade::Told(error),
    }
}

// Why of these texts no engine is made.
#[cold]
fn refuse_reason(alloc: Global, policies: &str, reason: &NotStarted) -> Refusal
    ensures reason { IsToldAs (λ _. IsOfTexts reason.now) result }
    ensures fault { IsToldAs (IsFaultBelow (codes "$")) result }
{
    match reason {
        NotStarted::Policies(errors) => refuse_policies(alloc, policies, errors),
        NotStarted::Entities(error) => refuse_json(alloc, "$", error),
        NotStarted::Parents(error) => refuse_parents(alloc, error),
        NotStarted::Memory => Refusal::Memory,
    }
}

fn refuse_policies(alloc: Global, text: &str, errors: &FirstRest<ParseError>) -> Refusal
    ensures { IsToldAs (IsFaultBelow (codes "$")) result }
{
    match policies_reason(alloc, text, errors) {
        Ok(reason) => refuse_below(alloc, "$", reason.as_str()),
        Err(AllocError) => Refusal::Memory,
    }
}

fn refuse_parents(alloc: Global, error: &ClosureError) -> Refusal
    ensures { IsToldAs (IsFaultBelow (codes "$")) result }
{
    match parents_reason(alloc, error) {
        Ok(reason) => refuse_below(alloc, "$", reason.as_str()),
        Err(AllocError) => Refusal::Memory,
    }
}

fn parents_reason(alloc: Global, error: &ClosureError) -> Result<String, AllocError> {
    format!(in alloc; "{error}")
}
