//! The stages of a partial answer: the first response, and what each step makes of it.
ghost use Rattle.std.specs.Prelude.{◌≡◌, List, IfOk, IfErr};
ghost use Rattle.cedar_extensions.specs.Extensions.{extensions_view, calls_of};
ghost use Rattle.cedar_layers.specs.Stores.{store_view};
ghost use Rattle.cedar_requests.specs.Requests.{request_view};
ghost use Rattle.cedar_authorizer.specs.Configured.{configuration, asked_of};
ghost use Rattle.cedar_authorizer.specs.Responding.{considered};
ghost use Rattle.cedar_authorizer.specs.Running.{request_of, IsRun};
ghost use Rattle.cedar_cli.specs.Questions.{IsPartialRequest};
ghost use Rattle.cedar_cli.specs.Inputs.{AreInputs};
ghost use Rattle.cedar_cli.specs.Reasons.{IsToldFor, IsPartialUnread};
ghost use Rattle.cedar_cli.specs.Stages.{last_in, partial_configuration, AreStages, AreTakenFrom};
ghost use Rattle.cedar_cli.specs.Stopped.{AreNoStages, AreNotTakenFrom};

use crate::asked::{Asked, Step, Way};
use crate::limits::{STEPS, levels_within, too_many_steps};
use crate::reading::partial_request;
use crate::refusal::Refusal;
use crate::steps::{StepInput, Taken, last_of, step_inputs, take_all};
use crate::stores::Store;
use cedar_policy_core::ast::PolicySet;
use cedar_policy_core::authorizer::{Authorizer, PartialResponse};
use cedar_policy_core::extensions::Extensions;
use std::alloc::Global;

/// The first response, and what each step in turn makes of it.
#[derive(Drop)]
pub struct Stages<'t> {
    /// The first response.
    pub first: PartialResponse,
    /// The steps, with what each makes of the response before it.
    pub later: Vec<Taken<'t>>,
}

impl<'t> Stages<'t> {
    /// The last response.
    pub fn last(&self) -> &PartialResponse
        ensures { result.now ≡ last_in self.now.first self.now.later.items }
    {
        last_of(&self.first, &self.later)
    }
}

/// The stages of what is asked. All files of the steps are read before anything is decided, and too many steps are
/// refused before that.
pub fn all_stages<'t>(
    alloc: Global,
    policies: &PolicySet,
    store: &Store,
    asked: &Asked<'_, '_>,
    steps: &[Step<'t>],
    way: Way,
    extensions: &Extensions<'_>,
    warnings: &mut String,
) -> Result<Stages<'t>, Refusal>
    ensures stages { IfOk result (λ s. AreStages
        (partial_configuration (extensions_view extensions.now) (calls_of extensions.now) way) (considered policies.now)
        store.now.entities asked.now steps.now s.first s.later.items) }
    ensures refused { IfErr result (IsToldFor (AreNoStages
        (partial_configuration (extensions_view extensions.now) (calls_of extensions.now) way) (considered policies.now)
        store.now.entities asked.now steps.now)) }
{
    if steps.len() > STEPS {
        return Err(too_many_steps(alloc, steps.len()));
    }
    let inputs = step_inputs(alloc, steps, extensions, warnings)?;
    let stages = stages_of(
        alloc, policies, store, asked, &inputs, way, extensions, warnings,
    );
    drop(inputs);
    stages
}

fn stages_of<'t>(
    alloc: Global,
    policies: &PolicySet,
    store: &Store,
    asked: &Asked<'_, '_>,
    inputs: &[StepInput<'t>],
    way: Way,
    extensions: &Extensions<'_>,
    warnings: &mut String,
) -> Result<Stages<'t>, Refusal>
    ensures stages { (ss : List _) → AreInputs (extensions_view extensions.now) (calls_of extensions.now) ss inputs.now
        → IfOk result (λ s. AreStages
        (partial_configuration (extensions_view extensions.now) (calls_of extensions.now) way) (considered policies.now)
        store.now.entities asked.now ss s.first s.later.items) }
    ensures refused { (ss : List _) → AreInputs (extensions_view extensions.now) (calls_of extensions.now) ss inputs.now
        → IfErr result (IsToldFor (AreNoStages
        (partial_configuration (extensions_view extensions.now) (calls_of extensions.now) way) (considered policies.now)
        store.now.entities asked.now ss)) }
{
    let authorizer = Authorizer::new(extensions, levels_within(way.limit)).with_error_handling(
        way.error_handling,
    );
    let first = first_stage(alloc, &authorizer, policies, store, asked, extensions)?;
    let mut later: Vec<Taken<'t>> = Vec::new(alloc);
    match take_all(
        alloc,
        &authorizer,
        way.limit,
        &first,
        store,
        inputs,
        &mut later,
        warnings,
    ) {
        Ok(()) => Ok(Stages { first, later }),
        Err(refusal) => {
            drop((first, later));
            Err(refusal)
        }
    }
}

/// What each step in turn makes of this response, over this store or the step's own. All files of the steps are read
/// before one is taken, and too many steps are refused before that; a step is refused as in the stages of what is asked.
pub fn stages_from<'t>(
    alloc: Global,
    first: PartialResponse,
    store: &Store,
    steps: &[Step<'t>],
    way: Way,
    extensions: &Extensions<'_>,
    warnings: &mut String,
) -> Result<Stages<'t>, Refusal>
    ensures first { IfOk result (λ s. s.first ≡ first) }
    ensures taken { IfOk result (λ s. AreTakenFrom
        (partial_configuration (extensions_view extensions.now) (calls_of extensions.now) way) first
        store.now.entities steps.now s.later.items) }
    ensures refused { IfErr result (IsToldFor (AreNotTakenFrom
        (partial_configuration (extensions_view extensions.now) (calls_of extensions.now) way) first
        store.now.entities steps.now)) }
{
    if STEPS < steps.len() {
        drop(first);
        return Err(too_many_steps(alloc, steps.len()));
    }
    match step_inputs(alloc, steps, extensions, warnings) {
        Ok(inputs) => {
            let stages = stages_behind(alloc, first, store, &inputs, way, extensions, warnings);
            drop(inputs);
            stages
        }
        Err(refusal) => {
            drop(first);
            Err(refusal)
        }
    }
}

fn stages_behind<'t>(
    alloc: Global,
    first: PartialResponse,
    store: &Store,
    inputs: &[StepInput<'t>],
    way: Way,
    extensions: &Extensions<'_>,
    warnings: &mut String,
) -> Result<Stages<'t>, Refusal>
    ensures first { IfOk result (λ s. s.first ≡ first) }
    ensures taken { (ss : List _) → AreInputs (extensions_view extensions.now) (calls_of extensions.now) ss inputs.now
        → IfOk result (λ s. AreTakenFrom
        (partial_configuration (extensions_view extensions.now) (calls_of extensions.now) way) first
        store.now.entities ss s.later.items) }
    ensures refused { (ss : List _) → AreInputs (extensions_view extensions.now) (calls_of extensions.now) ss inputs.now
        → IfErr result (IsToldFor (AreNotTakenFrom
        (partial_configuration (extensions_view extensions.now) (calls_of extensions.now) way) first
        store.now.entities ss)) }
{
    let authorizer = Authorizer::new(extensions, levels_within(way.limit)).with_error_handling(
        way.error_handling,
    );
    let mut later: Vec<Taken<'t>> = Vec::new(alloc);
    match take_all(
        alloc,
        &authorizer,
        way.limit,
        &first,
        store,
        inputs,
        &mut later,
        warnings,
    ) {
        Ok(()) => Ok(Stages { first, later }),
        Err(refusal) => {
            drop((first, later));
            Err(refusal)
        }
    }
}

/// The response before any step: of these policies, for the request that is asked, where what is not given is unknown,
/// over this store, by this authorizer, which has the same extensions. Refused where the request can't be read.
pub fn first_stage(
    alloc: Global,
    authorizer: &Authorizer<'_>,
    policies: &PolicySet,
    store: &Store,
    asked: &Asked<'_, '_>,
    extensions: &Extensions<'_>,
) -> Result<PartialResponse, Refusal>
    ensures request { IfOk result (λ r.
        IsPartialRequest (extensions_view extensions.now) (calls_of extensions.now) asked.now (request_of r)) }
    ensures run { IfOk result (λ r. IsRun (configuration authorizer.now)
        (asked_of (configuration authorizer.now) (request_view (request_of r)) (store_view store.now.entities))
        (considered policies.now) r) }
    ensures refused { IfErr result (IsToldFor
        (IsPartialUnread (extensions_view extensions.now) (calls_of extensions.now) asked.now)) }
{
    let request = partial_request(alloc, asked, extensions)?;
    Ok(authorizer.is_authorized_core(alloc, request, policies, &store.entities)?)
}
