//! A decision in stages.
ghost use Rattle.std.specs.Prelude.{◌≡◌, Ok};
ghost use Rattle.cedar_requests.specs.Requests.{request_view};
ghost use Rattle.cedar_layers.specs.Stores.{store_view};
ghost use Rattle.cedar_authorizer.specs.ByHand.{ChainGives};
ghost use Rattle.cedar_authorizer.specs.Configured.{configuration, resolution_of};
ghost use Rattle.cedar_authorizer.specs.Headline.{steps_view};
ghost use Rattle.cedar_authorizer.specs.Responding.{considered};

use crate::errors::StageError;
use crate::limits::has_limit;
use cedar_authorizer::authorizer::{Authorizer, PartialResponse, ReauthorizationError};
use cedar_layers::policies::{Entities, PolicySet};
use cedar_requests::Request;
use cedar_values::Value;
use std::alloc::{AllocError, Global};
use std::collections::HashMap;
use std::rc::{Rc, RcStr};

/// A request that is decided in stages, with the stages so far, and what is known by now.
#[derive(Drop)]
pub struct Staged<'f, 's> {
    pub(crate) authorizer: Authorizer<'f>,
    pub(crate) request: Rc<Request>,
    pub(crate) policies: &'s PolicySet,
    pub(crate) entities: &'s Entities,
    pub(crate) steps: Vec<(&'s HashMap<RcStr, Value>, &'s Entities)>,
    pub(crate) response: PartialResponse,
    ghost chain: { ∥ ChainGives (configuration authorizer) (request_view request.value) (store_view entities.now)
        (considered policies.now) (steps_view (resolution_of authorizer) steps.items) (Ok response) ∥₁ },
}

impl<'f, 's> Staged<'f, 's> {
    ghost use Rattle.std.specs.Prelude.{false, [], IfOk, IfErr, OnOk, OnErr};
    ghost use Rattle.cedar_authorizer.specs.Configured.{asked};
    ghost use Rattle.cedar_authorizer.specs.Running.{IsRun};
    ghost use Rattle.cedar_authorizer.specs.Steps.{step_by, response_said, IsStep};
    ghost use Rattle.cedar_staged.specs.Stages.{authorizer_of, response_of, IsBegunWith};
    ghost use Rattle.cedar_authorizer.specs.Running.{errors_of};
    ghost use Rattle.cedar_model.specs.Chains.{has_limit};
    ghost use Rattle.cedar_staged.specs.Stages.{GoesOn, IsWhyNot, StaysAs};
    ghost use Rattle.cedar_staged.specs.Refusals.{IsMemory};

    /// The request is asked first: what the authorizer answers of these policies over this store. No step is taken
    /// yet. Refuses only if out of memory.
    pub fn begin(
        alloc: Global,
        authorizer: &Authorizer<'f>,
        request: Request,
        policies: &'s PolicySet,
        entities: &'s Entities,
    ) -> Result<Staged<'f, 's>, AllocError>
        ensures begun { IfOk result (IsBegunWith authorizer.now request policies.now entities.now) }
        ensures run { IfOk result (λ s. IsRun (configuration authorizer.now)
            (asked authorizer.now request entities.now) (considered policies.now) (response_of s)) }
    {
        let response = authorizer.is_authorized_core(alloc, request, policies, entities)?;
        Staged::of_first(alloc, authorizer, policies, entities, response)
    }

    fn of_first(
        alloc: Global,
        authorizer: &Authorizer<'f>,
        policies: &'s PolicySet,
        entities: &'s Entities,
        response: PartialResponse,
    ) -> Result<Staged<'f, 's>, AllocError>
        requires { ChainGives (configuration authorizer.now) (request_view response.request.value)
            (store_view entities.now) (considered policies.now) [] (Ok response) }
        ensures begun { IfOk result (IsBegunWith authorizer.now response.request.value policies.now entities.now) }
        ensures response { IfOk result (λ s. response_of s ≡ response) }
    {
        let shared: Result<Rc<Request>, AllocError> = response.request.clone();
        match shared {
            Ok(request) => Ok(Staged {
                authorizer: *authorizer,
                request,
                policies,
                entities,
                steps: Vec::new(alloc),
                response,
            }),
            Err(error) => {
                drop(response);
                Err(error)
            }
        }
    }

    /// The next stage: the response that follows by these values for unknowns, over this store. `LimitIsRecorded` where
    /// the errors of the last response hold the recursion limit, before anything else; `Refused` as `reauthorize`
    /// refuses; or `Memory`. Where no step is taken nothing changes.
    pub fn step(
        &mut self,
        alloc: Global,
        values: &'s HashMap<RcStr, Value>,
        entities: &'s Entities,
    ) -> Result<(), StageError>
        ensures step { OnOk result (GoesOn self.old values.now entities.now self.new) }
        ensures refused { IfErr result (IsWhyNot self.old values.now entities.now) }
        ensures unchanged { OnErr result (StaysAs self.old self.new) }
    {
        if has_limit(&self.response.errors) {
            return Err(StageError::LimitIsRecorded);
        }
        match self
            .response
            .reauthorize(alloc, values, &self.authorizer, entities)
        {
            Ok(response) => self.take(values, entities, response),
            Err(error) => Err(refusal(error)),
        }
    }

    // The response of a step from the last one.
    fn take(
        &mut self,
        values: &'s HashMap<RcStr, Value>,
        entities: &'s Entities,
        response: PartialResponse,
    ) -> Result<(), StageError>
        requires limit { has_limit (errors_of (response_of self.old)) ≡ false }
        requires step { IsStep (configuration (authorizer_of self.old)) (step_by values.now entities.now)
            (response_said (response_of self.old)) (Ok response) }
        ensures step { OnOk result (GoesOn self.old values.now entities.now self.new) }
        ensures memory { IfErr result IsMemory }
        ensures unchanged { OnErr result (StaysAs self.old self.new) }
    {
        match self.steps.push((values, entities)) {
            Ok(()) => {
                self.response = response;
                Ok(())
            }
            Err(_) => {
                drop(response);
                Err(StageError::Memory(AllocError))
            }
        }
    }
}

ghost use Rattle.cedar_staged.specs.Refusals.{IsRefusal};

// Why the step is refused.
pub(crate) fn refusal(error: ReauthorizationError) -> StageError
    ensures { IsRefusal error result }
{
    match error {
        ReauthorizationError::ErrorHandlingConflict {
            response,
            authorizer,
        } => {
            StageError::Refused(ReauthorizationError::ErrorHandlingConflict {
                response,
                authorizer,
            })
        }
        ReauthorizationError::PolicySetError(error) => {
            StageError::Refused(ReauthorizationError::PolicySetError(error))
        }
        ReauthorizationError::ConcretizationError(error) => {
            StageError::Refused(ReauthorizationError::ConcretizationError(error))
        }
        ReauthorizationError::Memory(error) => StageError::Memory(error),
    }
}
