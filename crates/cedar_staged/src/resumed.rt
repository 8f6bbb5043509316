//! A decision that is taken further from a response, as one that was read of another machine's line.
ghost use Rattle.std.specs.Prelude.{◌≡◌, Ok};
ghost use Rattle.cedar_authorizer.specs.Configured.{configuration, resolution_of};
ghost use Rattle.cedar_authorizer.specs.Headline.{steps_view, IsTakenFurther};

use crate::errors::StageError;
use crate::limits::has_limit;
use crate::staged::refusal;
use cedar_authorizer::authorizer::{Authorizer, PartialResponse};
use cedar_layers::policies::Entities;
use cedar_values::Value;
use std::alloc::{AllocError, Global};
use std::collections::HashMap;
use std::rc::{Rc, RcStr};

/// A decision that is taken further from a first response, with the stages since, and what is known by now.
#[derive(Drop)]
pub struct Resumed<'f, 's> {
    pub(crate) authorizer: Authorizer<'f>,
    pub(crate) first: Rc<PartialResponse>,
    pub(crate) steps: Vec<(&'s HashMap<RcStr, Value>, &'s Entities)>,
    pub(crate) response: Rc<PartialResponse>,
    ghost chain: { ∥ IsTakenFurther (configuration authorizer) (steps_view (resolution_of authorizer) steps.items)
        first.value (Ok response.value) ∥₁ },
}

impl<'f, 's> Resumed<'f, 's> {
    ghost use Rattle.std.specs.Prelude.{false, [], IfOk, IfErr, OnOk, OnErr};
    ghost use Rattle.cedar_model.specs.Chains.{has_limit};
    ghost use Rattle.cedar_authorizer.specs.Running.{errors_of};
    ghost use Rattle.cedar_authorizer.specs.Steps.{step_by, response_said, IsStep};
    ghost use Rattle.cedar_staged.specs.Refusals.{IsMemory};
    ghost use Rattle.cedar_staged.specs.Resumptions.{authorizer_of, response_of, IsResumedFrom};
    ghost use Rattle.cedar_staged.specs.Resumptions.{GoesOn, IsWhyNot, StaysAs};

    /// The response is taken further from here on: no step is taken yet. Refuses only if out of memory.
    pub fn resume(
        alloc: Global,
        authorizer: &Authorizer<'f>,
        response: PartialResponse,
    ) -> Result<Resumed<'f, 's>, AllocError>
        ensures resumed { IfOk result (IsResumedFrom authorizer.now response) }
    {
        let first = Rc::new(alloc, response)?;
        let shared: Result<Rc<PartialResponse>, AllocError> = first.clone();
        match shared {
            Ok(response) => Ok(Resumed {
                authorizer: *authorizer,
                first,
                steps: Vec::new(alloc),
                response,
            }),
            Err(error) => {
                drop(first);
                Err(error)
            }
        }
    }

    /// The next stage: the response that follows by these values for unknowns, over this store. `LimitIsRecorded` where
    /// the errors of the last response hold the recursion limit, before anything else, also where that was read;
    /// `Refused` as `reauthorize` refuses; or `Memory`. Where no step is taken nothing changes.
    pub fn step(
        &mut self,
        alloc: Global,
        values: &'s HashMap<RcStr, Value>,
        entities: &'s Entities,
    ) -> Result<(), StageError>
        ensures step { OnOk result (GoesOn self.old values.now entities.now self.new) }
        ensures refused { IfErr result (IsWhyNot self.old values.now entities.now) }
        ensures unchanged { OnErr result (StaysAs self.old self.new) }
    {
        if has_limit(&self.response.errors) {
            return Err(StageError::LimitIsRecorded);
        }
        match self
            .response
            .reauthorize(alloc, values, &self.authorizer, entities)
        {
            Ok(response) => self.take(alloc, values, entities, response),
            Err(error) => Err(refusal(error)),
        }
    }

    // The response of a step from the last one.
    fn take(
        &mut self,
        alloc: Global,
        values: &'s HashMap<RcStr, Value>,
        entities: &'s Entities,
        response: PartialResponse,
    ) -> Result<(), StageError>
        requires limit { has_limit (errors_of (response_of self.old)) ≡ false }
        requires step { IsStep (configuration (authorizer_of self.old)) (step_by values.now entities.now)
            (response_said (response_of self.old)) (Ok response) }
        ensures step { OnOk result (GoesOn self.old values.now entities.now self.new) }
        ensures memory { IfErr result IsMemory }
        ensures unchanged { OnErr result (StaysAs self.old self.new) }
    {
        match Rc::new(alloc, response) {
            Ok(response) => self.take_shared(values, entities, response),
            Err(_) => Err(StageError::Memory(AllocError)),
        }
    }

    fn take_shared(
        &mut self,
        values: &'s HashMap<RcStr, Value>,
        entities: &'s Entities,
        response: Rc<PartialResponse>,
    ) -> Result<(), StageError>
        requires limit { has_limit (errors_of (response_of self.old)) ≡ false }
        requires step { IsStep (configuration (authorizer_of self.old)) (step_by values.now entities.now)
            (response_said (response_of self.old)) (Ok response.value) }
        ensures step { OnOk result (GoesOn self.old values.now entities.now self.new) }
        ensures memory { IfErr result IsMemory }
        ensures unchanged { OnErr result (StaysAs self.old self.new) }
    {
        match self.steps.push((values, entities)) {
            Ok(()) => {
                self.response = response;
                Ok(())
            }
            Err(_) => {
                drop(response);
                Err(StageError::Memory(AllocError))
            }
        }
    }
}
