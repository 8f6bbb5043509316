//! Worked examples: what responses say, which steps are refused, and chains. Each function is a set of examples, and
//! does nothing.
ghost use Rattle.cedar_model.specs.examples.Chains.{OtherModeIsRefused, ErringForbid, StrictChain};
ghost use Rattle.cedar_model.specs.examples.Chains.{StrictChainIsCompleted};
ghost use Rattle.cedar_model.specs.examples.Chains.{ForbidDecides, AllAreCarried, CarriedByReport, ForbidErrorsFirst};
ghost use Rattle.cedar_model.specs.examples.Chains.{OtherReaders, GetFindsThePermit, ResidualForbidHolds};
ghost use Rattle.cedar_model.specs.examples.Chains.{ResidualPermitMay, EarlyDeny, KnownEntryIsRefused};
ghost use Rattle.cedar_model.specs.examples.Chains.{NoEntityIsRefused, OtherTypeIsRefused, UnknownBecomesKnown};
ghost use Rattle.cedar_model.specs.examples.Chains.{ContextIsARecord, ContextBesideIsRefused, RepeatedIdIsRefused};
ghost use Rattle.cedar_model.specs.examples.Chains.{ContextErrorIsRefused, ContextLimitIsRefused};
ghost use Rattle.cedar_model.specs.examples.Chains.{ContextIsReadUnderTheOldRequest, TwoSteps};
ghost use Rattle.cedar_model.specs.examples.Chains.{TwoStepsAreCompleted, EndsAtTheLimit, RefusalEndsAChain};
ghost use Rattle.cedar_model.specs.examples.StoredChains.{StepsRead, DeepStepIsCompleted, StepsDiffer};
ghost use Rattle.cedar_model.specs.examples.StoredChains.{DifferingStepsAreCompleted, DeepStepFinishes};

/// Examples: what responses say.
pub fn responses_say()
    ensures forbid_decides { ForbidDecides }
    ensures all_are_carried { AllAreCarried }
    ensures carried_by_report { CarriedByReport }
    ensures forbid_errors_first { ForbidErrorsFirst }
    ensures other_readers { OtherReaders }
    ensures get_finds_the_permit { GetFindsThePermit }
    ensures residual_forbid_holds { ResidualForbidHolds }
    ensures residual_permit_may { ResidualPermitMay }
    ensures early_deny { EarlyDeny }
{}

/// Examples: the request that a map makes, and what it refuses.
pub fn maps_make_requests()
    ensures known_entry { KnownEntryIsRefused }
    ensures no_entity { NoEntityIsRefused }
    ensures other_type { OtherTypeIsRefused }
    ensures becomes_known { UnknownBecomesKnown }
    ensures no_record { ContextIsARecord }
    ensures context_beside { ContextBesideIsRefused }
{}

/// Examples: steps that are refused, and the request that a context is read under.
pub fn steps_answer()
    ensures other_mode { OtherModeIsRefused }
    ensures repeated_id { RepeatedIdIsRefused }
    ensures context_error { ContextErrorIsRefused }
    ensures context_limit { ContextLimitIsRefused }
    ensures old_request { ContextIsReadUnderTheOldRequest }
{}

/// Examples: a chain of two steps, a world that completes it, chains that end before their last step, and a chain where
/// an erring forbid counts, with a world that completes it.
pub fn chains_answer()
    ensures two_steps { TwoSteps }
    ensures completed { TwoStepsAreCompleted }
    ensures ends_at_limit { EndsAtTheLimit }
    ensures ends_at_refusal { RefusalEndsAChain }
    ensures erring_forbid { ErringForbid }
    ensures strict { StrictChain }
    ensures strict_completed { StrictChainIsCompleted }
{}

/// Examples: a step that reads a stored residual, with each resolution, and a chain of a shallow and a deep step, each
/// with a world that completes it; and a deep step that leaves no residual, as the law of progress says.
pub fn steps_resolve()
    ensures read { StepsRead }
    ensures completed { DeepStepIsCompleted }
    ensures differ { StepsDiffer }
    ensures differing_completed { DifferingStepsAreCompleted }
    ensures finishes { DeepStepFinishes }
{}
