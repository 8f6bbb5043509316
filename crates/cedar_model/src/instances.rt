//! That the premises of the laws can be met. Each function is a set of instances, and does nothing.
ghost use Rattle.cedar_model.specs.examples.Instances.{UnknownsAreCompleted, FunctionsCanAnswer, NoFunctionMustAnswer};
ghost use Rattle.cedar_model.specs.examples.Instances.{WaitingIsSound, ProjectedValueNeedsFour, VariablesInContextsNeedMore};
ghost use Rattle.cedar_model.specs.examples.Instances.{ContextGrows, VariableIsDisallowed, FirstKeyIsDisallowed};

/// A world completes a request with an unknown principal and a residual context, and a store, concrete or
/// partial, with an unknown attribute; and there are functions that answer a value, an error or an unknown.
pub fn premises_can_be_met()
    ensures completed { UnknownsAreCompleted }
    ensures functions { FunctionsCanAnswer }
    ensures none { NoFunctionMustAnswer }
    ensures sound { WaitingIsSound }
{}

/// Examples: the depth bound, why it asks that residuals are restricted, and why a step has twice the bound.
pub fn depths_are_bounded()
    ensures projected { ProjectedValueNeedsFour }
    ensures looped { VariablesInContextsNeedMore }
    ensures grown { ContextGrows }
{}

/// Examples: the first disallowed part.
pub fn parts_are_disallowed()
    ensures variable { VariableIsDisallowed }
    ensures first_key { FirstKeyIsDisallowed }
{}
