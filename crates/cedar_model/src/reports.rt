//! What a response says. Each function is a law, and does nothing.
ghost use Rattle.cedar_model.specs.laws.Reports.{BoundsHold, GivenIsConcrete, ConcreteIsDefined, ConcreteDecidesRows};
ghost use Rattle.cedar_model.specs.laws.Reports.{RunsWithoutResidualsAreResponses, EachIsCarriedOnce};

use crate::levels::AnyFunctions;

/// Wherever the rows stand, a given decision is that of the policies, and their reasons lie between the two bounds.
pub fn reports_hold()
    ensures { BoundsHold }
{}

/// A given decision is the concrete one, which is that of the rows; and where rows without a residual stand, decision
/// and reasons are those of the policies.
pub fn concrete_is_defined()
    ensures given { GivenIsConcrete }
    ensures rows { ConcreteDecidesRows }
    ensures defined { ConcreteIsDefined }
{}

/// A run that leaves no residual is concrete as the response to its policies.
pub fn runs_without_residuals_are_responses<F: AnyFunctions>(functions: &F)
    ensures { RunsWithoutResidualsAreResponses (F.calls functions.now) }
{}

/// The policies that are carried on are the rows, each once.
pub fn each_is_carried_once()
    ensures { EachIsCarriedOnce }
{}
