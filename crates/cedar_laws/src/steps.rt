//! Chains whose steps are taken one by one. Each function is a law, and does nothing.
ghost use Rattle.cedar_laws.specs.EqualSteps.{StepsAreEqual, ChainsAreEqual, StepsAreAlike};
ghost use Rattle.cedar_laws.specs.StepChains.{ChainsGoOn};

use cedar_model::levels::AnyFunctions;

/// A chain whose last response holds no recursion limit goes on by one step more, whatever resolution the step has: the
/// longer chain answers the response or the refusal that the step does.
pub fn chains_go_on<F: AnyFunctions>(functions: &F)
    ensures { ChainsGoOn (F.calls functions.now) }
{}

/// Where each stored function has one answer to the same arguments, a step and a chain answer one response or one
/// refusal.
pub fn steps_are_equal<F: AnyFunctions>(functions: &F)
    ensures step { StepsAreEqual (F.calls functions.now) }
    ensures chain { ChainsAreEqual (F.calls functions.now) }
{}

/// A step that evaluates no context again answers one refusal, or responses to one request that report the same of each
/// policy, residuals but for the calls in them, with errors of the same kinds: from stored functions that answer alike
/// to equal arguments.
pub fn steps_are_alike<F: AnyFunctions>(functions: &F)
    ensures { StepsAreAlike (F.calls functions.now) }
{}
