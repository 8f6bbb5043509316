//! Runs, and steps from one response to the next. Each function is a law, and does nothing.
ghost use Rattle.cedar_model.specs.laws.Responses.{RunsStand, StepsKeepCompletions, StepsKeepWhatStands};

use crate::levels::AnyFunctions;

/// What a run reports stands in every completion.
pub fn runs_stand<F: AnyFunctions>(functions: &F)
    ensures { RunsStand (F.calls functions.now) }
{}

/// A world that completes the request before a step completes the one after it.
pub fn steps_keep_completions<F: AnyFunctions>(functions: &F)
    ensures { StepsKeepCompletions (F.calls functions.now) }
{}

/// A step of a chain keeps what stands.
pub fn steps_keep_what_stands<F: AnyFunctions>(functions: &F)
    ensures { StepsKeepWhatStands (F.calls functions.now) }
{}
