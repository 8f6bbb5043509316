//! Progress. Each function is a law, and does nothing.
ghost use Rattle.cedar_model.specs.Progress.{StepsFinish};

use crate::levels::AnyFunctions;

/// A step whose map names every unknown, over a concrete store of values, leaves no residual; and where its rows
/// stand, its concrete decision and reasons are those of the policies. With deep resolution the store may also hold
/// residuals of which the map names every unknown.
pub fn steps_finish<F: AnyFunctions>(functions: &F)
    ensures { StepsFinish (F.calls functions.now) }
{}
