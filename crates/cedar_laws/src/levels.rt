//! Levels of whole runs. Each function is a law, and does nothing.
ghost use Rattle.cedar_laws.specs.LevelRuns.{MoreLevelsKeepRuns, MoreLevelsChangeOnlyLimits};

use cedar_model::levels::AnyFunctions;

/// A run that records no recursion limit is a run with more levels too; and whatever a run records, more levels change
/// of it only what is reported of the policies that met the limit.
pub fn levels_keep_runs<F: AnyFunctions>(functions: &F)
    ensures keep { MoreLevelsKeepRuns (F.calls functions.now) }
    ensures change { MoreLevelsChangeOnlyLimits (F.calls functions.now) }
{}
