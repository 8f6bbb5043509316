//! What two runs of the same policies have in common. Each function is a law, and does nothing.
ghost use Rattle.cedar_laws.specs.AlikeRuns.{RunsAreAlike, AlikeRunsAnswerAlike, AlikeRowsReportTheSame};
ghost use Rattle.cedar_laws.specs.AlikeRuns.{AlikeRowsAreEqual};
ghost use Rattle.cedar_laws.specs.EqualRuns.{ExpressionsHaveOneAnswer, RunsAreEqual};

use cedar_model::levels::AnyFunctions;

/// Two runs of the same policies, with all else equal, report the same of each, residuals but for the calls in them,
/// and record errors of the same kinds: from stored functions that answer alike to equal arguments.
pub fn runs_are_alike<F: AnyFunctions>(functions: &F)
    ensures { RunsAreAlike (F.calls functions.now) }
{}

/// Alike runs report the same decision and the same policies that must and may determine it, and are made concrete as
/// the same decision, for the same reasons, with errors of the same kinds; and without residuals their rows are equal.
pub fn alike_runs_say_the_same()
    ensures reports { AlikeRowsReportTheSame }
    ensures answers { AlikeRunsAnswerAlike }
    ensures equal { AlikeRowsAreEqual }
{}

/// Where each stored function has one answer to the same arguments, so has each expression, and two runs of the same
/// policies, with all else equal, have the same rows and the same errors, with all their fields.
pub fn runs_are_equal<F: AnyFunctions>(functions: &F)
    ensures expressions { ExpressionsHaveOneAnswer (F.calls functions.now) }
    ensures runs { RunsAreEqual (F.calls functions.now) }
{}
