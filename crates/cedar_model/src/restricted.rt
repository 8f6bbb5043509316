//! Restricted expressions, and unknowns in residuals. Each function is a law, and does nothing.
ghost use Rattle.cedar_model.specs.laws.Restricted.{RestrictedReadsNothing, RestrictedStays};
ghost use Rattle.cedar_model.specs.laws.Restricted.{AnsweredResidualsHoldUnknowns, NoneIsDisallowed};
ghost use Rattle.cedar_model.specs.laws.Restricted.{DisallowedHasItsFeature};

use crate::levels::AnyFunctions;

/// What a restricted expression may answer depends on neither request, store, slots nor resolution.
pub fn restricted_reads_nothing<F: AnyFunctions>(functions: &F)
    ensures { RestrictedReadsNothing (F.calls functions.now) }
{}

/// A restricted expression answers a sound value, or a residual that is restricted.
pub fn restricted_stays<F: AnyFunctions>(functions: &F)
    ensures { RestrictedStays (F.calls functions.now) }
{}

/// A residual of any expression holds an unknown, where those that are given do.
pub fn residuals_hold_unknowns<F: AnyFunctions>(functions: &F)
    ensures { AnsweredResidualsHoldUnknowns (F.calls functions.now) }
{}

/// No part is disallowed exactly where the expression is restricted, and the first one that is has the feature of its
/// node.
pub fn restricted_has_no_disallowed_part()
    ensures none { NoneIsDisallowed }
    ensures feature { DisallowedHasItsFeature }
{}
