//! The depth bound: how many levels an expression can need. Each function is a law, and does nothing.
ghost use Rattle.cedar_model.specs.Depth.{NeedIsBounded, AnswersAreNoHigher, SubstitutedContextsAreNoHigher};
ghost use Rattle.cedar_model.specs.Depth.{RestrictedNeedIsAtMostHeight, StepNeedIsBounded};

use crate::levels::AnyFunctions;

/// With a bound on the heights of the context, stored parts, mapped values and functions' answers, the need is
/// at most the expression's height and that bound together; with deep resolution the height and twice the bound.
pub fn need_is_bounded<F: AnyFunctions>(functions: &F)
    ensures { NeedIsBounded (F.calls functions.now) }
{}

/// With the same bound, so is the height of what is answered; and a context that is substituted is at most twice
/// as high: with deep resolution where the values that are put in are sound.
pub fn answers_are_no_higher<F: AnyFunctions>(functions: &F)
    ensures answers { AnswersAreNoHigher (F.calls functions.now) }
    ensures contexts { SubstitutedContextsAreNoHigher (F.calls functions.now) }
{}

/// The need of a restricted expression is at most its height, whatever is given.
pub fn restricted_need_is_at_most_height<F: AnyFunctions>(functions: &F)
    ensures { RestrictedNeedIsAtMostHeight (F.calls functions.now) }
{}

/// In the run of a step, whose context may have been substituted, the need is at most the height and twice the bound,
/// with either resolution.
pub fn step_need_is_bounded<F: AnyFunctions>(functions: &F)
    ensures { StepNeedIsBounded (F.calls functions.now) }
{}
