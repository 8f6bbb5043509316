//! The residual rules and the meaning. Each function is a law, and does nothing.
ghost use Rattle.cedar_model.specs.laws.Soundness.{AllowedIsMeant, NeedIsAtMostHeight, OwnWorldAgrees, ResidualsAreSound};
ghost use Rattle.cedar_model.specs.laws.Soundness.{WrittenValuesMean, ExtendedHasIsConjunction};

use crate::levels::AnyFunctions;

/// Where nothing is unknown, what is allowed is the meaning, and no residual; and the need is at most the height.
pub fn known_is_meant<F: AnyFunctions>(functions: &F)
    ensures allowed { AllowedIsMeant (F.calls functions.now) }
    ensures need { NeedIsAtMostHeight (F.calls functions.now) }
{}

/// The own world of a request and a store in which nothing is unknown agrees with them.
pub fn own_world_agrees()
    ensures { OwnWorldAgrees }
{}

/// Residual soundness, for all kinds of expressions.
pub fn residuals_are_sound<F: AnyFunctions>(functions: &F)
    ensures { ResidualsAreSound (F.calls functions.now) }
{}

/// The expression of a faithful value means the value, in every world.
pub fn written_values_mean()
    ensures { WrittenValuesMean }
{}

/// An extended `has` is a conjunction.
pub fn extended_has_is_a_conjunction()
    ensures { ExtendedHasIsConjunction }
{}
