//! Chains of steps. Each function is a law, and does nothing.
ghost use Rattle.cedar_model.specs.laws.Chains.{RefusalIsOne, LimitsAreSeen, NoEarlierLimit, NothingIsTakenBack};
ghost use Rattle.cedar_model.specs.laws.Chains.{ChainsBegin, StepsAnswer, ChainsAnswer};
ghost use Rattle.cedar_model.specs.Headline.{ChainsStand};

use crate::levels::AnyFunctions;

/// What the last response of a chain reports stands, in every completion: a given decision is the completion's, and the
/// policies that determine it lie between the two bounds.
pub fn chains_stand<F: AnyFunctions>(functions: &F)
    ensures { ChainsStand (F.calls functions.now) }
{}

/// There is a first response, and each step and each chain answers a response or a refusal, where the functions that
/// exist answer, and never running out of memory.
pub fn chains_have_answers<F: AnyFunctions>(functions: &F)
    ensures first { ChainsBegin (F.calls functions.now) }
    ensures step { StepsAnswer (F.calls functions.now) }
    ensures chain { ChainsAnswer (F.calls functions.now) }
{}

/// A step answers responses alone, or one refusal.
pub fn refusal_is_one<F: AnyFunctions>(functions: &F)
    ensures { RefusalIsOne (F.calls functions.now) }
{}

/// Where the last response of a chain holds no recursion limit, none before it does.
pub fn limits_show_in_the_last<F: AnyFunctions>(functions: &F)
    ensures seen { LimitsAreSeen }
    ensures none { NoEarlierLimit (F.calls functions.now) }
{}

/// A step takes nothing back.
pub fn nothing_is_taken_back<F: AnyFunctions>(functions: &F)
    ensures { NothingIsTakenBack (F.calls functions.now) }
{}
