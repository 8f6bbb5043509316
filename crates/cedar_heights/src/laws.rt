//! What these heights say of the depth bound. Each function is a law, and does nothing.
ghost use Rattle.cedar_heights.specs.Limits.{ValuesAddTheirHeight, ConditionsAreNoHigher, CarriedAreNoHigher};
ghost use Rattle.cedar_heights.specs.Limits.{EntitiesAreNoHigher, EnoughIsDeepEnough, EnoughIsDeepEnoughForStep};
ghost use Rattle.cedar_heights.specs.Limits.{AnswersAreNoHigher};
ghost use Rattle.std.specs.Prelude.{◌≡◌, ℕ, max, []};
ghost use Rattle.cedar_extensions.specs.Extensions.{extensions_in, made_calls_of, calls_of};

use cedar_extensions::Extensions;
use cedar_model::levels::AnyFunctions;

/// Where what is given has at most so many levels, it has with values in place of unknowns at most so many more as the
/// highest of the values.
pub fn values_add_their_height<F: AnyFunctions>(functions: &F)
    ensures { ValuesAddTheirHeight (F.calls functions.now) }
{}

/// No condition is higher than the highest of them, and what a step carries on is hardly higher than the highest
/// residual.
pub fn conditions_are_no_higher()
    ensures conditions { ConditionsAreNoHigher }
    ensures carried { CarriedAreNoHigher }
{}

/// What a store holds of these entities is no higher than the highest that they have.
pub fn entities_are_no_higher()
    ensures { EntitiesAreNoHigher }
{}

/// With the levels of `levels_for` a call has the premises of the depth bound, and with those of `levels_for_step` a
/// step has them.
pub fn enough_is_deep_enough<F: AnyFunctions>(functions: &F)
    ensures call { EnoughIsDeepEnough (F.calls functions.now) }
    ensures step { EnoughIsDeepEnoughForStep (F.calls functions.now) }
{}

/// What functions answer has at most three levels where the caller made none: a computed datetime is written as
/// `datetime("1970-01-01").offset(duration("5ms"))`. Beside functions that the caller made it has as many as that, or as
/// what theirs answer has.
pub fn standard_answers_are_low(extensions: &Extensions<'_>)
    ensures alone { extensions_in extensions.now ≡ [] → AnswersAreNoHigher (calls_of extensions.now) 3 }
    ensures beside { (n : ℕ) → AnswersAreNoHigher (made_calls_of extensions.now) n →
        AnswersAreNoHigher (calls_of extensions.now) (max 3 n) }
{}
