//! What holds no extension value is faithful. Each function is a law, and does nothing.
ghost use Rattle.cedar_laws.specs.Faithful.{ValuesAreFaithful, ContextsAreFaithful, StoresAreFaithful};
ghost use Rattle.cedar_laws.specs.Faithful.{MapsAreFaithful, ValuesAreKnown, GivenIsFaithful, FunctionsAreFaithful};
ghost use Rattle.cedar_laws.specs.Faithful.{FunctionsAnswerAsAgreed, NoFunctionOwes};
ghost use Rattle.cedar_laws.specs.Faithful.{RestrictedHoldsNoExtensionValue};
ghost use Rattle.cedar_laws.specs.FaithfulInstances.{ListingHoldsNone, FunctionsHoldNone, ListedIsAnswered};

use cedar_model::levels::AnyFunctions;

/// A sound value in which no extension value stands is faithful, whatever the functions of a world answer, and is
/// written without an unknown; so it is of the values of a context, of a store and of a map.
pub fn values_without_extensions_are_faithful()
    ensures values { ValuesAreFaithful }
    ensures contexts { ContextsAreFaithful }
    ensures stores { StoresAreFaithful }
    ensures maps { MapsAreFaithful }
    ensures known { ValuesAreKnown }
{}

/// All that an evaluation is given is faithful, where it is sound and holds no extension value.
pub fn given_without_extensions_is_faithful<F: AnyFunctions>(functions: &F)
    ensures { GivenIsFaithful (F.calls functions.now) }
{}

/// Functions that answer no extension value answer faithfully: such are those with which functions of a world agree
/// that give none. Where none answers at all, each premise on functions holds, whatever the functions of a world
/// answer.
pub fn functions_without_extensions_are_faithful<F: AnyFunctions>(functions: &F)
    ensures faithful { FunctionsAreFaithful (F.calls functions.now) }
    ensures agreed { FunctionsAnswerAsAgreed (F.calls functions.now) }
    ensures none { NoFunctionOwes (F.calls functions.now) }
{}

/// A restricted expression answers no extension value, where functions answer none and the map has none.
pub fn restricted_expressions_hold_no_extensions<F: AnyFunctions>(functions: &F)
    ensures { RestrictedHoldsNoExtensionValue (F.calls functions.now) }
{}

/// Examples: a record with a set in it stands in a context, in a store and in a map, and a restricted expression
/// answers it; where no function answers, and beside functions that answer no extension value.
pub fn records_hold_no_extensions()
    ensures given { ListingHoldsNone }
    ensures functions { FunctionsHoldNone }
    ensures answered { ListedIsAnswered }
{}
