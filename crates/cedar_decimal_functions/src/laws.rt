//! Laws of the functions of decimals. Each function is a law, and does nothing.
ghost use Rattle.cedar_extension_values.specs.Functions.{IsComputed, AsksNothing};
ghost use Rattle.cedar_decimal_functions.specs.Decimals.{decimal_answer, decimal_made};
ghost use Rattle.cedar_decimal_functions.specs.Laws.{ComparisonsAreComputed, ComparisonsAskNothing};
ghost use Rattle.cedar_decimal_functions.specs.Laws.{DecimalsAreFaithful, ComparisonsAreFaithful};

use cedar_extension_values::laws::{constructors_are_faithful, functions_of_two_keys};

/// What each function answers is what it computes: the value, or an error of that kind.
pub fn are_computed()
    ensures decimals { IsComputed decimal_answer decimal_made }
    ensures comparisons { ComparisonsAreComputed }
{
    constructors_are_faithful();
    functions_of_two_keys();
}

/// None of the functions asks for an unknown.
pub fn ask_nothing()
    ensures decimals { AsksNothing decimal_made }
    ensures comparisons { ComparisonsAskNothing }
{
    constructors_are_faithful();
    functions_of_two_keys();
}

/// What each function answers is faithful, over any extensions and functions that have `decimal` with its definition.
pub fn are_faithful()
    ensures decimals { DecimalsAreFaithful }
    ensures comparisons { ComparisonsAreFaithful }
{
    constructors_are_faithful();
    functions_of_two_keys();
}
