//! Laws of the functions of ranges. Each function is a law, and does nothing.
ghost use Rattle.cedar_extension_values.specs.Functions.{IsComputed, AsksNothing};
ghost use Rattle.cedar_ip_functions.specs.Ranges.{ip_answer, ip_made};
ghost use Rattle.cedar_ip_functions.specs.Questions.{is_in_range_answer, is_in_range_made};
ghost use Rattle.cedar_ip_functions.specs.Laws.{QuestionsAreComputed, QuestionsAskNothing};
ghost use Rattle.cedar_ip_functions.specs.Laws.{RangesAreFaithful, QuestionsAreFaithful, InRangeIsFaithful};

use cedar_extension_values::laws::{
    constructors_are_faithful, functions_of_a_key, functions_of_two_keys,
};

/// What each function answers is what it computes: the value, or an error of that kind.
pub fn are_computed()
    ensures ranges { IsComputed ip_answer ip_made }
    ensures questions { QuestionsAreComputed }
    ensures in_range { IsComputed is_in_range_answer is_in_range_made }
{
    constructors_are_faithful();
    functions_of_a_key();
    functions_of_two_keys();
}

/// None of the functions asks for an unknown.
pub fn ask_nothing()
    ensures ranges { AsksNothing ip_made }
    ensures questions { QuestionsAskNothing }
    ensures in_range { AsksNothing is_in_range_made }
{
    constructors_are_faithful();
    functions_of_a_key();
    functions_of_two_keys();
}

/// What each function answers is faithful, over any extensions and functions that have `ip` with its definition.
pub fn are_faithful()
    ensures ranges { RangesAreFaithful }
    ensures questions { QuestionsAreFaithful }
    ensures in_range { InRangeIsFaithful }
{
    constructors_are_faithful();
    functions_of_a_key();
    functions_of_two_keys();
}
