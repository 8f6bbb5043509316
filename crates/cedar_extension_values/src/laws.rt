//! Laws of values of the standard extensions. Each function is a law, and does nothing.
ghost use Rattle.cedar_extension_values.specs.Answered.{AnswersComeToValues};
ghost use Rattle.cedar_extension_values.specs.Faithful.{CallsAreFaithful, ConstructedAreFaithful, OffsetsAreFaithful};
ghost use Rattle.cedar_extension_values.specs.Faithful.{ConstructedAreLow, OffsetsAreLow};
ghost use Rattle.cedar_extension_values.specs.FunctionLaws.{ConstructorsAreComputed, ConstructorsAskNothing};
ghost use Rattle.cedar_extension_values.specs.FunctionLaws.{ConstructorsAreFaithful, KeyFunctionsAreComputed};
ghost use Rattle.cedar_extension_values.specs.FunctionLaws.{KeyFunctionsAskNothing, KeyFunctionsAreFaithful};
ghost use Rattle.cedar_extension_values.specs.FunctionLaws.{TwoKeyFunctionsAreComputed, TwoKeyFunctionsAskNothing};
ghost use Rattle.cedar_extension_values.specs.FunctionLaws.{TwoKeyFunctionsAreFaithful};

use cedar_model::meaning::written_values_mean;

/// An extension value that is written as a call on the expressions of faithful arguments, which never asks and means
/// the value, is faithful.
pub fn calls_are_faithful()
    ensures { CallsAreFaithful }
{
    written_values_mean();
}

/// So is a value that is written as the constructor which makes it of a text, and a datetime that is written from 1970
/// on.
pub fn written_values_are_faithful()
    ensures constructed { ConstructedAreFaithful }
    ensures offsets { OffsetsAreFaithful }
{
    calls_are_faithful();
}

/// The expressions of such values are at most three levels high.
pub fn written_values_are_low()
    ensures constructed { ConstructedAreLow }
    ensures offsets { OffsetsAreLow }
{}

/// What a constructor answers is what it computes; it asks nothing, and the values that it answers are faithful where
/// a function of its name computes it.
pub fn constructors_are_faithful()
    ensures computed { ConstructorsAreComputed }
    ensures nothing_asked { ConstructorsAskNothing }
    ensures faithful { ConstructorsAreFaithful }
{
    written_values_are_faithful();
}

/// What a function of one key answers is what it computes, it asks nothing, and the values that it answers are
/// faithful, where that is so of what it does with the key.
pub fn functions_of_a_key()
    ensures computed { KeyFunctionsAreComputed }
    ensures nothing_asked { KeyFunctionsAskNothing }
    ensures faithful { KeyFunctionsAreFaithful }
{}

/// So it is of functions of two keys.
pub fn functions_of_two_keys()
    ensures computed { TwoKeyFunctionsAreComputed }
    ensures nothing_asked { TwoKeyFunctionsAskNothing }
    ensures faithful { TwoKeyFunctionsAreFaithful }
{}

/// Where a call answers exactly this unless it finds no memory, it comes to the outcome of that.
pub fn answers_come_to_values()
    ensures { AnswersComeToValues }
{}
