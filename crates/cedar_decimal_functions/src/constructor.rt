//! The constructor of decimals.
ghost use Rattle.std.specs.Prelude.{◌≡◌, None, IfOk, IfErr};
ghost use Rattle.cedar_errors.specs.Answers.{Answers};
ghost use Rattle.cedar_errors.specs.Errors.{error_loc};
ghost use Rattle.cedar_extension_values.specs.Answered.{abstracts};
ghost use Rattle.cedar_decimal_functions.specs.Decimals.{decimal_answer};

use cedar_decimal::key;
use cedar_errors::evaluator::err::EvaluationError;
use cedar_extension_values::{construct_value, fail_with_message, first_text};
use cedar_values::Value;
use std::alloc::Global;

const NOT_A_DECIMAL: &str =
    "not a decimal with one to four digits behind the dot, within 64 bits of ten-thousandths";

/// `decimal`: the decimal that the text writes, which is the first argument, written as the call on that text. A
/// `TypeError` that expects a text where it is no text, and `FailedExtensionFunctionExecution` of `decimal` where the
/// text writes no decimal; else the only error is `Memory`. Values and errors are at no place.
#[tactic(auto, unfolding(cedar_model::specs::Operators::expecting, cedar_extension_values::specs::Functions::written_or_failed))]
pub fn decimal(alloc: Global, args: &[Value]) -> Result<Value, EvaluationError>
    ensures answers { Answers result (decimal_answer (abstracts args.now)) }
    ensures value_place { IfOk result (λ v. v.loc ≡ None) }
    ensures error_place { IfErr result (λ e. error_loc e ≡ None) }
{
    match first_text(alloc, args) {
        Ok(text) => match key(text.as_str()) {
            Some(key) => match construct_value(alloc, "decimal", &key, "decimal", text) {
                Ok(value) => Ok(value),
                Err(error) => Err(EvaluationError::Memory(error)),
            },
            None => Err(fail_with_message(alloc, "decimal", NOT_A_DECIMAL)),
        },
        Err(error) => Err(error),
    }
}
