//! The constructors of datetimes and durations.
ghost use Rattle.std.specs.Prelude.{◌≡◌, None, IfOk, IfErr, option_map};
ghost use Rattle.std.specs.Rc.{rc_str_bytes};
ghost use Rattle.cedar_model.specs.Failures.{function_has_failed};
ghost use Rattle.cedar_errors.specs.Answers.{Answers};
ghost use Rattle.cedar_errors.specs.Errors.{error_loc};
ghost use Rattle.cedar_datetime.specs.Keys.{key};
ghost use Rattle.cedar_extension_values.specs.Answered.{abstracts};
ghost use Rattle.cedar_extension_values.specs.Functions.{written_or_failed};
ghost use Rattle.cedar_datetime_functions.specs.Constructors.{datetime_answer, duration_answer};
ghost use Rattle.cedar_datetime_functions.specs.Names.{datetime_name};

use cedar_datetime::keys::key_of;
use cedar_errors::evaluator::err::EvaluationError;
use cedar_extension_values::{construct_value, fail_with_message, first_text};
use cedar_values::Value;
use std::alloc::Global;
use std::rc::RcStr;

const NOT_A_DATETIME: &str = "not a date `YYYY-MM-DD`, alone or with a time and a zone";

const NOT_A_DURATION: &str = "not a duration as `1d2h3m4s5ms`, within 64 bits of milliseconds";

/// `datetime`: the datetime that the text writes, which is the first argument, written as the call on that text. A
/// `TypeError` that expects a text where it is no text, and `FailedExtensionFunctionExecution` of `datetime` where the
/// text writes no datetime; else the only error is `Memory`. Values and errors are at no place.
#[tactic(auto, unfolding(cedar_model::specs::Operators::expecting))]
pub fn datetime(alloc: Global, args: &[Value]) -> Result<Value, EvaluationError>
    ensures answers { Answers result (datetime_answer (abstracts args.now)) }
    ensures value_place { IfOk result (λ v. v.loc ≡ None) }
    ensures error_place { IfErr result (λ e. error_loc e ≡ None) }
{
    match first_text(alloc, args) {
        Ok(text) => {
            let number = cedar_datetime::datetime::parse(text.as_str());
            made_of(alloc, text, "datetime", number, NOT_A_DATETIME)
        }
        Err(error) => Err(error),
    }
}

/// `duration`: the duration that the text writes, which is the first argument, written as the call on that text. A
/// `TypeError` that expects a text where it is no text, and `FailedExtensionFunctionExecution` of `datetime` where the
/// text writes no duration; else the only error is `Memory`. Values and errors are at no place.
#[tactic(auto, unfolding(cedar_model::specs::Operators::expecting))]
pub fn duration(alloc: Global, args: &[Value]) -> Result<Value, EvaluationError>
    ensures answers { Answers result (duration_answer (abstracts args.now)) }
    ensures value_place { IfOk result (λ v. v.loc ≡ None) }
    ensures error_place { IfErr result (λ e. error_loc e ≡ None) }
{
    match first_text(alloc, args) {
        Ok(text) => {
            let number = cedar_datetime::duration::parse(text.as_str());
            made_of(alloc, text, "duration", number, NOT_A_DURATION)
        }
        Err(error) => Err(error),
    }
}

// The value of the number that the text writes, by the constructor that is named as its type; or the extension's error.
#[tactic(auto, unfolding(cedar_extension_values::specs::Functions::written_or_failed))]
fn made_of(
    alloc: Global,
    text: &RcStr,
    name: &str,
    number: Option<i64>,
    message: &str,
) -> Result<Value, EvaluationError>
    ensures answers { Answers result (written_or_failed name.now name.now
        (function_has_failed datetime_name message.now) (rc_str_bytes text.now) (option_map key number)) }
    ensures value_place { IfOk result (λ v. v.loc ≡ None) }
    ensures error_place { IfErr result (λ e. error_loc e ≡ None) }
{
    match number {
        Some(number) => match construct_value(alloc, name, &key_of(number), name, text) {
            Ok(value) => Ok(value),
            Err(error) => Err(EvaluationError::Memory(error)),
        },
        None => Err(fail_with_message(alloc, "datetime", message)),
    }
}
