//! The numbers of keys, and computed numbers as values.
ghost use Rattle.std.specs.Prelude.{◌≡◌, Some, None, IfOk, IfErr};
ghost use Rattle.std.specs.Rc.{rc_str_bytes};
ghost use Rattle.cedar_model.specs.Failures.{function_has_failed, answers_value};
ghost use Rattle.cedar_errors.specs.Answers.{Answers, FailsWith};
ghost use Rattle.cedar_errors.specs.Errors.{error_loc};
ghost use Rattle.cedar_datetime.specs.Duration.{written};
ghost use Rattle.cedar_datetime.specs.Keys.{value_of_key};
ghost use Rattle.cedar_datetime_functions.specs.Names.{datetime_name, not_eight_bytes};
ghost use Rattle.cedar_datetime_functions.specs.Numbers.{datetime_value, duration_value, if_within};

use cedar_datetime::duration::write;
use cedar_datetime::keys::{key_of, value_of};
use cedar_errors::evaluator::err::EvaluationError;
use cedar_extension_values::{construct_value, fail_with_message, offset_from_epoch};
use cedar_values::Value;
use std::alloc::{AllocError, Global};
use std::rc::RcStr;

const NOT_EIGHT_BYTES: &str = "the key of a datetime or duration is not eight bytes";

const BEYOND_64_BITS: &str = "the answer is not within 64 bits of milliseconds";

// The number of this key; or the extension's error, where there are not eight bytes.
pub(crate) fn number_of(alloc: Global, key: &[u8]) -> Result<i64, EvaluationError>
    ensures ok { IfOk result (λ z. value_of_key key.now ≡ Some z) }
    ensures none { IfErr result (λ e. value_of_key key.now ≡ None) }
    ensures failure { IfErr result (λ e. FailsWith e (function_has_failed datetime_name not_eight_bytes)) }
    ensures place { IfErr result (λ e. error_loc e ≡ None) }
{
    match value_of(key) {
        Some(number) => Ok(number),
        None => Err(fail_with_message(alloc, "datetime", NOT_EIGHT_BYTES)),
    }
}

// The datetime of this number, if there is one within 64 bits; or the extension's error.
#[tactic(auto, unfolding(cedar_model::specs::Operators::expecting))]
pub(crate) fn datetime_if_within(
    alloc: Global,
    number: Option<i64>,
) -> Result<Value, EvaluationError>
    ensures answers { Answers result (if_within datetime_value number) }
    ensures value_place { IfOk result (λ v. v.loc ≡ None) }
    ensures error_place { IfErr result (λ e. error_loc e ≡ None) }
{
    match number {
        Some(number) => match datetime_value(alloc, number) {
            Ok(value) => Ok(value),
            Err(error) => Err(EvaluationError::Memory(error)),
        },
        None => Err(fail_with_message(alloc, "datetime", BEYOND_64_BITS)),
    }
}

// The duration of this number, if there is one within 64 bits; or the extension's error.
#[tactic(auto, unfolding(cedar_model::specs::Operators::expecting))]
pub(crate) fn duration_if_within(
    alloc: Global,
    number: Option<i64>,
) -> Result<Value, EvaluationError>
    ensures answers { Answers result (if_within duration_value number) }
    ensures value_place { IfOk result (λ v. v.loc ≡ None) }
    ensures error_place { IfErr result (λ e. error_loc e ≡ None) }
{
    match number {
        Some(number) => duration_of(alloc, number),
        None => Err(fail_with_message(alloc, "datetime", BEYOND_64_BITS)),
    }
}

// The duration of this number.
pub(crate) fn duration_of(alloc: Global, number: i64) -> Result<Value, EvaluationError>
    ensures answers { Answers result (answers_value (duration_value number)) }
    ensures value_place { IfOk result (λ v. v.loc ≡ None) }
    ensures error_place { IfErr result (λ e. error_loc e ≡ None) }
{
    match duration_value(alloc, number) {
        Ok(value) => Ok(value),
        Err(error) => Err(EvaluationError::Memory(error)),
    }
}

fn datetime_value(alloc: Global, number: i64) -> Result<Value, AllocError>
    ensures what { IfOk result (λ v. v.what ≡ datetime_value number) }
    ensures place { IfOk result (λ v. v.loc ≡ None) }
{
    let text = text_of(alloc, number)?;
    offset_from_epoch(alloc, &key_of(number), &text)
}

fn duration_value(alloc: Global, number: i64) -> Result<Value, AllocError>
    ensures what { IfOk result (λ v. v.what ≡ duration_value number) }
    ensures place { IfOk result (λ v. v.loc ≡ None) }
{
    let text = text_of(alloc, number)?;
    construct_value(alloc, "duration", &key_of(number), "duration", &text)
}

// The text of a duration of this number.
fn text_of(alloc: Global, number: i64) -> Result<RcStr, AllocError>
    ensures { IfOk result (λ text. rc_str_bytes text ≡ written number) }
{
    let text = write(alloc, number)?;
    RcStr::from_str(alloc, text.as_str())
}
